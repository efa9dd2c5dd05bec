// What a source of the real world reads from.
use std::fs::File;

/// The standard input, or a file.
#[derive(Drop)]
pub enum Opened<I> {
    Standard(I),
    Disk(File),
}
