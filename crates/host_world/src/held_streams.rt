// The numbers of the standard streams.
use std::fs::{File, OpenOptions};
use std::os::fd::AsRawFd;

const NOTHING: &str = "/dev/null";

/// Files that have the numbers of the standard streams that were closed. While they are there, no store and no socket
/// gets such a number, and what is meant for a standard stream goes nowhere. The input can't be read and the others
/// can't be written, as if they were closed.
#[derive(Drop)]
pub struct HeldStreams {
    first: Option<File>,
    second: Option<File>,
    third: Option<File>,
}

// A file that can be written alone, where that gets the number of the input.
fn hold_input(rt: &HostRuntime) -> Option<File> {
    let file = OpenOptions::new().write(true).open(rt, NOTHING).ok()?;
    if file.as_raw_fd() == 0 {
        Some(file)
    } else {
        None
    }
}

// A file that can be read alone, where that gets the number of the output or the standard error.
fn hold_output(rt: &HostRuntime) -> Option<File> {
    let file = OpenOptions::new().read(true).open(rt, NOTHING).ok()?;
    if file.as_raw_fd() <= 2 {
        Some(file)
    } else {
        None
    }
}

impl HeldStreams {
    /// Holds the numbers that are free.
    pub fn new(rt: &HostRuntime) -> HeldStreams {
        HeldStreams {
            first: hold_input(rt),
            second: hold_output(rt),
            third: hold_output(rt),
        }
    }
}
