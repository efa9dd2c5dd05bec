// The file of a store, before it is a database.
use std::fs::OpenOptions;
use std::os::unix::fs::OpenOptionsExt;

// The owner may read and write.
const OWNERS_ALONE: u32 = 0o600;

/// Makes the file for its owner alone, if none is there, and the log beside it gets its mode. What goes wrong here goes
/// wrong again where the file is opened. A name that no database may have makes no file.
pub(crate) fn make_private(rt: &HostRuntime, path: &str) {
    if path == ":memory:" || path.starts_with("file:") {
        return;
    }
    let _ = OpenOptions::new()
        .write(true)
        .create_new(true)
        .mode(OWNERS_ALONE)
        .open(rt, path);
}
