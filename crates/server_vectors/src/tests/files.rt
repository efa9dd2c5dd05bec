// Folders and files of the tests.
use std::fs;
use std::test::Fail;

/// Makes a folder, which is empty then.
pub fn make_folder(rt: &HostRuntime, path: &str) -> Result<(), Fail> {
    let _ = fs::remove_dir_all(rt, path);
    Ok(fs::create_dir(rt, path)?)
}

/// Whether a file holds this text.
pub fn holds(rt: &HostRuntime, path: &str, text: &str) -> Result<bool, Fail> {
    Ok(fs::read_to_string(rt, path)?.as_str() == text)
}
