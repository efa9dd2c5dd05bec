// Lines of tables, and what tells itself in words.
use std::alloc::Global;
use std::fmt::Display;
use std::test::Fail;

/// What stands before a mark and after it. After a line without it stands nothing.
pub fn cut(line: &str, mark: char) -> (&str, &str) {
    line.split_once(mark).unwrap_or((line, ""))
}

/// Whether a refusal tells itself so.
pub fn tells<T: Display>(alloc: Global, refusal: &T, text: &str) -> Result<bool, Fail> {
    Ok(format!(in alloc; "{refusal}")?.as_str() == text)
}
