// The generator against lines that are written from the layouts.
use super::lines::{FIRST_LINES, LAST_LINES, SECOND_USER};
use acct_commands::generated;
use std::test::Fail;

#[test]
fn the_lines_of_one_user(rt: HostRuntime) -> Result<(), Fail> {
    let events = generated(rt.alloc(), 1)?;
    assert!(rt; events.starts_with(FIRST_LINES.as_bytes()));
    assert!(rt; events.ends_with(LAST_LINES.as_bytes()));
    assert_eq!(rt; events.len(), FIRST_LINES.len() + LAST_LINES.len());
    Ok(())
}

#[test]
fn the_control_of_the_second_user_is_not_set(rt: HostRuntime) -> Result<(), Fail> {
    let events = generated(rt.alloc(), 2)?;
    let (front, rest) = events.split_at(FIRST_LINES.len().min(events.len()));
    assert!(rt; front == FIRST_LINES.as_bytes());
    assert!(rt; rest.starts_with(SECOND_USER.as_bytes()));
    Ok(())
}
