// The operations of the table.
use acct_calls::Face;
use acct_operations::{Work, work_of};
use std::alloc::Global;
use std::test::Fail;

/// Adds the operations of an interface, by ascending opnum.
fn push_works(works: &mut Vec<Work>, face: Face) -> Result<(), Fail> {
    for opnum in 0..256 {
        if let Some(work) = work_of(face, opnum) {
            works.push(work)?;
        }
    }
    Ok(())
}

/// All operations, by interface and opnum.
pub fn all_works(alloc: Global) -> Result<Vec<Work>, Fail> {
    let mut works = Vec::new(alloc);
    push_works(&mut works, Face::Samr)?;
    push_works(&mut works, Face::Lsa)?;
    Ok(works)
}
