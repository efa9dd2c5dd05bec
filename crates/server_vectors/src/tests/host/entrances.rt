// The real entrance, over sockets of this process.
use acct_links::Entrance;
use host_world::SpokenEntrance;
use std::test::Fail;

#[test]
fn the_real_entrance_gives_doors(rt: HostRuntime) -> Result<(), Fail> {
    let mut entrance = SpokenEntrance::new(&rt, rt.alloc(), None);
    let doors = entrance.doors(0, "tcp:127.0.0.1:0", 2, 1)?;
    assert_eq!(rt; doors.len(), 2);
    assert!(rt; entrance.doors(1, "nowhere", 1, 1).is_err());
    assert!(rt; entrance.into_trouble().is_some());
    Ok(())
}
