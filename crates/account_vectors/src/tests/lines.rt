// Lines on the standard error, minute by minute.
use host_lines::{LINES_A_MINUTE, Tally, Turn};
use std::test::Fail;

#[test]
fn thirty_lines_a_minute(rt: HostRuntime) -> Result<(), Fail> {
    assert!(rt; LINES_A_MINUTE == 30);
    let mut tally = Tally::new();
    for number in 0..70 {
        let is_written = number < 30;
        assert!(rt;
            tally.ask(5)
                == Turn {
                    told: 0,
                    is_written
                },
            "{number}"
        );
    }
    assert!(rt;
        tally.ask(6)
            == Turn {
                told: 40,
                is_written: true
            }
    );
    assert!(rt;
        tally.ask(6)
            == Turn {
                told: 0,
                is_written: true
            }
    );
    assert!(rt; tally.settle(7) == 0);
    Ok(())
}
