// What openings of the server grant, and the check of a handle of each kind at each operation.
ghost use Rattle.acct_config.specs.Spelled.{IsRightConfig};

use super::configs::{DENY_FIRST, with_entries};
use crate::tests::works::all_works;
use acct_codes::Kind;
use acct_machine::{Access, Config, Conn, Face, Held, Object, access_with, granted};
use acct_operations::{Work, profile_of, work_of};
use acct_rules::{Brings, Kinds};
use dtyp_sid::{Sid, parse_text};
use std::test::Fail;

/// What an opening of the server grants a connection at a listener.
fn granted_at(config: &Config, listener: u32, desired: u32) -> Option<u32>
    requires { IsRightConfig config.now }
{
    let conn = Conn {
        number: 1,
        listener,
        serial: 0,
        live: true,
    };
    let descriptor = config.descriptor(Kind::Server);
    granted(config, descriptor, Some(conn), Object::Server, desired)
}

#[test]
fn openings_grant_what_is_allowed(rt: HostRuntime) -> Result<(), Fail> {
    let config = with_entries(&rt, rt.alloc(), DENY_FIRST)?;
    for (listener, desired, wanted) in [
        (1, 0x10, None),
        (1, 0x20, Some(0x20)),
        (1, 0x02000000, Some(0x000F002F)),
        (0, 0x02000000, Some(0x000F003F)),
    ] {
        assert!(rt; granted_at(&config, listener, desired) == wanted);
    }
    Ok(())
}

/// The check of a handle to an object with a grant of 0x300.
fn checked(brings: Brings, object: Object, bits: u32) -> Access {
    let held = Held {
        conn: 1,
        serial: 1,
        object,
        granted: 0x300,
    };
    access_with(brings, bits, Some(&held))
}

#[test]
fn handles_are_checked(rt: HostRuntime) {
    let domain = Brings::Handle(Kinds::Only(Kind::Domain));
    let user = Brings::Handle(Kinds::Only(Kind::User));
    for (brings, bits, wanted) in [
        (domain, 0x200, Access::Passed),
        (domain, 0x600, Access::Denied),
        (user, 0x600, Access::WrongKind),
        (Brings::Handle(Kinds::Samr), 0, Access::Passed),
        (Brings::Handle(Kinds::Lsa), 0, Access::WrongKind),
        (Brings::Nothing, 0x400, Access::Passed),
    ] {
        assert!(rt; checked(brings, Object::Domain(0), bits) == wanted);
    }
    assert!(rt; access_with(domain, 0, None) == Access::Unknown);
}

#[test]
fn operations_are_found_by_interface_and_opnum(rt: HostRuntime) -> Result<(), Fail> {
    assert!(rt; all_works(rt.alloc())?.len() == 72);
    assert!(rt; work_of(Face::Samr, 64) == Some(Work::SamrConnect5));
    assert!(rt; work_of(Face::Lsa, 0) == Some(Work::LsarClose));
    assert!(rt; work_of(Face::Samr, 2) == Some(Work::SamrSetSecurityObject));
    assert!(rt; work_of(Face::Samr, 3) == Some(Work::SamrQuerySecurityObject));
    assert!(rt; work_of(Face::Lsa, 3) == Some(Work::LsarQuerySecurityObject));
    assert!(rt; work_of(Face::Lsa, 4) == Some(Work::LsarSetSecurityObject));
    assert!(rt; work_of(Face::Samr, 40) == Some(Work::SamrQueryDisplayInformation));
    assert!(rt; work_of(Face::Samr, 65) == Some(Work::SamrRidToSid));
    assert!(rt; work_of(Face::Lsa, 65).is_none());
    Ok(())
}

/// The operations by interface and opnum, each with the kinds of objects whose handles it takes: server, domain, group,
/// alias, user, policy, account of the policy (C). One that brings no handle looks at none.
const TAKEN: &str = "\
Samr 1 SDGAU
Samr 2 SDGAU
Samr 3 SDGAU
Samr 5 S
Samr 6 S
Samr 7 S
Samr 8 D
Samr 9 D
Samr 10 D
Samr 11 D
Samr 12 D
Samr 13 D
Samr 14 D
Samr 15 D
Samr 16 D
Samr 17 D
Samr 18 D
Samr 19 D
Samr 20 G
Samr 21 G
Samr 22 G
Samr 23 G
Samr 24 G
Samr 25 G
Samr 27 D
Samr 28 A
Samr 29 A
Samr 30 A
Samr 31 A
Samr 32 A
Samr 33 A
Samr 34 D
Samr 35 U
Samr 36 U
Samr 37 U
Samr 39 U
Samr 40 D
Samr 46 D
Samr 47 U
Samr 50 D
Samr 57 SDGAUPC
Samr 58 U
Samr 62 SDGAUPC
Samr 64 SDGAUPC
Samr 65 DGAU
Lsa 0 PC
Lsa 2 P
Lsa 3 PC
Lsa 4 PC
Lsa 7 P
Lsa 10 P
Lsa 11 P
Lsa 14 P
Lsa 15 P
Lsa 17 P
Lsa 18 C
Lsa 19 C
Lsa 20 C
Lsa 23 C
Lsa 24 C
Lsa 31 P
Lsa 32 P
Lsa 34 C
Lsa 35 P
Lsa 36 P
Lsa 37 P
Lsa 38 P
Lsa 44 SDGAUPC
Lsa 46 P
Lsa 57 P
Lsa 58 P
Lsa 68 P";

/// An object of the kind that a letter stands for.
fn object_of(letter: char, account: Sid) -> Object {
    match letter {
        'S' => Object::Server,
        'D' => Object::Domain(0),
        'G' => Object::Group(512),
        'A' => Object::Alias(1, 544),
        'U' => Object::User(500),
        'P' => Object::Policy,
        _ => Object::Account(account),
    }
}

/// Tells a row of the table: an operation, by the check of a handle of each kind.
fn push_taken(text: &mut String, work: Work, account: Sid) -> Result<(), Fail> {
    let profile = profile_of(work);
    write!(text, "{:?} {} ", profile.face, profile.opnum)?;
    for letter in "SDGAUPC".chars() {
        if checked(profile.brings, object_of(letter, account), 0) == Access::Passed {
            text.push(letter)?;
        }
    }
    Ok(())
}

/// Tells each row of the table.
fn push_all_taken(text: &mut String, works: &[Work], account: Sid) -> Result<(), Fail> {
    for work in works {
        push_taken(text, *work, account)?;
        text.push('\n')?;
    }
    Ok(())
}

#[test]
fn a_handle_of_each_kind_at_each_operation(rt: HostRuntime) -> Result<(), Fail> {
    let account = parse_text("S-1-5-21-1-2-3-1000")?;
    let mut text = String::new(rt.alloc());
    push_all_taken(&mut text, &all_works(rt.alloc())?, account)?;
    assert_eq!(rt; text.as_str().trim(), TAKEN);
    Ok(())
}
