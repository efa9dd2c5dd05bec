// The words of a profile by kind and by class, what openings ask for, and what an operation of the table decides.
use crate::tests::first_rows::seeded;
use crate::tests::operations::owned_by;
use acct_codes::Kind;
use acct_machine::{Args, NoMemory, Object, Rows};
use acct_operations::{Work, decide};
use acct_rules::{Effect, Kinds, Needs, Planned, class_of, desired_access, needed_bits};
use dtyp_sid::{Sid, parse_text};
use std::alloc::Global;
use std::test::Fail;

const KINDS: [Kind; 7] = [
    Kind::Server,
    Kind::Domain,
    Kind::Group,
    Kind::Alias,
    Kind::User,
    Kind::Policy,
    Kind::Account,
];

/// Whether these of the kinds, in their order, are taken: `x` is, `-` isn't.
fn takes(kinds: Kinds, wanted: &str) -> bool {
    for (kind, mark) in KINDS.iter().zip(wanted.chars()) {
        if kinds.takes(*kind) != (mark == 'x') {
            return false;
        }
    }
    true
}

#[test]
fn handles_are_taken_by_kind(rt: HostRuntime) {
    assert!(rt; takes(Kinds::Samr, "xxxxx--"));
    assert!(rt; takes(Kinds::InDomain, "-xxxx--"));
    assert!(rt; takes(Kinds::Lsa, "-----xx"));
    assert!(rt; takes(Kinds::Only(Kind::Server), "x------"));
    assert!(rt; takes(Kinds::Only(Kind::Alias), "---x---"));
    assert!(rt; takes(Kinds::Only(Kind::Account), "------x"));
}

/// What arguments ask for: the access, and the class where they have one.
fn asked(args: Args) -> (u32, u16) {
    let asked = (desired_access(&args), class_of(&args));
    drop(args);
    asked
}

#[test]
fn openings_ask_for_an_access(rt: HostRuntime) {
    assert!(rt; asked(Args::Access(0x31)) == (0x31, 0));
    assert!(rt;
        asked(Args::AccessRid {
            access: 2,
            rid: 500
        }) == (2, 0)
    );
    assert!(rt;
        asked(Args::Policy {
            rooted: true,
            access: 4
        }) == (4, 0)
    );
    assert!(rt; asked(Args::Rid(5)) == (0, 0));
    assert!(rt; asked(Args::Class(16)) == (0, 16));
}

#[test]
fn an_opening_by_a_sid_asks_for_an_access(rt: HostRuntime) -> Result<(), Fail> {
    let sid = parse_text("S-1-5-32")?;
    assert!(rt; asked(Args::AccessSid { access: 3, sid }) == (3, 0));
    Ok(())
}

/// The bits that are needed of a grant: some, or those of one class and those of the others.
fn needed(rows: &Rows, needs: Needs, class: u16) -> u32 {
    let args = Args::Class(class);
    let bits = needed_bits(needs, rows, &args);
    drop(args);
    bits
}

/// The bits of the first class, of another, and of a need that knows no class.
fn needed_by_class(rows: &Rows) -> (u32, u32, u32) {
    let by_class = Needs::ByClass {
        class: 16,
        bits: 4,
        others: 8,
    };
    (
        needed(rows, by_class, 16),
        needed(rows, by_class, 17),
        needed(rows, Needs::Bits(2), 16),
    )
}

#[test]
fn needed_bits_are_those_of_the_class(rt: HostRuntime) -> Result<(), Fail> {
    let rows = seeded(&rt, rt.alloc())?;
    let bits = needed_by_class(&rows);
    drop(rows);
    assert!(rt; bits == (4, 8, 2));
    Ok(())
}

/// What is planned opens the user.
fn opens(planned: &Planned, rid: u32) -> bool {
    match planned.effect {
        Effect::Opens(opening) => opening.object == Object::User(rid),
        _ => false,
    }
}

/// Whether SamrOpenUser opens the user of the account domain.
fn opens_the_user(alloc: Global, rows: &Rows, owner: Sid, rid: u32) -> Result<bool, NoMemory> {
    let args = Args::AccessRid { access: 1, rid };
    let described = owned_by(owner);
    let planned = decide(
        alloc,
        Work::SamrOpenUser,
        rows,
        &described,
        Object::Domain(0),
        &args,
    );
    drop(described);
    drop(args);
    match planned {
        Ok(planned) => {
            let is_opened = opens(&planned, rid);
            drop(planned);
            Ok(is_opened)
        }
        Err(error) => Err(error),
    }
}

/// There is a user 500; 512 is a group.
fn opens_users_alone(alloc: Global, rows: &Rows, owner: Sid) -> Result<bool, NoMemory> {
    Ok(opens_the_user(alloc, rows, owner, 500)? && !opens_the_user(alloc, rows, owner, 512)?)
}

#[test]
fn users_are_opened(rt: HostRuntime) -> Result<(), Fail> {
    let rows = seeded(&rt, rt.alloc())?;
    let owner = parse_text("S-1-5-32-544");
    let opens_them = match owner {
        Ok(owner) => opens_users_alone(rt.alloc(), &rows, owner),
        Err(_) => Ok(false),
    };
    drop(rows);
    assert!(rt; opens_them?);
    Ok(())
}
