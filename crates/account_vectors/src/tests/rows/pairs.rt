// Rows as pairs and back, byte by byte, in hexadecimal. The values are written by hand from the format.
ghost use Rattle.acct_rows.specs.Sound.{IsSoundRows};

use super::changes::alias_row;
use crate::tests::first_rows::seeded;
use crate::tests::words::{column, is_told, repeated};
use acct_base::Seq;
use acct_codes::Kind;
use acct_keeper::{Change, Keeper, Pair, SteadyKeeper};
use acct_rows::laws::{alias_rows_stay_sound, removed_alias_rows_stay_sound};
use acct_rows::pairs::keys_differ;
use acct_rows::pairs::laws::read_back;
use acct_rows::{AliasRow, PairsError, Plan, Row, RowKey, Rows};
use std::alloc::Global;
use std::process::Abort;
use std::test::Fail;

/// The pairs of the rows that a database without rows begins with, for CORP and S-1-5-21-1-2-3: keys and values in
/// hexadecimal. Members of an alias stand by the bytes of their SIDs: 512 is 00 02 00 00, before 500, f4 01 00 00.
const SEED_PAIRS: &str = "\
6100000001f4=0110000000010200000d00410064006d0069006e006900730074007200610074006f00720000000000
6100000001f5=01150000000202000005004700750065007300740000000000
610000000200=0207000000000000000d0044006f006d00610069006e002000410064006d0069006e00730000000000
610000000201=0207000000000000000c0044006f006d00610069006e0020005500730065007200730000000000
610000000202=0207000000000000000d0044006f006d00610069006e00200047007500650073007400730000000000
610100000220=0400000000000000000e00410064006d0069006e006900730074007200610074006f007200730000000000
610100000221=04000000000000000005005500730065007200730000000000
610100000222=040000000000000000060047007500650073007400730000000000
6400=e803000018010400000000000515000000010000000200000003000000040043004f00520050000000
6401=e80300000c01010000000000052000000007004200550049004c00540049004e000000
66=02
6c010000022001050000000000051500000001000000020000000300000000020000=
6c0100000220010500000000000515000000010000000200000003000000f4010000=
6c010000022101050000000000051500000001000000020000000300000001020000=
6c010000022201050000000000051500000001000000020000000300000002020000=
6c0100000222010500000000000515000000010000000200000003000000f5010000=
6d00000200000001f4=07000000
6d00000201000001f4=07000000
6d00000202000001f5=07000000";

/// What is done to the pairs of the seed rows, `key=value` for a pair that is put and `key` for one that goes, and the
/// smallest broken key then; none where the pairs are those of rows. Keys and values that aren't exactly spelled: no
/// letter, a letter that is none, a RID cut short, a third domain, a value cut short, and two with a byte after them.
/// An unknown kind, a name that no user may have, bits that are no control; an alias with bits, a group with a primary
/// group. An account of the policy: every right, a right that is none, a privilege that isn't known, the last one and
/// the first one that are, and one before it, two that don't ascend.
const SPELLINGS: &str = "\
|
00=|00
6b=01|6b
61000000ff=|61000000ff
6402=e803000018010400000000000515000000010000000200000003000000040043004f00520050000000|6402
6d00000200000001f4=070000|6d00000200000001f4
6d00000200000001f4=0700000000|6d00000200000001f4
610100000221=0400000000000000000500550073006500720073000000000000|610100000221
6100000001f5=03150000000202000005004700750065007300740000000000|6100000001f5
6100000001f5=01150000000202000001002f0000000000|6100000001f5
6100000001f5=01000000000202000005004700750065007300740000000000|6100000001f5
610100000221=04010000000000000005005500730065007200730000000000|610100000221
610000000202=0207000000010200000d0044006f006d00610069006e00200047007500650073007400730000000000|610000000202
7301020000000000052000000020020000=d70f0000010200000000|
7301020000000000052000000020020000=0800000000|7301020000000000052000000020020000
7301020000000000052000000020020000=01000000011f00000000|7301020000000000052000000020020000
7301020000000000052000000020020000=01000000011e00000000|
7301020000000000052000000020020000=01000000010200000000|
7301020000000000052000000020020000=01000000010100000000|7301020000000000052000000020020000
7301020000000000052000000020020000=010000000203000000000200000000|7301020000000000052000000020020000";

/// The same. A RID that isn't below the next one, and next RIDs that are none; the name of a smaller RID, by another
/// spelling; a group of BUILTIN, and the group of all users as an alias, which Administrator misses first. A member of
/// no group, no user as a member, a user whose member row in its primary group is gone, a member of no alias. Another
/// name of the account domain, then one that it may not have, and another SID of BUILTIN. Needed pairs that are
/// missing, and the smallest of several broken keys.
const RULES: &str = "\
6100000003e8=0207000000000000000100580000000000|6100000003e8
6400=e703000018010400000000000515000000010000000200000003000000040043004f00520050000000|6400
6401=000000400c01010000000000052000000007004200550049004c00540049004e000000|6401
610000000202=02070000000000000005006700550045005300540000000000|610000000202
610100000222=020000000000000000060047007500650073007400730000000000|610100000222
610000000201=0400000000000000000c0044006f006d00610069006e0020005500730065007200730000000000|6100000001f4
6d00000209000001f4=07000000|6d00000209000001f4
6d0000020100000200=07000000|6d0000020100000200
6d00000201000001f4|6100000001f4
6c0100000299010100000000000100000000=|6c0100000299010100000000000100000000
6400=e803000018010400000000000515000000010000000200000003000000010058000000|
6400=e80300001801040000000000051500000001000000020000000300000001002f000000|6400
6401=e80300000c01010000000000052100000007004200550049004c00540049004e000000|6401
66|66
6400|6400
6401|6401
6401 6400 66=03|6400
6f=01 66=03|66
66=03 610100000222=00 6f=01|610100000222";

/// The same of the format, which was 1 before descriptors and changes were stored; and of the next number of a change,
/// which is 2 to 2^63, and is not stored where it is 1.
const FORMATS: &str = "\
66=01|
66=03|66
66=00|66
66=0200|66
66=|66
6e=0200000000000000|
6e=0000000000000080|
6e=0100000000000080|6e
6e=0100000000000000|6e
6e=0000000000000000|6e
6e=02000000000000|6e
6e=020000000000000000|6e
6e00=0200000000000000|6e00
66=01 6e=0200000000000000|6e";

/// The same of changes that wait to be told: one that made alice. The actions; an alias of BUILTIN, other kinds there,
/// and a third domain; the last RID, and one more; kinds that are none; names that no user may have; a byte too few and
/// one too many. A number that isn't below the next one, 0, and another; one after which one is missing, one before
/// which some were told, and two; keys of seven and of nine bytes of a number; format 1.
const CHANGED: &str = "\
6e=0200000000000000 710000000000000001=0100e803000001050061006c00690063006500|
6e=0200000000000000 710000000000000001=0300e803000001050061006c00690063006500|
6e=0200000000000000 710000000000000001=0000e803000001050061006c00690063006500|710000000000000001
6e=0200000000000000 710000000000000001=0400e803000001050061006c00690063006500|710000000000000001
6e=0200000000000000 710000000000000001=01012102000004050055007300650072007300|
6e=0200000000000000 710000000000000001=01012102000001050055007300650072007300|710000000000000001
6e=0200000000000000 710000000000000001=01012102000002050055007300650072007300|710000000000000001
6e=0200000000000000 710000000000000001=01022102000004050055007300650072007300|710000000000000001
6e=0200000000000000 710000000000000001=0200feffff3f0201006700|
6e=0200000000000000 710000000000000001=0200ffffff3f0201006700|710000000000000001
6e=0200000000000000 710000000000000001=0100e803000003050061006c00690063006500|710000000000000001
6e=0200000000000000 710000000000000001=0100e803000000050061006c00690063006500|710000000000000001
6e=0200000000000000 710000000000000001=0100e803000001030061002f006200|710000000000000001
6e=0200000000000000 710000000000000001=0100e8030000010000|710000000000000001
6e=0200000000000000 710000000000000001=0100e80300000115006100620063006400650066006700680069006a006b006c006d006e006f007\
00071007200730074007500|710000000000000001
6e=0200000000000000 710000000000000001=0100e803000001050061006c006900630065|710000000000000001
6e=0200000000000000 710000000000000001=0100e803000001050061006c0069006300650000|710000000000000001
710000000000000001=0100e803000001050061006c00690063006500|710000000000000001
6e=0200000000000000 710000000000000000=0100e803000001050061006c00690063006500|710000000000000000
6e=0200000000000000 710000000000000002=0100e803000001050061006c00690063006500|710000000000000002
6e=0300000000000000 710000000000000001=0100e803000001050061006c00690063006500|710000000000000001
6e=0300000000000000 710000000000000002=0100e803000001050061006c00690063006500|
6e=0300000000000000 710000000000000001=0100e803000001050061006c00690063006500 710000000000000002=0100e8030000010500610\
06c00690063006500|
6e=0200000000000000 7100000000000001=0100e803000001050061006c00690063006500|7100000000000001
6e=0200000000000000 71000000000000000100=0100e803000001050061006c00690063006500|71000000000000000100
66=01 710000000000000001=0100e803000001050061006c00690063006500|710000000000000001";

/// The same of descriptors. With an owner and a list, with an owner alone, and with all; the list before the owner, no
/// owner, a byte too many, one too few, and no byte. An identity where none is asked for, a kind that is none, and no
/// kind. Both domains, a third, and none; a group, a user as one, and one that isn't there; an alias of BUILTIN, none
/// of the account domain, and no domain; a user, a group as one, and a RID with its lowest byte first. The policy; an
/// account of the policy that isn't there, and one that is; format 1.
const DESCRIBED: &str = "\
6f00=010004801400000000000000000000002000000001010000000000051200000002001c0001000000000014001000000001010000000000010\
0000000|
6f00=0100008014000000000000000000000000000000010100000000000512000000|
6f00=01000480140000002400000000000000340000000102000000000005200000002002000001020000000000052000000021020000020034000\
2000000010018001000000001020000000000052000000021020000000814003f000f00010100000000000100000000|
6f00=010004803000000000000000000000001400000002001c0001000000000014001000000001010000000000010000000001010000000000051\
2000000|6f00
6f00=010004800000000000000000000000001400000002001c00010000000000140020000000010100000000000100000000|6f00
6f00=010004801400000000000000000000002000000001010000000000051200000002001c0001000000000014001000000001010000000000010\
000000000|6f00
6f00=010004801400000000000000000000002000000001010000000000051200000002001c0001000000000014001000000001010000000000010\
00000|6f00
6f00=|6f00
6f0000=010004801400000000000000000000002000000001010000000000051200000002001c00010000000000140010000000010100000000000\
100000000|6f0000
6f07=010004801400000000000000000000002000000001010000000000051200000002001c0001000000000014001000000001010000000000010\
0000000|6f07
6f=010004801400000000000000000000002000000001010000000000051200000002001c000100000000001400100000000101000000000001000\
00000|6f
6f0100=010004801400000000000000000000002000000001010000000000051200000002001c00010000000000140010000000010100000000000\
100000000|
6f0101=010004801400000000000000000000002000000001010000000000051200000002001c00010000000000140010000000010100000000000\
100000000|
6f0102=010004801400000000000000000000002000000001010000000000051200000002001c00010000000000140010000000010100000000000\
100000000|6f0102
6f01=010004801400000000000000000000002000000001010000000000051200000002001c0001000000000014001000000001010000000000010\
0000000|6f01
6f0200000200=010004801400000000000000000000002000000001010000000000051200000002001c00010000000000140010000000010100000\
000000100000000|
6f02000001f4=010004801400000000000000000000002000000001010000000000051200000002001c00010000000000140010000000010100000\
000000100000000|6f02000001f4
6f0200000209=010004801400000000000000000000002000000001010000000000051200000002001c00010000000000140010000000010100000\
000000100000000|6f0200000209
6f030100000220=010004801400000000000000000000002000000001010000000000051200000002001c000100000000001400100000000101000\
00000000100000000|
6f030000000220=010004801400000000000000000000002000000001010000000000051200000002001c000100000000001400100000000101000\
00000000100000000|6f030000000220
6f0300000220=010004801400000000000000000000002000000001010000000000051200000002001c00010000000000140010000000010100000\
000000100000000|6f0300000220
6f04000001f4=010004801400000000000000000000002000000001010000000000051200000002001c00010000000000140010000000010100000\
000000100000000|
6f0400000200=010004801400000000000000000000002000000001010000000000051200000002001c00010000000000140010000000010100000\
000000100000000|6f0400000200
6f04f4010000=010004801400000000000000000000002000000001010000000000051200000002001c00010000000000140010000000010100000\
000000100000000|6f04f4010000
6f05=010004801400000000000000000000002000000001010000000000051200000002001c0001000000000014001000000001010000000000010\
0000000|
6f06010100000000000512000000=010004801400000000000000000000002000000001010000000000051200000002001c0001000000000014001\
0000000010100000000000100000000|6f06010100000000000512000000
73010100000000000512000000=0100000000 6f06010100000000000512000000=010004801400000000000000000000002000000001010000000\
000051200000002001c00010000000000140010000000010100000000000100000000|
66=01 6f00=010004801400000000000000000000002000000001010000000000051200000002001c0001000000000014001000000001010000000\
0000100000000|6f00";

/// The same of lists of 800 and of 801 entries, with a repeat sign.
const LONG: &str = "\
6f00=01000480140000000000000000000000200000000101000000000005120000000200883e20030000\
<1-800:0000140010000000010100000000000100000000>|
6f00=010004801400000000000000000000002000000001010000000000051200000002009c3e21030000\
<1-801:0000140010000000010100000000000100000000>|6f00";

fn bytes_of(alloc: Global, digits: &str) -> Result<Seq<u8>, Fail> {
    Ok(Seq::from_vec(hex::decode(alloc, digits.as_bytes())?))
}

fn pair(alloc: Global, key: &str, value: &str) -> Result<Pair, Fail> {
    let key = bytes_of(alloc, key)?;
    match bytes_of(alloc, value) {
        Ok(value) => Ok(Pair { key, value }),
        Err(fail) => {
            drop(key);
            Err(fail)
        }
    }
}

/// A pair that is put.
fn put(alloc: Global, key: &str, value: &str) -> Result<Change, Fail> {
    let Pair { key, value } = pair(alloc, key, value)?;
    Ok(Change {
        key,
        value: Some(value),
    })
}

/// A pair that goes.
fn remove(alloc: Global, key: &str) -> Result<Change, Fail> {
    Ok(Change {
        key: bytes_of(alloc, key)?,
        value: None,
    })
}

fn change(alloc: Global, word: &str) -> Result<Change, Fail> {
    match word.split_once('=') {
        Some((key, value)) => put(alloc, key, value),
        None => remove(alloc, word),
    }
}

fn push_all(alloc: Global, changes: &mut Vec<Change>, words: &str) -> Result<(), Fail> {
    for word in words.split_whitespace() {
        let change = change(alloc, word)?;
        changes.push(change)?;
    }
    Ok(())
}

fn push_hex(alloc: Global, text: &mut String, bytes: &[u8]) -> Result<(), Fail> {
    let digits = hex::encode(alloc, bytes)?;
    text.push_str(digits.as_str())?;
    Ok(())
}

fn commit(alloc: Global, keeper: &mut SteadyKeeper, words: &str) -> Result<(), Fail> {
    let mut changes = Vec::new(alloc);
    push_all(alloc, &mut changes, words)?;
    Ok(keeper.commit(&changes)?)
}

/// Keeps the seed rows' pairs, after some changes.
fn keep(alloc: Global, keeper: &mut SteadyKeeper, words: &str) -> Result<(), Fail> {
    commit(alloc, keeper, SEED_PAIRS)?;
    commit(alloc, keeper, words)
}

fn push_pair(alloc: Global, text: &mut String, pair: &Pair) -> Result<(), Fail> {
    push_hex(alloc, text, pair.key.as_slice())?;
    text.push('=')?;
    push_hex(alloc, text, pair.value.as_slice())?;
    Ok(text.push('\n')?)
}

fn push_pairs(alloc: Global, text: &mut String, pairs: &[Pair]) -> Result<(), Fail> {
    for pair in pairs {
        push_pair(alloc, text, pair)?;
    }
    Ok(())
}

/// The pairs of rows in hexadecimal.
fn pairs_of(alloc: Global, rows: &Rows) -> Result<String, Fail>
    requires { IsSoundRows rows.now.lists }
{
    let pairs = rows.to_pairs(alloc)?;
    let mut text = String::new(alloc);
    push_pairs(alloc, &mut text, &pairs)?;
    Ok(text)
}

#[test]
fn seed_rows_have_their_pairs(rt: HostRuntime) -> Result<(), Fail> {
    let rows = seeded(&rt, rt.alloc())?;
    let pairs = pairs_of(rt.alloc(), &rows);
    drop(rows);
    is_told(&rt, pairs?.as_str().trim(), SEED_PAIRS, "seed rows");
    Ok(())
}

fn why_broken(alloc: Global, error: PairsError) -> Result<String, Fail> {
    match error {
        PairsError::BadPair(key) => Ok(hex::encode(alloc, key.as_slice())?),
        PairsError::Memory => Ok(String::from_str(alloc, "memory")?),
    }
}

/// The smallest broken key, none where the pairs are those of rows.
fn broken_in(rt: &impl Abort, alloc: Global, pairs: &[Pair]) -> Result<String, Fail> {
    assert!(rt; keys_differ(pairs));
    match Rows::from_pairs(alloc, pairs) {
        Ok(rows) => {
            drop(rows);
            Ok(String::new(alloc))
        }
        Err(error) => why_broken(alloc, error),
    }
}

/// The smallest broken key of a keeper of the seed rows' pairs after some changes.
fn broken_after(
    rt: &impl Abort,
    alloc: Global,
    keeper: &mut SteadyKeeper,
    words: &str,
) -> Result<String, Fail> {
    keep(alloc, keeper, words)?;
    broken_in(rt, alloc, keeper.as_slice())
}

/// Tells a row: what is done to the pairs, and the smallest broken key then.
fn tell(rt: &impl Abort, alloc: Global, row: &str) -> Result<(), Fail> {
    let (words, wanted) = column(row);
    let mut keeper = SteadyKeeper::new(alloc);
    let broken = broken_after(rt, alloc, &mut keeper, words);
    drop(keeper);
    is_told(rt, broken?.as_str(), wanted, row);
    Ok(())
}

fn tell_all(rt: &impl Abort, alloc: Global, table: &str) -> Result<(), Fail> {
    for row in table.lines() {
        tell(rt, alloc, row)?;
    }
    Ok(())
}

#[test]
fn the_smallest_broken_key_is_told(rt: HostRuntime) -> Result<(), Fail> {
    for table in [SPELLINGS, RULES, FORMATS, CHANGED, DESCRIBED] {
        tell_all(&rt, rt.alloc(), table)?;
    }
    let long = repeated(rt.alloc(), LONG)?;
    tell_all(&rt, rt.alloc(), long.as_str())?;
    // Without a pair the group of all users is missing.
    is_told(
        &rt,
        broken_in(&rt, rt.alloc(), &[])?.as_str(),
        "610000000201",
        "no pair",
    );
    Ok(())
}

/// Adds the pairs from the last one to the first.
fn push_turned(alloc: Global, turned: &mut Vec<Pair>, pairs: &[Pair]) -> Result<(), Fail> {
    for pair in pairs.iter().rev() {
        let pair = pair.copy(alloc)?;
        turned.push(pair)?;
    }
    Ok(())
}

fn broken_in_turned(rt: &impl Abort, alloc: Global, pairs: &[Pair]) -> Result<String, Fail> {
    let mut turned = Vec::new(alloc);
    push_turned(alloc, &mut turned, pairs)?;
    broken_in(rt, alloc, &turned)
}

#[test]
fn pairs_are_read_in_any_order(rt: HostRuntime) -> Result<(), Fail> {
    let mut keeper = SteadyKeeper::new(rt.alloc());
    keep(rt.alloc(), &mut keeper, "")?;
    let broken = broken_in_turned(&rt, rt.alloc(), keeper.as_slice());
    drop(keeper);
    is_told(&rt, broken?.as_str(), "", "turned pairs");
    Ok(())
}

/// Adds a pair twice.
fn push_twice(alloc: Global, pairs: &mut Vec<Pair>, key: &str, value: &str) -> Result<(), Fail> {
    for _ in 0..2 {
        let pair = pair(alloc, key, value)?;
        pairs.push(pair)?;
    }
    Ok(())
}

#[test]
fn a_key_stands_once(rt: HostRuntime) -> Result<(), Fail> {
    let mut pairs = Vec::new(rt.alloc());
    push_twice(rt.alloc(), &mut pairs, "66", "01")?;
    assert!(rt; !keys_differ(&pairs));
    Ok(())
}

/// Whether rows are read back of their pairs.
fn are_read_back(alloc: Global, rows: &Rows) -> Result<bool, PairsError>
    requires { IsSoundRows rows.now.lists }
{
    let again = read_back(alloc, rows)?;
    let same = again.accounts() == rows.accounts();
    drop(again);
    Ok(same)
}

#[test]
fn rows_are_read_back(rt: HostRuntime) -> Result<(), Fail> {
    let rows = seeded(&rt, rt.alloc())?;
    let same = are_read_back(rt.alloc(), &rows);
    drop(rows);
    assert!(rt; same?);
    Ok(())
}

/// What is put to the seed rows' pairs, with repeat signs: the next RID; a thousand users with names of two units, 5000
/// 4E00 and so on, each with its row in Domain Users; a hundred members of Users and as many accounts of the policy;
/// two changes; the descriptors of the server, of Administrator and of an account of the policy.
const MANY: &str =
    "6400=0060000018010400000000000515000000010000000200000003000000040043004f00520050000000
<5000-5999:61000000#=011000000001020000020000#4e00000000
6d000002010000#=07000000
><5000-5099:6c01000002210105000000000005150000000100000002000000030000000000#=
730105000000000005150000000100000002000000030000000100#=0100000000
> 6e=0300000000000000 710000000000000001=0100e803000001050061006c00690063006500
710000000000000002=030122020000040600470075006500730074007300
6f00=010004801400000000000000000000002000000001010000000000051200000002001c0001000000000014001000000001010000000000010\
0000000
6f04000001f4=0100008014000000000000000000000000000000010100000000000512000000
6f0601050000000000051500000001000000020000000300000001005000=010004801400000024000000000000003400000001020000000000052\
0000000200200000102000000000005200000002102000002003400020000000100180010000000010200000000000520000000210200000008140\
03f000f00010100000000000100000000";

/// The pairs of a copy of the rows that pairs are read as.
fn pairs_again(rt: &impl Abort, alloc: Global, pairs: &[Pair]) -> Result<String, Fail> {
    assert!(rt; keys_differ(pairs));
    let rows = Rows::from_pairs(alloc, pairs)?;
    let copied = rows.copy(alloc);
    drop(rows);
    let copied = copied?;
    let text = pairs_of(alloc, &copied);
    drop(copied);
    text
}

/// Many pairs are those of a copy of the rows that they are read as.
fn many_are_told(rt: &impl Abort, alloc: Global, keeper: &mut SteadyKeeper) -> Result<(), Fail> {
    let words = repeated(alloc, MANY)?;
    keep(alloc, keeper, words.as_str())?;
    let again = pairs_again(rt, alloc, keeper.as_slice())?;
    let mut kept = String::new(alloc);
    push_pairs(alloc, &mut kept, keeper.as_slice())?;
    assert!(rt; keeper.as_slice().len() == 2225);
    is_told(rt, again.as_str(), kept.as_str(), "many pairs");
    Ok(())
}

#[test]
fn many_rows_are_read_and_copied(rt: HostRuntime) -> Result<(), Fail> {
    let mut keeper = SteadyKeeper::new(rt.alloc());
    let told = many_are_told(&rt, rt.alloc(), &mut keeper);
    drop(keeper);
    told
}

#[test]
fn pairs_of_format_1_are_read_and_written_in_format_2(rt: HostRuntime) -> Result<(), Fail> {
    let mut keeper = SteadyKeeper::new(rt.alloc());
    keep(rt.alloc(), &mut keeper, "66=01")?;
    let again = pairs_again(&rt, rt.alloc(), keeper.as_slice());
    drop(keeper);
    is_told(&rt, again?.as_str().trim(), SEED_PAIRS, "format 1");
    Ok(())
}

/// The changes of a plan that removes an alias row and puts another.
fn alias_changes(
    rt: &impl Abort,
    alloc: Global,
    rows: &Rows,
    gone: AliasRow,
    put: AliasRow,
) -> Result<Vec<Change>, Fail>
    requires { IsSoundRows rows.now.lists }
{
    let key = RowKey::Alias {
        domain: gone.domain,
        alias: gone.alias,
        member: gone.member,
    };
    let plan = Plan {
        puts: Seq::from_vec(vec![in alloc; Row::Alias(put)]?),
        removes: Seq::from_vec(vec![in alloc; key]?),
    };
    match rows.find_rid(put.domain, put.alias) {
        Some(account) => assert!(rt; account.kind == Kind::Alias),
        None => panic!(rt; "no alias"),
    }
    alias_rows_stay_sound();
    removed_alias_rows_stay_sound();
    put.member.keeps_limits();
    let changes = rows.changes(alloc, &plan);
    drop(plan);
    Ok(changes?)
}

/// Tells a pair that goes or is put, by its key.
fn push_change(alloc: Global, text: &mut String, change: &Change) -> Result<(), Fail> {
    text.push(if change.value.is_some() { '+' } else { '-' })?;
    push_hex(alloc, text, change.key.as_slice())
}

fn push_changes(alloc: Global, text: &mut String, changes: &[Change]) -> Result<(), Fail> {
    for change in changes {
        push_change(alloc, text, change)?;
    }
    Ok(())
}

fn changes_told(alloc: Global, changes: &[Change]) -> Result<String, Fail> {
    let mut text = String::new(alloc);
    push_changes(alloc, &mut text, changes)?;
    Ok(text)
}

/// A member of Users of BUILTIN that gives its place to another, and the pairs that change.
const CHANGES: &str = "\
S-1-5-21-1-2-3-513|S-1-5-21-1-2-3-513|
S-1-5-21-1-2-3-513|S-1-1-0|-6c010000022101050000000000051500000001000000020000000300000001020000\
+6c0100000221010100000000000100000000
S-1-1-0|S-1-5-21-1-2-3-513|
S-1-1-0|S-1-1-0|+6c0100000221010100000000000100000000";

/// The pairs that change where a member of Users gives its place to another.
fn changed(rt: &impl Abort, alloc: Global, gone: &str, put: &str) -> Result<String, Fail> {
    let gone = alias_row(545, gone)?;
    let put = alias_row(545, put)?;
    let rows = seeded(rt, alloc)?;
    let changes = alias_changes(rt, alloc, &rows, gone, put);
    drop(rows);
    changes_told(alloc, &changes?)
}

/// Tells a row of [`CHANGES`].
fn tell_change(rt: &impl Abort, alloc: Global, row: &str) -> Result<(), Fail> {
    let (gone, rest) = column(row);
    let (put, wanted) = column(rest);
    is_told(rt, changed(rt, alloc, gone, put)?.as_str(), wanted, row);
    Ok(())
}

#[test]
fn a_plan_changes_the_pairs_of_its_rows(rt: HostRuntime) -> Result<(), Fail> {
    for row in CHANGES.lines() {
        tell_change(&rt, rt.alloc(), row)?;
    }
    Ok(())
}
