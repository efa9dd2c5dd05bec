// Stores that are opened, again or not at all.
ghost use Rattle.acct_config.specs.Spelled.{IsRightConfig};

use super::configs::{PLAIN, configured};
use super::scripts::keeper_with;
use acct_base::Seq;
use acct_keeper::{Change, Keeper, MemoryKeeper, Pair};
use acct_machine::{Config, OpenError, Rows, open_store};
use std::alloc::Global;
use std::process::Abort;
use std::test::Fail;

fn push_opening(text: &mut String, opening: &Result<Rows, OpenError>) -> Result<(), Fail> {
    match opening {
        Ok(rows) => write!(text, "{} accounts", rows.accounts().len())?,
        Err(OpenError::StoredPair(key)) => write!(text, "bad pair {:?}", key.as_slice())?,
        Err(error) => write!(text, "{error:?}")?,
    }
    Ok(())
}

/// What an opening of a store answers: how many accounts there are, or why it isn't opened; and how many pairs are
/// kept.
fn opened(alloc: Global, config: &Config, keeper: &mut MemoryKeeper) -> Result<String, Fail>
    requires { IsRightConfig config.now }
{
    let opening = open_store(alloc, config, keeper);
    let mut text = String::new(alloc);
    let pushed = push_opening(&mut text, &opening);
    drop(opening);
    pushed?;
    write!(text, ", {} pairs", keeper.as_slice().len())?;
    Ok(text)
}

/// What the opening of a keeper without a pair answers whose calls of these numbers fail.
fn opened_first(alloc: Global, config: &Config, failing: &[u64]) -> Result<String, Fail>
    requires { IsRightConfig config.now }
{
    let mut keeper = keeper_with(alloc, failing)?;
    opened(alloc, config, &mut keeper)
}

/// A load that fails, and a seeding that does: no pair is kept.
fn opened_where_one_fails(rt: &impl Abort, alloc: Global, config: &Config) -> Result<(), Fail>
    requires { IsRightConfig config.now }
{
    for (failing, wanted) in [
        (1, "StoreFault, 0 pairs"),
        (2, "StoreFault, 0 pairs"),
        (3, "8 accounts, 19 pairs"),
    ] {
        let told = opened_first(alloc, config, &[failing])?;
        assert_eq!(rt; told.as_str(), wanted, "{failing}");
    }
    Ok(())
}

#[test]
fn stores_that_fail_are_not_opened(rt: HostRuntime) -> Result<(), Fail> {
    let config = configured(&rt, rt.alloc(), PLAIN)?;
    let ended = opened_where_one_fails(&rt, rt.alloc(), &config);
    drop(config);
    ended
}

/// Removes the pair of the store's format, whose key is then the one that is broken.
fn break_store(alloc: Global, keeper: &mut MemoryKeeper) -> Result<(), Fail> {
    let gone = Change {
        key: Seq::copy_of(alloc, b"f")?,
        value: None,
    };
    keeper.commit(&[gone])?;
    Ok(())
}

/// Whether an opening answers so.
fn is_opened(
    alloc: Global,
    config: &Config,
    keeper: &mut MemoryKeeper,
    wanted: &str,
) -> Result<bool, Fail>
    requires { IsRightConfig config.now }
{
    Ok(opened(alloc, config, keeper)?.as_str() == wanted)
}

/// The fourth call fails, after two loads and the seeding: the second opening commits nothing.
fn opened_again(
    rt: &impl Abort,
    alloc: Global,
    config: &Config,
    keeper: &mut MemoryKeeper,
) -> Result<(), Fail>
    requires { IsRightConfig config.now }
{
    for time in ["first", "second"] {
        assert!(rt;
            is_opened(alloc, config, keeper, "8 accounts, 19 pairs")?,
            "{time}"
        );
    }
    assert!(rt; keeper.commit(&[]).is_err());
    break_store(alloc, keeper)?;
    assert!(rt; is_opened(alloc, config, keeper, "bad pair [102], 18 pairs")?);
    Ok(())
}

#[test]
fn stores_are_opened_again_as_they_were_left(rt: HostRuntime) -> Result<(), Fail> {
    let mut keeper = keeper_with(rt.alloc(), &[4])?;
    let config = configured(&rt, rt.alloc(), PLAIN)?;
    let ended = opened_again(&rt, rt.alloc(), &config, &mut keeper);
    drop(config);
    ended
}

/// Makes the store one of a format.
fn set_format(alloc: Global, keeper: &mut MemoryKeeper, format: u8) -> Result<(), Fail> {
    let pair = Change {
        key: Seq::copy_of(alloc, b"f")?,
        value: Some(Seq::copy_of(alloc, &[format])?),
    };
    keeper.commit(&[pair])?;
    Ok(())
}

fn is_format(pair: &Pair) -> bool {
    pair.key.as_slice() == b"f".as_slice()
}

/// The value that a store keeps of its format.
fn format_of(keeper: &MemoryKeeper) -> &[u8] {
    for pair in keeper.as_slice() {
        if is_format(pair) {
            return pair.value.as_slice();
        }
    }
    &[]
}

/// The pairs of a store but that of its format, in digits.
fn other_pairs(alloc: Global, keeper: &MemoryKeeper) -> Result<String, Fail> {
    let mut text = String::new(alloc);
    for pair in keeper.as_slice() {
        if !is_format(pair) {
            let (key, value) = (pair.key.as_slice(), pair.value.as_slice());
            write!(text, "{key:?} {value:?};")?;
        }
    }
    Ok(text)
}

/// Seeds a store and makes it one of a format. What its opening answers then, and the format that is kept.
fn opened_in_format(
    alloc: Global,
    config: &Config,
    keeper: &mut MemoryKeeper,
    format: u8,
) -> Result<String, Fail>
    requires { IsRightConfig config.now }
{
    drop(open_store(alloc, config, keeper)?);
    set_format(alloc, keeper, format)?;
    let mut text = opened(alloc, config, keeper)?;
    write!(text, ", format {:?}", format_of(keeper))?;
    Ok(text)
}

/// The pairs of a seeded store but that of its format.
fn seeded_pairs(alloc: Global, config: &Config) -> Result<String, Fail>
    requires { IsRightConfig config.now }
{
    let mut keeper = keeper_with(alloc, &[])?;
    drop(open_store(alloc, config, &mut keeper)?);
    let pairs = other_pairs(alloc, &keeper);
    drop(keeper);
    pairs
}

/// What a store answers so, and its pairs but that of its format.
fn told_and_kept(
    alloc: Global,
    config: &Config,
    keeper: &mut MemoryKeeper,
    format: u8,
) -> Result<(String, String), Fail>
    requires { IsRightConfig config.now }
{
    let told = opened_in_format(alloc, config, keeper, format)?;
    let kept = other_pairs(alloc, keeper)?;
    Ok((told, kept))
}

/// The same of a store whose call of this number fails.
fn migrated(
    alloc: Global,
    config: &Config,
    format: u8,
    failing: u64,
) -> Result<(String, String), Fail>
    requires { IsRightConfig config.now }
{
    let mut keeper = keeper_with(alloc, &[failing])?;
    let told = told_and_kept(alloc, config, &mut keeper, format);
    drop(keeper);
    told
}

/// The format of a store, the keeper's call that fails, and what comes of it. The fifth call, after a load, the
/// seeding, the setting of the format and a load, is the one that migrates, and the last one.
const FORMATS: [(u8, u64, &str); 5] = [
    (1, 9, "8 accounts, 19 pairs, format [2]"),
    (1, 5, "StoreFault, 19 pairs, format [1]"),
    (1, 6, "8 accounts, 19 pairs, format [2]"),
    (2, 5, "8 accounts, 19 pairs, format [2]"),
    (3, 5, "bad pair [102], 19 pairs, format [3]"),
];

/// The other pairs are kept as they were.
fn migrates(rt: &impl Abort, alloc: Global, config: &Config) -> Result<(), Fail>
    requires { IsRightConfig config.now }
{
    let seeded = seeded_pairs(alloc, config)?;
    for (format, failing, wanted) in FORMATS {
        let (told, kept) = migrated(alloc, config, format, failing)?;
        assert_eq!(rt; told.as_str(), wanted, "{format} {failing}");
        assert_eq!(rt; kept.as_str(), seeded.as_str(), "{format} {failing}");
    }
    Ok(())
}

#[test]
fn stores_of_format_1_are_migrated(rt: HostRuntime) -> Result<(), Fail> {
    let config = configured(&rt, rt.alloc(), PLAIN)?;
    let ended = migrates(&rt, rt.alloc(), &config);
    drop(config);
    ended
}
