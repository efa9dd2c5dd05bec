// What a name is translated to.
ghost use Rattle.std.specs.Prelude.{◌≡◌, ◌+◌, ◌<◌, IfOk, find, length, take, drop, position};
ghost use Rattle.std.specs.List.{list_any};
ghost use Rattle.std.specs.Option.{option_map, option_or};
ghost use Rattle.lsat_translate.specs.Lookups.{is_well_known_named, well_known_named, is_domain_named, domain_named};
ghost use Rattle.lsat_translate.specs.Lookups.{account_named, match_alone, is_authority_named, match_in, match_behind};
ghost use Rattle.lsat_translate.specs.Lookups.{is_backslash, is_at_sign, is_never_mapped, match_split, match_of_name};

use crate::known::{Known, WellKnown, named, well_known};
use crate::matches::{Match, account_match};
use acct_calls::{Name, NoMemory};
use acct_rows::{ACCOUNT_DOMAIN, BUILTIN_DOMAIN, Rows};
use std::alloc::Global;

fn find_well_known(
    alloc: Global,
    among: &[WellKnown],
    name: &Name,
) -> Result<Option<WellKnown>, NoMemory>
    ensures { IfOk result (λ found. found ≡ find (is_well_known_named name.now) among.now) }
{
    for known in among {
        if known.name(alloc)?.same(name) {
            return Ok(Some(*known));
        }
    }
    Ok(None)
}

fn find_domain(
    alloc: Global,
    rows: &Rows,
    among: &[Known],
    name: &Name,
) -> Result<Option<Known>, NoMemory>
    ensures { IfOk result (λ found. found ≡ find (is_domain_named rows.now.lists name.now) among.now) }
{
    for domain in among {
        if domain.name(alloc, rows)?.same(name) {
            return Ok(Some(*domain));
        }
    }
    Ok(None)
}

fn domain_named(alloc: Global, rows: &Rows, name: &Name) -> Result<Option<Known>, NoMemory>
    ensures { IfOk result (λ found. found ≡ domain_named rows.now.lists name.now) }
{
    find_domain(alloc, rows, named(), name)
}

fn account_named(rows: &Rows, number: u8, name: &Name) -> Option<Match>
    ensures { result ≡ account_named rows.now.lists number name.now }
{
    account_match(rows.find_name(number, name))
}

// An account of the account domain, or else one of BUILTIN.
fn account_alone(rows: &Rows, name: &Name) -> Option<Match>
    ensures { result ≡ option_or (account_named rows.now.lists ACCOUNT_DOMAIN name.now)
        (account_named rows.now.lists BUILTIN_DOMAIN name.now) }
{
    match account_named(rows, ACCOUNT_DOMAIN, name) {
        Some(found) => Some(found),
        None => account_named(rows, BUILTIN_DOMAIN, name),
    }
}

// A name that stands alone: a well-known name, a domain, or an account of one of the two domains of the rows.
fn match_alone(alloc: Global, rows: &Rows, name: &Name) -> Result<Option<Match>, NoMemory>
    ensures { IfOk result (λ found. found ≡ match_alone rows.now.lists name.now) }
{
    if let Some(known) = find_well_known(alloc, well_known(), name)? {
        return Ok(Some(Match::WellKnown(known)));
    }
    if let Some(domain) = domain_named(alloc, rows, name)? {
        return Ok(Some(Match::Domain(domain)));
    }
    Ok(account_alone(rows, name))
}

// A well-known name of NT AUTHORITY.
fn find_in_authority(
    alloc: Global,
    among: &[WellKnown],
    name: &Name,
) -> Result<Option<WellKnown>, NoMemory>
    ensures { IfOk result (λ found. found ≡ find (is_authority_named name.now) among.now) }
{
    for known in among {
        if known.home().same(Known::NtAuthority) && known.name(alloc)?.same(name) {
            return Ok(Some(*known));
        }
    }
    Ok(None)
}

// An account or a well-known name of the domain.
fn match_in(
    alloc: Global,
    rows: &Rows,
    domain: Known,
    name: &Name,
) -> Result<Option<Match>, NoMemory>
    ensures { IfOk result (λ found. found ≡ match_in rows.now.lists name.now domain) }
{
    match domain {
        Known::Account => Ok(account_named(rows, ACCOUNT_DOMAIN, name)),
        Known::Builtin => Ok(account_named(rows, BUILTIN_DOMAIN, name)),
        Known::NtAuthority => {
            let found = find_in_authority(alloc, well_known(), name)?;
            Ok(found.map(Match::WellKnown))
        }
        Known::World => Ok(None),
    }
}

// What stands after the name of a domain; the domain itself where nothing does.
fn match_behind(
    alloc: Global,
    rows: &Rows,
    domain: Known,
    name: &Name,
) -> Result<Option<Match>, NoMemory>
    ensures { IfOk result (λ found. found ≡ match_behind rows.now.lists name.now domain) }
{
    if name.units().is_empty() {
        return Ok(Some(Match::Domain(domain)));
    }
    match_in(alloc, rows, domain, name)
}

fn has_at_sign(units: &[u16]) -> bool
    ensures { result ≡ list_any is_at_sign units.now }
{
    units.iter().any(|unit| *unit == u16::from(b'@'))
}

fn is_never_mapped(units: &[u16]) -> bool
    ensures { result ≡ is_never_mapped units.now }
{
    units.is_empty() || has_at_sign(units)
}

fn first_backslash(units: &[u16]) -> Option<usize>
    ensures { result ≡ position is_backslash units.now }
{
    units.iter().position(|unit| *unit == u16::from(b'\\'))
}

fn name_of_units(alloc: Global, units: &[u16]) -> Result<Name, NoMemory>
    ensures { IfOk result (λ name. name ≡ units.now) }
{
    Ok(Name::from_units(units.to_vec(alloc)?))
}

// A name that is split at a place of a backslash.
fn match_at(
    alloc: Global,
    rows: &Rows,
    units: &[u16],
    place: usize,
) -> Result<Option<Match>, NoMemory>
    requires { place < length units.now }
    ensures { IfOk result (λ found. found ≡ match_split rows.now.lists units.now (Some place)) }
{
    let front = name_of_units(alloc, &units[..place])?;
    let domain = domain_named(alloc, rows, &front);
    drop(front);
    match domain? {
        Some(domain) => {
            let name = name_of_units(alloc, &units[place + 1..])?;
            let found = match_behind(alloc, rows, domain, &name);
            drop(name);
            found
        }
        None => Ok(None),
    }
}

/// What a name is translated to: the name of a domain, a backslash and a name of the domain, or a name that stands
/// alone.
pub(crate) fn match_of_name(
    alloc: Global,
    rows: &Rows,
    name: &Name,
) -> Result<Option<Match>, NoMemory>
    ensures { IfOk result (λ found. found ≡ match_of_name rows.now.lists name.now) }
{
    let units = name.units();
    if is_never_mapped(units) {
        return Ok(None);
    }
    match first_backslash(units) {
        Some(place) => match_at(alloc, rows, units, place),
        None => match_alone(alloc, rows, name),
    }
}
