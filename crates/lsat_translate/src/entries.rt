// What a translation answers: the domains that it refers to, and an entry for each name or SID.
ghost use Rattle.std.specs.Prelude.{◌≡◌, ℕ, ◌≤◌, ◌<◌, ◌^◌, [], ◌∷◌, ◌++◌, IfOk, OnOk, map, length, take};
ghost use Rattle.std.specs.Int.{w32};
ghost use Rattle.lsat_translate.specs.Translations.{with_domain, referenced, place_of, index_in, translated_sid};
ghost use Rattle.lsat_translate.specs.Translations.{sid_ref, shown_name, translated_name, named_entry, mapped_count};
ghost use Rattle.lsat_translate.specs.Lookups.{match_of_sid};
ghost use Rattle.lsat_translate.specs.Matches.{use_in};

use crate::known::Known;
use crate::matches::{Match, rid_in, sid_in, use_in};
use acct_base::Seq;
use acct_calls::{
    Name, NamedList, NoMemory, Places, ReferencedDomain, Rids, SidRef, SidRefs, Translated,
    TranslatedName, TranslatedSid,
};
use acct_rows::Rows;
use dtyp_sid::Sid;
use indexmap::IndexSet;
use std::alloc::Global;

// Adds the domain that a match refers to, unless it is there.
fn refer(domains: &mut IndexSet<Known>, found: Option<Match>) -> Result<(), NoMemory>
    ensures { OnOk result (domains.new.keys ≡ with_domain found domains.old.keys) }
{
    if let Some(found) = found {
        domains.insert(found.known())?;
    }
    Ok(())
}

/// The domains that the matches refer to, each once, where it first stands.
pub(crate) fn referenced(
    alloc: Global,
    found: &[Option<Match>],
) -> Result<IndexSet<Known>, NoMemory>
    ensures domains { IfOk result (λ domains. domains.keys ≡ referenced found.now) }
    ensures few { IfOk result (λ domains. length domains.keys ≤ 4) }
{
    let mut domains = IndexSet::new(alloc);
    for one in found {
        refer(&mut domains, *one)?;
    }
    Ok(domains)
}

// The index of the domain of a match; -1 where there is none.
fn index_in(domains: &IndexSet<Known>, found: Option<Match>) -> i32
    requires { length domains.now.keys ≤ 4 }
    ensures { result ≡ index_in domains.now.keys found }
{
    match found {
        Some(found) => match domains.get_index_of(&found.known()) {
            Some(index) => index as i32,
            None => -1,
        },
        None => -1,
    }
}

fn place_of(alloc: Global, rows: &Rows, domain: Known) -> Result<ReferencedDomain, NoMemory>
    ensures { IfOk result (λ place. place ≡ place_of rows.now.lists domain) }
{
    Ok(ReferencedDomain {
        name: domain.name(alloc, rows)?,
        sid: domain.sid(rows),
    })
}

/// The domains by their names and SIDs.
pub(crate) fn places(
    alloc: Global,
    rows: &Rows,
    domains: &IndexSet<Known>,
) -> Result<Places, NoMemory>
    ensures { IfOk result (λ places. places ≡ map (place_of rows.now.lists) domains.now.keys) }
{
    let mut places = Seq::new(alloc);
    for domain in domains.as_slice() {
        places = places.with(place_of(alloc, rows, *domain)?)?;
    }
    Ok(places)
}

/// The entries of names, each with the RID of its match.
pub(crate) fn translated_sids(
    alloc: Global,
    domains: &IndexSet<Known>,
    found: &[Option<Match>],
) -> Result<Translated, NoMemory>
    requires { length domains.now.keys ≤ 4 }
    ensures { IfOk result (λ entries. entries ≡ map (translated_sid domains.now.keys) found.now) }
{
    let mut entries = Seq::new(alloc);
    for one in found {
        entries.push(TranslatedSid {
            usage: use_in(*one) as u16,
            rid: rid_in(*one),
            index: index_in(domains, *one),
        })?;
    }
    Ok(entries)
}

/// The entries of names, each with the SID of its match.
pub(crate) fn sid_refs(
    alloc: Global,
    rows: &Rows,
    domains: &IndexSet<Known>,
    found: &[Option<Match>],
) -> Result<SidRefs, NoMemory>
    requires { length domains.now.keys ≤ 4 }
    ensures { IfOk result (λ entries. entries ≡ map (sid_ref rows.now.lists domains.now.keys) found.now) }
{
    let mut entries = Seq::new(alloc);
    for one in found {
        entries = entries.with(SidRef {
            usage: use_in(*one) as u16,
            sid: sid_in(rows, *one),
            index: index_in(domains, *one),
        })?;
    }
    Ok(entries)
}

fn shown_name(alloc: Global, rows: &Rows, sid: Sid, found: Option<Match>) -> Result<Name, NoMemory>
    ensures { IfOk result (λ name. name ≡ shown_name rows.now.lists sid found) }
{
    match found {
        Some(found) => found.name(alloc, rows),
        None => Name::from_text(alloc, sid.text(alloc)?.as_str()),
    }
}

/// What each match is used for.
pub(crate) fn uses(alloc: Global, found: &[Option<Match>]) -> Result<Rids, NoMemory>
    ensures { IfOk result (λ uses. uses ≡ map use_in found.now) }
{
    let mut uses = Seq::new(alloc);
    for one in found {
        uses.push(use_in(*one))?;
    }
    Ok(uses)
}

/// How many are mapped; the count stands still at the most of 32 bits.
pub(crate) fn mapped_count(found: &[Option<Match>]) -> u32
    ensures { result ≡ mapped_count found.now }
{
    let count = found.iter().filter(|one| one.is_some()).count();
    count.min(u32::MAX as usize) as u32
}

// The entry of a SID, by its match.
fn translated_name(
    alloc: Global,
    rows: &Rows,
    domains: &IndexSet<Known>,
    sid: Sid,
    found: Option<Match>,
) -> Result<TranslatedName, NoMemory>
    requires { length domains.now.keys ≤ 4 }
    ensures { IfOk result (λ entry. entry ≡ translated_name rows.now.lists domains.now.keys sid found) }
{
    Ok(TranslatedName {
        usage: use_in(found) as u16,
        name: shown_name(alloc, rows, sid, found)?,
        index: index_in(domains, found),
    })
}

/// The entries of SIDs, by their matches.
pub(crate) fn translated_names(
    alloc: Global,
    rows: &Rows,
    domains: &IndexSet<Known>,
    sids: &[Sid],
    found: &[Option<Match>],
) -> Result<NamedList, NoMemory>
    requires few { length domains.now.keys ≤ 4 }
    requires found { found.now ≡ map (match_of_sid rows.now.lists) sids.now }
    ensures { IfOk result (λ entries. entries ≡ map (named_entry rows.now.lists domains.now.keys) sids.now) }
{
    let mut entries = Seq::new(alloc);
    for (place, sid) in sids.iter().enumerate() {
        let entry = translated_name(alloc, rows, domains, *sid, found[place])?;
        entries = entries.with(entry)?;
    }
    Ok(entries)
}
