// The operations that translate names and SIDs.
ghost use Rattle.std.specs.Prelude.{◌≡◌, ◌≤◌, true, IfOk, OnErr, length, map};
ghost use Rattle.acct_calls.specs.declared.replies.Outs.TheVariants as outs;
ghost use Rattle.acct_rules.specs.Planned.{mapped_status, answers, decision, none_fails};
ghost use Rattle.lsat_translate.specs.Translations.{mapped_count, named_entry, place_of, sid_ref, translated_sid};
ghost use Rattle.lsat_translate.specs.Translations.{asked_level, asked_names, asked_sids, is_level, names_shown};
ghost use Rattle.lsat_translate.specs.Translations.{names_translated, sids_shown, look_names, look_names2, look_names3};
ghost use Rattle.lsat_translate.specs.Translations.{look_sids, look_sids2};
ghost use Rattle.lsat_translate.specs.Matches.{use_in};
ghost use Rattle.lsat_translate.specs.Lookups.{match_of_name, match_of_sid};

use crate::entries::{
    mapped_count, places, referenced, sid_refs, translated_names, translated_sids, uses,
};
use crate::known::Known;
use crate::matches::Match;
use crate::names::match_of_name;
use crate::sids::match_of_sid;
use acct_base::Seq;
use acct_calls::{Args, Name, Outs};
use acct_codes::lookup_level::{LSAP_LOOKUP_RODC_REFERRAL_TO_FULL_DC, LSAP_LOOKUP_WKSTA};
use acct_codes::status::STATUS_INVALID_PARAMETER;
use acct_rows::{Object, Rows};
use acct_rules::{NoMemory, Planned, answers, mapped_status, refusal};
use dtyp_sid::Sid;
use indexmap::IndexSet;
use std::alloc::Global;

// By what the entry of a name tells its match.
#[derive(Clone, Copy, Debug, PartialEq, Eq)]
enum Form {
    // By its RID, which stands after the SID of its domain.
    Rid,
    // By its SID.
    Sid,
}

fn asked_level(args: &Args) -> u16
    ensures { result ≡ asked_level args.now }
{
    match args {
        Args::LookNames { level, .. } => *level,
        Args::LookSids { level, .. } => *level,
        _ => 0,
    }
}

fn asked_names(args: &Args) -> &[Name]
    ensures { result.now ≡ asked_names args.now }
{
    match args {
        Args::LookNames { names, .. } => names.as_slice(),
        _ => &[],
    }
}

fn asked_sids(args: &Args) -> &[Sid]
    ensures { result.now ≡ asked_sids args.now }
{
    match args {
        Args::LookSids { sids, .. } => sids.as_slice(),
        _ => &[],
    }
}

fn is_level(level: u16) -> bool
    ensures { result ≡ is_level level }
{
    LSAP_LOOKUP_WKSTA <= level && level <= LSAP_LOOKUP_RODC_REFERRAL_TO_FULL_DC
}

fn matches_of_names(
    alloc: Global,
    rows: &Rows,
    names: &[Name],
) -> Result<Seq<Option<Match>>, NoMemory>
    ensures { IfOk result (λ found. found ≡ map (match_of_name rows.now.lists) names.now) }
{
    let mut found = Seq::new(alloc);
    for name in names {
        found.push(match_of_name(alloc, rows, name)?)?;
    }
    Ok(found)
}

fn matches_of_sids(alloc: Global, rows: &Rows, sids: &[Sid]) -> Result<Seq<Option<Match>>, NoMemory>
    ensures { IfOk result (λ found. found ≡ map (match_of_sid rows.now.lists) sids.now) }
{
    let mut found = Seq::new(alloc);
    for sid in sids {
        found.push(match_of_sid(rows, *sid))?;
    }
    Ok(found)
}

// The status of the matches: whether all, some or none are mapped.
fn status_of(alloc: Global, found: &[Option<Match>]) -> Result<u32, NoMemory>
    ensures { IfOk result (λ status. status ≡ mapped_status (map use_in found.now)) }
{
    let used = uses(alloc, found)?;
    let status = mapped_status(used.as_slice());
    drop(used);
    Ok(status)
}

// What is shown of the matches of names by their RIDs, beside the domains that they refer to.
fn shown_by_rid(
    alloc: Global,
    rows: &Rows,
    domains: &IndexSet<Known>,
    found: &[Option<Match>],
) -> Result<Outs, NoMemory>
    requires { length domains.now.keys ≤ 4 }
    ensures { IfOk result (λ shown. shown ≡ outs.Sids (map (place_of rows.now.lists) domains.now.keys)
        (map (translated_sid domains.now.keys) found.now) (mapped_count found.now)) }
{
    let places = places(alloc, rows, domains)?;
    match translated_sids(alloc, domains, found) {
        Ok(entries) => Ok(Outs::Sids {
            domains: places,
            entries,
            mapped: mapped_count(found),
        }),
        Err(full) => {
            drop(places);
            Err(full)
        }
    }
}

// What is shown of the matches of names by their SIDs, beside the domains that they refer to.
fn shown_by_sid(
    alloc: Global,
    rows: &Rows,
    domains: &IndexSet<Known>,
    found: &[Option<Match>],
) -> Result<Outs, NoMemory>
    requires { length domains.now.keys ≤ 4 }
    ensures { IfOk result (λ shown. shown ≡ outs.SidRefs (map (place_of rows.now.lists) domains.now.keys)
        (map (sid_ref rows.now.lists domains.now.keys) found.now) (mapped_count found.now)) }
{
    let places = places(alloc, rows, domains)?;
    match sid_refs(alloc, rows, domains, found) {
        Ok(entries) => Ok(Outs::SidRefs {
            domains: places,
            entries,
            mapped: mapped_count(found),
        }),
        Err(full) => {
            drop(places);
            Err(full)
        }
    }
}

// What is shown of the matches of names in a form.
fn names_shown(
    alloc: Global,
    rows: &Rows,
    form: Form,
    found: &[Option<Match>],
) -> Result<Outs, NoMemory>
    ensures { IfOk result (λ shown. shown ≡ names_shown form rows.now.lists found.now) }
{
    let domains = referenced(alloc, found)?;
    let shown = match form {
        Form::Rid => shown_by_rid(alloc, rows, &domains, found),
        Form::Sid => shown_by_sid(alloc, rows, &domains, found),
    };
    drop(domains);
    shown
}

// What is answered in a form where these are the matches of the names.
fn names_answered(
    alloc: Global,
    rows: &Rows,
    form: Form,
    found: &[Option<Match>],
) -> Result<Planned, NoMemory>
    ensures { IfOk result (λ p. p ≡ answers (mapped_status (map use_in found.now))
        (names_shown form rows.now.lists found.now)) }
{
    let status = status_of(alloc, found)?;
    let shown = names_shown(alloc, rows, form, found)?;
    Ok(answers(alloc, status, shown))
}

// The names that are asked for, translated and shown in a form.
fn names_translated(
    alloc: Global,
    rows: &Rows,
    form: Form,
    args: &Args,
) -> Result<Planned, NoMemory>
    ensures decided { IfOk result (λ p. p ≡ decision (names_translated form rows.now.lists args.now)) }
    ensures frugal { OnErr result (none_fails (names_translated form rows.now.lists args.now).conditions ≡ true) }
{
    if !is_level(asked_level(args)) {
        return Ok(refusal(alloc, STATUS_INVALID_PARAMETER));
    }
    let found = matches_of_names(alloc, rows, asked_names(args))?;
    let planned = names_answered(alloc, rows, form, found.as_slice());
    drop(found);
    planned
}

/// LsarLookupNames (MS-LSAT 3.1.4.8): the RIDs of names, what each is used for, and the domains that they refer to.
pub fn look_names(
    alloc: Global,
    rows: &Rows,
    object: Object,
    args: &Args,
) -> Result<Planned, NoMemory>
    ensures decided { IfOk result (λ p. p ≡ decision (look_names rows.now.lists object args.now)) }
    ensures frugal { OnErr result (none_fails (look_names rows.now.lists object args.now).conditions ≡ true) }
{
    names_translated(alloc, rows, Form::Rid, args)
}

/// LsarLookupNames2 (MS-LSAT 3.1.4.7): as LsarLookupNames.
pub fn look_names2(
    alloc: Global,
    rows: &Rows,
    object: Object,
    args: &Args,
) -> Result<Planned, NoMemory>
    ensures decided { IfOk result (λ p. p ≡ decision (look_names2 rows.now.lists object args.now)) }
    ensures frugal { OnErr result (none_fails (look_names2 rows.now.lists object args.now).conditions ≡ true) }
{
    look_names(alloc, rows, object, args)
}

/// LsarLookupNames3 (MS-LSAT 3.1.4.6): as LsarLookupNames, but with the SIDs of names in place of their RIDs.
pub fn look_names3(
    alloc: Global,
    rows: &Rows,
    object: Object,
    args: &Args,
) -> Result<Planned, NoMemory>
    ensures decided { IfOk result (λ p. p ≡ decision (look_names3 rows.now.lists object args.now)) }
    ensures frugal { OnErr result (none_fails (look_names3 rows.now.lists object args.now).conditions ≡ true) }
{
    names_translated(alloc, rows, Form::Sid, args)
}

// What is shown of the matches of SIDs by their names, beside the domains that they refer to.
fn shown_by_name(
    alloc: Global,
    rows: &Rows,
    domains: &IndexSet<Known>,
    sids: &[Sid],
    found: &[Option<Match>],
) -> Result<Outs, NoMemory>
    requires few { length domains.now.keys ≤ 4 }
    requires found { found.now ≡ map (match_of_sid rows.now.lists) sids.now }
    ensures { IfOk result (λ shown. shown ≡ outs.Names (map (place_of rows.now.lists) domains.now.keys)
        (map (named_entry rows.now.lists domains.now.keys) sids.now) (mapped_count found.now)) }
{
    let places = places(alloc, rows, domains)?;
    match translated_names(alloc, rows, domains, sids, found) {
        Ok(entries) => Ok(Outs::Names {
            domains: places,
            entries,
            mapped: mapped_count(found),
        }),
        Err(full) => {
            drop(places);
            Err(full)
        }
    }
}

// What is answered where these are the matches of the SIDs.
fn sids_answered(
    alloc: Global,
    rows: &Rows,
    sids: &[Sid],
    found: &[Option<Match>],
) -> Result<Planned, NoMemory>
    requires { found.now ≡ map (match_of_sid rows.now.lists) sids.now }
    ensures { IfOk result (λ p. p ≡ answers (mapped_status (map use_in found.now))
        (sids_shown rows.now.lists sids.now found.now)) }
{
    let status = status_of(alloc, found)?;
    let domains = referenced(alloc, found)?;
    let shown = shown_by_name(alloc, rows, &domains, sids, found);
    drop(domains);
    Ok(answers(alloc, status, shown?))
}

/// LsarLookupSids (MS-LSAT 3.1.4.11): the names of SIDs, what each is used for, and the domains that they refer to.
pub fn look_sids(
    alloc: Global,
    rows: &Rows,
    object: Object,
    args: &Args,
) -> Result<Planned, NoMemory>
    ensures decided { IfOk result (λ p. p ≡ decision (look_sids rows.now.lists object args.now)) }
    ensures frugal { OnErr result (none_fails (look_sids rows.now.lists object args.now).conditions ≡ true) }
{
    if !is_level(asked_level(args)) {
        return Ok(refusal(alloc, STATUS_INVALID_PARAMETER));
    }
    let sids = asked_sids(args);
    let found = matches_of_sids(alloc, rows, sids)?;
    let planned = sids_answered(alloc, rows, sids, found.as_slice());
    drop(found);
    planned
}

/// LsarLookupSids2 (MS-LSAT 3.1.4.10): as LsarLookupSids.
pub fn look_sids2(
    alloc: Global,
    rows: &Rows,
    object: Object,
    args: &Args,
) -> Result<Planned, NoMemory>
    ensures decided { IfOk result (λ p. p ≡ decision (look_sids2 rows.now.lists object args.now)) }
    ensures frugal { OnErr result (none_fails (look_sids2 rows.now.lists object args.now).conditions ≡ true) }
{
    look_sids(alloc, rows, object, args)
}
