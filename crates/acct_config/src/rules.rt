// The rules of a configuration, each a test of the parsed document.
ghost use Rattle.std.specs.Prelude.{◌≡◌, map, option_map, IfOk};
ghost use Rattle.std.specs.List.{list_all, list_any};
ghost use Rattle.std.specs.Str.{bytes_eq};
ghost use Rattle.toml.specs.View.{view};
ghost use Rattle.acct_config.specs.Rules.{domain_name, domain_sid, has_domain_name, has_domain_sid, listeners};
ghost use Rattle.acct_config.specs.Rules.{listener_name, listener_address, have_names, has_address, sid_of, is_sid};
ghost use Rattle.acct_config.specs.Rules.{has_token, is_number_within, workers, links, has_counts, descriptor_table};
ghost use Rattle.acct_config.specs.Rules.{owner, owner_is_sid, is_ace, aces_are_entries, limit_number, is_in_range};
ghost use Rattle.acct_config.specs.Rules.{hook_table, program, tries, hook_is_right, kept, first_broken_from};
ghost use Rattle.acct_config.specs.Values.{is_listener_name, are_distinct};

use crate::address::is_address;
use crate::document::{elements_of, get_in, number_of, text_of};
use crate::entries::{ace_of_text, sid_of_text};
use crate::kinds::{KINDS, kind_name};
use crate::limits::{EACH_LIMIT, Limit, limit_key, range_of};
use crate::shape::is_document;
use crate::values::is_listener_name;
use acct_calls::Name;
use acct_calls::domain::{is_domain_name, is_domain_sid};
use acct_codes::Kind;
use dtyp_sid::Sid;
use std::alloc::{AllocError, Global};
use toml::Value;

/// The account domain's name, as a text.
pub fn domain_name(document: &Value) -> &str
    ensures { result.now ≡ domain_name (view document.now) }
{
    text_of(get_in(document, "domain", "name"))
}

/// The account domain's SID.
pub fn domain_sid(document: &Value) -> Option<Sid>
    ensures { result ≡ domain_sid (view document.now) }
{
    sid_of_text(text_of(get_in(document, "domain", "sid")))
}

fn has_domain_name(alloc: Global, document: &Value) -> Result<bool, AllocError>
    ensures { IfOk result (λ kept. kept ≡ has_domain_name (view document.now)) }
{
    let name = Name::from_text(alloc, domain_name(document))?;
    is_domain_name(alloc, &name)
}

fn has_domain_sid(document: &Value) -> bool
    ensures { result ≡ has_domain_sid (view document.now) }
{
    match domain_sid(document) {
        Some(sid) => is_domain_sid(&sid),
        None => false,
    }
}

/// The tables of listeners.
pub fn listeners(document: &Value) -> &[Value]
    ensures { map view result.now ≡ listeners (view document.now) }
{
    elements_of(document.get("listener"))
}

/// A listener's name.
pub fn listener_name(listener: &Value) -> &str
    ensures { result.now ≡ listener_name (view listener.now) }
{
    text_of(listener.get("name"))
}

/// A listener's address.
pub fn listener_address(listener: &Value) -> &str
    ensures { result.now ≡ listener_address (view listener.now) }
{
    text_of(listener.get("address"))
}

fn each_has_name(tables: &[Value]) -> bool
    ensures { result ≡ list_all (λ listener. is_listener_name (listener_name listener)) (map view tables.now) }
{
    tables
        .iter()
        .all(|table| is_listener_name(listener_name(table)))
}

pub fn is_taken(name: &str, tables: &[Value]) -> bool
    ensures { result ≡ list_any (bytes_eq name.now) (map listener_name (map view tables.now)) }
{
    tables.iter().any(|table| name == listener_name(table))
}

fn names_differ(tables: &[Value]) -> bool
    ensures { result ≡ are_distinct (map listener_name (map view tables.now)) }
{
    for i in 0..tables.len() {
        if is_taken(listener_name(&tables[i]), &tables[i + 1..]) {
            return false;
        }
    }
    true
}

fn have_names(tables: &[Value]) -> bool
    ensures { result ≡ have_names (map view tables.now) }
{
    1 <= tables.len() && tables.len() <= 16 && each_has_name(tables) && names_differ(tables)
}

pub fn has_address(listener: &Value) -> bool
    ensures { result ≡ has_address (view listener.now) }
{
    is_address(listener_address(listener))
}

fn have_addresses(tables: &[Value]) -> bool
    ensures { result ≡ list_all has_address (map view tables.now) }
{
    tables.iter().all(|table| has_address(table))
}

/// The SID that a text in a list spells.
pub fn sid_of(text: &Value) -> Option<Sid>
    ensures { result ≡ sid_of (view text.now) }
{
    sid_of_text(text_of(Some(text)))
}

fn are_sids(texts: &[Value]) -> bool
    ensures { result ≡ list_all is_sid (map view texts.now) }
{
    texts.iter().all(|text| sid_of(text).is_some())
}

pub fn has_token(listener: &Value) -> bool
    ensures { result ≡ has_token (view listener.now) }
{
    let texts = elements_of(listener.get("token"));
    1 <= texts.len() && texts.len() <= 64 && are_sids(texts)
}

fn have_tokens(tables: &[Value]) -> bool
    ensures { result ≡ list_all has_token (map view tables.now) }
{
    tables.iter().all(|table| has_token(table))
}

pub fn is_number_within(low: u64, high: u64, number: i64) -> bool
    ensures { result ≡ is_number_within low high number }
{
    match u64::try_from(number) {
        Ok(number) => low <= number && number <= high,
        Err(_) => false,
    }
}

/// How many connections a listener serves side by side.
pub fn workers(listener: &Value) -> i64
    ensures { result ≡ workers (view listener.now) }
{
    number_of(1, listener.get("workers"))
}

/// How many connections each worker of a listener takes.
pub fn links(listener: &Value) -> i64
    ensures { result ≡ links (view listener.now) }
{
    number_of(0, listener.get("links"))
}

pub fn has_counts(listener: &Value) -> bool
    ensures { result ≡ has_counts (view listener.now) }
{
    is_number_within(1, 64, workers(listener))
        && is_number_within(0, 4_294_967_295, links(listener))
}

fn have_counts(tables: &[Value]) -> bool
    ensures { result ≡ list_all has_counts (map view tables.now) }
{
    tables.iter().all(|table| has_counts(table))
}

/// The descriptor table of a kind.
pub fn descriptor_table(document: &Value, kind: Kind) -> Option<&Value>
    ensures { option_map (λ v. view v.now) result ≡ descriptor_table (view document.now) kind }
{
    get_in(document, "descriptor", kind_name(kind))
}

/// The owner that a descriptor table names.
pub fn owner(table: &Value) -> Option<Sid>
    ensures { result ≡ owner (view table.now) }
{
    sid_of_text(text_of(table.get("owner")))
}

#[tactic(auto, unfolding(crate::specs::Rules::owner_is_sid))]
pub fn owner_is_sid(document: &Value, kind: Kind) -> bool
    ensures { result ≡ owner_is_sid (view document.now) kind }
{
    match descriptor_table(document, kind) {
        Some(table) => owner(table).is_some(),
        None => true,
    }
}

fn have_owners(document: &Value, kinds: &[Kind]) -> bool
    ensures { result ≡ list_all (owner_is_sid (view document.now)) kinds.now }
{
    kinds.iter().all(|kind| owner_is_sid(document, *kind))
}

fn are_aces(texts: &[Value]) -> bool
    ensures { result ≡ list_all is_ace (map view texts.now) }
{
    texts
        .iter()
        .all(|text| ace_of_text(text_of(Some(text))).is_some())
}

#[tactic(auto, unfolding(crate::specs::Rules::aces_are_entries))]
pub fn aces_are_entries(document: &Value, kind: Kind) -> bool
    ensures { result ≡ aces_are_entries (view document.now) kind }
{
    match descriptor_table(document, kind) {
        Some(table) => {
            let aces = elements_of(table.get("aces"));
            aces.len() <= 800 && are_aces(aces)
        }
        None => true,
    }
}

fn have_aces(document: &Value, kinds: &[Kind]) -> bool
    ensures { result ≡ list_all (aces_are_entries (view document.now)) kinds.now }
{
    kinds.iter().all(|kind| aces_are_entries(document, *kind))
}

/// The number that a document gives for a limit.
pub fn limit_number(document: &Value, limit: Limit) -> i64
    ensures { result ≡ limit_number (view document.now) limit }
{
    number_of(
        range_of(limit).absent,
        get_in(document, "limits", limit_key(limit)),
    )
}

pub fn is_in_range(document: &Value, limit: Limit) -> bool
    ensures { result ≡ is_in_range (view document.now) limit }
{
    let range = range_of(limit);
    is_number_within(range.low, range.high, limit_number(document, limit))
}

fn have_limits(document: &Value, limits: &[Limit]) -> bool
    ensures { result ≡ list_all (is_in_range (view document.now)) limits.now }
{
    limits.iter().all(|limit| is_in_range(document, *limit))
}

/// The table of the program that is told of changes.
pub fn hook_table(document: &Value) -> Option<&Value>
    ensures { option_map (λ v. view v.now) result ≡ hook_table (view document.now) }
{
    document.get("hook")
}

/// The program that such a table names.
pub fn program(hook: &Value) -> &str
    ensures { result.now ≡ program (view hook.now) }
{
    text_of(hook.get("program"))
}

/// How often it is tried.
pub fn tries(hook: &Value) -> i64
    ensures { result ≡ tries (view hook.now) }
{
    number_of(3, hook.get("tries"))
}

#[tactic(auto, unfolding(crate::specs::Rules::hook_is_right))]
fn hook_is_right(document: &Value) -> bool
    ensures { result ≡ hook_is_right (view document.now) }
{
    match hook_table(document) {
        Some(hook) => !program(hook).is_empty() && is_number_within(1, 100, tries(hook)),
        None => true,
    }
}

/// The first rule from 1 on that a parsed document breaks.
#[tactic(auto, unfolding(crate::specs::Rules::kept))]
pub fn first_broken(alloc: Global, document: &Value) -> Result<Option<u32>, AllocError>
    ensures { IfOk result (λ rule. rule ≡ first_broken_from 1 (kept (view document.now))) }
{
    if !is_document(document) {
        return Ok(Some(1));
    }
    if !has_domain_name(alloc, document)? {
        return Ok(Some(2));
    }
    if !has_domain_sid(document) {
        return Ok(Some(3));
    }
    let tables = listeners(document);
    if !have_names(tables) {
        return Ok(Some(4));
    }
    if !have_addresses(tables) {
        return Ok(Some(5));
    }
    if !have_tokens(tables) {
        return Ok(Some(6));
    }
    if !have_counts(tables) {
        return Ok(Some(7));
    }
    if !have_owners(document, &KINDS) {
        return Ok(Some(8));
    }
    if !have_aces(document, &KINDS) {
        return Ok(Some(9));
    }
    if !have_limits(document, &EACH_LIMIT) {
        return Ok(Some(10));
    }
    if !hook_is_right(document) {
        return Ok(Some(11));
    }
    Ok(None)
}
