// The first key at which a parsed document breaks a rule.
ghost use Rattle.std.specs.Prelude.{◌≡◌, map, option_map, not, find, position};
ghost use Rattle.toml.specs.View.{view};
ghost use Rattle.acct_config.specs.Rules.{listener_name, has_address, has_token, has_counts, owner_is_sid};
ghost use Rattle.acct_config.specs.Rules.{aces_are_entries, is_in_range};
ghost use Rattle.acct_config.specs.Values.{is_listener_name};
ghost use Rattle.acct_config.specs.Faults.{first_taken, names_fault, addresses_fault, tokens_fault, counts_key};
ghost use Rattle.acct_config.specs.Faults.{counts_fault, owners_fault, aces_fault, limits_fault, hook_key, hook_fault};
ghost use Rattle.acct_config.specs.Faults.{fault_of};

use crate::kinds::KINDS;
use crate::limits::{EACH_LIMIT, Limit, limit_key};
use crate::misfits::document_shape;
use crate::rules::{
    aces_are_entries, has_address, has_counts, has_token, hook_table, is_in_range,
    is_number_within, is_taken, listener_name, listeners, owner_is_sid, program, workers,
};
use crate::sections::Section;
use crate::values::is_listener_name;
use acct_codes::Kind;
use toml::Value;

fn first_unnamed(tables: &[Value]) -> Option<usize>
    ensures { result ≡ position (λ table. not (is_listener_name (listener_name table))) (map view tables.now) }
{
    tables
        .iter()
        .position(|table| !is_listener_name(listener_name(table)))
}

/// The first listener with the name of a later one.
fn first_taken(tables: &[Value]) -> Option<usize>
    ensures { result ≡ first_taken 0 (map view tables.now) }
{
    for i in 0..tables.len() {
        if is_taken(listener_name(&tables[i]), &tables[i + 1..]) {
            return Some(i);
        }
    }
    None
}

#[tactic(auto, unfolding(crate::specs::Faults::names_fault))]
fn names_fault(tables: &[Value]) -> Option<(Section, &'static str)>
    ensures { option_map (λ fault. (fault.0, fault.1.now)) result ≡ names_fault (map view tables.now) }
{
    if tables.is_empty() || 16 < tables.len() {
        return Some((Section::Document, "listener"));
    }
    if let Some(place) = first_unnamed(tables) {
        return Some((Section::Listener(place), "name"));
    }
    Some((Section::Listener(first_taken(tables)?), "name"))
}

fn first_without_address(tables: &[Value]) -> Option<usize>
    ensures { result ≡ position (λ table. not (has_address table)) (map view tables.now) }
{
    tables.iter().position(|table| !has_address(table))
}

fn first_without_token(tables: &[Value]) -> Option<usize>
    ensures { result ≡ position (λ table. not (has_token table)) (map view tables.now) }
{
    tables.iter().position(|table| !has_token(table))
}

fn first_without_counts(tables: &[Value]) -> Option<usize>
    ensures { result ≡ position (λ table. not (has_counts table)) (map view tables.now) }
{
    tables.iter().position(|table| !has_counts(table))
}

fn counts_key(listener: &Value) -> &'static str
    ensures { result.now ≡ counts_key (view listener.now) }
{
    if is_number_within(1, 64, workers(listener)) {
        "links"
    } else {
        "workers"
    }
}

fn addresses_fault(tables: &[Value]) -> Option<(Section, &'static str)>
    ensures { option_map (λ fault. (fault.0, fault.1.now)) result ≡ addresses_fault (map view tables.now) }
{
    Some((Section::Listener(first_without_address(tables)?), "address"))
}

fn tokens_fault(tables: &[Value]) -> Option<(Section, &'static str)>
    ensures { option_map (λ fault. (fault.0, fault.1.now)) result ≡ tokens_fault (map view tables.now) }
{
    Some((Section::Listener(first_without_token(tables)?), "token"))
}

fn counts_fault(tables: &[Value]) -> Option<(Section, &'static str)>
    ensures { option_map (λ fault. (fault.0, fault.1.now)) result ≡ counts_fault (map view tables.now) }
{
    let place = first_without_counts(tables)?;
    Some((Section::Listener(place), counts_key(tables.get(place)?)))
}

fn first_without_owner(document: &Value, kinds: &[Kind]) -> Option<Kind>
    ensures { result ≡ find (λ kind. not (owner_is_sid (view document.now) kind)) kinds.now }
{
    for kind in kinds {
        if !owner_is_sid(document, *kind) {
            return Some(*kind);
        }
    }
    None
}

fn owners_fault(document: &Value) -> Option<(Section, &'static str)>
    ensures { option_map (λ fault. (fault.0, fault.1.now)) result ≡ owners_fault (view document.now) }
{
    Some((
        Section::Descriptor(first_without_owner(document, &KINDS)?),
        "owner",
    ))
}

fn first_without_aces(document: &Value, kinds: &[Kind]) -> Option<Kind>
    ensures { result ≡ find (λ kind. not (aces_are_entries (view document.now) kind)) kinds.now }
{
    for kind in kinds {
        if !aces_are_entries(document, *kind) {
            return Some(*kind);
        }
    }
    None
}

fn aces_fault(document: &Value) -> Option<(Section, &'static str)>
    ensures { option_map (λ fault. (fault.0, fault.1.now)) result ≡ aces_fault (view document.now) }
{
    Some((
        Section::Descriptor(first_without_aces(document, &KINDS)?),
        "aces",
    ))
}

fn first_out_of_range(document: &Value, limits: &[Limit]) -> Option<Limit>
    ensures { result ≡ find (λ limit. not (is_in_range (view document.now) limit)) limits.now }
{
    for limit in limits {
        if !is_in_range(document, *limit) {
            return Some(*limit);
        }
    }
    None
}

fn limits_fault(document: &Value) -> Option<(Section, &'static str)>
    ensures { option_map (λ fault. (fault.0, fault.1.now)) result ≡ limits_fault (view document.now) }
{
    Some((
        Section::Limits,
        limit_key(first_out_of_range(document, &EACH_LIMIT)?),
    ))
}

fn hook_key(hook: &Value) -> &'static str
    ensures { result.now ≡ hook_key (view hook.now) }
{
    if program(hook).is_empty() {
        "program"
    } else {
        "tries"
    }
}

fn hook_fault(document: &Value) -> Option<(Section, &'static str)>
    ensures { option_map (λ fault. (fault.0, fault.1.now)) result ≡ hook_fault (view document.now) }
{
    Some((Section::Hook, hook_key(hook_table(document)?)))
}

/// The first key at which a parsed document breaks the rule of a number, from 1 on.
#[tactic(auto, unfolding(crate::specs::Faults::fault_of))]
pub fn fault_of(document: &Value, rule: u32) -> Option<(Section, &str)>
    ensures { option_map (λ fault. (fault.0, fault.1.now)) result ≡ fault_of rule (view document.now) }
{
    match rule {
        1 => document_shape(document),
        2 => Some((Section::Domain, "name")),
        3 => Some((Section::Domain, "sid")),
        4 => names_fault(listeners(document)),
        5 => addresses_fault(listeners(document)),
        6 => tokens_fault(listeners(document)),
        7 => counts_fault(listeners(document)),
        8 => owners_fault(document),
        9 => aces_fault(document),
        10 => limits_fault(document),
        11 => hook_fault(document),
        _ => None,
    }
}
