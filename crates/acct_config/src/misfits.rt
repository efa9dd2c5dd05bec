// The first key at which a document has not the shape of a configuration.
ghost use Rattle.std.specs.Prelude.{◌≡◌, map, option_map, not, find, position, string_bytes};
ghost use Rattle.std.specs.List.{list_all};
ghost use Rattle.toml.specs.View.{view, table_view};
ghost use Rattle.acct_config.specs.Document.{keys, limit_key, is_among, required, optional, is_number, is_array_of};
ghost use Rattle.acct_config.specs.Document.{is_descriptor, is_listener};
ghost use Rattle.acct_config.specs.Kinds.{kind_name};
ghost use Rattle.acct_config.specs.Faults.{unknown_key, is_table, whole_misfit, domain_misfit, listener_misfit};
ghost use Rattle.acct_config.specs.Faults.{descriptor_misfit, descriptors_misfit, limits_misfit, domain_shape};
ghost use Rattle.acct_config.specs.Faults.{listeners_shape, descriptors_shape, each_descriptor_shape, limits_shape};
ghost use Rattle.acct_config.specs.Faults.{hook_misfit, hook_shape, document_shape};

use crate::document::{elements, elements_of};
use crate::kinds::{KIND_NAMES, KINDS, kind_name};
use crate::limits::{EACH_LIMIT, LIMIT_KEYS, Limit, limit_key};
use crate::rules::{descriptor_table, listeners};
use crate::sections::{Section, of_section};
use crate::shape::{
    TABLE_NAMES, allows_descriptor, allows_number, allows_text, allows_texts, is_among,
    is_listener, requires_text, requires_texts,
};
use acct_codes::Kind;
use toml::{Table, Value};

/// The first member of a table whose key is none of these.
fn first_unknown<'a>(names: &[&str], table: &'a Table) -> Option<(&'a String, &'a Value)>
    ensures { option_map (λ member. string_bytes member.0.now) result
        ≡ find (λ key. not (is_among (map (λ name. name.now) names.now) key)) (keys (table_view table.now)) }
{
    table
        .iter()
        .find(|member| !is_among(names, member.0.as_str()))
}

fn unknown_key<'a>(value: &'a Value, names: &[&str]) -> Option<&'a str>
    ensures { option_map (λ key. key.now) result
        ≡ unknown_key (map (λ name. name.now) names.now) (view value.now) }
{
    match value.as_table() {
        Some(table) => match first_unknown(names, table) {
            Some((key, _member)) => Some(key.as_str()),
            None => None,
        },
        None => None,
    }
}

fn requires_table(value: &Value, key: &str) -> bool
    ensures { result ≡ required is_table key.now (view value.now) }
{
    match value.get(key) {
        Some(found) => found.as_table().is_some(),
        None => false,
    }
}

fn allows_table(value: &Value, key: &str) -> bool
    ensures { result ≡ optional is_table key.now (view value.now) }
{
    match value.get(key) {
        Some(found) => found.as_table().is_some(),
        None => true,
    }
}

fn are_tables(values: &[Value]) -> bool
    ensures { result ≡ list_all is_table (map view values.now) }
{
    values.iter().all(|value| value.as_table().is_some())
}

fn requires_tables(value: &Value, key: &str) -> bool
    ensures { result ≡ required (is_array_of is_table) key.now (view value.now) }
{
    match value.get(key) {
        Some(found) => found.is_array() && are_tables(elements(found)),
        None => false,
    }
}

#[tactic(auto, unfolding(crate::specs::Faults::whole_misfit))]
fn whole_misfit(document: &Value) -> Option<&str>
    ensures { option_map (λ key. key.now) result ≡ whole_misfit (view document.now) }
{
    if let Some(key) = unknown_key(document, &TABLE_NAMES) {
        return Some(key);
    }
    if !requires_table(document, "domain") {
        return Some("domain");
    }
    if !requires_tables(document, "listener") {
        return Some("listener");
    }
    if !allows_table(document, "descriptor") {
        return Some("descriptor");
    }
    if !allows_table(document, "limits") {
        return Some("limits");
    }
    if !allows_table(document, "hook") {
        return Some("hook");
    }
    None
}

#[tactic(auto, unfolding(crate::specs::Faults::domain_misfit))]
fn domain_misfit(domain: &Value) -> Option<&str>
    ensures { option_map (λ key. key.now) result ≡ domain_misfit (view domain.now) }
{
    if let Some(key) = unknown_key(domain, &["name", "sid"]) {
        return Some(key);
    }
    if !requires_text(domain, "name") {
        return Some("name");
    }
    if !requires_text(domain, "sid") {
        return Some("sid");
    }
    None
}

#[tactic(auto, unfolding(crate::specs::Faults::listener_misfit))]
fn listener_misfit(listener: &Value) -> Option<&str>
    ensures { option_map (λ key. key.now) result ≡ listener_misfit (view listener.now) }
{
    if let Some(key) = unknown_key(listener, &["name", "address", "token", "workers", "links"]) {
        return Some(key);
    }
    if !requires_text(listener, "name") {
        return Some("name");
    }
    if !requires_text(listener, "address") {
        return Some("address");
    }
    if !requires_texts(listener, "token") {
        return Some("token");
    }
    if !allows_number(listener, "workers") {
        return Some("workers");
    }
    if !allows_number(listener, "links") {
        return Some("links");
    }
    None
}

#[tactic(auto, unfolding(crate::specs::Faults::descriptor_misfit))]
fn descriptor_misfit(table: &Value) -> Option<&str>
    ensures { option_map (λ key. key.now) result ≡ descriptor_misfit (view table.now) }
{
    if let Some(key) = unknown_key(table, &["owner", "aces"]) {
        return Some(key);
    }
    if !requires_text(table, "owner") {
        return Some("owner");
    }
    if !allows_texts(table, "aces") {
        return Some("aces");
    }
    None
}

fn first_no_table(descriptors: &Value, kinds: &[Kind]) -> Option<Kind>
    ensures { result ≡ find (λ kind. not (optional is_table (kind_name kind) (view descriptors.now))) kinds.now }
{
    for kind in kinds {
        if !allows_table(descriptors, kind_name(*kind)) {
            return Some(*kind);
        }
    }
    None
}

#[tactic(auto, unfolding(crate::specs::Faults::descriptors_misfit))]
fn descriptors_misfit(descriptors: &Value) -> Option<&str>
    ensures { option_map (λ key. key.now) result ≡ descriptors_misfit (view descriptors.now) }
{
    if let Some(key) = unknown_key(descriptors, &KIND_NAMES) {
        return Some(key);
    }
    Some(kind_name(first_no_table(descriptors, &KINDS)?))
}

fn first_no_number(limits: &Value, each: &[Limit]) -> Option<Limit>
    ensures { result ≡ find (λ limit. not (optional is_number (limit_key limit) (view limits.now))) each.now }
{
    for limit in each {
        if !allows_number(limits, limit_key(*limit)) {
            return Some(*limit);
        }
    }
    None
}

#[tactic(auto, unfolding(crate::specs::Faults::limits_misfit))]
fn limits_misfit(limits: &Value) -> Option<&str>
    ensures { option_map (λ key. key.now) result ≡ limits_misfit (view limits.now) }
{
    if let Some(key) = unknown_key(limits, &LIMIT_KEYS) {
        return Some(key);
    }
    Some(limit_key(first_no_number(limits, &EACH_LIMIT)?))
}

#[tactic(auto, unfolding(crate::specs::Faults::hook_misfit))]
fn hook_misfit(hook: &Value) -> Option<&str>
    ensures { option_map (λ key. key.now) result ≡ hook_misfit (view hook.now) }
{
    if let Some(key) = unknown_key(hook, &["program", "tries"]) {
        return Some(key);
    }
    if !allows_text(hook, "program") {
        return Some("program");
    }
    if !allows_number(hook, "tries") {
        return Some("tries");
    }
    None
}

fn domain_shape(document: &Value) -> Option<(Section, &str)>
    ensures { option_map (λ fault. (fault.0, fault.1.now)) result ≡ domain_shape (view document.now) }
{
    of_section(Section::Domain, domain_misfit(document.get("domain")?))
}

fn first_no_listener(tables: &[Value]) -> Option<usize>
    ensures { result ≡ position (λ table. not (is_listener table)) (map view tables.now) }
{
    tables.iter().position(|table| !is_listener(table))
}

fn listeners_shape(document: &Value) -> Option<(Section, &str)>
    ensures { option_map (λ fault. (fault.0, fault.1.now)) result ≡ listeners_shape (view document.now) }
{
    let tables = listeners(document);
    let place = first_no_listener(tables)?;
    of_section(
        Section::Listener(place),
        listener_misfit(tables.get(place)?),
    )
}

fn first_no_descriptor(descriptors: &Value, kinds: &[Kind]) -> Option<Kind>
    ensures { result
        ≡ find (λ kind. not (optional is_descriptor (kind_name kind) (view descriptors.now))) kinds.now }
{
    for kind in kinds {
        if !allows_descriptor(descriptors, kind_name(*kind)) {
            return Some(*kind);
        }
    }
    None
}

fn each_descriptor_shape(descriptors: &Value) -> Option<(Section, &str)>
    ensures { option_map (λ fault. (fault.0, fault.1.now)) result
        ≡ each_descriptor_shape (view descriptors.now) }
{
    let kind = first_no_descriptor(descriptors, &KINDS)?;
    of_section(
        Section::Descriptor(kind),
        descriptor_misfit(descriptors.get(kind_name(kind))?),
    )
}

fn descriptors_shape(document: &Value) -> Option<(Section, &str)>
    ensures { option_map (λ fault. (fault.0, fault.1.now)) result ≡ descriptors_shape (view document.now) }
{
    let descriptors = document.get("descriptor")?;
    match descriptors_misfit(descriptors) {
        Some(key) => Some((Section::Descriptors, key)),
        None => each_descriptor_shape(descriptors),
    }
}

fn limits_shape(document: &Value) -> Option<(Section, &str)>
    ensures { option_map (λ fault. (fault.0, fault.1.now)) result ≡ limits_shape (view document.now) }
{
    of_section(Section::Limits, limits_misfit(document.get("limits")?))
}

fn hook_shape(document: &Value) -> Option<(Section, &str)>
    ensures { option_map (λ fault. (fault.0, fault.1.now)) result ≡ hook_shape (view document.now) }
{
    of_section(Section::Hook, hook_misfit(document.get("hook")?))
}

/// The first key at which a document has not the shape of a configuration, table after table.
#[tactic(auto, unfolding(crate::specs::Faults::document_shape))]
pub fn document_shape(document: &Value) -> Option<(Section, &str)>
    ensures { option_map (λ fault. (fault.0, fault.1.now)) result ≡ document_shape (view document.now) }
{
    if let Some(key) = whole_misfit(document) {
        return Some((Section::Document, key));
    }
    if let Some(fault) = domain_shape(document) {
        return Some(fault);
    }
    if let Some(fault) = listeners_shape(document) {
        return Some(fault);
    }
    if let Some(fault) = descriptors_shape(document) {
        return Some(fault);
    }
    if let Some(fault) = limits_shape(document) {
        return Some(fault);
    }
    hook_shape(document)
}
