// Which keys a document has, and of which types.
ghost use Rattle.std.specs.Prelude.{◌≡◌, map, codes};
ghost use Rattle.std.specs.List.{list_all};
ghost use Rattle.toml.specs.View.{view, table_view};
ghost use Rattle.acct_config.specs.Document.{keys, limit_key, is_among, has_only, required, optional, is_text};
ghost use Rattle.acct_config.specs.Document.{is_number, is_array_of, is_domain, is_listener, is_descriptor};
ghost use Rattle.acct_config.specs.Document.{are_descriptors, are_limits, is_hook, is_document};
ghost use Rattle.acct_config.specs.Kinds.{kind_name};

use crate::document::elements;
use crate::kinds::{KIND_NAMES, KINDS, kind_name};
use crate::limits::{EACH_LIMIT, LIMIT_KEYS, Limit, limit_key};
use acct_codes::Kind;
use toml::{Table, Value};

/// The names of the tables of a document.
pub const TABLE_NAMES: [&str; 5] = ["domain", "listener", "descriptor", "limits", "hook"];

pub fn is_among(names: &[&str], key: &str) -> bool
    ensures { result ≡ is_among (map (λ name. name.now) names.now) key.now }
{
    names.iter().any(|name| *name == key)
}

fn keys_are_among(names: &[&str], table: &Table) -> bool
    ensures { result ≡ list_all (is_among (map (λ name. name.now) names.now)) (keys (table_view table.now)) }
{
    table
        .iter()
        .all(|(key, _member)| is_among(names, key.as_str()))
}

fn has_only(value: &Value, names: &[&str]) -> bool
    ensures { result ≡ has_only (map (λ name. name.now) names.now) (view value.now) }
{
    match value.as_table() {
        Some(table) => keys_are_among(names, table),
        None => false,
    }
}

pub fn allows_text(value: &Value, key: &str) -> bool
    ensures { result ≡ optional is_text key.now (view value.now) }
{
    match value.get(key) {
        Some(found) => found.is_str(),
        None => true,
    }
}

pub fn requires_text(value: &Value, key: &str) -> bool
    ensures { result ≡ required is_text key.now (view value.now) }
{
    match value.get(key) {
        Some(found) => found.is_str(),
        None => false,
    }
}

pub fn allows_number(value: &Value, key: &str) -> bool
    ensures { result ≡ optional is_number key.now (view value.now) }
{
    match value.get(key) {
        Some(found) => found.is_integer(),
        None => true,
    }
}

fn are_texts(values: &[Value]) -> bool
    ensures { result ≡ list_all is_text (map view values.now) }
{
    values.iter().all(|value| value.is_str())
}

pub fn requires_texts(value: &Value, key: &str) -> bool
    ensures { result ≡ required (is_array_of is_text) key.now (view value.now) }
{
    match value.get(key) {
        Some(found) => found.is_array() && are_texts(elements(found)),
        None => false,
    }
}

pub fn allows_texts(value: &Value, key: &str) -> bool
    ensures { result ≡ optional (is_array_of is_text) key.now (view value.now) }
{
    match value.get(key) {
        Some(found) => found.is_array() && are_texts(elements(found)),
        None => true,
    }
}

#[tactic(auto, unfolding(crate::specs::Document::is_domain))]
fn is_domain(value: &Value) -> bool
    ensures { result ≡ is_domain (view value.now) }
{
    has_only(value, &["name", "sid"]) && requires_text(value, "name") && requires_text(value, "sid")
}

fn requires_domain(value: &Value, key: &str) -> bool
    ensures { result ≡ required is_domain key.now (view value.now) }
{
    match value.get(key) {
        Some(found) => is_domain(found),
        None => false,
    }
}

#[tactic(auto, unfolding(crate::specs::Document::is_listener))]
pub fn is_listener(value: &Value) -> bool
    ensures { result ≡ is_listener (view value.now) }
{
    has_only(value, &["name", "address", "token", "workers", "links"])
        && requires_text(value, "name")
        && requires_text(value, "address")
        && requires_texts(value, "token")
        && allows_number(value, "workers")
        && allows_number(value, "links")
}

fn are_listeners(values: &[Value]) -> bool
    ensures { result ≡ list_all is_listener (map view values.now) }
{
    values.iter().all(|value| is_listener(value))
}

fn requires_listeners(value: &Value, key: &str) -> bool
    ensures { result ≡ required (is_array_of is_listener) key.now (view value.now) }
{
    match value.get(key) {
        Some(found) => found.is_array() && are_listeners(elements(found)),
        None => false,
    }
}

#[tactic(auto, unfolding(crate::specs::Document::is_descriptor))]
fn is_descriptor(value: &Value) -> bool
    ensures { result ≡ is_descriptor (view value.now) }
{
    has_only(value, &["owner", "aces"])
        && requires_text(value, "owner")
        && allows_texts(value, "aces")
}

pub fn allows_descriptor(value: &Value, key: &str) -> bool
    ensures { result ≡ optional is_descriptor key.now (view value.now) }
{
    match value.get(key) {
        Some(found) => is_descriptor(found),
        None => true,
    }
}

fn each_allows_descriptor(value: &Value, kinds: &[Kind]) -> bool
    ensures { result ≡ list_all (λ kind. optional is_descriptor (kind_name kind) (view value.now)) kinds.now }
{
    kinds
        .iter()
        .all(|kind| allows_descriptor(value, kind_name(*kind)))
}

#[tactic(auto, unfolding(crate::specs::Document::are_descriptors))]
fn are_descriptors(value: &Value) -> bool
    ensures { result ≡ are_descriptors (view value.now) }
{
    has_only(value, &KIND_NAMES) && each_allows_descriptor(value, &KINDS)
}

fn allows_descriptors(value: &Value, key: &str) -> bool
    ensures { result ≡ optional are_descriptors key.now (view value.now) }
{
    match value.get(key) {
        Some(found) => are_descriptors(found),
        None => true,
    }
}

fn each_allows_number(value: &Value, limits: &[Limit]) -> bool
    ensures { result ≡ list_all (λ limit. optional is_number (limit_key limit) (view value.now)) limits.now }
{
    limits
        .iter()
        .all(|limit| allows_number(value, limit_key(*limit)))
}

#[tactic(auto, unfolding(crate::specs::Document::are_limits))]
fn are_limits(value: &Value) -> bool
    ensures { result ≡ are_limits (view value.now) }
{
    has_only(value, &LIMIT_KEYS) && each_allows_number(value, &EACH_LIMIT)
}

fn allows_limits(value: &Value, key: &str) -> bool
    ensures { result ≡ optional are_limits key.now (view value.now) }
{
    match value.get(key) {
        Some(found) => are_limits(found),
        None => true,
    }
}

#[tactic(auto, unfolding(crate::specs::Document::is_hook))]
fn is_hook(value: &Value) -> bool
    ensures { result ≡ is_hook (view value.now) }
{
    has_only(value, &["program", "tries"])
        && allows_text(value, "program")
        && allows_number(value, "tries")
}

fn allows_hook(value: &Value, key: &str) -> bool
    ensures { result ≡ optional is_hook key.now (view value.now) }
{
    match value.get(key) {
        Some(found) => is_hook(found),
        None => true,
    }
}

/// Whether the document has only the keys that a configuration has, with their types, and those that it needs.
#[tactic(auto, unfolding(crate::specs::Document::is_document))]
pub fn is_document(value: &Value) -> bool
    ensures { result ≡ is_document (view value.now) }
{
    has_only(value, &TABLE_NAMES)
        && requires_domain(value, "domain")
        && requires_listeners(value, "listener")
        && allows_descriptors(value, "descriptor")
        && allows_limits(value, "limits")
        && allows_hook(value, "hook")
}
