// The configuration that a parsed document spells.
ghost use Rattle.std.specs.Prelude.{◌≡◌, map, option_map, IfOk};
ghost use Rattle.std.specs.List.{filter_map};
ghost use Rattle.toml.specs.View.{view};
ghost use Rattle.acct_config.specs.Rules.{sid_of, descriptor_table};
ghost use Rattle.acct_config.specs.Spelled.{count_of, listener_of, ace_at, acl_of, descriptor_of, limit_of, limits_of};
ghost use Rattle.acct_config.specs.Spelled.{hook_of, config_of};

use crate::document::{elements, elements_of, text_of};
use crate::entries::ace_of_text;
use crate::kinds::KINDS;
use crate::limits::{Limit, range_of};
use crate::rules::{
    descriptor_table, domain_name, domain_sid, hook_table, limit_number, links, listener_address,
    listener_name, listeners, owner, program, sid_of, tries, workers,
};
use crate::values::administrators;
use crate::{Config, Hook, Limits, Listener, Text};
use acct_base::Seq;
use acct_calls::Name;
use acct_codes::Kind;
use dtyp_access::{Ace, Acl, Descriptor, Token};
use dtyp_sid::Sid;
use std::alloc::{AllocError, Global};
use toml::Value;

fn count_of(high: u64, number: i64) -> u64
    ensures { result ≡ count_of high number }
{
    match u64::try_from(number) {
        Ok(number) if number <= high => number,
        _ => 0,
    }
}

fn sids_of(alloc: Global, texts: &[Value]) -> Result<Vec<Sid>, AllocError>
    ensures { IfOk result (λ sids. sids.items ≡ filter_map sid_of (map view texts.now)) }
{
    let mut sids = Vec::new(alloc);
    for text in texts {
        if let Some(sid) = sid_of(text) {
            sids.push(sid)?;
        }
    }
    Ok(sids)
}

fn listener_of(alloc: Global, listener: &Value) -> Result<Listener, AllocError>
    ensures { IfOk result (λ made. made ≡ listener_of (view listener.now)) }
{
    Ok(Listener {
        name: Text::copy_of(alloc, listener_name(listener))?,
        address: Text::copy_of(alloc, listener_address(listener))?,
        token: Token::from_vec(sids_of(alloc, elements_of(listener.get("token")))?),
        workers: count_of(64, workers(listener)) as u32,
        links: count_of(4_294_967_295, links(listener)),
    })
}

fn listeners_of(alloc: Global, tables: &[Value]) -> Result<Seq<Listener>, AllocError>
    ensures { IfOk result (λ made. made ≡ map listener_of (map view tables.now)) }
{
    let mut made = Seq::new(alloc);
    for table in tables {
        made.push(listener_of(alloc, table)?)?;
    }
    Ok(made)
}

fn aces_of(alloc: Global, texts: &[Value]) -> Result<Vec<Ace>, AllocError>
    ensures { IfOk result (λ aces. aces.items ≡ filter_map ace_at (map view texts.now)) }
{
    let mut aces = Vec::new(alloc);
    for text in texts {
        if let Some(ace) = ace_of_text(text_of(Some(text))) {
            aces.push(ace)?;
        }
    }
    Ok(aces)
}

fn acl_of(alloc: Global, found: Option<&Value>) -> Result<Option<Acl>, AllocError>
    ensures { IfOk result (λ acl. acl ≡ option_map acl_of (option_map (λ v. view v.now) found.entry)) }
{
    match found {
        Some(aces) => Ok(Some(Acl::from_vec(aces_of(alloc, elements(aces))?))),
        None => Ok(None),
    }
}

fn descriptor_of(alloc: Global, document: &Value, kind: Kind) -> Result<Descriptor, AllocError>
    ensures { IfOk result (λ made. made ≡ descriptor_of (descriptor_table (view document.now) kind)) }
{
    match descriptor_table(document, kind) {
        Some(table) => Ok(Descriptor {
            owner: owner(table).unwrap_or(administrators()),
            group: None,
            acl: acl_of(alloc, table.get("aces"))?,
        }),
        None => Ok(Descriptor {
            owner: administrators(),
            group: None,
            acl: None,
        }),
    }
}

fn descriptors_of(
    alloc: Global,
    document: &Value,
    kinds: &[Kind],
) -> Result<Seq<Descriptor>, AllocError>
    ensures { IfOk result (λ made.
        made ≡ map (λ kind. descriptor_of (descriptor_table (view document.now) kind)) kinds.now) }
{
    let mut made = Seq::new(alloc);
    for kind in kinds {
        made.push(descriptor_of(alloc, document, *kind)?)?;
    }
    Ok(made)
}

fn limit_of(document: &Value, limit: Limit) -> u64
    ensures { result ≡ limit_of (view document.now) limit }
{
    count_of(range_of(limit).high, limit_number(document, limit))
}

fn limits_of(document: &Value) -> Limits
    ensures { result ≡ limits_of (view document.now) }
{
    Limits {
        max_calls: limit_of(document, Limit::Calls) as u32,
        max_bytes: limit_of(document, Limit::Bytes),
        max_conns: limit_of(document, Limit::Conns) as u32,
        max_read: limit_of(document, Limit::Read),
        max_periods: limit_of(document, Limit::Periods) as u32,
    }
}

fn hook_of(alloc: Global, found: Option<&Value>) -> Result<Option<Hook>, AllocError>
    ensures { IfOk result (λ made. made ≡ option_map hook_of (option_map (λ v. view v.now) found.entry)) }
{
    match found {
        Some(hook) => Ok(Some(Hook {
            program: Text::copy_of(alloc, program(hook))?,
            tries: count_of(100, tries(hook)) as u32,
        })),
        None => Ok(None),
    }
}

/// The configuration that a parsed document spells.
pub fn config_of(alloc: Global, document: &Value) -> Result<Config, AllocError>
    ensures { IfOk result (λ config. config ≡ config_of (view document.now)) }
{
    Ok(Config {
        name: Name::from_text(alloc, domain_name(document))?,
        sid: domain_sid(document).unwrap_or(administrators()),
        listeners: listeners_of(alloc, listeners(document))?,
        descriptors: descriptors_of(alloc, document, &KINDS)?,
        limits: limits_of(document),
        hook: hook_of(alloc, hook_table(document))?,
    })
}
