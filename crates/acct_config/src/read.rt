// How a configuration is read.
ghost use Rattle.std.specs.Prelude.{◌≡◌, None, All, IsSome, IfOk, IfErr};
ghost use Rattle.dtyp_access.specs.Parts.{HasFewAces, IsDescriptor};
ghost use Rattle.acct_config.specs.Document.{document, whole};
ghost use Rattle.acct_config.specs.Errors.{IfRule, IsFirst};
ghost use Rattle.acct_config.specs.Spelled.{IsRightConfig, config_of, IsConfigOf, IsSpelledBy};
ghost use Rattle.acct_config.specs.Rules.{kept, first_broken, first_broken_from};
ghost use Rattle.toml.specs.View.{view};

use crate::{Config, ConfigError, rules, spelled};
use dtyp_access::Descriptor;
use std::alloc::{AllocError, Global};
use toml::Value;

/// The document that bytes spell, if they spell one.
fn parse(alloc: Global, bytes: &[u8]) -> Result<Value, ConfigError>
    ensures found { IfOk result (λ value. (IsSome (document bytes.now)) × (view value ≡ whole bytes.now)) }
    ensures rule { IfErr result (λ error.
        IfRule error (λ number. (number ≡ 0) × (document bytes.now ≡ None))) }
{
    Ok(Value::Table(toml::table_from_slice(alloc, bytes)?))
}

/// Descriptors keep the limits of their parts, which their types say, where each list has at most 800 entries.
fn keep_limits(descriptors: &[Descriptor])
    requires { All (λ d. HasFewAces d.acl) descriptors.now }
    ensures { All IsDescriptor descriptors.now }
{
    for descriptor in descriptors {
        descriptor.keeps_limits();
    }
}

/// The configuration that a parsed document spells which breaks no rule.
fn right_config(alloc: Global, document: &Value) -> Result<Config, AllocError>
    requires { first_broken_from 1 (kept (view document.now)) ≡ None }
    ensures value { IfOk result (λ config. config ≡ config_of (view document.now)) }
    ensures right { IfOk result IsRightConfig }
{
    let config = spelled::config_of(alloc, document)?;
    keep_limits(config.descriptors.as_slice());
    Ok(config)
}

/// The configuration that a parsed document spells, or the first rule from 1 on that it breaks.
fn checked(alloc: Global, document: &Value) -> Result<Config, ConfigError>
    ensures spelled { IfOk result (IsConfigOf (view document.now)) }
    ensures right { IfOk result IsRightConfig }
    ensures rule { IfErr result (IsFirst (first_broken_from 1 (kept (view document.now)))) }
{
    match rules::first_broken(alloc, document)? {
        Some(rule) => Err(ConfigError::Rule(rule)),
        None => Ok(right_config(alloc, document)?),
    }
}

/// The configuration that a document spells, or the first rule that it breaks. Where memory runs out, nothing is said
/// of the bytes.
pub fn read_config(alloc: Global, bytes: &[u8]) -> Result<Config, ConfigError>
    ensures spelled { IfOk result (IsSpelledBy bytes.now) }
    ensures right { IfOk result IsRightConfig }
    ensures rule { IfErr result (IsFirst (first_broken bytes.now)) }
{
    let document = parse(alloc, bytes)?;
    checked(alloc, &document)
}
