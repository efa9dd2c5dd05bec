// A configuration, and its copies.
ghost use Rattle.std.specs.Prelude.{◌≡◌, Some, IfOk, slice_get};
ghost use Rattle.acct_config.specs.Kinds.{kind_place};
ghost use Rattle.acct_config.specs.Spelled.{IsRightConfig};

use crate::kinds::kind_place;
use crate::{Limits, Text};
use acct_base::Seq;
use acct_calls::Name;
use acct_codes::Kind;
use dtyp_access::{Descriptor, Token};
use dtyp_sid::Sid;
use std::alloc::{AllocError, Global};

/// What a server is configured with.
#[derive(Debug, Drop)]
pub struct Config {
    /// The name of the account domain.
    pub name: Name,
    /// The SID of the account domain.
    pub sid: Sid,
    /// Where clients connect. A connection names its listener by the place in this list, from 0.
    pub listeners: Seq<Listener>,
    /// The descriptors of objects, one for each kind in the order of `Kind`.
    pub descriptors: Seq<Descriptor>,
    pub limits: Limits,
    /// The program that is told of changes of accounts, if there is one.
    pub hook: Option<Hook>,
}

/// A program that is told of changes of accounts.
#[derive(Debug, Drop)]
pub struct Hook {
    pub program: Text,
    /// How often it is started at most for one change, 1 to 100.
    pub tries: u32,
}

impl Hook {
    /// An equal hook.
    pub fn copy(&self, alloc: Global) -> Result<Self, AllocError>
        ensures { IfOk result (λ copy. copy ≡ self.now) }
    {
        Ok(Hook {
            program: Text::copy_of(alloc, self.program.as_str())?,
            tries: self.tries,
        })
    }
}

/// A place where clients connect.
#[derive(Debug, Drop)]
pub struct Listener {
    /// The name, of lower-case letters and digits.
    pub name: Text,
    /// `tcp:HOST:PORT` or `unix:PATH`.
    pub address: Text,
    /// The SIDs that stand for whoever connects here.
    pub token: Token,
    /// How many connections are served side by side.
    pub workers: u32,
    /// How many connections each worker takes, 0 for without end.
    pub links: u64,
}

impl Listener {
    /// An equal listener.
    pub fn copy(&self, alloc: Global) -> Result<Self, AllocError>
        ensures { IfOk result (λ copy. copy ≡ self.now) }
    {
        Ok(Listener {
            name: Text::copy_of(alloc, self.name.as_str())?,
            address: Text::copy_of(alloc, self.address.as_str())?,
            token: self.token.copy(alloc)?,
            workers: self.workers,
            links: self.links,
        })
    }
}

fn copy_listeners(alloc: Global, listeners: &[Listener]) -> Result<Seq<Listener>, AllocError>
    ensures { IfOk result (λ copy. copy ≡ listeners.now) }
{
    let mut copy = Seq::new(alloc);
    for listener in listeners {
        copy.push(listener.copy(alloc)?)?;
    }
    Ok(copy)
}

fn copy_descriptors(
    alloc: Global,
    descriptors: &[Descriptor],
) -> Result<Seq<Descriptor>, AllocError>
    ensures { IfOk result (λ copy. copy ≡ descriptors.now) }
{
    let mut copy = Seq::new(alloc);
    for descriptor in descriptors {
        copy.push(descriptor.copy(alloc)?)?;
    }
    Ok(copy)
}

fn copy_hook(alloc: Global, hook: &Option<Hook>) -> Result<Option<Hook>, AllocError>
    ensures { IfOk result (λ copy. copy ≡ hook.now) }
{
    match hook {
        Some(hook) => Ok(Some(hook.copy(alloc)?)),
        None => Ok(None),
    }
}

impl Config {
    /// An equal configuration.
    pub fn copy(&self, alloc: Global) -> Result<Self, AllocError>
        ensures { IfOk result (λ copy. copy ≡ self.now) }
    {
        Ok(Config {
            name: self.name.copy(alloc)?,
            sid: self.sid,
            listeners: copy_listeners(alloc, self.listeners.as_slice())?,
            descriptors: copy_descriptors(alloc, self.descriptors.as_slice())?,
            limits: self.limits,
            hook: copy_hook(alloc, &self.hook)?,
        })
    }

    /// The descriptor of the objects of a kind.
    pub fn descriptor(&self, kind: Kind) -> &Descriptor
        requires { IsRightConfig self.now }
        ensures { slice_get self.now.descriptors (kind_place kind) ≡ Some result.now }
    {
        &self.descriptors.as_slice()[kind_place(kind)]
    }
}
