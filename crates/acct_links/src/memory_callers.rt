// Callers in memory.
ghost use Rattle.std.specs.Prelude.{◌≡◌, ◌<◌, ◌≤◌, ◌||◌, ◌==◌, [], ◌∷◌, ◌++◌, All, length};
ghost use Rattle.std.specs.Prelude.{Some, IfOk, IfErr, OnOk, OnErr};
ghost use Rattle.acct_keeper.specs.Memory.{is_among};
ghost use Rattle.acct_links.specs.Links.{TakeCause, called_after, IsNew};
ghost use Rattle.acct_links.specs.declared.callers.TakeError.TheVariants.{NoMemory};
ghost use Rattle.acct_links.specs.Memory.{CallsInMemory, fresh, told_by_steady};

use crate::callers::{Caller, TakeError};
use crate::links::Link;
use crate::memory_links::SteadyLink;
use acct_base::Seq;
use acct_keeper::one_more;
use std::alloc::{AllocError, Global};
use std::collections::VecDeque;
use std::marker::Model;

// Adds an address at the end. Where memory ran out the list is as it was.
fn add_address(alloc: Global, called: &mut Vec<Seq<u8>>, address: &str) -> Result<(), AllocError>
    ensures ok { OnOk result (called.new.items ≡ called.old.items ++ address.now ∷ []) }
    ensures err { OnErr result (called.new.items ≡ called.old.items) }
{
    called.push(Seq::copy_of(alloc, address.as_bytes())?)?;
    Ok(())
}

// Whether a call fails: its number is one of those that fail, or no link is left.
fn must_fail<L>(failing: &[u64], call: u64, links: &VecDeque<L>) -> bool
    ensures { result ≡ (is_among failing.now call || length links.now.items == 0) }
{
    failing.contains(&call) || links.is_empty()
}

fn take_first<L>(links: &mut VecDeque<L>) -> L
    requires { 0 < length links.old.items }
    ensures { links.old.items ≡ result ∷ links.new.items }
{
    match links.pop_front() {
        Some(link) => link,
        None => unreachable!(),
    }
}

/// A caller in memory, which gives its links one after another, whatever the address. Its calls are numbered from 1,
/// and those of the given numbers fail; so does one that finds no link left.
#[derive(Drop)]
pub struct MemoryCaller<L: Link + Drop> {
    alloc: Global,
    links: VecDeque<L>,
    called: Vec<Seq<u8>>,
    failing: Vec<u64>,
    calls: u64,
    fault_count: u64,
}

impl<L: Link + Drop> Model for MemoryCaller<L> {
    ghost use Rattle.std.specs.Prelude.{All};
    ghost use Rattle.acct_links.specs.Memory.{CallerInMemory};
    ghost use Rattle.acct_links.specs.Links.{IsNew};

    ghost Value = { CallerInMemory L };

    ghost view = { λ caller. record {
      links = caller.links.items;
      called = caller.called.items;
      faults = caller.fault_count;
      calls = caller.calls;
      failing = caller.failing.items;
    } };

    ghost invariant = { λ caller. All (λ link. IsNew (L.told link)) caller.links.items };
}

impl<L: Link + Drop> MemoryCaller<L> {
    /// A caller that gives these links, of which nothing was read or written.
    pub fn new(alloc: Global, links: Vec<L>, failing: Vec<u64>) -> Self
        requires { All (λ link. IsNew (L.told link)) links.items }
        ensures { result ≡ record {
          links = links.items;
          called = [];
          faults = 0;
          calls = 0;
          failing = failing.items;
        } }
    {
        MemoryCaller {
            alloc,
            links: VecDeque::from_vec(links),
            called: Vec::new(alloc),
            failing,
            calls: 0,
            fault_count: 0,
        }
    }

    /// The addresses for which it gave a link, in order.
    pub fn addresses(&self) -> &[Seq<u8>]
        ensures { result.now ≡ self.now.called }
    {
        &self.called
    }
}

impl<L: Link + Drop> Caller for MemoryCaller<L> {
    type L = L;

    ghost called = { λ caller. Some caller.called };

    ghost faults = { λ caller. caller.faults };

    fn link(&mut self, address: &str) -> Result<L, TakeError>
        ensures new { IfOk result (λ link. IsNew (L.told link)) }
        ensures called { Some self.new.called ≡ called_after (Some self.old.called) address.now result }
        ensures cause { IfErr result (TakeCause self.old.faults self.new.faults) }
        ensures later { self.old.faults ≤ self.new.faults }
        ensures call { CallsInMemory self.old self.new result }
    {
        self.calls = one_more(self.calls);
        if must_fail(&self.failing, self.calls, &self.links) {
            self.fault_count = one_more(self.fault_count);
            return Err(TakeError::Failed);
        }
        add_address(self.alloc, &mut self.called, address)?;
        Ok(take_first(&mut self.links))
    }
}

/// A caller whose calls never fail: its count of faults is 0. Each of its links gives the same bytes.
#[derive(Drop)]
pub struct SteadyCaller {
    alloc: Global,
    bytes: Vec<u8>,
    most: usize,
    called: Vec<Seq<u8>>,
}

impl Model for SteadyCaller {
    ghost use Rattle.std.specs.Prelude.{◌<◌};
    ghost use Rattle.acct_links.specs.Memory.{SteadyCallerInMemory};

    ghost Value = { SteadyCallerInMemory };

    ghost view = { λ caller. record { bytes = caller.bytes.items; called = caller.called.items } };

    ghost invariant = { λ caller. 0 < caller.most };
}

impl SteadyCaller {
    /// A caller whose links give these bytes, at most so many a read.
    pub fn new(alloc: Global, bytes: Vec<u8>, most: usize) -> Self
        requires { 0 < most }
        ensures { result ≡ record { bytes = bytes.items; called = [] } }
    {
        SteadyCaller {
            alloc,
            bytes,
            most,
            called: Vec::new(alloc),
        }
    }
}

impl Caller for SteadyCaller {
    type L = SteadyLink;

    ghost called = { λ caller. Some caller.called };

    ghost faults = { λ _. 0 };

    fn link(&mut self, address: &str) -> Result<SteadyLink, TakeError>
        ensures new { IfOk result (λ link. IsNew (told_by_steady link)) }
        ensures link { IfOk result (λ link. link ≡ fresh self.old.bytes) }
        ensures bytes { self.new.bytes ≡ self.old.bytes }
        ensures called { Some self.new.called ≡ called_after (Some self.old.called) address.now result }
        ensures cause { IfErr result (λ e. e ≡ NoMemory) }
    {
        let bytes = self.bytes.clone()?;
        add_address(self.alloc, &mut self.called, address)?;
        Ok(SteadyLink::new(bytes, self.most))
    }
}
