// Both wires, and the shapes of fields, by one door: what reading a stub answers, and what is written for the value
// that was read.
ghost use Rattle.std.specs.Prelude.{◌≡◌, IsTrue, []};
ghost use Rattle.acct_layouts.specs.ReplyShapes.{RefersRightly, domains_of};

use super::shapes;
use super::words::tell;
use acct_calls::{Call, NoMemory, Outs, Reply};
use acct_layouts::is_refusal;
use samr_wire::WireError;
use std::alloc::Global;
use std::fmt::Debug;
use std::test::Fail;

/// What a stub is read as: one of the two directions of one of the two interfaces, or a shape alone.
#[derive(Clone, Copy)]
pub enum Wire {
    SamrCalls,
    SamrReplies,
    LsaCalls,
    LsaReplies,
    Text,
    Sid,
    SidList,
    NumberList,
    TextList,
    Privileges,
    Accounts,
    Descriptor,
    DescriptorPointer,
    Domains,
}

/// What reading a stub answers.
#[derive(Drop)]
pub enum Heard {
    /// A value: the number of its handle (0 for a reply), the value in words, and its stub.
    Value {
        handle: u128,
        words: String,
        written: Vec<u8>,
    },
    /// The place of the first field that has no reading; of a shape, of one that breaks a rule.
    Bad(usize),
    /// Of a shape, the place of the first field that isn't whole.
    Short(usize),
    /// Of a shape, the place where a value ends with bytes after it.
    EndsAt(usize),
    /// A value that is longer than the writers take.
    Long,
    NotServed(u16),
    Memory,
}

/// What reading a stub answers, of a value the length of its stub alone.
#[derive(Clone, Copy)]
pub enum Outcome {
    Value(usize),
    Bad(usize),
    Short(usize),
    NotServed(u16),
    Other,
}

fn outcome_of(heard: &Heard) -> Outcome {
    match heard {
        Heard::Value { written, .. } => Outcome::Value(written.len()),
        Heard::Bad(place) => Outcome::Bad(*place),
        Heard::Short(place) => Outcome::Short(*place),
        Heard::NotServed(opnum) => Outcome::NotServed(*opnum),
        _ => Outcome::Other,
    }
}

fn refused(error: WireError) -> Heard {
    match error {
        WireError::BadStub(place) => Heard::Bad(place),
        WireError::NotServed(opnum) => Heard::NotServed(opnum),
        WireError::Memory => Heard::Memory,
    }
}

/// A value in words, and its stub. What writing it answered is looked at here, where no value is held.
pub fn told<T: Debug>(
    alloc: Global,
    handle: u128,
    value: &T,
    written: Result<Vec<u8>, NoMemory>,
) -> Result<Heard, Fail> {
    let words = tell(alloc, value)?;
    Ok(Heard::Value {
        handle,
        words,
        written: written?,
    })
}

/// A call in words, as those of its copy, and its stub.
fn copy_told(
    alloc: Global,
    call: &Call,
    written: Result<Vec<u8>, NoMemory>,
) -> Result<Heard, Fail> {
    let copy = call.copy(alloc)?;
    let heard = told(alloc, copy.handle.number, &copy.args, written);
    drop(copy);
    heard
}

fn samr_call(alloc: Global, opnum: u16, stub: &[u8]) -> Result<Heard, Fail> {
    match samr_wire::read_call(alloc, opnum, stub) {
        Ok(call) => {
            let written = samr_wire::write_call(alloc, &call);
            let heard = copy_told(alloc, &call, written);
            drop(call);
            heard
        }
        Err(error) => Ok(refused(error)),
    }
}

fn samr_reply(alloc: Global, opnum: u16, stub: &[u8]) -> Result<Heard, Fail> {
    match samr_wire::read_reply(alloc, opnum, stub) {
        Ok(reply) => {
            let written = samr_wire::write_reply(alloc, opnum, &reply);
            let heard = told(alloc, 0, &reply, written);
            drop(reply);
            heard
        }
        Err(error) => Ok(refused(error)),
    }
}

fn lsa_call(alloc: Global, opnum: u16, stub: &[u8]) -> Result<Heard, Fail> {
    match lsa_wire::read_call(alloc, opnum, stub) {
        Ok(call) => {
            let written = lsa_wire::write_call(alloc, &call);
            let heard = copy_told(alloc, &call, written);
            drop(call);
            heard
        }
        Err(error) => Ok(refused(error)),
    }
}

/// Whether outputs refer to no domain.
fn refer_nowhere(outs: &Outs) -> bool
    ensures { IsTrue result → domains_of outs.now ≡ [] }
{
    match outs {
        Outs::Sids { domains, .. } => domains.as_slice().is_empty(),
        Outs::Names { domains, .. } => domains.as_slice().is_empty(),
        Outs::SidRefs { domains, .. } => domains.as_slice().is_empty(),
        _ => true,
    }
}

/// Whether the reply isn't a refusal that refers to a domain, which can be read and can't be written.
fn refers_rightly(reply: &Reply) -> bool
    ensures { IsTrue result → RefersRightly reply.now }
{
    match reply {
        Reply::Fault(_) => true,
        Reply::Done { status, outs } => !is_refusal(*status) || refer_nowhere(outs),
    }
}

/// Nothing is written of a refusal that refers to a domain.
fn lsa_reply(alloc: Global, opnum: u16, stub: &[u8]) -> Result<Heard, Fail> {
    match lsa_wire::read_reply(alloc, opnum, stub) {
        Ok(reply) => {
            let written = if refers_rightly(&reply) {
                lsa_wire::write_reply(alloc, opnum, &reply)
            } else {
                Ok(Vec::new(alloc))
            };
            let heard = told(alloc, 0, &reply, written);
            drop(reply);
            heard
        }
        Err(error) => Ok(refused(error)),
    }
}

impl Wire {
    /// What reading a stub answers, by the opnum, or for a list the most that it may have.
    pub fn heard(self, alloc: Global, opnum: u16, stub: &[u8]) -> Result<Heard, Fail> {
        match self {
            Wire::SamrCalls => samr_call(alloc, opnum, stub),
            Wire::SamrReplies => samr_reply(alloc, opnum, stub),
            Wire::LsaCalls => lsa_call(alloc, opnum, stub),
            Wire::LsaReplies => lsa_reply(alloc, opnum, stub),
            _ => self.shape(alloc, opnum, stub),
        }
    }

    fn shape(self, alloc: Global, most: u16, stub: &[u8]) -> Result<Heard, Fail> {
        match self {
            Wire::Text => shapes::text(alloc, stub),
            Wire::Sid => shapes::sid(alloc, stub),
            Wire::SidList => shapes::sids(alloc, most, stub),
            Wire::NumberList => shapes::rids(alloc, most, stub),
            Wire::TextList => shapes::texts(alloc, most, stub),
            Wire::Privileges => shapes::privileges(alloc, stub),
            Wire::Accounts => shapes::accounts(alloc, stub),
            Wire::Descriptor => shapes::descriptor(alloc, stub),
            Wire::DescriptorPointer => shapes::descriptor_pointer(alloc, stub),
            _ => shapes::domains(alloc, stub),
        }
    }

    /// The same without the value.
    pub fn outcome(self, alloc: Global, opnum: u16, stub: &[u8]) -> Result<Outcome, Fail> {
        let heard = self.heard(alloc, opnum, stub)?;
        let outcome = outcome_of(&heard);
        drop(heard);
        Ok(outcome)
    }

    /// Whether a stub of the operation begins with a handle that the tables leave out.
    pub fn has_handle(self, opnum: u16) -> bool {
        match self {
            Wire::SamrCalls => !matches!(opnum, 57 | 62 | 64),
            Wire::LsaCalls => opnum != 44,
            _ => false,
        }
    }
}
