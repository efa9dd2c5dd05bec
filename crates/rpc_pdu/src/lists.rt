// The lists in a binding PDU and its answer: context elements, transfer syntaxes, outcomes.
ghost use Rattle.std.specs.Prelude.{◌≡◌, length, nat_lt};
ghost use Rattle.acct_base.specs.Reading.{many, Reads, NeverMemory};
ghost use Rattle.rpc_pdu.specs.Headers.{syntax_at, element_at, outcome_at, syntax_of};
ghost use Rattle.rpc_pdu.specs.Bodies.{WantsOnlyIf};

use crate::numbers::{u16_at, u32_at};
use crate::pdus::{Element, Outcome};
use crate::syntaxes::Syntax;
use acct_base::{Fields, Seq, Unread};
use std::alloc::Global;
use uuid::Uuid;

#[tactic(auto, unfolding(crate::specs::Headers::syntax_at))]
fn read_syntax(fields: &mut Fields<'_>) -> Result<Syntax, Unread>
    ensures value { Reads result fields.new (syntax_at fields.old) }
    ensures frugal { NeverMemory result }
{
    let front = fields.take(20)?;
    Ok(syntax_of(front))
}

fn read_syntaxes(alloc: Global, fields: &mut Fields<'_>, count: u8) -> Result<Seq<Syntax>, Unread>
    ensures { Reads result fields.new (many syntax_at count fields.old) }
{
    let mut syntaxes = Seq::new(alloc);
    for _ in 0..count {
        let syntax = read_syntax(fields)?;
        syntaxes.push(syntax)?;
    }
    Ok(syntaxes)
}

#[tactic(auto, unfolding(crate::specs::Headers::element_at))]
fn read_element(alloc: Global, fields: &mut Fields<'_>) -> Result<Element, Unread>
    ensures { Reads result fields.new (element_at fields.old) }
{
    let head = fields.take(4)?;
    let subject = read_syntax(fields)?;
    let transfers = read_syntaxes(alloc, fields, head[2])?;
    Ok(Element {
        context: u16_at(head, 0),
        subject,
        transfers,
    })
}

/// So many context elements.
pub fn read_elements(
    alloc: Global,
    fields: &mut Fields<'_>,
    count: u8,
) -> Result<Seq<Element>, Unread>
    ensures value { Reads result fields.new (many element_at count fields.old) }
    ensures wants { WantsOnlyIf (nat_lt 0 count) result }
{
    let mut elements = Seq::new(alloc);
    for _ in 0..count {
        let element = read_element(alloc, fields)?;
        elements.push(element)?;
    }
    Ok(elements)
}

#[tactic(auto, unfolding(crate::specs::Headers::outcome_at))]
fn read_outcome(fields: &mut Fields<'_>) -> Result<Outcome, Unread>
    ensures value { Reads result fields.new (outcome_at fields.old) }
    ensures frugal { NeverMemory result }
{
    let head = fields.take(4)?;
    let syntax = read_syntax(fields)?;
    Ok(Outcome {
        result: u16_at(head, 0),
        reason: u16_at(head, 2),
        syntax,
    })
}

/// So many outcomes.
pub fn read_outcomes(
    alloc: Global,
    fields: &mut Fields<'_>,
    count: u8,
) -> Result<Seq<Outcome>, Unread>
    ensures value { Reads result fields.new (many outcome_at count fields.old) }
    ensures wants { WantsOnlyIf (nat_lt 0 count) result }
{
    let mut outcomes = Seq::new(alloc);
    for _ in 0..count {
        let outcome = read_outcome(fields)?;
        outcomes.push(outcome)?;
    }
    Ok(outcomes)
}

/// The syntax in 20 bytes.
#[tactic(auto, unfolding(crate::specs::Headers::syntax_of))]
fn syntax_of(bytes: &[u8]) -> Syntax
    requires { length bytes.now ≡ 20 }
    ensures { result ≡ syntax_of bytes.now }
{
    let mut id = [0; 16];
    id.copy_from_slice(&bytes[..16]);
    Syntax {
        id: Uuid::from_bytes_le(id),
        version: u32_at(bytes, 16),
    }
}
