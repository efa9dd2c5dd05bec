// Which presentation contexts are accepted.
ghost use Rattle.std.specs.Prelude.{◌≡◌, ◌==◌, not, map, Some, None, IfOk, OnOk};
ghost use Rattle.std.specs.List.{filter};
ghost use Rattle.rpc_session.specs.Answers.{face_of, offers_ndr, judged, accepted, answered, outcome, rejected};
ghost use Rattle.rpc_session.specs.Answers.{replaced, with_element, with_elements, face_at};

use acct_base::Seq;
use acct_calls::Face;
use acct_codes::negotiation::{
    REASON_ABSTRACT_SYNTAX, REASON_NONE, REASON_TRANSFER_SYNTAXES, RESULT_ACCEPTANCE,
    RESULT_PROVIDER_REJECTION,
};
use rpc_pdu::{Element, NoMemory, Outcome, Syntax, is_same_syntax, lsarpc, ndr, samr};
use std::alloc::Global;
use uuid::Uuid;

/// A presentation context that was accepted: its id, and the interface that it stands for.
#[derive(Clone, Copy, Debug, PartialEq, Eq)]
pub struct Context {
    pub id: u16,
    pub face: Face,
}

#[tactic(auto, unfolding(crate::specs::Answers::face_of))]
fn face_of(subject: &Syntax) -> Option<Face>
    ensures { result ≡ face_of subject.now }
{
    if is_same_syntax(subject, &samr()) {
        return Some(Face::Samr);
    }
    if is_same_syntax(subject, &lsarpc()) {
        return Some(Face::Lsa);
    }
    None
}

#[tactic(auto, unfolding(crate::specs::Answers::offers_ndr))]
fn offers_ndr(transfers: &[Syntax]) -> bool
    ensures { result ≡ offers_ndr transfers.now }
{
    transfers
        .iter()
        .any(|transfer| is_same_syntax(transfer, &ndr()))
}

#[tactic(auto, unfolding(crate::specs::Answers::accepted))]
fn accepted(element: &Element) -> Option<Face>
    ensures { result ≡ accepted element.now }
{
    let offered = offers_ndr(element.transfers.as_slice());
    let face = face_of(&element.subject)?;
    if offered { Some(face) } else { None }
}

fn rejected(reason: u16) -> Outcome
    ensures { result ≡ rejected reason }
{
    Outcome {
        result: RESULT_PROVIDER_REJECTION,
        reason,
        syntax: Syntax {
            id: Uuid::from_bytes([0, 0, 0, 0, 0, 0, 0, 0, 0, 0, 0, 0, 0, 0, 0, 0]),
            version: 0,
        },
    }
}

#[tactic(auto, unfolding(crate::specs::Answers::outcome))]
fn outcome(element: &Element) -> Outcome
    ensures { result ≡ outcome element.now }
{
    let offered = offers_ndr(element.transfers.as_slice());
    match face_of(&element.subject) {
        None => rejected(REASON_ABSTRACT_SYNTAX),
        Some(_) => {
            if !offered {
                return rejected(REASON_TRANSFER_SYNTAXES);
            }
            Outcome {
                result: RESULT_ACCEPTANCE,
                reason: REASON_NONE,
                syntax: ndr(),
            }
        }
    }
}

/// What is answered to each element.
pub fn outcomes(alloc: Global, elements: &[Element]) -> Result<Seq<Outcome>, NoMemory>
    ensures { IfOk result (λ outcomes. outcomes ≡ map outcome elements.now) }
{
    let mut outcomes = Vec::new(alloc);
    for element in elements {
        outcomes.push(outcome(element))?;
    }
    Ok(Seq::from_vec(outcomes))
}

fn drop_context(contexts: &mut Vec<Context>, id: u16)
    ensures { contexts.new.items ≡ filter (λ c. not (c.id == id)) contexts.old.items }
{
    contexts.retain(|c| c.id != id);
}

fn add_element(contexts: &mut Vec<Context>, element: &Element) -> Result<(), NoMemory>
    ensures { OnOk result (contexts.new.items ≡ with_element contexts.old.items element.now) }
{
    match accepted(element) {
        None => {}
        Some(face) => {
            let id = element.context;
            drop_context(contexts, id);
            contexts.push(Context { id, face })?;
        }
    }
    Ok(())
}

fn add_elements(contexts: &mut Vec<Context>, elements: &[Element]) -> Result<(), NoMemory>
    ensures { OnOk result (contexts.new.items ≡ with_elements contexts.old.items elements.now) }
{
    for element in elements {
        add_element(contexts, element)?;
    }
    Ok(())
}

/// The accepted contexts, with those of the elements that are accepted.
pub fn with_elements(contexts: Seq<Context>, elements: &[Element]) -> Result<Seq<Context>, NoMemory>
    ensures { IfOk result (λ after. after ≡ with_elements contexts elements.now) }
{
    let mut contexts = contexts.into_vec();
    add_elements(&mut contexts, elements)?;
    Ok(Seq::from_vec(contexts))
}

/// The accepted context with an id.
pub fn face_at(id: u16, contexts: &[Context]) -> Option<Context>
    ensures { result ≡ face_at id contexts.now }
{
    for c in contexts {
        if c.id == id {
            return Some(*c);
        }
    }
    None
}
