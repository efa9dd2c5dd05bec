// What a connection hears.
ghost use Rattle.std.specs.Prelude.{◌≡◌, ◌++◌, ◌+◌, ◌^◌, ◌<◌, ◌≤◌, [], length, drop, List, ℕ, OnOk, OnErr, IfOk, IsErr};
ghost use Rattle.std.specs.Prelude.{IsOk};
ghost use Rattle.rpc_session.specs.declared.hearing.Hearing.TheVariants.{Going, Ended, Lost};
ghost use Rattle.rpc_session.specs.declared.hearing.Next.TheVariants.{Ends};
ghost use Rattle.rpc_session.specs.Answers.{closing};
ghost use Rattle.rpc_session.specs.Sessions.{Heard, heard_next, joined, listed, hear, is_going, on, Begins, HasRoom};
ghost use Rattle.rpc_session.specs.Sessions.{IsStill, acts};
ghost use Rattle.rpc_pdu.specs.declared.pdus.Side.TheVariants.{Server};
ghost use Rattle.rpc_pdu.specs.Bodies.{Rest, front};
ghost use Rattle.rpc_session.specs.Acts.{IsSoFar};

use crate::answers::closing;
use crate::laws::streams_are_cut_anywhere;
use crate::sessions::{Act, Session, Step, take_pdu};
use acct_base::{Seq, extended, kept, rest_of};
use rpc_pdu::{NoMemory, ReadPdu, Side, front_is_stable, read_pdu};
use std::alloc::{AllocError, Global};
use std::marker::Model;
use std::mem;

/// What stands at the beginning of the bytes that are left.
#[derive(Drop)]
pub enum Next {
    /// No whole PDU, and no refusal.
    Waits(Session),
    /// A refusal.
    Ends(Act),
    /// A PDU of this size, which gives an act or none and leaves the session so.
    Goes {
        act: Option<Act>,
        session: Session,
        size: usize,
    },
}

/// What is left to hear of a connection.
#[derive(Debug, Drop)]
pub enum Hearing {
    /// The connection's number, the place of the first byte that isn't taken, the session after the PDUs so far, and
    /// the bytes that are no whole PDU yet.
    Going {
        conn: u32,
        place: u64,
        session: Session,
        rest: Seq<u8>,
    },
    /// A PDU was refused.
    Ended,
    /// Memory ran out.
    Lost,
}

/// The end after a refusal.
fn refused(alloc: Global, place: u64, cause: u8, ptype: u8, id: u32) -> Result<Next, NoMemory>
    ensures { IfOk result (λ last. last ≡ Ends (closing place cause ptype id)) }
{
    Ok(Next::Ends(closing(alloc, place, cause, ptype, id)?))
}

/// What stands at the beginning of the bytes that are left, the first of which has this place in the stream.
#[tactic(auto, unfolding(crate::specs::Sessions::heard_next))]
fn heard_next(
    alloc: Global,
    conn: u32,
    place: u64,
    session: Session,
    bytes: &[u8],
) -> Result<Next, NoMemory>
    requires { place + length bytes.now < 2 ^ 64 }
    ensures next { IfOk result (λ next. next ≡ heard_next conn place session bytes.now) }
    ensures frugal { front Server bytes.now ≡ Rest → IsOk result }
{
    let found = read_pdu(alloc, Side::Server, bytes);
    match found {
        ReadPdu::NoMemory => {
            drop(found);
            drop(session);
            Err(AllocError)
        }
        ReadPdu::More => {
            drop(found);
            Ok(Next::Waits(session))
        }
        ReadPdu::Refused {
            place: at,
            cause,
            ptype,
            id,
        } => {
            drop(found);
            drop(session);
            refused(alloc, place + at as u64, cause, ptype, id)
        }
        ReadPdu::Got {
            pdu,
            ptype,
            id,
            used: size,
        } => {
            let step = take_pdu(alloc, conn, session, pdu);
            match step {
                Ok(Step::Refuses(cause)) => {
                    drop(step);
                    refused(alloc, place, cause, ptype, id)
                }
                Ok(Step::Goes { act, session }) => Ok(Next::Goes { act, session, size }),
                Err(AllocError) => Err(AllocError),
            }
        }
    }
}

fn add(acts: &mut Vec<Act>, act: Option<Act>) -> Result<(), NoMemory>
    ensures ok { OnOk result (acts.new.items ≡ acts.old.items ++ listed act) }
    ensures err { OnErr result (acts.new.items ≡ acts.old.items) }
{
    match act {
        None => Ok(()),
        Some(act) => {
            acts.push(act)?;
            Ok(())
        }
    }
}

/// Hears bytes, the first of which has this place in the stream. The acts are added to those that were there.
fn hear(
    alloc: Global,
    conn: u32,
    place: u64,
    session: Session,
    bytes: Seq<u8>,
    acts: &mut Vec<Act>,
) -> Result<Hearing, NoMemory>
    requires { place + length bytes < 2 ^ 64 }
    ensures ok { IfOk result (λ leaves. record { acts = acts.new.items; leaves = leaves }
        ≡ joined acts.old.items (hear conn place session bytes)) }
    ensures err { OnErr result (Begins acts.old.items acts.new.items (hear conn place session bytes).acts) }
    ensures frugal { front Server bytes ≡ Rest → IsOk result }
{
    front_is_stable();
    let mut at = 0;
    let mut session = session;
    loop {
        let here = place + at as u64;
        match heard_next(alloc, conn, here, session, rest_of(bytes.as_slice(), at))? {
            Next::Waits(waiting) => {
                return match kept(alloc, bytes, at) {
                    Ok(rest) => Ok(Hearing::Going {
                        conn,
                        place: here,
                        session: waiting,
                        rest,
                    }),
                    Err(AllocError) => {
                        drop(waiting);
                        Err(AllocError)
                    }
                };
            }
            Next::Ends(act) => {
                drop(bytes);
                acts.push(act)?;
                return Ok(Hearing::Ended);
            }
            Next::Goes {
                act,
                session: after,
                size,
            } => {
                match add(acts, act) {
                    Ok(()) => {
                        session = after;
                        at += size;
                    }
                    Err(AllocError) => {
                        drop(after);
                        drop(bytes);
                        return Err(AllocError);
                    }
                }
            }
        }
    }
}

/// A connection's stream, which comes in pieces. A contract sees what is left to hear.
#[derive(Debug, Drop)]
pub struct Bytes2Acts {
    hearing: Hearing,
}

impl Model for Bytes2Acts {
    ghost use Rattle.rpc_session.specs.declared.hearing.Hearing.{Hearing};

    ghost Value = { Hearing };

    ghost view = { λ stream. stream.hearing };
}

impl Bytes2Acts {
    /// The stream of the connection with this number, of which nothing has come.
    pub fn new(alloc: Global, conn: u32) -> Bytes2Acts
        ensures { IsSoFar conn [] result [] }
    {
        Bytes2Acts {
            hearing: Hearing::Going {
                conn,
                place: 0,
                session: Session::Unbound,
                rest: Seq::new(alloc),
            },
        }
    }

    /// Whether more may be heard: no PDU was refused, and memory never ran out.
    pub fn is_going(&self) -> bool
        ensures { result ≡ is_going self.now }
    {
        match self.hearing {
            Hearing::Going { .. } => true,
            Hearing::Ended | Hearing::Lost => false,
        }
    }

    /// Adds the acts that a piece completes. The pieces have fewer than 2^64 bytes in all (see [`room_by_length`]).
    /// After a refusal nothing is added. Where memory ran out the acts that were added stay, and every later call
    /// answers it.
    pub fn feed(&mut self, alloc: Global, piece: &[u8], acts: &mut Vec<Act>) -> Result<(), NoMemory>
        requires { HasRoom self.old piece.now }
        // The acts of all pieces are those of the joined stream.
        ensures stream { (conn : ℕ) → (stream : List ℕ) → IsSoFar conn stream self.old acts.old.items
            → OnOk result (IsSoFar conn (stream ++ piece.now) self.new acts.new.items) }
        // The same of any one piece.
        ensures ok { OnOk result (record { acts = acts.new.items; leaves = self.new }
            ≡ joined acts.old.items (on self.old piece.now)) }
        // The first of the piece's acts may stand there; nothing more is heard.
        ensures err { OnErr result ((self.new ≡ Lost)
            × Begins acts.old.items acts.new.items (on self.old piece.now).acts) }
        ensures lost { self.old ≡ Lost → IsErr result }
        // A piece of no byte takes no memory.
        ensures frugal { (conn : ℕ) → (stream : List ℕ) → IsSoFar conn stream self.old acts.old.items
            → piece.now ≡ [] → IsOk result }
        // After a refusal a piece is taken, and nothing is added.
        ensures ended { self.old ≡ Ended → IsOk result × (self.new ≡ Ended) × (acts.new.items ≡ acts.old.items) }
    {
        front_is_stable();
        streams_are_cut_anywhere();
        fed(alloc, &mut self.hearing, piece, acts)
    }
}

/// Puts a value in the place of another.
fn set<T: Drop>(place: &mut T, value: T)
    ensures { place.new ≡ value }
{
    *place = value;
}

fn fed(
    alloc: Global,
    hearing: &mut Hearing,
    piece: &[u8],
    acts: &mut Vec<Act>,
) -> Result<(), NoMemory>
    requires { HasRoom hearing.old piece.now }
    ensures ok { OnOk result (record { acts = acts.new.items; leaves = hearing.new }
        ≡ joined acts.old.items (on hearing.old piece.now)) }
    ensures err { OnErr result ((hearing.new ≡ Lost)
        × Begins acts.old.items acts.new.items (on hearing.old piece.now).acts) }
    ensures lost { hearing.old ≡ Lost → IsErr result }
    ensures frugal { IsStill hearing.old → piece.now ≡ [] → IsOk result }
    ensures ended { hearing.old ≡ Ended → IsOk result × (hearing.new ≡ Ended) × (acts.new.items ≡ acts.old.items) }
{
    let found = mem::replace(hearing, Hearing::Lost);
    match found {
        Hearing::Lost => Err(AllocError),
        Hearing::Ended => {
            drop(found);
            set(hearing, Hearing::Ended);
            Ok(())
        }
        Hearing::Going {
            conn,
            place,
            session,
            rest,
        } => {
            match extended(rest, piece) {
                Ok(bytes) => {
                    let left = hear(alloc, conn, place, session, bytes, acts)?;
                    set(hearing, left);
                    Ok(())
                }
                Err(AllocError) => {
                    drop(session);
                    Err(AllocError)
                }
            }
        }
    }
}
