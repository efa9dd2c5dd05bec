// A command of the client, from its words to its lines.
ghost use Rattle.std.specs.Prelude.{◌≡◌, ◌≤◌, IfSome, IfNone};
ghost use Rattle.acct_links.specs.Links.{IsNew};
ghost use Rattle.client_commands.specs.declared.command.Command.{Command};
ghost use Rattle.acct_client.specs.Talks.{called_with, IsSilent, IsUncalled, PrintsBy, TalksOver, IsBegun};

use crate::asker::Asker;
use crate::conversing::converse;
use crate::ends::TalkEnd;
use acct_keeper::{Sink, write_all};
use acct_links::{Caller, Failed, Link, TakeError};
use std::alloc::Global;

/// What a call leaves: its end, whether its lines were written, and its link, if the caller gave one.
#[derive(Drop)]
pub struct Called<L> {
    pub end: TalkEnd,
    pub printing: Result<(), Failed>,
    pub link: Option<L>,
}

fn print<T: Sink>(out: &mut T, end: TalkEnd, lines: &str) -> Result<(), Failed>
    ensures { PrintsBy end result lines.now (record { held = T.held out.old; faults = T.faults out.old })
        (record { held = T.held out.new; faults = T.faults out.new }) }
{
    match end {
        TalkEnd::NoMemory => Ok(()),
        _ => write_all(out, lines.as_bytes()),
    }
}

fn talk<L: Link, T: Sink>(alloc: Global, asker: Asker, link: L, out: &mut T) -> Called<L>
    requires begun { (command : Command) × IsBegun command asker }
    ensures talks { (command : Command) → IsBegun command asker → IfSome result.link (λ now.
        TalksOver command result.end result.printing (L.told link) (L.told now)
        (record { held = T.held out.old; faults = T.faults out.old })
        (record { held = T.held out.new; faults = T.faults out.new })) }
    ensures there { IfNone result.link ⊥ }
{
    let mut asker = asker;
    let mut link = link;
    let end = converse(alloc, &mut asker, &mut link);
    let printing = print(out, end, asker.lines());
    drop(asker);
    Called {
        end,
        printing,
        link: Some(link),
    }
}

/// Calls an address, makes the requests of a command there and prints the lines of the answers. What is sent, the lines
/// and the end are those of the command's dialogue over all that was read. The link is the caller's, which is asked for
/// one alone; where it gives none nothing is printed.
pub fn call<C: Caller, T: Sink>(
    alloc: Global,
    asker: Asker,
    address: &str,
    caller: &mut C,
    out: &mut T,
) -> Called<C::L>
    requires { (command : Command) × IsBegun command asker }
    ensures talks { (command : Command) → IsBegun command asker → IfSome result.link (λ now.
        (given : C.L) × IsNew (C.L.told given)
        × TalksOver command result.end result.printing (C.L.told given) (C.L.told now)
        (record { held = T.held out.old; faults = T.faults out.old })
        (record { held = T.held out.new; faults = T.faults out.new })) }
    ensures none { IfNone result.link (IsUncalled result.end (C.faults caller.old) (C.faults caller.new)
        × IsSilent result.printing (record { held = T.held out.old; faults = T.faults out.old })
        (record { held = T.held out.new; faults = T.faults out.new })) }
    ensures called { C.called caller.new ≡ called_with (C.called caller.old) address.now result.link }
    ensures later { C.faults caller.old ≤ C.faults caller.new }
{
    match caller.link(address) {
        Ok(link) => talk(alloc, asker, link, out),
        Err(error) => {
            drop(asker);
            Called {
                end: match error {
                    TakeError::Failed => TalkEnd::PeerFault,
                    TakeError::NoMemory => TalkEnd::NoMemory,
                },
                printing: Ok(()),
                link: None,
            }
        }
    }
}
