// The laws of a connection's acts, for the crates above to cite. Each is brought in by a call, which does nothing.
ghost use Rattle.rpc_session.specs.Acts.{IsCutAnywhere, IsRoomByLength, AllFit, AreRefusalsLast, AreOfPdus, AreActs};
ghost use Rattle.rpc_session.specs.Answers.{RepliesBringStubs};

use rpc_pdu::{bytes_divide_once, front_is_stable, whole_is_exactly_a_pdu};

/// A stream may be cut anywhere.
pub fn streams_are_cut_anywhere()
    ensures { IsCutAnywhere }
{
    front_is_stable();
}

/// There is room for a piece where the pieces have fewer than 2^64 bytes in all.
pub fn room_by_length()
    ensures { IsRoomByLength }
{
    front_is_stable();
}

/// The sizes that replies to calls are cut by are 1,432 to 4,280, and the calls' stubs have at most 1,048,576 bytes.
pub fn calls_fit()
    ensures { AllFit }
{}

/// A refusal is the last act of a stream, and nothing after it is heard.
pub fn refusals_are_last()
    ensures { AreRefusalsLast }
{}

/// The acts of a stream are those of its PDUs one after the other, and then nothing or a refusal. Each stream is
/// divided into PDUs in one way (`bytes_divide_once` of `rpc_pdu`).
pub fn acts_are_of_pdus()
    ensures any { AreOfPdus }
    ensures each { AreActs }
{
    front_is_stable();
    whole_is_exactly_a_pdu();
    bytes_divide_once();
}

/// The responses of a reply bring its stub: each part but the last has as many bytes as fit, and there is none after
/// a stub's end.
pub fn replies_bring_stubs()
    ensures { RepliesBringStubs }
{}
