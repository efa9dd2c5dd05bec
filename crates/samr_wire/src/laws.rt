//! The laws of stubs, which callers cite by these functions.
ghost use Rattle.acct_stubs.specs.Calls.{AreTheSpelledCalls, HasOneCall, IsReadAgain, IsReadWhereSpelled};
ghost use Rattle.acct_stubs.specs.Calls.{NoCallWantsMemory};
ghost use Rattle.acct_stubs.specs.Replies.{EachSpelledReplyHasShape, HasOneReply, IsReplyReadAgain};
ghost use Rattle.acct_stubs.specs.Replies.{IsReplyReadWhereSpelled, NoReplyWantsMemory};
ghost use Rattle.samr_wire.specs.Interface.{samr};

/// A call is read exactly where its stub is served and spells it, no stub spells two calls of one opnum, and the calls
/// that can be written are those that some served stub spells.
pub fn calls_are_spelled()
    ensures read { IsReadWhereSpelled samr }
    ensures one { HasOneCall samr }
    ensures all { AreTheSpelledCalls samr }
{}

/// What is written for a call is read again, whatever bytes follow.
pub fn calls_are_read_again()
    ensures { IsReadAgain samr }
{}

/// A reply is read exactly where its stub spells it, no stub spells two replies of one opnum, and the replies of an
/// operation's shape are those that some stub spells.
pub fn replies_are_spelled()
    ensures read { IsReplyReadWhereSpelled samr }
    ensures one { HasOneReply samr }
    ensures all { EachSpelledReplyHasShape samr }
{}

/// What is written for a reply is read again, whatever bytes follow.
pub fn replies_are_read_again()
    ensures { IsReplyReadAgain samr }
{}

/// No stub's reading runs out of memory by its definition: where a call answers `Memory`, a value had no room.
pub fn readings_want_no_memory()
    ensures calls { NoCallWantsMemory samr }
    ensures replies { NoReplyWantsMemory samr }
{}
