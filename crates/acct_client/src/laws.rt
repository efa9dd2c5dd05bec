// The laws of dialogues.
ghost use Rattle.acct_client.specs.Talks.{ComesToItsEnd, DialoguesAreOfAnswers};

use crate::dialogue::dialogues_are_cut_anywhere;
use rpc_pdu::{front_is_stable, whole_is_exactly_a_pdu};

/// A law: over a link whose calls don't fail, and whose peer's bytes bring all answers of a command within the limit,
/// its dialogue comes to the last answer, unless memory runs out.
pub fn dialogues_come_to_their_ends()
    ensures { ComesToItsEnd }
{
    dialogues_are_cut_anywhere();
}

/// A law: what is sent and printed in a dialogue, and how it ends, is made of the answers that the peer's PDUs bring,
/// and every stream has some.
pub fn dialogues_are_of_answers()
    ensures { DialoguesAreOfAnswers }
{
    front_is_stable();
    whole_is_exactly_a_pdu();
}
