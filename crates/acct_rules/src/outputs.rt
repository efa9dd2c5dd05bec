// The outputs of what was opened.
ghost use Rattle.std.specs.Prelude.{◌≡◌};
ghost use Rattle.acct_rules.specs.Planned.{filled, shown_grant};

use acct_calls::{Handle, Outs};
use acct_layouts::{Outputs, ScalarOutputs};

// The grant, where the layout has one.
fn shown_grant(outputs: Outputs, granted: u32) -> u32
    ensures { result ≡ shown_grant outputs granted }
{
    match outputs {
        Outputs::Scalar(ScalarOutputs::Granted) => granted,
        _ => 0,
    }
}

/// Fills the outputs of an opening: the handle that was opened in place of the zero handle, and its grant where the
/// layout has one.
pub fn fill(outs: &mut Outs, outputs: Outputs, handle: Handle, granted: u32)
    ensures { outs.new ≡ filled outputs handle granted outs.old }
{
    let shown = shown_grant(outputs, granted);
    match outs {
        Outs::Handle(given) => *given = handle,
        Outs::Created {
            handle: given,
            granted: grant,
            ..
        } => {
            *given = handle;
            *grant = shown;
        }
        _ => {}
    }
}
