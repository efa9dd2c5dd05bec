//! Which calls there are and which shape a reply has: for each operation of the two interfaces (MS-SAMR, MS-LSAD,
//! MS-LSAT) the fields of its calls and the outputs of its replies, as plain data.
//!
//! It stands on the calls and replies of `acct_calls`, and on no codec: the stubs of these layouts are the wires'. In
//! specs/, `Table` has a line for each operation, `CallShapes` says which calls can be encoded, and `ReplyShapes` which
//! replies have an operation's shape. The layers above use that `layout_of` is the table, that `set_arm`, `shown_arm`,
//! `display_arm` and `is_password` say what an information class has, and that `refused_outs` has the outputs of a
//! refusal, which by a law have the shape of the operation.
#![tactic(auto)]

mod classes;
mod fields;
pub mod laws;
mod outputs;
mod refusals;
mod table;

pub use classes::{Arm, DisplayArm, Subject, display_arm, is_password, set_arm, shown_arm};
pub use fields::{
    Connect, Creation, Fields, PolicyFields, ScalarFields, Search, SecurityFields, Translation,
};
pub use outputs::{Listed, Outputs, PolicyOutputs, ScalarOutputs};
pub use refusals::{is_refusal, refused_outs};
pub use table::{Layout, layout_of};
