//! Doors of the system: listeners by TCP and in files, and the connections that they give.
//!
//! It stands on `acct_links` for the traits of a link, a door and an entrance, on `acct_keeper` for the errors of what
//! is opened, on `host_lines` for what is said, and on `acct_codes` for the PDUs by which a link was closed. The layers
//! above use that a fault is answered only where the object's count of faults rose, that an entrance gives so many
//! doors for its listener, each of which gives so many links and is then closed, that a door fails only once its socket
//! is lost, and hands a link out again that was given back unused, and that a link notes its end, and why it was closed
//! where it hasn't ended. What a socket gives or takes is told by no clause.
//!
//! In rooms: `channels` says what a connection goes over, `sockets` what listens, `halls` what the doors of an entrance
//! share, `boards` which period they serve; `links`, `doors` and `entrances` have the real parts, `closings` says why a
//! link was closed, `binding` gives a socket its address, `troubles` says what went wrong and what to do about it.
#![tactic(auto)]

mod binding;
mod boards;
mod channels;
mod closings;
mod doors;
mod entrances;
mod halls;
mod links;
mod sockets;
mod troubles;

pub use boards::Board;
pub use channels::Channel;
pub use closings::{CloseCause, LastPdu};
pub use doors::HostDoor;
pub use entrances::HostEntrance;
pub use halls::{Hall, LIMITS, Limits};
pub use links::{HostLink, LinkTrouble};
pub use sockets::Socket;
pub use troubles::{Advice, DoorTrouble, ListenError};
