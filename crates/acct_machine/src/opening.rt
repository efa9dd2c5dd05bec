// What an opening of an object grants.
ghost use Rattle.std.specs.Prelude.{◌≡◌, Some, option_map};
ghost use Rattle.acct_config.specs.Spelled.{IsRightConfig};
ghost use Rattle.acct_machine.specs.Access.{described_in, listener_of, granted_to};

use crate::{Config, Conn, Listener, Object, Rows};
use dtyp_access::{Descriptor, opening};

/// The descriptor of an object: that of its row, where it has one, and else the one that is configured for its kind.
pub fn described<'a>(config: &'a Config, rows: &'a Rows, object: &Object) -> &'a Descriptor
    requires { IsRightConfig config.now }
    ensures { Some result.now ≡ described_in config.now rows.now.lists object.now }
{
    match rows.descriptor_of(object) {
        Some(descriptor) => descriptor,
        None => config.descriptor(object.kind()),
    }
}

/// The listener at which a connection was opened.
fn listener_of<'a>(config: &'a Config, conn: Option<Conn>) -> Option<&'a Listener>
    ensures { option_map (λ listener. listener.now) result ≡ listener_of config.now conn }
{
    config.listeners.as_slice().get(conn?.listener as usize)
}

/// What the opening of an object grants a connection that asks for the desired access: what the access check gives over
/// the descriptor of the object and the token of the connection's listener. It takes no memory.
pub fn granted(
    config: &Config,
    descriptor: &Descriptor,
    conn: Option<Conn>,
    object: Object,
    desired: u32,
) -> Option<u32>
    ensures { result ≡ granted_to config.now (Some descriptor.now) conn object desired }
{
    let listener = listener_of(config, conn)?;
    opening(object.kind(), descriptor, &listener.token, desired)
}
