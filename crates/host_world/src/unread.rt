// Why a source of the real world wasn't read.
ghost use Rattle.std.specs.Prelude.{◌≡◌};
ghost use Rattle.host_world.specs.Host.{unread_of};

use std::io;

/// Why a source of the real world wasn't handed out or read: the standard input, or one with a file's name.
#[derive(Clone, Copy, Debug)]
pub enum Unread {
    Input(io::Error),
    Named(io::Error),
}

/// Why the source of a name wasn't read.
pub fn unread_of(name: &str, error: io::Error) -> Unread
    ensures { result ≡ unread_of name.now error }
{
    if name == "-" {
        Unread::Input(error)
    } else {
        Unread::Named(error)
    }
}
