// The lines of an event file.
ghost use Rattle.std.specs.Prelude.{◌≡◌, ◌∷◌, ◌+◌, ◌≤◌, ◌<◌, length};
ghost use Rattle.acct_server.specs.Events.{lines_of};

use acct_base::rest_of;

/// The first line without its end, and the bytes after its end.
pub fn next_line(bytes: &[u8]) -> (&[u8], &[u8])
    requires { 0 < length bytes.now }
    ensures lines { lines_of bytes.now ≡ result.0.now ∷ lines_of result.1.now }
    ensures shorter { length result.1.now < length bytes.now }
    ensures parts { length result.0.now + length result.1.now ≤ length bytes.now }
{
    let mut at = 0;
    while at < bytes.len() {
        if bytes[at] == b'\n' {
            if 0 < at && bytes[at - 1] == b'\r' {
                return (&bytes[..at - 1], rest_of(bytes, at + 1));
            }
            return (&bytes[..at], rest_of(bytes, at + 1));
        }
        at += 1;
    }
    (bytes, rest_of(bytes, bytes.len()))
}
