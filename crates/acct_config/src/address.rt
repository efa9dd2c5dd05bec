// The addresses of listeners.
ghost use Rattle.std.specs.Prelude.{◌≡◌};
ghost use Rattle.acct_config.specs.Values.{is_port, is_host_port, is_address};

use crate::words::parted;
use acct_base::decimal_of;

#[tactic(auto, unfolding(crate::specs::Values::is_port))]
fn is_port(text: &str) -> bool
    ensures { result ≡ is_port text.now }
{
    match decimal_of(5, text.as_bytes()) {
        Some(number) => 1 <= number && number <= 65_535,
        None => false,
    }
}

#[tactic(auto, unfolding(crate::specs::Values::is_host_port))]
fn is_host_port(text: &str) -> bool
    ensures { result ≡ is_host_port text.now }
{
    match parted(text, ':') {
        Some((host, port)) => !host.is_empty() && is_port(port),
        None => false,
    }
}

/// Whether a listener may have the address: `tcp:HOST:PORT`, the host without a colon and the port from 1 to 65535, or
/// `unix:PATH`. Neither host nor path is empty.
#[tactic(auto, unfolding(crate::specs::Values::is_address))]
pub fn is_address(text: &str) -> bool
    ensures { result ≡ is_address text.now }
{
    if let Some(rest) = text.strip_prefix("tcp:") {
        return is_host_port(rest);
    }
    text.starts_with("unix:") && 5 < text.len()
}
