// Configurations of two listeners: the token of the second has one more SID, that of the users.
ghost use Rattle.std.specs.Prelude.{◌≡◌, IfOk, length};
ghost use Rattle.acct_config.specs.Spelled.{IsRightConfig};

use acct_machine::{Config, read_config};
use std::alloc::Global;
use std::process::Abort;
use std::test::Fail;

pub const PLAIN: &str = r#"[domain]
name = "CORP"
sid = "S-1-5-21-1-2-3"
[[listener]]
name = "a"
address = "tcp:127.0.0.1:4045"
token = ["S-1-1-0"]
[[listener]]
name = "b"
address = "unix:b"
token = ["S-1-1-0", "S-1-5-32-545"]
"#;

/// The token of the first listener has the administrators, who own what has no other owner.
pub const ADMINISTRATORS: &str = r#"[domain]
name = "CORP"
sid = "S-1-5-21-1-2-3"
[[listener]]
name = "a"
address = "tcp:127.0.0.1:4045"
token = ["S-1-5-21-1-2-3-500", "S-1-1-0", "S-1-5-32-544"]
[[listener]]
name = "b"
address = "unix:b"
token = ["S-1-1-0"]
"#;

/// The descriptor of the server, without its entries.
const SERVER: &str = "[descriptor.server]\nowner = \"S-1-5-18\"\naces = ";

/// Entries that deny the users to enumerate domains, and allow everyone everything.
pub const DENY_FIRST: &str = r#"["deny 0x00000010 0 S-1-5-32-545", "allow 0x000F003F 0 S-1-1-0"]"#;

/// The same entries exchanged.
pub const ALLOW_FIRST: &str = r#"["allow 0x000F003F 0 S-1-1-0", "deny 0x00000010 0 S-1-5-32-545"]"#;

fn has_two_listeners(rt: &impl Abort, config: &Config)
    ensures { length config.now.listeners ≡ 2 }
{
    assert_eq!(rt; config.listeners.as_slice().len(), 2);
}

/// The configuration of a document with two listeners.
pub fn configured(rt: &impl Abort, alloc: Global, document: &str) -> Result<Config, Fail>
    ensures right { IfOk result IsRightConfig }
    ensures listeners { IfOk result (λ config. length config.listeners ≡ 2) }
{
    let config = read_config(alloc, document.as_bytes())?;
    has_two_listeners(rt, &config);
    Ok(config)
}

/// The plain configuration, with these entries of the descriptor of the server or with none.
pub fn with_entries(rt: &impl Abort, alloc: Global, entries: &str) -> Result<Config, Fail>
    ensures right { IfOk result IsRightConfig }
    ensures listeners { IfOk result (λ config. length config.listeners ≡ 2) }
{
    if entries.is_empty() {
        return configured(rt, alloc, PLAIN);
    }
    let document = format!(in alloc; "{PLAIN}{SERVER}{entries}\n")?;
    configured(rt, alloc, document.as_str())
}
