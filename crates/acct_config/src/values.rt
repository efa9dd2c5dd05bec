// Which values a configuration may have.
ghost use Rattle.std.specs.Prelude.{◌≡◌};
ghost use Rattle.std.specs.List.{list_all};
ghost use Rattle.acct_config.specs.Values.{administrators, is_name_byte, is_listener_name};

use acct_codes::rid::{
    DOMAIN_ALIAS_RID_ADMINS, SECURITY_BUILTIN_DOMAIN_RID, SECURITY_NT_AUTHORITY,
};
use dtyp_sid::Sid;

/// The SID of the administrators.
pub fn administrators() -> Sid
    ensures { result ≡ administrators }
{
    let subs = [SECURITY_BUILTIN_DOMAIN_RID, DOMAIN_ALIAS_RID_ADMINS];
    match Sid::new(SECURITY_NT_AUTHORITY, &subs) {
        Ok(sid) => sid,
        Err(_) => unreachable!(),
    }
}

fn is_name_byte(byte: u8) -> bool
    ensures { result ≡ is_name_byte byte }
{
    byte.is_ascii_lowercase() || byte.is_ascii_digit()
}

fn are_name_bytes(bytes: &[u8]) -> bool
    ensures { result ≡ list_all is_name_byte bytes.now }
{
    bytes.iter().all(|byte| is_name_byte(*byte))
}

/// Whether a listener may have the name.
#[tactic(auto, unfolding(crate::specs::Values::is_listener_name))]
pub fn is_listener_name(text: &str) -> bool
    ensures { result ≡ is_listener_name text.now }
{
    1 <= text.len() && text.len() <= 32 && are_name_bytes(text.as_bytes())
}
