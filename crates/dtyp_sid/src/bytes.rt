// Reading and writing the bytes of a SID.
ghost use Rattle.std.specs.Prelude.{◌≡◌, ◌+◌, ◌*◌, ◌^◌, ◌<◌, ◌≤◌, ◌++◌, length, take, drop, IfOk};
ghost use Rattle.dtyp_sid.specs.Sids.{bytes_of, sid_of_bytes, authority_at_front, BeginWithSid};

use crate::{BytesError, SID_MAX_SUB_AUTHORITIES, SID_REVISION, Sid};
use acct_base::rest_of;

impl Sid {
    /// The SID at the beginning of the bytes. It takes no memory.
    #[tactic(auto, unfolding(crate::specs::Sids::sid_of_bytes))]
    pub fn from_bytes(bytes: &[u8]) -> Result<Sid, BytesError>
        ensures value { result ≡ sid_of_bytes bytes.now }
        ensures spelled { IfOk result (λ sid. BeginWithSid bytes.now sid) }
    {
        if bytes.len() < 8 {
            return Err(BytesError::Short);
        }
        if bytes[0] != SID_REVISION {
            return Err(BytesError::Revision);
        }
        let count = usize::from(bytes[1]);
        if count > SID_MAX_SUB_AUTHORITIES {
            return Err(BytesError::Count);
        }
        if bytes.len() < 8 + 4 * count {
            return Err(BytesError::Short);
        }
        let authority = authority_at_front(rest_of(bytes, 2));
        Ok(Sid::from_front(authority, rest_of(bytes, 8), count))
    }

    /// Writes the bytes of the SID at the beginning and gives their number. The bytes after stay as they were.
    #[tactic(auto, unfolding(crate::specs::Sids::bytes_of, crate::specs::Sids::header_of))]
    pub fn to_bytes(&self, out: &mut [u8; 68]) -> usize
        ensures written { out.new ≡ bytes_of self.now ++ drop result out.old }
        ensures count { result ≡ 8 + 4 * length self.now.subs }
    {
        let subs = self.subs();
        let count = subs.len() as u8;
        let [_, _, a, b, c, d, e, f] = self.authority().to_be_bytes();
        put(out, 0, &[SID_REVISION, count, a, b, c, d, e, f]);
        let mut place = 8;
        for sub in subs {
            put(out, place, &sub.to_le_bytes());
            place += 4;
        }
        place
    }
}

/// Writes bytes from a place on.
fn put(out: &mut [u8; 68], place: usize, bytes: &[u8])
    requires { place + length bytes.now ≤ 68 }
    ensures { out.new ≡ take place out.old ++ bytes.now ++ drop (place + length bytes.now) out.old }
{
    out[place..place + bytes.len()].copy_from_slice(bytes);
}

/// The number of the six bytes at the beginning, the highest first.
#[tactic(auto, unfolding(crate::specs::Sids::authority_at_front))]
fn authority_at_front(bytes: &[u8]) -> u64
    requires { 6 ≤ length bytes.now }
    ensures value { result ≡ authority_at_front bytes.now }
    ensures below { result < 2 ^ 48 }
{
    u64::from_be_bytes([
        0, 0, bytes[0], bytes[1], bytes[2], bytes[3], bytes[4], bytes[5],
    ])
}
