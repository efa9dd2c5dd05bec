// The value of a SID.
ghost use Rattle.std.specs.Prelude.{◌≡◌, ◌+◌, ◌*◌, ◌<◌, ◌≤◌, ◌^◌, [], length, MatchOption, Some, None};
ghost use Rattle.dtyp_sid.specs.Sids.{IsSid, sid_max_sub_authorities};

use crate::errors::SidError;
use acct_base::{front_u32, rest_of};
use std::marker::Model;

/// The most sub-authorities of a SID (MS-DTYP 2.4.2).
pub const SID_MAX_SUB_AUTHORITIES: usize = 15;

/// The revision of a SID (MS-DTYP 2.4.2.2).
pub const SID_REVISION: u8 = 1;

/// A security identifier (MS-DTYP 2.4.2): an identifier authority below 2^48, and at most 15 sub-authorities. It
/// holds no heap memory. SIDs are ordered by authority, and then by their sub-authorities as lists.
#[derive(Clone, Copy, Debug)]
pub struct Sid {
    // below 2^48
    authority: u64,
    // at most SID_MAX_SUB_AUTHORITIES
    count: usize,
    // those after the count are 0
    slots: [u32; SID_MAX_SUB_AUTHORITIES],
}

impl Model for Sid {
    ghost use Rattle.std.specs.Prelude.{◌-◌, ◌≡◌, ◌++◌, ◌<◌, ◌≤◌, ◌^◌, length, replicate, take, drop};
    ghost use Rattle.std.proofs.Common.{ap};
    ghost use Rattle.dtyp_sid.specs.Sids.{SidValue};
    ghost use Rattle.dtyp_sid.specs.steps.Slots.{AreSlots, slots_of, length_taken, slots_of_taken};

    ghost Value = { SidValue };

    ghost view = { λ sid. record { authority = sid.authority; subs = take sid.count sid.slots } };

    ghost invariant = { λ sid. (sid.authority < 2 ^ 48) × AreSlots sid.count sid.slots };

    ghost inverse = { λ value.
        record { authority = value.authority; count = length value.subs; slots = slots_of value.subs } };

    ghost inverse_ok = { λ sid holds.
        Prim.rw (slots_of_taken sid.count sid.slots holds.1, length_taken sid.count sid.slots holds.1) };
}

impl Sid {
    ghost use Rattle.dtyp_sid.specs.Sids.{SidValue, IsSid, sid_of, with_last, authority_alone, subs_at_front};

    /// The SID of an authority and its sub-authorities.
    pub fn new(authority: u64, subs: &[u32]) -> Result<Sid, SidError>
        ensures { result ≡ sid_of authority subs.now }
    {
        if subs.len() > SID_MAX_SUB_AUTHORITIES {
            return Err(SidError::TooMany);
        }
        if authority >= 1 << 48 {
            return Err(SidError::AuthorityRange);
        }
        let mut slots = [0; SID_MAX_SUB_AUTHORITIES];
        slots[..subs.len()].copy_from_slice(subs);
        Ok(Sid {
            authority,
            count: subs.len(),
            slots,
        })
    }

    /// The SID of an authority, with no sub-authority.
    pub(crate) fn of_authority(authority: u64) -> Sid
        requires { authority < 2 ^ 48 }
        ensures { result ≡ authority_alone authority }
    {
        Sid {
            authority,
            count: 0,
            slots: [0; SID_MAX_SUB_AUTHORITIES],
        }
    }

    /// The SID of an authority, and of so many sub-authorities in four bytes each.
    pub(crate) fn from_front(authority: u64, bytes: &[u8], count: usize) -> Sid
        requires authority { authority < 2 ^ 48 }
        requires few { count ≤ sid_max_sub_authorities }
        requires there { 4 * count ≤ length bytes.now }
        ensures { result ≡ record { authority = authority; subs = subs_at_front count bytes.now } }
    {
        let mut slots = [0; SID_MAX_SUB_AUTHORITIES];
        for place in 0..count {
            slots[place] = front_u32(rest_of(bytes, 4 * place));
        }
        Sid {
            authority,
            count,
            slots,
        }
    }

    /// The identifier authority, below 2^48.
    pub fn authority(&self) -> u64
        ensures value { result ≡ self.now.authority }
        ensures below { result < 2 ^ 48 }
    {
        self.authority
    }

    /// The sub-authorities in order, at most 15.
    pub fn subs(&self) -> &[u32]
        ensures value { result.now ≡ self.now.subs }
        ensures count { length result.now ≤ sid_max_sub_authorities }
    {
        &self.slots[..self.count]
    }

    /// A law: each SID keeps the limits of its parts.
    pub fn keeps_limits(&self)
        ensures { IsSid self.now }
    {
        limits_of(self.authority(), self.subs());
    }

    /// The SID without its last sub-authority, and that one, which is the relative identifier. There is none where
    /// the SID has no sub-authority.
    pub fn split_rid(&self) -> Option<(Sid, u32)>
        ensures { MatchOption result (self.now.subs ≡ [])
            (λ parts. self.now ≡ with_last parts.0 parts.1) }
    {
        let last = self.count.checked_sub(1)?;
        let rid = self.slots[last];
        let mut slots = self.slots;
        slots[last] = 0;
        let domain = Sid {
            authority: self.authority,
            count: last,
            slots,
        };
        Some((domain, rid))
    }

    /// The SID with one more sub-authority at its end. There is none where the SID has 15.
    pub fn with_rid(&self, rid: u32) -> Option<Sid>
        ensures { MatchOption result (length self.now.subs ≡ sid_max_sub_authorities)
            (λ sid. (length self.now.subs < sid_max_sub_authorities) × (sid ≡ with_last self.now rid)) }
    {
        if self.count == SID_MAX_SUB_AUTHORITIES {
            return None;
        }
        let mut slots = self.slots;
        slots[self.count] = rid;
        Some(Sid {
            authority: self.authority,
            count: self.count + 1,
            slots,
        })
    }
}

/// An authority and sub-authorities within their limits are those of a SID.
fn limits_of(authority: u64, subs: &[u32])
    requires authority { authority < 2 ^ 48 }
    requires count { length subs.now ≤ sid_max_sub_authorities }
    ensures { IsSid (record { authority = authority; subs = subs.now }) }
{
    let _count = subs.len();
}
