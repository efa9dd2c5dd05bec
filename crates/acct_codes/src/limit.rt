//! The limits of connections, of lists in calls and of rows: those of the standards, and this project's own.
ghost use Rattle.std.specs.Prelude.{◌≡◌};
ghost use Rattle.acct_codes.specs.Limits.{least_fragment, most_fragment, most_stub, most_contexts};
ghost use Rattle.acct_codes.specs.Limits.{most_domain_name, most_text, most_domain_subs, page_entry_cost, most_page};
ghost use Rattle.acct_codes.specs.Limits.{most_searched, most_member_sids, most_rights, most_privileges};
ghost use Rattle.acct_codes.specs.Limits.{most_translated_names, most_translated_sids, most_descriptor};

/// MUST_RECV_FRAG_SIZE: the size of fragment that every receiver takes (C706 12.6.3.1).
pub const LEAST_FRAGMENT: u16 = 1_432;
/// The largest fragment that is sent or offered.
pub const MOST_FRAGMENT: u16 = 4_280;
/// The most bytes of a gathered stub.
pub const MOST_STUB: usize = 1_048_576;
/// The most presentation contexts that a connection has accepted.
pub const MOST_CONTEXTS: usize = 16;
/// The most units of the account domain's name, those of a NetBIOS name.
pub const MOST_DOMAIN_NAME: usize = 15;
/// The most units of a full name, a comment and OEM information.
pub const MOST_TEXT: usize = 256;
/// The most sub-authorities of a domain's SID: an account's has one more.
pub const MOST_DOMAIN_SUBS: usize = 14;
/// What an entry of a page costs of the preferred length, besides the bytes of its name or SID.
pub const PAGE_ENTRY_COST: u32 = 12;
/// The most that a page costs, whatever length is preferred.
pub const MOST_PAGE: u32 = 65_536;
/// The most names or RIDs of one SAMR look-up (MS-SAMR 3.1.5.11.2, 3.1.5.11.3).
pub const MOST_SEARCHED: u32 = 1_000;
/// The most SIDs whose membership is asked for at once (MS-SAMR 2.2.7.19).
pub const MOST_MEMBER_SIDS: u32 = 1_024;
/// The most names of one set of rights (MS-LSAD 2.2.5.1).
pub const MOST_RIGHTS: u32 = 256;
/// The most privileges of one set (MS-LSAD 2.2.5.5).
pub const MOST_PRIVILEGES: u32 = 1_000;
/// The most names that are translated at once (MS-LSAT 3.1.4.8).
pub const MOST_TRANSLATED_NAMES: u32 = 1_000;
/// The most SIDs that are translated at once (MS-LSAT 2.2.17).
pub const MOST_TRANSLATED_SIDS: u32 = 20_480;
/// The most bytes of a security descriptor that is set (MS-SAMR 2.2.3.11, MS-LSAD 2.2.2.5).
pub const MOST_DESCRIPTOR: u32 = 262_144;

/// Each limit has its number.
pub fn limits_are_set()
    ensures least_fragment { LEAST_FRAGMENT ≡ least_fragment }
    ensures most_fragment { MOST_FRAGMENT ≡ most_fragment }
    ensures most_stub { MOST_STUB ≡ most_stub }
    ensures most_contexts { MOST_CONTEXTS ≡ most_contexts }
    ensures most_domain_name { MOST_DOMAIN_NAME ≡ most_domain_name }
    ensures most_text { MOST_TEXT ≡ most_text }
    ensures most_domain_subs { MOST_DOMAIN_SUBS ≡ most_domain_subs }
    ensures page_entry_cost { PAGE_ENTRY_COST ≡ page_entry_cost }
    ensures most_page { MOST_PAGE ≡ most_page }
    ensures most_searched { MOST_SEARCHED ≡ most_searched }
    ensures most_member_sids { MOST_MEMBER_SIDS ≡ most_member_sids }
    ensures most_rights { MOST_RIGHTS ≡ most_rights }
    ensures most_privileges { MOST_PRIVILEGES ≡ most_privileges }
    ensures most_translated_names { MOST_TRANSLATED_NAMES ≡ most_translated_names }
    ensures most_translated_sids { MOST_TRANSLATED_SIDS ≡ most_translated_sids }
    ensures most_descriptor { MOST_DESCRIPTOR ≡ most_descriptor }
{}
