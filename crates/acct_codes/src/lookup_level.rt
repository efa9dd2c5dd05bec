//! How far a name or a SID is looked up (LSAP_LOOKUP_LEVEL, MS-LSAT 2.2.16).
ghost use Rattle.std.specs.Prelude.{◌≡◌};
ghost use Rattle.acct_codes.specs.Accounts.{lsap_lookup_wksta, lsap_lookup_rodc_referral_to_full_dc};

/// The least level: at the machine itself.
pub const LSAP_LOOKUP_WKSTA: u16 = 1;
/// The greatest level, and all between the two are levels.
pub const LSAP_LOOKUP_RODC_REFERRAL_TO_FULL_DC: u16 = 7;

/// The first and the last level are those of the standard (MS-LSAT 2.2.16).
pub fn lookup_levels_are_the_standards()
    ensures first { LSAP_LOOKUP_WKSTA ≡ lsap_lookup_wksta }
    ensures last { LSAP_LOOKUP_RODC_REFERRAL_TO_FULL_DC ≡ lsap_lookup_rodc_referral_to_full_dc }
{}
