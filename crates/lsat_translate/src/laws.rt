//! Laws of the operations, each the contract of a function that does nothing.
ghost use Rattle.lsat_translate.specs.Laws.{AreRight, KeepRows, EntriesReferRightly, SidsTranslateBack};
ghost use Rattle.lsat_translate.specs.Laws.{EntriesTranslateBack};

use acct_rows::laws::each_is_good;
use dtyp_sid::laws::equal_sids_are_one;

/// Each operation has a layout at its interface and opnum, answers refusals where a condition fails and the outputs of
/// its layout where none does, and takes memory only where its profile says so.
pub fn operations_are_right()
    ensures { AreRight }
{
    each_is_good();
}

/// Each operation keeps the rows sound and leaves the objects: it changes nothing.
pub fn operations_keep_rows()
    ensures { KeepRows }
{}

/// Of the domains that are referred to none stands twice, and each entry that is mapped has the index of its own.
pub fn entries_refer_rightly()
    ensures { EntriesReferRightly }
{}

/// What a name is translated to has a SID, which is translated to the same: to an account or a domain with the same
/// use, in the same domain. It is so in sound rows whose account domain has no well-known SID, nor one that an account
/// of BUILTIN may have.
pub fn sids_translate_back()
    ensures { SidsTranslateBack }
{
    each_is_good();
    equal_sids_are_one();
}

/// Each mapped entry of LsarLookupNames3 has a SID, which is translated to what has the same use and refers to the same
/// domain. It is so where the SIDs of names are translated back.
pub fn entries_translate_back()
    ensures { EntriesTranslateBack }
{
    sids_translate_back();
    entries_refer_rightly();
}
