// What names and SIDs that were looked for are used for, and how many of them are mapped.
ghost use Rattle.std.specs.Prelude.{◌≡◌};
ghost use Rattle.std.specs.List.{list_all, list_any};
ghost use Rattle.acct_rules.specs.Planned.{use_of_kind, is_mapped, mapped_status};

use acct_codes::Kind;
use acct_codes::sid_use::{SID_TYPE_ALIAS, SID_TYPE_GROUP, SID_TYPE_UNKNOWN, SID_TYPE_USER};
use acct_codes::status::{STATUS_NONE_MAPPED, STATUS_SOME_NOT_MAPPED, STATUS_SUCCESS};

/// What an account of a kind is used for (SID_NAME_USE, MS-SAMR 2.2.2.3). Only users, groups and aliases are accounts;
/// the other kinds are SidTypeUnknown.
pub fn use_of_kind(kind: Kind) -> u32
    ensures { result ≡ use_of_kind kind }
{
    match kind {
        Kind::User => SID_TYPE_USER,
        Kind::Group => SID_TYPE_GROUP,
        Kind::Alias => SID_TYPE_ALIAS,
        _ => SID_TYPE_UNKNOWN,
    }
}

fn are_mapped(uses: &[u32]) -> bool
    ensures { result ≡ list_all is_mapped uses.now }
{
    uses.iter().all(|usage| *usage != SID_TYPE_UNKNOWN)
}

fn some_are_mapped(uses: &[u32]) -> bool
    ensures { result ≡ list_any is_mapped uses.now }
{
    uses.iter().any(|usage| *usage != SID_TYPE_UNKNOWN)
}

/// The status of a look-up, by what each entry is used for (SID_NAME_USE): STATUS_SUCCESS where all are mapped,
/// STATUS_NONE_MAPPED where none of at least one is, else STATUS_SOME_NOT_MAPPED.
pub fn mapped_status(uses: &[u32]) -> u32
    ensures { result ≡ mapped_status uses.now }
{
    if are_mapped(uses) {
        STATUS_SUCCESS
    } else if some_are_mapped(uses) {
        STATUS_SOME_NOT_MAPPED
    } else {
        STATUS_NONE_MAPPED
    }
}
