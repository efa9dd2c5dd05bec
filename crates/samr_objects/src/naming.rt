// Which name and which RID an account may take, and which text it may have.
ghost use Rattle.std.specs.Prelude.{◌≡◌, Some};
ghost use Rattle.std.specs.Option.{option_copied};
ghost use Rattle.acct_rules.specs.Planned.{first_failed};
ghost use Rattle.samr_objects.specs.Accounts.{is_another, exists_as, name_conditions, gives_no_rid, is_too_long};

use acct_calls::Name;
use acct_codes::Kind;
use acct_codes::limit::MOST_TEXT;
use acct_codes::rid::MOST_RID;
use acct_codes::status::{
    STATUS_ALIAS_EXISTS, STATUS_GROUP_EXISTS, STATUS_INVALID_ACCOUNT_NAME, STATUS_USER_EXISTS,
};
use acct_rows::{AccountRow, DomainRow, Rows};
use acct_rules::units_in;

// The status that says of which kind the account is that has a name.
fn exists_as(kind: Kind) -> u32
    ensures { result ≡ exists_as kind }
{
    match kind {
        Kind::Group => STATUS_GROUP_EXISTS,
        Kind::Alias => STATUS_ALIAS_EXISTS,
        _ => STATUS_USER_EXISTS,
    }
}

// Whether an account that has a name is another than the one that would take it, which has that RID, or is new.
fn is_another(own: Option<u32>, account: &AccountRow) -> bool
    ensures { result ≡ is_another own (Some account.now) }
{
    own != Some(account.rid)
}

/// The status that refuses the name to an account of the kind, where one does: it isn't valid, or another account of
/// the domain has it. The account's own RID is given, or none where it is new. It takes no memory.
pub fn refused_name(
    rows: &Rows,
    kind: Kind,
    domain: u8,
    name: Option<&Name>,
    own: Option<u32>,
) -> Option<u32>
    ensures { result ≡ first_failed (name_conditions rows.now.lists kind domain (option_copied name.entry) own) }
{
    let Some(name) = name else {
        return Some(STATUS_INVALID_ACCOUNT_NAME);
    };
    if !name.is_valid(kind) {
        return Some(STATUS_INVALID_ACCOUNT_NAME);
    }
    match rows.find_name(domain, name) {
        Some(account) if is_another(own, account) => Some(exists_as(account.kind)),
        _ => None,
    }
}

/// Whether the domain gives out no more RIDs: its next one is at the limit. A domain that isn't there gives out none.
pub fn gives_no_rid(domain: Option<&DomainRow>) -> bool
    ensures { result ≡ gives_no_rid (option_copied domain.entry) }
{
    match domain {
        Some(domain) => domain.next_rid >= MOST_RID,
        None => true,
    }
}

/// Whether a full name, a comment or OEM information has more units than it may have.
pub fn is_too_long(text: Option<&Name>) -> bool
    ensures { result ≡ is_too_long (option_copied text.entry) }
{
    units_in(text) > MOST_TEXT
}
