// The operations that list the privileges and the accounts of the policy page by page.
ghost use Rattle.std.specs.Prelude.{◌≡◌, [], ◌∷◌, ◌++◌, IfOk, OnOk, if◌then◌else◌, map, drop, length};
ghost use Rattle.std.specs.List.{filter};
ghost use Rattle.acct_rules.specs.Pages.{entry_cost, given_in, leaves_some, preferred_room, has_room, room_behind};
ghost use Rattle.acct_rules.specs.Planned.{decision};
ghost use Rattle.lsad_rights.specs.Listings.{entry_of, is_behind, sid_of_row, sid_cost, given_status, list_privileges};
ghost use Rattle.lsad_rights.specs.Listings.{list_accounts};

use crate::privileges::KnownPrivilege;
use acct_base::Seq;
use acct_calls::{Args, Outs, RidName, Sids};
use acct_codes::limit::PAGE_ENTRY_COST;
use acct_codes::status::STATUS_NO_MORE_ENTRIES;
use acct_rows::{LsaRow, Object, Rows};
use acct_rules::{
    NamePage, NoMemory, PageRoom, Planned, answers, asked_context, asked_length, name_cost,
    page_status,
};
use dtyp_sid::Sid;
use dtyp_sid::laws::written_bytes_have_lengths;
use std::alloc::Global;

// The status of a page by how many entries it has, and whether some are left after it: one is given wherever one is
// left.
fn given_status(given: usize, more: bool) -> u32
    ensures { result ≡ given_status given more }
{
    if given == 0 {
        STATUS_NO_MORE_ENTRIES
    } else {
        page_status(more)
    }
}

// Gives one more privilege, where there is room for it.
fn give_privilege(
    alloc: Global,
    page: &mut NamePage,
    privilege: KnownPrivilege,
) -> Result<bool, NoMemory>
    ensures room { IfOk result (λ given. given ≡ has_room (entry_cost (entry_of privilege)) page.old.room) }
    ensures behind { IfOk result (λ given.
        page.new.room ≡ room_behind (entry_cost (entry_of privilege)) page.old.room) }
    ensures entries { IfOk result (λ given.
        page.new.entries ≡ page.old.entries ++ (if given then entry_of privilege ∷ [] else [])) }
{
    let name = privilege.name(alloc)?;
    if !page.room.take(name_cost(&name)) {
        drop(name);
        return Ok(false);
    }
    page.entries.push(RidName {
        rid: privilege.low(),
        name,
    })?;
    Ok(true)
}

// Gives the privileges after the context while there is room, and tells whether some are left after them.
fn give_privileges(
    alloc: Global,
    page: &mut NamePage,
    privileges: &[KnownPrivilege],
    context: u32,
) -> Result<bool, NoMemory>
    ensures given { OnOk result (
        let left = map entry_of (filter (is_behind context) privileges.now) in
        page.new.entries ≡ page.old.entries ++ given_in entry_cost page.old.room left) }
    ensures more { IfOk result (λ more.
        let left = map entry_of (filter (is_behind context) privileges.now) in
        more ≡ leaves_some (given_in entry_cost page.old.room left) left) }
{
    for privilege in privileges {
        if privilege.low() > context && !give_privilege(alloc, page, *privilege)? {
            return Ok(true);
        }
    }
    Ok(false)
}

/// LsarEnumeratePrivileges (MS-LSAD 3.1.4.8.1): the privileges after a LUID, as many as are preferred, but one at
/// least where one is left.
pub fn list_privileges(
    alloc: Global,
    rows: &Rows,
    policy: Object,
    args: &Args,
) -> Result<Planned, NoMemory>
    ensures { IfOk result (λ p. p ≡ decision (list_privileges rows.now.lists policy args.now)) }
{
    let before = asked_context(args);
    let mut page = NamePage::new(alloc, asked_length(args));
    let more = match give_privileges(alloc, &mut page, KnownPrivilege::all(), before) {
        Ok(more) => more,
        Err(full) => {
            drop(page);
            return Err(full);
        }
    };
    let status = given_status(page.entries.as_slice().len(), more);
    let context = page.last_rid(before);
    let page = Outs::PrivilegePage {
        context,
        entries: page.entries,
    };
    Ok(answers(alloc, status, page))
}

/// A page of accounts that is filled SID by SID.
#[derive(Drop)]
struct SidPage {
    sids: Sids,
    room: PageRoom,
}

// What an account costs of a page: the bytes of its SID, and some more.
fn sid_cost(sid: &Sid) -> usize
    ensures { result ≡ sid_cost sid.now }
{
    written_bytes_have_lengths();
    PAGE_ENTRY_COST as usize + 8 + 4 * sid.subs().len()
}

impl SidPage {
    // Gives one more SID, where there is room for it.
    fn give(&mut self, sid: Sid) -> Result<bool, NoMemory>
        ensures room { IfOk result (λ given. given ≡ has_room (sid_cost sid) self.old.room) }
        ensures behind { IfOk result (λ given. self.new.room ≡ room_behind (sid_cost sid) self.old.room) }
        ensures sids { IfOk result (λ given. self.new.sids ≡ self.old.sids ++ (if given then sid ∷ [] else [])) }
    {
        if !self.room.take(sid_cost(&sid)) {
            return Ok(false);
        }
        self.sids.push(sid)?;
        Ok(true)
    }
}

// Gives the accounts while there is room, and tells whether some are left after them.
fn give_accounts(page: &mut SidPage, accounts: &[LsaRow]) -> Result<bool, NoMemory>
    ensures given { OnOk result (
        let left = map sid_of_row accounts.now in
        page.new.sids ≡ page.old.sids ++ given_in sid_cost page.old.room left) }
    ensures more { IfOk result (λ more.
        let left = map sid_of_row accounts.now in
        more ≡ leaves_some (given_in sid_cost page.old.room left) left) }
{
    for account in accounts {
        if !page.give(account.sid)? {
            return Ok(true);
        }
    }
    Ok(false)
}

// The accounts after those that were given before.
fn accounts_left(rows: &Rows, context: u32) -> &[LsaRow]
    ensures { result.now ≡ drop context rows.now.lists.lsa }
{
    let accounts = rows.lsa_rows();
    accounts.get(context as usize..).unwrap_or(&[])
}

/// LsarEnumerateAccounts (MS-LSAD 3.1.4.5.2): the SIDs of the accounts that weren't given before, as many as are
/// preferred, but one at least where one is left.
pub fn list_accounts(
    alloc: Global,
    rows: &Rows,
    policy: Object,
    args: &Args,
) -> Result<Planned, NoMemory>
    ensures { IfOk result (λ p. p ≡ decision (list_accounts rows.now.lists policy args.now)) }
{
    rows.has_few_rows();
    let before = asked_context(args);
    let mut page = SidPage {
        sids: Seq::new(alloc),
        room: PageRoom::preferred(asked_length(args)),
    };
    let more = match give_accounts(&mut page, accounts_left(rows, before)) {
        Ok(more) => more,
        Err(full) => {
            drop(page);
            return Err(full);
        }
    };
    let given = page.sids.as_slice().len();
    let page = Outs::SidPage {
        context: before + given as u32,
        sids: page.sids,
    };
    Ok(answers(alloc, given_status(given, more), page))
}
