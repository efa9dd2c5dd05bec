// The members of groups, by key and by user.
ghost use Rattle.std.specs.Prelude.{◌≡◌, ◌+◌, ◌^◌, ◌<◌, ◌≤◌, true, [], ◌∷◌, ◌++◌, IfOk, OnOk, length, vec_len, map};
ghost use Rattle.std.specs.List.{filter};
ghost use Rattle.std.specs.Option.{option_copied};
ghost use Rattle.acct_tables.specs.KeyedRows.{at, put, without, is_ascending};
ghost use Rattle.acct_tables.specs.Selected.{is_member_of, key_of_member, is_in_group, is_of_user};
ghost use Rattle.acct_tables.specs.Keys.{member_key};
ghost use Rattle.acct_tables.specs.steps.Users.{user_key, by_user, row_of, users_of, is_for};

use crate::entries::{Entry, entries_of};
use crate::keyed::{ByKey, RowTable};
use crate::membership::members_among;
use crate::naming::{push_groups, push_members};
use crate::row::{ACCOUNT_DOMAIN, MemberRow, RowKey};
use crate::table::sort;
use acct_base::Seq;
use acct_calls::NoMemory;
use std::alloc::Global;
use std::marker::Model;

/// A member row among those of its user.
#[derive(Clone, Copy, Debug, PartialEq, Eq)]
pub struct ByUser {
    pub row: MemberRow,
}

fn users_of(alloc: Global, rows: &[MemberRow]) -> Result<RowTable<ByUser>, NoMemory>
    requires ascending { is_ascending member_key rows.now ≡ true }
    requires few { length rows.now < 2 ^ 32 }
    ensures { IfOk result (λ table. table.0 ≡ users_of rows.now) }
{
    let mut users: Vec<ByUser> = entries_of(alloc, rows)?;
    sort::<ByUser, ByKey>(&mut users);
    Ok(RowTable::from_rows(users))
}

impl Entry<MemberRow> for ByUser {
    ghost entry_of = { by_user };

    fn entry_of(row: &MemberRow) -> ByUser {
        ByUser { row: *row }
    }
}

// The groups of a user stand together: halving finds the first and the last of them.
fn groups_among(rows: &[ByUser], user: u32) -> &[ByUser]
    requires { is_ascending user_key rows.now ≡ true }
    ensures { result.now ≡ filter (is_for user) rows.now }
{
    let first = rows.partition_point(|row| row.row.user < user);
    let last = rows.partition_point(|row| row.row.user <= user);
    &rows[first..last]
}

/// Member rows by ascending key and by user, with room for more. A contract sees the list of the member rows, and for
/// how many more there is room.
#[derive(Drop)]
pub struct Members {
    rows: RowTable<MemberRow>,
    users: RowTable<ByUser>,
    spare: usize,
}

impl Model for Members {
    ghost use Rattle.std.specs.Prelude.{◌≡◌, ◌≤◌, ℕ, List};
    ghost use Rattle.acct_tables.specs.steps.Users.{users_of};
    ghost use Rattle.acct_tables.specs.declared.row.MemberRow.{MemberRow};

    ghost Value = { List MemberRow × ℕ };

    ghost view = { λ members. (members.rows.0, members.spare) };

    ghost invariant = { λ members. (members.users.0 ≡ users_of members.rows.0)
        × (members.spare ≤ members.rows.1)
        × (members.spare ≤ members.users.1) };
}

impl Members {
    /// No member, which takes no memory.
    pub fn new(alloc: Global) -> Members
        ensures { result ≡ ([], 0) }
    {
        Members {
            rows: RowTable::new(alloc),
            users: RowTable::new(alloc),
            spare: 0,
        }
    }

    /// The member rows that stand by ascending key.
    pub fn from_rows(alloc: Global, rows: Vec<MemberRow>) -> Result<Members, NoMemory>
        requires ascending { is_ascending member_key rows.items ≡ true }
        requires few { vec_len rows < 2 ^ 32 }
        ensures { IfOk result (λ members. members ≡ (rows.items, 0)) }
    {
        let users = users_of(alloc, &rows)?;
        Ok(Members {
            rows: RowTable::from_rows(rows),
            users,
            spare: 0,
        })
    }

    /// The same rows of its own.
    pub fn copy(&self, alloc: Global) -> Result<Members, NoMemory>
        ensures { IfOk result (λ copy. copy ≡ (self.now.0, 0)) }
    {
        Ok(Members {
            rows: RowTable::from_rows(self.rows.rows().to_vec(alloc)?),
            users: RowTable::from_rows(self.users.rows().to_vec(alloc)?),
            spare: 0,
        })
    }

    /// All member rows by ascending key.
    pub fn rows(&self) -> &[MemberRow]
        ensures all { result.now ≡ self.now.0 }
        ensures ascending { is_ascending member_key result.now ≡ true }
        ensures few { length result.now + self.now.1 < 2 ^ 32 }
    {
        self.rows.rows()
    }

    /// The member row with that key.
    pub fn find(&self, key: &(u32, u32)) -> Option<&MemberRow>
        ensures { option_copied result ≡ at member_key (key.now.0 ∷ key.now.1 ∷ []) self.now.0 }
    {
        self.rows.find(key)
    }

    /// The members of a group.
    pub fn members(&self, group: u32) -> &[MemberRow]
        ensures { result.now ≡ filter (is_in_group group) self.now.0 }
    {
        members_among(self.rows.rows(), group)
    }

    /// The groups of a user.
    pub fn groups(&self, user: u32) -> &[ByUser]
        ensures { map row_of result.now ≡ filter (is_of_user user) self.now.0 }
    {
        let _rows = self.rows.rows();
        groups_among(self.users.rows(), user)
    }

    /// Adds the keys of the member rows that have the account as a group or a user.
    pub fn push_keys(&self, keys: &mut Seq<RowKey>, domain: u8, rid: u32) -> Result<(), NoMemory>
        ensures { OnOk result
            (keys.new ≡ keys.old ++ map key_of_member (filter (is_member_of domain rid) self.now.0)) }
    {
        if domain != ACCOUNT_DOMAIN {
            return Ok(());
        }
        let _rows = self.rows.rows();
        let groups = self.groups(rid);
        push_groups(keys, groups, rid, false)?;
        push_members(keys, self.members(rid))?;
        push_groups(keys, groups, rid, true)?;
        Ok(())
    }

    /// Makes room for more rows.
    pub fn reserve(&mut self, more: usize) -> Result<(), NoMemory>
        ensures rows { self.new.0 ≡ self.old.0 }
        ensures ok { OnOk result (more ≤ self.new.1) }
        ensures kept { self.old.1 ≤ self.new.1 }
    {
        if self.spare < more {
            self.users.reserve(more)?;
            self.rows.reserve(more)?;
            self.spare = more;
        }
        Ok(())
    }

    /// Puts a member row in its place. A row with its key goes.
    pub fn put(&mut self, row: MemberRow)
        requires { 0 < self.old.1 }
        ensures rows { self.new.0 ≡ put member_key row self.old.0 }
        ensures spare { self.new.1 + 1 ≡ self.old.1 }
    {
        let _rows = self.rows.rows();
        self.users.put(ByUser { row });
        self.rows.put(row);
        self.spare -= 1;
    }

    /// Removes the member row with that key, if there is one.
    pub fn remove(&mut self, key: &(u32, u32))
        ensures rows { self.new.0 ≡ without member_key (key.now.0 ∷ key.now.1 ∷ []) self.old.0 }
        ensures spare { self.new.1 ≡ self.old.1 }
    {
        let _rows = self.rows.rows();
        self.users.remove(&(key.1, key.0));
        self.rows.remove(key);
    }
}
