// The members of aliases, by key and by SID.
ghost use Rattle.std.specs.Prelude.{◌≡◌, ◌+◌, ◌^◌, ◌<◌, ◌≤◌, true, [], ◌∷◌, ◌++◌, IfOk, OnOk, length, vec_len, map};
ghost use Rattle.std.specs.List.{filter};
ghost use Rattle.std.specs.Option.{option_copied};
ghost use Rattle.acct_tables.specs.KeyedRows.{at, put, without, is_ascending};
ghost use Rattle.acct_tables.specs.Selected.{is_alias_row_of, key_of_alias, is_in_alias, has_one};
ghost use Rattle.acct_tables.specs.Keys.{alias_key, sid_key};
ghost use Rattle.acct_tables.specs.Selected.{each_once};

use crate::entries::Entry;
use crate::keyed::RowTable;
use crate::membership::{Membership, aliases_among, memberships_of};
use crate::naming::{push_aliases, push_memberships};
use crate::ranges::{alias_members_among, memberships_among};
use crate::row::{AliasRow, RowKey};
use acct_base::Seq;
use acct_calls::{NoMemory, Rids};
use dtyp_sid::Sid;
use std::alloc::Global;
use std::marker::Model;

/// The members of aliases by ascending key, with their memberships, and with room for more. A contract sees the list
/// of the alias rows, and for how many more there is room.
#[derive(Drop)]
pub struct Aliases {
    rows: RowTable<AliasRow>,
    memberships: RowTable<Membership>,
    spare: usize,
}

impl Model for Aliases {
    ghost use Rattle.std.specs.Prelude.{◌≡◌, ◌≤◌, ℕ, List};
    ghost use Rattle.acct_tables.specs.steps.Indexes.{memberships_of};
    ghost use Rattle.acct_tables.specs.declared.row.AliasRow.{AliasRow};

    ghost Value = { List AliasRow × ℕ };

    ghost view = { λ aliases. (aliases.rows.0, aliases.spare) };

    ghost invariant = { λ aliases. (aliases.memberships.0 ≡ memberships_of aliases.rows.0)
        × (aliases.spare ≤ aliases.rows.1)
        × (aliases.spare ≤ aliases.memberships.1) };
}

impl Aliases {
    /// No member, which takes no memory.
    pub fn new(alloc: Global) -> Aliases
        ensures { result ≡ ([], 0) }
    {
        Aliases {
            rows: RowTable::new(alloc),
            memberships: RowTable::new(alloc),
            spare: 0,
        }
    }

    /// The alias rows that stand by ascending key.
    pub fn from_rows(alloc: Global, rows: Vec<AliasRow>) -> Result<Aliases, NoMemory>
        requires ascending { is_ascending alias_key rows.items ≡ true }
        requires few { vec_len rows < 2 ^ 32 }
        ensures { IfOk result (λ aliases. aliases ≡ (rows.items, 0)) }
    {
        let memberships = memberships_of(alloc, &rows)?;
        Ok(Aliases {
            rows: RowTable::from_rows(rows),
            memberships,
            spare: 0,
        })
    }

    /// The same rows of its own.
    pub fn copy(&self, alloc: Global) -> Result<Aliases, NoMemory>
        ensures { IfOk result (λ copy. copy ≡ (self.now.0, 0)) }
    {
        Ok(Aliases {
            rows: RowTable::from_rows(self.rows.rows().to_vec(alloc)?),
            memberships: RowTable::from_rows(self.memberships.rows().to_vec(alloc)?),
            spare: 0,
        })
    }

    /// All alias rows by ascending key.
    pub fn rows(&self) -> &[AliasRow]
        ensures all { result.now ≡ self.now.0 }
        ensures ascending { is_ascending alias_key result.now ≡ true }
        ensures few { length result.now + self.now.1 < 2 ^ 32 }
    {
        self.rows.rows()
    }

    /// The alias row with that key.
    pub fn find(&self, key: &(u8, u32, Sid)) -> Option<&AliasRow>
        ensures { option_copied result ≡ at alias_key (key.now.0 ∷ key.now.1 ∷ sid_key key.now.2) self.now.0 }
    {
        self.rows.find(key)
    }

    /// The members of an alias.
    pub fn members(&self, domain: u8, alias: u32) -> &[AliasRow]
        ensures { result.now ≡ filter (is_in_alias domain alias) self.now.0 }
    {
        alias_members_among(self.rows.rows(), domain, alias)
    }

    /// The RIDs of the aliases of a domain that have one of the SIDs as a member, ascending, each once.
    pub fn aliases_of(&self, alloc: Global, domain: u8, sids: &[Sid]) -> Result<Rids, NoMemory>
        ensures rids { IfOk result (λ rids.
            rids ≡ each_once (map (λ row. row.alias) (filter (has_one domain sids.now) self.now.0))) }
        ensures rising { IfOk result (λ rids. is_ascending (λ rid. rid ∷ []) rids ≡ true) }
    {
        let _rows = self.rows.rows();
        aliases_among(alloc, self.memberships.rows(), domain, sids)
    }

    /// Adds the keys of the alias rows that are of the account, or have its SID.
    pub fn push_keys(
        &self,
        keys: &mut Seq<RowKey>,
        domain: u8,
        rid: u32,
        sid: &Sid,
    ) -> Result<(), NoMemory>
        ensures { OnOk result
            (keys.new ≡ keys.old ++ map key_of_alias (filter (is_alias_row_of domain rid sid.now) self.now.0)) }
    {
        let _rows = self.rows.rows();
        let held = memberships_among(self.memberships.rows(), sid);
        push_memberships(keys, held, domain, rid, false)?;
        push_aliases(keys, self.members(domain, rid))?;
        push_memberships(keys, held, domain, rid, true)?;
        Ok(())
    }

    /// Makes room for more rows.
    pub fn reserve(&mut self, more: usize) -> Result<(), NoMemory>
        ensures rows { self.new.0 ≡ self.old.0 }
        ensures ok { OnOk result (more ≤ self.new.1) }
        ensures kept { self.old.1 ≤ self.new.1 }
    {
        if self.spare < more {
            self.memberships.reserve(more)?;
            self.rows.reserve(more)?;
            self.spare = more;
        }
        Ok(())
    }

    /// Puts an alias row in its place. A row with its key goes.
    pub fn put(&mut self, row: AliasRow)
        requires { 0 < self.old.1 }
        ensures rows { self.new.0 ≡ put alias_key row self.old.0 }
        ensures spare { self.new.1 + 1 ≡ self.old.1 }
    {
        let _rows = self.rows.rows();
        self.memberships.put(Membership::entry_of(&row));
        self.rows.put(row);
        self.spare -= 1;
    }

    /// Removes the alias row with that key, if there is one.
    pub fn remove(&mut self, key: &(u8, u32, Sid))
        ensures rows { self.new.0 ≡ without alias_key (key.now.0 ∷ key.now.1 ∷ sid_key key.now.2) self.old.0 }
        ensures spare { self.new.1 ≡ self.old.1 }
    {
        let _rows = self.rows.rows();
        self.memberships.remove(&(key.2, key.0, key.1));
        self.rows.remove(key);
    }
}
