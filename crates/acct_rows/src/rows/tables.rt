// The rows as they are loaded: tables alone, whose indexes are made at once when all rows are there. Stored rows come
// in the order of their keys' bytes, which isn't that of SIDs: rows with a SID in their key are sorted then, once.
ghost use Rattle.std.specs.Prelude.{◌≡◌, ◌+◌, ◌<◌, ◌≤◌, true, IfOk, OnOk};
ghost use Rattle.acct_calls.specs.Names.{is_domain_name, is_domain_sid};
ghost use Rattle.acct_rows.specs.Loading.{no_lists};
ghost use Rattle.acct_rows.specs.Rows.{place_row};
ghost use Rattle.acct_rows.specs.Seed.{seed_lists};

use super::Rows;
use crate::seed::{seed_accounts, seed_aliases, seed_domains, seed_members};
use acct_calls::{Name, NoMemory};
use acct_tables::{
    AccountRow, Accounts, AliasRow, Aliases, DescRow, DomainRow, LsaRow, MemberRow, Members,
    OutRow, Row, RowTable, Unsorted,
};
use dtyp_sid::Sid;
use std::alloc::Global;
use std::marker::Model;

/// The rows without indexes: a put after all others shifts nothing. A contract sees their lists by ascending key, and
/// for how many more rows there is room.
#[derive(Drop)]
pub struct Tables {
    domains: RowTable<DomainRow>,
    accounts: RowTable<AccountRow>,
    members: RowTable<MemberRow>,
    aliases: Unsorted<AliasRow>,
    lsa: Unsorted<LsaRow>,
    descriptors: Unsorted<DescRow>,
    outs: RowTable<OutRow>,
    next_out: u64,
    spare: usize,
}

impl Model for Tables {
    ghost use Rattle.std.specs.Prelude.{◌≤◌};
    ghost use Rattle.acct_rows.specs.Rows.{Shown};

    ghost Value = { Shown };

    ghost view = { λ tables. record {
      lists = record {
        domains = tables.domains.0;
        accounts = tables.accounts.0;
        members = tables.members.0;
        aliases = tables.aliases.0;
        lsa = tables.lsa.0;
        descriptors = tables.descriptors.0;
        outs = tables.outs.0;
        next_out = tables.next_out;
      };
      spare = tables.spare;
    } };

    ghost invariant = { λ tables. (tables.spare ≤ tables.domains.1)
        × (tables.spare ≤ tables.accounts.1)
        × (tables.spare ≤ tables.members.1)
        × (tables.spare ≤ tables.aliases.1)
        × (tables.spare ≤ tables.lsa.1)
        × (tables.spare ≤ tables.descriptors.1)
        × (tables.spare ≤ tables.outs.1) };
}

impl Tables {
    /// No rows, which take no memory, with a next out number.
    pub fn new(alloc: Global, next_out: u64) -> Tables
        ensures { result ≡ record { lists = no_lists next_out; spare = 0 } }
    {
        Tables {
            domains: RowTable::new(alloc),
            accounts: RowTable::new(alloc),
            members: RowTable::new(alloc),
            aliases: Unsorted::new(alloc),
            lsa: Unsorted::new(alloc),
            descriptors: Unsorted::new(alloc),
            outs: RowTable::new(alloc),
            next_out,
            spare: 0,
        }
    }

    /// The rows that a database without rows begins with, for an account domain of that name and SID.
    pub fn seed(alloc: Global, name: &Name, sid: Sid) -> Result<Tables, NoMemory>
        requires name { is_domain_name name.now ≡ true }
        requires sid { is_domain_sid sid ≡ true }
        ensures { IfOk result (λ tables. tables.lists ≡ seed_lists name.now sid) }
    {
        let members = seed_members(alloc)?;
        let aliases = seed_aliases(alloc, sid)?;
        let domains = seed_domains(alloc, name, sid)?;
        let accounts = seed_accounts(alloc)?;
        Ok(Tables {
            domains: RowTable::from_rows(domains),
            accounts: RowTable::from_rows(accounts),
            members: RowTable::from_rows(members),
            aliases: Unsorted::from_rows(aliases),
            lsa: Unsorted::new(alloc),
            descriptors: Unsorted::new(alloc),
            outs: RowTable::new(alloc),
            next_out: 1,
            spare: 0,
        })
    }

    /// Makes room for as many puts.
    pub fn reserve(&mut self, puts: usize) -> Result<(), NoMemory>
        ensures lists { self.new.lists ≡ self.old.lists }
        ensures ok { OnOk result (puts ≤ self.new.spare) }
    {
        if self.spare < puts {
            self.domains.reserve(puts)?;
            self.accounts.reserve(puts)?;
            self.members.reserve(puts)?;
            self.aliases.reserve(puts)?;
            self.lsa.reserve(puts)?;
            self.descriptors.reserve(puts)?;
            self.outs.reserve(puts)?;
            self.spare = puts;
        }
        Ok(())
    }

    /// Puts a row in its place; a row with its key goes, and the next out number stays. It takes no memory.
    pub fn put(&mut self, row: Row)
        requires { 0 < self.old.spare }
        ensures lists { self.new.lists ≡ place_row row self.old.lists }
        ensures spare { self.new.spare + 1 ≡ self.old.spare }
    {
        match row {
            Row::Domain(domain) => self.domains.put(domain),
            Row::Account(account) => self.accounts.put(account),
            Row::Member(member) => self.members.put(member),
            Row::Alias(alias) => self.aliases.put(alias),
            Row::Lsa(account) => self.lsa.put(account),
            Row::Desc(row) => self.descriptors.put(row),
            Row::Out(row) => self.outs.put(row),
        }
        self.spare -= 1;
    }

    /// The rows with their indexes. What isn't in its order is sorted once, and so is each index.
    pub fn into_rows(self, alloc: Global) -> Result<Rows, NoMemory>
        ensures { IfOk result (λ rows. rows.lists ≡ self.lists) }
    {
        let (lsa, descriptors) = sorted(alloc, self.lsa, self.descriptors)?;
        let (accounts, members, aliases) = match indexed(
            alloc,
            self.accounts,
            self.members,
            self.aliases,
        ) {
            Ok(indexed) => indexed,
            Err(error) => {
                drop(lsa);
                drop(descriptors);
                return Err(error);
            }
        };
        Ok(Rows {
            domains: self.domains,
            accounts,
            members,
            aliases,
            lsa,
            descriptors,
            outs: self.outs,
            next_out: self.next_out,
            spare: 0,
        })
    }
}

// The tables of rows that came in any order.
fn sorted(
    alloc: Global,
    lsa: Unsorted<LsaRow>,
    descriptors: Unsorted<DescRow>,
) -> Result<(RowTable<LsaRow>, RowTable<DescRow>), NoMemory>
    ensures lsa { IfOk result (λ tables. tables.0.0 ≡ lsa.0) }
    ensures descriptors { IfOk result (λ tables. tables.1.0 ≡ descriptors.0) }
{
    let lsa = match lsa.into_table(alloc) {
        Ok(lsa) => lsa,
        Err(error) => {
            drop(descriptors);
            return Err(error);
        }
    };
    match descriptors.into_table(alloc) {
        Ok(descriptors) => Ok((lsa, descriptors)),
        Err(error) => {
            drop(lsa);
            Err(error)
        }
    }
}

fn indexed_aliases(alloc: Global, aliases: Unsorted<AliasRow>) -> Result<Aliases, NoMemory>
    ensures { IfOk result (λ indexed. indexed.0 ≡ aliases.0) }
{
    let aliases = aliases.into_table(alloc)?;
    Aliases::from_rows(alloc, aliases.into_rows())
}

// The tables that have indexes, with those.
fn indexed(
    alloc: Global,
    accounts: RowTable<AccountRow>,
    members: RowTable<MemberRow>,
    aliases: Unsorted<AliasRow>,
) -> Result<(Accounts, Members, Aliases), NoMemory>
    ensures accounts { IfOk result (λ indexed. indexed.0.0 ≡ accounts.0) }
    ensures members { IfOk result (λ indexed. indexed.1.0 ≡ members.0) }
    ensures aliases { IfOk result (λ indexed. indexed.2.0 ≡ aliases.0) }
{
    let aliases = match indexed_aliases(alloc, aliases) {
        Ok(aliases) => aliases,
        Err(error) => {
            drop(accounts);
            drop(members);
            return Err(error);
        }
    };
    let members = match Members::from_rows(alloc, members.into_rows()) {
        Ok(members) => members,
        Err(error) => {
            drop(accounts);
            drop(aliases);
            return Err(error);
        }
    };
    match Accounts::from_rows(alloc, accounts.into_rows()) {
        Ok(accounts) => Ok((accounts, members, aliases)),
        Err(error) => {
            drop(members);
            drop(aliases);
            Err(error)
        }
    }
}
