// The rows.
ghost use Rattle.std.specs.Prelude.{◌≡◌, ◌+◌, ◌<◌, ◌≤◌, true, [], ◌∷◌, ◌++◌, IfOk, OnOk, OnErr, length, map};
ghost use Rattle.std.specs.List.{filter};
ghost use Rattle.acct_calls.specs.Names.{is_domain_name, is_domain_sid};
ghost use Rattle.acct_rows.specs.Sound.{IsSoundRows};
ghost use Rattle.acct_rows.specs.Seed.{seed_lists};
ghost use Rattle.std.specs.Option.{option_copied};
ghost use Rattle.acct_tables.specs.KeyedRows.{is_ascending};
ghost use Rattle.acct_rows.specs.Rows.{members_of};
ghost use Rattle.acct_tables.specs.Selected.{is_member_of, is_alias_row_of, key_of_member, key_of_alias};
ghost use Rattle.acct_rows.specs.Rows.{aliases_of, HasRoom};
ghost use Rattle.acct_tables.specs.Keys.{domain_key, account_key, member_key, alias_key, lsa_key};
ghost use Rattle.acct_rows.specs.Rows.{domain_at, descriptor_of, TakeNumbers, groups_of};
ghost use Rattle.acct_tables.specs.Keys.{desc_key, out_key};
ghost use Rattle.acct_rows.specs.Rows.{alias_members_of, alias_row_at, desc_at, out_at, account_at, is_primary};
ghost use Rattle.acct_rows.specs.Rows.{member_at, lsa_at, find_name, put_row, remove_row, removed, with_puts, after};
ghost use Rattle.acct_rows.specs.Rows.{accounts_behind};
ghost use Rattle.acct_tables.specs.steps.Users.{row_of};

pub mod tables;

use crate::plan::Plan;
use crate::rows::tables::Tables;
use acct_base::Seq;
use acct_calls::{Name, NoMemory, Rids, Sids};
use acct_tables::{
    AccountRow, Accounts, AliasRow, Aliases, ByUser, DescRow, DomainRow, LsaRow, MemberRow,
    Members, Object, OutRow, Row, RowKey, RowTable,
};
use dtyp_access::Descriptor;
use dtyp_sid::Sid;
use std::alloc::Global;
use std::marker::Model;

/// The rows of the account database. A contract sees their lists by ascending key, and for how many more rows there
/// is room.
#[derive(Drop)]
pub struct Rows {
    domains: RowTable<DomainRow>,
    accounts: Accounts,
    members: Members,
    aliases: Aliases,
    lsa: RowTable<LsaRow>,
    descriptors: RowTable<DescRow>,
    outs: RowTable<OutRow>,
    next_out: u64,
    spare: usize,
}

impl Model for Rows {
    ghost use Rattle.std.specs.Prelude.{◌≤◌};
    ghost use Rattle.acct_rows.specs.Rows.{Shown};

    ghost Value = { Shown };

    ghost view = { λ rows. record {
      lists = record {
        domains = rows.domains.0;
        accounts = rows.accounts.0;
        members = rows.members.0;
        aliases = rows.aliases.0;
        lsa = rows.lsa.0;
        descriptors = rows.descriptors.0;
        outs = rows.outs.0;
        next_out = rows.next_out;
      };
      spare = rows.spare;
    } };

    ghost invariant = { λ rows. (rows.spare ≤ rows.domains.1)
        × (rows.spare ≤ rows.accounts.1)
        × (rows.spare ≤ rows.members.1)
        × (rows.spare ≤ rows.aliases.1)
        × (rows.spare ≤ rows.lsa.1)
        × (rows.spare ≤ rows.descriptors.1)
        × (rows.spare ≤ rows.outs.1) };
}

impl Rows {
    /// The rows that a database without rows begins with, for an account domain of that name and SID.
    pub fn seed(alloc: Global, name: &Name, sid: Sid) -> Result<Rows, NoMemory>
        requires name { is_domain_name name.now ≡ true }
        requires sid { is_domain_sid sid ≡ true }
        ensures lists { IfOk result (λ rows. rows.lists ≡ seed_lists name.now sid) }
        ensures sound { IfOk result (λ rows. IsSoundRows rows.lists) }
    {
        name.has_units();
        sid.keeps_limits();
        let tables = Tables::seed(alloc, name, sid)?;
        tables.into_rows(alloc)
    }

    /// Rows with equal lists of their own. It takes time as there are rows.
    pub fn copy(&self, alloc: Global) -> Result<Rows, NoMemory>
        ensures { IfOk result (λ copy. copy.lists ≡ self.now.lists) }
    {
        let (domains, lsa, descriptors, outs) = self.copy_plain(alloc)?;
        let (accounts, members, aliases) = match self.copy_indexed(alloc) {
            Ok(copies) => copies,
            Err(error) => {
                drop(domains);
                drop(lsa);
                drop(descriptors);
                drop(outs);
                return Err(error);
            }
        };
        Ok(Rows {
            domains,
            accounts,
            members,
            aliases,
            lsa,
            descriptors,
            outs,
            next_out: self.next_out,
            spare: 0,
        })
    }

    // Copies of the lists that have no index.
    fn copy_plain(
        &self,
        alloc: Global,
    ) -> Result<
        (
            RowTable<DomainRow>,
            RowTable<LsaRow>,
            RowTable<DescRow>,
            RowTable<OutRow>,
        ),
        NoMemory,
    >
        ensures domains { IfOk result (λ copies. copies.0.0 ≡ self.now.lists.domains) }
        ensures lsa { IfOk result (λ copies. copies.1.0 ≡ self.now.lists.lsa) }
        ensures descriptors { IfOk result (λ copies. copies.2.0 ≡ self.now.lists.descriptors) }
        ensures outs { IfOk result (λ copies. copies.3.0 ≡ self.now.lists.outs) }
    {
        let domains = self.domains.copy(alloc)?;
        let lsa = self.lsa.copy(alloc)?;
        let descriptors = self.descriptors.copy(alloc)?;
        let outs = self.outs.copy(alloc)?;
        Ok((domains, lsa, descriptors, outs))
    }

    // Copies of the lists that have indexes.
    fn copy_indexed(&self, alloc: Global) -> Result<(Accounts, Members, Aliases), NoMemory>
        ensures accounts { IfOk result (λ copies. copies.0.0 ≡ self.now.lists.accounts) }
        ensures members { IfOk result (λ copies. copies.1.0 ≡ self.now.lists.members) }
        ensures aliases { IfOk result (λ copies. copies.2.0 ≡ self.now.lists.aliases) }
    {
        let aliases = self.aliases.copy(alloc)?;
        let members = self.members.copy(alloc)?;
        let accounts = self.accounts.copy(alloc)?;
        Ok((accounts, members, aliases))
    }
}

impl Rows {
    /// The domains by ascending number.
    pub fn domains(&self) -> &[DomainRow]
        ensures all { result.now ≡ self.now.lists.domains }
        ensures ascending { is_ascending domain_key result.now ≡ true }
    {
        self.domains.rows()
    }

    /// The accounts by ascending domain and RID.
    pub fn accounts(&self) -> &[AccountRow]
        ensures all { result.now ≡ self.now.lists.accounts }
        ensures ascending { is_ascending account_key result.now ≡ true }
    {
        self.accounts.rows()
    }

    /// The members of groups by ascending group and user.
    pub fn member_rows(&self) -> &[MemberRow]
        ensures all { result.now ≡ self.now.lists.members }
        ensures ascending { is_ascending member_key result.now ≡ true }
    {
        self.members.rows()
    }

    /// The members of aliases by ascending domain, alias and SID.
    pub fn alias_rows(&self) -> &[AliasRow]
        ensures all { result.now ≡ self.now.lists.aliases }
        ensures ascending { is_ascending alias_key result.now ≡ true }
    {
        self.aliases.rows()
    }

    /// The accounts of the policy by ascending SID.
    pub fn lsa_rows(&self) -> &[LsaRow]
        ensures all { result.now ≡ self.now.lists.lsa }
        ensures ascending { is_ascending lsa_key result.now ≡ true }
    {
        self.lsa.rows()
    }

    /// The descriptors by ascending object.
    pub fn descriptor_rows(&self) -> &[DescRow]
        ensures all { result.now ≡ self.now.lists.descriptors }
        ensures ascending { is_ascending desc_key result.now ≡ true }
    {
        self.descriptors.rows()
    }

    /// The changes of accounts that wait to be told, by ascending number.
    pub fn out_rows(&self) -> &[OutRow]
        ensures all { result.now ≡ self.now.lists.outs }
        ensures ascending { is_ascending out_key result.now ≡ true }
    {
        self.outs.rows()
    }

    /// The number that the next change of an account takes.
    pub fn next_out(&self) -> u64
        ensures { result ≡ self.now.lists.next_out }
    {
        self.next_out
    }

    /// A law: with as many more rows as there is room for, each list has fewer than 2^32.
    pub fn has_few_rows(&self)
        ensures { HasRoom self.now.lists self.now.spare }
    {
        let _domains = self.domains.rows();
        let _accounts = self.accounts.rows();
        let _members = self.members.rows();
        let _aliases = self.aliases.rows();
        let _lsa = self.lsa.rows();
        let _descriptors = self.descriptors.rows();
        let _outs = self.outs.rows();
    }

    /// The domain with that number.
    pub fn domain(&self, number: u8) -> Option<&DomainRow>
        ensures { option_copied result ≡ domain_at self.now.lists number }
    {
        self.domains.find(&number)
    }

    /// The account of a domain with that RID.
    pub fn find_rid(&self, domain: u8, rid: u32) -> Option<&AccountRow>
        ensures { option_copied result ≡ account_at self.now.lists domain rid }
    {
        self.accounts.find(&(domain, rid))
    }

    /// The account of a domain with that name: names are one where they are so after simple case folding.
    pub fn find_name(&self, domain: u8, name: &Name) -> Option<&AccountRow>
        ensures { option_copied result ≡ find_name self.now.lists domain name.now }
    {
        self.accounts.find_name(domain, name)
    }

    /// Whether the group is some user's primary group.
    pub fn is_primary(&self, group: u32) -> bool
        ensures { result ≡ is_primary self.now.lists group }
    {
        self.accounts.is_primary(group)
    }

    /// The accounts of a domain after a RID, by ascending RID.
    pub fn accounts_behind(&self, domain: u8, rid: u32) -> &[AccountRow]
        ensures { result.now ≡ accounts_behind self.now.lists domain rid }
    {
        self.accounts.behind(domain, rid)
    }

    /// A user's row as a member of a group.
    pub fn member(&self, group: u32, user: u32) -> Option<&MemberRow>
        ensures { option_copied result ≡ member_at self.now.lists group user }
    {
        self.members.find(&(group, user))
    }

    /// The members of a group by ascending user, where they stand.
    pub fn group_members(&self, group: u32) -> &[MemberRow]
        ensures { result.now ≡ members_of self.now.lists group }
    {
        self.members.members(group)
    }

    /// The members of a group by ascending user.
    pub fn members(&self, alloc: Global, group: u32) -> Result<Vec<MemberRow>, NoMemory>
        ensures { IfOk result (λ members. members.items ≡ members_of self.now.lists group) }
    {
        Ok(self.group_members(group).to_vec(alloc)?)
    }

    /// The groups of a user by ascending group.
    pub fn user_groups(&self, user: u32) -> &[ByUser]
        ensures { map row_of result.now ≡ groups_of self.now.lists user }
    {
        self.members.groups(user)
    }

    /// A SID's row as a member of an alias of a domain.
    pub fn alias_row(&self, domain: u8, alias: u32, member: &Sid) -> Option<&AliasRow>
        ensures { option_copied result ≡ alias_row_at self.now.lists domain alias member.now }
    {
        self.aliases.find(&(domain, alias, *member))
    }

    /// The members of an alias by ascending SID.
    pub fn alias_members(&self, domain: u8, alias: u32) -> &[AliasRow]
        ensures { result.now ≡ alias_members_of self.now.lists domain alias }
    {
        self.aliases.members(domain, alias)
    }

    /// The RIDs of the aliases of a domain that have one of the SIDs as a member, ascending, each once.
    pub fn aliases_of(&self, alloc: Global, domain: u8, sids: &Sids) -> Result<Rids, NoMemory>
        ensures rids { IfOk result (λ rids. rids ≡ aliases_of self.now.lists domain sids.now) }
        ensures rising { IfOk result (λ rids. is_ascending (λ rid. rid ∷ []) rids ≡ true) }
    {
        self.aliases.aliases_of(alloc, domain, sids.as_slice())
    }

    /// The list and after it the keys of the member rows that have the account of a domain as a group or a user. It
    /// takes time as there are such rows.
    pub fn with_member_keys(
        &self,
        mut keys: Seq<RowKey>,
        domain: u8,
        rid: u32,
    ) -> Result<Seq<RowKey>, NoMemory>
        ensures { IfOk result (λ longer. longer
            ≡ keys ++ map key_of_member (filter (is_member_of domain rid) self.now.lists.members)) }
    {
        self.members.push_keys(&mut keys, domain, rid)?;
        Ok(keys)
    }

    /// The list and after it the keys of the alias rows that are of the account of a domain, or have its SID. It takes
    /// time as there are such rows.
    pub fn with_alias_keys(
        &self,
        mut keys: Seq<RowKey>,
        domain: u8,
        rid: u32,
        sid: &Sid,
    ) -> Result<Seq<RowKey>, NoMemory>
        ensures { IfOk result (λ longer. longer
            ≡ keys ++ map key_of_alias (filter (is_alias_row_of domain rid sid.now) self.now.lists.aliases)) }
    {
        self.aliases.push_keys(&mut keys, domain, rid, sid)?;
        Ok(keys)
    }

    /// The account of the policy with that SID.
    pub fn lsa_account(&self, sid: &Sid) -> Option<&LsaRow>
        ensures { option_copied result ≡ lsa_at self.now.lists sid.now }
    {
        self.lsa.find(sid)
    }

    /// The descriptor row of an object.
    pub fn descriptor_row(&self, object: &Object) -> Option<&DescRow>
        ensures { option_copied result ≡ desc_at self.now.lists object.now }
    {
        self.descriptors.find(object)
    }

    /// The security descriptor that was set for an object.
    pub fn descriptor_of(&self, object: &Object) -> Option<&Descriptor>
        ensures { option_copied result ≡ descriptor_of self.now.lists object.now }
    {
        match self.descriptor_row(object) {
            Some(row) => Some(&row.descriptor),
            None => None,
        }
    }

    /// The change of an account with that number.
    pub fn out_row(&self, number: u64) -> Option<&OutRow>
        ensures { option_copied result ≡ out_at self.now.lists number }
    {
        self.outs.find(&number)
    }
}

impl Rows {
    /// Makes room for as many puts. A list that would reach 2^32 rows is answered as out of memory; where there is room
    /// it takes none.
    pub fn reserve(&mut self, puts: usize) -> Result<(), NoMemory>
        ensures lists { self.new.lists ≡ self.old.lists }
        ensures ok { OnOk result (puts ≤ self.new.spare) }
        ensures kept { self.old.spare ≤ self.new.spare }
        ensures short { OnErr result (self.old.spare < puts) }
    {
        if self.spare < puts {
            self.domains.reserve(puts)?;
            self.accounts.reserve(puts)?;
            self.members.reserve(puts)?;
            self.aliases.reserve(puts)?;
            self.lsa.reserve(puts)?;
            self.descriptors.reserve(puts)?;
            self.outs.reserve(puts)?;
            self.spare = puts;
        }
        Ok(())
    }

    /// Puts a row in its place; a row with its key goes. A change of an account must have the next out number, below
    /// 2^63, which is one higher afterwards. It takes no memory.
    pub fn put(&mut self, row: Row)
        requires room { 0 < self.old.spare }
        requires number { TakeNumbers self.old.lists.next_out (row ∷ []) }
        ensures lists { self.new.lists ≡ put_row row self.old.lists }
        ensures spare { self.new.spare + 1 ≡ self.old.spare }
    {
        match row {
            Row::Domain(domain) => self.domains.put(domain),
            Row::Account(account) => self.accounts.put(account),
            Row::Member(member) => self.members.put(member),
            Row::Alias(alias) => self.aliases.put(alias),
            Row::Lsa(account) => self.lsa.put(account),
            Row::Desc(row) => self.descriptors.put(row),
            Row::Out(row) => {
                self.outs.put(row);
                self.next_out += 1;
            }
        }
        self.spare -= 1;
    }

    /// Removes the row with that key, if there is one. It takes no memory.
    pub fn remove(&mut self, key: &RowKey)
        ensures lists { self.new.lists ≡ remove_row key.now self.old.lists }
        ensures next { self.new.lists.next_out ≡ self.old.lists.next_out }
        ensures spare { self.new.spare ≡ self.old.spare }
    {
        match *key {
            RowKey::Domain(number) => self.domains.remove(&number),
            RowKey::Account { domain, rid } => self.accounts.remove(&(domain, rid)),
            RowKey::Member { group, user } => self.members.remove(&(group, user)),
            RowKey::Alias {
                domain,
                alias,
                member,
            } => self.aliases.remove(&(domain, alias, member)),
            RowKey::Lsa(sid) => self.lsa.remove(&sid),
            RowKey::Desc(object) => self.descriptors.remove(&object),
            RowKey::Out(number) => self.outs.remove(&number),
        }
    }

    /// Applies a plan: first its removes, then its puts, for which there must be room and of which changes of accounts
    /// take the next out numbers in order. It takes no memory.
    pub fn apply(&mut self, plan: Plan)
        requires room { length plan.puts ≤ self.old.spare }
        requires numbers { TakeNumbers self.old.lists.next_out plan.puts }
        ensures lists { self.new.lists ≡ after plan self.old.lists }
        ensures spare { self.new.spare + length plan.puts ≡ self.old.spare }
    {
        remove_all(self, plan.removes.as_slice());
        put_all(self, plan.puts.into_vec());
    }
}

fn remove_all(rows: &mut Rows, keys: &[RowKey])
    ensures lists { rows.new.lists ≡ removed keys.now rows.old.lists }
    ensures next { rows.new.lists.next_out ≡ rows.old.lists.next_out }
    ensures spare { rows.new.spare ≡ rows.old.spare }
{
    for key in keys {
        rows.remove(key);
    }
}

fn put_all(rows: &mut Rows, puts: Vec<Row>)
    requires room { length puts.items ≤ rows.old.spare }
    requires numbers { TakeNumbers rows.old.lists.next_out puts.items }
    ensures lists { rows.new.lists ≡ with_puts puts.items rows.old.lists }
    ensures spare { rows.new.spare + length puts.items ≡ rows.old.spare }
{
    for row in puts {
        rows.put(row);
    }
}
