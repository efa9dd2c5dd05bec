// Pairs by ascending key with the rows that are loaded of them, and the rules that a row breaks among them.
ghost use Rattle.std.specs.Prelude.{◌≡◌, ◌<◌, ◌≤◌, true, length, is_some, IfOk, MatchResult};
ghost use Rattle.std.specs.Option.{option_copied};
ghost use Rattle.acct_tables.specs.declared.row.Row.TheVariants as rows;
ghost use Rattle.acct_tables.specs.KeyedRows.{place, is_ascending};
ghost use Rattle.acct_rows.specs.Loading.{IsLoaded, LoadedRowsAreFound, is_smaller};
ghost use Rattle.acct_rows.specs.PairRules.{pair_key, pair_at, is_there, domain_in, account_in, is_missing};
ghost use Rattle.acct_rows.specs.PairRules.{is_past_next, has_taken_name};
ghost use Rattle.acct_rows.specs.PairRules.{lacks_group_or_user, lacks_primary, lacks_alias, lacks, is_old};
ghost use Rattle.acct_rows.specs.PairRules.{next_out_in, is_misnumbered, is_next_out, breaks_among};

use crate::rows::Rows;
use acct_base::is_same;
use acct_calls::NoMemory;
use acct_codes::Kind;
use acct_keeper::Pair;
use acct_tables::{
    ACCOUNT_DOMAIN, AccountRow, DomainRow, Object, OutRow, Row, RowKey, key_bytes, read_next_out,
};
use dtyp_sid::laws::{
    equal_sids_are_one, read_bytes_are_written, written_bytes_are_read, written_bytes_have_lengths,
};
use std::alloc::Global;
use std::marker::Model;

/// Pairs by ascending key, with the rows that are loaded of them. A contract sees the pairs.
#[derive(Drop)]
pub struct Store<'a> {
    pairs: &'a [Pair],
    rows: &'a Rows,
}

impl<'a> Model for Store<'a> {
    ghost use Rattle.std.specs.Prelude.{List};
    ghost use Rattle.acct_keeper.specs.declared.pairs.Pair.{Pair as Kept};
    ghost use Rattle.acct_rows.specs.Loading.{IsLoaded};

    ghost Value = { List Kept };

    ghost view = { λ store. store.pairs.now };

    ghost invariant = { λ store. IsLoaded store.pairs.now store.rows.now.lists };
}

// A law: what is looked up among pairs is found among the rows that are loaded of them.
fn loaded_rows_are_found()
    ensures { LoadedRowsAreFound }
{
    written_bytes_are_read();
    written_bytes_have_lengths();
    read_bytes_are_written();
    equal_sids_are_one();
}

// Where the key stands in pairs that ascend, or where it would go.
fn place(pairs: &[Pair], key: &[u8]) -> Result<usize, usize>
    requires { is_ascending pair_key pairs.now ≡ true }
    ensures found { result ≡ place pair_key key.now pairs.now }
    ensures within { MatchResult result (λ i. i < length pairs.now) (λ i. i ≤ length pairs.now) }
{
    pairs.binary_search_by(|pair| pair.key.as_slice().cmp(key))
}

// The pair with the key.
fn find<'a>(pairs: &'a [Pair], key: &[u8]) -> Option<&'a Pair>
    requires { is_ascending pair_key pairs.now ≡ true }
    ensures { option_copied result ≡ pair_at key.now pairs.now }
{
    match place(pairs, key) {
        Ok(i) => Some(&pairs[i]),
        Err(_) => None,
    }
}

/// The next out number of pairs that ascend: 1 where its pair isn't there, and none where that is misspelled.
pub fn next_out_in(pairs: &[Pair]) -> Option<u64>
    requires { is_ascending pair_key pairs.now ≡ true }
    ensures { result ≡ next_out_in pairs.now }
{
    match find(pairs, b"n") {
        Some(pair) => read_next_out(pair.value.as_slice()),
        None => Some(1),
    }
}

// Whether pairs that ascend are of format 1.
fn is_old(pairs: &[Pair]) -> bool
    requires { is_ascending pair_key pairs.now ≡ true }
    ensures { result ≡ is_old pairs.now }
{
    match find(pairs, b"f") {
        Some(pair) => is_same(&[1], pair.value.as_slice()),
        None => false,
    }
}

// Whether there is an account, and with a smaller RID.
fn is_smaller(found: Option<&AccountRow>, rid: u32) -> bool
    ensures { result ≡ is_smaller rid (option_copied found.entry) }
{
    match found {
        Some(account) => account.rid < rid,
        None => false,
    }
}

impl<'a> Store<'a> {
    pub fn new(pairs: &'a [Pair], rows: &'a Rows) -> Store<'a>
        requires { IsLoaded pairs.now rows.now.lists }
        ensures { result ≡ pairs.now }
    {
        Store { pairs, rows }
    }

    /// Whether there is a pair with the key.
    pub fn has(&self, key: &[u8]) -> bool
        ensures { result ≡ is_some (pair_at key.now self.now) }
    {
        find(self.pairs, key).is_some()
    }

    /// Whether the pair tells the next out number, which format 1 hadn't.
    pub fn is_next_out(&self, pair: &Pair) -> bool
        ensures { result ≡ is_next_out self.now pair.now }
    {
        is_same(pair.key.as_slice(), b"n")
            && read_next_out(pair.value.as_slice()).is_some()
            && !is_old(self.pairs)
    }

    // Whether there is a pair with the key of a row, exactly spelled or not.
    fn is_there(&self, alloc: Global, key: &RowKey) -> Result<bool, NoMemory>
        ensures { IfOk result (λ there. there ≡ is_there self.now key.now) }
    {
        let key = key_bytes(alloc, key)?;
        Ok(self.has(key.as_slice()))
    }

    // The account that is exactly spelled at its key.
    fn account(&self, domain: u8, rid: u32) -> Option<&AccountRow>
        ensures { option_copied result ≡ account_in self.now domain rid }
    {
        loaded_rows_are_found();
        self.rows.find_rid(domain, rid)
    }

    // The domain that is exactly spelled at its key.
    fn domain(&self, number: u8) -> Option<&DomainRow>
        ensures { option_copied result ≡ domain_in self.now number }
    {
        loaded_rows_are_found();
        self.rows.domain(number)
    }

    // Whether the account isn't there, or is exactly spelled and of another kind.
    fn is_missing(&self, alloc: Global, kind: Kind, domain: u8, rid: u32) -> Result<bool, NoMemory>
        ensures { IfOk result (λ missing. missing ≡ is_missing kind self.now domain rid) }
    {
        match self.account(domain, rid) {
            Some(account) => Ok(account.kind != kind),
            None => Ok(!self.is_there(alloc, &RowKey::Account { domain, rid })?),
        }
    }

    fn is_past_next(&self, account: &AccountRow) -> bool
        ensures { result ≡ is_past_next self.now (rows.Account account.now) }
    {
        match self.domain(account.domain) {
            Some(domain) => domain.next_rid <= account.rid,
            None => false,
        }
    }

    // Whether an account of the domain with a smaller RID has the name: the one that is found has the smallest.
    fn has_taken_name(&self, account: &AccountRow) -> bool
        ensures { result ≡ has_taken_name self.now (rows.Account account.now) }
    {
        loaded_rows_are_found();
        let found = self.rows.find_name(account.domain, &account.name);
        is_smaller(found, account.rid)
    }

    fn lacks_primary(&self, alloc: Global, account: &AccountRow) -> Result<bool, NoMemory>
        ensures { IfOk result (λ lacks. lacks ≡ lacks_primary self.now (rows.Account account.now)) }
    {
        if account.kind != Kind::User {
            return Ok(false);
        }
        if self.is_missing(alloc, Kind::Group, ACCOUNT_DOMAIN, account.primary)? {
            return Ok(true);
        }
        let key = RowKey::Member {
            group: account.primary,
            user: account.rid,
        };
        Ok(!self.is_there(alloc, &key)?)
    }

    // Whether a descriptor's object is missing.
    fn lacks(&self, alloc: Global, object: &Object) -> Result<bool, NoMemory>
        ensures { IfOk result (λ missing. missing ≡ lacks self.now object.now) }
    {
        match *object {
            Object::Domain(number) => Ok(!self.is_there(alloc, &RowKey::Domain(number))?),
            Object::Group(rid) => self.is_missing(alloc, Kind::Group, ACCOUNT_DOMAIN, rid),
            Object::Alias(domain, rid) => self.is_missing(alloc, Kind::Alias, domain, rid),
            Object::User(rid) => self.is_missing(alloc, Kind::User, ACCOUNT_DOMAIN, rid),
            Object::Account(sid) => Ok(!self.is_there(alloc, &RowKey::Lsa(sid))?),
            Object::Server | Object::Policy => Ok(false),
        }
    }

    // Whether a change's number is 0 or not below the next one, or the change after it is missing.
    fn is_misnumbered(&self, alloc: Global, row: &OutRow) -> Result<bool, NoMemory>
        ensures { IfOk result (λ wrong. wrong ≡ is_misnumbered self.now (rows.Out row.now)) }
    {
        if row.number == 0 {
            return Ok(true);
        }
        let Some(next) = next_out_in(self.pairs) else {
            return Ok(false);
        };
        if next <= row.number {
            return Ok(true);
        }
        let later = row.number + 1;
        Ok(later != next && !self.is_there(alloc, &RowKey::Out(later))?)
    }

    /// Whether a row breaks a rule among the pairs.
    pub fn breaks_among(&self, alloc: Global, row: &Row) -> Result<bool, NoMemory>
        ensures { IfOk result (λ broken. broken ≡ breaks_among self.now row.now) }
    {
        match row {
            Row::Account(account) => Ok(
                self.is_past_next(account)
                    || self.has_taken_name(account)
                    || self.lacks_primary(alloc, account)?,
            ),
            Row::Member(member) => Ok(
                self.is_missing(alloc, Kind::Group, ACCOUNT_DOMAIN, member.group)?
                    || self.is_missing(alloc, Kind::User, ACCOUNT_DOMAIN, member.user)?,
            ),
            Row::Alias(alias) => self.is_missing(alloc, Kind::Alias, alias.domain, alias.alias),
            Row::Desc(row) => Ok(self.lacks(alloc, &row.object)? || is_old(self.pairs)),
            Row::Out(row) => Ok(self.is_misnumbered(alloc, row)? || is_old(self.pairs)),
            Row::Domain(_) | Row::Lsa(_) => Ok(false),
        }
    }
}
