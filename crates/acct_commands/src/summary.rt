// The summary of a history and of rows.
ghost use Rattle.std.specs.Prelude.{◌≡◌, ◌++◌, codes, length, IfOk, OnOk};
ghost use Rattle.acct_codes.specs.declared.kind.Kind.TheVariants.{Alias, User};
ghost use Rattle.acct_tables.specs.Keys.{account_domain};
ghost use Rattle.acct_rows.specs.Rows.{alias_members_of};
ghost use Rattle.acct_tables.specs.Selected.{is_in_alias};
ghost use Rattle.acct_machine.specs.Legal.{call_count};
ghost use Rattle.acct_commands.specs.Generating.{count_line, is_call, kind_count, member_count, next_rid, summary};

use crate::NoMemory;
use acct_calls::Name;
use acct_codes::Kind;
use acct_machine::Entry;
use acct_rows::{ACCOUNT_DOMAIN, AliasRow, Rows};
use std::alloc::Global;

/// Adds a word and a number as a line.
#[tactic(auto, unfolding(crate::specs::Generating::count_line))]
fn push_count(alloc: Global, lines: &mut Vec<u8>, word: &str, count: usize) -> Result<(), NoMemory>
    ensures { OnOk result (lines.new.items ≡ lines.old.items ++ count_line word.now count) }
{
    let line = format!(in alloc; "{word} {count}\n")?;
    lines.extend_from_slice(line.as_bytes())
}

fn is_call(entry: &Entry) -> bool
    ensures { result ≡ is_call entry.now }
{
    matches!(entry, Entry::Called { .. })
}

/// How many calls a history has.
fn call_count(history: &[Entry]) -> usize
    ensures { result ≡ call_count history.now }
{
    history.iter().filter(|entry| is_call(entry)).count()
}

/// How many users there are.
fn user_count(rows: &Rows) -> usize
    ensures { result ≡ kind_count User rows.now.lists }
{
    let accounts = rows.accounts().iter();
    accounts
        .filter(|account| account.kind == Kind::User)
        .count()
}

/// How many aliases there are, of both domains.
fn alias_count(rows: &Rows) -> usize
    ensures { result ≡ kind_count Alias rows.now.lists }
{
    let accounts = rows.accounts().iter();
    accounts
        .filter(|account| account.kind == Kind::Alias)
        .count()
}

/// The name of the alias whose members are counted.
fn alias_name(alloc: Global) -> Result<Name, NoMemory>
    ensures { IfOk result (λ name. name ≡ codes "site") }
{
    Name::from_text(alloc, "site")
}

fn is_member(row: &AliasRow, alias: u32) -> bool
    ensures { result ≡ is_in_alias account_domain alias row.now }
{
    row.domain == ACCOUNT_DOMAIN && row.alias == alias
}

/// How many members an alias of the account domain has.
fn members_of(rows: &Rows, alias: u32) -> usize
    ensures { result ≡ length (alias_members_of rows.now.lists account_domain alias) }
{
    let members = rows.alias_rows().iter();
    members.filter(|row| is_member(row, alias)).count()
}

/// How many members the alias `site` of the account domain has.
fn member_count(alloc: Global, rows: &Rows) -> Result<usize, NoMemory>
    ensures { IfOk result (λ count. count ≡ member_count rows.now.lists) }
{
    match rows.find_name(ACCOUNT_DOMAIN, &alias_name(alloc)?) {
        Some(alias) => Ok(members_of(rows, alias.rid)),
        None => Ok(0),
    }
}

/// The next RID of the account domain.
fn next_rid(rows: &Rows) -> u32
    ensures { result ≡ next_rid rows.now.lists }
{
    match rows.domain(ACCOUNT_DOMAIN) {
        Some(domain) => domain.next_rid,
        None => 0,
    }
}

/// The five lines: the calls of the history, the users, the aliases of both domains, the members of the alias `site`,
/// and the next RID of the account domain.
#[tactic(auto, unfolding(crate::specs::Generating::summary))]
pub fn summary(alloc: Global, history: &[Entry], rows: &Rows) -> Result<Vec<u8>, NoMemory>
    ensures { IfOk result (λ lines. lines.items ≡ summary history.now rows.now.lists) }
{
    let mut lines = Vec::new(alloc);
    push_count(alloc, &mut lines, "calls", call_count(history))?;
    push_count(alloc, &mut lines, "users", user_count(rows))?;
    push_count(alloc, &mut lines, "aliases", alias_count(rows))?;
    push_count(alloc, &mut lines, "members", member_count(alloc, rows)?)?;
    push_count(alloc, &mut lines, "next", next_rid(rows) as usize)?;
    Ok(lines)
}
