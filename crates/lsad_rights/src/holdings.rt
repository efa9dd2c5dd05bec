// The operations that change the privileges and the system access of an account of the policy, by a handle to it.
ghost use Rattle.std.specs.Prelude.{◌≡◌, [], ◌∷◌, true, IfOk, IsOkAnd, OnErr};
ghost use Rattle.std.specs.List.{list_any};
ghost use Rattle.std.specs.Option.{option_copied};
ghost use Rattle.acct_tables.specs.declared.row.Row.TheVariants as row;
ghost use Rattle.acct_rules.specs.Planned.{decision, none_fails, puts};
ghost use Rattle.lsad_rights.specs.Holdings.{is_unknown, brought_set, brought_privileges, or_none, takes_all};
ghost use Rattle.lsad_rights.specs.Holdings.{brought_access, with_privileges, without_privileges, with_access};
ghost use Rattle.lsad_rights.specs.Holdings.{has_unknown_bits, add_privileges, remove_privileges, set_system_access};

use crate::found::account_of;
use crate::held::{is_unknown, put_each, remove_each};
use acct_base::Seq;
use acct_calls::{Args, Privilege, PrivilegeSet};
use acct_codes::status::{STATUS_INVALID_PARAMETER, STATUS_NO_SUCH_PRIVILEGE};
use acct_codes::system_access::KNOWN_SYSTEM_ACCESS;
use acct_rows::{LsaRow, Object, Row, Rows};
use acct_rules::{NoMemory, Planned, puts, refusal};
use std::alloc::Global;

// The set of privileges that was brought.
fn brought_set(args: &Args) -> Option<&PrivilegeSet>
    ensures { option_copied result ≡ brought_set args.now }
{
    match args {
        Args::Privileges { set: Some(set), .. } => Some(set),
        _ => None,
    }
}

// Its privileges; none where none was brought.
fn brought_privileges(args: &Args) -> &[Privilege]
    ensures { result.now ≡ brought_privileges args.now }
{
    match brought_set(args) {
        Some(set) => set.as_slice(),
        None => &[],
    }
}

/// Whether every privilege, or every right, is taken away.
pub fn takes_all(args: &Args) -> bool
    ensures { result ≡ takes_all args.now }
{
    match args {
        Args::Privileges { all, .. } | Args::Rights { all, .. } => *all,
        _ => false,
    }
}

// The system access that is set.
fn brought_access(args: &Args) -> u32
    ensures { result ≡ brought_access args.now }
{
    match args {
        Args::Bits(bits) => *bits,
        _ => 0,
    }
}

/// A row of an account that is put.
pub fn account_put(alloc: Global, account: LsaRow) -> Result<Seq<Row>, NoMemory>
    ensures { IfOk result (λ rows. rows ≡ row.Lsa account ∷ []) }
{
    let mut rows = Seq::new(alloc);
    match rows.push(Row::Lsa(account)) {
        Ok(()) => Ok(rows),
        Err(full) => {
            drop(rows);
            Err(full)
        }
    }
}

// What puts an account's later row, where there was memory for it.
fn put_later(alloc: Global, later: Result<LsaRow, NoMemory>) -> Result<Planned, NoMemory>
    ensures { IfOk result (λ p. IsOkAnd later (λ l. p ≡ puts (row.Lsa l ∷ []))) }
{
    match later {
        Ok(later) => Ok(puts(alloc, account_put(alloc, later)?)),
        Err(full) => Err(full),
    }
}

fn has_unknown(privileges: &[Privilege]) -> bool
    ensures { result ≡ list_any is_unknown privileges.now }
{
    privileges.iter().any(|privilege| is_unknown(privilege))
}

fn with_privileges(alloc: Global, account: &LsaRow, args: &Args) -> Result<LsaRow, NoMemory>
    ensures { IfOk result (λ l. l ≡ with_privileges args.now account.now) }
{
    let mut later = account.copy(alloc)?;
    let mut held = later.privileges.into_vec();
    put_each(&mut held, brought_privileges(args))?;
    later.privileges = Seq::from_vec(held);
    Ok(later)
}

/// LsarAddPrivilegesToAccount (MS-LSAD 3.1.4.5.5): adds each of some privileges to the account, or replaces its
/// attributes.
pub fn add_privileges(
    alloc: Global,
    rows: &Rows,
    account: Object,
    args: &Args,
) -> Result<Planned, NoMemory>
    ensures decided { IfOk result (λ p. p ≡ decision (add_privileges rows.now.lists account args.now)) }
    ensures frugal { OnErr result (none_fails (add_privileges rows.now.lists account args.now).conditions ≡ true) }
{
    if has_unknown(brought_privileges(args)) {
        return Ok(refusal(alloc, STATUS_NO_SUCH_PRIVILEGE));
    }
    match account_of(rows, &account) {
        None => Ok(puts(alloc, Seq::new(alloc))),
        Some(held) => put_later(alloc, with_privileges(alloc, held, args)),
    }
}

fn without_privileges(alloc: Global, account: &LsaRow, args: &Args) -> Result<LsaRow, NoMemory>
    ensures { IfOk result (λ l. l ≡ without_privileges args.now account.now) }
{
    let mut later = account.copy(alloc)?;
    if takes_all(args) {
        later.privileges = Seq::new(alloc);
        return Ok(later);
    }
    let mut held = later.privileges.into_vec();
    remove_each(&mut held, brought_privileges(args));
    later.privileges = Seq::from_vec(held);
    Ok(later)
}

/// LsarRemovePrivilegesFromAccount (MS-LSAD 3.1.4.5.6): takes every privilege of the account away, or those of a set.
pub fn remove_privileges(
    alloc: Global,
    rows: &Rows,
    account: Object,
    args: &Args,
) -> Result<Planned, NoMemory>
    ensures decided { IfOk result (λ p. p ≡ decision (remove_privileges rows.now.lists account args.now)) }
    ensures frugal { OnErr result (none_fails (remove_privileges rows.now.lists account args.now).conditions ≡ true) }
{
    if takes_all(args) == brought_set(args).is_some() {
        return Ok(refusal(alloc, STATUS_INVALID_PARAMETER));
    }
    if has_unknown(brought_privileges(args)) {
        return Ok(refusal(alloc, STATUS_NO_SUCH_PRIVILEGE));
    }
    match account_of(rows, &account) {
        None => Ok(puts(alloc, Seq::new(alloc))),
        Some(held) => put_later(alloc, without_privileges(alloc, held, args)),
    }
}

fn has_unknown_bits(access: u32) -> bool
    ensures { result ≡ has_unknown_bits access }
{
    access & KNOWN_SYSTEM_ACCESS != access
}

fn with_access(alloc: Global, account: &LsaRow, args: &Args) -> Result<LsaRow, NoMemory>
    ensures { IfOk result (λ l. l ≡ with_access args.now account.now) }
{
    let mut later = account.copy(alloc)?;
    later.access = brought_access(args);
    Ok(later)
}

/// LsarSetSystemAccessAccount (MS-LSAD 3.1.4.5.8): sets the system access of the account.
pub fn set_system_access(
    alloc: Global,
    rows: &Rows,
    account: Object,
    args: &Args,
) -> Result<Planned, NoMemory>
    ensures decided { IfOk result (λ p. p ≡ decision (set_system_access rows.now.lists account args.now)) }
    ensures frugal { OnErr result (none_fails (set_system_access rows.now.lists account args.now).conditions ≡ true) }
{
    if has_unknown_bits(brought_access(args)) {
        return Ok(refusal(alloc, STATUS_INVALID_PARAMETER));
    }
    match account_of(rows, &account) {
        None => Ok(puts(alloc, Seq::new(alloc))),
        Some(held) => put_later(alloc, with_access(alloc, held, args)),
    }
}
