// The operations that look for accounts of a domain.
ghost use Rattle.std.specs.Prelude.{◌≡◌, [], ◌∷◌, ◌++◌, IfOk, OnOk, map};
ghost use Rattle.std.specs.Option.{option_copied};
ghost use Rattle.acct_rows.specs.Rows.{find_name, account_at};
ghost use Rattle.acct_rules.specs.Planned.{decision};
ghost use Rattle.samr_objects.specs.Domains.{use_in, rid_in, name_in, look_names, look_ids};

use crate::found::{rid_in, use_in};
use acct_base::Seq;
use acct_calls::{Args, Name, Names, Outs, Rids};
use acct_rows::{AccountRow, Object, Rows};
use acct_rules::{NoMemory, Planned, answers, asked_names, asked_rids, mapped_status};
use std::alloc::Global;

// Adds the RID of an account that was looked for, and what it is used for.
fn push_rid(found: Option<&AccountRow>, rids: &mut Rids, uses: &mut Rids) -> Result<(), NoMemory>
    ensures rids { OnOk result (rids.new ≡ rids.old ++ rid_in (option_copied found.entry) ∷ []) }
    ensures uses { OnOk result (uses.new ≡ uses.old ++ use_in (option_copied found.entry) ∷ []) }
{
    rids.push(rid_in(found))?;
    uses.push(use_in(found))
}

/// SamrLookupNamesInDomain (MS-SAMR 3.1.5.11.2): the RIDs of names, and what each is used for.
pub fn look_names(
    alloc: Global,
    rows: &Rows,
    object: Object,
    args: &Args,
) -> Result<Planned, NoMemory>
    ensures { IfOk result (λ p. p ≡ decision (look_names rows.now.lists object args.now)) }
{
    let domain = object.domain();
    let mut rids = Seq::new(alloc);
    let mut uses = Seq::new(alloc);
    for name in asked_names(args) {
        let found = rows.find_name(domain, name);
        if let Err(full) = push_rid(found, &mut rids, &mut uses) {
            drop(rids);
            drop(uses);
            return Err(full);
        }
    }
    let status = mapped_status(uses.as_slice());
    Ok(answers(alloc, status, Outs::RidUses { rids, uses }))
}

// The name of an account that was looked for, or the empty one.
fn name_in(alloc: Global, found: Option<&AccountRow>) -> Result<Name, NoMemory>
    ensures { IfOk result (λ name. name ≡ name_in (option_copied found.entry)) }
{
    match found {
        Some(account) => account.name.copy(alloc),
        None => Ok(Name::from_units(Vec::new(alloc))),
    }
}

// Adds the name of an account that was looked for, and what it is used for.
fn push_name(
    alloc: Global,
    found: Option<&AccountRow>,
    names: &mut Names,
    uses: &mut Rids,
) -> Result<(), NoMemory>
    ensures names { OnOk result (names.new ≡ names.old ++ name_in (option_copied found.entry) ∷ []) }
    ensures uses { OnOk result (uses.new ≡ uses.old ++ use_in (option_copied found.entry) ∷ []) }
{
    names.push(name_in(alloc, found)?)?;
    uses.push(use_in(found))
}

/// SamrLookupIdsInDomain (MS-SAMR 3.1.5.11.3): the names of RIDs, and what each is used for.
pub fn look_ids(
    alloc: Global,
    rows: &Rows,
    object: Object,
    args: &Args,
) -> Result<Planned, NoMemory>
    ensures { IfOk result (λ p. p ≡ decision (look_ids rows.now.lists object args.now)) }
{
    let domain = object.domain();
    let mut names = Names::new(alloc);
    let mut uses = Seq::new(alloc);
    for rid in asked_rids(args) {
        let found = rows.find_rid(domain, *rid);
        if let Err(full) = push_name(alloc, found, &mut names, &mut uses) {
            drop(names);
            drop(uses);
            return Err(full);
        }
    }
    let status = mapped_status(uses.as_slice());
    Ok(answers(alloc, status, Outs::NameUses { names, uses }))
}
