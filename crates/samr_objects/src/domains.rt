// The operations on domains.
ghost use Rattle.std.specs.Prelude.{◌≡◌, ◌+◌, ◌<◌, ◌++◌, IfOk, OnOk, OnErr, length, map, drop, min};
ghost use Rattle.acct_rules.specs.Pages.{entry_cost, given_in, leaves_some};
ghost use Rattle.acct_rules.specs.Planned.{decision};
ghost use Rattle.samr_objects.specs.Domains.{look_domain, list_domains, open_domain, rid_to_sid, listed};

use crate::found::{domain_named, domain_of_sid};
use acct_calls::{Args, Outs};
use acct_codes::status::{STATUS_NO_SUCH_DOMAIN, STATUS_SUCCESS};
use acct_rows::{DomainRow, Object, Rows};
use acct_rules::{
    NamePage, NoMemory, Planned, answers, asked_context, asked_length, asked_name, asked_rid,
    asked_sid, desired_access, opens, page_status, refusal,
};
use std::alloc::Global;

/// SamrLookupDomainInSamServer (MS-SAMR 3.1.5.11.1): the SID of the domain of a name. It takes no memory.
pub fn look_domain(
    alloc: Global,
    rows: &Rows,
    object: Object,
    args: &Args,
) -> Result<Planned, NoMemory>
    ensures decided { IfOk result (λ p. p ≡ decision (look_domain rows.now.lists object args.now)) }
    ensures frugal { OnErr result ⊥ }
{
    match domain_named(rows, asked_name(args)) {
        Some(domain) => Ok(answers(alloc, STATUS_SUCCESS, Outs::OneSid(Some(domain.sid)))),
        None => Ok(refusal(alloc, STATUS_NO_SUCH_DOMAIN)),
    }
}

// Gives the domains while there is room, and tells whether some are left after them.
fn give_domains(alloc: Global, page: &mut NamePage, domains: &[DomainRow]) -> Result<bool, NoMemory>
    ensures given { OnOk result (
        let left = map listed domains.now in
        page.new.entries ≡ page.old.entries ++ given_in entry_cost page.old.room left) }
    ensures more { IfOk result (λ more.
        let left = map listed domains.now in
        more ≡ leaves_some (given_in entry_cost page.old.room left) left) }
{
    for domain in domains {
        if !page.give(alloc, 0, &domain.name)? {
            return Ok(true);
        }
    }
    Ok(false)
}

// The domains after those that were listed before.
fn domains_left(rows: &Rows, context: u32) -> &[DomainRow]
    ensures { result.now ≡ drop context rows.now.lists.domains }
{
    let domains = rows.domains();
    domains.get(context as usize..).unwrap_or(&[])
}

/// SamrEnumerateDomainsInSamServer (MS-SAMR 3.1.5.2.1): the names of the domains that weren't listed before, as many as
/// are preferred, but one at least where one is left.
pub fn list_domains(
    alloc: Global,
    rows: &Rows,
    object: Object,
    args: &Args,
) -> Result<Planned, NoMemory>
    ensures { IfOk result (λ p. p ≡ decision (list_domains rows.now.lists object args.now)) }
{
    rows.has_few_rows();
    let context = asked_context(args);
    let mut page = NamePage::new(alloc, asked_length(args));
    let more = give_domains(alloc, &mut page, domains_left(rows, context))?;
    let given = page.entries.as_slice().len();
    let page = Outs::Page {
        context: context + given as u32,
        entries: Some(page.entries),
    };
    Ok(answers(alloc, page_status(more), page))
}

/// SamrOpenDomain (MS-SAMR 3.1.5.1.5): opens the domain of a SID. It takes no memory.
pub fn open_domain(
    alloc: Global,
    rows: &Rows,
    object: Object,
    args: &Args,
) -> Result<Planned, NoMemory>
    ensures decided { IfOk result (λ p. p ≡ decision (open_domain rows.now.lists object args.now)) }
    ensures frugal { OnErr result ⊥ }
{
    match domain_of_sid(rows, asked_sid(args)) {
        Some(domain) => Ok(opens(alloc, Object::Domain(domain.number), desired_access(args))),
        None => Ok(refusal(alloc, STATUS_NO_SUCH_DOMAIN)),
    }
}

/// SamrRidToSid (MS-SAMR 3.1.5.13.5): the SID of a RID of the object's domain. No account need have it. It takes no
/// memory.
pub fn rid_to_sid(
    alloc: Global,
    rows: &Rows,
    object: Object,
    args: &Args,
) -> Result<Planned, NoMemory>
    ensures decided { IfOk result (λ p. p ≡ decision (rid_to_sid rows.now.lists object args.now)) }
    ensures frugal { OnErr result ⊥ }
{
    let sid = match rows.domain(object.domain()) {
        Some(domain) => domain.sid.with_rid(asked_rid(args)),
        None => None,
    };
    Ok(answers(alloc, STATUS_SUCCESS, Outs::OneSid(sid)))
}
