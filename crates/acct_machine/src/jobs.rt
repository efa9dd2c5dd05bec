// The jobs of changes of accounts, and the machine itself as a gate to them.
ghost use Rattle.std.specs.Prelude.{◌≡◌, ◌≤◌, IfOk, map, string_bytes};
ghost use Rattle.account_hooks.specs.Drains.{IsFirstLeft};
ghost use Rattle.acct_machine.specs.Gates.{IsReady};
ghost use Rattle.acct_machine.specs.Jobs.{action_word, kind_word, shown_point, utf8_of, name_in, arguments, jobs_at};
ghost use Rattle.acct_machine.specs.Outs.{hooks_of};
ghost use Rattle.acct_rows.specs.Rows.{domain_at};

use crate::laws::{hooks_are_told, jobs_are_left};
use crate::machine::Machine;
use crate::{Keeper, Rows};
use account_hooks::{HookGate, HookJob, HookedEnd};
use acct_calls::{FirstPoint, first_point};
use acct_codes::Kind;
use acct_rows::{OUT_CHANGED, OUT_MADE, OutRow};
use std::alloc::{AllocError, Global};

fn action_word(action: u8) -> &'static str
    ensures { result.now ≡ action_word action }
{
    match action {
        OUT_MADE => "create",
        OUT_CHANGED => "change",
        _ => "delete",
    }
}

fn kind_word(kind: Kind) -> &'static str
    ensures { result.now ≡ kind_word kind }
{
    match kind {
        Kind::User => "user",
        Kind::Group => "group",
        _ => "alias",
    }
}

// The character of a code point, and `?` for a surrogate.
fn shown_point(point: u32) -> char
    requires { point ≤ 0x10_FFFF }
    ensures { result ≡ shown_point point }
{
    match char::from_u32(point) {
        Some(character) => character,
        None => '?',
    }
}

// A name in UTF-8, with `?` for a surrogate that stands alone.
fn text_of(alloc: Global, units: &[u16]) -> Result<String, AllocError>
    ensures { IfOk result (λ text. string_bytes text ≡ utf8_of units.now) }
{
    let mut text = String::new(alloc);
    let mut left = units;
    while let Some(FirstPoint { point, rest }) = first_point(left) {
        text.push(shown_point(point))?;
        left = rest;
    }
    Ok(text)
}

// The name of a domain, and none where there is no such domain.
fn domain_name(rows: &Rows, number: u8) -> &[u16]
    ensures { result.now ≡ name_in (domain_at rows.now.lists number) }
{
    match rows.domain(number) {
        Some(domain) => domain.name.units(),
        None => &[],
    }
}

/// What a program is given of a change: its number; `create`, `change` or `delete`; `user`, `group` or `alias`; the
/// name of the account's domain, its RID, and its name.
pub fn arguments(alloc: Global, rows: &Rows, row: &OutRow) -> Result<Vec<String>, AllocError>
    ensures { IfOk result (λ texts. map string_bytes texts.items ≡ arguments rows.now.lists row.now) }
{
    let mut texts = Vec::new(alloc);
    texts.push(format!(in alloc; "{}", row.number)?)?;
    texts.push(String::from_str(alloc, action_word(row.action))?)?;
    texts.push(String::from_str(alloc, kind_word(row.kind))?)?;
    texts.push(text_of(alloc, domain_name(rows, row.domain))?)?;
    texts.push(format!(in alloc; "{}", row.rid)?)?;
    texts.push(text_of(alloc, row.name.units())?)?;
    Ok(texts)
}

impl<K: Keeper + Drop> Machine<K> {
    // The job of the first change that is left.
    fn first_job(&self) -> Result<Option<HookJob>, AllocError>
        requires { IsReady self.now.past }
        ensures { IfOk result
            (IsFirstLeft (jobs_at self.now.past.start self.now.past.history) (hooks_of self.now.past.history)) }
    {
        jobs_are_left();
        match self.first_out() {
            Some(row) => Ok(Some(HookJob {
                number: row.number,
                arguments: arguments(self.allocator(), self.opening_rows(), row)?,
            })),
            None => Ok(None),
        }
    }
}

impl<K: Keeper + Drop> HookGate for Machine<K> {
    ghost use Rattle.acct_machine.specs.Gates.{IsReady, Moves, RoseTo, room_at};
    ghost use Rattle.acct_machine.specs.steps.Moving.{still, moved, rose-since};

    ghost jobs = { λ m. jobs_at m.past.start m.past.history };

    ghost gone = { λ m. hooks_of m.past.history };

    ghost ready = { λ m. IsReady m.past };

    ghost room = { λ m. room_at m.past.history };

    ghost moves = { λ m n. Moves m n };

    ghost faulted = { λ m count n. RoseTo m.keeper.faults count × (count ≡ n.keeper.faults) };

    ghost ran_out = { λ _ _. Unit {0} };

    fn first(&mut self) -> Result<Option<HookJob>, AllocError> {
        self.first_job()
    }

    fn hooked(&mut self, number: u64) -> HookedEnd {
        jobs_are_left();
        hooks_are_told();
        let answer = self.hooked(number);
        self.has_few_entries();
        answer
    }

    ghost in_front = { λ m ready. ready.in_front };

    ghost stays = { λ m. still m };

    ghost goes_on = { λ a b c p q. moved a b c p q };

    ghost since = { λ a b c n p f. (rose-since a b n p f.0, f.1) };

    ghost out_since = { λ _ _ _ _ _. tt };
}
