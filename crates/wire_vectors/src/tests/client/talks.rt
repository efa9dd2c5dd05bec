// A dialogue with a peer, whose answers are cut.
ghost use Rattle.std.specs.Prelude.{◌≡◌, ◌+◌, ◌<◌, ◌≤◌, ◌^◌, false, true, length};
ghost use Rattle.std.specs.Prelude.{IfOk, IfSome, OnErr, Ok, None};
ghost use Rattle.acct_client.specs.Askers.{bytes_taken};
ghost use Rattle.acct_client.specs.Dialogues.{is_failed};

use super::digits::{add_row, bytes_of, words_of};
use acct_client::{AskError, Asker};
use std::alloc::Global;
use std::process::Abort;
use std::test::Fail;

/// How the peer's stream is cut.
#[derive(Clone, Copy, Debug)]
pub enum Cut {
    /// Each answer in two at this place, where it has it.
    At(usize),
    /// Into single bytes.
    Bytes,
    /// Not at all: it comes before it is asked for.
    Early,
}

/// Takes a piece.
fn take(alloc: Global, asker: &mut Asker, answer: &[u8]) -> Result<bool, AskError>
    requires awaited { asker.old.is_awaiting ≡ true }
    requires room { bytes_taken asker.old + length answer.now < 2 ^ 64 }
    ensures count { bytes_taken asker.new ≤ bytes_taken asker.old + length answer.now }
    ensures ok { IfOk result (λ whole. whole ≡ true → asker.new.is_awaiting ≡ false) }
    ensures more { IfOk result (λ whole. whole ≡ false → asker.new.is_awaiting ≡ true) }
    ensures err { OnErr result (is_failed asker.new.state ≡ true) }
{
    asker.take(alloc, answer)
}

/// Takes an answer in two pieces. It is whole with the last byte alone.
fn in_two(alloc: Global, asker: &mut Asker, answer: &[u8], place: usize) -> Result<bool, AskError>
    requires awaited { asker.old.is_awaiting ≡ true }
    requires room { bytes_taken asker.old + length answer.now < 2 ^ 64 }
    ensures count { bytes_taken asker.new ≤ bytes_taken asker.old + length answer.now }
    ensures ok { IfOk result (λ whole. whole ≡ true → asker.new.is_awaiting ≡ false) }
    ensures err { OnErr result (is_failed asker.new.state ≡ true) }
{
    let (front, rest) = answer.split_at(place.min(answer.len()));
    if take(alloc, asker, front)? {
        return Ok(rest.is_empty());
    }
    take(alloc, asker, rest)
}

/// Takes an answer byte by byte. It is whole with the last byte alone.
fn in_bytes(alloc: Global, asker: &mut Asker, answer: &[u8]) -> Result<bool, AskError>
    requires awaited { asker.old.is_awaiting ≡ true }
    requires room { bytes_taken asker.old + length answer.now < 2 ^ 64 }
    ensures count { bytes_taken asker.new ≤ bytes_taken asker.old + length answer.now }
    ensures ok { IfOk result (λ whole. whole ≡ true → asker.new.is_awaiting ≡ false) }
    ensures err { OnErr result (is_failed asker.new.state ≡ true) }
{
    for place in 0..answer.len() {
        let piece = &answer[place..place + 1];
        if take(alloc, asker, piece)? {
            return Ok(place + 1 == answer.len());
        }
    }
    Ok(false)
}

/// Takes an answer as it is cut.
fn heard(alloc: Global, asker: &mut Asker, answer: &[u8], cut: Cut) -> Result<bool, AskError>
    requires awaited { asker.old.is_awaiting ≡ true }
    requires room { bytes_taken asker.old + length answer.now < 2 ^ 64 }
    ensures count { bytes_taken asker.new ≤ bytes_taken asker.old + length answer.now }
    ensures ok { IfOk result (λ whole. whole ≡ true → asker.new.is_awaiting ≡ false) }
    ensures err { OnErr result (is_failed asker.new.state ≡ true) }
{
    match cut {
        Cut::At(place) => in_two(alloc, asker, answer, place),
        Cut::Bytes => in_bytes(alloc, asker, answer),
        Cut::Early => take(alloc, asker, answer),
    }
}

/// All answers of a dialogue, one after the other.
fn all_answers(alloc: Global, dialogue: &str) -> Result<Vec<u8>, Fail> {
    let mut bytes = Vec::new(alloc);
    for line in dialogue.lines() {
        if let Some(row) = line.strip_prefix("< ") {
            add_row(&mut bytes, row)?;
        }
    }
    Ok(bytes)
}

/// The next answer. A stream that comes early is all there at first, and later nothing comes.
fn answer_of(
    alloc: Global,
    dialogue: &str,
    is_first: bool,
    row: &str,
    cut: Cut,
) -> Result<Vec<u8>, Fail> {
    match cut {
        Cut::Early if is_first => all_answers(alloc, dialogue),
        Cut::Early => Ok(Vec::new(alloc)),
        Cut::At(_) | Cut::Bytes => bytes_of(alloc, row),
    }
}

/// What is sent next.
fn next(alloc: Global, asker: &mut Asker) -> Result<Option<Vec<u8>>, Fail>
    requires { asker.old.is_awaiting ≡ false }
    ensures count { bytes_taken asker.new ≤ bytes_taken asker.old }
    ensures awaited { IfOk result (λ sent. IfSome sent (λ _. asker.new.is_awaiting ≡ true)) }
    ensures idle { IfOk result (λ sent. sent ≡ None → asker.new.is_awaiting ≡ false) }
{
    Ok(asker.next(alloc)?)
}

/// Tells how a dialogue ended, and what it printed. Nothing more is sent.
fn ended(rt: &impl Abort, alloc: Global, asker: &mut Asker, end: &str) -> Result<String, Fail>
    requires { asker.old.is_awaiting ≡ false }
{
    assert!(rt; next(alloc, asker)?.is_none(), "more is sent");
    Ok(format!(in alloc; "{end}\n{}", asker.lines())?)
}

/// Tells an error, which is answered again.
fn failed(
    rt: &impl Abort,
    alloc: Global,
    asker: &mut Asker,
    error: AskError,
) -> Result<String, Fail>
    requires failed { is_failed asker.old.state ≡ true }
    requires few { bytes_taken asker.old < 2 ^ 32 }
{
    match asker.take(alloc, b"more") {
        Err(again) => {
            assert!(rt; again == error, "another error");
            let end = format!(in alloc; "{error}")?;
            ended(rt, alloc, asker, end.as_str())
        }
        Ok(_) => panic!(rt; "no error"),
    }
}

/// Takes an answer. It tells how the dialogue ended, where it did.
fn turn(
    rt: &impl Abort,
    alloc: Global,
    asker: &mut Asker,
    answer: &[u8],
    cut: Cut,
) -> Result<Option<String>, Fail>
    requires awaited { asker.old.is_awaiting ≡ true }
    requires room { bytes_taken asker.old + length answer.now < 2 ^ 32 }
    ensures goes { result ≡ Ok None → asker.new.is_awaiting ≡ false }
    ensures count { result ≡ Ok None → bytes_taken asker.new ≤ bytes_taken asker.old + length answer.now }
{
    match heard(alloc, asker, answer, cut) {
        Ok(true) => Ok(None),
        Ok(false) => Ok(Some(String::from_str(alloc, "more is awaited\n")?)),
        Err(error) => Ok(Some(failed(rt, alloc, asker, error)?)),
    }
}

/// The words of a dialogue's command, and its rows.
fn words_and_rows(dialogue: &str) -> (&str, &str) {
    dialogue.split_once('\n').unwrap_or((dialogue, ""))
}

/// What stands after a mark at the beginning of a row.
fn behind<'a>(row: Option<&'a str>, mark: &str) -> &'a str {
    row.unwrap_or("").strip_prefix(mark).unwrap_or("")
}

/// Whether bytes are those of a row.
fn are_of_row(alloc: Global, bytes: &[u8], row: &str) -> Result<bool, Fail> {
    let wanted = bytes_of(alloc, row)?;
    Ok(wanted.as_slice() == bytes)
}

/// Whether what is sent next is what a row says, if anything is sent.
fn sends(alloc: Global, asker: &mut Asker, row: &str) -> Result<Option<bool>, Fail>
    requires { asker.old.is_awaiting ≡ false }
    ensures count { bytes_taken asker.new ≤ bytes_taken asker.old }
    ensures awaited { IfOk result (λ sent. IfSome sent (λ _. asker.new.is_awaiting ≡ true)) }
    ensures idle { IfOk result (λ sent. sent ≡ None → asker.new.is_awaiting ≡ false) }
{
    match next(alloc, asker)? {
        Some(sent) => Ok(Some(are_of_row(alloc, &sent, row)?)),
        None => Ok(None),
    }
}

/// Takes an answer after so many bytes, and counts its own. It tells how the dialogue ended, where it did.
fn answered(
    rt: &impl Abort,
    alloc: Global,
    asker: &mut Asker,
    answer: &[u8],
    cut: Cut,
    taken: &mut usize,
) -> Result<Option<String>, Fail>
    requires awaited { asker.old.is_awaiting ≡ true }
    requires few { bytes_taken asker.old ≤ taken.old }
    ensures goes { result ≡ Ok None → asker.new.is_awaiting ≡ false }
    ensures count { result ≡ Ok None → bytes_taken asker.new ≤ taken.new }
{
    assert!(rt; *taken < 0x1000_0000, "long answers");
    assert!(rt; answer.len() < 0x100_0000, "a long answer");
    *taken += answer.len();
    turn(rt, alloc, asker, answer, cut)
}

/// Talks as the rows of a dialogue say, and tells how it ended and what was printed.
fn talk(
    rt: &impl Abort,
    alloc: Global,
    asker: &mut Asker,
    dialogue: &str,
    rows: &str,
    cut: Cut,
) -> Result<String, Fail>
    requires idle { asker.old.is_awaiting ≡ false }
    requires new { bytes_taken asker.old ≡ 0 }
{
    let mut rows = rows.lines();
    let mut taken = 0;
    for place in 0..100 {
        let Some(is_wanted) = sends(alloc, asker, behind(rows.next(), "> "))? else {
            return ended(rt, alloc, asker, "done");
        };
        assert!(rt; is_wanted, "another request, {place} of {dialogue}");
        let row = behind(rows.next(), "< ");
        let answer = answer_of(alloc, dialogue, place == 0, row, cut)?;
        if let Some(told) = answered(rt, alloc, asker, &answer, cut, &mut taken)? {
            return Ok(told);
        }
    }
    Ok(String::from_str(alloc, "a long dialogue\n")?)
}

/// Talks as a dialogue says, and tells how it ended and what was printed.
pub fn told(rt: &impl Abort, alloc: Global, dialogue: &str, cut: Cut) -> Result<String, Fail> {
    let (words, rows) = words_and_rows(dialogue);
    let words = words_of(alloc, words)?;
    let asker = Asker::new(alloc, &words);
    drop(words);
    let mut asker = asker?;
    let told = talk(rt, alloc, &mut asker, dialogue, rows, cut);
    drop(asker);
    told
}

/// How a dialogue ends.
pub fn end_of(dialogue: &str) -> &str {
    let (_, end) = dialogue.split_once("\n= ").unwrap_or((dialogue, ""));
    end
}
