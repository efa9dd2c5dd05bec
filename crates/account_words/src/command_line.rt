// The words of the command line.
ghost use Rattle.std.specs.Prelude.{◌≡◌, ◌++◌, ◌∷◌, [], ℕ, take, IfOk, IsUtf8};
ghost use Rattle.std.specs.String.{string_bytes};
ghost use Rattle.account_words.specs.Words.{nul};

use std::alloc::{AllocError, Global};
use std::env::{Env, FillError};

/// The text of a word. One that isn't UTF-8 is cut before its first byte that isn't, and ends in a NUL instead: no
/// other word has one, and no file's name.
pub fn text_of(alloc: Global, word: &[u8]) -> Result<String, AllocError>
    ensures same { IsUtf8 word.now → IfOk result (λ text. string_bytes text ≡ word.now) }
    ensures cut { (IsUtf8 word.now → ⊥)
        → IfOk result (λ text. (n : ℕ) × (string_bytes text ≡ take n word.now ++ nul ∷ [])) }
{
    match std::str::from_utf8(word) {
        Ok(text) => String::from_str(alloc, text),
        Err(wrong) => cut_text(alloc, &word[..wrong.valid_up_to()]),
    }
}

// A prefix of a word, and a NUL after it.
fn cut_text(alloc: Global, front: &[u8]) -> Result<String, AllocError>
    requires { IsUtf8 front.now }
    ensures { IfOk result (λ text. string_bytes text ≡ front.now ++ nul ∷ []) }
{
    let mut text = match std::str::from_utf8(front) {
        Ok(front) => String::from_str(alloc, front)?,
        Err(_) => unreachable!(),
    };
    text.push('\0')?;
    Ok(text)
}

// The word at a place, if there is one.
fn word_at<R: Env>(rt: &R, alloc: Global, place: usize) -> Result<Option<String>, AllocError> {
    let mut buffer = [0u8; 256].to_vec(alloc)?;
    for _ in 0..48 {
        match rt.arg(place, &mut buffer) {
            Ok(count) => return Ok(Some(text_of(alloc, &buffer[..count])?)),
            Err(FillError::NotPresent) => return Ok(None),
            Err(FillError::TooLong) => buffer.resize(buffer.len().saturating_mul(2), 0)?,
        }
    }
    Err(AllocError)
}

/// The words after the program's name.
pub fn words<R: Env>(rt: &R, alloc: Global) -> Result<Vec<String>, AllocError> {
    let mut words = Vec::new(alloc);
    for place in 1..usize::MAX {
        match word_at(rt, alloc, place)? {
            Some(word) => words.push(word)?,
            None => break,
        }
    }
    Ok(words)
}
