// The forms of the words: which command they are.
ghost use Rattle.std.specs.Prelude.{◌≡◌, ◌≤◌, None, Some, length, drop, map, MatchOption, IfSome, IsTrue};
ghost use Rattle.std.specs.List.{list_any};
ghost use Rattle.std.specs.String.{string_bytes};
ghost use Rattle.acct_commands.specs.Words.{replay_form, audit_form, gen_form, names_form, serve_form, hooks_form};
ghost use Rattle.acct_commands.specs.Words.{users_in, is_call_form, begins_with_dash};
ghost use Rattle.acct_commands.specs.Generated.{most_users};

use crate::calls::MOST_USERS;
use acct_base::decimal_of;
use acct_config::is_address;

/// The configuration's name, of the words `replay CONFIG`.
pub fn replay_name(words: &Vec<String>) -> Option<&str>
    ensures { MatchOption result (replay_form (map string_bytes words.now.items) ≡ None)
        (λ name. replay_form (map string_bytes words.now.items) ≡ Some name.now) }
{
    if words.len() != 2 {
        return None;
    }
    let name = words[1].as_str();
    if words[0].as_str() != "replay" || name.as_bytes().first() == Some(&b'-') {
        return None;
    }
    Some(name)
}

/// The configuration's name, of the words `audit CONFIG`.
pub fn audit_name(words: &Vec<String>) -> Option<&str>
    ensures { MatchOption result (audit_form (map string_bytes words.now.items) ≡ None)
        (λ name. audit_form (map string_bytes words.now.items) ≡ Some name.now) }
{
    if words.len() != 2 {
        return None;
    }
    let name = words[1].as_str();
    if words[0].as_str() != "audit" || name.as_bytes().first() == Some(&b'-') {
        return None;
    }
    Some(name)
}

// The number of users from 1 to 10,000 that digits without a leading zero spell.
#[tactic(auto, unfolding(crate::specs::Words::users_in))]
fn users_in(word: &[u8]) -> Option<u32>
    ensures value { result ≡ users_in word.now }
    ensures few { IfSome result (λ users. users ≤ most_users) }
{
    let number = decimal_of(5, word)?;
    if number < 1 || (MOST_USERS as u64) < number {
        return None;
    }
    Some(number as u32)
}

/// The number of users, of the words `gen N`.
pub fn gen_users(words: &Vec<String>) -> Option<u32>
    ensures value { result ≡ gen_form (map string_bytes words.now.items) }
    ensures few { IfSome result (λ users. users ≤ most_users) }
{
    if words.len() != 2 || words[0].as_str() != "gen" {
        return None;
    }
    users_in(words[1].as_bytes())
}

fn begins_with_dash(word: &str) -> bool
    ensures { result ≡ begins_with_dash word.now }
{
    word.as_bytes().first() == Some(&b'-')
}

// The names of the configuration and of the store, of the words of a command and two names.
fn names_after<'a>(command: &str, words: &'a Vec<String>) -> Option<(&'a str, &'a str)>
    ensures { MatchOption result (names_form command.now (map string_bytes words.now.items) ≡ None)
        (λ names. names_form command.now (map string_bytes words.now.items)
        ≡ Some (record { config = names.0.now; store = names.1.now })) }
{
    if words.len() != 3 || words[0].as_str() != command {
        return None;
    }
    let config = words[1].as_str();
    let store = words[2].as_str();
    if begins_with_dash(config) || begins_with_dash(store) {
        return None;
    }
    Some((config, store))
}

/// The names of the configuration and of the store, of the words `serve CONFIG STORE`.
pub fn serve_names(words: &Vec<String>) -> Option<(&str, &str)>
    ensures { MatchOption result (serve_form (map string_bytes words.now.items) ≡ None)
        (λ names. serve_form (map string_bytes words.now.items)
        ≡ Some (record { config = names.0.now; store = names.1.now })) }
{
    names_after("serve", words)
}

/// The same, of the words `hooks CONFIG STORE`.
pub fn hooks_names(words: &Vec<String>) -> Option<(&str, &str)>
    ensures { MatchOption result (hooks_form (map string_bytes words.now.items) ≡ None)
        (λ names. hooks_form (map string_bytes words.now.items)
        ≡ Some (record { config = names.0.now; store = names.1.now })) }
{
    names_after("hooks", words)
}

// Whether one of the words begins with a dash.
fn has_dash(words: &[String]) -> bool
    ensures { result ≡ list_any begins_with_dash (map string_bytes words.now) }
{
    words.iter().any(|word| begins_with_dash(word.as_str()))
}

/// The words after the first two.
pub fn after_two(words: &Vec<String>) -> &[String]
    requires { 2 ≤ length words.now.items }
    ensures { result.now ≡ drop 2 words.now.items }
{
    &words[2..]
}

/// Whether the words are `call`, an address, and one word or more, of which none begins with a dash.
pub fn is_call_form(words: &Vec<String>) -> bool
    ensures value { result ≡ is_call_form (map string_bytes words.now.items) }
    ensures some { IsTrue result → 3 ≤ length words.now.items }
{
    if words.len() < 3 {
        return false;
    }
    words[0].as_str() == "call" && is_address(words[1].as_str()) && !has_dash(after_two(words))
}
