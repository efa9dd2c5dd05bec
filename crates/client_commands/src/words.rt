// The words of a command.
ghost use Rattle.std.specs.Prelude.{◌≡◌, ◌≤◌, ◌∷◌, ◌++◌, [], map, length, Some, None, Err, IfOk, option_map, All};
ghost use Rattle.std.specs.String.{string_bytes};
ghost use Rattle.std.specs.List.{list_all};
ghost use Rattle.client_commands.specs.declared.words.WordError.TheVariants.{NoMemory, Refused};
ghost use Rattle.client_commands.specs.Words.{name_in, is_short, name_of, names_of, sid_word, all_sids, sids_of};
ghost use Rattle.client_commands.specs.Words.{both_of, two_names, in_domain, adding, granting, domains_form};
ghost use Rattle.client_commands.specs.Words.{users_form, create_form, delete_form, members_form, add_form, names_form};
ghost use Rattle.client_commands.specs.Words.{sids_form, rights_form, grant_form, verb_form, command_of, sid_of_word};
ghost use Rattle.dtyp_sid.specs.Reading.{sid_of_text};
ghost use Rattle.acct_calls.specs.Names.{AreUnits};
ghost use Rattle.acct_codes.specs.Limits.{most_rights, most_translated_names};
ghost use Rattle.acct_layouts.specs.Values.{IsText};
ghost use Rattle.dtyp_sid.specs.Sids.{IsSid};
ghost use Rattle.client_commands.specs.Fit.{IsFitCommand};

use crate::command::{Command, NamedTask, Query, SidWord, Task};
use crate::text::Text;
use acct_base::Seq;
use acct_calls::{Name, Names};
use acct_codes::limit::{MOST_RIGHTS, MOST_TRANSLATED_NAMES};
use dtyp_sid::{Sid, parse_text};
use std::alloc::{AllocError, Global};
use thiserror::Error;

/// The most UTF-16 units of a name in a command.
const MOST_UNITS: usize = 300;

/// Why words give no command.
#[derive(Clone, Copy, Debug, PartialEq, Eq, Error)]
pub enum WordError {
    /// They are none.
    #[error("the words are no command")]
    Refused,
    #[error("there is no memory for the command")]
    NoMemory,
}

impl From<AllocError> for WordError {
    ghost from_gives = { λ _ e. e ≡ NoMemory };

    fn from(_: AllocError) -> Self {
        WordError::NoMemory
    }
}

fn is_short(name: &Name) -> bool
    ensures { result ≡ is_short name.now }
{
    name.units().len() <= MOST_UNITS
}

fn are_short(names: &[Name]) -> bool
    ensures { result ≡ list_all is_short names.now }
{
    names.iter().all(|name| is_short(name))
}

/// The name that a word spells.
fn spelled_name(alloc: Global, word: &str) -> Result<Name, AllocError>
    ensures value { IfOk result (λ name. name ≡ name_in word.now) }
    ensures fit { IfOk result AreUnits }
{
    let name = Name::from_text(alloc, word)?;
    name.has_units();
    Ok(name)
}

fn name_of(alloc: Global, word: &str) -> Result<Name, WordError>
    ensures found { IfOk result (λ name. name_of word.now ≡ Some name) }
    ensures refused { result ≡ Err Refused → name_of word.now ≡ None }
    ensures fit { IfOk result IsText }
{
    let name = spelled_name(alloc, word)?;
    if is_short(&name) {
        Ok(name)
    } else {
        Err(WordError::Refused)
    }
}

/// The names of two words.
fn pair_of(alloc: Global, first: &str, second: &str) -> Result<(Name, Name), WordError>
    ensures found { IfOk result (λ names. both_of (name_of first.now) (name_of second.now) ≡ Some names) }
    ensures refused { result ≡ Err Refused → both_of (name_of first.now) (name_of second.now) ≡ None }
    ensures fit { IfOk result (λ names. IsText names.0 × IsText names.1) }
{
    let first = name_of(alloc, first)?;
    let second = name_of(alloc, second)?;
    Ok((first, second))
}

/// The names of words that are two.
fn two_names(alloc: Global, words: &[String]) -> Result<(Name, Name), WordError>
    ensures found { IfOk result (λ names. two_names (map string_bytes words.now) ≡ Some names) }
    ensures refused { result ≡ Err Refused → two_names (map string_bytes words.now) ≡ None }
    ensures fit { IfOk result (λ names. IsText names.0 × IsText names.1) }
{
    match words {
        [first, second] => pair_of(alloc, first, second),
        _ => Err(WordError::Refused),
    }
}

fn all_names(alloc: Global, words: &[String]) -> Result<Names, AllocError>
    ensures value { IfOk result (λ names. names ≡ map name_in (map string_bytes words.now)) }
    ensures fit { IfOk result (λ names. All AreUnits names) }
    ensures count { IfOk result (λ names. length names ≡ length words.now) }
{
    let mut names = Names::new(alloc);
    for word in words {
        names.push(spelled_name(alloc, word)?)?;
    }
    Ok(names)
}

#[tactic(auto, unfolding(crate::specs::Words::names_of))]
fn names_of(alloc: Global, most: u32, words: &[String]) -> Result<Names, WordError>
    ensures found { IfOk result (λ names. names_of most (map string_bytes words.now) ≡ Some names) }
    ensures refused { result ≡ Err Refused → names_of most (map string_bytes words.now) ≡ None }
    ensures fit { IfOk result (λ names. All IsText names) }
    ensures few { IfOk result (λ names. length names ≤ most) }
{
    if words.len() > most as usize {
        return Err(WordError::Refused);
    }
    let names = all_names(alloc, words)?;
    if are_short(names.as_slice()) {
        Ok(names)
    } else {
        Err(WordError::Refused)
    }
}

fn sid_of(word: &str) -> Result<Sid, WordError>
    ensures found { IfOk result (λ sid. sid_of_text word.now ≡ Some sid) }
    ensures refused { result ≡ Err Refused → sid_of_text word.now ≡ None }
    ensures fit { IfOk result IsSid }
{
    match parse_text(word) {
        Ok(sid) => Ok(sid),
        Err(_) => Err(WordError::Refused),
    }
}

fn sid_word(alloc: Global, word: &str) -> Result<SidWord, WordError>
    ensures found { IfOk result (λ sid. sid_word word.now ≡ Some sid) }
    ensures refused { result ≡ Err Refused → sid_word word.now ≡ None }
    ensures fit { IfOk result (λ sid. IsSid sid.sid) }
{
    let sid = sid_of(word)?;
    Ok(SidWord {
        word: Text::of(alloc, word)?,
        sid,
    })
}

fn all_sids(alloc: Global, words: &[String]) -> Result<Seq<SidWord>, WordError>
    ensures found { IfOk result (λ sids. all_sids (map string_bytes words.now) ≡ Some sids) }
    ensures refused { result ≡ Err Refused → all_sids (map string_bytes words.now) ≡ None }
    ensures fit { IfOk result (λ sids. All IsSid (map sid_of_word sids)) }
    ensures count { IfOk result (λ sids. length sids ≡ length words.now) }
{
    let mut sids = Seq::new(alloc);
    for word in words {
        sids.push(sid_word(alloc, word)?)?;
    }
    Ok(sids)
}

#[tactic(auto, unfolding(crate::specs::Words::sids_of))]
fn sids_of(alloc: Global, words: &[String]) -> Result<Seq<SidWord>, WordError>
    ensures found { IfOk result (λ sids. sids_of (map string_bytes words.now) ≡ Some sids) }
    ensures refused { result ≡ Err Refused → sids_of (map string_bytes words.now) ≡ None }
    ensures fit { IfOk result (λ sids. All IsSid (map sid_of_word sids)) }
    ensures few { IfOk result (λ sids. length sids ≤ most_translated_names) }
{
    if words.len() > MOST_TRANSLATED_NAMES as usize {
        return Err(WordError::Refused);
    }
    all_sids(alloc, words)
}

fn users(alloc: Global, words: &[String]) -> Result<Command, WordError>
    ensures found { IfOk result (λ command. users_form (map string_bytes words.now) ≡ Some command) }
    ensures refused { result ≡ Err Refused → users_form (map string_bytes words.now) ≡ None }
    ensures fit { IfOk result IsFitCommand }
{
    let [domain] = words else {
        return Err(WordError::Refused);
    };
    Ok(Command::InDomain {
        domain: name_of(alloc, domain)?,
        task: Task::Users,
    })
}

#[tactic(auto, using(crate::proofs::Forms::create_form_is))]
fn create_user(alloc: Global, words: &[String]) -> Result<Command, WordError>
    ensures found { IfOk result (λ command. create_form (map string_bytes words.now) ≡ Some command) }
    ensures refused { result ≡ Err Refused → create_form (map string_bytes words.now) ≡ None }
    ensures fit { IfOk result IsFitCommand }
{
    let (domain, name) = two_names(alloc, words)?;
    Ok(Command::InDomain {
        domain,
        task: Task::CreateUser(name),
    })
}

#[tactic(auto, using(crate::proofs::Forms::delete_form_is))]
fn delete_user(alloc: Global, words: &[String]) -> Result<Command, WordError>
    ensures found { IfOk result (λ command. delete_form (map string_bytes words.now) ≡ Some command) }
    ensures refused { result ≡ Err Refused → delete_form (map string_bytes words.now) ≡ None }
    ensures fit { IfOk result IsFitCommand }
{
    let (domain, name) = two_names(alloc, words)?;
    Ok(Command::InDomain {
        domain,
        task: Task::Named(NamedTask::DeleteUser(name)),
    })
}

#[tactic(auto, using(crate::proofs::Forms::members_form_is))]
fn members(alloc: Global, words: &[String]) -> Result<Command, WordError>
    ensures found { IfOk result (λ command. members_form (map string_bytes words.now) ≡ Some command) }
    ensures refused { result ≡ Err Refused → members_form (map string_bytes words.now) ≡ None }
    ensures fit { IfOk result IsFitCommand }
{
    let (domain, name) = two_names(alloc, words)?;
    Ok(Command::InDomain {
        domain,
        task: Task::Named(NamedTask::Members(name)),
    })
}

/// The command that adds the user of a word to the group of a word.
#[tactic(auto, using(crate::proofs::Forms::adding_is))]
fn adding(alloc: Global, domain: Name, group: &str, user: &str) -> Result<Command, WordError>
    ensures found { IfOk result (λ command.
        in_domain (Some domain) (adding (name_of group.now) (name_of user.now)) ≡ Some command) }
    ensures refused { result ≡ Err Refused →
        in_domain (Some domain) (adding (name_of group.now) (name_of user.now)) ≡ None }
    ensures fit { IsText domain → IfOk result IsFitCommand }
{
    let (group, user) = pair_of(alloc, group, user)?;
    Ok(Command::InDomain {
        domain,
        task: Task::Named(NamedTask::AddMember { group, user }),
    })
}

fn add_member(alloc: Global, words: &[String]) -> Result<Command, WordError>
    ensures found { IfOk result (λ command. add_form (map string_bytes words.now) ≡ Some command) }
    ensures refused { result ≡ Err Refused → add_form (map string_bytes words.now) ≡ None }
    ensures fit { IfOk result IsFitCommand }
{
    let [domain, group, user] = words else {
        return Err(WordError::Refused);
    };
    let domain = name_of(alloc, domain)?;
    adding(alloc, domain, group, user)
}

fn names(alloc: Global, words: &[String]) -> Result<Command, WordError>
    ensures found { IfOk result (λ command. names_form (map string_bytes words.now) ≡ Some command) }
    ensures refused { result ≡ Err Refused → names_form (map string_bytes words.now) ≡ None }
    ensures fit { IfOk result IsFitCommand }
{
    if words.is_empty() {
        return Err(WordError::Refused);
    }
    let names = names_of(alloc, MOST_TRANSLATED_NAMES, words)?;
    Ok(Command::AtPolicy(Query::Names(names)))
}

fn sids(alloc: Global, words: &[String]) -> Result<Command, WordError>
    ensures found { IfOk result (λ command. sids_form (map string_bytes words.now) ≡ Some command) }
    ensures refused { result ≡ Err Refused → sids_form (map string_bytes words.now) ≡ None }
    ensures fit { IfOk result IsFitCommand }
{
    if words.is_empty() {
        return Err(WordError::Refused);
    }
    Ok(Command::AtPolicy(Query::Sids(sids_of(alloc, words)?)))
}

fn rights(words: &[String]) -> Result<Command, WordError>
    ensures found { IfOk result (λ command. rights_form (map string_bytes words.now) ≡ Some command) }
    ensures refused { result ≡ Err Refused → rights_form (map string_bytes words.now) ≡ None }
    ensures fit { IfOk result IsFitCommand }
{
    let [sid] = words else {
        return Err(WordError::Refused);
    };
    Ok(Command::AtPolicy(Query::Rights(sid_of(sid)?)))
}

/// The command that gives the account of a word the rights of words.
fn granting(alloc: Global, sid: &str, rights: &[String]) -> Result<Command, WordError>
    ensures found { IfOk result (λ command.
        granting (sid_of_text sid.now) (names_of most_rights (map string_bytes rights.now)) ≡ Some command) }
    ensures refused { result ≡ Err Refused →
        granting (sid_of_text sid.now) (names_of most_rights (map string_bytes rights.now)) ≡ None }
    ensures fit { IfOk result IsFitCommand }
{
    let sid = sid_of(sid)?;
    let rights = names_of(alloc, MOST_RIGHTS, rights)?;
    Ok(Command::AtPolicy(Query::Grant { sid, rights }))
}

fn grant(alloc: Global, words: &[String]) -> Result<Command, WordError>
    ensures found { IfOk result (λ command. grant_form (map string_bytes words.now) ≡ Some command) }
    ensures refused { result ≡ Err Refused → grant_form (map string_bytes words.now) ≡ None }
    ensures fit { IfOk result IsFitCommand }
{
    let [sid, rights @ ..] = words else {
        return Err(WordError::Refused);
    };
    if rights.is_empty() {
        return Err(WordError::Refused);
    }
    granting(alloc, sid, rights)
}

#[tactic(auto, unfolding(crate::specs::Words::verb_form))]
fn verb(alloc: Global, verb: &str, words: &[String]) -> Result<Command, WordError>
    ensures found { IfOk result (λ command. verb_form verb.now (map string_bytes words.now) ≡ Some command) }
    ensures refused { result ≡ Err Refused → verb_form verb.now (map string_bytes words.now) ≡ None }
    ensures fit { IfOk result IsFitCommand }
{
    match verb {
        "domains" => domains(words),
        "users" => users(alloc, words),
        "create-user" => create_user(alloc, words),
        "delete-user" => delete_user(alloc, words),
        "members" => members(alloc, words),
        "add-member" => add_member(alloc, words),
        "names" => names(alloc, words),
        "sids" => sids(alloc, words),
        "rights" => rights(words),
        "grant" => grant(alloc, words),
        _ => Err(WordError::Refused),
    }
}

fn domains(words: &[String]) -> Result<Command, WordError>
    ensures found { IfOk result (λ command. domains_form (map string_bytes words.now) ≡ Some command) }
    ensures refused { result ≡ Err Refused → domains_form (map string_bytes words.now) ≡ None }
    ensures fit { IfOk result IsFitCommand }
{
    if words.is_empty() {
        Ok(Command::Domains)
    } else {
        Err(WordError::Refused)
    }
}

/// The command that some words are. They are refused exactly off the table, unless there is no memory.
pub fn command_of(alloc: Global, words: &[String]) -> Result<Command, WordError>
    ensures found { IfOk result (λ command. command_of (map string_bytes words.now) ≡ Some command) }
    ensures refused { result ≡ Err Refused → command_of (map string_bytes words.now) ≡ None }
    ensures fit { IfOk result IsFitCommand }
{
    let [first, words @ ..] = words else {
        return Err(WordError::Refused);
    };
    verb(alloc, first, words)
}
