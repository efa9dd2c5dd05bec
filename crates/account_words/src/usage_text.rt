// The usage text of the program: the forms of its words, what each command does, and examples, rendered by `clap`. No
// contract speaks of the text: a test has it whole.
use clap::Command;
use std::alloc::{AllocError, Global};

const ABOUT: &str =
    "An account server for the Windows account database, as its RPC interfaces show it.";

const FORMS: &str = "account replay CONFIG
       account serve CONFIG STORE
       account hooks CONFIG STORE
       account call ADDRESS WORD..
       account audit CONFIG
       account gen N";

const REPLAY: &str = "Answer the events of the standard input under the configuration in a file";

const SERVE: &str =
    "Listen under the configuration in a file, with the accounts in a store, and answer clients";

const HOOKS: &str =
    "Run the program of the configuration for each change of an account that waits in a store";

const CALL: &str = "Ask the server at an address, tcp:HOST:PORT or unix:PATH, and print its answer";

const AUDIT: &str =
    "Replay such events, and tell of each call that was let pass which opening gave its handle";

const GENERATE: &str =
    "Make N users, from 1 to 10000, by a replay, and print the counts of what is there";

const MORE: &str = "Words of call:
  domains                       the names of the domains
  users DOMAIN                  RID and name of each user
  create-user DOMAIN NAME       a new user's RID
  delete-user DOMAIN NAME       the RID of the user that is gone
  members DOMAIN GROUP          RID and attributes of each member
  add-member DOMAIN GROUP USER  the RID of the new member
  names NAME..                  each name with its use, RID and domain's index
  sids SID..                    each SID with its use, name and domain's index
  rights SID                    the rights of an account
  grant SID RIGHT..             gives rights to an account

Examples:
  account replay examples/first.toml < examples/first.events
  account serve examples/first.toml accounts.db
  account call tcp:127.0.0.1:4045 users CORP
  account audit examples/first.toml < examples/first.events
  account gen 100";

/// Running out of memory, which is the only fault here.
pub type NoMemory = AllocError;

fn named<'a>(alloc: Global, name: &'a str, about: &'a str) -> Command<'a> {
    Command::new(alloc, name).about(about)
}

fn account<'a>(alloc: Global) -> Result<Command<'a>, NoMemory> {
    Ok(
        named(alloc, "account", ABOUT)
            .override_usage(FORMS)
            .subcommand(named(alloc, "replay", REPLAY))?
            .subcommand(named(alloc, "serve", SERVE))?
            .subcommand(named(alloc, "hooks", HOOKS))?
            .subcommand(named(alloc, "call", CALL))?
            .subcommand(named(alloc, "audit", AUDIT))?
            .subcommand(named(alloc, "gen", GENERATE))?
            .disable_help_flag(true)
            .disable_help_subcommand(true)
            .arg_required_else_help(true)
            .after_help(MORE),
    )
}

/// The usage text, as it is printed where there are no words.
pub fn usage(alloc: Global) -> Result<String, NoMemory> {
    match account(alloc)?.try_get_matches_from(&["account"]) {
        Ok(_) => Ok(String::new(alloc)),
        Err(shown) => format!(in alloc; "{shown}"),
    }
}
