// The usage text, whole.
use account_words::usage;
use std::test::Fail;

const USAGE: &str = "\
An account server for the Windows account database, as its RPC interfaces show it.

Usage: account replay CONFIG
       account serve CONFIG STORE
       account hooks CONFIG STORE
       account call ADDRESS WORD..
       account audit CONFIG
       account gen N

Commands:
  replay  Answer the events of the standard input under the configuration in a file
  serve   Listen under the configuration in a file, with the accounts in a store, and answer clients
  hooks   Run the program of the configuration for each change of an account that waits in a store
  call    Ask the server at an address, tcp:HOST:PORT or unix:PATH, and print its answer
  audit   Replay such events, and tell of each call that was let pass which opening gave its handle
  gen     Make N users, from 1 to 10000, by a replay, and print the counts of what is there

Words of call:
  domains                       the names of the domains
  users DOMAIN                  RID and name of each user
  create-user DOMAIN NAME       a new user's RID
  delete-user DOMAIN NAME       the RID of the user that is gone
  members DOMAIN GROUP          RID and attributes of each member
  add-member DOMAIN GROUP USER  the RID of the new member
  names NAME..                  each name with its use, RID and domain's index
  sids SID..                    each SID with its use, name and domain's index
  rights SID                    the rights of an account
  grant SID RIGHT..             gives rights to an account

Examples:
  account replay examples/first.toml < examples/first.events
  account serve examples/first.toml accounts.db
  account call tcp:127.0.0.1:4045 users CORP
  account audit examples/first.toml < examples/first.events
  account gen 100
";

#[test]
fn the_text_names_each_command(rt: HostRuntime) -> Result<(), Fail> {
    let text = usage(rt.alloc())?;
    assert_eq!(rt; text.as_str(), USAGE);
    Ok(())
}
