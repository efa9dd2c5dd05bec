// The program's commands, over a world.
ghost use Rattle.std.specs.Prelude.{◌≡◌, ◌≢◌, ◌≤◌, Some, None, length, map, true, MatchResult};
ghost use Rattle.std.specs.String.{string_bytes};
ghost use Rattle.acct_commands.specs.Generated.{most_users};
ghost use Rattle.acct_client.specs.Talks.{IsBegun};
ghost use Rattle.client_commands.specs.declared.command.Command.{Command};
ghost use Rattle.acct_server.specs.declared.status.Status.TheVariants.{Usage};
ghost use Rattle.acct_commands.specs.Words.{Form, Calling, form_of, is_call_form, call_form};
ghost use Rattle.acct_commands.specs.Commanded.{Commanded, NotHandedOut, TakesParts, Returned, standard_input, wanted};
ghost use Rattle.acct_commands.specs.Commanded.{auditing, replaying};
ghost use Rattle.acct_commands.specs.Calling.{Calls};
ghost use Rattle.acct_commands.specs.Generates.{Generates};
ghost use Rattle.acct_commands.specs.Does.{Does, IsFormless};

use crate::auditing::{Audited, audit};
use crate::forms::{
    after_two, audit_name, gen_users, hooks_names, is_call_form, replay_name, serve_names,
};
use crate::generating::{Generation, generate};
use crate::hooking::run_outbox;
use crate::keeping::keep;
use crate::period::{parted, period_between};
use crate::serving::run_serve;
use crate::statuses::{link_status, read_status, store_status, talk_status, write_status};
use acct_base::Seq;
use acct_client::{AskError, Asker, Called, call, dialogues_come_to_their_ends};
use acct_links::{Door, Entrance};
use acct_server::{Status, replay};
use acct_world::World;
use std::alloc::Global;
use std::sync::Wait;
use std::thread::Threads;

// The parts of a replay or of an audit: the configuration, the standard input, the sink and the keeper with the empty
// name, taken in this order. Where one isn't handed out, those before it are given back.
fn take_parts<W: World>(name: &str, world: &mut W) -> Result<(W::S, W::S, W::T, W::K), Status>
    ensures { MatchResult result
        (λ parts. TakesParts W.K.held name.now (W.seen world.old) (W.seen world.new)
        (record { config = parts.0; events = parts.1; out = parts.2; keeper = parts.3 }))
        (λ status. NotHandedOut (wanted name.now) (W.seen world.old) (W.seen world.new) status) }
{
    let config = match world.take_source(name) {
        Ok(config) => config,
        Err(e) => return Err(read_status(e)),
    };
    let events = match world.take_source("-") {
        Ok(events) => events,
        Err(e) => {
            world.give_source(name, config);
            return Err(read_status(e));
        }
    };
    let out = match world.take_sink() {
        Ok(out) => out,
        Err(e) => {
            world.give_source("-", events);
            world.give_source(name, config);
            return Err(write_status(e));
        }
    };
    let keeper = match world.take_keeper("") {
        Ok(keeper) => keeper,
        Err(e) => {
            world.give_sink(out);
            world.give_source("-", events);
            world.give_source(name, config);
            return Err(store_status(e));
        }
    };
    Ok((config, events, out, keeper))
}

// Runs a replay over parts that were handed out, leaves its period to the world, and gives the parts back.
fn run_parts<W: World>(
    alloc: Global,
    name: &str,
    world: &mut W,
    mut config: W::S,
    mut events: W::S,
    mut out: W::T,
    keeper: W::K,
) -> Status
    requires { name.now ≢ standard_input }
    ensures { Returned (replaying (record {
      left = W.S.left;
      read_faults = W.S.faults;
      held = W.T.held;
      write_faults = W.T.faults;
      pairs = W.K.held;
      store_faults = W.K.faults;
    })) name.now (record { config = config; events = events; out = out; keeper = keeper }) (W.seen world.old)
        (W.seen world.new) result }
{
    let left = replay(alloc, &mut config, &mut events, &mut out, keeper);
    let (ended, period, keeper) = parted(alloc, left);
    let status = keep(world, period, ended);
    world.give_keeper("", keeper);
    world.give_sink(out);
    world.give_source("-", events);
    world.give_source(name, config);
    status
}

// The command `replay`.
fn run_replay<W: World>(alloc: Global, name: &str, world: &mut W) -> Status
    requires { name.now ≢ standard_input }
    ensures commanded { Commanded (replaying (record {
      left = W.S.left;
      read_faults = W.S.faults;
      held = W.T.held;
      write_faults = W.T.faults;
      pairs = W.K.held;
      store_faults = W.K.faults;
    })) name.now (W.seen world.old) (W.seen world.new) result }
    ensures not_usage { result ≢ Usage }
{
    match take_parts(name, world) {
        Ok((config, events, out, keeper)) => {
            run_parts(alloc, name, world, config, events, out, keeper)
        }
        Err(status) => status,
    }
}

// Runs an audit over such parts, leaves its period to the world, and gives the parts back.
fn run_audit_parts<W: World>(
    alloc: Global,
    name: &str,
    world: &mut W,
    mut config: W::S,
    mut events: W::S,
    mut out: W::T,
    keeper: W::K,
) -> Status
    requires { name.now ≢ standard_input }
    ensures { Returned (auditing (record {
      left = W.S.left;
      read_faults = W.S.faults;
      held = W.T.held;
      write_faults = W.T.faults;
      pairs = W.K.held;
      store_faults = W.K.faults;
    })) name.now (record { config = config; events = events; out = out; keeper = keeper }) (W.seen world.old)
        (W.seen world.new) result }
{
    let Audited {
        ended,
        opening,
        history,
        rows,
        keeper,
    } = audit(alloc, &mut config, &mut events, &mut out, keeper);
    let period = period_between(opening, history, rows, Seq::new(alloc));
    let status = keep(world, period, ended);
    world.give_keeper("", keeper);
    world.give_sink(out);
    world.give_source("-", events);
    world.give_source(name, config);
    status
}

// The command `audit`.
fn run_audit<W: World>(alloc: Global, name: &str, world: &mut W) -> Status
    requires { name.now ≢ standard_input }
    ensures commanded { Commanded (auditing (record {
      left = W.S.left;
      read_faults = W.S.faults;
      held = W.T.held;
      write_faults = W.T.faults;
      pairs = W.K.held;
      store_faults = W.K.faults;
    })) name.now (W.seen world.old) (W.seen world.new) result }
    ensures not_usage { result ≢ Usage }
{
    match take_parts(name, world) {
        Ok((config, events, out, keeper)) => {
            run_audit_parts(alloc, name, world, config, events, out, keeper)
        }
        Err(status) => status,
    }
}

// The command `gen`: it takes the sink alone.
fn run_generator<W: World>(alloc: Global, users: u32, world: &mut W) -> Status
    requires { users ≤ most_users }
    ensures generated { Generates W.T.held W.T.faults users (W.seen world.old) (W.seen world.new) result }
    ensures not_usage { result ≢ Usage }
{
    let mut out = match world.take_sink() {
        Ok(out) => out,
        Err(e) => return write_status(e),
    };
    let Generation {
        ended,
        opening,
        history,
        rows,
    } = generate(alloc, users, &mut out);
    let period = period_between(opening, history, rows, Seq::new(alloc));
    let status = keep(world, period, ended);
    world.give_sink(out);
    status
}

// The command `call`: it takes the caller and the sink, in this order, and asks the caller for one link, to the
// address.
fn run_call<W: World>(alloc: Global, asker: Asker, address: &str, world: &mut W) -> Status
    requires { (command : Command) × IsBegun command asker }
    ensures calls { (command : Command) → IsBegun command asker → Calls (record {
      sunk = λ out. record { held = W.T.held out; faults = W.T.faults out };
      called = W.C.called;
      call_faults = W.C.faults;
      link = W.C.L.told;
    }) (record { address = address.now; command = command }) (W.seen world.old) (W.seen world.new) result }
    ensures not_usage { result ≢ Usage }
{
    let mut caller = match world.take_caller() {
        Ok(caller) => caller,
        Err(e) => {
            drop(asker);
            return link_status(e);
        }
    };
    let mut out = match world.take_sink() {
        Ok(out) => out,
        Err(e) => {
            drop(asker);
            world.give_caller(caller, None);
            return write_status(e);
        }
    };
    let Called {
        end,
        printing,
        link,
    } = call(alloc, asker, address, &mut caller, &mut out);
    world.give_sink(out);
    world.give_caller(caller, link);
    dialogues_come_to_their_ends();
    talk_status(end, printing)
}

// The command `call`, where the words may be one: it reads which command of the client they are before any part is
// taken.
fn run_client<W: World>(alloc: Global, words: &Vec<String>, world: &mut W) -> Status
    requires call { is_call_form (map string_bytes words.now.items) ≡ true }
    requires some { 3 ≤ length words.now.items }
    ensures calls { (calling : Calling) → call_form (map string_bytes words.now.items) ≡ Some calling →
        Calls (record {
          sunk = λ out. record { held = W.T.held out; faults = W.T.faults out };
          called = W.C.called;
          call_faults = W.C.faults;
          link = W.C.L.told;
        }) calling (W.seen world.old) (W.seen world.new) result }
    ensures usage { result ≡ Usage → call_form (map string_bytes words.now.items) ≡ None }
    ensures none { call_form (map string_bytes words.now.items) ≡ None →
        IsFormless (map string_bytes words.now.items) result }
    ensures untouched { call_form (map string_bytes words.now.items) ≡ None → world.new ≡ world.old }
{
    match Asker::new(alloc, after_two(words)) {
        Ok(asker) => run_call(alloc, asker, words[1].as_str(), world),
        Err(AskError::Usage) => Status::Usage,
        Err(_) => Status::NoMemory,
    }
}

/// Does all that the program does. The words are `replay CONFIG`; or `audit CONFIG` for a line for each call of such a
/// replay whose handle was let pass; or `gen N` for the summary of a replay of events that make N users, 1 to 10,000;
/// or `serve CONFIG STORE` for a server, which may wait for its clients; or `hooks CONFIG STORE` to run the hook for
/// the changes in a store; or `call ADDRESS WORD..` for a command of the client. Other words take no part of the world,
/// and are answered by usage; or, where they may be a command of the client, that memory ran out.
pub fn account<R: Threads + Wait + Sync, W: World>(
    rt: &R,
    alloc: Global,
    words: &Vec<String>,
    world: &mut W,
) -> Status
where
    <W::E as Entrance>::D: Drop + Send,
    <<W::E as Entrance>::D as Door>::L: Send,
    ensures usage { result ≡ Usage → form_of (map string_bytes words.now.items) ≡ None }
    ensures formless { form_of (map string_bytes words.now.items) ≡ None →
        IsFormless (map string_bytes words.now.items) result }
    ensures untouched { form_of (map string_bytes words.now.items) ≡ None → world.new ≡ world.old }
    ensures commanded { (form : Form) → form_of (map string_bytes words.now.items) ≡ Some form →
        Does (record {
          replay = record {
            left = W.S.left;
            read_faults = W.S.faults;
            held = W.T.held;
            write_faults = W.T.faults;
            pairs = W.K.held;
            store_faults = W.K.faults;
          };
          serve = record {
            left = W.S.left;
            read_faults = W.S.faults;
            asked = W.E.asked;
            entrance_faults = W.E.faults;
            served = record {
              serving = record { door = W.E.D.Door; told = W.E.D.L.told; pairs = W.K.held; faults = W.K.faults };
              spawner = W.P.Spawner;
            };
          };
          call = record {
            sunk = λ out. record { held = W.T.held out; faults = W.T.faults out };
            called = W.C.called;
            call_faults = W.C.faults;
            link = W.C.L.told;
          };
          hooks = record {
            left = W.S.left;
            read_faults = W.S.faults;
            hooks = record { pairs = W.K.held; faults = W.K.faults; runs = W.P.runs; failed = W.P.failed };
          };
        }) form (W.seen world.old) (W.seen world.new) result }
{
    if let Some(name) = replay_name(words) {
        return run_replay(alloc, name, world);
    }
    if let Some(name) = audit_name(words) {
        return run_audit(alloc, name, world);
    }
    if let Some(users) = gen_users(words) {
        return run_generator(alloc, users, world);
    }
    if let Some((config, store)) = serve_names(words) {
        return run_serve(rt, alloc, config, store, world);
    }
    if let Some((config, store)) = hooks_names(words) {
        return run_outbox(alloc, config, store, world);
    }
    if is_call_form(words) {
        return run_client(alloc, words, world);
    }
    Status::Usage
}
