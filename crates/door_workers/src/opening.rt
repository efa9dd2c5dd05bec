// An entrance is asked for the doors of all listeners.
ghost use Rattle.std.specs.Prelude.{◌≡◌, ◌+◌, ◌≤◌, ◌<◌, ℕ, [], ◌∷◌, ◌++◌, All, IfErr, IfSome, OnOk, false, length};
ghost use Rattle.std.specs.Prelude.{replicate, map, slice_index_or, vec_len};
ghost use Rattle.acct_config.specs.Spelled.{IsRightConfig};
ghost use Rattle.acct_keeper.specs.Faults.{KeepCause, faults_after};
ghost use Rattle.acct_keeper.specs.Memory.{is_fault};
ghost use Rattle.door_workers.specs.Doors.{asking_of, asked_besides, OpensDoors, StopsAsking};

use acct_config::{Config, Listener};
use acct_keeper::KeepError;
use acct_links::Entrance;

// Asks for the doors of one listener, and puts them after those that are there.
fn ask<E: Entrance>(
    entrance: &mut E,
    number: u32,
    listener: &Listener,
    doors: &mut Vec<E::D>,
) -> Result<(), KeepError>
where
    E::D: Drop,
    ensures asked { OnOk result (E.asked entrance.new
        ≡ asked_besides (asking_of number listener.now ∷ []) (E.asked entrance.old)) }
    ensures unasked { IfErr result (λ _. E.asked entrance.new ≡ E.asked entrance.old) }
    ensures count { OnOk result (vec_len doors.new ≡ vec_len doors.old + listener.now.workers) }
    ensures within { (most : ℕ) → number < most → All (λ d. E.D.listener d < most) doors.old.items
        → All (λ d. E.D.listener d < most) doors.new.items }
    ensures listeners { OnOk result (map E.D.listener doors.new.items
        ≡ map E.D.listener doors.old.items ++ replicate listener.now.workers number) }
    ensures open { All (λ d. E.D.closed d ≡ false) doors.old.items → All (λ d. E.D.closed d ≡ false) doors.new.items }
    ensures unused { All (λ d. IfSome (E.D.finished d) (λ links. links ≡ [])) doors.old.items
        → All (λ d. IfSome (E.D.finished d) (λ links. links ≡ [])) doors.new.items }
    ensures kept { IfErr result (λ _. doors.new.items ≡ doors.old.items) }
    ensures cause { IfErr result (KeepCause (E.faults entrance.old) (E.faults entrance.new)) }
    ensures later { E.faults entrance.old ≤ E.faults entrance.new }
    ensures faults { E.faults entrance.new ≡ faults_after (is_fault result) (E.faults entrance.old) }
{
    doors.reserve(listener.workers as usize)?;
    let mut given = entrance.doors(
        number,
        listener.address.as_str(),
        listener.workers,
        listener.links,
    )?;
    // there is room for them, so that this doesn't fail
    doors.append(&mut given)?;
    Ok(())
}

/// Asks an entrance for the doors of each listener of a configuration, in order, until an asking fails. The doors that
/// it gave are then there, in the order of the askings, also where one failed.
pub fn open_doors<E: Entrance>(
    config: &Config,
    entrance: &mut E,
    doors: &mut Vec<E::D>,
) -> Result<(), KeepError>
where
    E::D: Drop,
    requires right { IsRightConfig config.now }
    requires none { doors.old.items ≡ [] }
    ensures ok { OnOk result (OpensDoors E.D.Door config.now (length config.now.listeners) (E.asked entrance.old)
        (E.asked entrance.new) doors.new.items) }
    ensures err { IfErr result (StopsAsking E.D.Door config.now (E.asked entrance.old) (E.asked entrance.new)
        (E.faults entrance.old) (E.faults entrance.new) doors.new.items) }
    ensures few { vec_len doors.new ≤ 1024 }
    ensures configured { (i : ℕ) (d : _) → i < vec_len doors.new
        → E.D.listener (slice_index_or doors.new.items i d) < length config.now.listeners }
    ensures later { E.faults entrance.old ≤ E.faults entrance.new }
    ensures faults { E.faults entrance.new ≡ faults_after (is_fault result) (E.faults entrance.old) }
{
    let mut number = 0u32;
    for listener in config.listeners.as_slice() {
        match ask(entrance, number, listener, doors) {
            Ok(()) => {}
            Err(e) => return Err(e),
        }
        number += 1;
    }
    Ok(())
}
