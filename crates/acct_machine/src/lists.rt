// The list of connections, and the numbers of handles.
ghost use Rattle.std.specs.Prelude.{◌≡◌, ◌+◌, ◌*◌, map};
ghost use Rattle.std.specs.Vec.{vec_capacity};
ghost use Rattle.acct_machine.specs.State.{find_conn, serial_of, number_of};
ghost use Rattle.acct_machine.specs.Step.{serial_set, live_ended};
ghost use Rattle.acct_machine.specs.Sound.{IsNumberedFrom};

use crate::Conn;

/// The connection of a number. They are numbered from 1, so that it stands at the place before.
pub fn find_conn(conns: &[Conn], conn: u32) -> Option<Conn>
    requires { IsNumberedFrom 1 conns.now }
    ensures { result ≡ find_conn conn conns.now }
{
    let number = conn as usize;
    if number == 0 {
        return None;
    }
    if number > conns.len() {
        return None;
    }
    Some(conns[number - 1])
}

/// The serial of the last handle that a connection was given.
pub fn serial_of(found: Option<Conn>) -> u64
    ensures { result ≡ serial_of found }
{
    match found {
        Some(c) => c.serial,
        None => 0,
    }
}

fn with_serial(c: &Conn, conn: u32, serial: u64) -> Conn
    ensures { result ≡ serial_set conn serial c.now }
{
    if c.number == conn {
        Conn { serial, ..*c }
    } else {
        *c
    }
}

fn with_end(c: &Conn, conn: u32) -> Conn
    ensures { result ≡ live_ended conn c.now }
{
    if c.number == conn {
        Conn { live: false, ..*c }
    } else {
        *c
    }
}

/// Gives a connection its next serial.
pub fn set_serial(conns: &mut Vec<Conn>, conn: u32, serial: u64)
    requires { IsNumberedFrom 1 conns.old.items }
    ensures items { conns.new.items ≡ map (serial_set conn serial) conns.old.items }
    ensures capacity { vec_capacity conns.new ≡ vec_capacity conns.old }
{
    let number = conn as usize;
    if number == 0 {
        return;
    }
    if number > conns.len() {
        return;
    }
    conns[number - 1] = with_serial(&conns[number - 1], conn, serial);
}

/// Ends a connection.
pub fn end_live(conns: &mut Vec<Conn>, conn: u32)
    requires { IsNumberedFrom 1 conns.old.items }
    ensures items { conns.new.items ≡ map (live_ended conn) conns.old.items }
    ensures capacity { vec_capacity conns.new ≡ vec_capacity conns.old }
{
    let number = conn as usize;
    if number == 0 {
        return;
    }
    if number > conns.len() {
        return;
    }
    conns[number - 1] = with_end(&conns[number - 1], conn);
}

/// The number of a handle.
pub fn number_of(conn: u32, serial: u64) -> u128
    ensures { result ≡ number_of conn serial }
{
    conn as u128 * (1u128 << 64) + serial as u128
}
