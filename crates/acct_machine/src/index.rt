// The handles: found by connection and number, and by object.
ghost use Rattle.std.specs.Prelude.{◌≡◌, ◌==◌, ◌<◌, ◌≤◌, ◌+◌, [], ◌∷◌, ◌++◌, not, OnOk, OnErr};
ghost use Rattle.std.specs.List.{filter};
ghost use Rattle.std.specs.Option.{option_copied};
ghost use Rattle.acct_tables.specs.Keyed.{sorted};
ghost use Rattle.acct_tables.specs.Keys.{same_object};
ghost use Rattle.acct_machine.specs.steps.Arrivals.{object_key};
ghost use Rattle.acct_machine.specs.State.{find_handle, without_handle, without_conn, without_object};

use crate::arrivals::{Arrival, ByNumber, ByObject, Numbered, OfOthers, ToOthers};
use crate::{Held, NoMemory, Object};
use acct_tables::Table;
use std::alloc::{AllocError, Global};
use std::marker::Model;

/// The handles by connection and number, and by object, with room for more. A contract sees the list of the handles in
/// the order in which they came, and for how many more there is room.
#[derive(Drop)]
pub struct Handles {
    numbers: Table<Arrival, ByNumber>,
    objects: Table<Arrival, ByObject>,
    next: u64,
    spare: usize,
}

impl Model for Handles {
    ghost use Rattle.std.specs.Prelude.{ℕ, List};
    ghost use Rattle.acct_machine.specs.declared.state.Held.{Held};
    ghost use Rattle.acct_machine.specs.steps.Indexed.{arrived, AreIndexed};

    ghost Value = { List Held × ℕ };

    ghost view = { λ h. (arrived h.numbers.0, h.spare) };

    ghost invariant = { λ h. AreIndexed h.numbers.0 h.objects.0 h.next h.spare h.numbers.1 h.objects.1 };
}

/// Where more handles go at once, one walk takes them from the other index; where fewer do, each is looked up.
const FEW: usize = 4;

// Takes the handles of a connection from the index by object.
fn leave_conn(objects: &mut Table<Arrival, ByObject>, numbers: &Table<Arrival, ByNumber>, conn: u32)
    requires { objects.old.0 ≡ sorted object_key numbers.now.0 }
    ensures others { objects.new.0 ≡ filter (λ a. not (a.held.conn == conn)) objects.old.0 }
    ensures room { objects.old.1 ≤ objects.new.1 }
{
    let _numbers = numbers.as_slice();
    let gone = numbers.within(&Numbered::Conn(conn));
    if gone.len() > FEW {
        objects.keep(&OfOthers { conn });
        return;
    }
    objects.remove_all(gone);
}

// Takes the handles to an object from the index by number.
fn leave_object(
    numbers: &mut Table<Arrival, ByNumber>,
    objects: &Table<Arrival, ByObject>,
    object: &Object,
)
    requires { objects.now.0 ≡ sorted object_key numbers.old.0 }
    ensures others { numbers.new.0 ≡ filter (λ a. not (same_object a.held.object object.now)) numbers.old.0 }
    ensures room { numbers.old.1 ≤ numbers.new.1 }
{
    let _numbers = numbers.as_slice();
    let gone = objects.within(object);
    if gone.len() > FEW {
        numbers.keep(&ToOthers { object: *object });
        return;
    }
    numbers.remove_all(gone);
}

impl Handles {
    /// No handle, which takes no memory.
    pub fn new(alloc: Global) -> Handles
        ensures { result ≡ ([], 0) }
    {
        Handles {
            numbers: Table::new(alloc),
            objects: Table::new(alloc),
            next: 0,
            spare: 0,
        }
    }

    /// The handle of a connection with a number.
    pub fn find(&self, conn: u32, number: u128) -> Option<&Held>
        ensures { option_copied result ≡ find_handle conn number self.now.0 }
    {
        let _numbers = self.numbers.as_slice();
        match self.numbers.find(&Numbered::Handle(conn, number)) {
            Some(arrival) => Some(&arrival.held),
            None => None,
        }
    }

    /// Makes room for more handles. Memory may run out only where there is less room than that; there is none past 2^64
    /// that came.
    pub fn reserve(&mut self, more: usize) -> Result<(), NoMemory>
        ensures handles { self.new.0 ≡ self.old.0 }
        ensures ok { OnOk result (more ≤ self.new.1) }
        ensures wants { OnErr result (self.old.1 < more) }
        ensures kept { self.old.1 ≤ self.new.1 }
    {
        if self.spare < more {
            if more as u64 >= u64::MAX - self.next {
                return Err(AllocError);
            }
            self.numbers.reserve(more)?;
            self.objects.reserve(more)?;
            self.spare = more;
        }
        Ok(())
    }

    /// Adds a handle. It takes no memory.
    pub fn push(&mut self, held: Held)
        requires { 0 < self.old.1 }
        ensures handles { self.new.0 ≡ self.old.0 ++ held ∷ [] }
        ensures room { self.old.1 ≡ self.new.1 + 1 }
    {
        let _numbers = self.numbers.as_slice();
        let arrival = &Arrival {
            held,
            turn: self.next,
        };
        self.numbers.put(*arrival);
        self.objects.put(*arrival);
        self.next += 1;
        self.spare -= 1;
    }

    /// Drops the handle of a connection with a number.
    pub fn drop_handle(&mut self, conn: u32, number: u128)
        ensures handles { self.new.0 ≡ without_handle conn number self.old.0 }
        ensures room { self.new.1 ≡ self.old.1 }
    {
        let front = &Numbered::Handle(conn, number);
        let _numbers = self.numbers.as_slice();
        self.objects.remove_all(self.numbers.within(front));
        self.numbers.remove_within(front);
    }

    /// Drops the handles of a connection.
    pub fn drop_conn(&mut self, conn: u32)
        ensures handles { self.new.0 ≡ without_conn conn self.old.0 }
        ensures room { self.new.1 ≡ self.old.1 }
    {
        let _numbers = self.numbers.as_slice();
        leave_conn(&mut self.objects, &self.numbers, conn);
        self.numbers.remove_within(&Numbered::Conn(conn));
    }

    /// Drops every handle to an object.
    pub fn drop_object(&mut self, object: Object)
        ensures handles { self.new.0 ≡ without_object object self.old.0 }
        ensures room { self.new.1 ≡ self.old.1 }
    {
        let object = &object;
        let _numbers = self.numbers.as_slice();
        leave_object(&mut self.numbers, &self.objects, object);
        self.objects.remove_within(object);
    }
}
