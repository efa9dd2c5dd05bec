// The handles as they came, and the orders by which they are found.
ghost use Rattle.std.specs.Prelude.{◌≡◌, ◌==◌, not};
ghost use Rattle.acct_tables.specs.Keys.{same_object};
ghost use Rattle.acct_tables.specs.Keyed.{compare};
ghost use Rattle.acct_machine.specs.State.{number_of};
ghost use Rattle.acct_machine.specs.steps.Arrivals.{number_key, number_front, rank_of, sid_part, object_order};
ghost use Rattle.acct_machine.specs.steps.Arrivals.{object_key, object_front};

use crate::lists::number_of;
use crate::{Held, Object};
use acct_tables::{Fronts, Order, Test};
use std::cmp::Ordering;

/// A handle, with its turn among all that came.
#[derive(Clone, Copy, Debug, PartialEq, Eq)]
pub struct Arrival {
    pub held: Held,
    pub turn: u64,
}

/// The handles of a connection, or those of them that have a number.
#[derive(Clone, Copy, Debug, PartialEq, Eq)]
pub enum Numbered {
    Conn(u32),
    Handle(u32, u128),
}

/// By connection and number.
#[derive(Clone, Copy, Debug)]
pub struct ByNumber;

/// By object, and then by connection and number.
#[derive(Clone, Copy, Debug)]
pub struct ByObject;

fn number(arrival: &Arrival) -> u128
    ensures { result ≡ number_of arrival.now.held.conn arrival.now.held.serial }
{
    number_of(arrival.held.conn, arrival.held.serial)
}

impl Order<Arrival> for ByNumber {
    ghost key_of = { number_key };

    fn order(left: &Arrival, right: &Arrival) -> Ordering {
        let conns = left.held.conn.cmp(&right.held.conn);
        let numbers = number(left).cmp(&number(right));
        let turns = left.turn.cmp(&right.turn);
        conns.then(numbers.then(turns))
    }
}

impl Fronts<Arrival> for ByNumber {
    type Front = Numbered;

    ghost front_of = { number_front };

    fn order_front(value: &Arrival, front: &Numbered) -> Ordering {
        match front {
            Numbered::Conn(conn) => value.held.conn.cmp(conn),
            Numbered::Handle(conn, wanted) => {
                value.held.conn.cmp(conn).then(number(value).cmp(wanted))
            }
        }
    }
}

fn rank(object: &Object) -> u8
    ensures { result ≡ rank_of object.now }
{
    match object {
        Object::Server => 0,
        Object::Domain(_) => 1,
        Object::Group(_) => 2,
        Object::Alias(_, _) => 3,
        Object::User(_) => 4,
        Object::Policy => 5,
        Object::Account(_) => 6,
    }
}

fn order_sids(left: &Object, right: &Object) -> Ordering
    ensures { result ≡ compare (sid_part left.now) (sid_part right.now) }
{
    match left {
        Object::Account(sid) => match right {
            Object::Account(other) => sid.cmp(other),
            _ => Ordering::Greater,
        },
        _ => match right {
            Object::Account(_) => Ordering::Less,
            _ => Ordering::Equal,
        },
    }
}

fn order_objects(left: &Object, right: &Object) -> Ordering
    ensures { result ≡ object_order left.now right.now }
{
    let kinds = rank(left).cmp(&rank(right));
    let domains = left.domain().cmp(&right.domain());
    let rids = left.rid().cmp(&right.rid());
    let sids = order_sids(left, right);
    kinds.then(domains.then(rids.then(sids)))
}

impl Order<Arrival> for ByObject {
    ghost key_of = { object_key };

    fn order(left: &Arrival, right: &Arrival) -> Ordering {
        order_objects(&left.held.object, &right.held.object).then(ByNumber::order(left, right))
    }
}

impl Fronts<Arrival> for ByObject {
    type Front = Object;

    ghost front_of = { object_front };

    fn order_front(value: &Arrival, front: &Object) -> Ordering {
        order_objects(&value.held.object, front)
    }
}

/// Whether a handle isn't of a connection.
#[derive(Clone, Copy, Debug)]
pub struct OfOthers {
    pub conn: u32,
}

impl Test<Arrival> for OfOthers {
    ghost passes = { λ test arrival. not (arrival.held.conn == test.conn) };

    fn passes(&self, arrival: &Arrival) -> bool {
        arrival.held.conn != self.conn
    }
}

/// Whether a handle isn't to an object.
#[derive(Clone, Copy, Debug)]
pub struct ToOthers {
    pub object: Object,
}

impl Test<Arrival> for ToOthers {
    ghost passes = { λ test arrival. not (same_object arrival.held.object test.object) };

    fn passes(&self, arrival: &Arrival) -> bool {
        !arrival.held.object.same(self.object)
    }
}
