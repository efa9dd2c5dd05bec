// Tables: values by ascending key.
ghost use Rattle.std.specs.Prelude.{◌≡◌, ◌+◌, ◌-◌, ◌<◌, ◌≤◌, true, [], ◌++◌, not, OnOk, OnErr, MatchResult};
ghost use Rattle.std.specs.Prelude.{length, take, drop, vec_len, vec_capacity};
ghost use Rattle.std.specs.List.{filter, find};
ghost use Rattle.std.specs.List.Sorted.{IsPermutation, IsSortedByKey};
ghost use Rattle.std.specs.Option.{option_copied};
ghost use Rattle.std.specs.Ordering.{is_lt, is_le};
ghost use Rattle.acct_tables.specs.Keyed.{compare, compare_front, at, is_within, put, without, without_all, place};
ghost use Rattle.acct_tables.specs.Keyed.{is_ascending};
ghost use Rattle.acct_tables.specs.steps.Turns.{TurnsAt};

use crate::{Fronts, Order, Test, Whole};
use std::alloc::{AllocError, Global};
use std::marker::{Model, PhantomData};

/// Values by ascending key, with room for more. A contract sees the list of the values, and for how many more there is
/// room.
#[derive(Drop)]
pub struct Table<T: Drop, O: Order<T>> {
    values: Vec<T>,
    order: PhantomData<O>,
}

impl<T: Drop, O: Order<T>> Model for Table<T, O> {
    ghost use Rattle.std.specs.Prelude.{◌≡◌, ◌-◌, ℕ, List, vec_len, vec_capacity, true};
    ghost use Rattle.acct_tables.specs.Keyed.{is_ascending};

    ghost Value = { List T × ℕ };

    ghost view = { λ table. (table.values.items, vec_capacity table.values - vec_len table.values) };

    ghost invariant = { λ table. is_ascending O.key_of table.values.items ≡ true };
}

// Where the key of the value stands among those that ascend, or where it would go.
fn place<T: Drop, O: Order<T>>(values: &[T], value: &T) -> Result<usize, usize>
    requires { is_ascending O.key_of values.now ≡ true }
    ensures found { result ≡ place O.key_of (O.key_of value.now) values.now }
    ensures inside { MatchResult result (λ i. i < length values.now) (λ i. i ≤ length values.now) }
{
    values.binary_search_by(|other| O::order(other, value))
}

/// Where the key stands among values that ascend, or where it would go.
pub fn place_of<T: Drop, O: Whole<T>>(values: &[T], key: &O::Key) -> Result<usize, usize>
    requires { is_ascending O.key_of values.now ≡ true }
    ensures found { result ≡ place O.key_of (O.path key.now) values.now }
    ensures inside { MatchResult result (λ i. i < length values.now) (λ i. i ≤ length values.now) }
{
    values.binary_search_by(|other| O::order_key(other, key))
}

/// The value with that key among values that ascend.
pub fn find_key<'a, T: Drop, O: Whole<T>>(values: &'a [T], key: &O::Key) -> Option<&'a T>
    requires { is_ascending O.key_of values.now ≡ true }
    ensures { option_copied result ≡ at O.key_of (O.path key.now) values.now }
{
    match place_of::<T, O>(values, key) {
        Ok(i) => Some(&values[i]),
        Err(_) => None,
    }
}

// Where the values within the prefix begin, or would.
fn first_within<T: Drop, O: Fronts<T>>(values: &[T], front: &O::Front) -> usize
    requires { is_ascending O.key_of values.now ≡ true }
    ensures inside { result ≤ length values.now }
    ensures turns { TurnsAt (λ x. is_lt (compare_front (O.key_of x) (O.front_of front.now))) values.now result }
{
    values.partition_point(|value| O::order_front(value, front).is_lt())
}

// Where the values within the prefix end, or would.
fn end_within<T: Drop, O: Fronts<T>>(values: &[T], front: &O::Front) -> usize
    requires { is_ascending O.key_of values.now ≡ true }
    ensures inside { result ≤ length values.now }
    ensures turns { TurnsAt (λ x. is_le (compare_front (O.key_of x) (O.front_of front.now))) values.now result }
{
    values.partition_point(|value| O::order_front(value, front).is_le())
}

// Where the values within the prefix begin, and where they end.
fn bounds<T: Drop, O: Fronts<T>>(values: &[T], front: &O::Front) -> (usize, usize)
    requires { is_ascending O.key_of values.now ≡ true }
    ensures order { result.0 ≤ result.1 }
    ensures inside { result.1 ≤ length values.now }
    ensures within { take (result.1 - result.0) (drop result.0 values.now)
        ≡ filter (is_within O.key_of (O.front_of front.now)) values.now }
    ensures others { take result.0 values.now ++ drop result.1 values.now
        ≡ filter (λ x. not (is_within O.key_of (O.front_of front.now) x)) values.now }
{
    let first = first_within::<T, O>(values, front);
    let end = end_within::<T, O>(values, front);
    (first, end)
}

fn find<'a, T: Drop, O: Fronts<T>>(values: &'a [T], front: &O::Front) -> Option<&'a T>
    requires { is_ascending O.key_of values.now ≡ true }
    ensures { option_copied result ≡ find (is_within O.key_of (O.front_of front.now)) values.now }
{
    let first = first_within::<T, O>(values, front);
    if first == values.len() {
        return None;
    }
    let value = &values[first];
    if O::order_front(value, front).is_eq() {
        Some(value)
    } else {
        None
    }
}

fn put<T: Drop, O: Order<T>>(values: &mut Vec<T>, value: T)
    requires room { vec_len values.old < vec_capacity values.old }
    requires ascending { is_ascending O.key_of values.old.items ≡ true }
    ensures values { values.new.items ≡ put O.key_of value values.old.items }
    ensures len { vec_len values.new ≤ vec_len values.old + 1 }
    ensures capacity { vec_capacity values.old ≤ vec_capacity values.new }
{
    match place::<T, O>(values, &value) {
        Ok(i) => values[i] = value,
        Err(i) => {
            if values.insert(i, value).is_err() {
                unreachable!()
            }
        }
    }
}

fn remove<T: Drop, O: Order<T>>(values: &mut Vec<T>, value: &T)
    requires { is_ascending O.key_of values.old.items ≡ true }
    ensures values { values.new.items ≡ without O.key_of (O.key_of value.now) values.old.items }
    ensures len { vec_len values.new ≤ vec_len values.old }
    ensures capacity { vec_capacity values.old ≤ vec_capacity values.new }
{
    match place::<T, O>(values, value) {
        Ok(i) => {
            values.remove(i);
        }
        Err(_) => {}
    }
}

fn remove_key<T: Drop, O: Whole<T>>(values: &mut Vec<T>, key: &O::Key)
    requires { is_ascending O.key_of values.old.items ≡ true }
    ensures values { values.new.items ≡ without O.key_of (O.path key.now) values.old.items }
    ensures len { vec_len values.new ≤ vec_len values.old }
    ensures capacity { vec_capacity values.old ≤ vec_capacity values.new }
{
    match place_of::<T, O>(values, key) {
        Ok(at) => {
            values.remove(at);
        }
        Err(_) => {}
    }
}

fn remove_within<T: Copy, O: Fronts<T>>(values: &mut Vec<T>, front: &O::Front)
    requires { is_ascending O.key_of values.old.items ≡ true }
    ensures values { values.new.items
        ≡ filter (λ x. not (is_within O.key_of (O.front_of front.now) x)) values.old.items }
    ensures len { vec_len values.new ≤ vec_len values.old }
    ensures capacity { vec_capacity values.old ≤ vec_capacity values.new }
{
    let (first, end) = bounds::<T, O>(values, front);
    let len = values.len();
    values.copy_within(end..len, first);
    values.truncate(first + (len - end));
}

fn keep<T: Copy, P: Test<T>>(values: &mut Vec<T>, test: &P)
    ensures values { values.new.items ≡ filter (P.passes test.now) values.old.items }
    ensures len { vec_len values.new ≤ vec_len values.old }
    ensures capacity { vec_capacity values.old ≤ vec_capacity values.new }
{
    values.retain(|value| test.passes(value));
}

/// Brings values into the order of their keys.
pub fn sort<T: Drop, O: Order<T>>(values: &mut Vec<T>)
    ensures same { IsPermutation values.old.items values.new.items }
    ensures sorted { IsSortedByKey O.key_of compare values.new.items }
    ensures len { vec_len values.new ≡ vec_len values.old }
{
    values.sort_unstable_by(|left, right| O::order(left, right));
}

impl<T: Drop, O: Order<T>> Table<T, O> {
    /// The table of no value, which takes no memory.
    pub fn new(alloc: Global) -> Self
        ensures values { result.0 ≡ [] }
        ensures room { result.1 ≡ 0 }
    {
        Table {
            values: Vec::new(alloc),
            order: PhantomData,
        }
    }

    /// The table of values that stand by ascending key. It takes no memory.
    pub fn from_vec(values: Vec<T>) -> Self
        requires { is_ascending O.key_of values.items ≡ true }
        ensures { result.0 ≡ values.items }
    {
        Table {
            values,
            order: PhantomData,
        }
    }

    /// The values by ascending key alone. It takes no memory.
    pub fn into_vec(self) -> Vec<T>
        ensures all { result.items ≡ self.0 }
        ensures ascending { is_ascending O.key_of result.items ≡ true }
    {
        self.values
    }

    /// All values by ascending key.
    pub fn as_slice(&self) -> &[T]
        ensures all { result.now ≡ self.now.0 }
        ensures ascending { is_ascending O.key_of result.now ≡ true }
    {
        &self.values
    }

    /// Makes room for more values. Memory may run out only where there is less room than that.
    pub fn reserve(&mut self, more: usize) -> Result<(), AllocError>
        ensures values { self.new.0 ≡ self.old.0 }
        ensures ok { OnOk result (more ≤ self.new.1) }
        ensures wants { OnErr result (self.old.1 < more) }
        ensures kept { self.old.1 ≤ self.new.1 }
    {
        self.values.reserve(more)
    }

    /// Puts a value in its place. A value with its key goes. It takes no memory.
    pub fn put(&mut self, value: T)
        requires { 0 < self.old.1 }
        ensures values { self.new.0 ≡ put O.key_of value self.old.0 }
        ensures room { self.old.1 ≤ self.new.1 + 1 }
        ensures count { length self.new.0 ≤ length self.old.0 + 1 }
    {
        put::<T, O>(&mut self.values, value);
    }

    /// Removes the value with that value's key, if there is one.
    pub fn remove(&mut self, value: &T)
        ensures values { self.new.0 ≡ without O.key_of (O.key_of value.now) self.old.0 }
        ensures room { self.old.1 ≤ self.new.1 }
    {
        remove::<T, O>(&mut self.values, value);
    }

    /// Removes the values that have a key of one of these.
    pub fn remove_all(&mut self, gone: &[T])
        ensures values { self.new.0 ≡ without_all O.key_of gone.now self.old.0 }
        ensures room { self.old.1 ≤ self.new.1 }
    {
        for value in gone {
            self.remove(value);
        }
    }
}

impl<T: Drop, O: Whole<T>> Table<T, O> {
    /// The value with that key.
    pub fn find_key(&self, key: &O::Key) -> Option<&T>
        ensures { option_copied result ≡ at O.key_of (O.path key.now) self.now.0 }
    {
        find_key::<T, O>(&self.values, key)
    }

    /// Removes the value with that key, if there is one.
    pub fn remove_key(&mut self, key: &O::Key)
        ensures values { self.new.0 ≡ without O.key_of (O.path key.now) self.old.0 }
        ensures room { self.old.1 ≤ self.new.1 }
        ensures count { length self.new.0 ≤ length self.old.0 }
    {
        remove_key::<T, O>(&mut self.values, key);
    }
}

impl<T: Drop, O: Fronts<T>> Table<T, O> {
    /// The first value within the prefix.
    pub fn find(&self, front: &O::Front) -> Option<&T>
        ensures { option_copied result ≡ find (is_within O.key_of (O.front_of front.now)) self.now.0 }
    {
        find::<T, O>(&self.values, front)
    }

    /// The values within the prefix.
    pub fn within(&self, front: &O::Front) -> &[T]
        ensures { result.now ≡ filter (is_within O.key_of (O.front_of front.now)) self.now.0 }
    {
        let (first, end) = bounds::<T, O>(&self.values, front);
        &self.values[first..end]
    }
}

impl<T: Copy, O: Fronts<T>> Table<T, O> {
    /// Removes the values within the prefix.
    pub fn remove_within(&mut self, front: &O::Front)
        ensures values { self.new.0 ≡ filter (λ x. not (is_within O.key_of (O.front_of front.now) x)) self.old.0 }
        ensures room { self.old.1 ≤ self.new.1 }
    {
        remove_within::<T, O>(&mut self.values, front);
    }
}

impl<T: Copy, O: Order<T>> Table<T, O> {
    /// Keeps the values that pass the test, and no other. It walks over all values.
    pub fn keep<P: Test<T>>(&mut self, test: &P)
        ensures values { self.new.0 ≡ filter (P.passes test.now) self.old.0 }
        ensures room { self.old.1 ≤ self.new.1 }
    {
        keep(&mut self.values, test);
    }
}
