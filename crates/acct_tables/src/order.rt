// Orders of values by their keys, and tests of values.
ghost use Rattle.std.specs.Prelude.{◌≡◌, Bool};
ghost use Rattle.acct_tables.specs.Keyed.{Key, compare, compare_front};

use std::cmp::Ordering;

/// An order of values by their keys, each a list of numbers.
pub trait Order<T>: Drop {
    ghost key_of: { T → Key };

    /// The order of two values.
    fn order(left: &T, right: &T) -> Ordering
        ensures { result ≡ compare (key_of left.now) (key_of right.now) };
}

/// An order whose values are found by whole keys.
pub trait Whole<T>: Order<T> {
    type Key;

    ghost path: { Self.Key → Key };

    /// The order of a value's key and a key.
    fn order_key(value: &T, key: &Self::Key) -> Ordering
        ensures { result ≡ compare (Self.key_of value.now) (path key.now) };
}

/// An order whose values are found by prefixes: a prefix has the first numbers of a key.
pub trait Fronts<T>: Order<T> {
    type Front;

    ghost front_of: { Self.Front → Key };

    /// The order of the first numbers of a value's key, as many as the prefix has, and the prefix.
    fn order_front(value: &T, front: &Self::Front) -> Ordering
        ensures { result ≡ compare_front (Self.key_of value.now) (front_of front.now) };
}

/// A test of values.
pub trait Test<T>: Drop {
    ghost passes: { Self → T → Bool };

    fn passes(&self, value: &T) -> bool
        ensures { result ≡ passes self.now value.now };
}
