// What gives links one after another.
ghost use Rattle.std.specs.Prelude.{◌≡◌, ◌≤◌, ◌||◌, ℕ, Bool, true, List, Option, All, IfSome};
ghost use Rattle.acct_keeper.specs.Faults.{Rose, faults_after};
ghost use Rattle.acct_links.specs.Doors.{IfLink, GivesNext, is_closed, is_failed, with_finished};
ghost use Rattle.acct_links.specs.Links.{IsNew};

use crate::links::Link;

/// What a door answers where the next link is wanted.
#[derive(Debug, Drop)]
pub enum Next<L> {
    /// The next link.
    Link(L),
    /// No link is to come, now and ever after.
    Closed,
    /// It failed, and the count of faults rose.
    Failed,
}

/// What gives links one after another, and takes back those that were served. A door in memory tells which, a real one
/// doesn't.
pub trait Door {
    /// The links that it gives.
    type L: Link + Drop;

    /// The links to come, in order, where they are told.
    ghost coming: { Self → Option (List Self.L) };

    /// The links that were finished, in order, each with the number of its connection, where they are told.
    ghost finished: { Self → Option (List (ℕ × Self.L)) };

    /// The place of its listener in the configuration, from 0.
    ghost listener: { Self → ℕ };

    /// Whether it has answered that it is closed.
    ghost closed: { Self → Bool };

    /// It gave a link that isn't finished yet.
    ghost has_lent: { Self → Type 0 };

    /// How many calls of `next` have failed. The count stops at 2^64 - 1.
    ghost faults: { Self → ℕ };

    /// The next link, of which nothing was read or written.
    fn next(&mut self) -> Next<Self::L>
        ensures new { IfLink result (λ link. IsNew (Self.L.told link)) }
        ensures coming { GivesNext result (coming self.old) (coming self.new) }
        ensures to_come { IfSome (coming self.new) (λ links. All (λ link. IsNew (Self.L.told link)) links) }
        ensures closed { closed self.new ≡ (closed self.old || is_closed result) }
        ensures always { closed self.old ≡ true → is_closed result ≡ true }
        ensures lent { IfLink result (λ link. has_lent self.new) }
        ensures finished { finished self.new ≡ finished self.old }
        ensures listener { listener self.new ≡ listener self.old }
        ensures cause { is_failed result ≡ true → Rose (faults self.old) (faults self.new) }
        ensures later { faults self.old ≤ faults self.new }
        ensures count { faults self.new ≡ faults_after (is_failed result) (faults self.old) };

    /// Takes a link back that served a connection.
    fn finish(&mut self, conn: u32, link: Self::L)
        requires { has_lent self.old }
        ensures finished { finished self.new ≡ with_finished conn link (finished self.old) }
        ensures coming { coming self.new ≡ coming self.old }
        ensures closed { closed self.new ≡ closed self.old }
        ensures listener { listener self.new ≡ listener self.old }
        ensures faults { faults self.new ≡ faults self.old };

    /// The place of its listener in the configuration, from 0.
    fn listener(&self) -> u32
        ensures { result ≡ listener self.now };
}
