// What is known of the period that doors serve.
use std::sync::atomic::{AtomicU64, Ordering};

/// Which period a store has begun, and with how many accounts, for the doors of an entrance to say. The store and the
/// entrance share it.
#[derive(Drop)]
pub struct Board {
    periods: AtomicU64,
    accounts: AtomicU64,
}

impl Board {
    /// No period has begun.
    pub fn new() -> Board {
        Board {
            periods: AtomicU64::new(0),
            accounts: AtomicU64::new(0),
        }
    }

    /// A period begins, over a store with so many accounts.
    pub fn begin(&self, accounts: u64) {
        self.accounts.store(accounts, Ordering::SeqCst);
        self.periods.fetch_add(1, Ordering::SeqCst);
    }

    /// So many accounts were put into a store that had none when the period began.
    pub fn seed(&self, accounts: u64) {
        self.accounts.store(accounts, Ordering::SeqCst);
    }

    /// How many periods have begun.
    pub fn periods(&self) -> u64 {
        self.periods.load(Ordering::SeqCst)
    }

    /// How many accounts the last one began with.
    pub fn accounts(&self) -> u64 {
        self.accounts.load(Ordering::SeqCst)
    }
}
