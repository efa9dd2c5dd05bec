// The limits of a server, and the table of their keys, their ranges and what they are where no key sets them.
ghost use Rattle.std.specs.Prelude.{◌≡◌};
ghost use Rattle.acct_config.specs.Document.{limit_key, range_of};

/// What a server takes at most.
#[derive(Clone, Copy, Debug, PartialEq, Eq)]
pub struct Limits {
    /// The calls in one history, 1 to 1,000,000.
    pub max_calls: u32,
    /// The bytes of the stubs of these calls, 1 to 2^30.
    pub max_bytes: u64,
    /// The connections opened in one history, 1 to 65,536.
    pub max_conns: u32,
    /// The bytes read from one connection, 1 to 2^40.
    pub max_read: u64,
    /// How often a server that is full begins anew with the stored rows, and the first time: 1 to 1,000,000.
    pub max_periods: u32,
}

/// One of the limits.
#[derive(Clone, Copy)]
pub enum Limit {
    Calls,
    Bytes,
    Conns,
    Read,
    Periods,
}

/// The numbers that a limit may have.
#[derive(Clone, Copy)]
pub struct Range {
    /// The least number.
    pub low: u64,
    /// The greatest number.
    pub high: u64,
    /// The number that holds where no key sets the limit.
    pub absent: i64,
}

/// Each limit.
pub const EACH_LIMIT: [Limit; 5] = [
    Limit::Calls,
    Limit::Bytes,
    Limit::Conns,
    Limit::Read,
    Limit::Periods,
];

/// The keys that set them, in the same order.
pub const LIMIT_KEYS: [&str; 5] = [
    "max_calls",
    "max_bytes",
    "max_conns",
    "max_read",
    "max_periods",
];

/// The key that sets a limit.
pub fn limit_key(limit: Limit) -> &'static str
    ensures { result.now ≡ limit_key limit }
{
    match limit {
        Limit::Calls => "max_calls",
        Limit::Bytes => "max_bytes",
        Limit::Conns => "max_conns",
        Limit::Read => "max_read",
        Limit::Periods => "max_periods",
    }
}

fn up_to(high: u64, absent: i64) -> Range
    ensures { result ≡ record { low = 1; high = high; absent = absent } }
{
    Range {
        low: 1,
        high,
        absent,
    }
}

/// The numbers that a limit may have.
pub fn range_of(limit: Limit) -> Range
    ensures { result ≡ range_of limit }
{
    match limit {
        Limit::Calls => up_to(1_000_000, 65_536),
        Limit::Bytes => up_to(1_073_741_824, 67_108_864),
        Limit::Conns => up_to(65_536, 1_024),
        Limit::Read => up_to(1_099_511_627_776, 4_294_967_296),
        Limit::Periods => up_to(1_000_000, 1),
    }
}
