// The kinds of objects in order, and the names of their descriptor tables.
ghost use Rattle.std.specs.Prelude.{◌≡◌};
ghost use Rattle.acct_config.specs.Kinds.{kind_name, kind_place};

use acct_codes::Kind;

/// The kinds of objects in order.
pub const KINDS: [Kind; 7] = [
    Kind::Server,
    Kind::Domain,
    Kind::Group,
    Kind::Alias,
    Kind::User,
    Kind::Policy,
    Kind::Account,
];

/// The names of their descriptor tables in order.
pub const KIND_NAMES: [&str; 7] = [
    "server", "domain", "group", "alias", "user", "policy", "account",
];

/// The name of a kind's descriptor table.
pub fn kind_name(kind: Kind) -> &'static str
    ensures { result.now ≡ kind_name kind }
{
    match kind {
        Kind::Server => "server",
        Kind::Domain => "domain",
        Kind::Group => "group",
        Kind::Alias => "alias",
        Kind::User => "user",
        Kind::Policy => "policy",
        Kind::Account => "account",
    }
}

/// Where a kind stands in the order.
pub fn kind_place(kind: Kind) -> usize
    ensures { result ≡ kind_place kind }
{
    match kind {
        Kind::Server => 0,
        Kind::Domain => 1,
        Kind::Group => 2,
        Kind::Alias => 3,
        Kind::User => 4,
        Kind::Policy => 5,
        Kind::Account => 6,
    }
}
