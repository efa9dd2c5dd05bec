// Words of commands.
/// Words that are none, one command a row: further words, too few, another verb or case, a name of more than 300 units,
/// a SID that is none.
pub const REFUSED: &str = "domains CORP
domain
Domains
help
users
users CORP x
users 301*a
users 151*\u{1f600}
create-user CORP
create-user CORP alice x
create-user CORP 301*a
create-user 301*a alice
delete-user CORP
delete-user CORP alice x
members CORP
members CORP staff x
add-member CORP staff
add-member CORP staff alice x
add-member CORP staff 301*a
names
names a 301*a
sids
sids S-1-05
sids S-1-1-0 alice
rights
rights alice
rights S-1-1-0 x
grant S-1-1-0
grant alice SeX
grant S-1-1-0 301*a";

/// Words that are commands at their limits.
pub const TAKEN: &str = "domains
users 300*a
users 150*\u{1f600}
add-member 300*a 300*a 300*a
sids S-1-0x000000000005-32-544
grant S-1-5 300*a";
