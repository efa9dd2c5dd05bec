// Audits: the lines of calls whose handle was let pass, and what keeps an audit from its end.

/// Lines that are written, by their names. CONNECT, OPEN-CORP and CREATE-ALICE ask for everything that they may have,
/// and a configuration without descriptors grants each right to a server (0x000F003F), to a domain and to a user
/// (0x000F07FF both).
pub const LINES: &str = "CLOSE-TRACED 3 1 1 2 0x000f003f 0x00000000
OPEN-TRACED 3 1 1 2 0x000f003f 0x00000020
CREATE-TRACED 4 1 2 3 0x000f07ff 0x00000010
SID-TRACED 5 1 3 4 0x000f07ff 0x00000000";

/// Each row: how the run is made, the words, the configuration, the events, the lines written, the status, the history.
/// The first run; a call that its grant denies, which has no line; a commit that fails, whose call has one. Where the
/// replay isn't run to its end nothing is written, and its status stands.
pub const AUDITS: &str = "|audit first.toml|||/0|Done|
|audit first.toml||OPEN BIND CONNECT CLOSE END|CLOSE-TRACED|Done|opened 1 0;called 1 57 Ran 8;called 1 1 Ran 20;gone 1;
|audit first.toml||OPEN BIND CONNECT|/0|Done|opened 1 0;called 1 57 Ran 8;gone 1;
|audit first.toml||OPEN BIND CONNECT OPEN-CORP-LOOKUP CREATE-ALICE END|OPEN-TRACED|Done|opened 1 0;called 1 57 Ran \
    8;called 1 7 Ran 52;called 1 50 Ran 60;gone 1;
k3|audit first.toml||OPEN BIND CONNECT OPEN-CORP CREATE-ALICE END|OPEN-TRACED CREATE-TRACED|Done|opened 1 0;called 1 \
    57 Ran 8;called 1 7 Ran 52;called 1 50 StoreFault(1) 60;gone 1;
r1 s1|audit first.toml||OPEN BIND CONNECT CLOSE END|CLOSE-TRACED|Done|opened 1 0;called 1 57 Ran 8;called 1 1 Ran \
    20;gone 1;
|audit first.toml||OPEN BIND CONNECT CLOSE END-2|/0|EventLine(5)|opened 1 0;called 1 57 Ran 8;called 1 1 Ran 20;gone 1;
|audit first.toml|max_calls = 1|OPEN BIND CONNECT CLOSE|/0|HistoryFull(1)|opened 1 0;called 1 57 Ran 8;gone 1;
|audit first.toml|[domain]>[domain|OPEN|/0|Config(0)|none
|audit||OPEN|/0|Usage|none
|audit -||OPEN|/0|Usage|none
|audit first.toml x||OPEN|/0|Usage|none
|audit other.toml||OPEN|/0|ReadFault|none
c1|audit first.toml||OPEN|/0|ReadFault|none
e1|audit first.toml||OPEN|/0|ReadFault|none
e2|audit first.toml||OPEN|/0|ReadFault|none
k1|audit first.toml||OPEN|/0|StoreFault|none
k2|audit first.toml||OPEN|/0|StoreFault|none
t1|audit first.toml||OPEN|/0|ReadFault|none
t2|audit first.toml||OPEN|/0|ReadFault|none
t3|audit first.toml||OPEN|/0|WriteFault|none
t4|audit first.toml||OPEN|/0|StoreFault|none
w1|audit first.toml||OPEN BIND CONNECT CLOSE END|/0|WriteFault|opened 1 0;called 1 57 Ran 8;called 1 1 Ran 20;gone 1;";

/// A row of an audit whose sink fails: from the words to the line that it would write, and from the status on.
pub const CUT_RUN: &str = "audit first.toml||OPEN BIND CONNECT CLOSE END|CLOSE-TRACED";

pub const CUT_LEFT: &str = "WriteFault|opened 1 0;called 1 57 Ran 8;called 1 1 Ran 20;gone 1;";

/// How many bytes that line has.
pub const CUT_SIZE: u32 = 30;

/// Each row: the events of a first audit, a change of a pair that it stored, the events of a second audit, the lines
/// that it writes, its status and its history. The first has made alice, so that the second is refused it, and its call
/// by the third handle brings none; then the store has an unknown format.
pub const SECOND: &str =
    "||OPEN BIND CONNECT OPEN-CORP CREATE-ALICE SID-BY-USER|OPEN-TRACED CREATE-TRACED SID-TRACED|Done|opened 1 \
    0;called 1 57 Ran 8;called 1 7 Ran 52;called 1 50 Ran 60;called 1 65 Ran 24;gone 1;
OPEN BIND CONNECT OPEN-CORP CREATE-ALICE||OPEN BIND CONNECT OPEN-CORP CREATE-ALICE SID-BY-USER|OPEN-TRACED \
    CREATE-TRACED|Done|opened 1 0;called 1 57 Ran 8;called 1 7 Ran 52;called 1 50 Ran 60;called 1 65 Ran 24;gone 1;
|66=03||/0|StoredPair(Seq { values: [102] })|none";
