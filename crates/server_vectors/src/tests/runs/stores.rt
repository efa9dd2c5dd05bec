// Keepers that fail, and what is stored. The lines are like those of creations and look-ups of names.

/// Lines of events and lines that are written, by their names.
pub const LINES: &str =
    "NAMES-BOB data 1 0500000310000000560000000a0000003e00000000001100000000000000000000000100000000000000000201000000\
    e80300000000000001000000060006003089000003000000000000000300000062006f006200
NONE-10 out 1 05000203100000003c0000000a000000240000000000000001000000000002000100000000000000010000000400020001000000\
    08000000730000c0
STORE-FAULT-9 out 1 050002031000000034000000090000001c0000000000000000000000000000000000000000000000000000000000000058\
    0100c0
BOB-3-1001 out 1 050002031000000034000000090000001c000000000000000000000000000000000001000000000000000003e903000000000\
    000";

/// Loads and commits that fail: the first call loads, the second stores the rows of a new store.
pub const FAULTS: &str = "k1|replay first.toml||OPEN|/0|StoreFault|none
k2|replay first.toml||OPEN|/0|StoreFault|none
t4|replay first.toml||OPEN|/0|StoreFault|none";

/// A commit of a call that fails: bob isn't made then, and has the same RID when he is.
pub const FAILED_COMMIT: &str =
    "k4|replay first.toml||OPEN BIND CONNECT OPEN-CORP CREATE-ALICE CREATE-BOB NAMES-BOB CREATE-BOB|ACK CONNECTED \
    DOMAIN-2 ALICE-1000 STORE-FAULT-9 NONE-10 BOB-1001 GONE|Done|opened 1 0;called 1 57 Ran 8;called 1 7 Ran 52;\
    called 1 50 Ran 60;called 1 12 StoreFault(1) 52;called 1 17 Ran 62;called 1 12 Ran 52;gone 1;";

/// Each row: the events of a first replay, a change of a pair that it stored, the events of a second replay, the lines
/// that it writes, its status and its history. The first has made alice; then the store has an unknown format.
pub const SECOND: &str =
    "OPEN BIND CONNECT OPEN-CORP CREATE-ALICE||OPEN BIND CONNECT OPEN-CORP CREATE-ALICE-AGAIN CREATE-BOB|ACK CONNECTED \
    DOMAIN-2 USER-EXISTS-9 BOB-3-1001 GONE|Done|opened 1 0;called 1 57 Ran 8;called 1 7 Ran 52;called 1 50 Ran \
    60;called 1 12 Ran 52;gone 1;
|66=03||/0|StoredPair(Seq { values: [102] })|none";

/// Each row: a change of a pair that a replay without events stored, how a second one is made, and its status with the
/// value of the pair of the format then. No other pair changes. The first call loads; where the format is 1, the second
/// one makes it 2, and there is no third.
pub const FORMATS: &str = "66=01||Done 02
66=01|k3|Done 02
66=01|k2|StoreFault 01
||Done 02
|k2|Done 02
66=03|k2|StoredPair(Seq { values: [102] }) 03";
