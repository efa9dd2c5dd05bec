// The limits of a history: what finds it full, and what is written then.

/// Lines of events and lines that are written, by their names. The pair is an opening of the server and a closing in
/// one line; the answer that the server is too busy is nca_s_server_too_busy.
pub const LINES: &str =
    "PAIR data 1 050000031000000020000000020000000800000000003900000000000000000205000003100000002c0000000300000014000\
    000000001000000000000000000000100000000000000000001
AGAIN out 1 050002031000000030000000020000001800000000000000000000000000000000000100000000000000000200000000
AGAIN-2 out 2 050002031000000030000000020000001800000000000000000000000000000000000200000000000000000200000000
BUSY out 1 0500032310000000200000000200000000000000000000001400011c00000000
BUSY-CLOSE out 1 0500032310000000200000000300000000000000000000001400011c00000000
FULL full 1
FULL-2 full 2";

/// Each row: how the run is made, the words, the configuration, the events, the lines written, the status, the history.
/// A call that is one too many, one whose bytes are too many, one in the middle of a line, and a connection.
pub const LIMITED: &str =
    "|replay first.toml|max_calls = 4|OPEN BIND CONNECT CONNECT OPEN-2 BIND-2 CONNECT-2 CONNECT-2 CONNECT CLOSE|ACK \
    CONNECTED AGAIN ACK-2 CONNECTED-2 AGAIN-2 BUSY FULL GONE-2|HistoryFull(4)|opened 1 0;called 1 57 Ran 8;called 1 \
    57 Ran 8;opened 2 0;called 2 57 Ran 8;called 2 57 Ran 8;gone 1;gone 2;
|replay first.toml|max_calls = 2|OPEN BIND CONNECT CLOSE END|ACK CONNECTED CLOSED GONE|Done|opened 1 0;called 1 57 \
    Ran 8;called 1 1 Ran 20;gone 1;
|replay first.toml|max_bytes = 16|OPEN BIND CONNECT CONNECT CONNECT|ACK CONNECTED AGAIN BUSY \
    FULL|HistoryFull(24)|opened 1 0;called 1 57 Ran 8;called 1 57 Ran 8;gone 1;
|replay first.toml|max_bytes = 28|OPEN BIND CONNECT CLOSE END|ACK CONNECTED CLOSED GONE|Done|opened 1 0;called 1 57 \
    Ran 8;called 1 1 Ran 20;gone 1;
|replay first.toml|max_calls = 1|OPEN BIND PAIR OPEN-2|ACK CONNECTED BUSY-CLOSE FULL|HistoryFull(1)|opened 1 0;called \
    1 57 Ran 8;gone 1;
|replay first.toml|max_conns = 1|OPEN BIND CONNECT OPEN-2 CLOSE|ACK CONNECTED FULL-2 GONE|HistoryFull(1)|opened 1 \
    0;called 1 57 Ran 8;gone 1;
|replay first.toml|max_conns = 2|OPEN OPEN-2 END|GONE GONE-2|Done|opened 1 0;opened 2 0;gone 1;gone 2;";
