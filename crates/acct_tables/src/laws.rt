// Laws of a row and its pair, each the contract of a function that does nothing.
ghost use Rattle.acct_tables.specs.Stored.{ReadRowsAreSpelled, SpelledRowsAreRead};

use dtyp_sid::laws::{read_bytes_are_written, written_bytes_are_read, written_bytes_have_lengths};

/// The row that is read of a pair is the one that the pair spells.
pub fn read_rows_are_spelled()
    ensures { ReadRowsAreSpelled }
{
    written_bytes_are_read();
    written_bytes_have_lengths();
    read_bytes_are_written();
}

/// The row that a pair spells is read of it.
pub fn spelled_rows_are_read()
    ensures { SpelledRowsAreRead }
{
    written_bytes_are_read();
    written_bytes_have_lengths();
    read_bytes_are_written();
}
