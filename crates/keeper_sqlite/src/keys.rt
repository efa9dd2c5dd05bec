// Keys in words.
use acct_keeper::Change;
use std::fmt::{self, Display, Formatter};

/// The keys of changes as hexadecimal digits, each after a space.
#[derive(Drop)]
pub(crate) struct Keys<'a> {
    changes: &'a [Change],
}

impl<'a> Keys<'a> {
    pub(crate) fn of(changes: &'a [Change]) -> Self {
        Keys { changes }
    }
}

impl<'a> Display for Keys<'a> {
    fn fmt<W: fmt::Write>(&self, f: &mut Formatter<W>) -> fmt::Result {
        for change in self.changes {
            f.write_str(" ")?;
            write_digits(f, change.key.as_slice())?;
        }
        Ok(())
    }
}

fn write_digits<W: fmt::Write>(f: &mut Formatter<W>, key: &[u8]) -> fmt::Result {
    for byte in key {
        write!(f, "{byte:02x}")?;
    }
    Ok(())
}
