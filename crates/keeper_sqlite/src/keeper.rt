// Pairs in a table.
ghost use Rattle.std.specs.Prelude.{◌≡◌, ◌≤◌, true, None, IfOk, IfErr};
ghost use Rattle.acct_keeper.specs.Pairs.{is_ascending};
ghost use Rattle.acct_keeper.specs.Faults.{KeepCause, counted, after_call};

use crate::files::make_private;
use crate::keys::Keys;
use crate::requests::{FileConnection, load, make, opened, repairs_of};
use acct_keeper::{Change, KeepError, Keeper, Pair};
use host_lines::Lines;
use sqlite::{Error, ErrorCode};
use std::marker::Model;

/// The pairs in a file, of which it tells nothing. A contract sees how many of its calls have failed. It says on the
/// standard error which commits failed, and whether one may be in the file all the same.
#[derive(Drop)]
pub struct SqliteKeeper {
    rt: HostRuntime,
    path: String,
    // None from a commit that failed until the file is open again and repaired.
    connection: Option<FileConnection>,
    // What puts back all that such a commit may have left in the file. Empty while there is a connection.
    repairs: Vec<Change>,
    is_in_doubt: bool,
    fault_count: u64,
    lines: Lines,
}

impl Model for SqliteKeeper {
    ghost use Rattle.std.specs.Prelude.{ℕ};

    ghost Value = { ℕ };

    ghost view = { λ keeper. keeper.fault_count };
}

fn cause_of(error: Error) -> KeepError {
    match error {
        Error::SqliteFailure(ErrorCode::OutOfMemory) => KeepError::NoMemory,
        _ => KeepError::Failed,
    }
}

impl SqliteKeeper {
    /// Opens the file at a path, or makes it for its owner alone. It fails where there is no folder for it, another
    /// program has it open, or it is no database.
    pub fn new(rt: &HostRuntime, path: &str) -> Result<SqliteKeeper, KeepError>
        ensures { IfOk result (λ faults. faults ≡ 0) }
    {
        make_private(rt, path);
        let connection = opened(rt, path, &[]).map_err(cause_of)?;
        Ok(SqliteKeeper {
            rt: *rt,
            path: String::from_str(rt.alloc(), path)?,
            connection: Some(connection),
            repairs: Vec::new(rt.alloc()),
            is_in_doubt: false,
            fault_count: 0,
            lines: Lines::new(),
        })
    }

    // Opens the file again, once what a commit may have left there is put back. The log that ends in that commit may
    // have reached no disk, so the file is closed in between, which copies the log into it.
    fn reopen(&mut self) -> Result<FileConnection, Error>
        ensures { self.new ≡ self.old }
    {
        opened(&self.rt, self.path.as_str(), &self.repairs)?.close()?;
        let connection = opened(&self.rt, self.path.as_str(), &[])?;
        self.repairs = Vec::new(self.rt.alloc());
        self.tell_repaired();
        Ok(connection)
    }

    // The caller gives it back, if it is still good.
    fn take_connection(&mut self) -> Result<FileConnection, Error>
        ensures { self.new ≡ self.old }
    {
        match self.connection.take() {
            Some(connection) => Ok(connection),
            None => self.reopen(),
        }
    }

    fn try_load(&mut self) -> Result<Vec<Pair>, Error>
        ensures ascending { IfOk result (λ pairs. is_ascending pairs.items ≡ true) }
        ensures kept { self.new ≡ self.old }
    {
        let mut connection = self.take_connection()?;
        let loaded = load(self.rt.alloc(), &mut connection);
        self.connection = Some(connection);
        loaded
    }

    // The connection is let go where this fails. Where the commit itself fails, the file may hold the changes.
    fn make_by(&mut self, mut connection: FileConnection, changes: &[Change]) -> Result<(), Error>
        ensures { self.new ≡ self.old }
    {
        let alloc = self.rt.alloc();
        let repairs = repairs_of(alloc, &mut connection, changes)?;
        if let Err(error) = make(alloc, &mut connection, changes) {
            self.repairs = repairs;
            return Err(error);
        }
        self.connection = Some(connection);
        Ok(())
    }

    fn try_commit(&mut self, changes: &[Change]) -> Result<(), Error>
        ensures { self.new ≡ self.old }
    {
        let connection = self.take_connection()?;
        let made = self.make_by(connection, changes);
        if made.is_err() {
            self.recover();
        }
        made
    }

    // Opens the file again after a commit that failed. Where that fails, the next call tries it.
    fn recover(&mut self)
        ensures { self.new ≡ self.old }
    {
        match self.reopen() {
            Ok(connection) => self.connection = Some(connection),
            Err(error) => self.tell_doubt(error),
        }
    }

    // Says which change may be in the file though it was refused. There is one such line for each change that was not
    // put back at once.
    fn tell_doubt(&mut self, error: Error)
        ensures { self.new ≡ self.old }
    {
        if self.repairs.is_empty() {
            return;
        }
        self.is_in_doubt = true;
        let keys = Keys::of(&self.repairs);
        let _ = eprintln!(self.rt;
            "account: a change that was refused can't be taken back ({error}), and may be in the store at the next \
            start, at the keys{keys}; see to the disk, and end the server only once it says that it is"
        );
    }

    fn tell_repaired(&mut self)
        ensures { self.new ≡ self.old }
    {
        if self.is_in_doubt {
            self.is_in_doubt = false;
            self.lines
                .say(&self.rt, "the change that was refused is taken back");
        }
    }

    // Counts a call that failed, unless memory ran out.
    fn cause(&mut self, error: Error) -> KeepError
        ensures cause { KeepCause self.old self.new result }
        ensures later { self.old ≤ self.new }
        ensures count { self.new ≡ counted self.old result }
    {
        match error {
            Error::SqliteFailure(ErrorCode::OutOfMemory) => KeepError::NoMemory,
            _ => {
                self.fault_count = self.fault_count.saturating_add(1);
                KeepError::Failed
            }
        }
    }
}

impl Keeper for SqliteKeeper {
    ghost held = { λ _. None };

    ghost faults = { λ faults. faults };

    fn load(&mut self) -> Result<Vec<Pair>, KeepError>
        ensures ascending { IfOk result (λ pairs. is_ascending pairs.items ≡ true) }
        ensures cause { IfErr result (KeepCause self.old self.new) }
        ensures later { self.old ≤ self.new }
        ensures count { self.new ≡ after_call self.old result }
    {
        match self.try_load() {
            Ok(pairs) => Ok(pairs),
            Err(error) => Err(self.cause(error)),
        }
    }

    fn commit(&mut self, changes: &[Change]) -> Result<(), KeepError>
        ensures cause { IfErr result (KeepCause self.old self.new) }
        ensures later { self.old ≤ self.new }
        ensures count { self.new ≡ after_call self.old result }
    {
        match self.try_commit(changes) {
            Ok(()) => Ok(()),
            Err(error) => {
                self.lines.say(
                    &self.rt,
                    format_args!("a change of the store failed ({error}), and was refused"),
                );
                Err(self.cause(error))
            }
        }
    }

    fn faults(&self) -> u64 {
        self.fault_count
    }
}
