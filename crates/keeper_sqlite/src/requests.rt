// What is asked of the table in a file.
ghost use Rattle.std.specs.Prelude.{◌≡◌, true, IfOk};
ghost use Rattle.acct_keeper.specs.Pairs.{is_ascending};

use acct_base::Seq;
use acct_keeper::{Change, Pair, is_ascending};
use sqlite::{Alter, Connection, Error, ErrorCode, File, FileStore, Row, Transaction, params};
use std::alloc::Global;

const TABLE: &str =
    "CREATE TABLE IF NOT EXISTS pairs (key BLOB NOT NULL PRIMARY KEY, value BLOB NOT NULL) STRICT";

const PUT: &str = "INSERT OR REPLACE INTO pairs (key, value) VALUES (?1, ?2)";

const REMOVE: &str = "DELETE FROM pairs WHERE key = ?1";

const FIND: &str = "SELECT value FROM pairs WHERE key = ?1";

const LOAD: &str = "SELECT key, value FROM pairs ORDER BY key";

/// A connection to a file of the system.
pub(crate) type FileConnection = Connection<FileStore<File>>;

// What is asked of a file that is open: all its pairs, what would put back the values of the keys of changes, that
// changes are made, or that they are made where a value is another.
enum Request<'a> {
    Load,
    Find(&'a [Change]),
    Commit(&'a [Change]),
    Repair(&'a [Change]),
}

// Pairs where they were asked for, or changes, or neither.
#[derive(Drop)]
enum Given {
    Pairs(Vec<Pair>),
    Changes(Vec<Change>),
    Made,
}

// The connection to a file, once the file has the table.
fn with_table<S: Alter + Drop>(
    opened: Result<Connection<S>, Error>,
) -> Result<Connection<S>, Error> {
    let mut connection = opened?;
    connection.execute(TABLE, &[])?;
    Ok(connection)
}

fn pair_of(row: &Row) -> Result<Pair, Error> {
    Ok(Pair {
        key: Seq::from_vec(row.get(0)?),
        value: Seq::from_vec(row.get(1)?),
    })
}

fn pairs_of(alloc: Global, rows: &[Row]) -> Result<Vec<Pair>, Error> {
    let mut pairs = Vec::with_capacity(alloc, rows.len())?;
    for row in rows {
        pairs.push(pair_of(row)?)?;
    }
    Ok(pairs)
}

fn query<S: Alter>(alloc: Global, connection: &mut Connection<S>) -> Result<Vec<Pair>, Error> {
    let rows = connection.query_all(LOAD, &[])?;
    pairs_of(alloc, &rows)
}

fn make_change<S: Alter>(
    transaction: &mut Transaction<'_, S>,
    change: &Change,
) -> Result<usize, Error> {
    let key = change.key.as_slice();
    match &change.value {
        Some(value) => transaction.execute(PUT, params![key, value.as_slice()]),
        None => transaction.execute(REMOVE, params![key]),
    }
}

// One transaction, which is rolled back where a statement fails.
fn make_all<S: Alter>(connection: &mut Connection<S>, changes: &[Change]) -> Result<(), Error> {
    if !connection.is_autocommit() {
        return Err(Error::SqliteFailure(ErrorCode::TransactionState));
    }
    let mut transaction = connection.transaction();
    for change in changes {
        make_change(&mut transaction, change)?;
    }
    transaction.commit()
}

fn value_of(rows: &[Row]) -> Result<Option<Seq<u8>>, Error> {
    match rows.first() {
        Some(row) => Ok(Some(Seq::from_vec(row.get(0)?))),
        None => Ok(None),
    }
}

// The change that puts back what the file has at a key.
fn find<S: Alter>(
    alloc: Global,
    connection: &mut Connection<S>,
    key: &[u8],
) -> Result<Change, Error> {
    let rows = connection.query_all(FIND, params![key])?;
    Ok(Change {
        key: Seq::copy_of(alloc, key)?,
        value: value_of(&rows)?,
    })
}

// A key that comes twice gets the same value twice, so the order of these changes is of no account.
fn find_all<S: Alter>(
    alloc: Global,
    connection: &mut Connection<S>,
    changes: &[Change],
) -> Result<Vec<Change>, Error> {
    let mut found = Vec::with_capacity(alloc, changes.len())?;
    for change in changes {
        found.push(find(alloc, connection, change.key.as_slice())?)?;
    }
    Ok(found)
}

fn has_value(change: &Change, other: &Change) -> bool {
    match (&change.value, &other.value) {
        (Some(value), Some(other)) => value.as_slice() == other.as_slice(),
        (None, None) => true,
        _ => false,
    }
}

fn have_values(changes: &[Change], others: &[Change]) -> bool {
    changes
        .iter()
        .zip(others)
        .all(|(change, other)| has_value(change, other))
}

// A file in which all is as before is not written.
fn repair<S: Alter>(
    alloc: Global,
    connection: &mut Connection<S>,
    repairs: &[Change],
) -> Result<(), Error> {
    let found = find_all(alloc, connection, repairs)?;
    if have_values(repairs, &found) {
        return Ok(());
    }
    make_all(connection, repairs)
}

// What comes of a request.
fn answer<S: Alter>(
    alloc: Global,
    connection: &mut Connection<S>,
    request: Request<'_>,
) -> Result<Given, Error> {
    match request {
        Request::Load => Ok(Given::Pairs(query(alloc, connection)?)),
        Request::Find(changes) => Ok(Given::Changes(find_all(alloc, connection, changes)?)),
        Request::Commit(changes) => {
            make_all(connection, changes)?;
            Ok(Given::Made)
        }
        Request::Repair(repairs) => {
            repair(alloc, connection, repairs)?;
            Ok(Given::Made)
        }
    }
}

// Each request of a keeper goes through here, so what is to be proved of this kind of connection is proved once.
fn ask(
    alloc: Global,
    connection: &mut FileConnection,
    request: Request<'_>,
) -> Result<Given, Error> {
    answer(alloc, connection, request)
}

/// All pairs, where the rows of the answer come by strictly ascending key.
pub(crate) fn load(alloc: Global, connection: &mut FileConnection) -> Result<Vec<Pair>, Error>
    ensures { IfOk result (λ pairs. is_ascending pairs.items ≡ true) }
{
    let pairs = match ask(alloc, connection, Request::Load)? {
        Given::Pairs(pairs) => pairs,
        _ => Vec::new(alloc),
    };
    if !is_ascending(&pairs) {
        return Err(Error::SqliteFailure(ErrorCode::DatabaseCorrupt));
    }
    Ok(pairs)
}

/// What would put back the values that changes replace.
pub(crate) fn repairs_of(
    alloc: Global,
    connection: &mut FileConnection,
    changes: &[Change],
) -> Result<Vec<Change>, Error> {
    match ask(alloc, connection, Request::Find(changes))? {
        Given::Changes(repairs) => Ok(repairs),
        _ => Ok(Vec::new(alloc)),
    }
}

/// The connection to the file at a path, once the file has the table and what repairs say.
pub(crate) fn opened(
    rt: &HostRuntime,
    path: &str,
    repairs: &[Change],
) -> Result<FileConnection, Error> {
    let mut connection = with_table(Connection::open(rt, path))?;
    ask(rt.alloc(), &mut connection, Request::Repair(repairs))?;
    Ok(connection)
}

/// Makes changes.
pub(crate) fn make(
    alloc: Global,
    connection: &mut FileConnection,
    changes: &[Change],
) -> Result<(), Error> {
    ask(alloc, connection, Request::Commit(changes))?;
    Ok(())
}
