//! The statements of a keeper, over a connection. What they do to the rows is said where the disk has returned what was
//! written (`HasCleanDisk` of the state behind the call), so it holds over a file too.

ghost use Rattle.std.specs.Prelude.{◌≡◌, [], IfOk, OnOk, OnErr, MatchOption, Some, slice_get, option_map, min, ◌-◌, ◌^◌};
ghost use Rattle.dx_io.specs.Rows.{SetsRow, FindsRow, CountsRows, SameRows};
ghost use Rattle.sqlite_value.specs.Order.{column, Row as Values};
ghost use Rattle.sqlite.specs.Values.{bound};
ghost use Rattle.sqlite.specs.Held.{state};
ghost use Rattle.sqlite.specs.State.{HasCleanDisk, Executes, Shown};
ghost use Rattle.dx_sql.specs.Telling.{told, Keeps, Stands, Made, NoCleaner};

use sqlite::types::{FromSql, ValueRef};
use sqlite::{Alter, Connection, Error, Row, params};

/// Makes the table of the rows. A row is named by its node and its height.
const MAKE: &str =
    "CREATE TABLE block (node INTEGER NOT NULL, height INTEGER NOT NULL, body BLOB NOT NULL, PRIMARY KEY (node, height)) STRICT";

/// Sets the bytes of a node and a height.
const PUT: &str =
    "INSERT INTO block (node, height, body) VALUES (?1, ?2, ?3) ON CONFLICT (node, height) DO UPDATE SET body = excluded.body";

/// The bytes of a node and a height.
const GET: &str = "SELECT body FROM block WHERE node = ?1 AND height = ?2";

/// How many rows a node has.
const COUNT: &str = "SELECT count(*) FROM block WHERE node = ?1";

/// Runs a statement that is no query. Whether a transaction is open is asked for the proof alone.
fn run<S: Alter>(
    conn: &mut Connection<S>,
    sql: &str,
    params: &[ValueRef<'_>],
) -> Result<usize, Error>
    ensures runs { HasCleanDisk (state S.Store conn.new)
        → Executes sql.now (bound params.now) (state S.Store conn.old) (state S.Store conn.new) result }
    ensures cleaner { NoCleaner (state S.Store conn.old) (state S.Store conn.new) }
    ensures err { OnErr result (Stands (state S.Store conn.old) (state S.Store conn.new)) }
{
    let _autocommit = conn.is_autocommit();
    conn.execute(sql, params)
}

/// The rows that a query shows. Whether a transaction is open is asked for the proof alone.
fn ask<S: Alter>(
    conn: &mut Connection<S>,
    sql: &str,
    params: &[ValueRef<'_>],
) -> Result<Vec<Row>, Error>
    ensures shown { HasCleanDisk (state S.Store conn.new) → IfOk result
        (λ rows. Shown sql.now (bound params.now) (state S.Store conn.old) (state S.Store conn.new) rows.items) }
    ensures cleaner { NoCleaner (state S.Store conn.old) (state S.Store conn.new) }
    ensures err { OnErr result (Stands (state S.Store conn.old) (state S.Store conn.new)) }
{
    let _autocommit = conn.is_autocommit();
    conn.query_all(sql, params)
}

/// The value in the first column of the first row, if there is a row.
fn first<T: FromSql>(rows: &[Row]) -> Result<Option<T>, Error>
    ensures { IfOk result (λ o. MatchOption o (rows.now ≡ [])
        (λ x. (row : Values) × (slice_get rows.now 0 ≡ Some row) × T.FromSql.reads_as (column row 0) x)) }
{
    match rows.first() {
        Some(row) => {
            let value: T = row.get(0)?;
            Ok(Some(value))
        }
        None => Ok(None),
    }
}

/// Makes the table where the database has none of its name.
fn make<S: Alter>(conn: &mut Connection<S>) -> Result<(), Error>
    ensures kept { Keeps (state S.Store conn.old) (state S.Store conn.new) }
    ensures made { HasCleanDisk (state S.Store conn.new)
        → OnOk result (Made (state S.Store conn.old) (state S.Store conn.new)) }
    ensures cleaner { NoCleaner (state S.Store conn.old) (state S.Store conn.new) }
{
    if conn.schema().table_named("block".as_bytes()).is_some() {
        return Ok(());
    }
    run(conn, MAKE, &[])?;
    Ok(())
}

/// Sets the bytes of a node and a height, and makes the table before that where there is none.
pub(crate) fn put<S: Alter>(
    conn: &mut Connection<S>,
    node: u32,
    height: u32,
    bytes: &[u8],
) -> Result<(), Error>
    ensures set { HasCleanDisk (state S.Store conn.new)
        → OnOk result (SetsRow (told (state S.Store conn.old)) (told (state S.Store conn.new))
        (record { node = node; height = height }) bytes.now) }
    ensures err { OnErr result (Keeps (state S.Store conn.old) (state S.Store conn.new)) }
{
    make(conn)?;
    run(conn, PUT, params![node, height, bytes])?;
    Ok(())
}

/// The bytes of a node and a height, if they are there.
pub(crate) fn get<S: Alter>(
    conn: &mut Connection<S>,
    node: u32,
    height: u32,
) -> Result<Option<Vec<u8>>, Error>
    ensures found { HasCleanDisk (state S.Store conn.new)
        → IfOk result (λ row. FindsRow (told (state S.Store conn.old)) (record { node = node; height = height })
        (option_map (λ bytes. bytes.items) row)) }
    ensures kept { Keeps (state S.Store conn.old) (state S.Store conn.new) }
{
    make(conn)?;
    let rows = ask(conn, GET, params![node, height])?;
    first(rows.as_slice())
}

/// The count as 32 bits, at most their greatest number.
fn narrow(count: u64) -> u32
    ensures { result ≡ min count (2 ^ 32 - 1) }
{
    count.min(u64::from(u32::MAX)) as u32
}

/// How many rows a node has, or `u32::MAX` where there are more.
pub(crate) fn count<S: Alter>(conn: &mut Connection<S>, node: u32) -> Result<u32, Error>
    ensures count { HasCleanDisk (state S.Store conn.new)
        → IfOk result (λ n. CountsRows (told (state S.Store conn.old)) node n) }
    ensures kept { Keeps (state S.Store conn.old) (state S.Store conn.new) }
{
    make(conn)?;
    let rows = ask(conn, COUNT, params![node])?;
    let count: Option<u64> = first(rows.as_slice())?;
    Ok(narrow(count.unwrap_or(0)))
}
