ghost use Rattle.std.specs.Prelude.{◌≡◌};
ghost use Rattle.sqlite.specs.Held.{state};
ghost use Rattle.dx_io.specs.Causes.{KeepCause, KeepsCount};
ghost use Rattle.dx_sql.specs.Faults.{answer_of, faults_after};
ghost use Rattle.dx_sql.specs.Telling.{told_if};

use crate::statements;
use crate::store::Lasting;
use dx_io::{KeepError, Keeper};
use sqlite::{Alter, Connection, Error, ErrorCode};

/// Rows in a database, in the table `block`.
#[derive(Drop)]
pub struct SqlKeeper<D: Alter> {
    conn: Connection<D>,
    faults: u64,
}

impl<D: Lasting> SqlKeeper<D> {
    /// A keeper over a database, that has had no fault. It takes no memory and runs no statement.
    pub fn new(conn: Connection<D>) -> SqlKeeper<D>
        ensures rows { ⟦<SqlKeeper<D> as Keeper>⟧.rows result ≡ told_if D.Lasting.lasts (state D.Store conn) }
        ensures faults { ⟦<SqlKeeper<D> as Keeper>⟧.faults result ≡ 0 }
    {
        SqlKeeper { conn, faults: 0 }
    }
}

/// The answer of a call, and one more fault where a statement was refused for another cause than memory.
fn answered<T: Drop>(faults: &mut u64, answer: Result<T, Error>) -> Result<T, KeepError>
    ensures value { result ≡ answer_of answer }
    ensures counted { faults.new ≡ faults_after faults.old result }
    ensures cause { KeepCause faults.old faults.new result }
    ensures good { KeepsCount faults.old faults.new result }
{
    let count = *faults;
    match answer {
        Ok(value) => Ok(value),
        Err(Error::SqliteFailure(ErrorCode::OutOfMemory)) => Err(KeepError::NoMemory),
        Err(_) => {
            *faults = count.saturating_add(1);
            Err(KeepError::Failed)
        }
    }
}

impl<D: Lasting> Keeper for SqlKeeper<D> {
    ghost rows = { λ k. told_if D.Lasting.lasts (state D.Store k.conn) };

    ghost faults = { λ k. k.faults };

    fn put(&mut self, node: u32, height: u32, bytes: &[u8]) -> Result<(), KeepError> {
        answered(
            &mut self.faults,
            statements::put(&mut self.conn, node, height, bytes),
        )
    }

    fn get(&mut self, node: u32, height: u32) -> Result<Option<Vec<u8>>, KeepError> {
        answered(
            &mut self.faults,
            statements::get(&mut self.conn, node, height),
        )
    }

    fn count(&mut self, node: u32) -> Result<u32, KeepError> {
        answered(&mut self.faults, statements::count(&mut self.conn, node))
    }
}

#[cfg(test)]
mod tests;
