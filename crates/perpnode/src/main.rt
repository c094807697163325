//! The program: it reads the lines of a scenario from standard input, answers each on standard output,
//! and ends with the number of the run's status. All that it does is `run` of `dx_app`, over the
//! adapters of std and a keeper over the database `perpnode.db` of the folder that it runs in. Where this
//! cannot be opened nothing is read or written.
#![tactic(auto)]

ghost use Rattle.std.specs.Prelude.{◌≡◌, ◌↔◌, ◌⊎◌};
ghost use Rattle.dx_types.specs.declared.status.Status.TheVariants as ends;
ghost use Rattle.sqlite.specs.declared.error.ErrorCode.TheVariants.{OutOfMemory};
ghost use Rattle.sqlite.specs.declared.error.Error.TheVariants.{SqliteFailure};

#[cfg(test)]
mod tests;

use dx_app::run;
use dx_io::{StdSink, StdSource};
use dx_sql::SqlKeeper;
use dx_types::{NoMemory, Status};
use sqlite::{Connection, Error, ErrorCode};
use std::alloc::Global;
use std::io::ErrorKind;
use std::process::ExitCode;
use std::{env, io};

/// Where the blocks are kept, in the folder that the program runs in. Its log lies beside it.
const DATABASE: &str = "perpnode.db";

/// The program's words without its name. Words that are no text become one empty word, which no
/// command takes.
fn words_of(rt: &HostRuntime) -> Result<Vec<String>, NoMemory> {
    let mut words = Vec::new(rt.alloc());
    match env::args(rt) {
        Ok(args) => {
            for word in args.skip(1) {
                words.push(word)?;
            }
        }
        Err(error) => {
            if error.kind() == ErrorKind::OutOfMemory {
                return Err(NoMemory);
            }
            words.push(String::new(rt.alloc()))?;
        }
    }
    Ok(words)
}

/// What a run ends with whose database cannot be opened.
fn unopened(error: &Error) -> Status
    ensures either { (result ≡ ends.NoMemory) ⊎ (result ≡ ends.KeepFault) }
    ensures memory { (result ≡ ends.NoMemory) ↔ (error.now ≡ SqliteFailure OutOfMemory) }
{
    match error {
        Error::SqliteFailure(ErrorCode::OutOfMemory) => Status::NoMemory,
        _ => Status::KeepFault,
    }
}

fn main(rt: HostRuntime) -> ExitCode {
    let alloc: Global = rt.alloc();
    let Ok(words) = words_of(&rt) else {
        return ExitCode::from(Status::NoMemory.number());
    };
    let conn = match Connection::open(&rt, DATABASE) {
        Ok(conn) => conn,
        Err(error) => return ExitCode::from(unopened(&error).number()),
    };
    let mut keeper = SqlKeeper::new(conn);
    let mut source = StdSource::new(rt.reader());
    let mut sink = StdSink::new(io::writer(&rt));
    let status = run(alloc, words.as_slice(), &mut source, &mut sink, &mut keeper);
    ExitCode::from(status.number())
}
