//! Two runs over one keeper: the second goes on where the first ended.

use dx_app::replay_all;
use dx_io::{SureSink, SureSource};
use dx_sql::SqlKeeper;
use dx_types::Status;
use sqlite::{Connection, MemStore};
use std::alloc::Global;
use std::test::Fail;

const GENESIS: &str = "[\"genesis\",1,0,0,1,[500,200,5000,1500000,1000000],[]]\n";

const BLOCKS: &str =
    "[\"block\",1,1,1,[],[],[],[]]\n[\"commit\",0,1]\n[\"block\",2,2,2,[],[],[],[]]\n[\"commit\",0,2]\n";

/// Runs lines over a keeper, and answers how the run ended and what was written.
fn replay(
    alloc: Global,
    lines: &[u8],
    keeper: &mut SqlKeeper<MemStore>,
) -> Result<(u8, Vec<u8>), Fail> {
    let mut source = SureSource::new(Vec::from_slice(alloc, lines)?);
    let mut sink = SureSink::new(alloc);
    let status: Status = replay_all(alloc, &mut source, &mut sink, keeper);
    Ok((status.number(), Vec::from_slice(alloc, sink.bytes())?))
}

#[test]
fn a_run_goes_on_from_the_rows_of_a_database(rt: HostRuntime) -> Result<(), Fail> {
    let alloc = rt.alloc();
    let mut keeper = SqlKeeper::new(Connection::open_in_memory(alloc)?);
    let mut lines = Vec::from_slice(alloc, GENESIS.as_bytes())?;
    lines.extend_from_slice(BLOCKS.as_bytes())?;
    let (status, written) = replay(alloc, lines.as_slice(), &mut keeper)?;
    assert_eq!(rt; status, 0);
    assert_eq!(rt;
        written.as_slice(),
        "1 genesis 0\n2 block ok\n3 commit good 1\n4 block ok\n5 commit good 2\n".as_bytes()
    );
    let (status, written) = replay(alloc, GENESIS.as_bytes(), &mut keeper)?;
    assert_eq!(rt; status, 0);
    assert_eq!(rt; written.as_slice(), "1 genesis 2\n".as_bytes());
    Ok(())
}
