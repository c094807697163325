//! Each public call once, with a fault at the second, and the texts of the faults. What the calls do to
//! bytes and rows is said by the contracts.

use super::*;
use std::alloc::Global;
use std::test::Fail;

// The answers of two reads of a source.
fn reads<S: Source>(source: &mut S) -> [Result<usize, Failed>; 2] {
    [source.read(&mut [0; 3]), source.read(&mut [0; 3])]
}

// The answers of two writes of a sink.
fn writes<S: Sink>(sink: &mut S) -> [Result<usize, SinkError>; 2] {
    [sink.write(b"one "), sink.write(b"two")]
}

// The answers of two calls that set a row.
fn puts<K: Keeper>(keeper: &mut K) -> [Result<(), KeepError>; 2] {
    [keeper.put(1, 7, b"first"), keeper.put(1, 7, b"second")]
}

// How long the row is and how many there are.
fn kept<K: Keeper>(keeper: &mut K) -> Result<(Option<usize>, u32), KeepError> {
    let row = keeper.get(1, 7)?.map(|bytes| bytes.len());
    Ok((row, keeper.count(1)?))
}

fn answers_of_sources(alloc: Global) -> Result<[[Result<usize, Failed>; 2]; 2], Fail> {
    let mut sure = SureSource::new(b"hello".to_vec(alloc)?);
    let mut listed = MemSource::new(b"hello".to_vec(alloc)?, [2].to_vec(alloc)?);
    Ok([reads(&mut sure), reads(&mut listed)])
}

#[test]
fn calls_fail_where_listed(rt: HostRuntime) -> Result<(), Fail> {
    let alloc = rt.alloc();
    assert_eq!(rt;
        answers_of_sources(alloc)?,
        [[Ok(3), Ok(2)], [Ok(3), Err(Failed)]]
    );
    let mut sink = SureSink::new(alloc);
    assert_eq!(rt; writes(&mut sink), [Ok(4), Ok(3)]);
    assert_eq!(rt; sink.bytes(), b"one two".as_slice());
    let mut sink = MemSink::new(alloc, [2].to_vec(alloc)?);
    assert_eq!(rt; writes(&mut sink), [Ok(4), Err(SinkError::Failed)]);
    assert_eq!(rt; sink.bytes(), b"one ".as_slice());
    let mut keeper = SureKeeper::new(alloc);
    assert_eq!(rt; puts(&mut keeper), [Ok(()), Ok(())]);
    assert_eq!(rt; kept(&mut keeper), Ok((Some(6), 1)));
    let mut keeper = MemKeeper::new(alloc, [2].to_vec(alloc)?);
    assert_eq!(rt; puts(&mut keeper), [Ok(()), Err(KeepError::Failed)]);
    assert_eq!(rt; kept(&mut keeper), Ok((Some(5), 1)));
    Ok(())
}
