use crate::{HashSink, LineSource, summary};
use dx_gen::Gen;
use dx_io::{Sink, Source};
use std::test::Fail;

/// Hashes what a source has left.
fn hashed(mut source: LineSource) -> Result<[u8; 32], Fail> {
    let mut sink = HashSink::new();
    let mut piece = [0; 100];
    for _ in 0..10_000 {
        let count = source.read(&mut piece)?;
        let (front, _) = piece.as_slice().split_at(count);
        sink.write(front)?;
        if count == 0 {
            break;
        }
    }
    Ok(sink.digest())
}

#[test]
fn lines_are_hashed(rt: HostRuntime) -> Result<(), Fail> {
    let alloc = rt.alloc();
    let digest = hashed(LineSource::new(alloc, Gen::new(7, 420)))?;
    let text = summary(alloc, 791, &digest)?;
    let wanted =
        "lines 791\nsha256 c7b86a2a258f3d456be78d164f9d00d0fbe0a5564978d62b2cb842b6c6c2d4d8\n";
    assert!(rt; text.as_slice() == wanted.as_bytes());
    let digest = hashed(LineSource::new(alloc, Gen::new(u64::MAX, 15)))?;
    let text = summary(alloc, 38, &digest)?;
    let wanted =
        "lines 38\nsha256 45b2c3c9f7b5f0ec027168f2c6341b712cac1718dde245367a080a6611cebbaf\n";
    assert!(rt; text.as_slice() == wanted.as_bytes());
    Ok(())
}
