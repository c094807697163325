ghost use Rattle.std.specs.Prelude.{◌≡◌, ◌≤◌, IfOk};

use crate::faults::faults_after;
use crate::sink::{Sink, SinkError};
use crate::source::{Failed, Source};
use std::io::{Read, Write};

/// A reader of std as a source. It tells the bytes that the reader tells, and each error of the
/// reader is a fault.
#[derive(Drop)]
pub struct StdSource<R: Read> {
    reader: R,
    faults: u64,
}

impl<R: Read> StdSource<R> {
    /// A source that has had no fault.
    pub fn new(reader: R) -> StdSource<R>
        ensures left { ⟦<StdSource<R> as Source>⟧.left result ≡ R.remaining reader }
        ensures faults { ⟦<StdSource<R> as Source>⟧.faults result ≡ 0 }
    {
        StdSource { reader, faults: 0 }
    }
}

impl<R: Read> Source for StdSource<R> {
    ghost left = { λ s. R.remaining s.reader };

    ghost faults = { λ s. s.faults };

    fn read(&mut self, into: &mut [u8]) -> Result<usize, Failed> {
        let answer = self.reader.read(into);
        self.faults = faults_after(self.faults, answer.is_err());
        match answer {
            Ok(count) => Ok(count),
            Err(_) => Err(Failed),
        }
    }
}

/// A writer of std as a sink. It tells the bytes that the writer tells. Each error of the writer is
/// a fault, and so is taking nothing of a piece that is not empty.
#[derive(Drop)]
pub struct StdSink<W: Write> {
    writer: W,
    faults: u64,
}

impl<W: Write> StdSink<W> {
    /// A sink that has had no fault.
    pub fn new(writer: W) -> StdSink<W>
        ensures written { ⟦<StdSink<W> as Sink>⟧.written result ≡ W.contents writer }
        ensures faults { ⟦<StdSink<W> as Sink>⟧.faults result ≡ 0 }
    {
        StdSink { writer, faults: 0 }
    }
}

impl<W: Write> Sink for StdSink<W> {
    ghost written = { λ s. W.contents s.writer };

    ghost faults = { λ s. s.faults };

    fn write(&mut self, piece: &[u8]) -> Result<usize, SinkError> {
        let answer = self.writer.write(piece);
        let took_nothing = matches!(answer, Ok(0)) && !piece.is_empty();
        self.faults = faults_after(self.faults, answer.is_err() || took_nothing);
        match answer {
            Ok(count) => Ok(count),
            Err(_) => Err(SinkError::Failed),
        }
    }
}

#[cfg(test)]
mod tests {
    use super::*;
    use std::io::{Error, ErrorKind, Result as IoResult};

    /// Gives or takes two bytes at its first call, fails at its second, and then is at its end.
    #[derive(Drop)]
    struct Fading {
        calls: u8,
    }

    impl Fading {
        fn answer(&mut self, len: usize) -> IoResult<usize>
            ensures { IfOk result (λ n. n ≤ len) }
        {
            self.calls = self.calls.saturating_add(1);
            match self.calls {
                1 => Ok(len.min(2)),
                2 => Err(Error::from(ErrorKind::Other)),
                _ => Ok(0),
            }
        }
    }

    impl Read for Fading {
        fn read(&mut self, buf: &mut [u8]) -> IoResult<usize> {
            self.answer(buf.len())
        }
    }

    impl Write for Fading {
        fn write(&mut self, buf: &[u8]) -> IoResult<usize> {
            self.answer(buf.len())
        }

        fn flush(&mut self) -> IoResult<()> {
            Ok(())
        }
    }

    fn read_three<S: Source>(source: &mut S) -> Result<usize, Failed> {
        source.read(&mut [0; 3])
    }

    fn write_abc<S: Sink>(sink: &mut S) -> Result<usize, SinkError> {
        sink.write(b"abc")
    }

    #[test]
    fn an_error_of_the_reader_is_one_fault(rt: HostRuntime) {
        let mut source = StdSource::new(Fading { calls: 0 });
        assert_eq!(rt; read_three(&mut source), Ok(2));
        assert_eq!(rt; source.faults, 0);
        assert_eq!(rt; read_three(&mut source), Err(Failed));
        assert_eq!(rt; source.faults, 1);
        assert_eq!(rt; read_three(&mut source), Ok(0));
        assert_eq!(rt; source.faults, 1);
    }

    #[test]
    fn an_error_of_the_writer_and_a_piece_not_taken_are_faults(rt: HostRuntime) {
        let mut sink = StdSink::new(Fading { calls: 0 });
        assert_eq!(rt; write_abc(&mut sink), Ok(2));
        assert_eq!(rt; sink.faults, 0);
        assert_eq!(rt; write_abc(&mut sink), Err(SinkError::Failed));
        assert_eq!(rt; sink.faults, 1);
        assert_eq!(rt; write_abc(&mut sink), Ok(0));
        assert_eq!(rt; sink.faults, 2);
    }
}
