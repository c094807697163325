ghost use Rattle.std.specs.Prelude.{◌≡◌, ◌<◌, Some, length, IfOk};
ghost use Rattle.std.specs.List.{concat};
ghost use Rattle.std.specs.Io.{ReadsAtMost};
ghost use Rattle.std.specs.Io.KnownBytes.{ReadConsumes};
ghost use Rattle.dx_io.specs.Causes.{ReadCause, one_more, KeepsCount};
ghost use Rattle.dx_io.specs.Streams.{TellsEnd};

use dx_gen::Gen;
use dx_io::{Failed, Source, SureSource};
use std::alloc::Global;
use std::marker::Model;

/// The lines of a generated scenario, as a source that holds one line at a time. Contracts see the bytes
/// that are left, which are the rest of that line and all lines yet to come, and how often there was no
/// memory for a line.
#[derive(Drop)]
pub struct LineSource {
    alloc: Global,
    lines: Gen,
    line: SureSource,
    faults: u64,
}

impl Model for LineSource {
    ghost use Rattle.std.specs.Prelude.{◌++◌};
    ghost use Rattle.std.specs.List.{concat};
    ghost use Rattle.dx_streams.specs.Sources.{Lines};

    ghost Value = { Lines };

    ghost view = { λ s. record { left = s.line ++ concat s.lines; faults = s.faults } };
}

/// The count of faults after one more. A count at its end stays there.
fn one_fault_more(faults: u64) -> u64
    ensures { result ≡ one_more faults }
{
    faults.saturating_add(1)
}

impl LineSource {
    /// A source with all lines of a scenario left. It takes memory for one line at a time.
    pub fn new(alloc: Global, lines: Gen) -> LineSource
        ensures lines { result ≡ record { left = concat lines; faults = 0 } }
        ensures left { ⟦<LineSource as Source>⟧.left result ≡ Some (concat lines) }
        ensures faults { ⟦<LineSource as Source>⟧.faults result ≡ 0 }
    {
        LineSource {
            alloc,
            lines,
            line: SureSource::new(Vec::new(alloc)),
            faults: 0,
        }
    }
}

impl Source for LineSource {
    ghost left = { λ s. Some s.left };

    ghost faults = { λ s. s.faults };

    /// Reads of the present line, and of the next one where that is handed out whole. Where there is no
    /// memory for the next line, that is a fault; the line is then still to come.
    fn read(&mut self, into: &mut [u8]) -> Result<usize, Failed>
        ensures bound { ReadsAtMost result into.new }
        ensures bytes { ReadConsumes (Some self.old.left) (Some self.new.left) result into.new }
        ensures end { IfOk result (λ n. 0 < length into.new → TellsEnd (Some self.old.left) n) }
        ensures cause { ReadCause self.old.faults self.new.faults result }
        ensures good { KeepsCount self.old.faults self.new.faults result }
    {
        let faults = self.faults;
        let count = self.line.read(into)?;
        if count > 0 || into.is_empty() {
            return Ok(count);
        }
        match self.lines.next_line(self.alloc) {
            Ok(Some(line)) => {
                self.line = SureSource::new(line.into_vec());
                self.line.read(into)
            }
            Ok(None) => Ok(0),
            Err(_) => {
                self.faults = one_fault_more(faults);
                Err(Failed)
            }
        }
    }
}
