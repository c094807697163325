ghost use Rattle.std.specs.Prelude.{◌≡◌, ◌+◌, ◌*◌, ◌/◌, ◌<◌, [], ◌∷◌, length, IfOk, IfSome, OnErr, MatchOption};
ghost use Rattle.std.specs.List.{AllByRecursion};
ghost use Rattle.dx_gen.specs.Lines.{scenario};
ghost use Rattle.dx_gen.specs.Texts.{scenario_lines};
ghost use Rattle.dx_gen.specs.Bounds.{IsInBounds};

use crate::progress::{Part, Progress, next};
use crate::texts::line_text;
use dx_types::{List, NoMemory};
use std::alloc::Global;
use std::marker::Model;

/// A generated scenario ("The generator" in docs/RULES.md). Contracts see the lines that are yet to
/// come, each as its bytes with its newline.
#[derive(Drop)]
pub struct Gen {
    progress: Progress,
}

impl Model for Gen {
    ghost use Rattle.std.specs.Prelude.{ℕ, List, map, ◌≤◌};
    ghost use Rattle.dx_gen.specs.Left.{left_of};
    ghost use Rattle.dx_gen.specs.Texts.{line_text};

    ghost Value = { List (List ℕ) };

    ghost view = { λ g. map line_text (left_of g.progress) };

    ghost invariant = { λ g. g.progress.made ≤ g.progress.events };
}

impl Gen {
    /// The scenario of a seed and of `events` orders ("The generator" in docs/RULES.md). It has 6 lines before the
    /// first order, one line for each order, 6 more behind each seventh order, and 5 at the end: together
    /// 11 + `events` + 6 · floor(`events` / 7). It takes no memory.
    pub fn new(seed: u64, events: u32) -> Gen
        ensures lines { result ≡ scenario_lines seed events }
        ensures count { length result ≡ 11 + events + 6 * (events / 7) }
        ensures bounds { AllByRecursion (IsInBounds events) (scenario seed events) }
    {
        Gen {
            progress: Progress {
                state: seed,
                made: 0,
                events,
                part: Part::Opening,
                at: 0,
            },
        }
    }

    /// The next line with its newline, or nothing behind the last one, however often it is asked.
    /// `NoMemory` where there is no memory for the line, which is then still to come.
    pub fn next_line(&mut self, alloc: Global) -> Result<Option<List<u8>>, NoMemory>
        ensures line { IfOk result
            (λ line. MatchOption line ((self.old ≡ []) × (self.new ≡ [])) (λ text. self.old ≡ text ∷ self.new)) }
        ensures some { IfOk result (λ line. IfSome line (λ text. 0 < length text)) }
        ensures err { OnErr result (self.new ≡ self.old) }
    {
        let mut after = self.progress;
        let Some(line) = next(&mut after) else {
            return Ok(None);
        };
        let text = line_text(alloc, &line)?;
        self.progress = after;
        Ok(Some(text))
    }
}
