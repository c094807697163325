ghost use Rattle.std.specs.Prelude.{◌≡◌, ◌+◌, ◌<◌, ◌≤◌, [], ◌∷◌, slice_get, option_copied, MatchOption, IfSome};
ghost use Rattle.dx_gen.specs.Left.{part_lines, part_behind, coming, left_of};

use crate::draws::{ORDERS_A_ROUND, draw_place};
use crate::lines::{Line, closing, opening, round_lines};

/// The part of the scenario that the next line is of.
#[derive(Clone, Copy, Debug, PartialEq, Eq)]
pub(crate) enum Part {
    /// The lines before the first order.
    Opening,
    /// An order.
    Orders,
    /// A round behind the last order.
    Round,
    /// The lines behind the last order and its round.
    Closing,
}

/// How far a scenario has come.
#[derive(Clone, Copy, Debug, PartialEq, Eq)]
pub(crate) struct Progress {
    /// The state of the draws.
    pub state: u64,
    /// So many orders were made.
    pub made: u32,
    /// So many orders are wanted.
    pub events: u32,
    /// The part that the next line is of.
    pub part: Part,
    /// So many lines of that part were handed out, at most 6.
    pub at: usize,
}

fn line_at(lines: &[Line], at: usize) -> Option<Line>
    ensures { result ≡ slice_get lines.now at }
{
    lines.get(at).copied()
}

/// The next line of the part, if it has one more.
fn part_line(progress: &Progress) -> Option<Line>
    ensures line { result ≡ slice_get (part_lines progress.now.part progress.now.made) progress.now.at }
    ensures room { IfSome result (λ _. progress.now.at < 6) }
{
    match progress.part {
        Part::Opening => line_at(&opening(), progress.at),
        Part::Orders => None,
        Part::Round => line_at(&round_lines(progress.made / ORDERS_A_ROUND), progress.at),
        Part::Closing => line_at(&closing(), progress.at),
    }
}

/// The part behind the last of so many orders: a round behind each seventh.
fn part_behind(made: u32) -> Part
    ensures { result ≡ part_behind made }
{
    if made % ORDERS_A_ROUND == 0 {
        Part::Round
    } else {
        Part::Orders
    }
}

/// Goes on behind a part: the line of the next order, or the first closing line.
fn go_on(progress: &mut Progress) -> Line
    requires { progress.old.made ≤ progress.old.events }
    ensures line { coming progress.old ≡ result ∷ left_of progress.new }
    ensures within { progress.new.made ≤ progress.new.events }
{
    if progress.made == progress.events {
        progress.part = Part::Closing;
        progress.at = 1;
        return Line::Digest { node: 0 };
    }
    let line = draw_place(&mut progress.state, progress.made);
    progress.made += 1;
    progress.at = 0;
    progress.part = part_behind(progress.made);
    line
}

/// The next line, if there is one.
pub(crate) fn next(progress: &mut Progress) -> Option<Line>
    requires { progress.old.made ≤ progress.old.events }
    ensures line { MatchOption result (left_of progress.old ≡ [])
        (λ line. left_of progress.old ≡ line ∷ left_of progress.new) }
    ensures within { progress.new.made ≤ progress.new.events }
{
    if let Some(line) = part_line(progress) {
        progress.at += 1;
        return Some(line);
    }
    if progress.part == Part::Closing {
        return None;
    }
    Some(go_on(progress))
}
