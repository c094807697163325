ghost use Rattle.std.specs.Prelude.{◌≡◌, IfOk, OnOk, OnErr};

use dx_io::{KeepError, Keeper};
use dx_lines::{Entry, Line};
use dx_types::{List, SubaccountId};

/// Where lists of lines are kept, by node and height, beside the rows of a keeper.
///
/// # Errors
///
/// Of each call: `Failed` comes only where the count of faults rose, which is the keeper's. `NoMemory` comes where
/// there is no memory for a list. After either the lists are as before. Where the lists are told, each call leaves
/// the rows that are told.
pub trait LineKeeper: Keeper {
    ghost use Rattle.std.specs.Prelude.{Option};
    ghost use Rattle.dx_io.specs.Causes.{KeepCause, KeepsCount};
    ghost use Rattle.dx_books.specs.Books.{Books, SameBooks, SetsLines, CutsLines, FindsLines, LeavesRows};

    // The lists, where the keeper tells them.
    ghost books: { Self → Option Books };

    /// Sets the list of one node and height, and leaves all others.
    fn put_lines(&mut self, node: u32, height: u32, lines: &List<Line>) -> Result<(), KeepError>
        ensures set { OnOk result (SetsLines (books self.old) (books self.new)
            (record { node = node; height = height }) lines.now) }
        ensures err { OnErr result (SameBooks (books self.old) (books self.new)) }
        ensures rows { LeavesRows (books self.old) (Self.rows self.old) (Self.rows self.new) }
        ensures cause { KeepCause (Self.faults self.old) (Self.faults self.new) result }
        ensures good { KeepsCount (Self.faults self.old) (Self.faults self.new) result };

    /// Drops the lists of a node at greater heights, and leaves all others.
    fn cut_lines(&mut self, node: u32, height: u32) -> Result<(), KeepError>
        ensures cut { OnOk result (CutsLines (books self.old) (books self.new) node height) }
        ensures err { OnErr result (SameBooks (books self.old) (books self.new)) }
        ensures rows { LeavesRows (books self.old) (Self.rows self.old) (Self.rows self.new) }
        ensures cause { KeepCause (Self.faults self.old) (Self.faults self.new) result }
        ensures good { KeepsCount (Self.faults self.old) (Self.faults self.new) result };

    /// The lines of an account in the lists of a node, by height and place. The lists stay as they are.
    fn lines_of(&mut self, node: u32, who: SubaccountId) -> Result<List<Entry>, KeepError>
        ensures found { IfOk result (λ entries. FindsLines (books self.old) node who entries) }
        ensures kept { SameBooks (books self.old) (books self.new) }
        ensures rows { LeavesRows (books self.old) (Self.rows self.old) (Self.rows self.new) }
        ensures cause { KeepCause (Self.faults self.old) (Self.faults self.new) result }
        ensures good { KeepsCount (Self.faults self.old) (Self.faults self.new) result };
}
