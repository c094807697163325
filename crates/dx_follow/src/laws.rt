//! What books that follow the lines of a feed come to.

ghost use Rattle.dx_follow.specs.Laws.{FeedsLeadOn, LinesLeadOn};

/// Where a node's book would follow changes to a list, the books follow the lines of these changes, and that node's
/// book is the list then.
pub fn lines_lead_on()
    ensures { LinesLeadOn }
{}

/// Books that follow the lines of the changes to a lawful successor of a node's list have that successor, and the books
/// of all other nodes stay.
pub fn feeds_lead_on()
    ensures { FeedsLeadOn }
{}
