ghost use Rattle.std.specs.Prelude.{◌≡◌};
ghost use Rattle.dx_operations.specs.Refusals.{code_of};

use dx_ledger::OpFault;
use thiserror::Error;

/// Why an operation is refused before it comes to a fill, or at a fill whose maker is unknown.
#[derive(Clone, Copy, Debug, PartialEq, Eq, Error)]
pub enum OpRefusal {
    /// The order that is to be placed fails its tests.
    #[error("the order fails its tests")]
    BadOrder,
    /// An order of its id is placed that is as new.
    #[error("an order of the id that is as new is placed")]
    NotNewer,
    /// There is no order of the taker's id.
    #[error("there is no order of the taker's id")]
    UnknownTaker,
    /// There is no order of the maker's id.
    #[error("there is no order of the maker's id")]
    UnknownMaker,
    /// The match has no fill.
    #[error("the match has no fill")]
    EmptyMatch,
    /// The taker only rests.
    #[error("the taker only rests")]
    BadRole,
}

impl OpRefusal {
    /// The number by which a block names it ("Codes of a block" in docs/RULES.md).
    pub fn number(self) -> u32
        ensures { result ≡ code_of self }
    {
        match self {
            OpRefusal::BadOrder => 1,
            OpRefusal::NotNewer => 2,
            OpRefusal::UnknownTaker => 3,
            OpRefusal::UnknownMaker => 4,
            OpRefusal::EmptyMatch => 28,
            OpRefusal::BadRole => 29,
        }
    }
}

impl From<OpRefusal> for OpFault {
    ghost use Rattle.dx_operations.specs.Refusals.{op_fault};

    ghost from_gives = { λ r f. f ≡ op_fault r };

    /// The fault of an operation's first fill.
    fn from(refusal: OpRefusal) -> OpFault {
        OpFault::Code {
            fill: 0,
            code: refusal.number(),
        }
    }
}
