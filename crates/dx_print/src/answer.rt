ghost use Rattle.std.specs.Prelude.{◌≡◌, ◌++◌, OnOk};
ghost use Rattle.dx_print.specs.Numbers.{spaced, spaced_hex};
ghost use Rattle.dx_print.specs.Answers.{stopped_text, refused_text, done_text, swept_text, proposed_text, good_text, bad_text, waits_text, answer_text, bad_snapshot_text};

use crate::audits::push_audit;
use crate::balances::push_balance;
use crate::numbers::{push_amounts, push_hex, push_number, push_numbers, push_option, push_text};
use dx_types::{Account, Audit, Bad, List, NoMemory};

/// What is replied to an event, without the event's word. Which answers an event has stands in
/// docs/FORMAT.md, Events. Amounts are in base quantums.
#[derive(Debug, PartialEq, Eq, Drop)]
pub enum Answer {
    /// The heights of all nodes.
    Heights(List<u32>),
    /// The placed order is filled whole.
    Filled,
    /// What is left of the placed order rests.
    Rested {
        /// What this placing filled, from 0 to 2^48 − 1.
        filled: u64,
    },
    /// What is left of the placed order is dropped, since it does not rest.
    Dropped {
        /// What this placing filled, from 0 to 2^48 − 1.
        filled: u64,
    },
    /// The placed order was stopped by a fill that a block would refuse.
    Stopped {
        /// What this placing filled, from 0 to 2^48 − 1.
        filled: u64,
        /// The code of that fill, by the codes of blocks in docs/RULES.md.
        code: u32,
    },
    /// The event is refused.
    Refused {
        /// The number of the cause among the event's refusals.
        number: u32,
        /// The last height of the cancel that is kept, where the cause is one.
        value: Option<u32>,
    },
    /// It was done; some events tell a number with it.
    Done(Option<u32>),
    /// An account was swept.
    Swept {
        /// How many fills liquidate it.
        fills: u32,
        /// How many offsets deleverage it.
        offsets: u32,
    },
    /// A block was proposed.
    Proposed {
        /// Its height.
        height: u32,
        /// How many operations it has.
        ops: u32,
        /// How many fills and offsets they have together.
        fills: u32,
        /// How many messages it has.
        msgs: u32,
        /// How many votes it has.
        votes: u32,
        /// How many prices it has.
        prices: u32,
    },
    /// The bytes of a block.
    Bytes(List<u8>),
    /// The slot was never filled.
    Empty,
    /// The account, or the snapshot, is not kept, or no such order waits.
    Absent,
    /// The block is good: for a commit its height and the results of its messages.
    Good(List<u32>),
    /// The first bad part of the block.
    Bad(Bad),
    /// A balance.
    Balance {
        /// The committed height.
        height: u32,
        /// The account.
        account: Account,
    },
    /// The filled amounts of an order.
    Amounts {
        /// In the committed state.
        committed: u64,
        /// In the state after the node's queue.
        speculative: u64,
    },
    /// The subticks of the best bid and what is left of it, then the same of the best ask; 0 and 0
    /// where there is none.
    Best([u64; 4]),
    /// The sums of the committed state.
    Audit(Audit),
    /// The digest of the committed state.
    Digest {
        /// Its height.
        height: u32,
        /// The SHA-256 of its bytes.
        digest: [u8; 32],
    },
    /// The order waits for its trigger.
    Waits {
        /// Whether a price at the trigger or above it meets it; else one at the trigger or below it does.
        above: bool,
        /// The price, from 1 to 2^48 − 1.
        trigger: u64,
    },
    /// A node does not start from a snapshot.
    BadSnapshot {
        /// The number of the cause.
        number: u32,
    },
}

fn push_stopped(out: &mut Vec<u8>, filled: u64, code: u32) -> Result<(), NoMemory>
    ensures { OnOk result (out.new.items ≡ out.old.items ++ stopped_text filled code) }
{
    push_text(out, " stopped")?;
    push_number(out, filled)?;
    push_number(out, u64::from(code))
}

fn push_refused(out: &mut Vec<u8>, number: u32, value: Option<u32>) -> Result<(), NoMemory>
    ensures { OnOk result (out.new.items ≡ out.old.items ++ refused_text number value) }
{
    push_text(out, " refused")?;
    push_number(out, u64::from(number))?;
    push_option(out, value)
}

fn push_done(out: &mut Vec<u8>, number: Option<u32>) -> Result<(), NoMemory>
    ensures { OnOk result (out.new.items ≡ out.old.items ++ done_text number) }
{
    push_text(out, " ok")?;
    push_option(out, number)
}

fn push_swept(out: &mut Vec<u8>, fills: u32, offsets: u32) -> Result<(), NoMemory>
    ensures { OnOk result (out.new.items ≡ out.old.items ++ swept_text fills offsets) }
{
    push_text(out, " swept")?;
    push_number(out, u64::from(fills))?;
    push_number(out, u64::from(offsets))
}

fn push_proposed(out: &mut Vec<u8>, numbers: &[u32]) -> Result<(), NoMemory>
    ensures { OnOk result (out.new.items ≡ out.old.items ++ proposed_text numbers.now) }
{
    push_text(out, " block")?;
    push_numbers(out, numbers)
}

fn push_good(out: &mut Vec<u8>, numbers: &[u32]) -> Result<(), NoMemory>
    ensures { OnOk result (out.new.items ≡ out.old.items ++ good_text numbers.now) }
{
    push_text(out, " good")?;
    push_numbers(out, numbers)
}

fn push_bad(out: &mut Vec<u8>, bad: &Bad) -> Result<(), NoMemory>
    ensures { OnOk result (out.new.items ≡ out.old.items ++ bad_text bad.now) }
{
    push_text(out, " bad")?;
    push_number(out, u64::from(bad.part))?;
    push_number(out, u64::from(bad.index))?;
    push_number(out, u64::from(bad.fill))?;
    push_number(out, u64::from(bad.code))
}

/// Puts a text and a number behind the others.
fn push_counted(out: &mut Vec<u8>, text: &str, number: u64) -> Result<(), NoMemory>
    ensures { OnOk result (out.new.items ≡ out.old.items ++ (text.now ++ spaced number)) }
{
    push_text(out, text)?;
    push_number(out, number)
}

fn push_filled(out: &mut Vec<u8>, committed: u64, speculative: u64) -> Result<(), NoMemory>
    ensures { OnOk result (out.new.items ≡ out.old.items ++ (spaced committed ++ spaced speculative)) }
{
    push_number(out, committed)?;
    push_number(out, speculative)
}

fn push_digest(out: &mut Vec<u8>, height: u32, digest: &[u8]) -> Result<(), NoMemory>
    ensures { OnOk result (out.new.items ≡ out.old.items ++ (spaced height ++ spaced_hex digest.now)) }
{
    push_number(out, u64::from(height))?;
    push_hex(out, digest)
}

fn push_waits(out: &mut Vec<u8>, above: bool, trigger: u64) -> Result<(), NoMemory>
    ensures { OnOk result (out.new.items ≡ out.old.items ++ waits_text above trigger) }
{
    push_number(out, u64::from(above))?;
    push_number(out, trigger)
}

fn push_bad_snapshot(out: &mut Vec<u8>, number: u32) -> Result<(), NoMemory>
    ensures { OnOk result (out.new.items ≡ out.old.items ++ bad_snapshot_text number) }
{
    push_text(out, " bad")?;
    push_number(out, u64::from(number))
}

/// Puts the text of an answer behind the others.
pub fn push_answer(out: &mut Vec<u8>, answer: &Answer) -> Result<(), NoMemory>
    ensures { OnOk result (out.new.items ≡ out.old.items ++ answer_text answer.now) }
{
    match answer {
        Answer::Heights(heights) => push_numbers(out, heights.as_slice()),
        Answer::Filled => push_text(out, " filled"),
        Answer::Rested { filled } => push_counted(out, " rested", *filled),
        Answer::Dropped { filled } => push_counted(out, " dropped", *filled),
        Answer::Stopped { filled, code } => push_stopped(out, *filled, *code),
        Answer::Refused { number, value } => push_refused(out, *number, *value),
        Answer::Done(number) => push_done(out, *number),
        Answer::Swept { fills, offsets } => push_swept(out, *fills, *offsets),
        Answer::Proposed {
            height,
            ops,
            fills,
            msgs,
            votes,
            prices,
        } => { push_proposed(out, &[*height, *ops, *fills, *msgs, *votes, *prices]) }
        Answer::Bytes(bytes) => push_hex(out, bytes.as_slice()),
        Answer::Empty => push_text(out, " empty"),
        Answer::Absent => push_text(out, " none"),
        Answer::Good(numbers) => push_good(out, numbers.as_slice()),
        Answer::Bad(bad) => push_bad(out, bad),
        Answer::Balance { height, account } => push_balance(out, *height, account),
        Answer::Amounts {
            committed,
            speculative,
        } => push_filled(out, *committed, *speculative),
        Answer::Best(levels) => push_amounts(out, levels),
        Answer::Audit(audit) => push_audit(out, audit),
        Answer::Digest { height, digest } => push_digest(out, *height, digest),
        Answer::Waits { above, trigger } => push_waits(out, *above, *trigger),
        Answer::BadSnapshot { number } => push_bad_snapshot(out, *number),
    }
}
