use crate::{Answer, Reply, Word, last_line, reply};
use arrayvec::ArrayVec;
use dx_types::{Account, Audit, Bad, List, MarketAudit, Position, Status};
use std::alloc::Global;
use std::test::Fail;

/// The number of a line, its word, an answer that owns no memory, and the line of the reply.
type Row = (u64, Word, Answer, &'static str);

fn refused(number: u32, value: Option<u32>) -> Answer {
    Answer::Refused { number, value }
}

/// Replies of orders and cancels.
fn placed() -> [Row; 9] {
    let rested = Answer::Rested { filled: 2 };
    let dropped = Answer::Dropped { filled: 4 };
    let (filled, code) = (38_066_820, 11);
    let stopped = Answer::Stopped { filled, code };
    [
        (5, Word::Place, Answer::Filled, "5 place filled\n"),
        (6, Word::Place, rested, "6 place rested 2\n"),
        (8, Word::Place, dropped, "8 place dropped 4\n"),
        (105, Word::Place, stopped, "105 place stopped 38066820 11\n"),
        (5, Word::Place, refused(4, None), "5 place refused 4\n"),
        (
            45,
            Word::Place,
            refused(6, Some(9)),
            "45 place refused 6 9\n",
        ),
        (6, Word::Cancel, Answer::Done(Some(1)), "6 cancel ok 1\n"),
        (
            8,
            Word::Cancel,
            refused(2, Some(10)),
            "8 cancel refused 2 10\n",
        ),
        (
            16,
            Word::CancelAll,
            Answer::Done(Some(1)),
            "16 cancelall ok 1\n",
        ),
    ]
}

/// Replies of a node and on blocks.
fn told() -> [Row; 16] {
    let (fills, offsets) = (0, 2);
    let proposed = Answer::Proposed {
        height: 2,
        ops: 6,
        fills: 2,
        msgs: 1,
        votes: 2,
        prices: 1,
    };
    let bad = Answer::Bad(Bad {
        part: 1,
        index: 2,
        fill: 1,
        code: 10,
    });
    let amounts = Answer::Amounts {
        committed: 175_070_872_424,
        speculative: 262_606_308_636,
    };
    let best = Answer::Best([303_107, 585, 312_568, 65]);
    let waits = Answer::Waits {
        above: true,
        trigger: 5_050_000_000,
    };
    [
        (4, Word::Message, Answer::Done(None), "4 message ok\n"),
        (15, Word::Feed, refused(2, None), "15 feed refused 2\n"),
        (
            11,
            Word::Sweep,
            Answer::Swept { fills, offsets },
            "11 sweep swept 0 2\n",
        ),
        (7, Word::Restart, Answer::Done(Some(2)), "7 restart ok 2\n"),
        (
            17,
            Word::Propose,
            proposed,
            "17 propose block 2 6 2 1 2 1\n",
        ),
        (2, Word::Block, Answer::Done(None), "2 block ok\n"),
        (6, Word::Show, Answer::Empty, "6 show empty\n"),
        (5, Word::Commit, bad, "5 commit bad 1 2 1 10\n"),
        (16, Word::Check, Answer::Empty, "16 check empty\n"),
        (3, Word::Balance, Answer::Absent, "3 balance none\n"),
        (
            120,
            Word::Filled,
            amounts,
            "120 filled 175070872424 262606308636\n",
        ),
        (60, Word::Best, best, "60 best 303107 585 312568 65\n"),
        (9, Word::Waits, waits, "9 waits 1 5050000000\n"),
        (11, Word::Waits, Answer::Absent, "11 waits none\n"),
        (19, Word::Resume, Answer::Absent, "19 resume none\n"),
        (
            20,
            Word::Resume,
            Answer::BadSnapshot { number: 4 },
            "20 resume bad 4\n",
        ),
    ]
}

/// Whether a reply to a line is printed as this text.
fn prints(alloc: Global, line: u64, word: Word, answer: Answer, text: &str) -> Result<bool, Fail> {
    let printed = reply(alloc, line, &Reply { word, answer })?;
    Ok(printed.as_slice() == text.as_bytes())
}

#[test]
fn replies_are_printed(rt: HostRuntime) -> Result<(), Fail> {
    let alloc = rt.alloc();
    for (line, word, answer, text) in placed() {
        assert!(rt; prints(alloc, line, word, answer, text)?, "at {text}");
    }
    for (line, word, answer, text) in told() {
        assert!(rt; prints(alloc, line, word, answer, text)?, "at {text}");
    }
    Ok(())
}

fn position(market: u32, size: i64, index: i64) -> Position {
    Position {
        market,
        size,
        index,
    }
}

fn balance() -> Answer {
    let mut positions = ArrayVec::new();
    positions.push(position(0, -4, 0));
    positions.push(position(1, 3, 5));
    let account = Account {
        quote: -2_647_889,
        positions,
    };
    Answer::Balance { height: 1, account }
}

fn audit() -> Answer {
    let mut markets = ArrayVec::new();
    markets.push(MarketAudit {
        market: 0,
        price: 276_788,
        index: -21_572_164_750,
        oi: 5,
        long: 6,
        short: 7,
        fund: -43_143,
        dust: 1_329_500,
        owed: -43_144_329_500,
    });
    Answer::Audit(Audit {
        height: 20,
        paid_in: 901_429_175_780,
        paid_out: 0,
        quotes: 20_338_542_368,
        fees: 7_883_351,
        charged: 7_883_335_049_100,
        fee_dust: 15_950_900,
        insurance: 881_082_793_947,
        markets,
    })
}

const AUDIT: &str =
    "219 audit 20 901429175780 0 20338542368 7883351 7883335049100 15950900 881082793947 \
    0 276788 -21572164750 5 6 7 -43143 1329500 -43144329500\n";

const DIGEST: &str =
    "787 digest 61 ababababababababababababababababababababababababababababababab09\n";

#[test]
fn lists_and_last_lines_are_printed(rt: HostRuntime) -> Result<(), Fail> {
    let alloc = rt.alloc();
    let heights = Answer::Heights(List::from_vec(vec![in alloc; 5, 0]?));
    assert!(rt; prints(alloc, 1, Word::Genesis, heights, "1 genesis 5 0\n")?);
    let good = Answer::Good(List::from_vec(vec![in alloc; 4, 7]?));
    assert!(rt; prints(alloc, 18, Word::Commit, good, "18 commit good 4 7\n")?);
    let bytes = Answer::Bytes(List::from_vec(vec![in alloc; 1, 0, 0xed]?));
    assert!(rt; prints(alloc, 6, Word::Show, bytes, "6 show 0100ed\n")?);
    assert!(rt;
        prints(
            alloc,
            22,
            Word::Spec,
            balance(),
            "22 spec 1 -2647889 2 0 -4 0 1 3 5\n"
        )?
    );
    assert!(rt; prints(alloc, 219, Word::Audit, audit(), AUDIT)?);
    let mut digest = [0xab; 32];
    digest[31] = 9;
    let digest = Answer::Digest { height: 61, digest };
    assert!(rt; prints(alloc, 787, Word::Digest, digest, DIGEST)?);
    let text = last_line(alloc, &Status::BadLine { line: 2, field: 3 })?;
    assert_eq!(rt; text.as_slice(), "fault 1 2 3\n".as_bytes());
    Ok(())
}
