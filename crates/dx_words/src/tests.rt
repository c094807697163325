use crate::{Job, Words, WordsFault, read_words};
use std::alloc::Global;
use std::test::Fail;

/// Words that the command takes, and what they ask for.
const TAKEN: [(&[&str], Job, u64, u32); 10] = [
    (&[], Job::Replay, 1, 420),
    (&["--"], Job::Replay, 1, 420),
    (&["--job", "replay"], Job::Replay, 1, 420),
    (&["--job=generate", "--seed=5"], Job::Generate, 5, 420),
    (
        &["--job", "selfrun", "--seed", "7", "--events", "420"],
        Job::SelfRun,
        7,
        420,
    ),
    (
        &["--events", "100000", "--seed", "9223372036854775807"],
        Job::Replay,
        9_223_372_036_854_775_807,
        100_000,
    ),
    (&["--seed", "0", "--events", "1"], Job::Replay, 0, 1),
    (&["--seed", "+5"], Job::Replay, 5, 420),
    (&["--seed", "007", "--"], Job::Replay, 7, 420),
    (
        &["--events=+00000000000000000000000000042"],
        Job::Replay,
        1,
        42,
    ),
];

/// Words that the command does not take.
const REFUSED: [&[&str]; 30] = [
    &["--jobs"],
    &["--help"],
    &["-h"],
    &["--version"],
    &["-V"],
    &["replay"],
    &[""],
    &["-"],
    &["help"],
    &["--", "replay"],
    &["--", ""],
    &["--job"],
    &["--job="],
    &["--job", "Replay"],
    &["--job", "run"],
    &["--job", "--seed", "5"],
    &["--job", "--", "replay"],
    &["--jo", "replay"],
    &["-j", "replay"],
    &["--seed", "5", "--seed", "5"],
    &["--seed=5", "--seed=6"],
    &["--seed", "-5"],
    &["--seed=-5"],
    &["--seed=-0"],
    &["--seed", "9223372036854775808"],
    &["--seed", "5.0"],
    &["--seed", "0x5"],
    &["--events", "0"],
    &["--events", "100001"],
    &["--events", "5", "6"],
];

fn given(alloc: Global, texts: &[&str]) -> Result<Vec<String>, Fail> {
    let mut words = Vec::new(alloc);
    for text in texts {
        words.push(String::from_str(alloc, text)?)?;
    }
    Ok(words)
}

#[test]
fn words_are_taken(rt: HostRuntime) -> Result<(), Fail> {
    let alloc = rt.alloc();
    for (texts, job, seed, events) in TAKEN {
        let words = given(alloc, texts)?;
        let read = read_words(alloc, words.as_slice());
        assert!(rt; read == Ok(Words { job, seed, events }));
    }
    Ok(())
}

#[test]
fn words_are_refused(rt: HostRuntime) -> Result<(), Fail> {
    let alloc = rt.alloc();
    for texts in REFUSED {
        let words = given(alloc, texts)?;
        let read = read_words(alloc, words.as_slice());
        assert!(rt; read == Err(WordsFault::Usage));
    }
    Ok(())
}
