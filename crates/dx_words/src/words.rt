ghost use Rattle.std.specs.Prelude.{◌≡◌, false, None, Some, map, IfOk, IfErr, string_bytes, codes};
ghost use Rattle.clap.specs.Words.{IsPlainArg, Text, app_of, found_of, kind_of, rows_of, rule_of};
ghost use Rattle.clap.specs.declared.error.ErrorKind.TheVariants.{OutOfMemory};
ghost use Rattle.dx_words.specs.Asked.{job_rule, seed_rule, events_rule, perpnode, job_named, job_of, seed_of, events_of, words_in, asked, IsRefused};
ghost use Rattle.dx_words.specs.Options.{IsNumberOption, HasOptions};
ghost use Rattle.std.specs.Str.{bytes_eq};

use clap::builder::ValueParser;
use clap::error::ErrorKind;
use clap::{Arg, ArgAction, ArgMatches, Command, Error};
use std::alloc::{AllocError, Global};
use thiserror::Error as Fault;

/// The last seed, 2^63 − 1.
const LAST_SEED: u64 = 9_223_372_036_854_775_807;

/// The most orders of a generated scenario.
const MOST_EVENTS: u64 = 100_000;

/// What the program is to do.
#[derive(Clone, Copy, Debug, PartialEq, Eq)]
pub enum Job {
    /// Answer the lines of the input.
    Replay,
    /// Answer a generated scenario, and tell the digest of the answers.
    SelfRun,
    /// Write a generated scenario.
    Generate,
}

/// What the words ask for.
#[derive(Clone, Copy, Debug, PartialEq, Eq)]
pub struct Words {
    /// What the program is to do.
    pub job: Job,
    /// The seed of a generated scenario, from 0 to 2^63 − 1.
    pub seed: u64,
    /// How many orders a generated scenario has, from 1 to 100,000.
    pub events: u32,
}

/// Why the words say nothing.
#[derive(Clone, Copy, Debug, PartialEq, Eq, Fault)]
pub enum WordsFault {
    /// The command does not take the words; a request for help is among these.
    #[error("the words are not taken")]
    Usage,
    /// There was no memory to read them.
    #[error("out of memory")]
    NoMemory,
}

impl From<AllocError> for WordsFault {
    ghost use Rattle.dx_words.specs.declared.words.WordsFault.TheVariants as faults;

    ghost from_gives = { λ _ fault. fault ≡ faults.NoMemory };

    fn from(_refused: AllocError) -> WordsFault {
        WordsFault::NoMemory
    }
}

fn job_arg<'a>(alloc: Global) -> Arg<'a>
    ensures rule { rule_of result ≡ job_rule }
    ensures local { result.global ≡ false }
    ensures named { result.id.now ≡ codes "job" }
    ensures plain { IsPlainArg result }
{
    Arg::new(alloc, "job")
        .long("job")
        .action(ArgAction::Set)
        .default_value("replay")
}

fn seed_arg<'a>(alloc: Global) -> Arg<'a>
    ensures rule { rule_of result ≡ seed_rule }
    ensures local { result.global ≡ false }
    ensures option { IsNumberOption (codes "seed") 0 9_223_372_036_854_775_807 result }
{
    Arg::new(alloc, "seed")
        .long("seed")
        .action(ArgAction::Set)
        .default_value("1")
        .value_parser(ValueParser::unsigned(0, LAST_SEED))
}

fn events_arg<'a>(alloc: Global) -> Arg<'a>
    ensures rule { rule_of result ≡ events_rule }
    ensures local { result.global ≡ false }
    ensures option { IsNumberOption (codes "events") 1 100_000 result }
{
    Arg::new(alloc, "events")
        .long("events")
        .action(ArgAction::Set)
        .default_value("420")
        .value_parser(ValueParser::unsigned(1, MOST_EVENTS))
}

/// The command that reads the words, which begin behind the program's name.
fn command<'a>(alloc: Global) -> Result<Command<'a>, AllocError>
    ensures app { IfOk result (λ command. app_of command ≡ perpnode) }
    ensures options { IfOk result HasOptions }
{
    Command::new(alloc, "perpnode")
        .no_binary_name(true)
        .arg(job_arg(alloc))?
        .arg(seed_arg(alloc))?
        .arg(events_arg(alloc))
}

/// The job of a name.
fn job_named(name: &str) -> Option<Job>
    ensures { result ≡ job_named name.now }
{
    if name == "replay" {
        return Some(Job::Replay);
    }
    if name == "selfrun" {
        return Some(Job::SelfRun);
    }
    if name == "generate" {
        return Some(Job::Generate);
    }
    None
}

fn job_of(matches: &ArgMatches<'_>) -> Option<Job>
    ensures { result ≡ job_of (rows_of (found_of matches.now)) }
{
    job_named(matches.get_str("job")?)
}

fn seed_of(matches: &ArgMatches<'_>) -> Option<u64>
    ensures { result ≡ seed_of (rows_of (found_of matches.now)) }
{
    matches.get_one::<u64>("seed")
}

fn events_of(matches: &ArgMatches<'_>) -> Option<u32>
    ensures { result ≡ events_of (rows_of (found_of matches.now)) }
{
    matches.get_one::<u32>("events")
}

/// What the matches of the command ask for.
#[tactic(auto, unfolding(crate::specs::Asked::words_in))]
fn words_in(matches: &ArgMatches<'_>) -> Option<Words>
    ensures { result ≡ words_in (rows_of (found_of matches.now)) }
{
    let job = job_of(matches)?;
    let seed = seed_of(matches)?;
    let events = events_of(matches)?;
    Some(Words { job, seed, events })
}

/// Why the command did not take the words.
fn refusal(error: &Error) -> WordsFault
    ensures { result ≡ WordsFault.Usage → kind_of error.now ≡ OutOfMemory → ⊥ }
{
    match error.kind() {
        ErrorKind::OutOfMemory => WordsFault::NoMemory,
        _ => WordsFault::Usage,
    }
}

/// What the program's words ask for; `words` are those behind its name.
///
/// # Errors
///
/// `Usage` exactly where the command does not take the words, and `NoMemory` where there was no memory
/// to read them.
pub fn read_words(alloc: Global, words: &[String]) -> Result<Words, WordsFault>
    ensures read { IfOk result (λ read. asked (map string_bytes words.now) ≡ Some read) }
    ensures usage { IfErr result (λ fault. fault ≡ WordsFault.Usage → asked (map string_bytes words.now) ≡ None) }

    // `Usage` comes only where the command refuses the words, or where no job has the name that they give.
    ensures only { IfErr result (λ fault. fault ≡ WordsFault.Usage → IsRefused (map string_bytes words.now)) }
{
    let command = command(alloc)?;
    match command.try_get_matches_from(words) {
        Ok(matches) => words_in(&matches).ok_or(WordsFault::Usage),
        Err(error) => Err(refusal(&error)),
    }
}
