//! What the program is asked to do, by what was given to the command line.
ghost use Rattle.std.specs.Prelude.{◌≡◌, ◌<◌, codes, IfOk, IfSome, option_map, option_and_then, if◌then◌else◌};
ghost use Rattle.clap.specs.Matches.{found_of};
ghost use Rattle.clap.specs.Walk.{first_of, one_of, rows_of};
ghost use Rattle.clap.specs.Simple.{subcommand_rows_of};
ghost use Rattle.digest_core.specs.Name.{digest_named};
ghost use Rattle.command_line.specs.declared.request.MatchText.TheVariants.{Report, Full};
ghost use Rattle.command_line.specs.Words.{texts, command_of_name, command_entered, chosen, match_text_in, judge_in, seed_in, rows_given, given_options, IsNumberOf, ArePositive, AreGiven};

use crate::parser::command_line;
use clap::ArgMatches;
use clap::error::ErrorKind;
use digest_core::DigestName;
use rd_base::Memory;
use std::alloc::Global;

/// Which text of a match is written.
#[derive(Clone, Copy, Debug, PartialEq, Eq)]
pub enum MatchText {
    /// Its report, which people read.
    Report,
    /// Its full text, which can be audited.
    Full,
}

/// What the program is asked to do.
#[derive(Clone, Copy, Debug, PartialEq, Eq)]
pub enum Command {
    /// To decide a match by commitments of a digest, and to write a text of it.
    Judge(MatchText, DigestName),
    /// To run a case's program, and to write what its run answers.
    Run,
    /// To run a case's program, and to write the root of each of its states.
    Roots,
    /// To audit a full text, and to write what is found.
    Audit,
    /// To write the listing of a case's image.
    Listing,
    /// To decide the match of the large workload of a seed, and to write a summary.
    Big(u32),
}

/// The numbers of the options of a match, each that of its word, or its default if no word was given for it. No option changes what is
/// answered.
#[derive(Clone, Copy, Debug, PartialEq, Eq)]
pub struct OptionNumbers {
    /// That of `--workers`, at least 1.
    pub workers: u32,
    /// That of `--posters`, at least 1.
    pub posters: u32,
    /// That of `--every`, at least 1.
    pub every: u32,
}

/// A command with its options.
#[derive(Clone, Copy, Debug, PartialEq, Eq)]
pub struct Request {
    pub command: Command,
    pub options: OptionNumbers,
}

/// The seed that was given.
fn seed_given(given: &ArgMatches<'_>) -> Option<u32>
    ensures { result ≡ option_and_then seed_in (one_of (codes "N") (rows_of (found_of given.now))) }
{
    given.get_one::<u32>("N")
}

/// The full text if it is asked for, and else the report.
fn text_where(is_full: bool) -> MatchText
    ensures { result ≡ (if is_full then Full else Report) }
{
    if is_full {
        MatchText::Full
    } else {
        MatchText::Report
    }
}

/// The text that was asked for.
fn text_given(given: &ArgMatches<'_>) -> MatchText
    ensures { result ≡ match_text_in (one_of (codes "full") (rows_of (found_of given.now))) }
{
    text_where(given.get_one("full").unwrap_or(false))
}

/// The digest that was asked for.
fn digest_given(given: &ArgMatches<'_>) -> Option<DigestName>
    ensures { result ≡ option_and_then digest_named (first_of (codes "digest") (rows_of (found_of given.now))) }
{
    DigestName::named(given.get_str("digest")?)
}

/// `judge`, by what was given to it.
fn judge_given(given: &ArgMatches<'_>) -> Option<Command>
    ensures { result ≡ judge_in (rows_of (found_of given.now)) }
{
    let digest = digest_given(given)?;
    Some(Command::Judge(text_given(given), digest))
}

/// The command of a name, by what was given to it.
fn command_named(name: &str, given: &ArgMatches<'_>) -> Option<Command>
    ensures { result ≡ command_of_name name.now (rows_of (found_of given.now)) }
{
    match name {
        "judge" => judge_given(given),
        "run" => Some(Command::Run),
        "roots" => Some(Command::Roots),
        "audit" => Some(Command::Audit),
        "list" => Some(Command::Listing),
        "big" => Some(Command::Big(seed_given(given)?)),
        _ => None,
    }
}

/// The number of an option, at least 1.
fn number(given: &ArgMatches<'_>, name: &str, default: u32) -> u32
    requires { 0 < default }
    ensures some { 0 < result }
    ensures value { IsNumberOf (one_of name.now (rows_of (found_of given.now))) default result }
{
    match given.get_one::<u32>(name) {
        Some(number) => number.max(1),
        None => default,
    }
}

/// The numbers of the options.
fn options_in(given: &ArgMatches<'_>) -> OptionNumbers
    ensures counts { ArePositive result }
    ensures given { AreGiven (rows_of (found_of given.now)) result }
{
    OptionNumbers {
        workers: number(given, "workers", 1),
        posters: number(given, "posters", 1),
        every: number(given, "every", 1_024),
    }
}

/// The command that was parsed, with its options.
fn request_in(matches: &ArgMatches<'_>) -> Option<Request>
    ensures command { option_map (λ request. request.command) result ≡ command_entered (subcommand_rows_of matches.now) }
    ensures counts { IfSome result (λ request. ArePositive request.options) }
    ensures given { IfSome result (λ request. AreGiven (rows_given (subcommand_rows_of matches.now)) request.options) }
{
    let (name, given) = matches.subcommand()?;
    let command = command_named(name, given)?;
    let options = options_in(given);
    Some(Request { command, options })
}

/// The command that the arguments name, of which the first is the program's name, and its options; `None` if they name none.
pub fn command_given(alloc: Global, words: &[String]) -> Result<Option<Request>, Memory>
    ensures command { IfOk result (λ given. option_map (λ request. request.command) given ≡ chosen (texts words.now)) }
    ensures counts { IfOk result (λ given. IfSome given (λ request. ArePositive request.options)) }
    ensures options { IfOk result (λ given. IfSome given (λ request. AreGiven (given_options (texts words.now)) request.options)) }
{
    match command_line(alloc)?.try_get_matches_from(words) {
        Ok(matches) => Ok(request_in(&matches)),
        Err(error) => match error.kind() {
            ErrorKind::OutOfMemory => Err(Memory),
            _ => Ok(None),
        },
    }
}
