//! The command line, as it is defined for `clap`.
ghost use Rattle.std.specs.Prelude.{◌≡◌, ℕ, pos, false, IfOk};
ghost use Rattle.clap.specs.Walk.{rule_of};
ghost use Rattle.clap.specs.Simple.{app_of};
ghost use Rattle.clap.specs.declared.builder.command.Command.TheViews.{out-Command as fields_of};
ghost use Rattle.clap.specs.declared.builder.value_parser.ValueParser.TheVariants as parsers;
ghost use Rattle.command_line.specs.Words.{seed_rule, number_option as the_number_option, with_match_options as the_match_options, full_option as the_full_option, digest_option as the_digest_option, judge_line as the_judge_line, big_line as the_big_line, command_line as the_command_line};

use clap::builder::ValueParser;
use clap::{Arg, ArgAction, Command as Parser, value_parser};
use std::alloc::{AllocError, Global};

/// An option `--name` with a number, and its default.
fn number_option<'a>(
    alloc: Global,
    name: &'a str,
    numbers: ValueParser<'a>,
    default: &'a str,
) -> Arg<'a>
    ensures rule { (most : ℕ) → numbers.entry ≡ parsers.Signed (pos 1) (pos most) → rule_of result ≡ the_number_option name.entry.now most default.entry.now }
    ensures own { result.global ≡ false }
{
    Arg::new(alloc, name)
        .long(name)
        .value_parser(numbers)
        .default_value(default)
}

/// A command with the options of a match: `--workers` from 1 to 64, `--posters` from 1 to 16, and `--every` from 1 to 65,536.
fn with_match_options<'a>(alloc: Global, command: Parser<'a>) -> Result<Parser<'a>, AllocError>
    ensures app { IfOk result (λ parser. app_of parser ≡ the_match_options (app_of command.entry)) }
    ensures local { IfOk result (λ parser. (fields_of command.entry).has_globals ≡ false → (fields_of parser).has_globals ≡ false) }
{
    let workers = number_option(alloc, "workers", value_parser!(u32).range(1..=64), "1");
    let posters = number_option(alloc, "posters", value_parser!(u32).range(1..=16), "1");
    let every = number_option(alloc, "every", value_parser!(u32).range(1..=65_536), "1024");
    command.arg(workers)?.arg(posters)?.arg(every)
}

/// `--full`.
fn full_option<'a>(alloc: Global) -> Arg<'a>
    ensures rule { rule_of result ≡ the_full_option }
    ensures own { result.global ≡ false }
{
    Arg::new(alloc, "full")
        .long("full")
        .action(ArgAction::SetTrue)
}

/// `--digest`, with the name of a digest.
fn digest_option<'a>(alloc: Global) -> Arg<'a>
    ensures rule { rule_of result ≡ the_digest_option }
    ensures own { result.global ≡ false }
{
    Arg::new(alloc, "digest")
        .long("digest")
        .default_value("sha256")
}

/// The command `judge` with its options.
fn judge_line<'a>(alloc: Global) -> Result<Parser<'a>, AllocError>
    ensures app { IfOk result (λ parser. app_of parser ≡ the_judge_line) }
    ensures local { IfOk result (λ parser. (fields_of parser).has_globals ≡ false) }
{
    let full = full_option(alloc);
    let digest = digest_option(alloc);
    with_match_options(alloc, Parser::new(alloc, "judge"))?
        .arg(full)?
        .arg(digest)
}

/// The seed of the large workload, which has to be given.
fn seed_argument<'a>(alloc: Global, numbers: ValueParser<'a>) -> Arg<'a>
    ensures rule { numbers.entry ≡ parsers.Signed (pos 0) (pos 4294967295) → rule_of result ≡ seed_rule }
    ensures own { result.global ≡ false }
{
    Arg::new(alloc, "N").value_parser(numbers).required(true)
}

/// The command `big` with its seed and its options.
fn big_line<'a>(alloc: Global) -> Result<Parser<'a>, AllocError>
    ensures app { IfOk result (λ parser. app_of parser ≡ the_big_line) }
    ensures local { IfOk result (λ parser. (fields_of parser).has_globals ≡ false) }
{
    let seed = seed_argument(alloc, value_parser!(u32));
    let big = Parser::new(alloc, "big").arg(seed)?;
    with_match_options(alloc, big)
}

/// The command line: one of the commands.
#[tactic(auto, unfolding(crate::specs::Words::command_line))]
pub fn command_line<'a>(alloc: Global) -> Result<Parser<'a>, AllocError>
    ensures { IfOk result (λ parser. app_of parser ≡ the_command_line) }
{
    let judge = judge_line(alloc)?;
    let run = Parser::new(alloc, "run");
    let roots = Parser::new(alloc, "roots");
    let audit = Parser::new(alloc, "audit");
    let list = Parser::new(alloc, "list");
    let big = big_line(alloc)?;
    Parser::new(alloc, "refcli")
        .subcommand_required(true)
        .subcommand(judge)?
        .subcommand(run)?
        .subcommand(roots)?
        .subcommand(audit)?
        .subcommand(list)?
        .subcommand(big)
}
