//! The program `bench_layers`: what `bench/lock`, `bench/rulings`, `bench/replays` and `bench/text` measure.
//!
//! The command line names subjects, `lock`, `rulings`, `replays` or `text`, each with its numbers behind it, and the program writes a
//! line for each. The status is 2 at a word that is neither, numbers that are no subject's, or if memory runs out.
#![tactic(auto)]

mod lock_turns;
mod replays;
mod rulings;
mod text;

use io_edge::StdSource;
use std::env::Env;
use std::process::ExitCode;
use std::{env, io};

/// The words of the command line, the program's name first.
fn words_of(rt: &(impl Env + AllocGlobal)) -> Option<Vec<String>> {
    env::args(rt).ok()?.collect(rt.alloc()).ok()
}

fn main(rt: HostRuntime) -> io::Result<ExitCode> {
    let Some(words) = words_of(&rt) else {
        return Ok(ExitCode::from(2));
    };
    for at in 1..words.len() {
        let word = words[at].as_str();
        if word.parse::<u64>().is_ok() {
            continue;
        }
        let behind = &words[at + 1..];
        let line = match word {
            "lock" => lock_turns::line(&rt, rt.alloc(), behind),
            "rulings" => rulings::line(&rt, rt.alloc(), behind),
            "replays" => replays::line(&rt, rt.alloc(), behind),
            "text" => text::line(rt.alloc(), &mut StdSource::new(rt.stdin())),
            _ => None,
        };
        let Some(line) = line else {
            return Ok(ExitCode::from(2));
        };
        print!(rt; "{line}")?;
    }
    Ok(ExitCode::SUCCESS)
}
