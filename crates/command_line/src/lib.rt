//! The command line of the program: which arguments name which command, with which options.
//!
//! The layers above may rely on this: `command_given` gives the command that `specs/Words.antt` chooses (`chosen`), and none if that has
//! none; each option of a match is at least 1, its default if no word was given for it, and the number of that word if the word is a number
//! from 1 to 4,294,967,295. `judge` has two options of its own, `--full` and `--digest`, which choose what is written, so they are a part
//! of the command. Which arguments are taken follows from `clap`'s definitions for a command line with these commands and options; the laws
//! state it for plain ones, for each seed of `big` that begins with a decimal digit, and for any list of options of `judge` and of `big`
//! whose numbers do. The crate reads no device and knows nothing of a case. Read `specs/Words.antt` first, then `request` and
//! `parser`. An `Err` that no comment names is out of memory.
#![tactic(auto)]

mod laws;
mod parser;
mod request;

pub use laws::{
    a_command_is_required, digests_by_name, help_is_refused, options_are_taken, own_options,
    plain_options_are_taken, plain_seeds, plain_words, seeds_are_numbers,
};
pub use request::{Command, MatchText, OptionNumbers, Request, command_given};
