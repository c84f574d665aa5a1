//! A ticket lock that knows what its value went through, and seats that remember it.
//!
//! A value with a log and a head lies under a `SeatLock`, which threads share by reference; each takes its turns with a `Seat` of its own,
//! a token of no bytes. The layers above may rely on this: all turns are in one history. Whenever the lock is free its value has the log of
//! that history and the head that every seat has. A turn does its job once, on a value whose log begins with all that the seat, and the
//! seats joined into it, had seen; the answer is the job's. An entry that a turn adds is at a place that the seat gets as a receipt; it
//! stays there in every later log, and once all seats are joined no place is in two receipts. No clause states how long a turn is waited
//! for, whose turn comes first, or whether one comes. The crate knows nothing of what the value and the entries are. Read
//! `specs/History.antt`, `specs/Seats.antt` and `specs/Turned.antt` first, then `logged` and `lock`.
#![tactic(auto)]

mod laws;
mod lock;
mod logged;
mod view;

pub use laws::{later_logs_begin_with_earlier_ones, places_keep_their_entries};
pub use lock::{Seat, SeatLock};
pub use logged::{Job, Logged};
