//! Laws: each function has an empty body, and its clause holds of all histories.
ghost use Rattle.std.specs.Prelude.{◌≡◌, ℕ, slice_get, Some};
ghost use Rattle.seat_lock.specs.History.{LogEntry, History, Begins, log_of};

/// If one history begins with another, so does its log.
#[tactic(auto, using(crate::proofs::Histories::logs_begin))]
pub fn later_logs_begin_with_earlier_ones()
    ensures { (earlier later : History) → Begins earlier later → Begins (log_of earlier) (log_of later) }
{}

/// The entry at a place of the log is at that place in the log of each longer history.
#[tactic(auto, using(crate::proofs::Histories::places_keep_entries))]
pub fn places_keep_their_entries()
    ensures { (earlier later : History) (place : ℕ) (entry : LogEntry) → Begins earlier later → slice_get (log_of earlier) place ≡ Some entry → slice_get (log_of later) place ≡ Some entry }
{}
