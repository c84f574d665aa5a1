//! The entries of a journal, and what a prover is asked.
use bisect_game::Question;
use rd_base::Qid;
use tournament::Reply;

/// A post that wasn't stale. An answer itself isn't kept here: it is in the record.
#[derive(Clone, Copy, Debug)]
pub struct Entry {
    /// The prover's number, from 1.
    pub p: u32,
    /// The question on which it was.
    pub qid: Qid,
    /// Whether it was a pass.
    pub pass: bool,
    /// The reply to it, never `Stale`.
    pub reply: Reply,
}

/// What a prover is asked.
#[derive(Clone, Copy, Debug)]
pub enum Ask {
    /// Its open question, and how often it has passed on it.
    Question(Question, u32),
    /// It has no open question, and the match isn't over.
    Nothing,
    /// The match is over.
    Over,
}
