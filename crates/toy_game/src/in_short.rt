//! What tests compare of a match, as plain values, and players of the match that they play.
use crate::player::{HONEST, LIAR, Player};
use bisect_game::{Close, Dispute, Kind, Side};
use board_book::Ask;
use rd_base::Qid;
use tournament::{Reply, Verdict};

/// The number of a claim's question.
pub const CLAIM: Qid = Qid {
    dispute: 0,
    round: 0,
};

/// How a match ended, without its strings.
#[derive(Clone, Copy, Debug, PartialEq, Eq)]
pub enum Ended {
    Open,
    Accepted(u32),
    NoneLeft,
    Collided,
}

/// A dispute in short.
#[derive(Clone, Copy, Debug, PartialEq, Eq)]
pub struct Line {
    pub stage: u32,
    pub number: u32,
    /// The provers that are its sides.
    pub sides: [u32; 2],
    /// How many past rounds it has.
    pub rounds: usize,
    /// Whether each side is out.
    pub out: [bool; 2],
}

/// A player that passes once on each question.
pub const LATE: Player = Player { late: 1, ..HONEST };

/// A player that lies from step 5 on and passes for ever from round 2 on.
pub const SILENT_LIAR: Player = Player {
    silent_from: 2,
    from: 5,
    ..LIAR
};

/// How a match ended, by its verdict.
pub fn how(verdict: Option<Verdict>) -> Ended {
    match verdict {
        None => Ended::Open,
        Some(Verdict::Accept(p)) => Ended::Accepted(p),
        Some(Verdict::NoneLeft) => Ended::NoneLeft,
        Some(Verdict::Collision(_, _)) => Ended::Collided,
    }
}

/// A dispute in short.
pub fn dispute_in_short(dispute: &Dispute) -> Line {
    let out = match dispute.closed() {
        Some(Close::Out { first, second }) => [first, second],
        _ => [false, false],
    };
    Line {
        stage: dispute.stage(),
        number: dispute.number(),
        sides: [dispute.prover(Side::First), dispute.prover(Side::Second)],
        rounds: dispute.rounds().len(),
        out,
    }
}

/// What a prover is asked, in short.
#[derive(Clone, Copy, Debug, PartialEq, Eq)]
pub enum Asked {
    /// Its claim, on which it has passed so often.
    Claim(u32),
    Other,
    Nothing,
    Over,
}

/// What a prover is asked, in short.
pub fn ask_in_short(ask: Ask) -> Asked {
    match ask {
        Ask::Question(question, passes) => {
            if question.qid == CLAIM && question.kind == Kind::Claim {
                Asked::Claim(passes)
            } else {
                Asked::Other
            }
        }
        Ask::Nothing => Asked::Nothing,
        Ask::Over => Asked::Over,
    }
}

/// How a post was answered; a stale one has the open question's number.
#[derive(Clone, Copy, Debug, PartialEq, Eq)]
pub enum Replied {
    Taken,
    Faulty,
    Spent,
    Stale(Option<Qid>),
}

/// How a post was answered.
pub fn reply_in_short(reply: Reply) -> Replied {
    match reply {
        Reply::Taken => Replied::Taken,
        Reply::Faulty => Replied::Faulty,
        Reply::Spent => Replied::Spent,
        Reply::Stale(open) => Replied::Stale(open),
    }
}
