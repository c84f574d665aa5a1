//! A dispute, and the memory that it takes.
ghost use Rattle.std.specs.Prelude.{◌≡◌, ◌<◌, ◌≤◌, ◌^◌, true, false, ◌||◌, Some, None, is_none, option_copied, IfOk, if◌then◌else◌};
ghost use Rattle.bisect_game.specs.declared.settled.Side.TheVariants.{First, Second};
ghost use Rattle.bisect_game.specs.Bisection.{prover_of, asks, settle_side, question_of, decided, went_on};
ghost use Rattle.bisect_game.specs.Closing.{is_step};
ghost use Rattle.bisect_game.specs.Disputes.{claimed_by, dispute_from};
ghost use Rattle.bisect_game.specs.Truth.{own_open};

use crate::judge::Judge;
use crate::rounds::{close_of, kept, kind_over, parts_of};
use crate::settled::{Close, Interval, Question, Round, Settled, Side};
use rd_base::{Digest32, Memory, Qid};
use std::alloc::Global;
use std::marker::Model;

/// The most past rounds of a dispute over at most `MAX_BOUND` steps, whatever the fan.
const MOST_ROUNDS: usize = 32;

/// The memory of one dispute. Contracts see over how many steps it is, and in how many parts a round cuts its interval.
#[derive(Drop)]
pub struct Room {
    rounds: Vec<Round>,
    bound: u64,
    fan: u32,
}

impl Model for Room {
    ghost use Rattle.std.specs.Prelude.{◌≡◌, ◌<◌, ◌≤◌, ◌^◌, [], vec_capacity};
    ghost use Rattle.bisect_game.specs.Disputes.{RoomOf};

    ghost Value = { RoomOf };

    ghost view = { λ r. record { bound = r.bound; fan = r.fan } };

    ghost invariant = { λ r. (0 < r.bound) × (r.bound < 2 ^ 32) × (1 < r.fan) × (r.fan ≤ 16) × (r.rounds.items ≡ []) × (32 ≤ vec_capacity r.rounds) };
}

impl Room {
    /// Room for a dispute over `bound` steps, from 1 to `MAX_BOUND`, of which a round cuts its interval in `fan` parts, from `MIN_FAN` to
    /// `MAX_FAN`.
    pub fn new(alloc: Global, bound: u64, fan: u32) -> Result<Room, Memory>
        requires some { 0 < bound }
        requires short { bound < 2 ^ 32 }
        requires parted { 1 < fan }
        requires few_parts { fan ≤ 16 }
        ensures { IfOk result (λ room. room ≡ record { bound = bound; fan = fan }) }
    {
        Ok(Room {
            rounds: Vec::with_capacity(alloc, MOST_ROUNDS)?,
            bound,
            fan,
        })
    }
}

/// A dispute by bisection. No call of it takes memory.
#[derive(Drop)]
pub struct Dispute {
    stage: u32,
    number: u32,
    fan: u32,
    first: u32,
    second: u32,
    place: Interval,
    past: Vec<Round>,
    by_first: Option<Settled>,
    by_second: Option<Settled>,
    close: Option<Close>,
}

impl Model for Dispute {
    ghost use Rattle.std.specs.Prelude.{vec_len, vec_capacity};
    ghost use Rattle.bisect_game.specs.Bisection.{Bisection};
    ghost use Rattle.bisect_game.specs.Narrowing.{IsKept};

    ghost Value = { Bisection };

    ghost view = { λ d. record {
      stage = d.stage;
      number = d.number;
      fan = d.fan;
      first = d.first;
      second = d.second;
      place = d.place;
      past = d.past.items;
      by_first = d.by_first;
      by_second = d.by_second;
      close = d.close;
    } };

    ghost invariant = { λ d. IsKept d.fan d.place (vec_len d.past) (vec_capacity d.past) d.by_first d.by_second d.close };
}

impl Dispute {
    /// The dispute with this number, in this stage of its match, of two provers and their claimed roots at the bound.
    /// In a match these differ. `start` is the root at step 0.
    pub fn new(
        room: Room,
        stage: u32,
        number: u32,
        start: Digest32,
        first: (u32, Digest32),
        second: (u32, Digest32),
    ) -> Dispute
        ensures { result ≡ dispute_from room stage number start (claimed_by first) (claimed_by second) }
    {
        let Room { rounds, bound, fan } = room;
        Dispute {
            stage,
            number,
            fan,
            first: first.0,
            second: second.0,
            place: Interval {
                lo: 0,
                hi: bound,
                agreed: start,
                first: first.1,
                second: second.1,
            },
            past: rounds,
            by_first: None,
            by_second: None,
            close: None,
        }
    }

    /// The stage of the match in which it is played, from 1.
    pub fn stage(&self) -> u32
        ensures { result ≡ self.now.stage }
    {
        self.stage
    }

    /// Its number in the match, from 1.
    pub fn number(&self) -> u32
        ensures { result ≡ self.now.number }
    {
        self.number
    }

    /// In how many parts a round cuts its interval, if that has at least as many steps.
    pub fn fan(&self) -> u32
        ensures { result ≡ self.now.fan }
    {
        self.fan
    }

    /// The number of the prover on this side.
    pub fn prover(&self, side: Side) -> u32
        ensures { result ≡ prover_of side self.now }
    {
        match side {
            Side::First => self.first,
            Side::Second => self.second,
        }
    }

    /// Its interval.
    pub fn interval(&self) -> Interval
        ensures { result ≡ self.now.place }
    {
        self.place
    }

    /// The past rounds, the first one first.
    pub fn rounds(&self) -> &[Round]
        ensures { result.now ≡ self.now.past }
    {
        self.past.as_slice()
    }

    /// What is settled of this side in the last round; `None` if nothing is yet.
    pub fn last_answer(&self, side: Side) -> Option<&Settled>
        ensures { option_copied result ≡ own_open side self.now }
    {
        match side {
            Side::First => self.by_first.as_ref(),
            Side::Second => self.by_second.as_ref(),
        }
    }

    /// How it closed; `None` if and only if a side has an open question.
    pub fn closed(&self) -> Option<Close>
        ensures is { result ≡ self.now.close }
        ensures open_ { is_none result ≡ (asks First self.now || asks Second self.now) }
    {
        self.close.as_ref().map(Close::copy)
    }

    /// The open question of a side; `None` if and only if the side has settled this round or the dispute is closed.
    pub fn question(&self, side: Side) -> Option<Question>
        ensures { result ≡ (if asks side self.now then Some (question_of self.now) else None) }
    {
        let settled = match side {
            Side::First => self.by_first.is_some(),
            Side::Second => self.by_second.is_some(),
        };
        if settled || self.close.is_some() {
            return None;
        }
        let Interval { lo, hi, .. } = self.place;
        Some(Question {
            qid: Qid {
                dispute: self.number,
                round: self.past.len() as u32 + 1,
            },
            kind: kind_over(self.fan, lo, hi),
        })
    }

    /// The open question of a side is settled. The round is decided once both sides are settled.
    pub fn settle<J: Judge>(&mut self, judge: &J, side: Side, settled: Settled)
        requires { asks side self.old ≡ true }
        ensures { self.new ≡ settle_side (J.ruling (J.names judge.now)) side settled self.old }
    {
        match side {
            Side::First => match self.by_second.take() {
                None => self.put_first(settled),
                Some(other) => self.decide(judge, settled, other),
            },
            Side::Second => match self.by_first.take() {
                None => self.put_second(settled),
                Some(other) => self.decide(judge, other, settled),
            },
        }
    }

    /// The first side settles before the second.
    fn put_first(&mut self, settled: Settled)
        requires { self.old.by_second ≡ None }
        ensures { self.new ≡ record self.old { by_first = Some settled } }
    {
        self.by_first = Some(settled);
    }

    /// The second side settles before the first.
    fn put_second(&mut self, settled: Settled)
        requires { self.old.by_first ≡ None }
        ensures { self.new ≡ record self.old { by_second = Some settled } }
    {
        self.by_second = Some(settled);
    }

    /// A round of which both sides are settled closes the dispute, or the dispute continues.
    fn decide<J: Judge>(&mut self, judge: &J, first: Settled, second: Settled)
        ensures { self.new ≡ decided (J.ruling (J.names judge.now)) (record self.old { by_first = Some first; by_second = Some second }) first second }
    {
        match close_of(judge, self.place, &first, &second) {
            Some(close) => {
                self.by_first = Some(first);
                self.by_second = Some(second);
                self.close = Some(close);
            }
            None => self.go_on(first, second),
        }
    }

    /// A round that closes nothing becomes a past one, and the dispute continues with the part that is kept.
    fn go_on(&mut self, first: Settled, second: Settled)
        requires long { is_step self.old.place ≡ false }
        ensures { self.new ≡ went_on self.old first second }
    {
        let Interval { lo, hi, .. } = self.place;
        self.place = kept(self.place, parts_of(self.fan, lo, hi), &first, &second);
        self.past.push_reserved(Round {
            lo,
            hi,
            first,
            second,
        });
        self.by_first = None;
        self.by_second = None;
    }
}
