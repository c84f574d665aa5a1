//! The record of a match, alone and with the numbers of its match, and the rules of stages and of the verdict.
ghost use Rattle.std.specs.Prelude.{◌≡◌, ◌+◌, ◌-◌, ◌<◌, ◌≤◌, ◌^◌, ◌∷◌, [], length, replicate, slice_set, vec_len, vec_capacity, None, Some, IfSome, IfOk};
ghost use Rattle.tournament.specs.Bracket.{put, is_stage_due, last_stage, stage_opened, verdict_of};
ghost use Rattle.tournament.specs.Keeping.{Sheet, other_from, side_pairs, disputes_over, and_also, AllRooms};
ghost use Rattle.bisect_game.specs.Disputes.{dispute_of};
ghost use Rattle.bisect_game.specs.Rules.{rules_of};

use crate::reading::{
    Verdict, all_out, all_there, asked_from, claims_collision, disputes_collision, fill_live,
    last_stage, lowest,
};
use bisect_game::{Claimed, Dispute, Judge, Room, Settled, Setup};
use rd_base::{Digest32, Memory, same_digest};
use std::alloc::Global;
use std::marker::Model;

/// What was settled in a match.
#[derive(Drop)]
pub struct Record {
    claims: Vec<Option<Settled>>,
    disputes: Vec<Dispute>,
}

impl Model for Record {
    ghost use Rattle.std.specs.Prelude.{◌+◌, ◌≤◌, vec_len, vec_capacity};
    ghost use Rattle.tournament.specs.Bracket.{Record};

    ghost Value = { Record };

    ghost view = { λ r. record { claims = r.claims.items; disputes = r.disputes.items } };

    ghost invariant = { λ r. vec_len r.claims ≤ vec_capacity r.disputes + 1 };
}

/// This many claims of which none is settled.
fn no_claims(alloc: Global, many: usize) -> Result<Vec<Option<Settled>>, Memory>
    ensures { IfOk result (λ v. v.items ≡ replicate many None) }
{
    let mut claims = Vec::with_capacity(alloc, many)?;
    for _ in 0..many {
        claims.push(None)?;
    }
    Ok(claims)
}

impl Record {
    /// A record of this many provers in which nothing is settled, with room for every dispute that can come.
    fn new(alloc: Global, provers: usize) -> Result<Record, Memory>
        requires { 0 < provers }
        ensures { IfOk result (λ r. r ≡ record { claims = replicate provers None; disputes = [] }) }
    {
        Ok(Record {
            claims: no_claims(alloc, provers)?,
            disputes: Vec::with_capacity(alloc, provers - 1)?,
        })
    }

    /// What each prover's claim was settled as, by number; `None` if it isn't yet.
    pub fn claims(&self) -> &[Option<Settled>]
        ensures { result.now ≡ self.now.claims }
    {
        self.claims.as_slice()
    }

    /// The disputes, by number.
    pub fn disputes(&self) -> &[Dispute]
        ensures { result.now ≡ self.now.disputes }
    {
        self.disputes.as_slice()
    }

    /// Adds a dispute.
    fn push(&mut self, dispute: Dispute)
        requires { length self.old.disputes + 1 < length self.old.claims }
        ensures { self.new ≡ and_also self.old (dispute ∷ []) }
    {
        self.disputes.push_reserved(dispute);
    }

    /// The claim of a prover is settled.
    fn put_claim(&mut self, p: u32, settled: Settled)
        requires some { 0 < p }
        requires few { p ≤ length self.old.claims }
        ensures { self.new ≡ record self.old { claims = slice_set self.old.claims (p - 1) (Some settled) } }
    {
        self.claims[p as usize - 1] = Some(settled);
    }

    /// What a prover is asked is settled.
    fn put<J: Judge>(&mut self, judge: &J, p: u32, settled: Settled)
        requires some { 0 < p }
        requires few { p ≤ length self.old.claims }
        ensures { (setup : _) → self.new ≡ put (rules_of (J.ruling (J.names judge.now)) setup) p settled self.old }
    {
        if self.claims[p as usize - 1].is_none() {
            return self.put_claim(p, settled);
        }
        if let Some((i, side)) = asked_from(self.disputes.as_slice(), 0, p) {
            self.disputes[i].settle(judge, side, settled);
        }
    }
}

/// A record with the numbers by which it is played and the rooms of the disputes to come.
#[derive(Drop)]
pub(crate) struct Sheet {
    pub(crate) setup: Setup,
    pub(crate) record_: Record,
    rooms: Vec<Room>,
}

impl Model for Sheet {
    ghost use Rattle.std.specs.Prelude.{vec_len};
    ghost use Rattle.tournament.specs.Keeping.{Sheet, IsSheet};

    ghost Value = { Sheet };

    ghost view = { λ s. record { setup = s.setup; record_ = s.record_ } };

    ghost invariant = { λ s. IsSheet s.setup s.record_ s.rooms.items (vec_len s.rooms) };
}

/// The place of the first prover with another root, of provers the first of which is at place `i`.
fn other_from(live: &[Claimed], i: usize, root: &Digest32) -> Option<usize>
    requires { i + length live.now < 2 ^ 64 }
    ensures is { result ≡ other_from i root.now live.now }
    ensures within { IfSome result (λ j. j < i + length live.now) }
    ensures from { IfSome result (λ j. i ≤ j) }
{
    match live {
        [] => None,
        [first, rest @ ..] => {
            if same_digest(&first.root, root) {
                other_from(rest, i + 1, root)
            } else {
                Some(i)
            }
        }
    }
}

/// The rooms of this many disputes.
#[tactic(auto, using(crate::proofs::keeping::KeepingLemmas::rooms_more))]
fn rooms_for(alloc: Global, setup: Setup, many: usize) -> Result<Vec<Room>, Memory>
    ensures len { IfOk result (λ v. vec_len v ≡ many) }
    ensures rooms { IfOk result (λ v. AllRooms setup v.items) }
{
    let mut rooms = Vec::with_capacity(alloc, many)?;
    for _ in 0..many {
        rooms.push(Room::new(alloc, setup.bound(), setup.fan())?)?;
    }
    Ok(rooms)
}

impl Sheet {
    /// A sheet on which nothing is settled, with room for the whole match.
    pub(crate) fn new(alloc: Global, setup: Setup) -> Result<Sheet, Memory>
        ensures { IfOk result (λ s. s ≡ record { setup = setup; record_ = record { claims = replicate setup.provers None; disputes = [] } }) }
    {
        let provers = setup.provers() as usize;
        Ok(Sheet {
            setup,
            record_: Record::new(alloc, provers)?,
            rooms: rooms_for(alloc, setup, provers - 1)?,
        })
    }

    /// The numbers by which it is played.
    pub(crate) fn setup(&self) -> Setup
        ensures { result ≡ self.now.setup }
    {
        self.setup
    }

    /// Opens one dispute.
    fn open_one(&mut self, stage: u32, first: Claimed, second: Claimed)
        requires few { length self.old.record_.disputes + 1 < self.old.setup.provers }
        requires stage { stage ≤ length self.old.record_.disputes + 1 }
        ensures setup { self.new.setup ≡ self.old.setup }
        ensures record_ { self.new.record_ ≡ and_also self.old.record_ (dispute_of self.old.setup stage (length self.old.record_.disputes + 1) first second ∷ []) }
    {
        let Some(room) = self.rooms.pop() else {
            unreachable!()
        };
        let number = self.record_.disputes().len() as u32 + 1;
        let first = (first.prover, first.root);
        let second = (second.prover, second.root);
        self.record_.push(Dispute::new(room, stage, number, self.setup.start(), first, second));
    }

    /// Opens the disputes of a stage: takes the first prover of `live`, opens its dispute with the next one of another root, if there is
    /// one, and does the same with the others; for `left` first provers at most.
    fn open_pairs(&mut self, stage: u32, left: u32, live: &mut Vec<Claimed>)
        requires few { length self.old.record_.disputes + length (side_pairs left live.old.items) < self.old.setup.provers }
        requires stage { stage ≤ length self.old.record_.disputes + 1 }
        ensures setup { self.new.setup ≡ self.old.setup }
        ensures record_ { self.new.record_ ≡ and_also self.old.record_ (disputes_over self.old.setup stage (length self.old.record_.disputes + 1) (side_pairs left live.old.items)) }
        ensures capacity { vec_capacity live.new ≡ vec_capacity live.old }
    {
        if left == 0 || live.is_empty() {
            return;
        }
        let first = live.remove(0);
        match other_from(live.as_slice(), 0, &first.root) {
            None => self.open_pairs(stage, left - 1, live),
            Some(i) => {
                let second = live.remove(i);
                self.open_one(stage, first, second);
                self.open_pairs(stage, left - 1, live);
            }
        }
    }

    /// Whether the next stage may begin.
    fn is_stage_due<J: Judge>(&self, judge: &J) -> bool
        ensures { result ≡ is_stage_due (rules_of (J.ruling (J.names judge.now)) self.now.setup) self.now.record_ }
    {
        all_there(self.record_.claims())
            && (all_out(self.record_.disputes())
                && claims_collision(judge, self.record_.claims()).is_none())
    }

    /// The number of the next stage.
    fn next_stage(&self) -> u32
        ensures is { result ≡ last_stage self.now.record_.disputes + 1 }
        ensures few { result ≤ length self.now.record_.disputes + 1 }
    {
        self.setup.is_in_range();
        last_stage(self.record_.disputes()) + 1
    }

    /// Opens the next stage if it is due.
    fn open_due<J: Judge>(&mut self, judge: &J, live: &mut Vec<Claimed>)
        requires few { length (stage_opened (rules_of (J.ruling (J.names judge.now)) self.old.setup) self.old.record_).disputes < self.old.setup.provers }
        requires room { self.old.setup.provers ≤ vec_capacity live.old }
        ensures setup { self.new.setup ≡ self.old.setup }
        ensures record_ { self.new.record_ ≡ stage_opened (rules_of (J.ruling (J.names judge.now)) self.old.setup) self.old.record_ }
        ensures capacity { vec_capacity live.new ≡ vec_capacity live.old }
    {
        if !self.is_stage_due(judge) {
            return;
        }
        let provers = self.setup.provers();
        let stage = self.next_stage();
        live.clear();
        fill_live(
            judge,
            self.record_.disputes(),
            1,
            self.record_.claims(),
            live,
        );
        self.open_pairs(stage, provers, live);
    }

    /// What a prover is asked is settled, and the next stage opens if it is due.
    pub(crate) fn settle<J: Judge>(
        &mut self,
        judge: &J,
        p: u32,
        settled: Settled,
        live: &mut Vec<Claimed>,
    )
        requires some { 0 < p }
        requires few { p ≤ self.old.setup.provers }
        requires disputes { length (stage_opened (rules_of (J.ruling (J.names judge.now)) self.old.setup) (put (rules_of (J.ruling (J.names judge.now)) self.old.setup) p settled self.old.record_)).disputes < self.old.setup.provers }
        requires room { self.old.setup.provers ≤ vec_capacity live.old }
        ensures setup { self.new.setup ≡ self.old.setup }
        ensures record_ { self.new.record_ ≡ stage_opened (rules_of (J.ruling (J.names judge.now)) self.old.setup) (put (rules_of (J.ruling (J.names judge.now)) self.old.setup) p settled self.old.record_) }
        ensures capacity { vec_capacity live.new ≡ vec_capacity live.old }
    {
        self.record_.put(judge, p, settled);
        self.open_due(judge, live);
    }

    /// The verdict of a match in which nothing is open.
    pub(crate) fn verdict<J: Judge>(&self, judge: &J) -> Verdict
        ensures { result ≡ verdict_of (rules_of (J.ruling (J.names judge.now)) self.now.setup) self.now.record_ }
    {
        if let Some((x, y)) = claims_collision(judge, self.record_.claims()) {
            return Verdict::Collision(x, y);
        }
        if let Some((x, y)) = disputes_collision(self.record_.disputes()) {
            return Verdict::Collision(x, y);
        }
        self.setup.is_in_range();
        lowest(self.record_.disputes(), 1, self.record_.claims())
    }
}
