//! Players of the toy game, as provers and as answerers.
ghost use Rattle.std.specs.Prelude.{◌≡◌, IfOk, is_none, map, replicate};
ghost use Rattle.rd_base.specs.declared.status.Status.TheVariants.{Running};
ghost use Rattle.toy_game.specs.Toy.{number_at, root_at, given, answers, says_of, claim_of};
ghost use Rattle.toy_game.specs.OneAnswer.{players_give_one_answer};

use crate::player::Player;
use crate::toy_judge::root;
use bisect_game::{Answerer, Kind, Provers, Question, steps_asked};
use rd_base::{
    Answer, Boxed, Claim, ClaimOutput, Ctl, Digest32, Memory, Proof, Regs, RootList, Status,
    StepProof,
};
use std::alloc::Global;
use std::thread::Threads;

/// The number of a player's state at a step.
pub fn number_at(player: &Player, step: u64) -> u8
    ensures { result ≡ number_at player.now step }
{
    if step < player.from {
        step.min(6) as u8
    } else {
        ((step % 256 + u64::from(player.shift)) % 256) as u8
    }
}

/// The control fields with this mark.
fn marked(mark: u32) -> Ctl
    ensures { result ≡ record { pc = mark; status = Running; out_len = 0; chain = record { 0 = replicate 32 0 } } }
{
    Ctl {
        pc: mark,
        status: Status::Running,
        out_len: 0,
        chain: Digest32::ZERO,
    }
}

/// The claim of a root with a mark.
fn claim_of(alloc: Global, mem: Digest32, mark: u32) -> Claim
    ensures { result ≡ claim_of mem mark }
{
    let Some(output) = ClaimOutput::new(Vec::new(alloc)) else {
        unreachable!()
    };
    Claim {
        mem,
        regs: Digest32::ZERO,
        ctl: marked(mark),
        output,
    }
}

/// The roots of a player's states at these steps.
fn roots_at(alloc: Global, player: &Player, steps: &[u64]) -> Result<Vec<Digest32>, Memory>
    ensures { IfOk result (λ v. v.items ≡ map (root_at player.now) steps.now) }
{
    let mut roots = Vec::with_capacity(alloc, steps.len())?;
    'steps: for step in steps {
        roots.push(root(number_at(player, *step)))?;
    }
    Ok(roots)
}

/// What a player gives once it answers.
pub fn given(alloc: Global, player: &Player, kind: Kind) -> Result<Answer, Memory>
    ensures { IfOk result (λ a. a ≡ given player.now kind) }
{
    match kind {
        Kind::Claim => Ok(Answer::Claim(claim_of(
            alloc,
            root(number_at(player, 8)),
            player.claim_mark,
        ))),
        Kind::Root(step) => Ok(Answer::Root(root(number_at(player, step)))),
        Kind::Roots { lo, hi, parts } => {
            let steps = steps_asked(alloc, lo, hi, parts)?;
            let Some(roots) = RootList::new(roots_at(alloc, player, steps.as_slice())?) else {
                unreachable!()
            };
            Ok(Answer::Roots(roots))
        }
        Kind::Proof(step) => {
            let proof = StepProof {
                mem: root(number_at(player, step)),
                regs: Regs::new(),
                ctl: marked(player.proof_mark),
                fetch: None,
                operand: None,
            };
            Ok(Answer::Step(Boxed::new(Box::new(alloc, Proof::V1(proof))?)))
        }
    }
}

/// Whether a player passes on a question after this many passes.
pub fn passes_now(player: &Player, question: &Question, passes: u32) -> bool
    ensures { result ≡ is_none (answers player.now question.now passes) }
{
    player.silent_from <= question.qid.round || passes < player.late
}

/// The players of a match, by number.
#[derive(Clone, Copy, Debug)]
pub struct Cast {
    /// The players; prover 1 is the first.
    pub players: [Player; 16],
    /// How many of them play.
    pub count: u32,
}

impl Provers for Cast {
    type Names = Cast;

    ghost names = { λ c. c };

    ghost many = { λ c. c.count };

    ghost says = { λ c. says_of c.players };

    ghost give_one_answer = { players_give_one_answer };

    fn count(&self) -> u32 {
        self.count
    }

    fn waits(&self, p: u32, question: &Question, passes: u32) -> bool {
        match self.players.get(p as usize - 1) {
            Some(player) => passes_now(player, question, passes),
            None => true,
        }
    }
}

/// One player at the table.
#[derive(Clone, Copy, Debug)]
pub struct Seated {
    /// Who sits there.
    pub player: Player,
    /// Where its answers take their memory.
    pub alloc: Global,
}

impl Answerer for Seated {
    ghost answers = { λ s. answers s.player };

    fn answer<R: Threads + Sync>(
        &mut self,
        _rt: &R,
        question: &Question,
        passes: u32,
    ) -> Result<Option<Answer>, Memory> {
        if passes_now(&self.player, question, passes) {
            return Ok(None);
        }
        Ok(Some(given(self.alloc, &self.player, question.kind)?))
    }
}
