//! The audit of a full text.
ghost use Rattle.std.specs.Prelude.{◌≡◌, ◌<◌, ◌≤◌, ◌^◌, IfOk};
ghost use Rattle.tournament.specs.Match.{rules_in};
ghost use Rattle.audit.specs.LineByLine.{AreOfProvers, end_of, audited, same_status, is_this, is_stated};
ghost use Rattle.transcript_text.specs.declared.text.Stated.TheVariants.{Accept};
ghost use Rattle.transcript_text.specs.StatedVerdict.{settled_at, given_claim, stated_claim};

use crate::finding::{Audit, Cause};
use crate::playing::play;
use bisect_game::{Judge, Settled};
use rd_base::{Answer, Memory, Status};
use std::alloc::Global;
use tournament::{Match, Verdict};
use transcript_text::{FullText, Stated, settled_at};

/// The number of the first line of a text that is a move: the head is line 1.
const FIRST_MOVE: u64 = 2;

/// Whether two statuses are the same.
fn same_status(first: Status, second: Status) -> bool
    ensures { result ≡ same_status first second }
{
    match (first, second) {
        (Status::Running, Status::Running) => true,
        (Status::Exited(x), Status::Exited(y)) => x == y,
        (Status::Trapped(x), Status::Trapped(y)) => x == y,
        _ => false,
    }
}

/// Whether the claim of a prover was given with this status and this output.
fn states_claim(claims: &[Option<Settled>], number: u32, status: Status, output: &[u8]) -> bool
    ensures { result ≡ is_this (stated_claim (given_claim (settled_at claims.now number))) (Accept status output.now) }
{
    match settled_at(claims, number) {
        Some(Some(Settled::Given(Answer::Claim(claim)))) => {
            same_status(claim.ctl.status, status) && claim.output.as_slice() == output
        }
        _ => false,
    }
}

/// Whether the stated verdict is this one, of a match with these claims.
fn is_stated(claims: &[Option<Settled>], verdict: &Verdict, stated: &Stated) -> bool
    ensures { result ≡ is_stated claims.now verdict.now stated.now }
{
    match (verdict, stated) {
        (Verdict::Accept(number), Stated::Accept(status, output)) => {
            states_claim(claims, *number, *status, output.as_slice())
        }
        (Verdict::NoneLeft, Stated::NoneLeft) => true,
        (Verdict::Collision(x, y), Stated::Collision(a, b)) => {
            x.as_slice() == a.as_slice() && y.as_slice() == b.as_slice()
        }
        _ => false,
    }
}

/// The finding at the verdict's line, which has this number.
fn end<J: Judge + Drop>(played: &Match<J>, line: u64, stated: &Stated) -> Audit
    ensures { result ≡ end_of (rules_in J.ruling played.now) line stated.now played.now.game.record_ }
{
    match played.verdict() {
        None => Audit::Refused {
            line,
            cause: Cause::MovesMissing,
        },
        Some(verdict) => {
            if is_stated(played.record().claims(), &verdict, stated) {
                Audit::Confirmed(verdict)
            } else {
                Audit::Refused {
                    line,
                    cause: Cause::OtherVerdict,
                }
            }
        }
    }
}

/// Audits a full text before a judge of the version and digest that its head names, by playing its moves in order. By its type it
/// runs no machine beyond what the judge does for a proof; as the code shows, it keeps one match in memory. The head has 1 to 65,536 provers,
/// a bound of 1 to 4,294,967,295 steps and a fan of 2 to 16, and each move is of one of the provers, as in every text that was read
/// (`a_read_text_may_be_audited`).
///
/// `Refused` comes exactly at the first line that isn't the next legal entry, with the number of that line.
#[tactic(auto, unfolding(crate::specs::LineByLine::audited))]
pub fn audit<J: Judge + Drop>(alloc: Global, text: &FullText, judge: J) -> Result<Audit, Memory>
    requires some { 0 < text.now.head.provers }
    requires few { text.now.head.provers ≤ 2 ^ 16 }
    requires steps { 0 < text.now.head.bound }
    requires short { text.now.head.bound < 2 ^ 32 }
    requires parted { 1 < text.now.head.fan }
    requires few_parts { text.now.head.fan ≤ 16 }
    requires provers { AreOfProvers text.now.head.provers text.now.moves }
    ensures { IfOk result (λ found. found ≡ audited (J.ruling (J.names judge)) text.now) }
{
    let head = text.head;
    let mut played = Match::new(
        alloc,
        judge,
        head.provers,
        head.bound,
        head.fan,
        head.patience,
        head.start,
    )?;
    let moves = text.moves.as_slice();
    'moves: for (i, entry) in moves.iter().enumerate() {
        if let Some(cause) = play(alloc, &mut played, entry)? {
            return Ok(Audit::Refused {
                line: i as u64 + FIRST_MOVE,
                cause,
            });
        }
    }
    Ok(end(&played, moves.len() as u64 + FIRST_MOVE, &text.stated))
}
