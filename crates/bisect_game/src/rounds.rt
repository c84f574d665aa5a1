//! A round: what it asks and of which steps, which part it keeps, and how it closes its dispute.
ghost use Rattle.std.specs.Prelude.{◌≡◌, ◌-◌, ◌<◌, ◌≤◌, ◌∷◌, ◌++◌, [], length, min, slice_index_or, IfOk};
ghost use Rattle.bisect_game.specs.Bisection.{cut, kept_part, kept, kind_over, roots_in, roots_of, agreeing, can_cut, steps_asked};
ghost use Rattle.bisect_game.specs.Closing.{is_out, is_proved, both_proved, close_of};

use crate::judge::Judge;
use crate::settled::{Close, Interval, Kind, Settled};
use rd_base::{Answer, Digest32, MAX_FAN, MIN_FAN, Memory, same_digest};
use std::alloc::Global;
use std::slice;

/// The `j`-th cut of an interval in this many parts (`MIN_FAN` to `MAX_FAN`, at most its steps): `lo + j * (hi - lo) / parts`, rounded
/// down. Cut 0 is its beginning, the last its end, and of two parts cut 1 the middle.
#[tactic(auto, unfolding(crate::specs::Bisection::cut))]
pub fn cut(lo: u64, hi: u64, parts: u32, j: u32) -> u64
    requires parted { 1 < parts }
    requires few_parts { parts ≤ 16 }
    requires long { parts ≤ hi - lo }
    requires few { j ≤ parts }
    ensures is { result ≡ cut lo hi parts j }
    ensures low { lo ≤ result }
    ensures high { result ≤ hi }
{
    let steps = u128::from(hi - lo);
    lo + (u128::from(j) * steps / u128::from(parts)) as u64
}

/// In how many parts a round cuts an interval: never more than it has steps.
pub fn parts_of(fan: u32, lo: u64, hi: u64) -> u32
    ensures { result ≡ min fan (hi - lo) }
{
    let steps = hi.saturating_sub(lo);
    if u64::from(fan) <= steps {
        fan
    } else {
        steps as u32
    }
}

/// What is asked over an interval.
pub(crate) fn kind_over(fan: u32, lo: u64, hi: u64) -> Kind
    requires parted { 1 < fan }
    requires some { lo < hi }
    ensures { result ≡ kind_over fan lo hi }
{
    if hi - lo <= 1 {
        Kind::Proof(lo)
    } else if fan == 2 {
        Kind::Root(cut(lo, hi, 2, 1))
    } else {
        Kind::Roots {
            lo,
            hi,
            parts: parts_of(fan, lo, hi),
        }
    }
}

/// The roots that an answer gives, in their order; none of an answer of another kind.
pub fn roots_in(answer: &Answer) -> &[Digest32]
    ensures { result.now ≡ roots_in answer.now }
{
    match answer {
        Answer::Root(root) => slice::from_ref(root),
        Answer::Roots(roots) => roots.as_slice(),
        _ => &[],
    }
}

/// The roots that a settled answer gives; none if it wasn't given.
fn roots_of(settled: &Settled) -> &[Digest32]
    ensures { result.now ≡ roots_of settled.now }
{
    match settled {
        Settled::Given(answer) => roots_in(answer),
        _ => &[],
    }
}

/// How many roots are the same before the first that differ, at most this many.
fn agreeing(first: &[Digest32], second: &[Digest32], most: usize) -> usize
    ensures is { result ≡ min (agreeing first.now second.now) most }
    ensures first { result ≤ length first.now }
    ensures second { result ≤ length second.now }
{
    let mut j = 0;
    while j < most && j < first.len() && j < second.len() && same_digest(&first[j], &second[j]) {
        j += 1;
    }
    j
}

/// Which of this many parts is kept, counted from 0, by the roots of both sides at the cuts: the first at whose end they differ, or
/// the last if they are the same at all cuts.
pub fn kept_part(parts: u32, first: &[Digest32], second: &[Digest32]) -> u32
    ensures is { result ≡ kept_part parts first.now second.now }
    ensures within { result ≤ parts - 1 }
    ensures first { result ≤ length first.now }
    ensures second { result ≤ length second.now }
{
    agreeing(first, second, (parts as usize).saturating_sub(1)) as u32
}

/// The root at cut `j`. That at cut 0 is `first`, and the list has those after it.
fn root_at_cut(first: Digest32, roots: &[Digest32], j: usize) -> Digest32
    requires { j ≤ length roots.now }
    ensures { result ≡ slice_index_or (first ∷ roots.now) j first }
{
    if j == 0 { first } else { roots[j - 1] }
}

/// The root at the cut after `j`. That at the last cut is `last`, and the list has those before it.
fn root_after_cut(roots: &[Digest32], last: Digest32, j: usize) -> Digest32
    requires { j ≤ length roots.now }
    ensures { result ≡ slice_index_or (roots.now ++ last ∷ []) j last }
{
    if j < roots.len() { roots[j] } else { last }
}

/// The part whose ends differ, of an interval in this many parts.
pub(crate) fn kept(place: Interval, parts: u32, first: &Settled, second: &Settled) -> Interval
    requires parted { 1 < parts }
    requires few_parts { parts ≤ 16 }
    requires long { parts ≤ place.hi - place.lo }
    ensures { result ≡ kept parts place (roots_of first.now) (roots_of second.now) }
{
    let of_first = roots_of(first);
    let of_second = roots_of(second);
    let j = kept_part(parts, of_first, of_second);
    let agreed = root_at_cut(place.agreed, of_first, j as usize);
    let first_root = root_after_cut(of_first, place.first, j as usize);
    let second_root = root_after_cut(of_second, place.second, j as usize);
    Interval {
        lo: cut(place.lo, place.hi, parts, j),
        hi: cut(place.lo, place.hi, parts, j + 1),
        agreed,
        first: first_root,
        second: second_root,
    }
}

/// Whether an answer is a proof that leads from the agreed root to the side's own.
fn is_proved<J: Judge>(judge: &J, agreed: Digest32, own: Digest32, answer: &Answer) -> bool
    ensures { result ≡ is_proved (J.ruling (J.names judge.now)) agreed own answer.now }
{
    match answer {
        Answer::Step(proof) => match judge.leads(agreed, proof.get()) {
            Some(root) => same_digest(&root, &own),
            None => false,
        },
        _ => false,
    }
}

/// Whether a side is out by what is settled of a round.
fn is_out<J: Judge>(judge: &J, place: Interval, own: Digest32, settled: &Settled) -> bool
    requires { place.lo ≤ place.hi }
    ensures { result ≡ is_out (J.ruling (J.names judge.now)) place own settled.now }
{
    match settled {
        Settled::Given(answer) => place.hi - place.lo <= 1
            && !is_proved(judge, place.agreed, own, answer),
        Settled::Faulty(_) | Settled::Spent => true,
    }
}

/// How a proof round closes in which both sides have proved.
fn both_proved<J: Judge>(judge: &J, agreed: Digest32, first: &Settled, second: &Settled) -> Close
    ensures { result ≡ both_proved (J.ruling (J.names judge.now)) agreed first.now second.now }
{
    match (first, second) {
        (Settled::Given(Answer::Step(of_first)), Settled::Given(Answer::Step(of_second))) => {
            match judge.step_collision(agreed, of_first.get(), of_second.get()) {
                Some((x, y)) => Close::Collision(x, y),
                None => Close::Out {
                    first: true,
                    second: true,
                },
            }
        }
        _ => Close::Out {
            first: true,
            second: true,
        },
    }
}

/// How a round closes its dispute, if it does.
#[tactic(auto, unfolding(crate::specs::Closing::close_of))]
pub(crate) fn close_of<J: Judge>(
    judge: &J,
    place: Interval,
    first: &Settled,
    second: &Settled,
) -> Option<Close>
    requires { place.lo ≤ place.hi }
    ensures { result ≡ close_of (J.ruling (J.names judge.now)) place first.now second.now }
{
    let first_out = is_out(judge, place, place.first, first);
    let second_out = is_out(judge, place, place.second, second);
    if first_out || second_out {
        Some(Close::Out {
            first: first_out,
            second: second_out,
        })
    } else if place.hi - place.lo <= 1 {
        Some(both_proved(judge, place.agreed, first, second))
    } else {
        None
    }
}

/// Whether an interval is cut in this many parts: `MIN_FAN` to `MAX_FAN`, and no more than it has steps.
fn can_cut(lo: u64, hi: u64, parts: u32) -> bool
    ensures { result ≡ can_cut lo hi parts }
{
    MIN_FAN <= parts && (parts <= MAX_FAN && u64::from(parts) <= hi.saturating_sub(lo))
}

/// The cuts between the ends of an interval in this many parts, at most `MAX_ROOTS`; its beginning alone if the parts aren't `MIN_FAN` to
/// `MAX_FAN`, or are more than it has steps, which no match asks.
pub fn steps_asked(alloc: Global, lo: u64, hi: u64, parts: u32) -> Result<Vec<u64>, Memory>
    ensures value { IfOk result (λ v. v.items ≡ steps_asked lo hi parts) }
    ensures some { IfOk result (λ v. 0 < length v.items) }
    ensures few { IfOk result (λ v. length v.items ≤ 15) }
{
    let mut steps = Vec::new(alloc);
    if !can_cut(lo, hi, parts) {
        steps.push(lo)?;
        return Ok(steps);
    }
    'cuts: for j in 1..parts {
        steps.push(cut(lo, hi, parts, j))?;
    }
    Ok(steps)
}
