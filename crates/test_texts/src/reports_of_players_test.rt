//! Reports of matches of the toy game, by hand: what comes of who plays. Liars are refuted, and others are spent or faulty, or collide.

use crate::playing::Who::{
    EarlyForger, Honest, Late, Liar, LiarSilentFrom2, LiarSilentFrom4, OtherLiar, Silent,
    SilentFrom2, Twin,
};
use crate::report_rows::{Row, first_other};
use std::test::Fail;

/// Liars are refuted by a true prover: a liar, two liars before a true prover, three roots in two stages, and two liars that agree.
const LIARS: [Row; 4] = [
    Row {
        players: &[Honest, Liar],
        bound: 8,
        fan: 2,
        patience: 0,
        wrong: None,
        accepted: 1,
        lines: "\
            p1 claims running output\n\
            p2 claims running output\n\
            stage 1\n\
            dispute 1 p1 p2\n\
            round 1 at 4 differ\n\
            round 2 at 2 differ\n\
            round 3 at 1 same\n\
            step 1 p1 proved p2 refuted\n\
            accept running output\n",
    },
    Row {
        players: &[Liar, Liar, Honest],
        bound: 8,
        fan: 2,
        patience: 0,
        wrong: None,
        accepted: 3,
        lines: "\
            p1 claims running output\n\
            p2 claims running output\n\
            p3 claims running output\n\
            stage 1\n\
            dispute 1 p1 p3\n\
            round 1 at 4 differ\n\
            round 2 at 2 differ\n\
            round 3 at 1 same\n\
            step 1 p1 refuted p3 proved\n\
            stage 2\n\
            dispute 2 p2 p3\n\
            round 1 at 4 differ\n\
            round 2 at 2 differ\n\
            round 3 at 1 same\n\
            step 1 p2 refuted p3 proved\n\
            accept running output\n",
    },
    Row {
        players: &[Honest, Liar, Honest, OtherLiar, Liar],
        bound: 8,
        fan: 2,
        patience: 0,
        wrong: None,
        accepted: 1,
        lines: "\
            p1 claims running output\n\
            p2 claims running output\n\
            p3 claims running output\n\
            p4 claims running output\n\
            p5 claims running output\n\
            stage 1\n\
            dispute 1 p1 p2\n\
            round 1 at 4 differ\n\
            round 2 at 2 differ\n\
            round 3 at 1 same\n\
            step 1 p1 proved p2 refuted\n\
            dispute 2 p3 p4\n\
            round 1 at 4 differ\n\
            round 2 at 2 differ\n\
            round 3 at 1 same\n\
            step 1 p3 proved p4 refuted\n\
            stage 2\n\
            dispute 3 p1 p5\n\
            round 1 at 4 differ\n\
            round 2 at 2 differ\n\
            round 3 at 1 same\n\
            step 1 p1 proved p5 refuted\n\
            accept running output\n",
    },
    Row {
        players: &[Liar, Liar],
        bound: 8,
        fan: 2,
        patience: 0,
        wrong: None,
        accepted: 1,
        lines: "\
            p1 claims running output\n\
            p2 claims running output\n\
            accept running output\n",
    },
];

/// These rows as a value, of which no caller sees the rows: they would stand in each of its goals.
fn liars() -> [Row; 4] {
    LIARS
}

#[test]
fn liars_are_refuted_by_a_true_prover(rt: HostRuntime) -> Result<(), Fail> {
    let other = first_other(&rt, rt.alloc(), &liars())?;
    assert!(rt; other.is_none(), "{other:?}");
    Ok(())
}

/// Provers that pass for ever, from the claim on, in a dispute or at the proof, and one that passes as often as it may, or one time more.
const SPENT: [Row; 5] = [
    Row {
        players: &[Silent, Silent],
        bound: 8,
        fan: 2,
        patience: 0,
        wrong: None,
        accepted: 0,
        lines: "\
            out p1 spent\n\
            out p2 spent\n\
            none left\n",
    },
    Row {
        players: &[SilentFrom2, LiarSilentFrom2],
        bound: 8,
        fan: 2,
        patience: 0,
        wrong: None,
        accepted: 0,
        lines: "\
            p1 claims running output\n\
            p2 claims running output\n\
            stage 1\n\
            dispute 1 p1 p2\n\
            round 1 at 4 differ\n\
            round 2 at 2 p1 spent p2 spent\n\
            none left\n",
    },
    Row {
        players: &[Honest, LiarSilentFrom4],
        bound: 8,
        fan: 2,
        patience: 0,
        wrong: None,
        accepted: 1,
        lines: "\
            p1 claims running output\n\
            p2 claims running output\n\
            stage 1\n\
            dispute 1 p1 p2\n\
            round 1 at 4 differ\n\
            round 2 at 2 differ\n\
            round 3 at 1 same\n\
            step 1 p1 proved p2 spent\n\
            accept running output\n",
    },
    Row {
        players: &[Late, Liar],
        bound: 8,
        fan: 2,
        patience: 2,
        wrong: None,
        accepted: 1,
        lines: "\
            p1 claims running output\n\
            p2 claims running output\n\
            stage 1\n\
            dispute 1 p1 p2\n\
            round 1 at 4 differ\n\
            round 2 at 2 differ\n\
            round 3 at 1 same\n\
            step 1 p1 proved p2 refuted\n\
            accept running output\n",
    },
    Row {
        players: &[Late, Liar],
        bound: 8,
        fan: 2,
        patience: 1,
        wrong: None,
        accepted: 2,
        lines: "\
            out p1 spent\n\
            p2 claims running output\n\
            accept running output\n",
    },
];

/// These rows as a value.
fn spent() -> [Row; 5] {
    SPENT
}

#[test]
fn provers_that_pass_too_often_are_spent(rt: HostRuntime) -> Result<(), Fail> {
    let other = first_other(&rt, rt.alloc(), &spent())?;
    assert!(rt; other.is_none(), "{other:?}");
    Ok(())
}

/// Collisions end a match: two claims of one root, two proofs that both lead, and two claims of one root among three.
const COLLISIONS: [Row; 3] = [
    Row {
        players: &[Honest, Twin],
        bound: 8,
        fan: 2,
        patience: 0,
        wrong: None,
        accepted: 0,
        lines: "\
            p1 claims running output\n\
            p2 claims running output\n\
            collision 01 02\n",
    },
    Row {
        players: &[Honest, EarlyForger],
        bound: 8,
        fan: 2,
        patience: 0,
        wrong: None,
        accepted: 0,
        lines: "\
            p1 claims running output\n\
            p2 claims running output\n\
            stage 1\n\
            dispute 1 p1 p2\n\
            round 1 at 4 differ\n\
            round 2 at 2 differ\n\
            round 3 at 1 differ\n\
            step 0 p1 proved p2 proved\n\
            collision 01 02\n",
    },
    Row {
        players: &[Honest, Liar, Twin],
        bound: 8,
        fan: 2,
        patience: 0,
        wrong: None,
        accepted: 0,
        lines: "\
            p1 claims running output\n\
            p2 claims running output\n\
            p3 claims running output\n\
            collision 01 02\n",
    },
];

/// These rows as a value.
fn collisions() -> [Row; 3] {
    COLLISIONS
}

#[test]
fn collisions_end_a_match(rt: HostRuntime) -> Result<(), Fail> {
    let other = first_other(&rt, rt.alloc(), &collisions())?;
    assert!(rt; other.is_none(), "{other:?}");
    Ok(())
}

/// Prover 1 gives an answer of another kind than asked: its claim, in a round, its proof.
const FAULTY: [Row; 3] = [
    Row {
        players: &[Honest, Liar],
        bound: 8,
        fan: 2,
        patience: 0,
        wrong: Some(0),
        accepted: 2,
        lines: "\
            out p1 faulty\n\
            p2 claims running output\n\
            accept running output\n",
    },
    Row {
        players: &[Honest, Liar],
        bound: 8,
        fan: 2,
        patience: 0,
        wrong: Some(2),
        accepted: 2,
        lines: "\
            p1 claims running output\n\
            p2 claims running output\n\
            stage 1\n\
            dispute 1 p1 p2\n\
            round 1 at 4 differ\n\
            round 2 at 2 p1 faulty p2 given\n\
            accept running output\n",
    },
    Row {
        players: &[Honest, Liar],
        bound: 8,
        fan: 2,
        patience: 0,
        wrong: Some(4),
        accepted: 0,
        lines: "\
            p1 claims running output\n\
            p2 claims running output\n\
            stage 1\n\
            dispute 1 p1 p2\n\
            round 1 at 4 differ\n\
            round 2 at 2 differ\n\
            round 3 at 1 same\n\
            step 1 p1 faulty p2 refuted\n\
            none left\n",
    },
];

/// These rows as a value.
fn faulty() -> [Row; 3] {
    FAULTY
}

#[test]
fn an_answer_of_another_kind_is_faulty(rt: HostRuntime) -> Result<(), Fail> {
    let other = first_other(&rt, rt.alloc(), &faulty())?;
    assert!(rt; other.is_none(), "{other:?}");
    Ok(())
}
