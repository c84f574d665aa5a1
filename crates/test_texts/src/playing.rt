//! Matches of toy players, their reports and their full texts.
ghost use denote.Param.Send.{IsSync};

use bisect_game::{Answerer, Kind, Question};
use deposits::Balances;
use rd_base::{Answer, Memory, Qid};
use std::alloc::Global;
use std::thread::Threads;
use tournament::{Match, Move, Verdict};
use toy_game::{HONEST, LIAR, Player, SILENT, Seated, ToyJudge, root};
use transcript_text::{DigestName, Head, full, report};

/// The question for a claim.
pub(crate) const CLAIM: Question = Question {
    qid: Qid {
        dispute: 0,
        round: 0,
    },
    kind: Kind::Claim,
};

/// A player of these matches. The true run is 0 to 6 and stays there; a liar's is another one from step 2 on.
#[derive(Clone, Copy, Debug)]
pub(crate) enum Who {
    Honest,
    Liar,
    /// It never answers.
    Silent,
    /// It passes once on each question.
    LateByOne,
    /// It passes twice on each question.
    Late,
    /// It stops answering after its claim.
    Leaves,
    /// It passes for ever from round 2 on.
    SilentFrom2,
    LiarSilentFrom2,
    /// A liar that passes for ever from its proof on.
    LiarSilentFrom4,
    /// A liar from step 5 on, which passes for ever from round 2 on.
    LaterLiarSilentFrom2,
    /// Another run than the liar's from step 2 on.
    OtherLiar,
    /// Its run is that other one from step 4 on.
    LaterLiar,
    LiarFrom1,
    LiarFrom7,
    /// Its claim has the true root, and another mark than the true claim.
    Double,
    /// So has its claim, with one more mark.
    Twin,
    /// Its proof of step 1 leads to its own false root, as no hash holds it back.
    Forger,
    /// Its run is another one from step 1 on, and its proof of step 0 leads there.
    EarlyForger,
}

/// How a player plays.
fn player_of(who: Who) -> Player {
    match who {
        Who::Honest => HONEST,
        Who::Liar => LIAR,
        Who::Silent => SILENT,
        Who::LateByOne => Player { late: 1, ..HONEST },
        Who::Late => Player { late: 2, ..HONEST },
        Who::Leaves => Player {
            silent_from: 1,
            ..LIAR
        },
        Who::SilentFrom2 => Player {
            silent_from: 2,
            ..HONEST
        },
        Who::LiarSilentFrom2 => Player {
            silent_from: 2,
            ..LIAR
        },
        Who::LiarSilentFrom4 => Player {
            silent_from: 4,
            ..LIAR
        },
        _ => other_player(who),
    }
}

/// How a player plays that has another run or mark than the first two; any other is a liar.
fn other_player(who: Who) -> Player {
    match who {
        Who::LaterLiarSilentFrom2 => Player {
            silent_from: 2,
            from: 5,
            ..LIAR
        },
        Who::OtherLiar => Player { shift: 50, ..LIAR },
        Who::LaterLiar => Player {
            from: 4,
            shift: 50,
            ..LIAR
        },
        Who::LiarFrom1 => Player { from: 1, ..LIAR },
        Who::LiarFrom7 => Player { from: 7, ..LIAR },
        Who::Double => Player {
            claim_mark: 1,
            ..HONEST
        },
        Who::Twin => Player {
            claim_mark: 4,
            ..HONEST
        },
        Who::Forger => Player {
            proof_mark: 102,
            ..LIAR
        },
        Who::EarlyForger => Player {
            from: 1,
            shift: 20,
            proof_mark: 21,
            ..HONEST
        },
        _ => LIAR,
    }
}

/// Where a prover gives an answer of another kind than asked: its number, and the round in which it does.
#[derive(Clone, Copy)]
pub(crate) struct Wrong {
    pub prover: u32,
    pub round: u32,
}

/// Who plays a match, and how.
#[derive(Clone, Copy)]
pub(crate) struct Terms {
    /// Who plays, of whom there are 1 to 16; prover 1 is the first.
    pub players: &'static [Who],
    /// The order in which they move in turn; the place of the first is 0. It is that of their numbers if nothing stands here.
    pub order: &'static [usize],
    /// How many steps a run has.
    pub bound: u64,
    /// In how many parts a round cuts its interval.
    pub fan: u32,
    /// How often a prover may pass on a question.
    pub patience: u32,
    pub wrong: Wrong,
}

/// Nobody, over 8 steps in halves, in the order of their numbers, without patience or a wrong answer.
pub(crate) const HALVES: Terms = Terms {
    players: &[],
    order: &[],
    bound: 8,
    fan: 2,
    patience: 0,
    wrong: Wrong {
        prover: 0,
        round: 0,
    },
};

/// Which text of a match is written.
#[derive(Clone, Copy)]
pub(crate) enum Form<'a> {
    Full,
    /// The report, with these balances.
    Report(Option<&'a Balances>),
}

/// An answer of another kind than asked.
fn wrong_answer<R: Threads + Sync>(
    rt: &R,
    seated: &mut Seated,
    kind: Kind,
) -> Result<Option<Answer>, Memory>
    requires { IsSync R.row }
{
    match kind {
        Kind::Claim => Ok(Some(Answer::Root(root(9)))),
        _ => seated.answer(rt, &CLAIM, 0),
    }
}

/// A prover moves on its open question, if it has one.
fn move_prover<R: Threads + Sync>(
    rt: &R,
    game: &mut Match<ToyJudge>,
    p: u32,
    seated: &mut Seated,
    wrong: Wrong,
) -> Result<(), Memory>
    requires { IsSync R.row }
{
    if p == 0 || p > game.setup().provers() {
        return Ok(());
    }
    let Some(question) = game.question(p) else {
        return Ok(());
    };
    let answer = if wrong.prover == p && wrong.round == question.qid.round {
        wrong_answer(rt, seated, question.kind)?
    } else {
        seated.answer(rt, &question, game.passes(p))?
    };
    game.post(p, question.qid, answer.map_or(Move::Pass, Move::Give));
    Ok(())
}

/// The prover at a place moves on its open question, if it has one.
fn move_at<R: Threads + Sync>(
    rt: &R,
    alloc: Global,
    game: &mut Match<ToyJudge>,
    terms: &Terms,
    place: usize,
) -> Result<(), Memory>
    requires { IsSync R.row }
{
    match terms.players.get(place) {
        Some(who) => {
            let mut seated = Seated {
                player: player_of(*who),
                alloc,
            };
            move_prover(rt, game, place.min(15) as u32 + 1, &mut seated, terms.wrong)
        }
        None => Ok(()),
    }
}

/// The place of the player that moves in this turn of a round.
fn place_of(order: &[usize], turn: usize) -> usize {
    match order.get(turn) {
        Some(place) => *place,
        None => turn,
    }
}

/// The players move in their order, in more turns than any of these matches has.
fn play<R: Threads + Sync>(
    rt: &R,
    alloc: Global,
    game: &mut Match<ToyJudge>,
    terms: &Terms,
) -> Result<(), Memory>
    requires { IsSync R.row }
{
    for _ in 0..64 {
        for turn in 0..terms.players.len() {
            move_at(rt, alloc, game, terms, place_of(terms.order, turn))?;
        }
    }
    Ok(())
}

/// The prover whose claim is accepted; 0 if none is.
fn accepted(verdict: &Verdict) -> u32 {
    match verdict {
        Verdict::Accept(p) => *p,
        _ => 0,
    }
}

/// The text of a match with this verdict.
fn text_of(
    alloc: Global,
    head: &Head,
    game: &Match<ToyJudge>,
    verdict: &Verdict,
    form: Form<'_>,
) -> Result<Vec<u8>, Memory> {
    match form {
        Form::Full => full(alloc, head, game.record(), verdict),
        Form::Report(balances) => report(alloc, head, game.record(), verdict, balances),
    }
}

/// A text, and the prover whose claim is accepted.
fn with_accepted(text: Result<Vec<u8>, Memory>, accepted: u32) -> Result<(Vec<u8>, u32), Memory> {
    Ok((text?, accepted))
}

/// The text of a match, and the prover whose claim is accepted, 0 if none is. The text is empty if the match isn't over.
fn told(
    alloc: Global,
    head: &Head,
    game: &Match<ToyJudge>,
    form: Form<'_>,
) -> Result<(Vec<u8>, u32), Memory> {
    match game.verdict() {
        Some(verdict) => {
            let text = text_of(alloc, head, game, &verdict, form);
            with_accepted(text, accepted(&verdict))
        }
        None => Ok((Vec::new(alloc), 0)),
    }
}

/// A match that begins here is played: its text, and the prover whose claim is accepted.
fn played<R: Threads + Sync>(
    rt: &R,
    alloc: Global,
    mut game: Match<ToyJudge>,
    terms: &Terms,
    form: Form<'_>,
) -> Result<(Vec<u8>, u32), Memory>
    requires { IsSync R.row }
{
    match play(rt, alloc, &mut game, terms) {
        Ok(()) => told(alloc, &head_of(terms), &game, form),
        Err(memory) => Err(memory),
    }
}

/// The head of a match on these terms.
fn head_of(terms: &Terms) -> Head {
    Head {
        provers: terms.players.len().min(16) as u32,
        bound: terms.bound,
        patience: terms.patience,
        version: 1,
        fan: terms.fan,
        digest: DigestName::Sha256,
        start: root(0),
    }
}

/// The text of a match on these terms, and whose claim is accepted, 0 if none is. The text is empty if there is no match on such terms,
/// and if it isn't over.
pub(crate) fn written<R: Threads + Sync>(
    rt: &R,
    alloc: Global,
    terms: Terms,
    form: Form<'_>,
) -> Result<(Vec<u8>, u32), Memory>
    requires { IsSync R.row }
{
    if terms.players.is_empty() || terms.players.len() > 16 {
        return Ok((Vec::new(alloc), 0));
    }
    if terms.bound == 0 || terms.bound > 4_294_967_295 || terms.fan < 2 || terms.fan > 16 {
        return Ok((Vec::new(alloc), 0));
    }
    let Terms {
        players,
        bound,
        fan,
        patience,
        ..
    } = terms;
    let judge = ToyJudge { name: 0 };
    let game = Match::new(
        alloc,
        judge,
        players.len() as u32,
        bound,
        fan,
        patience,
        root(0),
    )?;
    played(rt, alloc, game, &terms, form)
}

/// The full text of a match on these terms.
pub(crate) fn full_of<R: Threads + Sync>(
    rt: &R,
    alloc: Global,
    terms: Terms,
) -> Result<Vec<u8>, Memory>
    requires { IsSync R.row }
{
    let (text, _) = written(rt, alloc, terms, Form::Full)?;
    Ok(text)
}
