//! Posts that change nothing.
use bisect_game::Kind;
use rd_base::{Memory, Qid};
use std::alloc::Global;
use std::test::Fail;
use tournament::{Match, Move, Reply, Verdict};
use toy_game::in_short::CLAIM;
use toy_game::{HONEST, LIAR, Player, ToyJudge, given, root};

/// The number of the first question of the dispute.
const FIRST: Qid = Qid {
    dispute: 1,
    round: 1,
};

/// The number of a later round.
const LATER: Qid = Qid {
    dispute: 1,
    round: 2,
};

/// The number of a dispute that isn't there.
const ABSENT: Qid = Qid {
    dispute: 2,
    round: 1,
};

/// How a post was answered, and how often its prover has passed on its open question then.
#[derive(Clone, Copy, Debug, PartialEq, Eq)]
enum Replied {
    Taken(u32),
    Faulty(u32),
    Spent(u32),
    Stale(Option<Qid>, u32),
    /// There is no prover of this number.
    NoProver,
}

/// A prover posts a move under a number.
fn post(game: &mut Match<ToyJudge>, p: u32, qid: Qid, turn: Move) -> Replied {
    if p == 0 || p > game.setup().provers() {
        return Replied::NoProver;
    }
    let reply = game.post(p, qid, turn);
    let passes = game.passes(p);
    match reply {
        Reply::Taken => Replied::Taken(passes),
        Reply::Faulty => Replied::Faulty(passes),
        Reply::Spent => Replied::Spent(passes),
        Reply::Stale(open) => Replied::Stale(open, passes),
    }
}

/// What a prover posts.
#[derive(Clone, Copy)]
enum Turn {
    Pass,
    /// What this player gives to a question of this kind.
    Gives(Player, Kind),
}

/// A post, and how it is answered.
#[derive(Clone, Copy)]
struct Row {
    prover: u32,
    /// The number under which it posts.
    qid: Qid,
    turn: Turn,
    replied: Replied,
}

/// How the post of a place is answered.
#[derive(Clone, Copy, Debug, PartialEq, Eq)]
struct Answered {
    place: usize,
    replied: Replied,
}

/// Posts in a match over 8 steps with a patience of 1. Prover 1 claims truly and then gives a proof for a root; prover 2 lies and then
/// passes. A stale post of each kind carries the open question and changes nothing: the claim's number again, a dispute that isn't there, a
/// later round, and a post of a prover without a question.
const POSTS: [Row; 11] = [
    Row {
        prover: 1,
        qid: FIRST,
        turn: Turn::Pass,
        replied: Replied::Stale(Some(CLAIM), 0),
    },
    Row {
        prover: 1,
        qid: CLAIM,
        turn: Turn::Pass,
        replied: Replied::Taken(1),
    },
    Row {
        prover: 1,
        qid: CLAIM,
        turn: Turn::Gives(HONEST, Kind::Claim),
        replied: Replied::Taken(0),
    },
    Row {
        prover: 1,
        qid: CLAIM,
        turn: Turn::Pass,
        replied: Replied::Stale(None, 0),
    },
    Row {
        prover: 2,
        qid: CLAIM,
        turn: Turn::Gives(LIAR, Kind::Claim),
        replied: Replied::Taken(0),
    },
    Row {
        prover: 1,
        qid: CLAIM,
        turn: Turn::Pass,
        replied: Replied::Stale(Some(FIRST), 0),
    },
    Row {
        prover: 1,
        qid: LATER,
        turn: Turn::Pass,
        replied: Replied::Stale(Some(FIRST), 0),
    },
    Row {
        prover: 1,
        qid: ABSENT,
        turn: Turn::Pass,
        replied: Replied::Stale(Some(FIRST), 0),
    },
    Row {
        prover: 1,
        qid: FIRST,
        turn: Turn::Gives(HONEST, Kind::Proof(0)),
        replied: Replied::Faulty(0),
    },
    Row {
        prover: 2,
        qid: FIRST,
        turn: Turn::Pass,
        replied: Replied::Taken(1),
    },
    Row {
        prover: 2,
        qid: FIRST,
        turn: Turn::Pass,
        replied: Replied::Spent(0),
    },
];

/// How a post of this turn is answered.
fn turned(
    alloc: Global,
    game: &mut Match<ToyJudge>,
    p: u32,
    qid: Qid,
    turn: Turn,
) -> Result<Replied, Memory> {
    match turn {
        Turn::Pass => Ok(post(game, p, qid, Move::Pass)),
        Turn::Gives(player, kind) => {
            let answer = given(alloc, &player, kind)?;
            Ok(post(game, p, qid, Move::Give(answer)))
        }
    }
}

/// The first post that is answered otherwise, and how.
fn first_other(alloc: Global, game: &mut Match<ToyJudge>) -> Result<Option<Answered>, Memory> {
    for (place, post) in POSTS.iter().enumerate() {
        let replied = turned(alloc, game, post.prover, post.qid, post.turn)?;
        if replied != post.replied {
            return Ok(Some(Answered { place, replied }));
        }
    }
    Ok(None)
}

/// The first post in a match that is answered otherwise, and whether nobody is left behind them.
fn posted(alloc: Global, mut game: Match<ToyJudge>) -> Result<(Option<Answered>, bool), Memory> {
    match first_other(alloc, &mut game) {
        Ok(place) => Ok((place, matches!(game.verdict(), Some(Verdict::NoneLeft)))),
        Err(memory) => Err(memory),
    }
}

#[test]
fn stale_posts_change_nothing(rt: HostRuntime) -> Result<(), Fail> {
    let game = Match::new(rt.alloc(), ToyJudge { name: 0 }, 2, 8, 2, 1, root(0))?;
    assert_eq!(rt; posted(rt.alloc(), game)?, (None, true));
    Ok(())
}
