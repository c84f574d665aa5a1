//! Posters of one task: each number of them plays one match, and each ends.
use crate::casts::{NEVER, cast_of, played_in_short};
use crate::gates::Watch;
use crate::in_short::{A_LIE_FOUND, THE_MATCH};
use posters::OpenGate;
use std::test::Fail;
use toy_game::in_short::{LATE, SILENT_LIAR};
use toy_game::{HONEST, LIAR, SILENT};

/// However many posters there are, the match is the one that is played alone: 23 entries, and one record. They make no move beside
/// those of it, and one poster makes each: the liar a claim and four answers, the late one a pass and an answer on each of seven
/// questions, and the silent one a claim, an answer and two passes. Of several posters one may end early, if it waits long. Two hundred
/// plays with sixteen posters give one record.
#[test]
fn all_numbers_of_posters_and_all_plays_give_one_match(rt: HostRuntime) -> Result<(), Fail> {
    let cast = cast_of([LIAR, LATE, SILENT_LIAR], 3);
    for posters in [1, 2, 3, 16] {
        let watch = Watch::new(false);
        let short = played_in_short(&rt, rt.alloc(), cast, 1, posters, NEVER, &watch)?;
        let [first, second, third] = watch.posts();
        let are_moves = first <= 5 && second <= 14 && third <= 4;
        let are_all = posters > 1 || (first == 5 && second == 14 && third == 4);
        assert!(rt;
            short == THE_MATCH && are_moves && are_all,
            "{posters}: {first} {second} {third}, {short:?}"
        );
    }
    for play in 0..200 {
        let short = played_in_short(&rt, rt.alloc(), cast, 1, 16, NEVER, &OpenGate)?;
        assert!(rt; short == THE_MATCH, "{play}: {short:?}");
    }
    Ok(())
}

/// An answerer that finds no memory ends its poster; what is left is played alone. If it never finds memory again, there is
/// no book.
#[test]
fn an_answerer_without_memory_ends_its_poster(rt: HostRuntime) -> Result<(), Fail> {
    let cast = cast_of([LIAR, LATE, SILENT_LIAR], 3);
    for posters in [1, 2, 16] {
        for call in 1..6 {
            let once = (call, call + 1);
            let short = played_in_short(&rt, rt.alloc(), cast, 1, posters, once, &OpenGate)?;
            let on = (call, u32::MAX);
            let none = played_in_short(&rt, rt.alloc(), cast, 1, posters, on, &OpenGate);
            assert!(rt;
                short == THE_MATCH && none.is_err(),
                "{posters} {call}: {short:?}"
            );
        }
    }
    Ok(())
}

/// Two posters are at work at once on each of the five questions of a dispute, and neither has the board from its question to its post:
/// before each post the poster waits until the other prover's post on the same question is about to come.
#[test]
fn posters_side_by_side(rt: HostRuntime) -> Result<(), Fail> {
    let cast = cast_of([HONEST, LIAR, SILENT], 2);
    let watch = Watch::new(true);
    let short = played_in_short(&rt, rt.alloc(), cast, 0, 2, NEVER, &watch)?;
    assert_eq!(rt; (short, watch.met()), (A_LIE_FOUND, 10));
    Ok(())
}
