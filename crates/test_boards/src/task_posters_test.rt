//! Posters of many tasks: each task ends as it ends alone.
ghost use Rattle.std.specs.Prelude.{◌≡◌};

use crate::casts::{Account, cast_of};
use crate::gates::Watch;
use crate::in_short::{Short, THE_MATCH};
use posters::OpenGate;
use std::test::Fail;
use toy_game::in_short::{Ended, LATE, Line, SILENT_LIAR};
use toy_game::{Cast, HONEST, LIAR, SILENT};

/// The match of a prover without another, in short.
const ALONE: Short = Short {
    entries: 1,
    end: Ended::Accepted(1),
    disputes: [None; 3],
};

/// The match of two silent provers, in short: each passes twice.
const SILENCE: Short = Short {
    entries: 4,
    end: Ended::NoneLeft,
    disputes: [None; 3],
};

/// Tasks of 23, of 1 and of 4 entries, the longest with a lying, a late and a silent prover, and the last with two silent ones. Each
/// ends as it ends alone, however many posters there are. One poster posts each entry: it doesn't end with its first task's end, as
/// what it leaves is played past the gate. Of several posters one may end early, if it waits long. A silent task before one that is
/// played ends with nobody, and the other as it ends alone.
#[test]
fn tasks_end_at_different_times_and_as_alone(rt: HostRuntime) -> Result<(), Fail> {
    let long = cast_of([LIAR, LATE, SILENT_LIAR], 3);
    let silent = cast_of([SILENT, SILENT, SILENT], 2);
    let casts = [long, cast_of([HONEST, SILENT, SILENT], 1), silent];
    let wanted = [THE_MATCH, ALONE, SILENCE];
    for posters in [1, 2, 4, 16] {
        let watch = Watch::new(false);
        let mut account = Account::new(rt.alloc());
        account.add_played(&rt, rt.alloc(), &casts, posters, &watch)?;
        let [first, second, third] = watch.posts();
        let posts = first.wrapping_add(second).wrapping_add(third);
        let are_right = posts == 28 || (posters > 1 && posts < 28);
        let is_alone = account.shorts.as_slice() == wanted.as_slice() && account.entries == 28;
        assert!(rt; is_alone && are_right, "{posters}");
    }
    let wanted = [SILENCE, THE_MATCH];
    for posters in [1, 2, 5] {
        let mut account = Account::new(rt.alloc());
        account.add_played(&rt, rt.alloc(), &[silent, long], posters, &OpenGate)?;
        assert!(rt; account.shorts.as_slice() == wanted.as_slice(), "{posters}");
    }
    Ok(())
}

/// Sixteen players, of whom the one of this number lies.
fn sixteen(liar: u32) -> Cast
    ensures { result.count ≡ 16 }
{
    let mut players = [HONEST; 16];
    players[(liar % 16) as usize] = LIAR;
    Cast { players, count: 16 }
}

/// How the match of sixteen players ends of whom the prover of this number lies: sixteen claims, and four answers of each side of its one
/// dispute, three roots and a proof. The first prover's dispute is with the first one of another root, which the liar loses.
fn end_of_sixteen(liar: u32) -> Short {
    let (accepted, second, out) = if liar == 1 {
        (2, 2, [true, false])
    } else {
        (1, liar, [false, true])
    };
    let dispute = Line {
        stage: 1,
        number: 1,
        sides: [1, second],
        rounds: 3,
        out,
    };
    Short {
        entries: 24,
        end: Ended::Accepted(accepted),
        disputes: [Some(dispute), None, None],
    }
}

/// Eight tasks of sixteen provers, of whom one lies in each task, the first in the first, each with its own end.
#[test]
fn eight_tasks_of_sixteen_provers(rt: HostRuntime) -> Result<(), Fail> {
    let casts = [
        sixteen(0),
        sixteen(1),
        sixteen(2),
        sixteen(3),
        sixteen(4),
        sixteen(5),
        sixteen(6),
        sixteen(7),
    ];
    let wanted = [
        end_of_sixteen(1),
        end_of_sixteen(2),
        end_of_sixteen(3),
        end_of_sixteen(4),
        end_of_sixteen(5),
        end_of_sixteen(6),
        end_of_sixteen(7),
        end_of_sixteen(8),
    ];
    for posters in [1, 4, 16] {
        let mut account = Account::new(rt.alloc());
        account.add_played(&rt, rt.alloc(), &casts, posters, &OpenGate)?;
        let is_wanted = account.shorts.as_slice() == wanted.as_slice();
        assert!(rt; is_wanted && account.entries == 192, "{posters}");
    }
    Ok(())
}

/// Two posters are at work at once on two tasks of one prover each: each waits at its first post until the other's has come.
#[test]
fn posters_of_two_tasks_side_by_side(rt: HostRuntime) -> Result<(), Fail> {
    let cast = cast_of([HONEST, SILENT, SILENT], 1);
    let watch = Watch::new(true);
    let mut account = Account::new(rt.alloc());
    account.add_played(&rt, rt.alloc(), &[cast, cast], 2, &watch)?;
    let wanted = [ALONE, ALONE];
    assert!(rt; account.shorts.as_slice() == wanted.as_slice() && watch.met() == 2);
    Ok(())
}
