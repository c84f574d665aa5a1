//! Books in short, as plain values that a test can compare.
use bisect_game::{Judge, Provers};
use board_book::Book;
use toy_game::in_short::{Ended, Line, dispute_in_short, how};

/// A book in short.
#[derive(Clone, Copy, Debug, PartialEq, Eq)]
pub(crate) struct Short {
    /// How many entries it has.
    pub entries: usize,
    /// How its match ended.
    pub end: Ended,
    /// Its first three disputes.
    pub disputes: [Option<Line>; 3],
}

/// The match of a lying, a late and a silent prover with a patience of 1, in short.
pub(crate) const THE_MATCH: Short = Short {
    entries: 23,
    end: Ended::Accepted(2),
    disputes: [
        Some(Line {
            stage: 1,
            number: 1,
            sides: [1, 2],
            rounds: 3,
            out: [true, false],
        }),
        Some(Line {
            stage: 2,
            number: 2,
            sides: [2, 3],
            rounds: 1,
            out: [false, true],
        }),
        None,
    ],
};

/// The match of an honest prover and a liar from step 2 on, over eight steps without patience: two claims, and four answers of each.
pub(crate) const A_LIE_FOUND: Short = Short {
    entries: 10,
    end: Ended::Accepted(1),
    disputes: [
        Some(Line {
            stage: 1,
            number: 1,
            sides: [1, 2],
            rounds: 3,
            out: [false, true],
        }),
        None,
        None,
    ],
};

/// A book in short.
pub(crate) fn in_short<J: Judge + Drop, P: Provers + Drop>(book: &Book<J, P>) -> Short {
    let mut disputes = [None; 3];
    for (place, dispute) in book.record().disputes().iter().enumerate() {
        if place < 3 {
            disputes[place] = Some(dispute_in_short(dispute));
        }
    }
    Short {
        entries: book.journal().len(),
        end: how(book.verdict()),
        disputes,
    }
}
