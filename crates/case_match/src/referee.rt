//! The referee of matches. It gets books, answerers and how many posters there are, of any judge and any provers, and neither a case nor an
//! image nor a machine. So by its type the referee has no program: all that it learns of one are answers, which its judge tests.
ghost use Rattle.std.specs.Prelude.{◌≡◌, ◌<◌, ◌≤◌, [], true, map, length, IfOk};
ghost use Rattle.std.specs.List.{All};
ghost use Rattle.tournament.specs.Bracket.{is_complete};
ghost use Rattle.board_book.specs.Tasks.{openings, sayings};
ghost use Rattle.case_match.specs.Openings.{ended_alone};

use bisect_game::{Answerer, Judge, Provers, Setup};
use board_book::{Book, Books};
use posters::{TaskGate, play_tasks};
use rd_base::Memory;
use std::alloc::Global;
use std::sync::Wait;
use std::thread::Threads;
use tournament::{Record, Verdict};

/// The result of a match: the numbers by which it was played, the root at step 0 among them, what was settled, and the verdict.
#[derive(Drop)]
pub struct Ended {
    pub setup: Setup,
    pub match_record: Record,
    pub verdict: Verdict,
}

/// The result of the match of a book that is over.
fn ending_of<J: Judge + Drop, P: Provers + Drop>(book: Book<J, P>) -> Ended
    requires { is_complete book.game.record_ ≡ true }
    ensures { result ≡ ended_alone J.ruling P.says book.opening }
{
    book.has_the_record_of_the_case();
    let game = book.into_game();
    let setup = game.setup();
    let verdict = game.verdict().unwrap();
    let match_record = game.into_record();
    Ended {
        setup,
        match_record,
        verdict,
    }
}

/// The results of the matches of books that are over, in their order.
fn endings<J: Judge + Drop, P: Provers + Drop>(
    alloc: Global,
    books: Vec<Book<J, P>>,
) -> Result<Vec<Ended>, Memory>
    requires { All (λ b. is_complete b.game.record_ ≡ true) books.items }
    ensures { IfOk result (λ ends. ends.items ≡ map (ended_alone J.ruling P.says) (openings books.items)) }
{
    let mut ends = Vec::with_capacity(alloc, books.len())?;
    'books: for book in books {
        ends.push(ending_of(book))?;
    }
    Ok(ends)
}

/// Plays the matches of 1 to 8 books out, with this many posters over all of them, and decides them. The result has that of each, in their
/// order. Their answerers are numbered through all books, and answer as their provers say. Each match ends as it ends alone, however many
/// posters there are and whatever the others do. As the code shows, the gate comes before each post.
pub fn decide<
    R: Threads + Wait + Sync,
    J: Judge + Drop + Send,
    P: Provers + Drop + Send,
    A: Answerer + Send,
    G: TaskGate + Sync,
>(
    rt: &R,
    alloc: Global,
    books: Vec<Book<J, P>>,
    answerers: &mut [A],
    posters: u32,
    gate: &G,
) -> Result<Vec<Ended>, Memory>
where
    J::Names: Send,
    P::Names: Send,
    requires some { 0 < length books.items }
    requires few { length books.items ≤ 8 }
    requires empty { All (λ b. b.journal ≡ []) books.items }
    requires posters { 0 < posters }
    requires says { map A.answers answerers.old ≡ sayings P.says (openings books.items) }
    ensures { IfOk result (λ ends. ends.items ≡ map (ended_alone J.ruling P.says) (openings books.items)) }
{
    let books = Books::open(alloc, books)?;
    let played = play_tasks(rt, alloc, books, answerers, posters, gate)?;
    endings(alloc, played.into_list())
}
