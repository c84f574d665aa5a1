//! What is done to the books in a turn: a question, or a post.
ghost use Rattle.std.specs.Prelude.{◌≡◌, ◌<◌, ◌≤◌};
ghost use Rattle.tournament.specs.Bracket.{open_question};
ghost use Rattle.tournament.specs.Posting.{answer_of};
ghost use Rattle.bisect_game.specs.Rules.{rules_of};
ghost use Rattle.board_book.specs.Tasks.{openings, tasks_of_openings};
ghost use Rattle.dispute_board.specs.OneHistory.{MayPostFor, IsThere, receipt_of};
ghost use Rattle.dispute_board.specs.Turns.{Asks, Posts, undue};

use bisect_game::{Judge, Provers};
use board_book::{Ask, Book, Books, Opening, tasks_are_numbered};
use rd_base::Qid;
use seat_lock::{Job, Logged};
use std::marker::{Model, PhantomData};
use tournament::{Move, Reply, is_pass};

/// The openings of all books. It has no bytes, and no program makes one: contracts alone see it, as their list.
pub struct Openings<N, M> {
    marker: PhantomData<Opening<N, M>>,
}

impl<N, M> Model for Openings<N, M> {
    ghost use Rattle.std.specs.Prelude.{List, []};
    ghost use Rattle.board_book.specs.declared.book.Opening.{Opening};

    ghost Value = { List (Opening N M) };

    ghost view = { λ _. [] };
}

/// The books of all tasks under a lock. Their head is the list of their openings, and their log is the journal of all. No other crate
/// can name it, so that none does anything else in a turn than ask or post.
#[derive(Drop)]
pub struct Locked<J: Judge + Drop, P: Provers + Drop> {
    pub books: Books<J, P>,
}

impl<J: Judge + Drop, P: Provers + Drop> Logged for Locked<J, P> {
    ghost use Rattle.board_book.specs.Tasks.{openings};
    ghost use Rattle.dispute_board.specs.OneHistory.{log_of_journal};

    type Head = Openings<J::Names, P::Names>;

    ghost log = { λ locked. log_of_journal locked.books.journal };

    ghost head = { λ locked. openings locked.books.books };
}

/// What the board answers to a post.
#[derive(Clone, Copy, Debug)]
pub struct Posted {
    /// The book's reply if the prover says this move after its passes at that point; else `Stale` with the open question, if there is one,
    /// which may be the one that the post was on.
    pub reply: Reply,
    /// The place of the entry in the journal of all tasks, from 0; there if and only if the reply isn't `Stale`.
    pub receipt: Option<u64>,
}

/// Asks what the book of task `t` asks prover `p`.
#[derive(Drop)]
pub struct Asking {
    pub t: u32,
    pub p: u32,
}

impl<J: Judge + Drop, P: Provers + Drop> Job<Locked<J, P>> for Asking {
    ghost use Rattle.std.specs.Prelude.{◌≡◌};
    ghost use Rattle.board_book.specs.Tasks.{openings, tasks_of_openings};
    ghost use Rattle.dispute_board.specs.OneHistory.{IsThere};
    ghost use Rattle.dispute_board.specs.Turns.{Asks};

    type Out = Ask;

    ghost fits = { λ job heads. IsThere (tasks_of_openings J.ruling P.says heads) job.t job.p };

    ghost does = { λ job found left ask. (left ≡ found) × Asks (tasks_of_openings J.ruling P.says (openings found.books.books)) found.books.journal job.t job.p ask };

    fn act(self, locked: &mut Locked<J, P>) -> Ask {
        let books = &locked.books;
        books.is_legal();
        tasks_are_numbered::<J, P>();
        let book = books.book(self.t);
        book.is_legal();
        book.asks_what_the_case_asks();
        book.ask(self.p)
    }
}

/// Posts a move of prover `p` to the book of task `t`, if it is due there.
#[derive(Drop)]
pub struct Posting {
    pub t: u32,
    pub p: u32,
    pub qid: Qid,
    pub turn: Move,
}

/// The receipt of a post at this place.
fn receipt_for(reply: Reply, place: u64) -> Option<u64>
    ensures { result ≡ receipt_of reply place }
{
    match reply {
        Reply::Stale(_) => None,
        _ => Some(place),
    }
}

/// The number of the prover's open question, if it has one and the move isn't due on it: if the prover passes there now and the move is
/// no pass, or the other way round. `None` if the move is due, or the prover has no open question.
fn undue_on<J: Judge + Drop, P: Provers + Drop>(book: &Book<J, P>, post: &Posting) -> Option<Qid>
    requires some { 0 < post.now.p }
    requires few { post.now.p ≤ book.now.opening.setup.provers }
    ensures { result ≡ undue (P.says book.now.opening.provers) book.now.game post.now.p (answer_of post.now.turn) (open_question (rules_of (J.ruling book.now.opening.judge) book.now.opening.setup) book.now.game.record_ post.now.p) }
{
    match book.ask(post.p) {
        Ask::Question(question, passes) => {
            let waits = book.passes_on(post.p, &question, passes);
            let due = if is_pass(&post.turn) { waits } else { !waits };
            if due { None } else { Some(question.qid) }
        }
        _ => None,
    }
}

impl<J: Judge + Drop, P: Provers + Drop> Job<Locked<J, P>> for Posting {
    ghost use Rattle.std.specs.Prelude.{◌≡◌};
    ghost use Rattle.tournament.specs.Posting.{answer_of};
    ghost use Rattle.board_book.specs.Tasks.{openings, tasks_of_openings};
    ghost use Rattle.dispute_board.specs.OneHistory.{MayPostFor, IsThere};
    ghost use Rattle.dispute_board.specs.Turns.{Posts};

    type Out = Posted;

    ghost fits = { λ job heads. IsThere (tasks_of_openings J.ruling P.says heads) job.t job.p × MayPostFor (tasks_of_openings J.ruling P.says heads) job.t job.p job.qid (answer_of job.turn) };

    ghost does = { λ job found left posted. (openings left.books.books ≡ openings found.books.books) × Posts (tasks_of_openings J.ruling P.says (openings found.books.books)) found.books.journal job.t job.p job.qid (answer_of job.turn) posted left.books.journal };

    fn act(self, locked: &mut Locked<J, P>) -> Posted {
        let books = &mut locked.books;
        books.is_legal();
        tasks_are_numbered::<J, P>();
        let book = books.book(self.t);
        book.is_legal();
        book.asks_what_the_case_asks();
        let place = books.journal().len() as u64;
        match undue_on(book, &self) {
            Some(number) => Posted {
                reply: Reply::Stale(Some(number)),
                receipt: None,
            },
            None => {
                let reply = books.post(self.t, self.p, self.qid, self.turn);
                books.is_legal();
                Posted {
                    reply,
                    receipt: receipt_for(reply, place),
                }
            }
        }
    }
}
