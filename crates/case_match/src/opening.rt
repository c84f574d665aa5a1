//! Loaded cases, and their matches, opened and handed to the referee.
ghost use Rattle.std.specs.Prelude.{◌≡◌, ℕ, List, [], map, length, IfOk, ◌<◌, ◌≤◌};
ghost use Rattle.std.specs.List.{All};
ghost use Rattle.bisect_game.specs.Says.{AnswerAs};
ghost use Rattle.rv_step.specs.State.{state_of, IsChained};
ghost use Rattle.board_book.specs.Tasks.{openings, sayings};
ghost use Rattle.prover_run.specs.CaseScripts.{case_says};
ghost use Rattle.case_reader.specs.Case.{data_of};
ghost use Rattle.case_match.specs.Options.{AreAtLeastOne};
ghost use Rattle.case_match.specs.Openings.{IsFresh, opening_of_case, opening_of_loaded, ended_of_loaded};
ghost use Rattle.deposits.specs.Balances.{IsSettledUp};

use crate::laws::records_of_cases_are_settled_up;
use crate::options::Options;
use crate::referee::{Ended, decide};
use bisect_game::{Answerer, Provers};
use board_book::{Book, answerers_say_in_order};
use case_reader::Case;
use posters::TaskGate;
use prover_run::{CaseProvers, Plan, RunAnswerer, Start, answerers_with_input};
use prover_script::Scripted;
use rd_base::Memory;
use rv_step::Machine;
use segment_replay::Replays;
use state_commit::{SharedInput, state_root_with};
use std::alloc::Global;
use std::sync::Wait;
use std::thread::Threads;
use step_referee::MachineJudge;

/// A case that is loaded: the case, and the machine in which its run starts.
#[derive(Drop)]
pub struct LoadedCase<'a> {
    pub case: &'a Case,
    pub start: Machine,
}

/// A case whose match has ended, and how.
#[derive(Drop)]
pub struct EndedCase<'a> {
    pub case: &'a Case,
    pub end: Ended,
}

/// Cases with the machines in which their runs start, one for each. No machine has any output.
pub fn loaded_cases<'a>(
    alloc: Global,
    cases: &'a [Case],
    starts: Vec<Machine>,
) -> Result<Vec<LoadedCase<'a>>, Memory>
    requires count { length starts.items ≡ length cases.now }
    requires silent { All (λ start. start.output.items ≡ []) starts.items }
    ensures cases { IfOk result (λ loads. map (λ l. data_of l.case.now) loads.items ≡ map data_of cases.now) }
    ensures starts { IfOk result (λ loads. map (λ l. l.start) loads.items ≡ starts.items) }
    ensures fresh { IfOk result (λ loads. (digest : List ℕ → List ℕ) → All (IsChained digest) starts.items → All (λ l. IsFresh digest l.start) loads.items) }
{
    let mut loads = Vec::with_capacity(alloc, starts.len())?;
    let mut at = 0;
    'starts: for start in starts {
        loads.push(LoadedCase {
            case: &cases[at],
            start,
        })?;
        at += 1;
    }
    Ok(loads)
}

/// The match of a case, opened: its book, and an answerer for each of its provers.
#[derive(Drop)]
struct OpenedMatch<D: Replays> {
    book: Book<MachineJudge<D>, CaseProvers<D>>,
    answerers: Vec<Scripted<RunAnswerer<D>, D>>,
}

/// The matches of cases, opened: their books, the answerers of all their provers, and the cases.
#[derive(Drop)]
struct OpenedMatches<'a, D: Replays> {
    pub books: Vec<Book<MachineJudge<D>, CaseProvers<D>>>,
    pub answerers: Vec<Scripted<RunAnswerer<D>, D>>,
    pub cases: Vec<&'a Case>,
}

/// How the provers of a case record and replay their runs, by its bound and the options, each of which is at least 1.
fn plan_for(case: &Case, options: Options) -> Plan
    requires { AreAtLeastOne options }
    ensures bound { result.bound ≡ case.now.bound }
    ensures every { result.every ≡ options.every }
    ensures workers { result.workers ≡ options.workers }
{
    Plan {
        bound: case.bound,
        every: options.every,
        workers: options.workers,
    }
}

/// Opens the match of a case whose run starts in this machine. Each answerer answers as its prover's script says. As the code shows, in
/// version 3 the tree of the input is built once, for the root and for all provers.
fn open_match<D: Replays>(
    alloc: Global,
    d: D,
    case: &Case,
    start: Machine,
    options: Options,
) -> Result<OpenedMatch<D>, Memory>
    requires fresh { IsFresh D.digest_of start }
    requires options { AreAtLeastOne options }
    ensures opening { IfOk result (λ opened. opened.book.opening ≡ opening_of_case D.digest_of (data_of case.now) (state_of start)) }
    ensures empty { IfOk result (λ opened. opened.book.journal ≡ []) }
    ensures count { IfOk result (λ opened. length opened.answerers.items ≡ length case.now.provers) }
    ensures says { IfOk result (λ opened. AnswerAs ⟦<Scripted<RunAnswerer<D>, D> as Answerer>⟧.answers (case_says D.digest_of (state_of start) case.now.bound case.now.provers) 1 opened.answerers.items) }
{
    let input = SharedInput::of(alloc, d, &start)?;
    let root = state_root_with(d, &start, &input);
    let scripts = case.provers.as_slice();
    let judge = MachineJudge::new(d, start.version);
    let plan = plan_for(case, options);
    let answerers = answerers_with_input(alloc, d, scripts, &Start::new(&start, &input), plan)?;
    let provers = CaseProvers::new(alloc, d, scripts, start, case.bound)?;
    let book = Book::open(
        alloc,
        judge,
        provers,
        case.bound,
        case.fan,
        case.patience,
        root,
    )?;
    Ok(OpenedMatch { book, answerers })
}

/// Opens the matches of loaded cases, in their order.
fn open_matches<'a, D: Replays>(
    alloc: Global,
    d: D,
    mut loads: Vec<LoadedCase<'a>>,
    options: Options,
) -> Result<OpenedMatches<'a, D>, Memory>
    requires fresh { All (λ l. IsFresh D.digest_of l.start) loads.items }
    requires options { AreAtLeastOne options }
    ensures cases { IfOk result (λ opened. opened.cases.items ≡ map (λ l. l.case) loads.entry.items) }
    ensures openings { IfOk result (λ opened. openings opened.books.items ≡ map (opening_of_loaded D.digest_of) loads.entry.items) }
    ensures empty { IfOk result (λ opened. All (λ b. b.journal ≡ []) opened.books.items) }
    ensures says { IfOk result (λ opened. map ⟦<Scripted<RunAnswerer<D>, D> as Answerer>⟧.answers opened.answerers.items ≡ sayings ⟦<CaseProvers<D> as Provers>⟧.says (openings opened.books.items)) }
{
    let Some(last) = loads.pop() else {
        return Ok(OpenedMatches {
            books: Vec::new(alloc),
            answerers: Vec::new(alloc),
            cases: Vec::new(alloc),
        });
    };
    answerers_say_in_order::<Scripted<RunAnswerer<D>, D>>();
    let OpenedMatches {
        mut books,
        mut answerers,
        mut cases,
    } = open_matches(alloc, d, loads, options)?;
    let OpenedMatch {
        book,
        answerers: mut own,
    } = open_match(alloc, d, last.case, last.start, options)?;
    books.push(book)?;
    answerers.append(&mut own)?;
    cases.push(last.case)?;
    Ok(OpenedMatches {
        books,
        answerers,
        cases,
    })
}

/// Each of these cases with its end, of which there is one for each.
fn with_ends<'a>(
    alloc: Global,
    cases: Vec<&'a Case>,
    ends: Vec<Ended>,
) -> Result<Vec<EndedCase<'a>>, Memory>
    requires { length ends.items ≡ length cases.items }
    ensures cases { IfOk result (λ ended. map (λ e. e.case) ended.items ≡ cases.entry.items) }
    ensures ends { IfOk result (λ ended. map (λ e. e.end) ended.items ≡ ends.items) }
{
    let mut ended = Vec::with_capacity(alloc, ends.len())?;
    let mut at = 0;
    'ends: for end in ends {
        ended.push(EndedCase {
            case: cases[at],
            end,
        })?;
        at += 1;
    }
    Ok(ended)
}

/// 1 to 8 loaded cases with the results of their matches, in their order, played by commitments of the digester `d`. Posters go over the
/// provers of all cases. Each case ends as it ends alone, whatever the others' provers do, and its record may be paid. Each machine has no
/// output, and its chain is that of no output by `d`; each option is at least 1, and none changes the answer. As the code shows, the gate
/// comes before each post: a program hands `OpenGate` over, and a test may wait there.
pub fn ended_tasks<'a, R: Threads + Wait + Sync, D: Replays, G: TaskGate + Sync>(
    rt: &R,
    alloc: Global,
    d: D,
    loads: Vec<LoadedCase<'a>>,
    options: Options,
    gate: &G,
) -> Result<Vec<EndedCase<'a>>, Memory>
where
    D: Send + Sync,
    requires some { 0 < length loads.items }
    requires few { length loads.items ≤ 8 }
    requires fresh { All (λ l. IsFresh D.digest_of l.start) loads.items }
    requires options { AreAtLeastOne options }
    ensures ended { IfOk result (λ ends. ends.items ≡ map (ended_of_loaded D.digest_of) loads.entry.items) }
    ensures settled_up { IfOk result (λ ends. All (λ e. IsSettledUp (length e.case.now.provers) e.end.match_record) ends.items) }
{
    records_of_cases_are_settled_up();
    let OpenedMatches {
        books,
        mut answerers,
        cases,
    } = open_matches(alloc, d, loads, options)?;
    let ends = decide(
        rt,
        alloc,
        books,
        answerers.as_mut_slice(),
        options.posters,
        gate,
    )?;
    with_ends(alloc, cases, ends)
}
