//! Posters of the product's own provers, each of which answers by a run of the machine.
ghost use Rattle.std.specs.Prelude.{◌≡◌, ℕ, [], List, All, IfOk, length};
ghost use Rattle.bisect_game.specs.Says.{AnswerAs};
ghost use Rattle.rv_step.specs.State.{IsChained};
ghost use Rattle.case_match.specs.Openings.{IsFresh};

use crate::gates::{OfOneTask, Watch};
use crate::in_short::{A_LIE_FOUND, Short, in_short};
use bisect_game::{Answerer, Provers};
use board_book::Book;
use case_match::{LoadedCase, Options, ended_tasks};
use case_reader::{Case, read_case};
use digest_core::Sha256;
use mem_plain::PlainMem;
use posters::play;
use prover_run::{CaseProvers, Plan, RunAnswerer, Start, answerers_with_input};
use prover_script::Scripted;
use rd_base::{Manner, Memory, RegisterNumber, Script, Tamper};
use rv_step::Machine;
use segment_replay::Replays;
use state_commit::{SharedInput, state_root_with};
use std::alloc::Global;
use std::sync::Wait;
use std::test::Fail;
use std::thread::Threads;
use step_referee::MachineJudge;
use tournament::Verdict;

/// The program addi a0, zero, 42; addi a7, zero, 1; ecall; addi a0, zero, 0; addi a7, zero, 93; ecall: it writes the byte 42 and exits.
const PROGRAM: &[u8] =
    b"\x13\x05\xa0\x02\x93\x08\x10\x00\x73\x00\x00\x00\x13\x05\x00\x00\x93\x08\xd0\x05\x73\x00\x00\x00";

/// The machine before the first instruction.
fn started(alloc: Global) -> Result<Machine, Memory>
    ensures chained { IfOk result (λ m. (digest : List ℕ → List ℕ) → IsChained digest m) }
    ensures silent { IfOk result (λ m. m.output.items ≡ []) }
{
    let mem = PlainMem::new(alloc).lay(0x1_0000, PROGRAM)?;
    Machine::new(alloc, 1, mem, 0x1_0000, &[])
}

/// A match of two provers over eight steps in rounds of two parts, and their answerers.
#[derive(Drop)]
struct TwoProvers<D: Replays> {
    book: Book<MachineJudge<D>, CaseProvers<D>>,
    answerers: Vec<Scripted<RunAnswerer<D>, D>>,
}

/// The match of an honest prover, and of one in whose run register 10 holds 43 at step 2.
fn opened<D: Replays>(alloc: Global, d: D) -> Result<TwoProvers<D>, Memory>
    ensures count { IfOk result (λ o. length o.answerers.items ≡ o.book.opening.setup.provers) }
    ensures says { IfOk result (λ o. AnswerAs ⟦<Scripted<RunAnswerer<D>, D> as Answerer>⟧.answers (⟦<CaseProvers<D> as Provers>⟧.says o.book.opening.provers) 1 o.answerers.items) }
{
    let Some(reg) = RegisterNumber::new(10) else {
        unreachable!()
    };
    let value = 43;
    let scripts = [
        Script {
            tamper: Tamper::Untouched,
            manner: Manner::Plain,
        },
        Script {
            tamper: Tamper::Register {
                step: 2,
                reg,
                value,
            },
            manner: Manner::Plain,
        },
    ];
    let plan = Plan {
        bound: 8,
        every: 4,
        workers: 1,
    };
    let machine = started(alloc)?;
    let input = SharedInput::of(alloc, d, &machine)?;
    let root = state_root_with(d, &machine, &input);
    let start = Start::new(&machine, &input);
    let answerers = answerers_with_input(alloc, d, &scripts, &start, plan)?;
    let provers = CaseProvers::new(alloc, d, &scripts, machine, 8)?;
    let judge = MachineJudge::new(d, 1);
    let book = Book::open(alloc, judge, provers, 8, 2, 0, root)?;
    Ok(TwoProvers { book, answerers })
}

/// The same match in short, which two posters play with this gate.
fn played_in_short<R: Threads + Wait + Sync>(
    rt: &R,
    alloc: Global,
    gate: &Watch,
) -> Result<Short, Memory> {
    let TwoProvers {
        book,
        mut answerers,
    } = opened(alloc, Sha256)?;
    let book = play(rt, alloc, book, answerers.as_mut_slice(), 2, gate)?;
    let short = in_short(&book);
    drop(book);
    Ok(short)
}

/// Two posters are at work at once on each of the five questions of a dispute between two runs of the machine: before each post the poster
/// waits until the other prover's post on the same question is about to come. The roots at the steps 4 and 2 differ and those at step 1
/// don't, so it comes to a proof of the step from 1 to 2, where the one run is as the machine makes it and the other isn't.
#[test]
fn posters_of_runs_side_by_side(rt: HostRuntime) -> Result<(), Fail> {
    let watch = Watch::new(true);
    let short = played_in_short(&rt, rt.alloc(), &watch)?;
    assert_eq!(rt; (short, watch.met()), (A_LIE_FOUND, 10));
    Ok(())
}

/// The case of the same match.
const CASE: &[u8] =
    b"{\"format\":\"flat\",\"image\":\"1305a0029308100073000000130500009308d00573000000\",\"input\":\"\",\"bound\":8,\"patience\":0,\"provers\":[{},{\"tamper\":{\"kind\":\"reg\",\"step\":2,\"reg\":10,\"value\":43}}]}";

/// That case, which has no fault.
fn read(alloc: Global) -> Result<Case, Memory> {
    match read_case(alloc, CASE) {
        Ok(case) => Ok(case),
        Err(_) => Err(Memory),
    }
}

/// A case of the program, loaded.
fn loaded(alloc: Global, case: &Case) -> Result<Vec<LoadedCase>, Memory>
    ensures one { IfOk result (λ loads. length loads.items ≡ 1) }
    ensures fresh { IfOk result (λ loads. (digest : List ℕ → List ℕ) → All (λ l. IsFresh digest l.start) loads.items) }
{
    let start = started(alloc)?;
    let mut loads = Vec::new(alloc);
    loads.push(LoadedCase { case, start })?;
    Ok(loads)
}

/// The prover that is accepted, if one is, in the match of that case, which two posters play with this gate.
fn accepted_prover<R: Threads + Wait + Sync>(
    rt: &R,
    alloc: Global,
    gate: &OfOneTask,
) -> Result<Option<u32>, Memory> {
    let case = read(alloc)?;
    let loads = loaded(alloc, &case)?;
    let options = Options {
        workers: 1,
        posters: 2,
        every: 4,
    };
    let ends = ended_tasks(rt, alloc, Sha256, loads, options, gate)?;
    match ends.first() {
        Some(ended) => match ended.end.verdict {
            Verdict::Accept(p) => Ok(Some(p)),
            _ => Ok(None),
        },
        None => Ok(None),
    }
}

/// The posters of loaded cases are as many as the options say: of two, one waits before each post until the other one is about to post on
/// the same question.
#[test]
fn as_many_posters_as_the_options_say(rt: HostRuntime) -> Result<(), Fail> {
    let watch = Watch::new(true);
    let accepted = accepted_prover(&rt, rt.alloc(), &OfOneTask { watch: &watch })?;
    assert_eq!(rt; (accepted, watch.met()), (Some(1), 10));
    Ok(())
}
