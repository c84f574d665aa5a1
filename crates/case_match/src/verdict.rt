//! The matches of one case and of many tasks, as calls of their own over the path of loaded cases.
ghost use Rattle.std.specs.Prelude.{◌≡◌, ◌<◌, ◌≤◌, [], map, length, IfOk};
ghost use Rattle.std.specs.List.{All};
ghost use Rattle.rv_step.specs.State.{state_of, IsChained};
ghost use Rattle.case_reader.specs.Case.{data_of};
ghost use Rattle.case_match.specs.Options.{AreAtLeastOne};
ghost use Rattle.deposits.specs.Balances.{IsSettledUp};
ghost use Rattle.case_match.specs.Match.{record_of_case, verdict_of_record, endings_of_cases, AreSettledUp};

use crate::laws::records_of_cases_are_settled_up;
use crate::opening::{EndedCase, LoadedCase, ended_tasks, loaded_cases};
use crate::options::Options;
use case_reader::Case;
use posters::OpenGate;
use rd_base::Memory;
use rv_step::Machine;
use segment_replay::Replays;
use std::alloc::Global;
use std::sync::Wait;
use std::thread::Threads;
use tournament::{Record, Verdict};

/// The match of a case whose run starts in this machine: what is settled in it, and how it ends. The machine has no
/// output, and its chain is that of no output by the digester `d`; each option is at least 1, and none changes the answer.
///
/// The referee gets the root of this state, and decides about claims and proofs of single steps; by its type it never runs the program. As
/// the code shows, that root is made once, from scratch but for the input of version 3, whose tree is built once, for it and for all
/// provers.
pub fn verdict_of_case<R: Threads + Wait + Sync, D: Replays>(
    rt: &R,
    alloc: Global,
    d: D,
    case: &Case,
    start: Machine,
    options: Options,
) -> Result<(Record, Verdict), Memory>
where
    D: Send + Sync,
    requires chained { IsChained D.digest_of start }
    requires silent { start.output.items ≡ [] }
    requires options { AreAtLeastOne options }
    ensures record_kept { IfOk result (λ played. played.0 ≡ record_of_case D.digest_of (data_of case.now) (state_of start)) }
    ensures verdict { IfOk result (λ played. played.1 ≡ verdict_of_record D.digest_of (data_of case.now) (state_of start) played.0) }
    ensures settled_up { IfOk result (λ played. IsSettledUp (length case.now.provers) played.0) }
{
    let mut loads = Vec::with_capacity(alloc, 1)?;
    loads.push(LoadedCase { case, start })?;
    let mut ends = ended_tasks(rt, alloc, d, loads, options, &OpenGate)?;
    let end = ends.pop().unwrap().end;
    Ok((end.match_record, end.verdict))
}

/// The record and the verdict of each match, in their order.
fn endings(alloc: Global, ends: Vec<EndedCase>) -> Result<Vec<(Record, Verdict)>, Memory>
    ensures { IfOk result (λ endings. endings.items ≡ map (λ e. (e.end.match_record, e.end.verdict)) ends.entry.items) }
{
    let mut endings = Vec::with_capacity(alloc, ends.len())?;
    'ends: for ended in ends {
        let end = ended.end;
        endings.push((end.match_record, end.verdict))?;
    }
    Ok(endings)
}

/// The matches of the cases of 1 to 8 tasks, whose runs start in these machines, one for each: what is settled in each, and how it
/// ends. Posters go over the provers of all tasks. Each task ends as its case ends alone, whatever the others' provers do. The machines
/// and the options are as for `verdict_of_case`.
pub fn verdict_of_tasks<R: Threads + Wait + Sync, D: Replays>(
    rt: &R,
    alloc: Global,
    d: D,
    cases: &[Case],
    starts: Vec<Machine>,
    options: Options,
) -> Result<Vec<(Record, Verdict)>, Memory>
where
    D: Send + Sync,
    requires some { 0 < length cases.now }
    requires few { length cases.now ≤ 8 }
    requires count { length starts.items ≡ length cases.now }
    requires chained { All (IsChained D.digest_of) starts.items }
    requires silent { All (λ start. start.output.items ≡ []) starts.items }
    requires options { AreAtLeastOne options }
    ensures as_alone { IfOk result (λ ends. ends.items ≡ endings_of_cases D.digest_of (map data_of cases.now) (map state_of starts.items)) }
    ensures settled_up { IfOk result (λ ends. AreSettledUp (map data_of cases.now) ends.items) }
{
    records_of_cases_are_settled_up();
    let loads = loaded_cases(alloc, cases, starts)?;
    let ends = ended_tasks(rt, alloc, d, loads, options, &OpenGate)?;
    endings(alloc, ends)
}
