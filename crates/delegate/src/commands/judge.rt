//! `judge`: to decide the match of a case, or those of tasks, and to write each one's report or full text. `big` decides its match by
//! `response_to_tasks` too.
ghost use Rattle.std.specs.Prelude.{◌≡◌, ◌+◌, ◌<◌, ◌≤◌, ◌++◌, map, length, string_bytes, IfOk, OnOk};
ghost use Rattle.std.specs.List.{All};
ghost use Rattle.case_reader.specs.Case.{data_of};
ghost use Rattle.case_reader.specs.Tasks.{tasks_data, AreFew};
ghost use Rattle.case_match.specs.Options.{AreAtLeastOne};
ghost use Rattle.deposits.specs.Balances.{IsSettledUp};
ghost use Rattle.transcript_text.specs.Report.{report_text};
ghost use Rattle.transcript_text.specs.MoveLists.{moves_of};
ghost use Rattle.transcript_text.specs.FullLines.{AreWritten};
ghost use Rattle.transcript_text.specs.reader.InLimits.{AreBytes};
ghost use Rattle.case_match.specs.Openings.{IsFresh, ended_of_loaded};
ghost use Rattle.digest_core.specs.Name.{digest_of};
ghost use Rattle.delegate.specs.Decided.{answered_for, balances_in, gravest, heading, match_head, match_text, response_of, tasks_for, texts_under, written_as};
ghost use Rattle.delegate.specs.Headline.{AreByteStrings};
ghost use Rattle.delegate.specs.Standing.{Stands, AreInRangeIfThere, AreInRangeOnceLoaded, EndIsShown, task_number, responses};
ghost use Rattle.delegate.specs.commands.Judge.{judging, judge_response, response_to_tasks};

use crate::loading::{first_subject, loads_in, tasks_in};
use crate::response::{Answered, Response, Stop, Subject};
use case_match::{Ended, EndedCase, LoadedCase, OpenGate, Options, ended_tasks};
use case_reader::{Case, Tasks};
use command_line::MatchText;
use deposits::balances;
use digest_core::{DigestName, Sha256, Weak8};
use rd_base::{Bytes, Digest32, Memory};
use std::alloc::Global;
use std::sync::Wait;
use std::thread::Threads;
use tournament::{Record, Verdict};
use transcript_text::Head;

/// Which text is written of a match.
#[derive(Clone, Copy, Debug)]
pub enum WhichText {
    /// The report.
    Report,
    /// The full text.
    Full,
    /// The summary of the large workload of a seed.
    Summary(u32),
}

/// What a command that decides matches is asked for: the digest of their commitments, by its name, and the text of each.
#[derive(Clone, Copy, Debug)]
pub struct Deciding {
    pub digest: DigestName,
    pub written: WhichText,
}

/// Decides the match of the case of the bytes, or those of its tasks, by commitments of the digest with this name, and writes the text
/// of each that is asked for.
#[tactic(auto, unfolding(crate::specs::commands::Judge::judge_response))]
pub fn judge<R: Threads + Wait + Sync>(
    rt: &R,
    alloc: Global,
    text: MatchText,
    name: DigestName,
    options: Options,
    bytes: Vec<u8>,
) -> Result<Response, Stop>
    requires { AreAtLeastOne options }
    ensures stands { Stands (λ response. response) result (judge_response text name bytes.items) }
    ensures in_range { IfOk result (λ response. AreInRangeIfThere (judging text name) (tasks_for (written_as text) bytes.items)) }
{
    let tasks = tasks_in(alloc, bytes)?;
    let asked = judging(text, name);
    response_to_tasks(rt, alloc, asked, options, &tasks)
}

/// What it is asked for.
fn judging(text: MatchText, name: DigestName) -> Deciding
    ensures { result ≡ judging text name }
{
    Deciding {
        digest: name,
        written: match text {
            MatchText::Report => WhichText::Report,
            MatchText::Full => WhichText::Full,
        },
    }
}

/// Decides what was read, one case or those of tasks: all images are loaded before anything is played, and the text of each match is
/// written under its heading. One case is decided as the tasks of one, with nothing over its text.
#[tactic(auto, unfolding(crate::specs::commands::Judge::response_to_tasks))]
pub fn response_to_tasks<R: Threads + Wait + Sync>(
    rt: &R,
    alloc: Global,
    asked: Deciding,
    options: Options,
    tasks: &Tasks,
) -> Result<Response, Stop>
    requires few { AreFew tasks.now }
    requires options { AreAtLeastOne options }
    ensures stands { Stands (λ response. response) result (response_to_tasks asked (tasks_data tasks.now)) }
    ensures in_range { IfOk result (λ response. AreInRangeOnceLoaded asked (tasks_data tasks.now)) }
{
    let loads = loads_in(alloc, tasks)?;
    let ends = ended_by(rt, alloc, asked.digest, loads, options)?;
    let mut bytes = Vec::new(alloc);
    let subject = first_subject(tasks);
    let answered = add_texts(&mut bytes, alloc, asked, subject, ends.as_slice())?;
    Ok(Response {
        answered,
        text: Bytes::new(bytes),
    })
}

/// 1 to 8 loaded cases with the results of their matches, in their order, played by the digester of a name. Each machine has no output, and
/// its chain is that of no output by this digester; each option is at least 1, and none changes the answer.
fn ended_by<'a, R: Threads + Wait + Sync>(
    rt: &R,
    alloc: Global,
    name: DigestName,
    loads: Vec<LoadedCase<'a>>,
    options: Options,
) -> Result<Vec<EndedCase<'a>>, Memory>
    requires some { 0 < length loads.items }
    requires few { length loads.items ≤ 8 }
    requires fresh { All (λ l. IsFresh (digest_of name) l.start) loads.items }
    requires options { AreAtLeastOne options }
    ensures ended { IfOk result (λ ends. ends.items ≡ map (ended_of_loaded (digest_of name)) loads.entry.items) }
    ensures settled_up { IfOk result (λ ends. All (λ e. IsSettledUp (length e.case.now.provers) e.end.match_record) ends.items) }
{
    match name {
        DigestName::Sha256 => ended_tasks(rt, alloc, Sha256, loads, options, &OpenGate),
        DigestName::Weak8 => ended_tasks(rt, alloc, Weak8, loads, options, &OpenGate),
    }
}

/// Adds the texts of cases whose matches have ended, each under its heading, and gives the gravest answer. The first is of this subject. An
/// `Err` is out of memory, after some were added.
fn add_texts(
    out: &mut Vec<u8>,
    alloc: Global,
    asked: Deciding,
    subject: Subject,
    ends: &[EndedCase],
) -> Result<Answered, Memory>
    requires few { task_number subject + length ends.now ≤ 9 }
    requires settled_up { All (λ e. IsSettledUp (length e.case.now.provers) e.end.match_record) ends.now }
    ensures texts { OnOk result (
        out.new.items ≡ out.old.items ++ texts_under subject (map (λ response. response.text) (responses asked ends.now))) }
    ensures answered { IfOk result (λ answered. answered ≡ gravest (responses asked ends.now)) }
    ensures shown { IfOk result (λ answered. All (λ e. EndIsShown asked e.end) ends.now) }
{
    let [end, later @ ..] = ends else {
        return Ok(Answered::Done);
    };
    add_text(out, alloc, asked, subject, end)?;
    let gravest = add_texts(out, alloc, asked, subject.next(), later)?;
    Ok(answered_for(asked.written, &end.end.verdict).or_graver(gravest))
}

/// Adds the heading of a case whose match has ended, and its text. The strings of a collision consist of bytes. An `Err` is out of memory,
/// after some of it was added.
fn add_text(
    out: &mut Vec<u8>,
    alloc: Global,
    asked: Deciding,
    subject: Subject,
    ended: &EndedCase,
) -> Result<(), Memory>
    requires { IsSettledUp (length ended.now.case.now.provers) ended.now.end.match_record }
    ensures shown { IfOk result (λ done. EndIsShown asked ended.now.end) }
    ensures text { OnOk result (
        out.new.items ≡ out.old.items ++ (heading subject ++ (response_of asked (data_of ended.now.case.now) ended.now.end).text)) }
{
    let heading = heading(alloc, subject)?;
    let bytes = text_in(alloc, asked, ended.case, &ended.end)?;
    strings_are_bytes(&ended.end.verdict);
    out.extend_from_slice(heading.as_bytes())?;
    out.extend_from_slice(bytes.as_slice())?;
    Ok(())
}

/// What stands over the text of a case: nothing if it is all that is read, and of a task its line.
fn heading(alloc: Global, subject: Subject) -> Result<String, Memory>
    ensures { IfOk result (λ text. string_bytes text ≡ heading subject) }
{
    match subject {
        Subject::Whole => Ok(String::new(alloc)),
        Subject::Task(number) => Ok(format!(in alloc; "task {number}\n")?),
    }
}

/// The text of the match of a case that is asked for. The match has ended.
fn text_in(alloc: Global, asked: Deciding, case: &Case, end: &Ended) -> Result<Vec<u8>, Memory>
    requires { IsSettledUp (length case.now.provers) end.now.match_record }
    ensures text { IfOk result (λ bytes. bytes.items ≡ (response_of asked (data_of case.now) end.now).text) }
    ensures written { IfOk result (λ bytes. asked.written ≡ WhichText.Full → AreWritten (moves_of end.now.match_record)) }
{
    let head = match_head(asked.digest, case, end.setup.start());
    text_of(
        alloc,
        asked.written,
        case,
        &head,
        &end.match_record,
        &end.verdict,
    )
}

/// The text of this kind of the match of a case that has ended.
fn text_of(
    alloc: Global,
    written: WhichText,
    case: &Case,
    head: &Head,
    match_record: &Record,
    verdict: &Verdict,
) -> Result<Vec<u8>, Memory>
    requires { IsSettledUp (length case.now.provers) match_record.now }
    ensures text { IfOk result (λ bytes.
        bytes.items ≡ match_text written head.now match_record.now (balances_in (data_of case.now) match_record.now) verdict.now) }
    ensures written { IfOk result (λ bytes. written ≡ WhichText.Full → AreWritten (moves_of match_record.now)) }
{
    match written {
        WhichText::Report => report_of(alloc, case, head, match_record, verdict),
        WhichText::Full => transcript_text::full(alloc, head, match_record, verdict),
        WhichText::Summary(seed) => transcript_text::summary(alloc, seed, match_record, verdict),
    }
}

/// The report of the match of a case that has ended: with what each prover has and what is in the pool, if the case has deposits.
fn report_of(
    alloc: Global,
    case: &Case,
    head: &Head,
    match_record: &Record,
    verdict: &Verdict,
) -> Result<Vec<u8>, Memory>
    requires { IsSettledUp (length case.now.provers) match_record.now }
    ensures { IfOk result (λ bytes.
        bytes.items ≡ report_text head.now match_record.now verdict.now (balances_in (data_of case.now) match_record.now)) }
{
    match case.stake {
        Some(stake) => {
            let paid = balances(alloc, stake, case.provers.len() as u32, match_record)?;
            transcript_text::report(alloc, head, match_record, verdict, Some(&paid))
        }
        None => transcript_text::report(alloc, head, match_record, verdict, None),
    }
}

/// What the match of a case is played over, from the root of the state in which its run starts.
fn match_head(name: DigestName, case: &Case, start: Digest32) -> Head
    ensures { result ≡ match_head name (data_of case.now) start }
{
    Head {
        provers: case.provers.len() as u32,
        bound: case.bound,
        patience: case.patience,
        version: case.version,
        fan: case.fan,
        digest: name,
        start,
    }
}

/// How the program ends by this text and verdict: a summary is always answered by its line.
fn answered_for(written: WhichText, verdict: &Verdict) -> Answered
    ensures { result ≡ answered_for written verdict.now }
{
    if let WhichText::Summary(_) = written {
        return Answered::Done;
    }
    match verdict {
        Verdict::Accept(_) => Answered::Done,
        Verdict::NoneLeft => Answered::NoneLeft,
        Verdict::Collision(_, _) => Answered::Collision,
    }
}

/// The strings of a collision consist of bytes.
fn strings_are_bytes(verdict: &Verdict)
    ensures { AreByteStrings verdict.now }
{
    match verdict {
        Verdict::Accept(_) => {}
        Verdict::NoneLeft => {}
        Verdict::Collision(x, y) => {
            bytes_are_small(x.as_slice());
            bytes_are_small(y.as_slice());
        }
    }
}

/// Bytes are below 256.
fn bytes_are_small(bytes: &[u8])
    ensures { AreBytes bytes.now }
{}
