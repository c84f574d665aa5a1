//! `audit`: to check a full text line by line, and to write its verdict.
ghost use Rattle.std.specs.Prelude.{◌≡◌, ◌++◌, Ok, codes, IfOk};
ghost use Rattle.transcript_text.specs.Lines.{line_of_stated};
ghost use Rattle.transcript_text.specs.Report.{line_text};
ghost use Rattle.transcript_text.specs.reader.ReadText.{read_text};
ghost use Rattle.audit.specs.LineByLine.{audited};
ghost use Rattle.delegate.specs.Refusal.{or_refusal};
ghost use Rattle.delegate.specs.commands.Audit.{text_refusal, cause_number, response_to_finding, ruling_of_text, audit_response};
ghost use Rattle.delegate.specs.Standing.{Stands};

use crate::response::{Answered, Response, Stop, text_response};
use audit::{Audit, Cause, a_read_text_may_be_audited, audit};
use digest_core::{DigestName, Sha256, Weak8};
use rd_base::Memory;
use std::alloc::{AllocError, Global};
use step_referee::MachineJudge;
use transcript_text::{FullText, Stated, TextFault, read_full, stated_line};

/// The response to a fault of a text. Its text is empty if the fault is `Memory`.
fn text_refusal(alloc: Global, fault: TextFault) -> Result<Response, AllocError>
    ensures { IfOk result (λ response. response ≡ text_refusal fault) }
{
    let text = match fault {
        TextFault::BadHead => String::from_str(alloc, "fault text 1\n")?,
        TextFault::BadLine(line) => format!(in alloc; "fault text 2 {line}\n")?,
        TextFault::Truncated => String::from_str(alloc, "fault text 3\n")?,
        TextFault::OutOfRange(line) => format!(in alloc; "fault text 4 {line}\n")?,
        TextFault::Memory => String::new(alloc),
    };
    Ok(text_response(Answered::AuditRefused, text))
}

/// The full text of the bytes.
fn full_text_in(alloc: Global, bytes: &[u8]) -> Result<FullText, Stop>
    ensures stands { Stands (λ text. text) result (or_refusal text_refusal (read_text bytes.now)) }
    ensures read { IfOk result (λ text. read_text bytes.now ≡ Ok text) }
{
    match read_full(alloc, bytes) {
        Ok(text) => Ok(text),
        Err(TextFault::Memory) => Err(Stop::Memory),
        Err(fault) => Err(Stop::Refused(text_refusal(alloc, fault)?)),
    }
}

/// Audits a text that was read before the judge of the machine, in the version and by the digest that the text's head names.
fn audit_by_name(alloc: Global, bytes: &[u8], text: &FullText) -> Result<Audit, Memory>
    requires { read_text bytes.now ≡ Ok text.now }
    ensures { IfOk result (λ found. found ≡ audited (ruling_of_text text.now) text.now) }
{
    a_read_text_may_be_audited(bytes, text);
    let version = text.head.version;
    match text.head.digest {
        DigestName::Sha256 => audit(alloc, text, MachineJudge::new(Sha256, version)),
        DigestName::Weak8 => audit(alloc, text, MachineJudge::new(Weak8, version)),
    }
}

/// The number of a cause.
fn number_of(cause: Cause) -> u32
    ensures { result ≡ cause_number cause }
{
    match cause {
        Cause::NotAsked => 1,
        Cause::OtherReply => 2,
        Cause::OtherVerdict => 3,
        Cause::MovesMissing => 4,
        Cause::MovesAfterEnd => 5,
    }
}

/// The response to a text that is confirmed: the line of its verdict.
fn confirmed(alloc: Global, stated: &Stated) -> Result<Response, AllocError>
    ensures { IfOk result (λ response. response ≡ record { answered = Answered.Done; text = codes "confirmed " ++ line_text (line_of_stated stated.now) }) }
{
    let line = stated_line(alloc, stated)?;
    let text = format!(in alloc; "confirmed {line}")?;
    Ok(text_response(Answered::Done, text))
}

/// The response to what an audit finds of a text with this stated verdict.
fn response_to_finding(
    alloc: Global,
    stated: &Stated,
    audit: &Audit,
) -> Result<Response, AllocError>
    ensures { IfOk result (λ response. response ≡ response_to_finding stated.now audit.now) }
{
    match audit {
        Audit::Confirmed(_) => confirmed(alloc, stated),
        Audit::Refused { line, cause } => {
            let number = number_of(*cause);
            let text = format!(in alloc; "refused {line} {number}\n")?;
            Ok(text_response(Answered::AuditRefused, text))
        }
    }
}

/// Audits the full text of the bytes, and answers with the line of its verdict, or with what refuses it.
#[tactic(auto, unfolding(crate::specs::commands::Audit::audit_response))]
pub fn check(alloc: Global, bytes: Vec<u8>) -> Result<Response, Stop>
    ensures { Stands (λ response. response) result (audit_response bytes.items) }
{
    let text = full_text_in(alloc, bytes.as_slice())?;
    let finding = audit_by_name(alloc, bytes.as_slice(), &text)?;
    Ok(response_to_finding(alloc, &text.stated, &finding)?)
}
