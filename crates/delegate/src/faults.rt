//! The responses to what is refused.
ghost use Rattle.std.specs.Prelude.{◌≡◌, IfOk, string_bytes};
ghost use Rattle.image_reader.specs.Fault.{image_rule};
ghost use Rattle.delegate.specs.Refusal.{usage, too_long, case_fault_text, case_refusal, task_refusal, image_refusal, asm_refusal, rule_text};

use crate::loading::AsmImageFault;
use crate::response::{Answered, Response, Subject, text_response};
use case_reader::{CaseFault, TaskFault};
use image_reader::ImageFault;
use std::alloc::{AllocError, Global};

/// The response to arguments that name no command.
pub fn usage(alloc: Global) -> Result<Response, AllocError>
    ensures { IfOk result (λ response. response ≡ usage) }
{
    let text = String::from_str(alloc, "fault usage\n")?;
    Ok(text_response(Answered::Usage, text))
}

/// The response to more bytes than are read.
pub fn too_long(alloc: Global) -> Result<Response, AllocError>
    ensures { IfOk result (λ response. response ≡ too_long) }
{
    let text = String::from_str(alloc, "fault too long\n")?;
    Ok(text_response(Answered::TooLong, text))
}

/// The response to a fault of a case, of this subject. Its text is empty if the fault is `Memory`.
pub fn case_refusal(
    alloc: Global,
    subject: Subject,
    fault: CaseFault,
) -> Result<Response, AllocError>
    ensures { IfOk result (λ response. response ≡ case_refusal subject fault) }
{
    let text = case_fault_text(alloc, subject, fault)?;
    Ok(text_response(Answered::Case, text))
}

/// The text about a rule of a case that is broken; it is empty if the fault is `Memory`.
fn case_fault_text(alloc: Global, subject: Subject, fault: CaseFault) -> Result<String, AllocError>
    ensures { IfOk result (λ text. string_bytes text ≡ case_fault_text subject fault) }
{
    match fault {
        CaseFault::NotJson => Ok(format!(in alloc; "fault {subject}case 1\n")?),
        CaseFault::NotObject => Ok(format!(in alloc; "fault {subject}case 2\n")?),
        CaseFault::Missing(key) => Ok(format!(in alloc; "fault {subject}case 3 {key}\n")?),
        CaseFault::WrongType(key) => Ok(format!(in alloc; "fault {subject}case 4 {key}\n")?),
        CaseFault::BadHex(key) => Ok(format!(in alloc; "fault {subject}case 5 {key}\n")?),
        CaseFault::OutOfRange(key) => Ok(format!(in alloc; "fault {subject}case 6 {key}\n")?),
        CaseFault::BadProver(number) => Ok(format!(in alloc; "fault {subject}case 7 {number}\n")?),
        CaseFault::Memory => Ok(String::new(alloc)),
    }
}

/// The response to a fault of one case or of tasks. Its text is empty if the fault is `Memory`.
pub fn task_refusal(alloc: Global, fault: TaskFault) -> Result<Response, AllocError>
    ensures { IfOk result (λ response. response ≡ task_refusal fault) }
{
    match fault {
        TaskFault::Whole(fault) => case_refusal(alloc, Subject::Whole, fault),
        TaskFault::Task(number, fault) => case_refusal(alloc, Subject::Task(number), fault),
        TaskFault::Memory => case_refusal(alloc, Subject::Whole, CaseFault::Memory),
    }
}

/// The response to a fault of an image, of this subject. Its text is empty if the fault is `Memory`.
pub fn image_refusal(
    alloc: Global,
    subject: Subject,
    fault: ImageFault,
) -> Result<Response, AllocError>
    ensures { IfOk result (λ response. response ≡ image_refusal subject fault) }
{
    let text = rule_text(alloc, subject, fault)?;
    Ok(text_response(Answered::Image, text))
}

/// The text about a rule of images that is broken; it is empty if the fault is `Memory`.
fn rule_text(alloc: Global, subject: Subject, fault: ImageFault) -> Result<String, AllocError>
    ensures { IfOk result (λ text. string_bytes text ≡ rule_text subject (image_rule fault)) }
{
    match fault.rule() {
        Some(rule) => Ok(format!(in alloc; "fault {subject}image {rule}\n")?),
        None => Ok(String::new(alloc)),
    }
}

/// The response to what is wrong with an assembly text, of this subject. Its text is empty if the fault is `Memory`.
pub fn asm_refusal(
    alloc: Global,
    subject: Subject,
    fault: AsmImageFault,
) -> Result<Response, AllocError>
    ensures { IfOk result (λ response. response ≡ asm_refusal subject fault) }
{
    let text = match fault {
        AsmImageFault::Text(fault) => {
            let (kind, line) = (fault.kind.number(), fault.line);
            format!(in alloc; "fault {subject}image 12 {kind} {line}\n")?
        }
        AsmImageFault::Image(fault) => rule_text(alloc, subject, fault)?,
        AsmImageFault::Memory => String::new(alloc),
    };
    Ok(text_response(Answered::Image, text))
}
