//! The commands that need no runtime, on a caller's bytes.
ghost use Rattle.std.specs.Prelude.{◌≡◌, ◌≢◌, ◌++◌, length, take, drop};
ghost use Rattle.delegate.specs.declared.commands.Alone.TheVariants as alone;
ghost use Rattle.coshalit_c.specs.Texts.{IsWrittenTo, IsOutcome, IsUntouched};

use delegate::{Alone, Answered, Response, answer_alone};
use std::alloc::Global;

/// What a command answers.
#[repr(C)]
#[derive(Drop)]
pub struct CoshalitAnswer {
    /// The exit status of the program, which is 9 if memory ran out.
    pub status: u32,
    /// How many bytes the text has, which may be more than the caller has room for.
    pub length: usize,
}

/// Writes bytes to the first places of `room`, as many as there is room for.
pub(crate) fn write_bytes(bytes: &[u8], room: &mut [u8])
    ensures { room.new ≡ take (length room.old) bytes.now ++ drop (length bytes.now) room.old }
{
    let count = bytes.len().min(room.len());
    room[..count].copy_from_slice(&bytes[..count]);
}

/// Writes a response's text to the first bytes of `room`, as much as there is room for.
pub(crate) fn written(response: &Response, room: &mut [u8]) -> CoshalitAnswer
    ensures { IsWrittenTo response.now result room.old room.new }
{
    let text = response.text.as_slice();
    write_bytes(text, room);
    CoshalitAnswer {
        status: u32::from(response.answered.status()),
        length: text.len(),
    }
}

/// The answer if memory ran out.
pub fn out_of_memory() -> CoshalitAnswer
    ensures status { result.status ≡ 9 }
    ensures none { result.length ≡ 0 }
{
    CoshalitAnswer {
        status: u32::from(Answered::Memory.status()),
        length: 0,
    }
}

/// What a command answers on these bytes.
fn answered(alloc: Global, command: Alone, bytes: &[u8], room: &mut [u8]) -> CoshalitAnswer
    ensures outcome { result.status ≢ 9 → IsOutcome command bytes.now result room.old room.new }
    ensures memory { result.status ≡ 9 → IsUntouched result room.old room.new }
{
    match answer_alone(alloc, command, bytes) {
        Ok(response) => written(&response, room),
        Err(_) => out_of_memory(),
    }
}

/// Audits the full text of the bytes `text`: the status and the text of the program's command `audit` on them.
///
/// The first bytes of the text are written to `room`, as many as there is room for, and what is after them stays. `length` is how many
/// bytes the text has. If that is more than `room` has, the rest of the text is missing: call again with a room of `length` bytes. If memory
/// ran out, the status is 9, `length` is 0, and `room` stays as it was.
#[unsafe(no_mangle)]
pub extern "C" fn coshalit_audit(alloc: Global, text: &[u8], room: &mut [u8]) -> CoshalitAnswer
    ensures outcome { result.status ≢ 9 → IsOutcome alone.Audit text.now result room.old room.new }
    ensures memory { result.status ≡ 9 → IsUntouched result room.old room.new }
{
    answered(alloc, Alone::Audit, text, room)
}

/// Runs the program of the case of the bytes `case`: the status and the text of the program's command `run` on them. What is written to
/// `room`, and `length`, are as of `coshalit_audit`.
#[unsafe(no_mangle)]
pub extern "C" fn coshalit_run(alloc: Global, case: &[u8], room: &mut [u8]) -> CoshalitAnswer
    ensures outcome { result.status ≢ 9 → IsOutcome alone.Run case.now result room.old room.new }
    ensures memory { result.status ≡ 9 → IsUntouched result room.old room.new }
{
    answered(alloc, Alone::Run, case, room)
}

/// Lists the image of the case of the bytes `case`: the status and the text of the program's command `list` on them. What is written to
/// `room`, and `length`, are as of `coshalit_audit`.
#[unsafe(no_mangle)]
pub extern "C" fn coshalit_list(alloc: Global, case: &[u8], room: &mut [u8]) -> CoshalitAnswer
    ensures outcome { result.status ≢ 9 → IsOutcome alone.Listing case.now result room.old room.new }
    ensures memory { result.status ≡ 9 → IsUntouched result room.old room.new }
{
    answered(alloc, Alone::Listing, case, room)
}
