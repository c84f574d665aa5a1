//! The subject `text`: the text on standard input is assembled, and its words are listed. It has no numbers. `bench/text` measures it.

use io_edge::{Source, read_all};
use rd_base::Memory;
use rv_text::{AsmError, AsmFault, MAX_ASSEMBLY_BYTES, assemble, list};
use std::alloc::Global;

/// What is seen of a text.
enum Seen {
    /// It was assembled, and its words were listed.
    Words {
        /// How many words it has.
        count: usize,
        /// The last word; 0 if there is none.
        last: u32,
        /// The bytes of their listing.
        listed: usize,
    },
    /// It has a fault.
    Fault(AsmFault),
}

fn assembled(alloc: Global, text: &[u8]) -> Result<Seen, Memory> {
    if MAX_ASSEMBLY_BYTES < text.len() {
        return Err(Memory);
    }
    let words = match assemble(alloc, text) {
        Ok(words) => words,
        Err(AsmError::Fault(fault)) => return Ok(Seen::Fault(fault)),
        Err(AsmError::Memory) => return Err(Memory),
    };
    let listing = list(alloc, words.as_slice())?;
    Ok(Seen::Words {
        count: words.len(),
        last: words.last().copied().unwrap_or(0),
        listed: listing.len(),
    })
}

/// How many words the text has, the last one, and how many bytes their listing has, or the number of the text's fault and its line, as a
/// line. `None` if the text can't be read, or memory ran out.
pub fn line<S: Source>(alloc: Global, source: &mut S) -> Option<String> {
    let text = read_all(alloc, source, MAX_ASSEMBLY_BYTES).ok()?;
    match assembled(alloc, text.as_slice()).ok()? {
        Seen::Words {
            count,
            last,
            listed,
        } => format!(in alloc;
            "{count} words, the last {last:08x}, listed in {listed} bytes\n"
        ).ok(),
        Seen::Fault(fault) => {
            let (kind, line) = (fault.kind.number(), fault.line);
            format!(in alloc; "fault {kind} line {line}\n").ok()
        }
    }
}
