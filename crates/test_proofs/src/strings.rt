//! Strings that collide, as texts.
use digest_core::Sha256;
use rd_base::OpenText;
use std::alloc::Global;
use toy_machine::OneValue;
use toy_rows::Unanswered;

/// The digest function with one value, SHA-256 of nothing.
pub const ONE_VALUE: OneValue<Sha256> = OneValue { of: Sha256 };

/// That value, as bytes are written.
const ONE: &str =
    "e3 b0 c4 42 98 fc 1c 14 9a fb f4 c8 99 6f b9 24 27 ae 41 e4 64 9b 93 4c a4 95 99 1b 78 52 b8 55";

/// Adds a byte that comes a number of times.
fn add_byte(alloc: Global, text: &mut String, byte: u8, count: u32) -> Result<(), Unanswered> {
    let added = match count {
        0 => return Ok(()),
        1 => format!(in alloc; "{byte:02x} ")?,
        _ => format!(in alloc; "{byte:02x}*{count} ")?,
    };
    Ok(text.push_str(added.as_str())?)
}

/// Bytes as they are written.
fn written(alloc: Global, bytes: &[u8]) -> Result<String, Unanswered> {
    let mut text = String::new(alloc);
    let mut last = 0;
    let mut count = 0u32;
    for byte in bytes {
        if *byte != last {
            add_byte(alloc, &mut text, last, count)?;
            last = *byte;
            count = 0;
        }
        count = count.saturating_add(1);
    }
    add_byte(alloc, &mut text, last, count)?;
    Ok(text.as_str().trim_end().replace(alloc, ONE, "one")?)
}

/// Two strings that collide, or `none`.
pub fn pair(alloc: Global, found: Option<(OpenText, OpenText)>) -> Result<String, Unanswered> {
    match found {
        Some((x, y)) => {
            let x = written(alloc, x.as_slice())?;
            let y = written(alloc, y.as_slice())?;
            Ok(format!(in alloc; "{x} and {y}")?)
        }
        None => Ok(String::from_str(alloc, "none")?),
    }
}
