//! The texts of cases.
use std::alloc::{AllocError, Global};

/// The text this many times.
pub fn repeated(alloc: Global, text: &str, count: u32) -> Result<String, AllocError> {
    let mut all = String::new(alloc);
    for _ in 0..count {
        all.push_str(text)?;
    }
    Ok(all)
}

/// The text with spaces after it, so that it has this many bytes.
pub fn spaced(text: Vec<u8>, length: usize) -> Result<Vec<u8>, AllocError> {
    let mut text = text;
    for _ in text.len()..length {
        text.push(b' ')?;
    }
    Ok(text)
}

/// A case but for its provers.
#[derive(Clone, Copy)]
pub struct Parts<'a> {
    pub format: &'a str,
    pub image: &'a str,
    pub input: &'a str,
    pub bound: u32,
    pub patience: u32,
}

/// A flat image without input, with patience 0.
pub fn flat<'a>(image: &'a str, bound: u32) -> Parts<'a> {
    Parts {
        format: "flat",
        image,
        input: "",
        bound,
        patience: 0,
    }
}

/// The text of a case.
pub fn case_of(alloc: Global, parts: Parts<'_>, provers: &str) -> Result<Vec<u8>, AllocError> {
    let bound = parts.bound;
    let patience = parts.patience;
    let numbers = format!(in alloc; "\",\"bound\":{bound},\"patience\":{patience},\"provers\":[")?;
    let mut text = String::from_str(alloc, "{\"format\":\"")?;
    for part in [
        parts.format,
        "\",\"image\":\"",
        parts.image,
        "\",\"input\":\"",
        parts.input,
        numbers.as_str(),
        provers,
        "]}",
    ] {
        text.push_str(part)?;
    }
    Ok(text.into_bytes())
}
