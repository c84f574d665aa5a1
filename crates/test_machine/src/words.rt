//! What answers write.
use std::alloc::Global;
use toy_rows::Unanswered;

/// Bytes as they are written.
pub fn written(alloc: Global, bytes: &[u8]) -> Result<String, Unanswered> {
    Ok(hex::encode(alloc, bytes)?)
}
