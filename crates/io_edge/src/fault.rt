//! The failure of a call.

/// A read or a write failed. The device has counted the fault.
#[derive(Clone, Copy, Debug, PartialEq, Eq)]
pub struct Failed;
