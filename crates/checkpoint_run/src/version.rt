//! A page as it was at a checkpoint.
ghost use Rattle.std.specs.Prelude.{◌<◌, ◌^◌};

use mem_plain::Page;

/// A page as it was at a checkpoint.
#[derive(Drop)]
pub struct Version {
    /// The number of the page, below 2^20.
    pub page: u32,
    pub bytes: Page,
    ghost below: { page < 2 ^ 20 },
}
