//! Facts about plain data, each a function that does nothing.
ghost use Rattle.std.specs.Prelude.{◌≡◌, ◌<◌, ◌^◌, ℕ, length, slice_index};

use crate::opened::{InPath, Path, RegPath};
use crate::regs::Regs;

/// A register file has 32 registers, `x0` holds 0, and each register a number below 2^32.
pub fn registers_are_32(regs: &Regs)
    ensures count { length regs.now ≡ 32 }
    ensures zero { slice_index regs.now 0 ≡ 0 }
    ensures words { (r : ℕ) → slice_index regs.now r < 2 ^ 32 }
{
    let _x0 = regs.x[0];
}

/// A path in the tree of memory has 27 levels.
pub fn paths_have_27_levels(path: &Path)
    ensures { length path.now.0 ≡ 27 }
{
    let _first = path.0[0];
}

/// A path in the tree of the registers has five levels.
pub fn paths_have_5_levels(path: &RegPath)
    ensures { length path.now.0 ≡ 5 }
{
    let _first = path.0[0];
}

/// A path in the tree of the input has 15 levels.
pub fn paths_have_15_levels(path: &InPath)
    ensures { length path.now.0 ≡ 15 }
{
    let _first = path.0[0];
}
