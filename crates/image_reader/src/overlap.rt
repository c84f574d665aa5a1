//! Whether two loads share an address.
ghost use Rattle.std.specs.Prelude.{◌≡◌, false, not, filter, IfOk};
ghost use Rattle.std.specs.List.{list_any};
ghost use Rattle.std.specs.List.Sorted.{IsNonDecreasingBy};
ghost use Rattle.image_reader.specs.Elf.{has_no_bytes, some_share};

use crate::header::ProgramHeader;
use std::alloc::{AllocError, Global};

/// The loads that aren't empty.
fn occupied(alloc: Global, loads: &[ProgramHeader]) -> Result<Vec<ProgramHeader>, AllocError>
    ensures { IfOk result (λ segments. segments.items ≡ filter (λ load. not (has_no_bytes load)) loads.now) }
{
    loads
        .iter()
        .filter(|load| load.p_memsz != 0)
        .copied()
        .collect(alloc)
}

/// The loads that aren't empty, by their first addresses.
fn occupied_in_order(
    alloc: Global,
    loads: &[ProgramHeader],
) -> Result<Vec<ProgramHeader>, AllocError>
    ensures filled { IfOk result (λ segments. list_any has_no_bytes segments.items ≡ false) }
    ensures rising { IfOk result (λ segments. IsNonDecreasingBy (λ load. load.p_vaddr) segments.items) }
    ensures same { IfOk result (λ segments. some_share segments.items ≡ some_share loads.now) }
{
    let mut segments = occupied(alloc, loads)?;
    segments.sort_by_key(|load| load.p_vaddr)?;
    Ok(segments)
}

/// Whether any two loads share an address, which two neighbours then do.
fn any_neighbours_share(loads: &[ProgramHeader]) -> bool
    requires filled { list_any has_no_bytes loads.now ≡ false }
    requires rising { IsNonDecreasingBy (λ load. load.p_vaddr) loads.now }
    ensures { result ≡ some_share loads.now }
{
    'loads: for (k, load) in loads.iter().enumerate() {
        if k + 1 < loads.len() {
            let next = &loads[k + 1];
            if u64::from(next.p_vaddr) < load.end() {
                return true;
            }
        }
    }
    false
}

/// Whether any two loads share an address. An `Err` is out of memory.
pub fn any_two_share(alloc: Global, loads: &[ProgramHeader]) -> Result<bool, AllocError>
    ensures { IfOk result (λ shared. shared ≡ some_share loads.now) }
{
    let segments = occupied_in_order(alloc, loads)?;
    Ok(any_neighbours_share(&segments))
}
