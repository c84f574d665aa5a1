//! The rules of loads.
ghost use Rattle.std.specs.Prelude.{◌≡◌, ◌+◌, false, OnOk};
ghost use Rattle.std.specs.List.{list_any};
ghost use Rattle.rd_base.specs.Results.{Gives};
ghost use Rattle.image_reader.specs.Elf.{is_outside_file, has_larger_file, is_past_end, checked_in};

use crate::fault::ImageFault;
use crate::header::ProgramHeader;
use crate::overlap::any_two_share;
use std::alloc::Global;

impl ProgramHeader {
    /// Whether the part of the file isn't empty and isn't in the file.
    fn is_outside_file(&self, file_bytes: usize) -> bool
        ensures { result ≡ is_outside_file file_bytes self.now }
    {
        let end = u64::from(self.p_offset) + u64::from(self.p_filesz);
        0 < self.p_filesz && (file_bytes as u64) < end
    }

    /// Whether there are more bytes in the file than in memory.
    fn has_larger_file(&self) -> bool
        ensures { result ≡ has_larger_file self.now }
    {
        self.p_memsz < self.p_filesz
    }

    /// The address behind the last.
    pub fn end(&self) -> u64
        ensures { result ≡ self.now.p_vaddr + self.now.p_memsz }
    {
        u64::from(self.p_vaddr) + u64::from(self.p_memsz)
    }

    /// Whether the segment reaches beyond the last address.
    fn is_past_end(&self) -> bool
        ensures { result ≡ is_past_end self.now }
    {
        1 << 32 < self.end()
    }
}

/// Whether any load's part of the file isn't empty and isn't in the file.
fn any_outside_file(file_bytes: usize, loads: &[ProgramHeader]) -> bool
    ensures { result ≡ list_any (is_outside_file file_bytes) loads.now }
{
    loads.iter().any(|load| load.is_outside_file(file_bytes))
}

/// Whether any load has more bytes in the file than in memory.
fn any_larger_file(loads: &[ProgramHeader]) -> bool
    ensures { result ≡ list_any has_larger_file loads.now }
{
    loads.iter().any(|load| load.has_larger_file())
}

/// Whether any load reaches beyond the last address.
fn any_past_end(loads: &[ProgramHeader]) -> bool
    ensures { result ≡ list_any is_past_end loads.now }
{
    loads.iter().any(|load| load.is_past_end())
}

/// Tests rules 6 to 9, each over all loads before the next. An `Err` is the first that is broken, or out of memory.
#[tactic(auto, unfolding(crate::specs::Elf::checked_in))]
pub fn check_loads(
    alloc: Global,
    file_bytes: usize,
    loads: &[ProgramHeader],
) -> Result<(), ImageFault>
    ensures value { Gives ImageFault.Memory (λ unit. unit) result (checked_in file_bytes loads.now) }
    ensures inside { OnOk result (list_any (is_outside_file file_bytes) loads.now ≡ false) }
    ensures smaller { OnOk result (list_any has_larger_file loads.now ≡ false) }
    ensures before_end { OnOk result (list_any is_past_end loads.now ≡ false) }
{
    if any_outside_file(file_bytes, loads) {
        return Err(ImageFault::SegmentOutsideFile);
    }
    if any_larger_file(loads) {
        return Err(ImageFault::FileLargerThanMemory);
    }
    if any_past_end(loads) {
        return Err(ImageFault::SegmentPastEnd);
    }
    if any_two_share(alloc, loads)? {
        return Err(ImageFault::SegmentsOverlap);
    }
    Ok(())
}
