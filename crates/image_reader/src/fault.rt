//! The faults of images.
ghost use Rattle.std.specs.Prelude.{◌≡◌};
ghost use Rattle.image_reader.specs.Fault.{image_rule};
ghost use Rattle.image_reader.specs.declared.fault.ImageFault.TheVariants.{Memory};

use std::alloc::{AllocError, AllocFailed};
use thiserror::Error;

/// Why a file is no image that is loaded: the first rule that it breaks, or out of memory.
///
/// The size is tested first (`ImageTooLarge`), then the other rules in the order of the variants, each over
/// all program headers before the next. A load is a program header of type `PT_LOAD`. Sections are those of TIS ELF
/// 1.2.
#[derive(Clone, Copy, Debug, PartialEq, Eq, Error)]
pub enum ImageFault {
    /// The file is shorter than an ELF header, 52 bytes ('ELF Header').
    #[error("the file is shorter than an ELF header")]
    Short,
    /// The file doesn't begin as a 32-bit little-endian ELF file of version 1 ('ELF Identification').
    #[error("the file isn't a 32-bit little-endian ELF file")]
    NotElf32Le,
    /// The file's type isn't that of an executable, 2 (`e_type`, 'ELF Header').
    #[error("the ELF file isn't an executable")]
    NotExecutable,
    /// The machine isn't RISC-V, 243 (`e_machine`, 'ELF Header').
    #[error("the ELF file isn't for RISC-V")]
    NotRiscv,
    /// There are program headers, and they haven't 32 bytes each or aren't all in the file ('ELF Header').
    #[error("the program headers aren't in the file")]
    BadTable,
    /// A load's part of the file isn't empty and isn't in the file ('Program Header').
    #[error("a segment isn't in the file")]
    SegmentOutsideFile,
    /// A load has more bytes in the file than in memory ('Program Header').
    #[error("a segment has more bytes in the file than in memory")]
    FileLargerThanMemory,
    /// A load reaches beyond the last address. This rule is ours: loads don't wrap.
    #[error("a segment reaches beyond the last address")]
    SegmentPastEnd,
    /// Two loads share an address. This rule is ours.
    #[error("two segments share an address")]
    SegmentsOverlap,
    /// The entry (`e_entry`) isn't a multiple of 4 (RISC-V Unprivileged ISA 20191213, 2.2).
    #[error("the entry isn't a multiple of 4")]
    EntryMisaligned,
    /// The file has more than `MAX_IMAGE_BYTES` bytes.
    #[error("the file is too large")]
    ImageTooLarge,
    /// An allocation was refused.
    #[error("out of memory")]
    Memory,
}

impl ImageFault {
    /// The number of the rule that is broken, from 1 to 11 in the order of the variants, and `None` for out of memory.
    pub fn rule(self) -> Option<u32>
        ensures { result ≡ image_rule self }
    {
        match self {
            ImageFault::Short => Some(1),
            ImageFault::NotElf32Le => Some(2),
            ImageFault::NotExecutable => Some(3),
            ImageFault::NotRiscv => Some(4),
            ImageFault::BadTable => Some(5),
            ImageFault::SegmentOutsideFile => Some(6),
            ImageFault::FileLargerThanMemory => Some(7),
            ImageFault::SegmentPastEnd => Some(8),
            ImageFault::SegmentsOverlap => Some(9),
            ImageFault::EntryMisaligned => Some(10),
            ImageFault::ImageTooLarge => Some(11),
            ImageFault::Memory => None,
        }
    }
}

impl From<AllocError> for ImageFault {
    ghost from_gives = { λ _ e. e ≡ Memory };

    fn from(_e: AllocError) -> ImageFault {
        ImageFault::Memory
    }
}

impl<T: Drop> From<AllocFailed<T>> for ImageFault {
    ghost from_gives = { λ _ e. e ≡ Memory };

    fn from(_e: AllocFailed<T>) -> ImageFault {
        ImageFault::Memory
    }
}

impl From<rd_base::Memory> for ImageFault {
    ghost from_gives = { λ _ e. e ≡ Memory };

    fn from(_e: rd_base::Memory) -> ImageFault {
        ImageFault::Memory
    }
}
