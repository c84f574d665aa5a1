//! Laws of guests, each the contract of a function that does nothing.
ghost use Rattle.guests.specs.Sum.{InputsAreSummed, SeedsAreSummed};
ghost use Rattle.guests.specs.Adler32File.{ProgramComputesAdler32, FileLoads, FileComputesAdler32};

use image_reader::elf_memory;
use mem_plain::laying_bytes;
use rv_step::stores_are_loaded;
use workload::workload_is_a_case;

/// The program of the large workload adds up its input: for each input of at most 1,048,576 bytes its run has exited with 0 after 13 steps
/// and 8 for each byte, and its output is the sum's lowest byte and then the next (`inputs`). So has it for the input of each seed, after
/// 32,781 steps (`seeds`).
pub fn workload_adds_up_its_input()
    ensures inputs { InputsAreSummed }
    ensures seeds { SeedsAreSummed }
{
    laying_bytes();
    stores_are_loaded();
    workload_is_a_case();
}

/// The program of `guest/adler32/program.elf` puts out the Adler-32 of its input, in version 3: for each input of at most 1,048,576 bytes
/// its run has exited with 0 after 32 steps and 14 for each byte, and its output is the checksum, the greatest byte first. This holds from
/// each memory that has the program at 0x10000 (`program`), and from the memory into which the file is loaded (`file`), as it is (`loads`).
/// It is a law of the file's bytes, so no compiler is believed.
pub fn adler32_is_computed()
    ensures program { ProgramComputesAdler32 }
    ensures loads { FileLoads }
    ensures file { FileComputesAdler32 }
{
    elf_memory();
}
