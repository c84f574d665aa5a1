//! The images of the cases.
use std::alloc::{AllocError, Global};

/// It puts the byte 42 and exits with status 0, in six steps.
pub const ANSWER: &str = "1305a0029308100073000000130500009308d00573000000";

/// It stores 3000 down to 1 to as many pages, puts the low byte of the first and of the last, and exits.
pub const PAGES: &str =
    "b7020020b71300001303c05d1313130023a06200b38272001303f3ffe31a03fe93081000b702002003a50200730000003774bb200325040073000000130500009308d00573000000";

/// It puts the byte 42 102,400 times, and exits.
pub const OUTPUTS: &str =
    "1305a0029308100037930100730000001303f3ffe31c03fe130500009308d00573000000";

/// It puts the third byte of the input's length and the last of 1,048,576 bytes of input, and exits.
pub const INPUT: &str =
    "93081000b702004003a502001355050173000000370310400345330073000000130500009308d00573000000";

/// The header of a file with 65,535 program headers, which is entered at 0x10000.
const HEADER: &str =
    "7f454c460101010000000000000000000200f300010000000000010034000000000000000000000034002000ffff280000000000";

/// The first load: 24 bytes at 0x10000, which are behind the program headers.
const FIRST: &str = "0100000014002000000001000000000018000000180000000500000000000000";

/// Adds a load of the file's first byte at an address.
fn add_load(alloc: Global, file: &mut String, address: u32) -> Result<(), AllocError> {
    let low = address % 256;
    let second = address / 256 % 256;
    let third = address / 65_536 % 256;
    let high = address / 16_777_216;
    file.push_str("0100000000000000")?;
    let digits = format!(in alloc; "{low:02x}{second:02x}")?;
    file.push_str(digits.as_str())?;
    let digits = format!(in alloc; "{third:02x}{high:02x}")?;
    file.push_str(digits.as_str())?;
    file.push_str("0000000001000000010000000500000000000000")
}

/// A file of `ANSWER` with 65,535 loads: after the first each has one byte, at every 64th address from high ones to low ones.
pub fn file_of_loads(alloc: Global) -> Result<String, AllocError> {
    let mut file = String::from_str(alloc, HEADER)?;
    file.push_str(FIRST)?;
    for k in 0..65_534u32 {
        add_load(
            alloc,
            &mut file,
            0x0100_0000u32.wrapping_sub(k.wrapping_mul(64)),
        )?;
    }
    file.push_str(ANSWER)?;
    Ok(file)
}
