//! The programs of the tests, as the bytes of their instructions.

/// addi x10, x0, 42; addi x17, x0, 1; ecall; addi x10, x0, 0; addi x17, x0, 93; ecall
pub(crate) const PUTS: &[u8] =
    b"\x13\x05\xa0\x02\x93\x08\x10\x00\x73\x00\x00\x00\x13\x05\x00\x00\x93\x08\xd0\x05\x73\x00\x00\x00";

/// lui x5, 0x80000; addi x6, x0, -1; div x10, x5, x6; srli x10, x10, 24; addi x17, x0, 1; ecall; div x10, x5, x0; ecall;
/// addi x10, x0, 0; addi x17, x0, 93; ecall
pub(crate) const DIVIDES: &[u8] =
    b"\xb7\x02\x00\x80\x13\x03\xf0\xff\x33\xc5\x62\x02\x13\x55\x85\x01\x93\x08\x10\x00\x73\x00\x00\x00\x33\xc5\x02\x02\x73\x00\x00\x00\x13\x05\x00\x00\x93\x08\xd0\x05\x73\x00\x00\x00";

/// lui x5, 0x20; addi x6, x0, 122; sb x6, 3(x5); lw x10, 0(x5); srli x10, x10, 24; addi x17, x0, 1; ecall; lw x10, 1(x5),
/// which traps
pub(crate) const STORES: &[u8] =
    b"\xb7\x02\x02\x00\x13\x03\xa0\x07\xa3\x81\x62\x00\x03\xa5\x02\x00\x13\x55\x85\x01\x93\x08\x10\x00\x73\x00\x00\x00\x03\xa5\x12\x00";

/// addi x10, x0, 0; addi x17, x0, 2; ecall, which reads byte 0 of the input; addi x17, x0, 1; ecall; addi x10, x0, 1;
/// addi x17, x0, 2; ecall, which reads byte 1; addi x17, x0, 1; ecall; addi x10, x0, 0; addi x17, x0, 93; ecall
pub(crate) const READS: &[u8] =
    b"\x13\x05\x00\x00\x93\x08\x20\x00\x73\x00\x00\x00\x93\x08\x10\x00\x73\x00\x00\x00\x13\x05\x10\x00\x93\x08\x20\x00\x73\x00\x00\x00\x93\x08\x10\x00\x73\x00\x00\x00\x13\x05\x00\x00\x93\x08\xd0\x05\x73\x00\x00\x00";

/// jal x0, ., which jumps to itself
pub(crate) const LOOP: &[u8] = b"\x6f\x00\x00\x00";

/// lui x5, 0x10; addi x6, x0, 122; lw x7, 0(x5) and sb x6, 31(x5), whose data is the fetched chunk; ebreak, which traps
pub(crate) const OVERWRITES: &[u8] =
    b"\xb7\x02\x01\x00\x13\x03\xa0\x07\x83\xa3\x02\x00\xa3\x8f\x62\x00\x73\x00\x10\x00";
