//! Tests of assembling and listing.
use rd_base::Memory;
use rv_text::{AsmError, AsmFault, FaultKind, MAX_ASSEMBLY_BYTES, assemble, list};
use std::alloc::Global;
use std::test::Fail;

/// What assembling a text gives, which isn't too long.
fn assembled(alloc: Global, text: &[u8]) -> Result<Vec<u32>, AsmError> {
    if text.len() > MAX_ASSEMBLY_BYTES {
        return Err(AsmError::Memory);
    }
    assemble(alloc, text)
}

/// The words of a text.
fn words_of(alloc: Global, text: &[u8]) -> Result<Vec<u32>, Fail> {
    match assembled(alloc, text) {
        Ok(words) => Ok(words),
        Err(_) => Err(Fail::new("a fault, or out of memory")),
    }
}

/// The fault of a text.
fn fault_of(alloc: Global, text: &[u8]) -> Option<AsmFault> {
    match assembled(alloc, text) {
        Err(AsmError::Fault(fault)) => Some(fault),
        _ => None,
    }
}

/// The listing of words.
fn listing_of(alloc: Global, words: &[u32]) -> Result<Vec<u8>, Fail> {
    match list(alloc, words) {
        Ok(text) => Ok(text),
        Err(_) => Err(Fail::new("out of memory")),
    }
}

/// The words are the assembler's (llvm-mc 14, -triple=riscv32 -mattr=+m) for the lines beside them.
const LINES: [(u32, &str); 53] = [
    (0x80000fb7, "lui x31, 524288\n"),
    (0x7ffff097, "auipc x1, 524287\n"),
    (0x800000ef, "jal x1, -1048576\n"),
    (0x7fffffef, "jal x31, 1048574\n"),
    (0x800f80e7, "jalr x1, -2048(x31)\n"),
    (0x801f8063, "beq x31, x1, -4096\n"),
    (0x7ff09fe3, "bne x1, x31, 4094\n"),
    (0x01e140e3, "blt x2, x30, 2048\n"),
    (0xfe2f5fe3, "bge x30, x2, -2\n"),
    (0x01d1ef63, "bltu x3, x29, 30\n"),
    (0x803ef0e3, "bgeu x29, x3, -2048\n"),
    (0x80008f83, "lb x31, -2048(x1)\n"),
    (0x7fff9083, "lh x1, 2047(x31)\n"),
    (0xffff2103, "lw x2, -1(x30)\n"),
    (0x00114f03, "lbu x30, 1(x2)\n"),
    (0x000ed183, "lhu x3, 0(x29)\n"),
    (0x81f08023, "sb x31, -2048(x1)\n"),
    (0x7e1f9fa3, "sh x1, 2047(x31)\n"),
    (0x002f2fa3, "sw x2, 31(x30)\n"),
    (0x80008f93, "addi x31, x1, -2048\n"),
    (0x7fffa093, "slti x1, x31, 2047\n"),
    (0xffff3113, "sltiu x2, x30, -1\n"),
    (0x55514f13, "xori x30, x2, 1365\n"),
    (0xaaaee193, "ori x3, x29, -1366\n"),
    (0x00f1fe93, "andi x29, x3, 15\n"),
    (0x01f09f93, "slli x31, x1, 31\n"),
    (0x000fd093, "srli x1, x31, 0\n"),
    (0x411f5113, "srai x2, x30, 17\n"),
    (0x00208fb3, "add x31, x1, x2\n"),
    (0x41ef80b3, "sub x1, x31, x30\n"),
    (0x01df1133, "sll x2, x30, x29\n"),
    (0x01c12f33, "slt x30, x2, x28\n"),
    (0x01beb1b3, "sltu x3, x29, x27\n"),
    (0x01a1ceb3, "xor x29, x3, x26\n"),
    (0x019e5233, "srl x4, x28, x25\n"),
    (0x41825e33, "sra x28, x4, x24\n"),
    (0x017de2b3, "or x5, x27, x23\n"),
    (0x0162fdb3, "and x27, x5, x22\n"),
    (0x035d0333, "mul x6, x26, x21\n"),
    (0x03431d33, "mulh x26, x6, x20\n"),
    (0x033ca3b3, "mulhsu x7, x25, x19\n"),
    (0x0323bcb3, "mulhu x25, x7, x18\n"),
    (0x031c4433, "div x8, x24, x17\n"),
    (0x03045c33, "divu x24, x8, x16\n"),
    (0x02fbe4b3, "rem x9, x23, x15\n"),
    (0x02e4fbb3, "remu x23, x9, x14\n"),
    (0x0ff0000f, "fence\n"),
    (0x00000073, "ecall\n"),
    (0x00100073, "ebreak\n"),
    (0xffff8f8f, ".word 0xffff8f8f\n"),
    (0x8330000f, ".word 0x8330000f\n"),
    (0x00000000, ".word 0x00000000\n"),
    (0x02509093, ".word 0x02509093\n"),
];

/// These rows as a value, of which no caller sees the rows: they would stand in each of its goals.
fn lines() -> &'static [(u32, &'static str)] {
    &LINES
}

/// Whether words are listed as a text.
fn is_listing(alloc: Global, words: &[u32], text: &[u8]) -> Result<bool, Fail> {
    let listing = listing_of(alloc, words)?;
    Ok(listing.as_slice() == text)
}

/// Whether a text is assembled to words.
fn is_assembly(alloc: Global, text: &[u8], words: &[u32]) -> Result<bool, Fail> {
    let assembly = words_of(alloc, text)?;
    Ok(assembly.as_slice() == words)
}

/// Whether a line is the listing of its word, and is assembled to it.
fn is_line(alloc: Global, word: u32, line: &[u8]) -> Result<bool, Fail> {
    Ok(is_listing(alloc, &[word], line)? && is_assembly(alloc, line, &[word])?)
}

/// The first line that isn't the listing of its word, or is assembled to another one.
fn first_other_line(
    alloc: Global,
    lines: &[(u32, &'static str)],
) -> Result<Option<&'static str>, Fail> {
    for (word, line) in lines {
        if !is_line(alloc, *word, line.as_bytes())? {
            return Ok(Some(*line));
        }
    }
    Ok(None)
}

#[test]
fn each_instruction_is_listed_as_its_line_and_read_back(rt: HostRuntime) -> Result<(), Fail> {
    assert_eq!(rt; first_other_line(rt.alloc(), lines())?, None);
    Ok(())
}

/// A text, and the kind and the line of its fault.
const FAULTS: [(&[u8], FaultKind, u32); 52] = [
    (b"addi x32, x0, 1", FaultKind::NoRegister, 1),
    (b"addi x1, x0, 2048", FaultKind::OutOfRange, 1),
    (b"beq x0, x0, nowhere", FaultKind::Undefined, 1),
    (b"\n# a comment\nfoo x1, ?", FaultKind::UnknownMnemonic, 3),
    (b"ADDI x1, x0, 1", FaultKind::UnknownMnemonic, 1),
    (b"addix1, x0, 1", FaultKind::UnknownMnemonic, 1),
    (b"1a: ecall", FaultKind::UnknownMnemonic, 1),
    (b"? ecall", FaultKind::OtherForm, 1),
    (b"addi", FaultKind::OtherForm, 1),
    (b"addi x1, x0", FaultKind::OtherForm, 1),
    (b"addi x1 x0, 1", FaultKind::OtherForm, 1),
    (b"addi x1, x0, 1,", FaultKind::OtherForm, 1),
    (b"ecall x1", FaultKind::OtherForm, 1),
    (b"addi 5, x0, 1", FaultKind::OtherForm, 1),
    (b"addi x1, x0, one", FaultKind::OtherForm, 1),
    (b"lw x1, 0(x2", FaultKind::OtherForm, 1),
    (b"addi x01, x0, 1", FaultKind::NoRegister, 1),
    (b"add x1, sp, x2", FaultKind::NoRegister, 1),
    (b"addi x1, x0, 01", FaultKind::OtherForm, 1),
    (b"addi x1, x0, 0X1", FaultKind::OtherForm, 1),
    (b"addi x1, x0, -0x1", FaultKind::OtherForm, 1),
    (b"addi x1, x0, +1", FaultKind::OtherForm, 1),
    (b"addi x1, x0, 0x", FaultKind::OtherForm, 1),
    (b"addi x1, x0, -2049", FaultKind::OutOfRange, 1),
    (b"slli x1, x1, 32", FaultKind::OutOfRange, 1),
    (b"slli x1, x1, -1", FaultKind::OutOfRange, 1),
    (b"lui x1, 1048576", FaultKind::OutOfRange, 1),
    (b"sw x1, 2048(x2)", FaultKind::OutOfRange, 1),
    (b"beq x0, x0, 4096", FaultKind::OutOfRange, 1),
    (b"beq x0, x0, -4098", FaultKind::OutOfRange, 1),
    (b"beq x0, x0, 3", FaultKind::OutOfRange, 1),
    (b"jal x0, 1048576", FaultKind::OutOfRange, 1),
    (b"jal x0, -1048578", FaultKind::OutOfRange, 1),
    (b".word -1", FaultKind::OutOfRange, 1),
    (b".word 4294967296", FaultKind::OutOfRange, 1),
    (b".word 0x1ffffffff", FaultKind::OutOfRange, 1),
    (
        b".word 1000000000000000000000000000000000000000000000000000000000000000000000000000000000000000000000000000",
        FaultKind::OutOfRange,
        1,
    ),
    (
        b"jal x0, -1000000000000000000000000000000000000000000000000000000000000000000000000000000000000000000000000000",
        FaultKind::OutOfRange,
        1,
    ),
    (b"lw x1, 5000(x32)", FaultKind::NoRegister, 1),
    (b"addi x32, x0, 5000 5", FaultKind::OtherForm, 1),
    (b"foo x32, 5000", FaultKind::UnknownMnemonic, 1),
    (b"a:\na:", FaultKind::DefinedTwice, 2),
    (b"a:\na: foo", FaultKind::UnknownMnemonic, 2),
    (b"a:\na: addi x1, x0, 2048", FaultKind::OutOfRange, 2),
    (b"a: a: ecall", FaultKind::UnknownMnemonic, 1),
    (b"beq x0, x0, b\nfoo", FaultKind::UnknownMnemonic, 2),
    (b"beq x0, x0, b\na:\na:", FaultKind::DefinedTwice, 3),
    (b"jal x0, b\njal x0, c", FaultKind::Undefined, 1),
    (b"ecall\r\n", FaultKind::OtherForm, 1),
    (b"\x00", FaultKind::OtherForm, 1),
    (b"\xff", FaultKind::OtherForm, 1),
    (b"ecall\n\xc3\xa9: ecall", FaultKind::OtherForm, 2),
];

/// These rows as a value.
fn faults() -> &'static [(&'static [u8], FaultKind, u32)] {
    &FAULTS
}

/// The first row whose text has another fault, and what it has.
fn first_other_fault(
    alloc: Global,
    faults: &[(&[u8], FaultKind, u32)],
) -> Option<(usize, Option<AsmFault>)> {
    for (row, (text, kind, line)) in faults.iter().enumerate() {
        let want = AsmFault {
            kind: *kind,
            line: *line,
        };
        let fault = fault_of(alloc, *text);
        if fault != Some(want) {
            return Some((row, fault));
        }
    }
    None
}

#[test]
fn each_fault_is_the_first_by_line_and_kind(rt: HostRuntime) {
    assert_eq!(rt; first_other_fault(rt.alloc(), faults()), None);
}

const TEXTS: [(&[u8], &[u32]); 14] = [
    (b"", &[]),
    (b"\n\n", &[]),
    (b"a:", &[]),
    (b" # only a comment", &[]),
    (b"ecall", &[0x00000073]),
    (b"ecall # leave", &[0x00000073]),
    (b"\t_a1 :\tecall", &[0x00000073]),
    (b"add: add x1,x2 ,\tx3", &[0x003100b3]),
    (b"lw\tx1, -2048 ( x2 )", &[0x80012083]),
    (b".word 0x00fF", &[0x000000ff]),
    (b".word 4294967295", &[0xffffffff]),
    (b"addi x1, x0, 0x7ff", &[0x7ff00093]),
    (b"addi x1, x0, -0", &[0x00000093]),
    (
        b"beq x0, x0, end\nback: ecall\njal x0, back\nend:",
        &[0x00000663, 0x00000073, 0xffdff06f],
    ),
];

/// These rows as a value.
fn texts() -> &'static [(&'static [u8], &'static [u32])] {
    &TEXTS
}

/// The first row whose text is assembled to other words.
fn first_other_text(alloc: Global, texts: &[(&[u8], &[u32])]) -> Result<Option<usize>, Fail> {
    for (row, (text, words)) in texts.iter().enumerate() {
        if !is_assembly(alloc, *text, *words)? {
            return Ok(Some(row));
        }
    }
    Ok(None)
}

#[test]
fn blanks_comments_labels_and_numbers_are_read(rt: HostRuntime) -> Result<(), Fail> {
    assert_eq!(rt; first_other_text(rt.alloc(), texts())?, None);
    Ok(())
}

const TO_FAR: &[u8] = b"beq x0, x0, far\n";

const FAR: &[u8] = b"far:\n";

/// This many words between two lines.
fn words_between(
    alloc: Global,
    words: usize,
    first: &[u8],
    last: &[u8],
) -> Result<Vec<u8>, Memory> {
    let mut text = Vec::new(alloc);
    text.extend_from_slice(first)?;
    for _ in 0..words {
        text.extend_from_slice(b"ecall\n")?;
    }
    text.extend_from_slice(last)?;
    Ok(text)
}

/// The line of a fault that a branch is too far; 0 of another fault.
fn line_of(fault: Option<AsmFault>) -> Option<u32> {
    match fault {
        Some(
            AsmFault {
                kind: FaultKind::OutOfRange,
                line,
            },
        ) => Some(line),
        Some(_) => Some(0),
        None => None,
    }
}

/// The line of the fault that a branch over this many words is too far, forward to a name behind them or back to one before them.
fn far_line(alloc: Global, words: usize, back: bool) -> Result<Option<u32>, Memory> {
    let text = if back {
        words_between(alloc, words, FAR, TO_FAR)?
    } else {
        words_between(alloc, words, TO_FAR, FAR)?
    };
    Ok(line_of(fault_of(alloc, text.as_slice())))
}

/// How many words a branch goes over, whether back, and the line of the fault that it is too far.
const BRANCHES: [(usize, bool, Option<u32>); 4] = [
    (1022, false, None),
    (1023, false, Some(1)),
    (1024, true, None),
    (1025, true, Some(1027)),
];

/// The first branch that has another fault.
fn first_other_branch(alloc: Global) -> Result<Option<usize>, Memory> {
    for (row, (words, back, line)) in BRANCHES.iter().enumerate() {
        if far_line(alloc, *words, *back)? != *line {
            return Ok(Some(row));
        }
    }
    Ok(None)
}

#[test]
fn a_branch_to_a_name_reaches_as_far_as_its_offset(rt: HostRuntime) -> Result<(), Fail> {
    assert_eq!(rt; first_other_branch(rt.alloc())?, None);
    Ok(())
}

/// It writes 42 and exits.
const WRITES_42: &[u8] =
    b"addi x10, x0, 42\naddi x17, x0, 1\necall\naddi x10, x0, 0\naddi x17, x0, 93\necall\n";

const WORDS_OF_42: [u32; 6] = [
    0x02a00513, 0x00100893, 0x00000073, 0x00000513, 0x05d00893, 0x00000073,
];

const COUNTS: &[u8] = b"loop: addi x6, x6, -1\nbne x6, x0, loop";

const WORDS_OF_COUNTS: [u32; 2] = [0xfff30313, 0xfe031ee3];

/// The second program has a name, of which the listing has the offset.
#[test]
fn a_program_is_assembled_and_listed_with_offsets_in_place_of_names(
    rt: HostRuntime,
) -> Result<(), Fail> {
    let alloc = rt.alloc();
    let are_so = [
        is_assembly(alloc, WRITES_42, &WORDS_OF_42)?,
        is_listing(alloc, &WORDS_OF_42, WRITES_42)?,
        is_assembly(alloc, COUNTS, &WORDS_OF_COUNTS)?,
        is_listing(
            alloc,
            &WORDS_OF_COUNTS,
            b"addi x6, x6, -1\nbne x6, x0, -4\n",
        )?,
    ];
    assert_eq!(rt; are_so, [true; 4]);
    Ok(())
}

/// The next of a sequence of numbers that look random (Numerical Recipes, 'ranqd1').
fn next_random(seed: u32) -> u32 {
    seed.wrapping_mul(1_664_525).wrapping_add(1_013_904_223)
}

/// 63,000 words of which a third are random, a third has the opcode of an instruction with a number, and a third that of a branch.
fn random_words(alloc: Global) -> Result<Vec<u32>, Memory> {
    let mut words = Vec::new(alloc);
    let mut seed = 1;
    for _ in 0..21_000 {
        seed = next_random(seed);
        words.push(seed)?;
        words.push(seed >> 8 << 7 | 0x13)?;
        words.push(seed >> 8 << 7 | 0x63)?;
    }
    Ok(words)
}

/// Whether words are listed in more than a megabyte, and assembled from there to themselves.
fn is_read_back(alloc: Global, words: &[u32]) -> Result<bool, Fail> {
    let text = listing_of(alloc, words)?;
    if text.len() < 1_048_576 {
        return Ok(false);
    }
    is_assembly(alloc, text.as_slice(), words)
}

/// Whether words that are handed over come back so.
fn come_back(alloc: Global, words: Vec<u32>) -> Result<bool, Fail> {
    is_read_back(alloc, words.as_slice())
}

#[test]
fn random_words_are_listed_and_assembled_to_themselves(rt: HostRuntime) -> Result<(), Fail> {
    let words = random_words(rt.alloc())?;
    assert!(rt; come_back(rt.alloc(), words)?);
    Ok(())
}
