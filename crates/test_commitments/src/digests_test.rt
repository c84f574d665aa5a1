//! Digested strings, of `digest_core`.

use digest_core::{
    Digester, Sha256, control_text, leaf_text, link, link_text, node_text, register_text,
    registers_text, state_text, storage_text,
};
use rd_base::{Ctl, Digest32, OpenText, Regs, Status};
use toy_machine::first_eight;

/// The parts of the strings of row `n` are digests of `n` and a number, and numbers from their first bytes.
fn part(n: u8, k: u8) -> Digest32 {
    Sha256.digest(&[n, k])
}

fn number(n: u8, k: u8) -> u32 {
    let [a, b, c, d, ..] = part(n, k).0;
    u32::from_le_bytes([a, b, c, d])
}

fn length(n: u8) -> u64 {
    let [a, b, c, d, e, f, g, h, ..] = part(n, 2).0;
    u64::from_le_bytes([a, b, c, d, e, f, g, h])
}

fn registers(n: u8) -> Regs {
    let mut regs = Regs::new();
    for reg in 1..32 {
        regs.set(reg, number(n, reg));
    }
    regs
}

fn control(n: u8) -> Ctl {
    let status = match n % 3 {
        0 => Status::Running,
        1 => Status::Exited(number(n, 1)),
        _ => Status::Trapped(number(n, 1)),
    };
    Ctl {
        pc: number(n, 0),
        status,
        out_len: length(n),
        chain: part(n, 3),
    }
}

fn text_of_kind(kind: usize, n: u8) -> OpenText {
    match kind {
        0 => leaf_text(&part(n, 0).0),
        1 => node_text(&part(n, 0), &part(n, 1)),
        2 => registers_text(&registers(n)),
        3 => control_text(&control(n)),
        4 => state_text(&part(n, 0), &part(n, 1), &part(n, 2)),
        _ => link_text(&part(n, 0), n),
    }
}

/// The digest of the string of a kind; of the kind 6 the link that has the string of kind 5.
fn digest_of_kind(kind: usize, n: u8) -> Digest32 {
    if kind == 6 {
        link(Sha256, part(n, 0), n)
    } else {
        Sha256.digest(text_of_kind(kind, n).as_slice())
    }
}

/// The links of the table below.
const LINKS: [u64; 17] = [
    0x2bf8c9fce94e3929,
    0x51c45380bceab18b,
    0xaed604b78a75dce1,
    0xa562251a15dc874f,
    0x65c7fdbec45d7cd5,
    0xaa750fd01ff2554e,
    0x38a3b0daf8169950,
    0x7b200c9352860f2e,
    0x2e32f463027dbc72,
    0x9c317c64c53d1492,
    0x8f1cad876de3a452,
    0x30b53db86682ec90,
    0x86a423467caf7df4,
    0xd95f937e138bd25b,
    0x3fac660288b6db31,
    0xd161eba159ceead8,
    0xacf1997de7970412,
];

/// The first eight bytes of the digests of 17 strings of each kind, and of 17 links, as this program in Python makes them:
///
/// ```python
///     import hashlib
///     sha = lambda b: hashlib.sha256(b).digest()
///     part = lambda n, k: sha(bytes([n, k]))
///     number = lambda n, k: part(n, k)[:4]
///     status = lambda n: [bytes(5), b'\1' + number(n, 1), b'\2' + number(n, 1)][n % 3]
///     kinds = [
///         lambda n: b'\0' + part(n, 0),
///         lambda n: b'\1' + part(n, 0) + part(n, 1),
///         lambda n: b'\2' + bytes(4) + b''.join(number(n, r) for r in range(1, 32)),
///         lambda n: b'\3' + number(n, 0) + status(n) + part(n, 2)[:8] + part(n, 3),
///         lambda n: b'\4' + part(n, 0) + part(n, 1) + part(n, 2),
///         lambda n: b'\5' + part(n, 0) + bytes([n]),
///     ]
///     for text in kinds:
///         print([f'0x{sha(text(n)).hex()[:16]}' for n in range(17)])
/// ```
const FIRST_EIGHT_BYTES: [[u64; 17]; 7] = [
    // leaves
    [
        0xd37300dc2c6e038a,
        0x031c495bf815cbe8,
        0x441d903db4e94a96,
        0xfe796e215b1b1338,
        0xdc4b794581532bff,
        0x2f9b79420be3766c,
        0xe9e8ded6393fb2d3,
        0x790d7d989c05cdb3,
        0xa0223e05ae353482,
        0xb1512fb8e2338684,
        0x88165f1e6084c986,
        0xcc74906631ae931c,
        0x884a369cba3b1f28,
        0x71839b19d335962a,
        0x65beeafc2edd9980,
        0x842535c1329e2053,
        0x862dccd13cd8c959,
    ],
    // nodes
    [
        0xa20bf9a7cc2dc8a0,
        0x4d027ebb9d6e55dd,
        0x3b2f3b4d6613b95a,
        0x4aafb9bb46c878ba,
        0x425d0a563d7a63c1,
        0xa7dce61ab8112db7,
        0x142e1b7421784d6e,
        0x4874f6eccb30c3c9,
        0xdb3ec84e58e2c140,
        0xe700aab0eacc4558,
        0x70807025dcf0ef56,
        0xdfc2d6376c62e2ef,
        0x4fd05e636f5f7613,
        0x5ad2ca5696e5eaef,
        0xe4702603168e4e18,
        0x2c415e592287d814,
        0xd221f28b3f022857,
    ],
    // all registers
    [
        0xfe1f04c16b2db387,
        0x3fc64708dfd62d01,
        0x0994081c8e94e5c8,
        0xed771d55ca4eaa02,
        0x843e1ef69615f005,
        0xbdc2be68983b554e,
        0x00fad6cb26b5e921,
        0x005c6b4180948a8d,
        0x96e8c9f25b894027,
        0x9f5da12f8f8402ef,
        0x119653c367f0b0f4,
        0x88a60792fab9bb96,
        0xde32c22d1fcff03a,
        0xf62309ccd008f997,
        0xe74d819be401e181,
        0xf67881b91f29692b,
        0xa15805e9545d21f9,
    ],
    // control fields
    [
        0xc9aa25f6a0016190,
        0xd0219e522c4bb7ed,
        0xf2d5f748bfb2be59,
        0x12d28bd743558386,
        0xd201313f6c179386,
        0x6b079f4aec882ad7,
        0xe73da953e34c8008,
        0x0b0864eeb5a5dae2,
        0x2b807c3de6992507,
        0x8e1e486125e883b6,
        0x570d15f6cdd93a25,
        0x379d27c9c5d8b59f,
        0x655e0df6e2f78744,
        0xb4fc92fd6e8cd088,
        0xe3c744951aa69fa6,
        0x32038e95aaab83b2,
        0x329a7da97da2738d,
    ],
    // states
    [
        0x0883a1c6eb92ebfc,
        0x243f842aaf725024,
        0xc021ddb4b1c5ca4d,
        0xd2d3a3f3bde668ae,
        0xfdffea23e095ce07,
        0x0564a80f4c0d9368,
        0x2a13666d32aa47ce,
        0x8e79d950ed9f9d75,
        0xa62fc9f16345f1f7,
        0xd821a42d1d399a9b,
        0x324c9ee855550a97,
        0x06a92793c495db4f,
        0x6a95efc1fc06d876,
        0x9915dd8009c0e0d3,
        0xf925c4f70449794a,
        0x8dc22d9b4b4bad2d,
        0xd494c7824342465c,
    ],
    // links, by their strings and by `link`
    LINKS,
    LINKS,
];

/// The first kind and row whose digest isn't that of the table.
fn first_other() -> Option<(usize, u8)> {
    for (kind, row) in FIRST_EIGHT_BYTES.iter().enumerate() {
        for n in 0..17u8 {
            if first_eight(digest_of_kind(kind, n)) != row[usize::from(n)] {
                return Some((kind, n));
            }
        }
    }
    None
}

#[test]
fn strings_and_links_have_the_digests_of_another_program(rt: HostRuntime) {
    assert_eq!(rt; first_other(), None);
}

/// 'abc', which FIPS 180-4's published examples have, and the empty message.
#[test]
fn sha_256_of_abc_and_of_nothing(rt: HostRuntime) {
    let abc =
        b"\xba\x78\x16\xbf\x8f\x01\xcf\xea\x41\x41\x40\xde\x5d\xae\x22\x23\xb0\x03\x61\xa3\x96\x17\x7a\x9c\xb4\x10\xff\x61\xf2\x00\x15\xad";
    let nothing =
        b"\xe3\xb0\xc4\x42\x98\xfc\x1c\x14\x9a\xfb\xf4\xc8\x99\x6f\xb9\x24\x27\xae\x41\xe4\x64\x9b\x93\x4c\xa4\x95\x99\x1b\x78\x52\xb8\x55";
    assert!(rt; Sha256.digest(b"abc").0 == *abc && Sha256.digest(b"").0 == *nothing);
}

/// The length of a string, and the first eight bytes of its digest.
fn length_and_digest(text: OpenText) -> (usize, u64) {
    let text = text.as_slice();
    (text.len(), first_eight(Sha256.digest(text)))
}

/// Whether a string has these bytes.
fn has_bytes(text: OpenText, bytes: &[u8]) -> bool {
    text.as_slice() == bytes
}

/// The digests were computed in Python, with `from hashlib import sha256`:
///
/// ```python
///     for value in 0, 1, 0x12345678, 0xffffffff:
///         print(sha256(b'\7' + value.to_bytes(4, 'little')).hexdigest()[:16])
///     print(sha256(b'\10' + 32 * b'\1' + 0x01020304.to_bytes(4, 'little') + 32 * b'\2').hexdigest()[:16])
/// ```
#[test]
fn a_register_and_a_storage_have_strings_of_their_own(rt: HostRuntime) {
    let of_kinds = [
        length_and_digest(register_text(0)),
        length_and_digest(register_text(1)),
        length_and_digest(register_text(0x1234_5678)),
        length_and_digest(register_text(0xffff_ffff)),
        length_and_digest(storage_text(&Digest32([1; 32]), 0x0102_0304, &Digest32([2; 32]))),
    ];
    let wanted = [
        (5, 0xe16a_b60a_a1ee_b707),
        (5, 0xcf8a_902c_6da1_0e1e),
        (5, 0xd10d_8dd4_4c13_c586),
        (5, 0xa748_6cf0_3e73_27c9),
        (69, 0x5656_c63e_0bc0_22bf),
    ];
    assert!(rt;
        of_kinds == wanted && has_bytes(register_text(0x1234_5678), b"\x07\x78\x56\x34\x12")
    );
}
