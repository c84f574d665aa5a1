//! Tests of the lines of a report.
use bisect_game::Settled;
use rd_base::{Answer, Claim, ClaimOutput, Ctl, Digest32, Memory, OpenText, Status};
use std::alloc::{AllocError, Global};
use std::test::Fail;
use tournament::Verdict;
use transcript_text::{DigestName, Head, answer_line, claim_lines, head_line, verdict_line};

/// The claim of a status and an output.
fn claim_of(alloc: Global, status: Status, output: &[u8]) -> Result<Option<Settled>, AllocError> {
    let ctl = Ctl {
        pc: 65540,
        status,
        out_len: 9,
        chain: Digest32([3; 32]),
    };
    let Some(output) = ClaimOutput::new(output.to_vec(alloc)?) else {
        return Ok(None);
    };
    Ok(Some(Settled::Given(Answer::Claim(Claim {
        mem: Digest32([1; 32]),
        regs: Digest32([2; 32]),
        ctl,
        output,
    }))))
}

/// Whether a text that was written is this one.
fn is_text(text: Result<String, AllocError>, want: &str) -> Result<bool, AllocError> {
    let text = text?;
    Ok(text.as_str() == want)
}

/// Whether a verdict has this line.
fn has_line(
    alloc: Global,
    claims: &[Option<Settled>],
    verdict: Verdict,
    want: &str,
) -> Result<bool, AllocError> {
    is_text(verdict_line(alloc, claims, &verdict), want)
}

/// The status and the output of a claim, and the lines that it has: what a prover claims, what is accepted, and the answer of a run.
const ANSWERS: [(Status, &[u8], [&str; 3]); 5] = [
    (
        Status::Running,
        b"",
        [
            "p1 claims running output\n",
            "accept running output\n",
            "answer running output\n",
        ],
    ),
    (
        Status::Running,
        b"\x0a",
        [
            "p1 claims running output 0a\n",
            "accept running output 0a\n",
            "answer running output 0a\n",
        ],
    ),
    (
        Status::Exited(0),
        b"*",
        [
            "p1 claims exited 0 output 2a\n",
            "accept exited 0 output 2a\n",
            "answer exited 0 output 2a\n",
        ],
    ),
    (
        Status::Exited(4294967295),
        b"",
        [
            "p1 claims exited 4294967295 output\n",
            "accept exited 4294967295 output\n",
            "answer exited 4294967295 output\n",
        ],
    ),
    (
        Status::Trapped(8),
        b"\x00\xff",
        [
            "p1 claims trapped 8 output 00ff\n",
            "accept trapped 8 output 00ff\n",
            "answer trapped 8 output 00ff\n",
        ],
    ),
];

/// Whether one claim is claimed and accepted with these lines.
fn is_claimed(
    alloc: Global,
    claims: &[Option<Settled>],
    claimed: &str,
    accepted: &str,
) -> Result<bool, AllocError> {
    let is_so = is_text(claim_lines(alloc, claims), claimed)?;
    Ok(is_so && has_line(alloc, claims, Verdict::Accept(1), accepted)?)
}

/// Whether the claim of the only prover has these lines.
fn is_only(
    alloc: Global,
    claim: Option<Settled>,
    claimed: &str,
    accepted: &str,
) -> Result<bool, AllocError> {
    is_claimed(alloc, &[claim], claimed, accepted)
}

/// Whether a run has this answer.
fn is_answered(
    alloc: Global,
    status: Status,
    output: &[u8],
    answered: &str,
) -> Result<bool, Memory> {
    let answer = answer_line(alloc, status, output)?;
    Ok(answer.as_slice() == answered.as_bytes())
}

/// Whether a claim and a run of this status and this output have these lines.
fn has_lines(
    alloc: Global,
    status: Status,
    output: &[u8],
    lines: [&str; 3],
) -> Result<bool, Memory> {
    let [claimed, accepted, answered] = lines;
    let claim = claim_of(alloc, status, output)?;
    Ok(is_only(alloc, claim, claimed, accepted)? && is_answered(alloc, status, output, answered)?)
}

/// These rows as a value, of which no caller sees the rows: they would stand in each of its goals.
fn answers() -> [(Status, &'static [u8], [&'static str; 3]); 5] {
    ANSWERS
}

/// The first row that has another line.
fn first_other(
    alloc: Global,
    rows: &[(Status, &[u8], [&str; 3])],
) -> Result<Option<usize>, Memory> {
    for (place, (status, output, lines)) in rows.iter().enumerate() {
        if !has_lines(alloc, *status, *output, *lines)? {
            return Ok(Some(place));
        }
    }
    Ok(None)
}

#[test]
fn a_claim_has_its_status_and_its_output_where_there_is_one(rt: HostRuntime) -> Result<(), Fail> {
    assert_eq!(rt; first_other(rt.alloc(), &answers())?, None);
    Ok(())
}

/// The number of the prover that is accepted, and the line of this verdict. A claim that isn't given has no line, and neither has a number
/// that no prover has.
const ACCEPTED: [(u32, &str); 7] = [
    (2, "accept exited 7 output ab\n"),
    (1, ""),
    (3, ""),
    (4, ""),
    (5, ""),
    (0, ""),
    (4294967295, ""),
];

/// The first number whose verdict has another line.
fn first_other_accepted(
    alloc: Global,
    claims: &[Option<Settled>],
) -> Result<Option<u32>, AllocError> {
    for (number, want) in ACCEPTED {
        if !has_line(alloc, claims, Verdict::Accept(number), want)? {
            return Ok(Some(number));
        }
    }
    Ok(None)
}

/// A string of one byte.
fn string(byte: u8) -> OpenText {
    let mut text = OpenText::new();
    text.push(byte);
    text
}

/// Whether five claims have their lines, and so have a verdict that nobody is left and one of two strings; and the first number whose
/// verdict has another line.
fn told_of(
    alloc: Global,
    claims: &[Option<Settled>],
) -> Result<([bool; 3], Option<u32>), AllocError> {
    let have_lines = [
        is_text(
            claim_lines(alloc, claims),
            "out p1 faulty\np2 claims exited 7 output ab\nout p3 spent\n",
        )?,
        has_line(alloc, claims, Verdict::NoneLeft, "none left\n")?,
        has_line(
            alloc,
            claims,
            Verdict::Collision(string(0x04), string(0xf0)),
            "collision 04 f0\n",
        )?,
    ];
    Ok((have_lines, first_other_accepted(alloc, claims)?))
}

/// What is told of five claims, of which the second is this one. No match settles the last two so: they have no line.
fn told_of_five(
    alloc: Global,
    second: Option<Settled>,
) -> Result<([bool; 3], Option<u32>), AllocError> {
    let root = Digest32([7; 32]);
    told_of(
        alloc,
        &[
            Some(Settled::Faulty(Answer::Root(root))),
            second,
            Some(Settled::Spent),
            Some(Settled::Given(Answer::Root(root))),
            None,
        ],
    )
}

#[test]
fn a_prover_that_is_out_is_called_faulty_or_spent_and_is_not_accepted(
    rt: HostRuntime,
) -> Result<(), Fail> {
    let second = claim_of(rt.alloc(), Status::Exited(7), b"\xab")?;
    assert_eq!(rt; told_of_five(rt.alloc(), second)?, ([true; 3], None));
    Ok(())
}

#[test]
fn the_numbers_of_a_head_are_decimal(rt: HostRuntime) -> Result<(), Fail> {
    let alloc = rt.alloc();
    let head = Head {
        provers: 0,
        bound: 18446744073709551615,
        patience: 4294967295,
        version: 10,
        fan: 65536,
        digest: DigestName::Sha256,
        start: Digest32([0; 32]),
    };
    let text = head_line(alloc, &head)?;
    assert_eq!(rt;
        text.as_str(),
        "match provers 0 bound 18446744073709551615 patience 4294967295 version 10 fan 65536 digest sha256\n"
    );
    Ok(())
}
