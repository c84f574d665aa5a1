//! What the exports answer with ample memory, and what they write of it.

use crate::step::coshalit_check_step;
use crate::texts::{CoshalitAnswer, coshalit_audit, coshalit_list, coshalit_run};
use crate::version::coshalit_version;
use std::process::Abort;
use std::test::Fail;

/// A case of a program that writes a byte and exits, and of one prover.
const CASE: &[u8] =
    b"{\"format\":\"flat\",\"image\":\"1305a0029308100073000000130500009308d00573000000\",\"input\":\"\",\"bound\":8,\"patience\":0,\"provers\":[{}]}";

/// Asserts the status of an answer, the length of its text, and the bytes of the room.
fn assert_answer(
    rt: &impl Abort,
    answer: &CoshalitAnswer,
    room: &[u8],
    status: u32,
    length: usize,
    want: &[u8],
) {
    assert_eq!(rt;
        (answer.status, answer.length, room),
        (status, length, want)
    );
}

#[test]
fn a_larger_room_keeps_what_stands_behind_the_text(rt: HostRuntime) {
    let mut room = [b'.'; 30];
    let answer = coshalit_run(rt.alloc(), CASE, &mut room);
    assert_answer(
        &rt,
        &answer,
        &room,
        0,
        26,
        b"answer exited 0 output 2a\n....",
    );
}

#[test]
fn a_smaller_room_gets_the_first_bytes(rt: HostRuntime) {
    let mut room = [b'.'; 16];
    let answer = coshalit_list(rt.alloc(), CASE, &mut room);
    assert_answer(&rt, &answer, &room, 0, 78, b"addi x10, x0, 42");
}

#[test]
fn no_bytes_are_no_full_text(rt: HostRuntime) {
    let mut room = [b'.'; 13];
    let answer = coshalit_audit(rt.alloc(), b"", &mut room);
    assert_answer(&rt, &answer, &room, 8, 13, b"fault text 3\n");
}

#[test]
fn what_is_no_proof_leaves_the_next_root(rt: HostRuntime) {
    let mut next = [7; 32];
    let ruling = coshalit_check_step(1, &[0; 32], b"", &mut next);
    assert_eq!(rt; (ruling, next), (3, [7; 32]));
}

#[test]
fn the_version_is_that_of_the_header(rt: HostRuntime) {
    assert_eq!(rt; coshalit_version(), 10_000);
}
