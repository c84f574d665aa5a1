//! The values that all crates share: registers, lists, statuses, texts, outputs, and copies of scripts.
use rd_base::{
    Bytes, ClaimOutput, FirstSilentRound, Listed, MAX_TEXT_BYTES, Manner, Memory, OpenText,
    PassCount, RegisterNumber, Regs, Script, Status, Tamper,
};
use std::alloc::{AllocError, Global};
use std::test::Fail;

/// Whether x31 alone holds something, all bits 1.
fn holds_x31_alone(regs: &Regs) -> bool {
    for reg in 0..32 {
        let want = if reg == 31 { 4294967295 } else { 0 };
        if regs.get(reg) != want {
            return false;
        }
    }
    true
}

#[test]
fn a_write_to_x0_is_dropped_and_one_to_another_stays(rt: HostRuntime) {
    let mut regs = Regs::new();
    regs.set(0, 7);
    regs.set(31, 4294967295);
    assert!(rt; holds_x31_alone(&regs));
}

/// Whether a list is that of the bytes 0, 255 and 42.
fn is_that(bytes: &Bytes) -> bool {
    bytes.as_slice() == b"\x00\xff\x2a".as_slice()
}

/// Whether it gives them back.
fn gives_back(bytes: Bytes) -> bool {
    bytes.into_vec().as_slice() == b"\x00\xff\x2a".as_slice()
}

/// How many statuses are in a list without one.
fn length_of_none(alloc: Global) -> usize {
    let none: Listed<Status> = Listed::new(Vec::new(alloc));
    none.len()
}

/// How many bytes an output of two has, unless memory runs out.
fn length_of_output(alloc: Global) -> Option<usize> {
    let output = ClaimOutput::new(b"\x80\xff".to_vec(alloc).ok()?)?;
    Some(output.len())
}

#[test]
fn a_list_gives_its_items_back_and_an_output_its_length(rt: HostRuntime) -> Result<(), Fail> {
    let bytes = Bytes::new(b"\x00\xff\x2a".to_vec(rt.alloc())?);
    let kept = (bytes.len(), is_that(&bytes), gives_back(bytes));
    let lengths = (length_of_none(rt.alloc()), length_of_output(rt.alloc()));
    assert!(rt; kept == (3, true, true) && lengths == (0, Some(2)));
    Ok(())
}

#[test]
fn a_machine_runs_until_it_exits_or_traps(rt: HostRuntime) {
    let are_running = [
        Status::Running.is_running(),
        Status::Exited(0).is_running(),
        Status::Exited(4294967295).is_running(),
        Status::Trapped(8).is_running(),
    ];
    assert_eq!(rt; are_running, [true, false, false, false]);
}

#[test]
fn a_refused_allocation_is_want_of_memory(rt: HostRuntime) {
    assert_eq!(rt; Memory::from(AllocError), Memory);
}

/// How many bytes a text of none has.
fn length_of_empty() -> usize {
    OpenText::new().as_slice().len()
}

/// The longest text: a byte of 4, and then bytes of 7.
fn longest() -> OpenText {
    let mut text = OpenText::new();
    text.push(4);
    text.extend(&[7; MAX_TEXT_BYTES - 1]);
    text
}

/// Whether bytes are 129, of which the first is 4 and the last 7.
fn are_longest(bytes: &[u8]) -> bool {
    (bytes.len(), bytes.first(), bytes.last()) == (129, Some(&4), Some(&7))
}

/// Whether the copy of a text has its bytes.
fn is_copied(text: &OpenText) -> bool {
    text.copy().as_slice() == text.as_slice()
}

#[test]
fn an_open_text_holds_129_bytes(rt: HostRuntime) {
    let held = [
        length_of_empty() == 0,
        are_longest(longest().as_slice()),
        is_copied(&longest()),
    ];
    assert_eq!(rt; held, [true; 3]);
}

/// The number that is kept of one, if it is taken.
fn register(number: u8) -> Option<u8> {
    match RegisterNumber::new(number) {
        Some(reg) => Some(reg.get()),
        None => None,
    }
}

#[test]
fn a_register_of_a_tamper_is_x1_to_x31(rt: HostRuntime) {
    let kept = [
        register(0),
        register(1),
        register(31),
        register(32),
        register(255),
    ];
    assert_eq!(rt; kept, [None, Some(1), Some(31), None, None]);
}

fn passes(number: u32) -> Option<u32> {
    match PassCount::new(number) {
        Some(passes) => Some(passes.get()),
        None => None,
    }
}

fn silent_from(number: u32) -> Option<u32> {
    match FirstSilentRound::new(number) {
        Some(round) => Some(round.get()),
        None => None,
    }
}

#[test]
fn a_late_prover_passes_at_most_1000_times_and_a_silent_one_begins_by_round_64(rt: HostRuntime) {
    let late = [
        passes(0),
        passes(64),
        passes(65),
        passes(1000),
        passes(1001),
    ];
    let silent = [
        silent_from(0),
        silent_from(64),
        silent_from(65),
        silent_from(1000),
        silent_from(1001),
    ];
    assert!(rt;
        late == [Some(0), Some(64), Some(65), Some(1000), None]
            && silent == [Some(0), Some(64), None, None, None]
    );
}

/// Whether a tamper flips bits 3 of the byte at 2, at step 1.
fn is_flip(tamper: Tamper) -> bool {
    match tamper {
        Tamper::Flip { step, addr, mask } => (step, addr, mask) == (1, 2, 3),
        _ => false,
    }
}

/// Whether a manner claims the byte 43.
fn is_output(manner: &Manner) -> bool {
    match manner {
        Manner::Output(output) => output.as_slice() == b"\x2b".as_slice(),
        _ => false,
    }
}

/// Whether a copy was made that does both.
fn is_copy(copy: Result<Script, Memory>) -> bool {
    match copy {
        Ok(script) => is_flip(script.tamper) & is_output(&script.manner),
        Err(Memory) => false,
    }
}

/// Whether the copy of a script with such a tamper and this output does both.
fn copies(alloc: Global, output: ClaimOutput) -> bool {
    let tamper = Tamper::Flip {
        step: 1,
        addr: 2,
        mask: 3,
    };
    let manner = Manner::Output(output);
    is_copy((Script { tamper, manner }).copy(alloc))
}

#[test]
fn a_copied_script_holds_what_the_script_holds(rt: HostRuntime) -> Result<(), Fail> {
    let output = b"\x2b".to_vec(rt.alloc())?;
    assert!(rt; copies(rt.alloc(), ClaimOutput::new(output).ok_or("too long")?));
    Ok(())
}
