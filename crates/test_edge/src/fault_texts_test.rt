//! The texts of faults: of answers, cases and full texts, and of a whole read; and those of statuses.

use case_reader::{CaseFault, Key, TaskFault};
use io_edge::ReadAll;
use proof_wire::WireFault;
use rd_base::Status;
use std::alloc::Global;
use std::fmt::Display;
use transcript_text::TextFault;

/// A fault or a status, and the text that it prints.
#[derive(Drop)]
struct Printed<F> {
    value: F,
    text: &'static str,
}

/// Whether it prints so.
fn prints<F: Display>(alloc: Global, value: &F, text: &str) -> bool {
    match format!(in alloc; "{value}") {
        Ok(printed) => printed.as_str() == text,
        Err(_) => false,
    }
}

/// The first row that prints otherwise.
fn first_other<F: Display>(alloc: Global, rows: &[Printed<F>]) -> Option<usize> {
    for (row, printed) in rows.iter().enumerate() {
        if !prints(alloc, &printed.value, printed.text) {
            return Some(row);
        }
    }
    None
}

const OF_READS: [Printed<ReadAll>; 3] = [
    Printed {
        value: ReadAll::Fault,
        text: "a read failed",
    },
    Printed {
        value: ReadAll::TooLong,
        text: "there are too many bytes",
    },
    Printed {
        value: ReadAll::Memory,
        text: "out of memory",
    },
];

const OF_ANSWERS: [Printed<WireFault>; 6] = [
    Printed {
        value: WireFault::Short,
        text: "the answer isn't whole",
    },
    Printed {
        value: WireFault::BadTag,
        text: "the tag, the flags or the count aren't known",
    },
    Printed {
        value: WireFault::BadStatus,
        text: "the status isn't known",
    },
    Printed {
        value: WireFault::TrailingBytes,
        text: "there are bytes behind the answer",
    },
    Printed {
        value: WireFault::BadLength,
        text: "the output is too long",
    },
    Printed {
        value: WireFault::Memory,
        text: "out of memory",
    },
];

const OF_CASES: [Printed<CaseFault>; 8] = [
    Printed {
        value: CaseFault::NotJson,
        text: "the bytes are no JSON text",
    },
    Printed {
        value: CaseFault::NotObject,
        text: "the case is no object",
    },
    Printed {
        value: CaseFault::Missing(Key::Image),
        text: "image is missing",
    },
    Printed {
        value: CaseFault::WrongType(Key::Bound),
        text: "bound has another type",
    },
    Printed {
        value: CaseFault::BadHex(Key::Input),
        text: "input is no hexadecimal text",
    },
    Printed {
        value: CaseFault::OutOfRange(Key::Fan),
        text: "fan is out of range",
    },
    Printed {
        value: CaseFault::BadProver(16),
        text: "prover 16 is none that is known",
    },
    Printed {
        value: CaseFault::Memory,
        text: "out of memory",
    },
];

/// Of each key, and of tasks.
const OF_KEYS: [Printed<TaskFault>; 10] = [
    Printed {
        value: TaskFault::Whole(CaseFault::Missing(Key::Tasks)),
        text: "tasks is missing",
    },
    Printed {
        value: TaskFault::Whole(CaseFault::Missing(Key::Format)),
        text: "format is missing",
    },
    Printed {
        value: TaskFault::Task(1, CaseFault::Missing(Key::Input)),
        text: "task 1: input is missing",
    },
    Printed {
        value: TaskFault::Task(2, CaseFault::Missing(Key::Patience)),
        text: "task 2: patience is missing",
    },
    Printed {
        value: TaskFault::Task(3, CaseFault::Missing(Key::Version)),
        text: "task 3: version is missing",
    },
    Printed {
        value: TaskFault::Task(4, CaseFault::Missing(Key::Stake)),
        text: "task 4: stake is missing",
    },
    Printed {
        value: TaskFault::Task(5, CaseFault::Missing(Key::Provers)),
        text: "task 5: provers is missing",
    },
    Printed {
        value: TaskFault::Task(8, CaseFault::NotObject),
        text: "task 8: the case is no object",
    },
    Printed {
        value: TaskFault::Whole(CaseFault::NotJson),
        text: "the bytes are no JSON text",
    },
    Printed {
        value: TaskFault::Memory,
        text: "out of memory",
    },
];

const OF_FULL_TEXTS: [Printed<TextFault>; 5] = [
    Printed {
        value: TextFault::BadHead,
        text: "the first line is no head",
    },
    Printed {
        value: TextFault::BadLine(18446744073709551615),
        text: "line 18446744073709551615 is neither a move nor the verdict",
    },
    Printed {
        value: TextFault::Truncated,
        text: "the text is cut off",
    },
    Printed {
        value: TextFault::OutOfRange(1),
        text: "a number of line 1 is out of range",
    },
    Printed {
        value: TextFault::Memory,
        text: "out of memory",
    },
];

const OF_STATUSES: [Printed<Status>; 4] = [
    Printed {
        value: Status::Running,
        text: "running",
    },
    Printed {
        value: Status::Exited(0),
        text: "exited 0",
    },
    Printed {
        value: Status::Exited(4294967295),
        text: "exited 4294967295",
    },
    Printed {
        value: Status::Trapped(8),
        text: "trapped 8",
    },
];

/// The first other row of each table.
fn other_read(alloc: Global) -> Option<usize> {
    first_other(alloc, &OF_READS)
}

fn other_answer(alloc: Global) -> Option<usize> {
    first_other(alloc, &OF_ANSWERS)
}

fn other_case(alloc: Global) -> Option<usize> {
    first_other(alloc, &OF_CASES)
}

fn other_key(alloc: Global) -> Option<usize> {
    first_other(alloc, &OF_KEYS)
}

fn other_full_text(alloc: Global) -> Option<usize> {
    first_other(alloc, &OF_FULL_TEXTS)
}

fn other_status(alloc: Global) -> Option<usize> {
    first_other(alloc, &OF_STATUSES)
}

#[test]
fn each_fault_and_each_status_has_its_text(rt: HostRuntime) {
    let alloc = rt.alloc();
    let others = [
        other_read(alloc),
        other_answer(alloc),
        other_case(alloc),
        other_key(alloc),
        other_full_text(alloc),
        other_status(alloc),
    ];
    assert_eq!(rt; others, [None; 6]);
}
