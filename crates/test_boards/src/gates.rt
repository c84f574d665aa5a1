//! A gate that sees the posts.
use posters::{Gate, TaskGate};
use rd_base::Qid;
use std::sync::atomic::{AtomicBool, AtomicU32, Ordering};

/// How often a post looks whether the one that it waits for came, at most.
const LOOKS: u32 = 1_000_000_000;

/// A gate at which the posts of three parties are counted. The parties are the provers of one task, or many tasks.
#[derive(Drop)]
pub(crate) struct Watch {
    /// Whether each post of the parties 1 and 2 waits until the other one's of the same round comes.
    meets: bool,
    posts: [AtomicU32; 3],
    /// Who came: the first party's five rounds, then the second's.
    came: [AtomicBool; 10],
    met: AtomicU32,
}

impl Watch {
    /// A gate to which nobody came.
    pub(crate) fn new(meets: bool) -> Watch {
        Watch {
            meets,
            posts: [AtomicU32::new(0), AtomicU32::new(0), AtomicU32::new(0)],
            came: [
                AtomicBool::new(false),
                AtomicBool::new(false),
                AtomicBool::new(false),
                AtomicBool::new(false),
                AtomicBool::new(false),
                AtomicBool::new(false),
                AtomicBool::new(false),
                AtomicBool::new(false),
                AtomicBool::new(false),
                AtomicBool::new(false),
            ],
            met: AtomicU32::new(0),
        }
    }

    /// A party is about to post in a round.
    fn note(&self, party: u32, round: u32) {
        self.posts[(party.wrapping_sub(1) % 3) as usize].fetch_add(1, Ordering::SeqCst);
        if !self.meets {
            return;
        }
        let place = (round % 5) as usize;
        let (mine, other) = if party == 1 {
            (place, place + 5)
        } else {
            (place + 5, place)
        };
        self.came[mine].store(true, Ordering::SeqCst);
        for _ in 0..LOOKS {
            if self.came[other].load(Ordering::SeqCst) {
                self.met.fetch_add(1, Ordering::SeqCst);
                return;
            }
        }
    }

    /// How many posts there were of each party.
    pub(crate) fn posts(&self) -> [u32; 3] {
        let [first, second, third] = &self.posts;
        [
            first.load(Ordering::SeqCst),
            second.load(Ordering::SeqCst),
            third.load(Ordering::SeqCst),
        ]
    }

    /// How many posts met the other party.
    pub(crate) fn met(&self) -> u32 {
        self.met.load(Ordering::SeqCst)
    }
}

impl Gate for Watch {
    fn before_post(&self, p: u32, qid: Qid) {
        self.note(p, qid.round);
    }
}

impl TaskGate for Watch {
    fn before_post(&self, t: u32, _p: u32, qid: Qid) {
        self.note(t, qid.round);
    }
}

/// A gate of one task, whose provers are the parties.
#[derive(Drop)]
pub(crate) struct OfOneTask<'w> {
    pub watch: &'w Watch,
}

impl<'w> TaskGate for OfOneTask<'w> {
    fn before_post(&self, _t: u32, p: u32, qid: Qid) {
        self.watch.note(p, qid.round);
    }
}
