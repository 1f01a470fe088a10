// The stage's end: the receiver's state in two halves, what is stored and whose turn it is, and what its calls answer. The definitions of the
// calls are in specs/: Receiver, Arriving, Taking, and Takes for runs; the code is in the crates `receiver` and `taking`.
#![tactic(auto)]

use numbers::Refusal;
use plan::Plan;

// What is stored, in arrays side by side, as the C struct has them. Line i owns the `size` bytes of the store from i times `size`, and holds `used` of them from `heads` on, round the end.
#[repr(C)]
#[derive(Clone, Copy, Default)]
pub struct Rings {
    pub size: u32,
    pub heads: [u32; Plan::MOST_LINES],
    pub used: [u32; Plan::MOST_LINES],
}

// Whose turn it is: the current round, and where each line stands.
#[repr(C)]
#[derive(Clone, Copy, Default)]
pub struct Turns {
    pub round: u32,
    pub rounds: [u32; Plan::MOST_LINES],
    pub counters: [u32; Plan::MOST_LINES],
}

// Entries for lines from the plan's `lines` on are ignored and kept.
#[repr(C)]
#[derive(Clone, Copy, Default)]
pub struct Receiver {
    pub plan: Plan,
    pub rings: Rings,
    pub turns: Turns,
}

// One line's figures, of each half.
#[derive(Clone, Copy)]
pub struct Held {
    pub head: u32,
    pub used: u32,
}

#[derive(Clone, Copy)]
pub struct Turn {
    pub round: u32,
    pub counter: u32,
}

#[derive(Clone, Copy)]
pub struct Line {
    pub held: Held,
    pub turn: Turn,
}

// What an arrival answers, and the next state.
#[derive(Clone, Copy)]
pub struct Arrived {
    pub answer: Result<(), Refusal>,
    pub next: Receiver,
}

// What a take finds, each with its line: the queue is empty; a packet of so many bytes; a marker, before which so many bytes are missing;
// a marker that its line has gone past (11).
#[derive(Clone, Copy)]
pub enum Taken {
    Waiting(u32),
    Data(u32, u32),
    Missing(u32, u64),
    Behind(u32),
}

// What a take answers, and the next state.
#[derive(Clone, Copy)]
pub struct TakeResult {
    pub answer: Result<Taken, Refusal>,
    pub next: Receiver,
}

// What a take of one line answers, and the line's figures after it: as they were, where nothing moved.
#[derive(Clone, Copy)]
pub struct Step {
    pub answer: Result<Taken, Refusal>,
    pub line: Line,
}

// Where a run of takes ends: the log is full, or a line is waited for.
#[derive(Clone, Copy)]
pub enum Ended {
    Full,
    Waiting(u32),
}

// What a run of takes answers: how it ended, or the refusal that ended it; how many takes there were and how many bytes they wrote; and the next
// state.
#[derive(Clone, Copy)]
pub struct TakesResult {
    pub ended: Result<Ended, Refusal>,
    pub taken: usize,
    pub bytes: usize,
    pub next: Receiver,
}
