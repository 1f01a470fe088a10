// The booth's end: the sender's state, and what its calls answer. The definitions of the calls are in specs/Sender.antt, the code in the crate
// `sender`.
#![tactic(auto)]

use numbers::Refusal;
use plan::Plan;

// Entries for lines from the plan's `lines` on are ignored and kept. The lines' figures are arrays side by side, as the C struct has them.
#[repr(C)]
#[derive(Clone, Copy, Default)]
pub struct Sender {
    pub plan: Plan,
    pub line: u32,
    pub countdown: u32,
    pub rounds: [u32; Plan::MOST_LINES],
    pub counters: [u32; Plan::MOST_LINES],
}

// A packet that goes: its line, and whether markers are due behind it.
#[derive(Clone, Copy)]
pub struct Went {
    pub line: u32,
    pub due: bool,
}

// What a send answers, and the next state.
#[derive(Clone, Copy)]
pub struct SendResult {
    pub answer: Result<Went, Refusal>,
    pub next: Sender,
}
