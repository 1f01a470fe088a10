// The figures of the two states: each can be set, by its row and its line, and all of a state have one digest. The rows:
//
//     0, 1, 2        lines, max and interval of the plan
//     3, 4           the sender's line and countdown; the receiver's store for a line and its round
//     5              the quanta
//     6, 7           the rounds and the counters
//     8, 9           the heads and what is used
//
// A row or a line that there is not sets nothing.
use crate::digest::Digest;
use plan::Plan;
use receiving::Receiver;
use sending::Sender;

// Which figure is set, and to what.
#[derive(Clone, Copy)]
pub struct Figure {
    pub row: u32,
    pub line: usize,
    pub value: u32,
}

// Two functions, since the rows mean other figures of each state.
pub(crate) fn set_sender(s: &mut Sender, figure: Figure) {
    let Figure { row, line, value } = figure;
    if Plan::MOST_LINES <= line {
        return;
    }
    match row {
        0 => s.plan.lines = value,
        1 => s.plan.max = value,
        2 => s.plan.interval = value,
        3 => s.line = value,
        4 => s.countdown = value,
        5 => s.plan.quanta[line] = value,
        6 => s.rounds[line] = value,
        7 => s.counters[line] = value,
        _ => {}
    }
}

pub(crate) fn set_receiver(r: &mut Receiver, figure: Figure) {
    let Figure { row, line, value } = figure;
    if Plan::MOST_LINES <= line {
        return;
    }
    match row {
        0 => r.plan.lines = value,
        1 => r.plan.max = value,
        2 => r.plan.interval = value,
        3 => r.rings.size = value,
        4 => r.turns.round = value,
        5 => r.plan.quanta[line] = value,
        6 => r.turns.rounds[line] = value,
        7 => r.turns.counters[line] = value,
        8 => r.rings.heads[line] = value,
        9 => r.rings.used[line] = value,
        _ => {}
    }
}

fn of_plan(p: &Plan) -> Digest {
    Digest::of(&[p.lines, p.max, p.interval]).with(&p.quanta)
}

pub(crate) fn of_sender(s: &Sender) -> Digest {
    of_plan(&s.plan)
        .with(&[s.line, s.countdown])
        .with(&s.rounds)
        .with(&s.counters)
}

pub(crate) fn of_receiver(r: &Receiver) -> Digest {
    of_plan(&r.plan)
        .with(&[r.rings.size, r.turns.round])
        .with(&r.turns.rounds)
        .with(&r.turns.counters)
        .with(&r.rings.heads)
        .with(&r.rings.used)
}
