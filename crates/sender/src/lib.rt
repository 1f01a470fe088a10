// The booth's end: a sender by value. Each call takes the state and hands back the next one; a refusal hands back the state it was
// given. The definitions are `sending`'s.
#![tactic(auto)]

ghost use Rattle.std.specs.Prelude.{◌≡◌, ◌≤◌};
ghost use Rattle.plan.specs.Plan.{at};
ghost use Rattle.sending.specs.Sender.{sender_ok, closed_sender, open_sender, went, send_of, marker_from};
ghost use Rattle.sender.specs.Ready.{Ready, charged};

use marker::Marker;
use numbers::Refusal;
use plan::Plan;
use sending::{SendResult, Sender, Went};

// Whether a state is valid.
#[tactic(auto, unfolding(sending::specs::Sender::sender_ok))]
fn sender_ok(s: Sender) -> bool
    ensures { result ≡ sender_ok s }
{
    plan::plan_ok(s.plan)
        && s.line < s.plan.lines
        && numbers::in_range(1, s.countdown, s.plan.interval)
        && plan::counters_ok(s.plan, s.counters)
}

// The closed state, all zeros, which every other call refuses.
#[tactic(auto, using(sending::proofs::Laws::all_zeros, plan::proofs::Laws::all_zeros))]
pub fn closed() -> Sender
    ensures { result ≡ closed_sender }
{
    Sender::default()
}

// Opens a sender on a plan. Refused: 1.
#[tactic(auto, unfolding(sending::specs::Sender::open_sender))]
pub fn open(p: Plan) -> Result<Sender, Refusal>
    ensures { result ≡ open_sender p }
{
    if !plan::plan_ok(p) {
        return Err(Refusal::Plan);
    }
    let plan = plan::trim(p);
    let rounds = plan::first_entries(p.lines as usize, [1; Plan::MOST_LINES]);
    let counters = plan.quanta;
    Ok(Sender {
        plan,
        line: 0,
        countdown: p.interval,
        rounds,
        counters,
    })
}

// The current line's counter has run out: it is topped up, its round rises, and the next line becomes current.
#[tactic(auto, using(sending::proofs::Laws::next_line, sending::proofs::Laws::markers_due, sending::proofs::Laws::round_over))]
fn move_on(s: Sender, charge: u32) -> SendResult
    requires { Ready s charge × (at s.counters s.line ≤ charge) }
    ensures { result ≡ went s charge }
{
    let i = s.line as usize;
    let mut next = s;
    next.counters[i] = s.counters[i] + s.plan.quanta[i] - charge;
    next.rounds[i] = s.rounds[i].wrapping_add(1);
    let mut due = false;
    if s.line + 1 < s.plan.lines {
        next.line += 1;
    } else {
        next.line = 0;
        due = s.countdown == 1;
        next.countdown = if due {
            s.plan.interval
        } else {
            s.countdown - 1
        };
    }
    SendResult {
        answer: Ok(Went { line: s.line, due }),
        next,
    }
}

// A packet that is charged so much goes to the current line.
#[tactic(auto, using(sending::proofs::Laws::stays))]
fn go(s: Sender, charge: u32) -> SendResult
    requires { Ready s charge }
    ensures { result ≡ went s charge }
{
    let i = s.line as usize;
    if s.counters[i] <= charge {
        return move_on(s, charge);
    }
    let mut next = s;
    next.counters[i] -= charge;
    SendResult {
        answer: Ok(Went {
            line: s.line,
            due: false,
        }),
        next,
    }
}

// What a packet of that length is charged on the current line. Refused: 2, 4, 10. Here and in `marker_from` what has a place for each line is taken out of the
// state first: read in the state, it would have all of it copied by `memcpy`, which the booth's archive does without.
#[tactic(auto, using(crate::proofs::Readying::in_reach), unfolding(sending::specs::Sender::send_checks))]
fn charged(s: Sender, length: usize) -> Result<u32, Refusal>
    ensures { result ≡ charged s length }
{
    if !sender_ok(s) {
        return Err(Refusal::State);
    }
    if !(1..=s.plan.max as usize).contains(&length) {
        return Err(Refusal::Length);
    }
    let Sender {
        plan,
        line,
        counters,
        ..
    } = s;
    let i = line as usize;
    let charge = plan::charge(plan::line_plan(plan, line), length as u32);
    if counters[i] + plan.quanta[i] <= charge {
        return Err(Refusal::Counter);
    }
    Ok(charge)
}

// Sends a packet of that length. Refused: 2, 4, 10.
#[tactic(auto, using(crate::proofs::Readying::ready, crate::proofs::Readying::goes, crate::proofs::Readying::refused))]
pub fn send(s: Sender, length: usize) -> SendResult
    ensures { result ≡ send_of s length }
{
    match charged(s, length) {
        Ok(charge) => go(s, charge),
        Err(refusal) => SendResult {
            answer: Err(refusal),
            next: s,
        },
    }
}

// Writes a marker with a line's figures to the front of out, and answers the length written; asking changes no state. Refused: 2, 3, 8.
#[tactic(auto, using(crate::proofs::Readying::in_reach, sending::proofs::Laws::state_not_asked, sending::proofs::Laws::line_not_asked, sending::proofs::Laws::as_asked))]
pub fn marker_from(s: Sender, line: u32, out: &mut [u8]) -> Result<usize, Refusal>
    ensures { (result ≡ (marker_from s line out.old).answer) × (out.new ≡ (marker_from s line out.old).out) }
{
    if !sender_ok(s) {
        return Err(Refusal::State);
    }
    if s.plan.lines <= line {
        return Err(Refusal::Line);
    }
    let Sender {
        rounds,
        counters,
        ..
    } = s;
    let i = line as usize;
    let m = Marker {
        line,
        round: rounds[i],
        counter: counters[i],
    };
    marker::write_record(m, out)
}
