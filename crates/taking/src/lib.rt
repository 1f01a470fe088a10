// The stage's end, from its store to what is handed out: takes, one by one or in a run, by value over a store that is lent to each call. A refusal
// and a wait hand back the state that they were given. The definitions are `receiving`'s.
#![tactic(auto)]

ghost use Rattle.std.specs.Prelude.{◌≡◌, ◌+◌, ◌%◌, ◌^◌, ◌<◌, ◌≤◌, true, [], length};
ghost use Rattle.plan.specs.Limits.{item_head, most_lines};
ghost use Rattle.plan.specs.Plan.{at};
ghost use Rattle.theory.specs.Sending.{best};
ghost use Rattle.report.specs.Report.{marker_on, ahead, report_of};
ghost use Rattle.receiving.specs.Receiver.{line_of, receiver_ok, store_fits};
ghost use Rattle.receiving.specs.Taking.{past, charged_turn, data_head, marker_head, item_on, told_step, line_step, round_now, with_line, take_of};
ghost use Rattle.receiving.specs.Takes.{bytes_of, end_of, goes_on, takes_of};
ghost use Rattle.receiving.specs.Ready.{Ready};
ghost use Rattle.answers.specs.Answers.{refusal};
ghost use Rattle.taking.specs.Words.{word_by, ended_by};

use answers::Numbered;
use marker::Marker;
use numbers::Refusal;
use plan::{LinePlan, Plan};
use receiving::{Ended, Held, Line, Receiver, Step, TakeResult, Taken, TakesResult, Turn, Turns};

// No marker is longer: three numbers of at most five bytes.
const LONGEST_MARKER: usize = 15;

// ---- one line

// A line of a plan, with its figures and its ring: all in range for one another.
#[derive(Clone, Copy)]
struct Lane<'a> {
    plan: LinePlan,
    number: u32,
    figures: Line,
    ring: &'a [u8],
    ghost ready: { Ready plan (length ring.now) figures },
}

impl Lane<'_> {
    // An answer that leaves the line as it is.
    fn stays(&self, answer: Result<Taken, Refusal>) -> Step
        ensures { result ≡ record { answer = answer; line = self.now.figures } }
    {
        Step {
            answer,
            line: self.figures,
        }
    }

    // A take on the line.
    #[tactic(auto, using(receiving::proofs::Taking::item_fits, receiving::proofs::Taking::item_front), unfolding(receiving::specs::Taking::head_on))]
    fn take(&self, out: &mut [u8]) -> Step
        ensures { (result ≡ (line_step self.now.plan self.now.number self.now.figures self.now.ring.now out.old).step)
            × (out.new ≡ (line_step self.now.plan self.now.number self.now.figures self.now.ring.now out.old).out) }
    {
        let held = self.figures.held;
        if held.used == 0 {
            return self.stays(Ok(Taken::Waiting(self.number)));
        }
        match ring::head_item(self.ring, held.head, held.used) {
            Some((kind, length)) => Item {
                lane: *self,
                kind,
                length: length as u32,
            }
            .take(out),
            None => self.stays(Err(Refusal::Store)),
        }
    }
}

// The item at the head of a line's queue: the line holds all of it. Its kind is a byte of the store, which may be anything, so it is a byte here.
#[derive(Clone, Copy)]
struct Item<'a> {
    lane: Lane<'a>,
    kind: u8,
    length: u32,
    ghost whole: { item_head + length ≤ lane.figures.held.used },
}

impl Item<'_> {
    ghost use Rattle.taking.specs.Lanes.{step_on, bytes_in};

    // The line's figures once the item is gone from its ring, and its turn is this.
    fn past(&self, turn: Turn) -> Line
        ensures { result ≡ past (length self.now.lane.ring.now) self.now.lane.figures self.now.length turn }
    {
        let held = self.lane.figures.held;
        let gone = Plan::ITEM_HEAD + self.length;
        let after = Held {
            head: (held.head + gone) % self.lane.ring.len() as u32,
            used: held.used - gone,
        };
        Line { held: after, turn }
    }

    // A packet has been handed out: the counter moves as in sending.
    #[tactic(auto, using(crate::proofs::Lanes::item_covered))]
    fn after_data(&self) -> Line
        requires { (1 ≤ self.now.length) × (self.now.length ≤ self.now.lane.plan.largest) }
        ensures { result ≡ past (length self.now.lane.ring.now) self.now.lane.figures self.now.length (charged_turn self.now.lane.plan self.now.lane.figures.turn self.now.length) }
    {
        let plan = self.lane.plan;
        let turn = self.lane.figures.turn;
        let charge = plan::charge(plan, self.length);
        if turn.counter <= charge {
            return self.past(Turn {
                round: turn.round.wrapping_add(1),
                counter: turn.counter + plan.quantum - charge,
            });
        }
        self.past(Turn {
            round: turn.round,
            counter: turn.counter - charge,
        })
    }

    #[tactic(auto, using(crate::proofs::Lanes::item_length), unfolding(numbers::specs::Writing::outcome))]
    fn take_data(&self, out: &mut [u8]) -> Step
        ensures { (result ≡ (step_on self.now.lane out.old (data_head self.now.lane.plan (bytes_in self.now))).step)
            × (out.new ≡ (step_on self.now.lane out.old (data_head self.now.lane.plan (bytes_in self.now))).out) }
    {
        let lane = &self.lane;
        if !numbers::in_range(1, self.length, lane.plan.largest) {
            return lane.stays(Err(Refusal::Store));
        }
        if ring::hand_out(lane.ring, lane.figures.held.head, self.length as usize, out).is_err() {
            return lane.stays(Err(Refusal::ShortOutput));
        }
        Step {
            answer: Ok(Taken::Data(lane.number, self.length)),
            line: self.after_data(),
        }
    }

    // A marker, once it is read: what it reports, and the line's figures after it.
    fn after_marker(&self, m: Marker) -> Step
        ensures { result ≡ told_step (length self.now.lane.ring.now) self.now.lane.number self.now.lane.figures self.now.length m (report_of self.now.lane.plan.quantum self.now.lane.figures.turn.round self.now.lane.figures.turn.counter m) }
    {
        let lane = &self.lane;
        let turn = lane.figures.turn;
        match report::tell(lane.plan.quantum, turn.round, turn.counter, m) {
            None => Step {
                answer: Ok(Taken::Behind(lane.number)),
                line: self.past(turn),
            },
            Some(missing) => Step {
                answer: Ok(Taken::Missing(lane.number, missing)),
                line: self.past(Turn {
                    round: m.round,
                    counter: m.counter,
                }),
            },
        }
    }

    // A marker writes nothing.
    #[tactic(auto, using(crate::proofs::Lanes::item_length, crate::proofs::Lanes::item_copied, receiving::proofs::Taking::over_long), unfolding(numbers::specs::Writing::outcome))]
    fn take_marker(&self) -> Step
        ensures { result ≡ (step_on self.now.lane [] (marker_head self.now.length (marker_on self.now.lane.number self.now.lane.plan.quantum (bytes_in self.now)))).step }
    {
        let lane = &self.lane;
        let mut bytes = [0u8; LONGEST_MARKER];
        if ring::hand_out(
            lane.ring,
            lane.figures.held.head,
            self.length as usize,
            &mut bytes,
        )
        .is_err()
        {
            return lane.stays(Err(Refusal::Store));
        }
        match report::read_on(
            lane.number,
            lane.plan.quantum,
            &bytes[..self.length as usize],
        ) {
            Ok(m) => self.after_marker(m),
            Err(_) => lane.stays(Err(Refusal::Store)),
        }
    }

    // A take of the item.
    #[tactic(auto, using(crate::proofs::Lanes::item_length), unfolding(receiving::specs::Taking::item_on))]
    fn take(&self, out: &mut [u8]) -> Step
        ensures { (result ≡ (step_on self.now.lane out.old (item_on self.now.lane.plan self.now.lane.number self.now.kind (bytes_in self.now))).step)
            × (out.new ≡ (step_on self.now.lane out.old (item_on self.now.lane.plan self.now.lane.number self.now.kind (bytes_in self.now))).out) }
    {
        match self.kind {
            0 => self.take_data(out),
            1 => self.take_marker(),
            _ => self.lane.stays(Err(Refusal::Store)),
        }
    }
}

// ---- the whole state

// The line whose round is nearest, counted on from the current one.
#[tactic(auto, using(theory::proofs::Choose::best_one, theory::proofs::Choose::best_changed, theory::proofs::Choose::best_kept))]
fn nearest(lines: u32, t: &Turns) -> u32
    requires { (1 ≤ lines) × (lines ≤ most_lines) }
    ensures { result ≡ best (λ i. ahead (at t.now.rounds i) t.now.round) lines }
{
    let mut found = 0;
    let mut least = report::rounds_ahead(t.rounds[0], t.round);
    for i in 1..lines {
        let rounds_on = report::rounds_ahead(t.rounds[i as usize], t.round);
        if rounds_on < least {
            least = rounds_on;
            found = i;
        }
    }
    found
}

// The current round, once a line's round may have risen.
#[tactic(auto, unfolding(receiving::specs::Taking::round_now))]
fn round_now(lines: u32, t: &Turns) -> u32
    requires { (1 ≤ lines) × (lines ≤ most_lines) }
    ensures { result ≡ round_now lines (at t.now.rounds) t.now.round }
{
    if receiver::line_at(lines, t.rounds, t.round) < lines {
        return t.round;
    }
    plan::entry(t.rounds, nearest(lines, t))
}

// A line's figures.
fn line_of(r: Receiver, line: u32) -> Line
    ensures { result ≡ line_of r line }
{
    Line {
        held: Held {
            head: plan::entry(r.rings.heads, line),
            used: plan::entry(r.rings.used, line),
        },
        turn: Turn {
            round: plan::entry(r.turns.rounds, line),
            counter: plan::entry(r.turns.counters, line),
        },
    }
}

// The state with other figures for a line. They are stored whether they have changed or not.
fn with_line(r: Receiver, line: u32, l: Line) -> Receiver
    requires { (line < r.plan.lines) × (r.plan.lines ≤ most_lines) }
    ensures { result ≡ with_line r line l }
{
    let mut next = r;
    let i = line as usize;
    next.rings.heads[i] = l.held.head;
    next.rings.used[i] = l.held.used;
    next.turns.rounds[i] = l.turn.round;
    next.turns.counters[i] = l.turn.counter;
    next.turns.round = round_now(next.plan.lines, &next.turns);
    next
}

// A take of a valid state, with a store of its size. The two are lent apart, the store to read here and to change at an arrival, so no struct
// carries the fact.
fn take_checked(r: Receiver, store: &[u8], out: &mut [u8]) -> TakeResult
    requires { (receiver_ok r ≡ true) × (store_fits r store.now ≡ true) }
    ensures { (result ≡ (take_of r store.now out.old).result)
        × (out.new ≡ (take_of r store.now out.old).out) }
{
    let number = receiver::line_at(r.plan.lines, r.turns.rounds, r.turns.round);
    let start = receiver::rings_bytes(number, r.rings.size);
    let end = start + r.rings.size as usize;
    let lane = Lane {
        plan: plan::line_plan(r.plan, number),
        number,
        figures: line_of(r, number),
        ring: &store[start..end],
    };
    let step = lane.take(out);
    TakeResult {
        answer: step.answer,
        next: with_line(r, number, step.line),
    }
}

// Takes the next item of the current line. Refused: 2, 9, 8.
#[tactic(auto, unfolding(receiving::specs::Taking::take_of))]
pub fn take(r: Receiver, store: &[u8], out: &mut [u8]) -> TakeResult
    ensures { (result ≡ (take_of r store.now out.old).result)
        × (out.new ≡ (take_of r store.now out.old).out) }
{
    match receiver::lent(r, store.len()) {
        Ok(()) => take_checked(r, store, out),
        Err(refusal) => TakeResult {
            answer: Err(refusal),
            next: r,
        },
    }
}

// ---- a run

// Whether a run goes on after a take.
fn goes_on(answer: Result<Taken, Refusal>) -> bool
    ensures { result ≡ goes_on answer }
{
    match answer {
        Ok(Taken::Waiting(_)) | Err(_) => false,
        Ok(_) => true,
    }
}

// How a run ends at a take.
fn end_of(answer: Result<Taken, Refusal>) -> Result<Ended, Refusal>
    ensures { result ≡ end_of answer }
{
    match answer? {
        Taken::Waiting(line) => Ok(Ended::Waiting(line)),
        _ => Ok(Ended::Full),
    }
}

// The bytes that a take has written.
fn bytes_of(answer: Result<Taken, Refusal>) -> usize
    ensures { result ≡ bytes_of answer }
{
    match answer {
        Ok(Taken::Data(_, n)) => n as usize,
        _ => 0,
    }
}

// A refusal as a word, by the rule of the crate `answers`, whatever tells its number.
fn refused_word<R: Numbered>(by: R) -> u64
    ensures { result ≡ refusal (R.number_told by) }
{
    256 + by.told_number() as u64
}

// Any take's answer as a word of 64 bits: its line, 16 times what it was, and 512 times a length or the bytes missing; or a refusal. A take's
// own answers all fit.
pub fn word_of<R: Numbered>(answer: Result<Taken, R>) -> u64
    ensures { result ≡ word_by R.number_told answer % 2 ^ 64 }
{
    match answer {
        Ok(Taken::Data(line, n)) => line as u64 + 512 * n as u64,
        Ok(Taken::Missing(line, missing)) => {
            (16 + line as u64).wrapping_add(missing.wrapping_mul(512))
        }
        Ok(Taken::Behind(line)) => 32 + line as u64,
        Ok(Taken::Waiting(line)) => 48 + line as u64,
        Err(refusal) => refused_word(refusal),
    }
}

// How a run ended as a word (a function with a name, as is a take's: `from` would not say which word): 64, a kind of its own, where the log is full; else the word of the take that stopped it.
pub fn ended_word<R: Numbered>(ended: Result<Ended, R>) -> u64
    ensures { result ≡ ended_by R.number_told ended }
{
    match ended {
        Ok(Ended::Full) => 64,
        Ok(Ended::Waiting(line)) => word_of::<R>(Ok(Taken::Waiting(line))),
        Err(refusal) => refused_word(refusal),
    }
}

// A run of takes of a valid state, with a store of its size: each take leaves the state valid.
fn run_checked(r: Receiver, store: &[u8], out: &mut [u8], log: &mut [u64]) -> TakesResult
    requires { (receiver_ok r ≡ true) × (store_fits r store.now ≡ true) }
    ensures { (result ≡ (takes_of r store.now out.old log.old).result)
        × (out.new ≡ (takes_of r store.now out.old log.old).out)
        × (log.new ≡ (takes_of r store.now out.old log.old).log) }
{
    let mut state = r;
    let mut bytes = 0;
    for taken in 0..log.len() {
        let t = take_checked(state, store, &mut out[bytes..]);
        if !goes_on(t.answer) {
            return TakesResult {
                ended: end_of(t.answer),
                taken,
                bytes,
                next: state,
            };
        }
        log[taken] = word_of(t.answer);
        bytes += bytes_of(t.answer);
        state = t.next;
    }
    TakesResult {
        ended: Ok(Ended::Full),
        taken: log.len(),
        bytes,
        next: state,
    }
}

// Takes, one after another, until one waits or is refused, or the log is full. The packets lie one behind another at the front of out, and
// the log has a word for each take: its line, 16 times what it was (0 data, 1 missing, 2 behind), and 512 times the length or the bytes missing.
// Refused: 2, 9 before the log is looked at. Ended by 8: the next packet is longer than what is left of out behind the bytes written, and by 9: the
// next item cannot be one; what was taken before stands.
#[tactic(auto, unfolding(receiving::specs::Takes::takes_of))]
pub fn take_run(r: Receiver, store: &[u8], out: &mut [u8], log: &mut [u64]) -> TakesResult
    ensures { (result ≡ (takes_of r store.now out.old log.old).result)
        × (out.new ≡ (takes_of r store.now out.old log.old).out)
        × (log.new ≡ (takes_of r store.now out.old log.old).log) }
{
    match receiver::lent(r, store.len()) {
        Ok(()) => run_checked(r, store, out, log),
        Err(refusal) => TakesResult {
            ended: Err(refusal),
            taken: 0,
            bytes: 0,
            next: r,
        },
    }
}
