// The stage's end, from its opening to what comes in: a receiver by value over a store that is lent to each call. An arrival takes the state
// and hands back the next one; a refusal hands back the state it was given and changes no lent byte. The definitions are `receiving`'s.
#![tactic(auto)]

ghost use Rattle.std.specs.Prelude.{◌≡◌, true, ◌*◌, ◌≤◌, ◌<◌, ltb, eqb};
ghost use Rattle.numbers.specs.declared.Refusal.TheVariants as refusal;
ghost use Rattle.numbers.specs.Checks.{passed, check, checked, in_range};
ghost use Rattle.plan.specs.Limits.{most_lines};
ghost use Rattle.plan.specs.Plan.{at};
ghost use Rattle.report.specs.Report.{marker_on};
ghost use Rattle.receiving.specs.Receiver.{line_at, rings_ok, turns_ok, receiver_ok, closed_receiver, open_receiver, store_fits};
ghost use Rattle.receiving.specs.Arriving.{not_stored, arrival, room_check, arrival_of, data_arrival, marker_arrival};

use numbers::Refusal;
use plan::Plan;
use receiving::{Arrived, Receiver, Rings, Turns};

// The lowest-numbered line at a round; `lines` where there is none.
pub fn line_at(lines: u32, rounds: [u32; Plan::MOST_LINES], round: u32) -> u32
    ensures { result ≡ line_at lines (at rounds) round }
{
    (0..lines)
        .find(|i| plan::entry(rounds, *i) == round)
        .unwrap_or(lines)
}

// No early way out of the loops, as `all` has one: a state is checked at every call and nearly always good, and `all` is slower on it. Each of the
// two goes over figures of its own, and that a plan has few lines is a clause, since a plan of C's may say any number.
#[tactic(auto, unfolding(receiving::specs::Receiver::rings_ok, numbers::specs::Checks::all_below))]
fn rings_ok(p: Plan, g: &Rings) -> bool
    requires { p.lines ≤ most_lines }
    ensures { result ≡ rings_ok p g.now }
{
    let n = p.lines as usize;
    let mut good = plan::store_ok(p, g.size);
    for (head, used) in g.heads[..n].iter().zip(&g.used[..n]) {
        good &= (*head < g.size) & (*used <= g.size);
    }
    good
}

#[tactic(auto, unfolding(receiving::specs::Receiver::turns_ok, numbers::specs::Checks::all_below))]
fn turns_ok(p: Plan, t: &Turns) -> bool
    requires { p.lines ≤ most_lines }
    ensures { result ≡ turns_ok p t.now }
{
    let mut good = plan::counters_ok(p, t.counters);
    for round in &t.rounds[..p.lines as usize] {
        good &= report::rounds_ahead(*round, t.round) < 0x8000_0000;
    }
    good
}

// Whether a state is valid. It takes the state by value: a take that lends it is slower.
#[tactic(auto, using(plan::proofs::Laws::few_lines), unfolding(receiving::specs::Receiver::receiver_ok))]
pub fn is_valid(r: Receiver) -> bool
    ensures { result ≡ receiver_ok r }
{
    plan::plan_ok(r.plan)
        && rings_ok(r.plan, &r.rings)
        && turns_ok(r.plan, &r.turns)
        && line_at(r.plan.lines, r.turns.rounds, r.turns.round) < r.plan.lines
}

// The closed state, all zeros, which every call refuses.
#[tactic(auto, using(receiving::proofs::Laws::all_zeros, plan::proofs::Laws::all_zeros))]
pub fn closed() -> Receiver
    ensures { result ≡ closed_receiver }
{
    Receiver::default()
}

// Opens a receiver on a plan, with `size` bytes of store for each line. Refused: 1.
#[tactic(auto, using(plan::proofs::Laws::are_zeros), unfolding(receiving::specs::Receiver::open_receiver))]
pub fn open(p: Plan, size: u32) -> Result<Receiver, Refusal>
    ensures { result ≡ open_receiver p size }
{
    if !(plan::plan_ok(p) && plan::store_ok(p, size)) {
        return Err(Refusal::Plan);
    }
    let plan = plan::trim(p);
    let rounds = plan::first_entries(p.lines as usize, [1; Plan::MOST_LINES]);
    let counters = plan.quanta;
    Ok(Receiver {
        plan,
        rings: Rings {
            size,
            ..Rings::default()
        },
        turns: Turns {
            round: 1,
            rounds,
            counters,
        },
    })
}

// The bytes of so many rings.
pub fn rings_bytes(n: u32, size: u32) -> usize
    ensures { result ≡ n * size }
{
    n as usize * size as usize
}

fn not_stored(r: Receiver, refusal: Refusal) -> Arrived
    ensures { result ≡ not_stored r refusal }
{
    Arrived {
        answer: Err(refusal),
        next: r,
    }
}

// Whether a state is valid and a store of that length is its own. Refused: 2, 9.
pub fn lent(r: Receiver, n: usize) -> Result<(), Refusal>
    ensures { result ≡ check (receiver_ok r) refusal.State (check (eqb n (r.plan.lines * r.rings.size)) refusal.Store passed) }
{
    if !is_valid(r) {
        return Err(Refusal::State);
    }
    if n != rings_bytes(r.plan.lines, r.rings.size) {
        return Err(Refusal::Store);
    }
    Ok(())
}

// The checks that stand before an arrival's own, for a store of that length. Refused: 2, 9, 3.
fn placed(r: Receiver, line: u32, n: usize) -> Result<(), Refusal>
    ensures { result ≡ check (receiver_ok r) refusal.State (check (eqb n (r.plan.lines * r.rings.size)) refusal.Store (check (ltb line r.plan.lines) refusal.Line passed)) }
{
    lent(r, n)?;
    if r.plan.lines <= line {
        return Err(Refusal::Line);
    }
    Ok(())
}

// An item behind what a line holds. Refused: 7.
fn put(r: Receiver, line: u32, kind: u8, bytes: &[u8], store: &mut [u8]) -> Arrived
    requires { (receiver_ok r ≡ true) × (store_fits r store.old ≡ true) × (line < r.plan.lines) }
    ensures { (result ≡ (arrival (room_check r line bytes.now) r line kind bytes.now store.old).arrived)
        × (store.new ≡ (arrival (room_check r line bytes.now) r line kind bytes.now store.old).store) }
{
    let i = line as usize;
    let held = r.rings.used[i];
    let start = rings_bytes(line, r.rings.size);
    let end = start + r.rings.size as usize;
    if !ring::store(&mut store[start..end], r.rings.heads[i], held, kind, bytes) {
        return not_stored(r, Refusal::NoRoom);
    }
    let mut next = r;
    next.rings.used[i] = held + Plan::ITEM_HEAD + bytes.len() as u32;
    Arrived {
        answer: Ok(()),
        next,
    }
}

// An item that its own kind may refuse. Refused: 2, 9, 3, as its kind does, 7.
#[tactic(auto, unfolding(receiving::specs::Arriving::arrival_of, receiving::specs::Arriving::arrival))]
fn arrive(
    own: Result<(), Refusal>,
    r: Receiver,
    line: u32,
    kind: u8,
    bytes: &[u8],
    store: &mut [u8],
) -> Arrived
    ensures { (result ≡ (arrival_of own r line kind bytes.now store.old).arrived)
        × (store.new ≡ (arrival_of own r line kind bytes.now store.old).store) }
{
    match placed(r, line, store.len()).and(own) {
        Ok(()) => put(r, line, kind, bytes, store),
        Err(refusal) => not_stored(r, refusal),
    }
}

fn data_check(largest: u32, n: usize) -> Result<(), Refusal>
    ensures { result ≡ check (in_range 1 n largest) refusal.Length passed }
{
    if !(1..=largest as usize).contains(&n) {
        return Err(Refusal::Length);
    }
    Ok(())
}

// Data that came on a line. Refused: 2, 9, 3, 4, 7.
pub fn data_arrives(r: Receiver, line: u32, bytes: &[u8], store: &mut [u8]) -> Arrived
    ensures { (result ≡ (data_arrival r line bytes.now store.old).arrived)
        × (store.new ≡ (data_arrival r line bytes.now store.old).store) }
{
    let own = data_check(r.plan.max, bytes.len());
    arrive(own, r, line, 0, bytes, store)
}

fn marker_check(line: u32, quantum: u32, bytes: &[u8]) -> Result<(), Refusal>
    ensures { result ≡ checked (marker_on line quantum bytes.now) }
{
    report::read_on(line, quantum, bytes)?;
    Ok(())
}

// A marker that came on a line. Refused: 2, 9, 3, 5, 6, 7.
pub fn marker_arrives(r: Receiver, line: u32, bytes: &[u8], store: &mut [u8]) -> Arrived
    ensures { (result ≡ (marker_arrival r line bytes.now store.old).arrived)
        × (store.new ≡ (marker_arrival r line bytes.now store.old).store) }
{
    let quantum = plan::entry(r.plan.quanta, line);
    let own = marker_check(line, quantum, bytes);
    arrive(own, r, line, 1, bytes, store)
}
