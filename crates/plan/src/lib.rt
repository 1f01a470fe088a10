// The plan that both ends agree on: its limits, the check of it, and what a packet is charged on a line.
// The definitions are in specs/: Limits and Plan.
#![tactic(auto)]

ghost use Rattle.std.specs.Prelude.{◌≡◌, ◌≤◌};
ghost use Rattle.numbers.specs.Checks.{all_below};
ghost use Rattle.plan.specs.Limits.{least_lines, most_lines, least_max, most_max, most_quantum, least_interval, most_interval, item_head, most_store};
ghost use Rattle.plan.specs.Plan.{at, no_plan, quantum_ok, plan_ok, store_ok, counters_ok, line_plan, charge_of, first_entries, trimmed};

// Lines are numbered from 0 in the order of the quanta, never by name. Entries for lines from `lines` on are ignored and kept.
#[repr(C)]
#[derive(Clone, Copy, Default)]
pub struct Plan {
    pub lines: u32,
    pub max: u32,
    pub interval: u32,
    pub quanta: [u32; Plan::MOST_LINES],
}

// What one line needs of the plan: its quantum, and the largest packet.
#[derive(Clone, Copy)]
pub struct LinePlan {
    pub quantum: u32,
    pub largest: u32,
}

impl Plan {
    pub const LEAST_LINES: u32 = 1;

    pub const MOST_LINES: usize = 16;

    // The largest packet, in bytes.
    pub const LEAST_MAX: u32 = 64;

    pub const MOST_MAX: u32 = 9_000;

    // A line's quantum is at least the plan's largest packet.
    pub const MOST_QUANTUM: u32 = 1_048_576;

    // Rounds from one set of markers to the next.
    pub const LEAST_INTERVAL: u32 = 1;

    pub const MOST_INTERVAL: u32 = 65_535;

    // A stored item's kind and length stand in front of its bytes, so a line's store has this and the largest packet at least.
    pub const ITEM_HEAD: u32 = 3;

    pub const MOST_STORE: u32 = 65_536;
}

// The plan's limits are the definitions' numbers.
fn limits()
    ensures least_lines { Plan.LEAST_LINES ≡ least_lines }
    ensures most_lines { Plan.MOST_LINES ≡ most_lines }
    ensures least_max { Plan.LEAST_MAX ≡ least_max }
    ensures most_max { Plan.MOST_MAX ≡ most_max }
    ensures most_quantum { Plan.MOST_QUANTUM ≡ most_quantum }
    ensures least_interval { Plan.LEAST_INTERVAL ≡ least_interval }
    ensures most_interval { Plan.MOST_INTERVAL ≡ most_interval }
    ensures item_head { Plan.ITEM_HEAD ≡ item_head }
    ensures most_store { Plan.MOST_STORE ≡ most_store }
{}

// No early way out of the loop, as `all` has, here and in `counters_ok`: a plan is checked at every call, and nearly always good.
// Both take the quanta out of the plan first, which is quicker than going over them in it.
#[tactic(auto, using(numbers::proofs::Checks::all_more), unfolding(numbers::specs::Checks::all_below))]
fn quanta_ok(p: Plan) -> bool
    requires { p.lines ≤ most_lines }
    ensures { result ≡ all_below (quantum_ok p) p.lines }
{
    let Plan {
        lines,
        max,
        quanta,
        ..
    } = p;
    let mut good = true;
    for q in &quanta[..lines as usize] {
        good &= numbers::in_range(max, *q, Plan::MOST_QUANTUM);
    }
    good
}

// Whether a plan keeps to the table of ranges.
#[tactic(auto, using(numbers::proofs::Checks::from_range), unfolding(crate::specs::Plan::plan_ok))]
pub fn plan_ok(p: Plan) -> bool
    ensures { result ≡ plan_ok p }
{
    numbers::in_range(Plan::LEAST_LINES, p.lines, Plan::MOST_LINES as u32)
        && numbers::in_range(Plan::LEAST_MAX, p.max, Plan::MOST_MAX)
        && numbers::in_range(Plan::LEAST_INTERVAL, p.interval, Plan::MOST_INTERVAL)
        && quanta_ok(p)
}

// Whether `size` bytes a line keep to the table of ranges for a plan.
#[tactic(auto, using(numbers::proofs::Checks::empty_range), unfolding(crate::specs::Plan::store_ok))]
pub fn store_ok(p: Plan, size: u32) -> bool
    ensures { result ≡ store_ok p size }
{
    p.max <= Plan::MOST_STORE && numbers::in_range(p.max + Plan::ITEM_HEAD, size, Plan::MOST_STORE)
}

// Whether each of the plan's lines has a counter of 1 to its quantum.
#[tactic(auto, using(crate::proofs::Laws::counters_many), unfolding(crate::specs::Plan::counters_ok, numbers::specs::Checks::all_below))]
pub fn counters_ok(p: Plan, counters: [u32; Plan::MOST_LINES]) -> bool
    ensures { result ≡ counters_ok p counters }
{
    let Plan { lines, quanta, .. } = p;
    let n = lines as usize;
    if Plan::MOST_LINES < n {
        return false;
    }
    let mut good = true;
    for (c, q) in counters[..n].iter().zip(&quanta[..n]) {
        good &= numbers::in_range(1, *c, *q);
    }
    good
}

// Entry i of sixteen; behind them there are zeros.
pub fn entry(entries: [u32; Plan::MOST_LINES], i: u32) -> u32
    ensures { result ≡ at entries i }
{
    entries.get(i as usize).copied().unwrap_or(0)
}

// A line's plan.
pub fn line_plan(p: Plan, line: u32) -> LinePlan
    ensures { result ≡ line_plan p line }
{
    LinePlan {
        quantum: entry(p.quanta, line),
        largest: p.max,
    }
}

// What a packet of that length is charged on a line.
#[tactic(auto, unfolding(crate::specs::Plan::charge_of))]
pub fn charge(l: LinePlan, length: u32) -> u32
    ensures { result ≡ charge_of l length }
{
    length
}

// The plan of zeros, on which nothing opens.
#[tactic(auto, using(crate::proofs::Laws::all_zeros))]
pub fn no_plan() -> Plan
    ensures { result ≡ no_plan }
{
    Plan::default()
}

// The first n of a line's entries, and zeros from there on.
pub fn first_entries(n: usize, entries: [u32; Plan::MOST_LINES]) -> [u32; Plan::MOST_LINES]
    ensures { result ≡ first_entries n entries }
{
    let mut kept = entries;
    kept[n.min(Plan::MOST_LINES)..].fill(0);
    kept
}

// The plan with zeros from line N on.
pub fn trim(p: Plan) -> Plan
    ensures { result ≡ trimmed p }
{
    Plan {
        quanta: first_entries(p.lines as usize, p.quanta),
        ..p
    }
}
