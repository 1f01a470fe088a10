// The plan's record, as it is pasted at both ends: reading and writing it. The definitions are in specs/Record.antt.
#![tactic(auto)]

ghost use Rattle.std.specs.Prelude.{◌≡◌, ◌≤◌, ◌∷◌};
ghost use Rattle.numbers.specs.Coding.{reading_of};
ghost use Rattle.plan.specs.Limits.{most_lines};
ghost use Rattle.plan_record.specs.Record.{within, quanta_read, plan_read, plan_written};

use numbers::Refusal;
use plan::Plan;

// The numbers of a plan's record: three, and a quantum for each line.
const ROW: usize = Plan::MOST_LINES + 3;

// Reads a number from low to high; another one is nothing.
fn read_within(s: &[u8], low: u32, high: u32) -> Option<(u32, usize)>
    ensures { result ≡ within low high (reading_of 32 s.now) }
{
    let (v, n) = numbers::read_number(s)?;
    if numbers::in_range(low, v, high) {
        return Some((v, n));
    }
    None
}

// Reads the quanta of p's lines, which are all of s. That they are few is a clause: no plan stands here yet that could keep it.
#[tactic(auto, using(numbers::proofs::Laws::number_by_number, crate::proofs::Laws::quantum_by_quantum))]
fn read_quanta(s: &[u8], p: Plan) -> Result<Plan, Refusal>
    requires { p.lines ≤ most_lines }
    ensures { result ≡ quanta_read p.lines 0 p s.now }
{
    let mut plan = p;
    let mut at = 0;
    for i in 0..p.lines as usize {
        let Some((quantum, length)) = read_within(&s[at..], p.max, Plan::MOST_QUANTUM) else {
            return Err(Refusal::Plan);
        };
        plan.quanta[i] = quantum;
        at += length;
    }
    if at < s.len() {
        return Err(Refusal::Plan);
    }
    Ok(plan)
}

// Reads the plan record that s is. Refused: 1.
#[tactic(auto, using(numbers::proofs::Laws::number_by_number, numbers::proofs::Checks::from_range, crate::proofs::Laws::kept), unfolding(crate::specs::Record::plan_read))]
pub fn read_plan(s: &[u8]) -> Result<Plan, Refusal>
    ensures { result ≡ plan_read s.now }
{
    let Some((lines, a)) = read_within(s, Plan::LEAST_LINES, Plan::MOST_LINES as u32) else {
        return Err(Refusal::Plan);
    };
    let after_lines = &s[a..];
    let Some((max, b)) = read_within(after_lines, Plan::LEAST_MAX, Plan::MOST_MAX) else {
        return Err(Refusal::Plan);
    };
    let after_max = &after_lines[b..];
    let Some((interval, c)) = read_within(after_max, Plan::LEAST_INTERVAL, Plan::MOST_INTERVAL)
    else {
        return Err(Refusal::Plan);
    };
    let p = Plan {
        lines,
        max,
        interval,
        quanta: [0; Plan::MOST_LINES],
    };
    read_quanta(&after_max[c..], p)
}

// All of a plan's numbers in the record's order, the entries from `lines` on among them.
fn whole_row(lines: u32, max: u32, interval: u32, quanta: [u32; Plan::MOST_LINES]) -> [u32; ROW]
    ensures { result ≡ lines ∷ max ∷ interval ∷ quanta }
{
    let mut row = [0; ROW];
    row[..3].copy_from_slice(&[lines, max, interval]);
    row[3..].copy_from_slice(&quanta);
    row
}

// Writes p's record to the front of out. Refused: 1, 8.
#[tactic(auto, using(crate::proofs::Laws::as_a_row))]
pub fn write_plan(p: Plan, out: &mut [u8]) -> Result<usize, Refusal>
    ensures { (result ≡ (plan_written p out.old).answer) × (out.new ≡ (plan_written p out.old).out) }
{
    if !plan::plan_ok(p) {
        return Err(Refusal::Plan);
    }
    let quanta = p.quanta;
    let row = whole_row(p.lines, p.max, p.interval, quanta);
    let n = p.lines as usize + 3;
    numbers::write_row(&row[..n], out)
}
