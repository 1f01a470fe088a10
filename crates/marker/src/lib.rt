// The marker record: a line's number, and its round and counter as the sender had them. The layout by itself is read and
// written by `read_record` and `write_record`; the standalone calls add the ranges that hold for any plan.
// The definitions are in specs/Marker.antt.
#![tactic(auto)]

ghost use Rattle.std.specs.Prelude.{◌≡◌};
ghost use Rattle.numbers.specs.declared.Refusal.TheVariants as refusal;
ghost use Rattle.numbers.specs.Checks.{passed, check};
ghost use Rattle.numbers.specs.Writing.{written};
ghost use Rattle.marker.specs.Marker.{marker_bytes, record_read, line_ok, counter_ok, judge, read_checks, marker_read, marker_written};

use numbers::Refusal;
use plan::Plan;

#[derive(Clone, Copy)]
pub struct Marker {
    pub line: u32,
    pub round: u32,
    pub counter: u32,
}

// Reads the three numbers that s is. Refused: 5.
#[tactic(auto, using(numbers::proofs::Laws::number_by_number), unfolding(crate::specs::Marker::record_read))]
pub fn read_record(s: &[u8]) -> Result<Marker, Refusal>
    ensures { result ≡ record_read s.now }
{
    let Some((line, a)) = numbers::read_number(s) else {
        return Err(Refusal::NoMarker);
    };
    let after_line = &s[a..];
    let Some((round, b)) = numbers::read_number(after_line) else {
        return Err(Refusal::NoMarker);
    };
    let after_round = &after_line[b..];
    let Some((counter, c)) = numbers::read_number(after_round) else {
        return Err(Refusal::NoMarker);
    };
    let over = c < after_round.len();
    if over {
        return Err(Refusal::NoMarker);
    }
    Ok(Marker {
        line,
        round,
        counter,
    })
}

// Writes a marker's three numbers to the front of out. Refused: 8.
pub fn write_record(m: Marker, out: &mut [u8]) -> Result<usize, Refusal>
    ensures { (result ≡ (written (marker_bytes m) out.old).answer) × (out.new ≡ (written (marker_bytes m) out.old).out) }
{
    let row = [m.line, m.round, m.counter];
    numbers::write_row(&row, out)
}

// A line that there is in some plan. Refused: 3.
fn check_line(m: Marker) -> Result<(), Refusal>
    ensures { result ≡ check (line_ok m) refusal.Line passed }
{
    if Plan::MOST_LINES <= m.line as usize {
        return Err(Refusal::Line);
    }
    Ok(())
}

// A counter of some plan. Refused: 5.
fn check_counter(m: Marker) -> Result<(), Refusal>
    ensures { result ≡ check (counter_ok m) refusal.NoMarker passed }
{
    if !numbers::in_range(1, m.counter, Plan::MOST_QUANTUM) {
        return Err(Refusal::NoMarker);
    }
    Ok(())
}

// A marker whose numbers hold for some plan. Refused: 5, 3.
#[tactic(auto, unfolding(crate::specs::Marker::judge))]
fn checked(m: Marker) -> Result<Marker, Refusal>
    ensures { result ≡ judge (read_checks m) m }
{
    check_counter(m)?;
    check_line(m)?;
    Ok(m)
}

// Reads the marker that s is, of whatever plan. Refused: 5, 3.
#[tactic(auto, unfolding(crate::specs::Marker::marker_read))]
pub fn read_marker(s: &[u8]) -> Result<Marker, Refusal>
    ensures { result ≡ marker_read s.now }
{
    checked(read_record(s)?)
}

// Writes a marker, of whatever plan, to the front of out. Refused: 3, 5, 8.
#[tactic(auto, unfolding(crate::specs::Marker::marker_written, numbers::specs::Writing::outcome))]
pub fn write_marker(m: Marker, out: &mut [u8]) -> Result<usize, Refusal>
    ensures { (result ≡ (marker_written m out.old).answer) × (out.new ≡ (marker_written m out.old).out) }
{
    check_line(m)?;
    check_counter(m)?;
    write_record(m, out)
}
