// What a marker tells the line that it came on: whether it can be a marker there, and how many bytes are missing before it.
// The definitions are in specs/Report.antt.
#![tactic(auto)]

ghost use Rattle.std.specs.Prelude.{◌≡◌, ◌+◌, ◌-◌, ◌*◌, ◌<◌};
ghost use Rattle.marker.specs.Marker.{judge};
ghost use Rattle.report.specs.Report.{on_checks, marker_on, ahead, report_of};

use marker::Marker;
use numbers::Refusal;

// A marker that holds for a line of that quantum. Refused: 5, 6.
#[tactic(auto, unfolding(marker::specs::Marker::judge))]
fn checked(line: u32, quantum: u32, m: Marker) -> Result<Marker, Refusal>
    ensures { result ≡ judge (on_checks line quantum m) m }
{
    if !numbers::in_range(1, m.counter, quantum) {
        return Err(Refusal::NoMarker);
    }
    if m.line != line {
        return Err(Refusal::OtherLine);
    }
    Ok(m)
}

// Reads the marker that s is, on a line of that quantum. Refused: 5, 6.
#[tactic(auto, unfolding(crate::specs::Report::marker_on))]
pub fn read_on(line: u32, quantum: u32, s: &[u8]) -> Result<Marker, Refusal>
    ensures { result ≡ marker_on line quantum s.now }
{
    checked(line, quantum, marker::read_record(s)?)
}

// How many rounds one is ahead of another.
#[tactic(auto, unfolding(crate::specs::Report::ahead))]
pub fn rounds_ahead(round: u32, from: u32) -> u32
    ensures { result ≡ ahead round from }
{
    round.wrapping_sub(from)
}

// A marker ahead of its line reports whole quanta and what differs in the counters.
fn owed(rounds: u32, quantum: u32, counter: u32, reached: u32) -> u64
    ensures { result ≡ rounds * quantum + counter - reached }
{
    let due = (rounds as u64) * (quantum as u64) + (counter as u64);
    let less = reached as u64;
    if due < less {
        return 0;
    }
    due - less
}

// The bytes missing before a marker, on a line of that quantum, round and counter; nothing where the line has gone past it.
#[tactic(auto, unfolding(crate::specs::Report::report_of))]
pub fn tell(quantum: u32, round: u32, counter: u32, m: Marker) -> Option<u64>
    ensures { result ≡ report_of quantum round counter m }
{
    let rounds = rounds_ahead(m.round, round);
    let behind = 0x8000_0000 <= rounds;
    if behind {
        return None;
    }
    if rounds == 0 {
        if counter < m.counter {
            return None;
        }
    }
    Some(owed(rounds, quantum, counter, m.counter))
}
