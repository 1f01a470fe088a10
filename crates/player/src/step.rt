// A step of a recording: its kind, three numbers, and a row of bytes with its length in front. Numbers that a kind has no use for are 0.
ghost use Rattle.std.specs.Prelude.{◌≤◌, ◌<◌, length, IfSome};

use crate::figures::Figure;

// What a step asks for. A size above what there is stands for all there is.
#[derive(Clone, Copy)]
pub enum Call<'a> {
    // Both ends open on a plan's record.
    OpenOnRecord {
        record: &'a [u8],
        size: u32,
    },
    // Both ends open on the plan that the sender holds.
    OpenOnPlan {
        size: u32,
    },
    // A packet is sent.
    Send {
        length: usize,
    },
    // A marker is asked for, into so many bytes of the output.
    WriteMarker {
        line: u32,
        room: usize,
    },
    // The sender's plan is written, into so many.
    WritePlan {
        room: usize,
    },
    // A figure of the sender's state is set.
    SetSender(Figure),
    // Data arrives, whose bytes follow from its number (calls.rt has the rule).
    DataArrives {
        line: u32,
        number: u32,
        length: usize,
    },
    // The bytes arrive as a marker.
    MarkerArrives {
        line: u32,
        marker: &'a [u8],
    },
    // A take, into so many bytes of the output.
    Take {
        room: usize,
    },
    // A run of takes, with a log of so many words.
    TakeRun {
        room: usize,
        words: usize,
    },
    // A figure of the receiver's state is set.
    SetReceiver(Figure),
    // A byte of the store is set.
    SetStore {
        place: usize,
        value: u8,
    },
    // So many bytes of the store are lent from here on.
    Lend {
        length: usize,
    },
}

// The number of its kind, which is printed as it was read, and what it asks for.
#[derive(Clone, Copy)]
pub struct Step<'a> {
    pub kind: u32,
    pub call: Call<'a>,
}

// The call of a kind, where there is one.
fn call_of(kind: u32, a: u32, b: u32, c: u32, bytes: &[u8]) -> Option<Call<'_>> {
    let figure = Figure {
        row: a,
        line: b as usize,
        value: c,
    };
    Some(match kind {
        0 => Call::OpenOnRecord {
            record: bytes,
            size: a,
        },
        1 => Call::OpenOnPlan { size: a },
        2 => Call::Send { length: a as usize },
        3 => Call::WriteMarker {
            line: a,
            room: b as usize,
        },
        4 => Call::WritePlan { room: b as usize },
        5 => Call::SetSender(figure),
        6 => Call::DataArrives {
            line: a,
            number: b,
            length: c as usize,
        },
        7 => Call::MarkerArrives {
            line: a,
            marker: bytes,
        },
        8 => Call::Take { room: a as usize },
        9 => Call::TakeRun {
            room: a as usize,
            words: b as usize,
        },
        10 => Call::SetReceiver(figure),
        11 => Call::SetStore {
            place: a as usize,
            value: (b % 256) as u8,
        },
        12 => Call::Lend { length: a as usize },
        _ => return None,
    })
}

// The step at a place of the input, and the place after it.
#[tactic(auto, using(recording::proofs::Laws::part_within))]
pub(crate) fn step_at(input: &[u8], at: usize) -> Option<(Step<'_>, usize)>
    ensures onward { IfSome result (λ r. at < r.1) }
    ensures within { IfSome result (λ r. r.1 ≤ length input.now) }
{
    let (kind, after) = recording::number_at(input, at)?;
    let (a, after) = recording::number_at(input, after)?;
    let (b, after) = recording::number_at(input, after)?;
    let (c, after) = recording::number_at(input, after)?;
    let bytes = recording::part_at(input, after)?;
    let end = bytes.end;
    let call = call_of(kind, a, b, c, &input[bytes])?;
    Some((Step { kind, call }, end))
}
