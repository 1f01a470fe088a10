// What the booth's driver, written in C, sees: the readers and writers of numbers, plans and markers, on numbers and byte slices, and the sender that
// it holds for each bundle. Each export calls the proved function and turns its answer into one number, by the rule of the crate `answers`;
// include/booth.h is the other side. The definitions are in specs/Exports.antt.
#![tactic(auto)]

ghost use Rattle.std.specs.Prelude.{◌≡◌, ◌<◌, ◌^◌};
ghost use Rattle.numbers.specs.Refusals.{number_of};
ghost use Rattle.numbers.specs.Coding.{reading_of, coded};
ghost use Rattle.numbers.specs.Writing.{length_of, written};
ghost use Rattle.answers.specs.Answers.{told};
ghost use Rattle.plan_record.specs.Record.{plan_of, plan_read, plan_written};
ghost use Rattle.marker.specs.Marker.{marker_of, marker_read, marker_written};
ghost use Rattle.sending.specs.Sender.{sender_of, open_sender, send_of, marker_from};
ghost use Rattle.booth.specs.Exports.{exported, exported_reading, exported_marker, copied, exported_sent};

use marker::Marker;
use numbers::Refusal;
use plan::Plan;
use sending::{Sender, Went};

// A writer's answer as C gets it.
#[tactic(auto, using(numbers::proofs::Checks::small))]
fn code_of(w: Result<usize, Refusal>) -> u32
    requires { length_of w < 256 }
    ensures { result ≡ exported w }
{
    match w {
        Ok(n) => n as u32,
        Err(refusal) => 256 + refusal.number(),
    }
}

// The standalone marker writer: the length written, or 256 plus the number of the refusal.
#[unsafe(no_mangle)]
#[tactic(auto, using(crate::proofs::Small::written_short))]
pub extern "C" fn stripes_write_marker(line: u32, round: u32, counter: u32, out: &mut [u8]) -> u32
    ensures { (result ≡ exported (marker_written (marker_of line round counter) out.old).answer)
        × (out.new ≡ (marker_written (marker_of line round counter) out.old).out) }
{
    let m = Marker {
        line,
        round,
        counter,
    };
    code_of(marker::write_marker(m, out))
}

// The number at the front of s: the place after it, with the number in the upper 32 bits, or 256 plus 5 where there is none.
#[unsafe(no_mangle)]
#[tactic(auto, using(crate::proofs::Words::reading_place))]
pub extern "C" fn stripes_read_number(s: &[u8]) -> u64
    ensures { result ≡ exported_reading (reading_of 32 s.now) }
{
    let Some((v, at)) = numbers::read_number(s) else {
        return 256 + Refusal::NoMarker.number() as u64;
    };
    at as u64 + 4_294_967_296 * v as u64
}

// Writes a number to the front of out: the length written, or 256 plus the number of the refusal.
#[unsafe(no_mangle)]
#[tactic(auto, using(crate::proofs::Small::value_short))]
pub extern "C" fn stripes_write_number(value: u32, out: &mut [u8]) -> u32
    ensures { (result ≡ exported (written (coded 32 value) out.old).answer)
        × (out.new ≡ (written (coded 32 value) out.old).out) }
{
    code_of(numbers::write_number(value, out))
}

// The standalone reading of a marker: line, counter and round side by side, with bit 8 between line and counter clear, or 256 plus the number of the
// refusal.
#[unsafe(no_mangle)]
#[tactic(auto, using(marker::proofs::Laws::read_in_range))]
pub extern "C" fn stripes_read_marker(s: &[u8]) -> u64
    ensures { result ≡ exported_marker (marker_read s.now) }
{
    match marker::read_marker(s) {
        Ok(m) => m.line as u64 + 512 * m.counter as u64 + 4_294_967_296 * m.round as u64,
        Err(refusal) => 256 + refusal.number() as u64,
    }
}

// The plan check: 0 for a record that reads, else the number of the refusal.
#[unsafe(no_mangle)]
pub extern "C" fn stripes_check_plan(s: &[u8]) -> u32
    ensures { result ≡ number_of (plan_read s.now) }
{
    numbers::number_of(plan_record::read_plan(s))
}

// Writes the record of the plan that C holds to the front of out: the length written, or 256 plus the number of the refusal.
#[unsafe(no_mangle)]
#[tactic(auto, using(crate::proofs::Small::plan_short))]
pub extern "C" fn stripes_write_plan(p: &Plan, out: &mut [u8]) -> u32
    ensures { (result ≡ exported (plan_written p.now out.old).answer)
        × (out.new ≡ (plan_written p.now out.old).out) }
{
    code_of(plan_record::write_plan(*p, out))
}

// Reads a record into the plan that C holds: 0, or 256 plus the number of the refusal and an all-zero plan.
#[unsafe(no_mangle)]
pub extern "C" fn stripes_read_plan(p: &mut Plan, bytes: &[u8]) -> u32
    ensures { (result ≡ told (number_of (plan_read bytes.now))) × (p.new ≡ plan_of (plan_read bytes.now)) }
{
    let read = plan_record::read_plan(bytes);
    *p = read.unwrap_or(plan::no_plan());
    answers::told(numbers::number_of(read))
}

// Reads a plan record and writes that plan to the front of out: the length written, or 256 plus the number of the refusal. A record that is
// refused reads as an all-zero plan, which no writer takes.
#[unsafe(no_mangle)]
#[tactic(auto, using(crate::proofs::Small::plan_short))]
pub extern "C" fn stripes_copy_plan(s: &[u8], out: &mut [u8]) -> u32
    ensures { (result ≡ exported (copied s.now out.old).answer)
        × (out.new ≡ (copied s.now out.old).out) }
{
    let p = plan_record::read_plan(s).unwrap_or(plan::no_plan());
    code_of(plan_record::write_plan(p, out))
}

// A send's answer as C gets it.
fn sent_code(answer: Result<Went, Refusal>) -> u32
    requires { exported_sent answer < 2 ^ 32 }
    ensures { result ≡ exported_sent answer }
{
    match answer {
        Ok(went) => went.line + if went.due { 16 } else { 0 },
        Err(refusal) => code_of(Err(refusal)),
    }
}

// The thin send: it updates the sender that C holds. The line in the low four bits, 16 added when markers are due, or 256 plus the number of
// the refusal.
#[unsafe(no_mangle)]
#[tactic(auto, using(crate::proofs::Small::sent_fits))]
pub extern "C" fn stripes_send(s: &mut Sender, length: usize) -> u32
    ensures { (result ≡ exported_sent (send_of s.old length).answer) × (s.new ≡ (send_of s.old length).next) }
{
    let sent = sender::send(*s, length);
    *s = sent.next;
    sent_code(sent.answer)
}

// Opens the sender that C holds, on the plan of a record: 0, or 256 plus the number of the refusal and the closed state. A record that is refused
// reads as an all-zero plan, on which no sender opens.
#[unsafe(no_mangle)]
pub extern "C" fn stripes_open(s: &mut Sender, bytes: &[u8]) -> u32
    ensures { (result ≡ told (number_of (open_sender (plan_of (plan_read bytes.now)))))
        × (s.new ≡ sender_of (open_sender (plan_of (plan_read bytes.now)))) }
{
    let p = plan_record::read_plan(bytes).unwrap_or(plan::no_plan());
    let opened = sender::open(p);
    *s = opened.unwrap_or(sender::closed());
    answers::told(numbers::number_of(opened))
}

// Writes a marker with a line's figures from the sender that C holds: the length written, or 256 plus the number of the refusal.
#[unsafe(no_mangle)]
#[tactic(auto, using(crate::proofs::Small::asked_short))]
pub extern "C" fn stripes_marker(s: &Sender, line: u32, out: &mut [u8]) -> u32
    ensures { (result ≡ exported (marker_from s.now line out.old).answer)
        × (out.new ≡ (marker_from s.now line out.old).out) }
{
    code_of(sender::marker_from(*s, line, out))
}
