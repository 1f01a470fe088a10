// What the stage's driver, written in C, calls: the receiver that it holds. Each export copies the state out, calls one proved function, stores
// the next state back and answers one number by the rule of the crate `answers`, a run of takes three; include/stage.h is the other side. The
// definitions are in specs/Exports.antt.
#![tactic(auto)]

ghost use Rattle.std.specs.Prelude.{◌≡◌};
ghost use Rattle.numbers.specs.Refusals.{number_of};
ghost use Rattle.answers.specs.Answers.{told};
ghost use Rattle.plan_record.specs.Record.{plan_of, plan_read};
ghost use Rattle.receiving.specs.Receiver.{receiver_of, open_receiver};
ghost use Rattle.receiving.specs.Arriving.{data_arrival, marker_arrival};
ghost use Rattle.receiving.specs.Taking.{take_of};
ghost use Rattle.receiving.specs.Takes.{takes_of};
ghost use Rattle.taking.specs.Words.{taken_word};
ghost use Rattle.stage.specs.Exports.{stage_run};

use receiving::Receiver;

// Opens the receiver that C holds, on the plan of a record, with `size` bytes of store for each line: 0, or 256 plus 1 and the closed
// state. A record that is refused reads as an all-zero plan, on which no receiver opens.
#[unsafe(no_mangle)]
pub extern "C" fn stage_open(r: &mut Receiver, bytes: &[u8], size: u32) -> u32
    ensures { (result ≡ told (number_of (open_receiver (plan_of (plan_read bytes.now)) size)))
        × (r.new ≡ receiver_of (open_receiver (plan_of (plan_read bytes.now)) size)) }
{
    let p = plan_record::read_plan(bytes).unwrap_or(plan::no_plan());
    let opened = receiver::open(p, size);
    *r = opened.unwrap_or(receiver::closed());
    answers::told(numbers::number_of(opened))
}

// Data that came on a line: 0 where it is stored, or 256 plus the number of the refusal.
#[unsafe(no_mangle)]
pub extern "C" fn stage_data(r: &mut Receiver, line: u32, bytes: &[u8], store: &mut [u8]) -> u32
    ensures { (result ≡ told (number_of (data_arrival r.old line bytes.now store.old).arrived.answer))
        × (r.new ≡ (data_arrival r.old line bytes.now store.old).arrived.next)
        × (store.new ≡ (data_arrival r.old line bytes.now store.old).store) }
{
    let arrived = receiver::data_arrives(*r, line, bytes, store);
    *r = arrived.next;
    answers::told(numbers::number_of(arrived.answer))
}

// A marker that came on a line: 0 where it is stored, or 256 plus the number of the refusal.
#[unsafe(no_mangle)]
pub extern "C" fn stage_marker(r: &mut Receiver, line: u32, bytes: &[u8], store: &mut [u8]) -> u32
    ensures { (result ≡ told (number_of (marker_arrival r.old line bytes.now store.old).arrived.answer))
        × (r.new ≡ (marker_arrival r.old line bytes.now store.old).arrived.next)
        × (store.new ≡ (marker_arrival r.old line bytes.now store.old).store) }
{
    let arrived = receiver::marker_arrives(*r, line, bytes, store);
    *r = arrived.next;
    answers::told(numbers::number_of(arrived.answer))
}

// The thin take: it updates the receiver that C holds, and answers the take's word.
#[unsafe(no_mangle)]
#[tactic(auto, using(taking::proofs::Words::take_fits))]
pub extern "C" fn stage_take(r: &mut Receiver, store: &[u8], out: &mut [u8]) -> u64
    ensures { (result ≡ taken_word (take_of r.old store.now out.old).result.answer)
        × (r.new ≡ (take_of r.old store.now out.old).result.next)
        × (out.new ≡ (take_of r.old store.now out.old).out) }
{
    let taken = taking::take(*r, store, out);
    *r = taken.next;
    taking::word_of(taken.answer)
}

// What a run of takes answers to C: a word that says why it ended, which is that of the take that stopped it unless the log is full; how many takes
// there were, and how many bytes they wrote.
#[repr(C)]
#[derive(Clone, Copy)]
pub struct StageRun {
    pub why: u64,
    pub taken: usize,
    pub bytes: usize,
}

// A run of takes, until one waits or is refused, or the log is full. Their words are in the log, and their packets one behind another at the front
// of out. Refused: 2, 9 before the log is looked at; by 8 the run ends at a packet that is longer than what is left of out behind the bytes written.
#[unsafe(no_mangle)]
pub extern "C" fn stage_takes(
    r: &mut Receiver,
    store: &[u8],
    out: &mut [u8],
    log: &mut [u64],
) -> StageRun
    ensures { (result ≡ stage_run (takes_of r.old store.now out.old log.old).result)
        × (r.new ≡ (takes_of r.old store.now out.old log.old).result.next)
        × (out.new ≡ (takes_of r.old store.now out.old log.old).out)
        × (log.new ≡ (takes_of r.old store.now out.old log.old).log) }
{
    let run = taking::take_run(*r, store, out, log);
    *r = run.next;
    StageRun {
        why: taking::ended_word(run.ended),
        taken: run.taken,
        bytes: run.bytes,
    }
}
