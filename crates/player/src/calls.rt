// Every call of the two ends. Each says what was answered, and leaves both ends as they stand after it.
use crate::digest::Digest;
use crate::step::{Call, Step};
use crate::{figures, text};
use plan::Plan;
use receiving::Receiver;
use sending::Sender;
use std::io;
use std::io::Write;

const MOST_STORE: usize = 5_000;

const MOST_DATA: usize = 1_024;

// An output and a log hold 9s before a call, so that a byte or a word written shows.
const MOST_OUTPUT: usize = 2_048;

const MOST_WORDS: usize = 64;

// Both ends, the store, and how many of its bytes are lent to a call.
#[derive(Clone, Copy)]
pub struct Ends {
    sender: Sender,
    receiver: Receiver,
    store: [u8; MOST_STORE],
    lent: usize,
}

// The bytes of the data of a number: the first is the number, each is 7 more than the one before, modulo 256.
fn data_bytes(number: u32) -> [u8; MOST_DATA] {
    let mut bytes = [0; MOST_DATA];
    let mut next = (number % 256) as u8;
    for byte in bytes.iter_mut() {
        *byte = next;
        next = next.wrapping_add(7);
    }
    bytes
}

impl Ends {
    // The store holds 9s at first.
    pub(crate) fn closed() -> Ends {
        Ends {
            sender: sender::closed(),
            receiver: receiver::closed(),
            store: [9; MOST_STORE],
            lent: 0,
        }
    }

    // The bytes of the store that are lent.
    fn lent(&mut self) -> &mut [u8] {
        let n = self.lent.min(self.store.len());
        &mut self.store[..n]
    }

    fn open<W: Write>(&mut self, printer: &mut W, p: Plan, size: u32) -> io::Result<()> {
        let booth = sender::open(p);
        let stage = receiver::open(p, size);
        self.sender = booth.unwrap_or(sender::closed());
        self.receiver = stage.unwrap_or(receiver::closed());
        text::say_numbers(
            printer,
            "opened",
            numbers::number_of(booth),
            numbers::number_of(stage),
        )
    }

    fn open_on_record<W: Write>(
        &mut self,
        printer: &mut W,
        record: &[u8],
        size: u32,
    ) -> io::Result<()> {
        let read = plan_record::read_plan(record);
        text::say_numbers(printer, "plan", numbers::number_of(read), 0)?;
        self.open(printer, read.unwrap_or(plan::no_plan()), size)
    }

    fn send<W: Write>(&mut self, printer: &mut W, length: usize) -> io::Result<()> {
        let sent = sender::send(self.sender, length);
        self.sender = sent.next;
        text::say_sent(printer, sent.answer)
    }

    fn write_marker<W: Write>(&self, printer: &mut W, line: u32, room: usize) -> io::Result<()> {
        let mut out = [9; MOST_OUTPUT];
        let n = room.min(MOST_OUTPUT);
        text::say_written(
            printer,
            sender::marker_from(self.sender, line, &mut out[..n]),
        )?;
        text::say_digest(printer, Digest::of(&out))
    }

    fn write_plan<W: Write>(&self, printer: &mut W, room: usize) -> io::Result<()> {
        let mut out = [9; MOST_OUTPUT];
        let n = room.min(MOST_OUTPUT);
        text::say_written(
            printer,
            plan_record::write_plan(self.sender.plan, &mut out[..n]),
        )?;
        text::say_digest(printer, Digest::of(&out))
    }

    fn data_arrives<W: Write>(
        &mut self,
        printer: &mut W,
        line: u32,
        number: u32,
        length: usize,
    ) -> io::Result<()> {
        let data = data_bytes(number);
        let n = length.min(MOST_DATA);
        let arrived = receiver::data_arrives(self.receiver, line, &data[..n], self.lent());
        self.receiver = arrived.next;
        text::say_numbers(printer, "arrived", numbers::number_of(arrived.answer), 0)
    }

    fn marker_arrives<W: Write>(
        &mut self,
        printer: &mut W,
        line: u32,
        marker: &[u8],
    ) -> io::Result<()> {
        let arrived = receiver::marker_arrives(self.receiver, line, marker, self.lent());
        self.receiver = arrived.next;
        text::say_numbers(printer, "arrived", numbers::number_of(arrived.answer), 0)
    }

    fn take<W: Write>(&mut self, printer: &mut W, room: usize) -> io::Result<()> {
        let mut out = [9; MOST_OUTPUT];
        let n = room.min(MOST_OUTPUT);
        let taken = taking::take(self.receiver, self.lent(), &mut out[..n]);
        self.receiver = taken.next;
        text::say_taken(printer, taken.answer)?;
        text::say_digest(printer, Digest::of(&out))
    }

    fn take_run<W: Write>(&mut self, printer: &mut W, room: usize, words: usize) -> io::Result<()> {
        let mut out = [9; MOST_OUTPUT];
        let mut log = [9u64; MOST_WORDS];
        let n = room.min(MOST_OUTPUT);
        let m = words.min(MOST_WORDS);
        let run = taking::take_run(self.receiver, self.lent(), &mut out[..n], &mut log[..m]);
        self.receiver = run.next;
        text::say_takes(printer, run.taken, run.bytes, run.ended)?;
        text::say_digest(printer, Digest::of(&log))?;
        text::say_digest(printer, Digest::of(&out))
    }

    // A byte of what is lent of the store; nothing past its end.
    fn set_store(&mut self, place: usize, value: u8) {
        if let Some(byte) = self.lent().get_mut(place) {
            *byte = value;
        }
    }

    fn call<W: Write>(&mut self, printer: &mut W, call: Call) -> io::Result<()> {
        match call {
            Call::OpenOnRecord { record, size } => self.open_on_record(printer, record, size)?,
            Call::OpenOnPlan { size } => self.open(printer, self.sender.plan, size)?,
            Call::Send { length } => self.send(printer, length)?,
            Call::WriteMarker { line, room } => self.write_marker(printer, line, room)?,
            Call::WritePlan { room } => self.write_plan(printer, room)?,
            Call::SetSender(figure) => figures::set_sender(&mut self.sender, figure),
            Call::DataArrives {
                line,
                number,
                length,
            } => self.data_arrives(printer, line, number, length)?,
            Call::MarkerArrives { line, marker } => self.marker_arrives(printer, line, marker)?,
            Call::Take { room } => self.take(printer, room)?,
            Call::TakeRun { room, words } => self.take_run(printer, room, words)?,
            Call::SetReceiver(figure) => figures::set_receiver(&mut self.receiver, figure),
            Call::SetStore { place, value } => self.set_store(place, value),
            Call::Lend { length } => self.lent = length,
        }
        Ok(())
    }

    // What a step left.
    fn say_left<W: Write>(&self, printer: &mut W) -> io::Result<()> {
        text::say_digest(printer, figures::of_sender(&self.sender))?;
        text::say_digest(printer, figures::of_receiver(&self.receiver))?;
        text::say_digest(printer, Digest::of(&self.store))?;
        writeln!(printer)
    }

    // One step, on a line of its own.
    pub(crate) fn play<W: Write>(&mut self, printer: &mut W, step: &Step) -> io::Result<()> {
        text::say_kind(printer, step.kind)?;
        self.call(printer, step.call)?;
        self.say_left(printer)
    }
}
