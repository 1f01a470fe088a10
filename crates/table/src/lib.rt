// A line of table: the numbers of a line of text in, the sender's choice out as text. The definitions are in specs/: Table; Steps for what
// a row of numbers makes.
#![tactic(auto)]

ghost use Rattle.std.specs.Prelude.{◌≡◌, ◌+◌, ◌<◌, ◌≤◌, length, if◌then◌else◌, slice_index};
ghost use Rattle.numbers.specs.Refusals.{number};
ghost use Rattle.plan.specs.Limits.{most_lines, most_max, most_quantum};
ghost use Rattle.text.specs.Printing.{Put};
ghost use Rattle.table.specs.Table as spec;
ghost use Rattle.table.specs.Table.{most_text, row, refused_text, refused_at, sent_line};
ghost use Rattle.table.specs.Steps.{entry_text, Makes, plan_from, plan_made, packet_made, row_made, SteppedWhereRoom};

use numbers::Refusal;
use plan::Plan;
use sending::{Sender, Went};
use std::array;
use text::Row;

// The first line is the plan, every other a packet, and a refusal ends the table.
#[derive(Clone, Copy)]
pub enum Stage {
    PlanToCome,
    Packets,
    Ended,
}

// What is kept from line to line.
#[derive(Clone, Copy)]
pub struct Table {
    pub stage: Stage,
    pub sender: Sender,
    pub lines: u64,
    pub packets: u64,
}

impl Table {
    // No line of table is longer. (The longest, a packet's row, has 50 bytes.)
    pub const MOST_TEXT: usize = 64;
}

// What a line made: the next table, and the place after its text in the output.
#[derive(Clone, Copy)]
pub struct Step {
    pub table: Table,
    pub at: usize,
}

// N, Max and K stand before the quanta.
const BEFORE_QUANTA: usize = 3;

const PLAN_NUMBERS: usize = BEFORE_QUANTA + Plan::MOST_LINES;

// The limits are the definitions' numbers, and a row holds the longest plan.
fn limits()
    ensures most_text { Table.MOST_TEXT ≡ most_text }
    ensures most_numbers { Row.MOST_NUMBERS ≡ PLAN_NUMBERS }
{}

// What a packet's row says: the figures of its line are those before the send.
#[derive(Clone, Copy)]
struct PacketRow {
    number: u64,
    size: u64,
    line: u32,
    round: u32,
    counter: u32,
    due: bool,
}

// What a line of table says: the plan's header, a packet's row, the number of a refusal and its line of text, or nothing behind a refusal.
#[derive(Clone, Copy)]
enum Entry {
    Nothing,
    Header,
    Packet(PacketRow),
    Refused(Refusal, u64),
}

// ---- the text of a line of table

// M where markers are due, else a dash.
fn mark(due: bool) -> u8
    ensures { result ≡ (if due then 77 else 45) }
{
    if due { b'M' } else { b'-' }
}

// Writes a packet's row.
fn put_row(p: PacketRow, out: &mut [u8], at: usize) -> usize
    requires { at + length (row p.number p.size p.line p.round p.counter p.due) ≤ length out.old }
    ensures { Put (row p.number p.size p.line p.round p.counter p.due) at out.old result out.new }
{
    let after_number = text::put_spaced(p.number, out, at);
    let after_size = text::put_spaced(p.size, out, after_number);
    let after_line = text::put_spaced(p.line as u64, out, after_size);
    let after_round = text::put_spaced(p.round as u64, out, after_line);
    let after_counter = text::put_spaced(p.counter as u64, out, after_round);
    text::put_text(&[mark(p.due), b'\n'], out, after_counter)
}

// Writes that a line was refused.
fn put_refused(number: u32, line: u64, out: &mut [u8], at: usize) -> usize
    requires { at + length (refused_text number line) ≤ length out.old }
    ensures { Put (refused_text number line) at out.old result out.new }
{
    let after_word = text::put_text(b"refused ", out, at);
    let after_number = text::put_spaced(number as u64, out, after_word);
    let after_line = text::put_decimal(line, out, after_number);
    text::put_text(b"\n", out, after_line)
}

// Writes a line of table.
#[tactic(auto, unfolding(text::specs::Printing::placed))]
fn put(entry: Entry, out: &mut [u8], at: usize) -> usize
    requires { at + length (entry_text entry) ≤ length out.old }
    ensures { Put (entry_text entry) at out.old result out.new }
{
    match entry {
        Entry::Nothing => at,
        Entry::Header => text::put_text(b"no len ch round before due\n", out, at),
        Entry::Packet(p) => put_row(p, out, at),
        Entry::Refused(refusal, line) => put_refused(refusal.number(), line, out, at),
    }
}

// ---- what a line makes: the next table, and what its line of table says

// The number, or the largest of 32 bits.
fn narrow(v: u64) -> u32
    ensures { result ≡ spec.narrow v }
{
    u32::try_from(v).unwrap_or(u32::MAX)
}

// The plan that the numbers of a row are.
fn plan_from(values: [u64; Row::MOST_NUMBERS]) -> Plan
    ensures { result ≡ plan_from values }
{
    Plan {
        lines: narrow(values[0]),
        max: narrow(values[1]),
        interval: narrow(values[2]),
        quanta: array::from_fn(|i| narrow(values[BEFORE_QUANTA + i])),
    }
}

#[tactic(auto, using(crate::proofs::Printing::refused_size), unfolding(crate::specs::Table::refused_at))]
fn refuse(t: Table, refusal: Refusal) -> (Table, Entry)
    ensures { Makes (refused_at t (number refusal)) result }
{
    let lines = t.lines.wrapping_add(1);
    let table = Table {
        stage: Stage::Ended,
        lines,
        ..t
    };
    (table, Entry::Refused(refusal, lines))
}

// The plan is opened, and the table begins with its header.
#[tactic(auto, unfolding(crate::specs::Steps::plan_made, sending::specs::Sender::open_sender))]
fn plan_line(t: Table, row: Row) -> (Table, Entry)
    ensures { Makes (plan_made t row) result }
{
    let p = plan_from(row.values);
    let Ok(sender) = sender::open(p) else {
        return refuse(t, Refusal::Plan);
    };
    if row.count != BEFORE_QUANTA + p.lines as usize {
        return refuse(t, Refusal::Plan);
    }
    let table = Table {
        stage: Stage::Packets,
        sender,
        lines: t.lines.wrapping_add(1),
        ..t
    };
    (table, Entry::Header)
}

// A packet of n bytes went to a line: its row has the figures before the send.
fn went(t: Table, n: u64, next: Sender, to: Went) -> (Table, Entry)
    requires { (to.line < most_lines) × (n ≤ most_max) × (slice_index t.sender.counters to.line ≤ most_quantum) }
    ensures { Makes (sent_line t n next (Ok to)) result }
{
    let Went { line, due } = to;
    let i = line as usize;
    let packet = PacketRow {
        number: t.packets.wrapping_add(1),
        size: n,
        line,
        round: t.sender.rounds[i],
        counter: t.sender.counters[i],
        due,
    };
    let table = Table {
        stage: Stage::Packets,
        sender: next,
        lines: t.lines.wrapping_add(1),
        packets: packet.number,
    };
    (table, Entry::Packet(packet))
}

// A packet is sent.
#[tactic(auto, unfolding(crate::specs::Steps::packet_made))]
fn packet_line(t: Table, row: Row) -> (Table, Entry)
    ensures { Makes (packet_made t row) result }
{
    if row.count != 1 {
        return refuse(t, Refusal::Plan);
    }
    let n = row.values[0];
    let sent = sender::send(t.sender, n as usize);
    match sent.answer {
        Ok(to) => went(t, n, sent.next, to),
        Err(refusal) => refuse(t, refusal),
    }
}

// By the stage; no row of numbers is bad text.
#[tactic(auto, unfolding(crate::specs::Steps::row_made))]
fn row_made(t: Table, row: Option<Row>) -> (Table, Entry)
    ensures { Makes (row_made t row) result }
{
    match (t.stage, row) {
        (Stage::Ended, _) => (t, Entry::Nothing),
        (_, None) => refuse(t, Refusal::Plan),
        (Stage::PlanToCome, Some(row)) => plan_line(t, row),
        (Stage::Packets, Some(row)) => packet_line(t, row),
    }
}

// One line of text, of which this is the row of numbers (none: bad text), makes one line of table from a place of out on. Where out has
// no room for the longest, nothing changes: the answer is the table and the place that were given.
#[tactic(auto, unfolding(crate::specs::Steps::line_at))]
pub fn line_of(t: Table, row: Option<Row>, out: &mut [u8], at: usize) -> Step
    ensures { SteppedWhereRoom t (row_made t row) at out.old result out.new }
{
    if out.len().saturating_sub(at) < Table::MOST_TEXT {
        return Step { table: t, at };
    }
    let (table, entry) = row_made(t, row);
    Step {
        table,
        at: put(entry, out, at),
    }
}
