// The session on paper: a plan and packet lengths as text, a table of the sender's choices as text. Bytes go in as they come, in pieces
// of any size; one line of text makes one line of table. The definitions are in specs/: Session, by bytes; Lines, by lines.
#![tactic(auto)]

ghost use Rattle.std.specs.Prelude.{◌≡◌, ◌++◌, ◌+◌, ◌≤◌, length, drop, if◌then◌else◌};
ghost use Rattle.text.specs.Rows.{row_of};
ghost use Rattle.table.specs.Table.{most_text};
ghost use Rattle.table.specs.Steps.{Stepped};
ghost use Rattle.session.specs.Session.{most_line, begun, heard, line_made, keep_byte, has_ended, ends_line, feed_of, close_of};

use table::{Stage, Step, Table};
use text::Row;

// What is kept from byte to byte: the open line, and how many bytes it has (TOO_LONG: more than are kept). It stands in an array of fixed
// size, with its length beside it, as there is no heap.
#[derive(Clone, Copy)]
pub struct Session {
    pub table: Table,
    pub kept: usize,
    pub line: [u8; Session::MOST_LINE],
}

impl Session {
    // The longest line of text that can be good: a full row, its numbers one space apart.
    pub const MOST_LINE: usize = Row::MOST_NUMBERS * (Row::MOST_DIGITS + 1) - 1;

    // No line of table is longer.
    pub const MOST_TEXT: usize = Table::MOST_TEXT;
}

// What a piece of the text made: the next session, how many bytes were used, and how many were written.
#[derive(Clone, Copy)]
pub struct Fed {
    pub session: Session,
    pub used: usize,
    pub wrote: usize,
}

const TOO_LONG: usize = Session::MOST_LINE + 1;

// The limits are the definitions' numbers.
fn limits()
    ensures most_line { Session.MOST_LINE ≡ most_line }
    ensures most_text { Session.MOST_TEXT ≡ most_text }
{}

// ---- a line

// The numbers of the open line; one that was too long is bad text.
#[tactic(auto, using(crate::proofs::OpenLine::heard_long, crate::proofs::OpenLine::heard_line, std::proofs::lemmas::Slice::between_from_start))]
fn open_row(s: &Session) -> Option<Row>
    ensures { result ≡ row_of (heard s.now.kept s.now.line) }
{
    text::read_row(s.line.get(..s.kept)?)
}

// The open line ends: one line of text makes one line of table.
#[tactic(auto, using(crate::proofs::OpenLine::row_made_lem), unfolding(table::specs::Steps::line_at))]
fn end_line(s: &Session, out: &mut [u8], at: usize) -> Step
    requires { at + most_text ≤ length out.old }
    ensures { Stepped (line_made s.now) at out.old result out.new }
{
    table::line_of(s.table, open_row(s), out, at)
}

// One more byte of the open line; past the longest line only that it is too long is kept.
#[tactic(auto, unfolding(crate::specs::Session::keep_byte))]
fn keep_byte(s: &mut Session, b: u8)
    ensures { s.new ≡ keep_byte s.old b }
{
    if s.kept < Session::MOST_LINE {
        s.line[s.kept] = b;
        s.kept += 1;
    } else {
        s.kept = TOO_LONG;
    }
}

fn has_ended(stage: Stage) -> bool
    ensures { result ≡ has_ended stage }
{
    matches!(stage, Stage::Ended)
}

// Whether the end of the text ends a line, of which so many bytes were kept: no text at all is one blank line.
fn ends_line(stage: Stage, kept: usize) -> bool
    ensures { result ≡ ends_line stage kept }
{
    match stage {
        Stage::PlanToCome => true,
        Stage::Packets => 1 <= kept,
        Stage::Ended => false,
    }
}

// ---- the calls

// A session whose text is to come.
pub fn begin() -> Session
    ensures { result ≡ begun }
{
    Session {
        table: Table {
            stage: Stage::PlanToCome,
            sender: sender::closed(),
            lines: 0,
            packets: 0,
        },
        kept: 0,
        line: [0; Session::MOST_LINE],
    }
}

// Whether a line was refused: no byte of the text makes a difference any more.
pub fn ended(s: Session) -> bool
    ensures { result ≡ has_ended s.table.stage }
{
    has_ended(s.table.stage)
}

// A piece of the text: bytes are used while out has room for a line of table.
pub fn feed(s: Session, bytes: &[u8], out: &mut [u8]) -> Fed
    ensures { let f = feed_of s bytes.now (length out.old) in
        (result.session ≡ f.session) × (result.used ≡ f.used) × (result.wrote ≡ length f.text)
        × (out.new ≡ f.text ++ drop (length f.text) out.old) }
{
    let mut session = s;
    let mut wrote = 0;
    for (used, &b) in bytes.iter().enumerate() {
        if out.len() - wrote < Session::MOST_TEXT {
            return Fed {
                session,
                used,
                wrote,
            };
        }
        if has_ended(session.table.stage) {
            continue;
        }
        // On to the next byte at once: the bytes of a line then have a loop of their own, which is twice as quick on a long line.
        if b != b'\n' {
            keep_byte(&mut session, b);
            continue;
        }
        let step = end_line(&session, out, wrote);
        session.table = step.table;
        session.kept = 0;
        wrote = step.at;
    }
    Fed {
        session,
        used: bytes.len(),
        wrote,
    }
}

// The end of the text: how many bytes were written, or none where out has no room for a line of table.
#[tactic(auto, using(crate::proofs::Feeding::front), unfolding(crate::specs::Session::close_of, crate::specs::Session::end_of))]
pub fn close(s: Session, out: &mut [u8]) -> Option<usize>
    ensures { let f = close_of s (length out.old) in
        (result ≡ (if f.done then Some (length f.text) else None)) × (out.new ≡ f.text ++ drop (length f.text) out.old) }
{
    if out.len() < Session::MOST_TEXT {
        return None;
    }
    if !ends_line(s.table.stage, s.kept) {
        return Some(0);
    }
    Some(end_line(&s, out, 0).at)
}
