// What is printed: a line for each step, with its kind, what was answered in a word and two numbers, a digest of the output where one was lent, and
// three digests of what stands then: the sender, the receiver and the store.
use crate::digest::Digest;
use numbers::Refusal;
use receiving::{Ended, Taken};
use sending::Went;
use std::io;
use std::io::Write;

pub(crate) fn say_kind<W: Write>(printer: &mut W, kind: u32) -> io::Result<()> {
    write!(printer, "{kind}")
}

pub(crate) fn say_digest<W: Write>(printer: &mut W, digest: Digest) -> io::Result<()> {
    write!(printer, " {digest}")
}

// What has nothing to tell but its number is told by it, or by 0: a plan that is read, both openings, an arrival.
pub(crate) fn say_numbers<W: Write>(
    printer: &mut W,
    word: &str,
    first: u32,
    second: u32,
) -> io::Result<()> {
    write!(printer, " {word:7} {first} {second}")
}

fn say_refused<W: Write>(printer: &mut W, refusal: Refusal) -> io::Result<()> {
    say_numbers(printer, "refused", refusal.number(), 0)
}

pub(crate) fn say_sent<W: Write>(printer: &mut W, answer: Result<Went, Refusal>) -> io::Result<()> {
    match answer {
        Ok(Went { line, due }) => write!(printer, " sent    {line} {}", u8::from(due)),
        Err(refusal) => say_refused(printer, refusal),
    }
}

pub(crate) fn say_written<W: Write>(
    printer: &mut W,
    answer: Result<usize, Refusal>,
) -> io::Result<()> {
    match answer {
        Ok(n) => write!(printer, " written {n} 0"),
        Err(refusal) => say_refused(printer, refusal),
    }
}

pub(crate) fn say_taken<W: Write>(
    printer: &mut W,
    answer: Result<Taken, Refusal>,
) -> io::Result<()> {
    match answer {
        Ok(Taken::Waiting(line)) => write!(printer, " waiting {line} 0"),
        Ok(Taken::Data(line, n)) => write!(printer, " packet  {line} {n}"),
        Ok(Taken::Missing(line, missing)) => write!(printer, " missing {line} {missing}"),
        Ok(Taken::Behind(line)) => write!(printer, " behind  {line} 0"),
        Err(refusal) => say_refused(printer, refusal),
    }
}

pub(crate) fn say_takes<W: Write>(
    printer: &mut W,
    taken: usize,
    bytes: usize,
    ended: Result<Ended, Refusal>,
) -> io::Result<()> {
    write!(printer, " takes   {taken} {bytes}")?;
    match ended {
        Ok(Ended::Full) => write!(printer, " full    0 0"),
        Ok(Ended::Waiting(line)) => write!(printer, " waiting {line} 0"),
        Err(refusal) => say_refused(printer, refusal),
    }
}
