// The session on paper as a program: standard input, of any length, through a session, to standard output. Everything that matters is in
// the crate session; the memory is the same for any length of text.
#![tactic(auto)]

use session::Session;
use std::io;
use std::io::{Read, Write};

// How much is read or written at once, at the most.
const PIECE: usize = 65_536;

// Feeds all of a piece, and writes what it makes. A turn uses as much as the session says, so there is nothing for a `for` to go over.
fn pass<W: Write>(s: &mut Session, bytes: &[u8], output: &mut W) -> io::Result<()> {
    let mut out = [0u8; PIECE];
    let mut left = bytes;
    while !left.is_empty() {
        let fed = session::feed(*s, left, &mut out);
        *s = fed.session;
        left = &left[fed.used..];
        output.write_all(&out[..fed.wrote])?;
    }
    Ok(())
}

// One read, of whatever there is: whether more is to be read. A read that fails is the end of the text; a write that fails ends the reading,
// and so does a line that is refused.
fn one_read<R: Read, W: Write>(s: &mut Session, input: &mut R, output: &mut W) -> bool {
    let mut bytes = [0u8; PIECE];
    let n = input.read(&mut bytes).unwrap_or(0);
    n > 0 && pass(s, &bytes[..n], output).is_ok() && !session::ended(*s)
}

// The end of the text. Nothing is left to do where it cannot be written.
fn last<W: Write>(s: Session, output: &mut W) {
    let mut out = [0u8; Session::MOST_TEXT];
    if let Some(wrote) = session::close(s, &mut out) {
        let _ = output.write_all(&out[..wrote]);
    }
}

fn main(rt: HostRuntime) {
    let mut input = rt.stdin();
    let mut output = rt.stdout();
    let mut s = session::begin();
    for _ in 0..u64::MAX {
        if !one_read(&mut s, &mut input, &mut output) {
            break;
        }
    }
    last(s, &mut output);
}
