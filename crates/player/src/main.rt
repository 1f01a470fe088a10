// Plays a recording through the two ends, and prints for each step what was answered and digests of all that it left. What the second program
// says of each step stands in the file `stdout`, and the gate holds what is printed here to it.
#![tactic(auto)]

mod calls;
mod digest;
mod figures;
mod step;
mod text;

ghost use Rattle.std.specs.Prelude.{◌≤◌, length, IfOk};

use calls::Ends;
use std::io;
use std::io::{Read, Write};
use step::{Call, Step};

// An input of so many bytes may have been cut.
const TOO_LONG: usize = 65_536;

// All steps of the input; before them both ends are opened on no record. Answers whether it was a recording to its end.
fn play<W: Write>(printer: &mut W, input: &[u8]) -> io::Result<bool> {
    let mut ends = Ends::closed();
    let call = Call::OpenOnRecord {
        record: b"",
        size: 0,
    };
    ends.play(printer, &Step { kind: 0, call })?;
    let mut at = 0;
    // Where a step ends is known when it has been read, so there is nothing for a `for` to go over.
    while at < input.len() {
        let Some((step, end)) = step::step_at(input, at) else {
            return Ok(false);
        };
        ends.play(printer, &step)?;
        at = end;
    }
    Ok(at < TOO_LONG)
}

// Reads until the buffer is full or the input ends, and answers how many bytes stand at the buffer's start.
fn read_full<R: Read>(input: &mut R, buffer: &mut [u8]) -> io::Result<usize>
    ensures { IfOk result (λ n. n ≤ length buffer.new) }
{
    let mut done = 0;
    // A read brings as many bytes as it likes, so there is nothing for a `for` to go over.
    while done < buffer.len() {
        match input.read(&mut buffer[done..])? {
            0 => break,
            n => done += n,
        }
    }
    Ok(done)
}

fn main(rt: HostRuntime) -> io::Result<()> {
    let mut input = [0; TOO_LONG];
    let n = read_full(&mut rt.stdin(), &mut input)?;
    let mut printer = rt.stdout();
    if !play(&mut printer, &input[..n])? {
        writeln!(printer, "bad input")?;
    }
    Ok(())
}
