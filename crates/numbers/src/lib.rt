// Numbers on the wire: unsigned, low seven bits first, the top bit of a byte set when another follows, shortest form only,
// below 2^32. Every record of the bundle is a row of them. The definitions are in specs/Coding.antt and specs/Writing.antt.
#![tactic(auto)]

ghost use Rattle.std.specs.Prelude.{◌≡◌, ◌+◌, ◌^◌, ◌≤◌, ◌<◌, length, ltb};
ghost use Rattle.std.proofs.lemmas.List.Edits.{sets};
ghost use Rattle.numbers.specs.Refusals.{number, number_of};
ghost use Rattle.numbers.specs.Checks.{in_range};
ghost use Rattle.numbers.specs.Coding.{reading_of, coded, row_bytes};
ghost use Rattle.numbers.specs.Writing.{written};

// Why a call is refused: the table of numbers, in its order. docs/NUMBERS.md says what to do on each.
#[derive(Clone, Copy, Debug, PartialEq, Eq)]
pub enum Refusal {
    Plan,
    State,
    Line,
    Length,
    NoMarker,
    OtherLine,
    NoRoom,
    ShortOutput,
    Store,
    Counter,
}

impl Refusal {
    // Its number in the table: a method, since `u32::from` would not say which number.
    pub fn number(self) -> u32
        ensures { result ≡ number self }
    {
        self as u32 + 1
    }
}

// The table's number that an answer gives, 0 for none.
pub fn number_of<T: Drop>(answer: Result<T, Refusal>) -> u32
    ensures { result ≡ number_of answer }
{
    match answer {
        Ok(_) => 0,
        Err(refusal) => refusal.number(),
    }
}

// Whether x stands in a range, its ends included.
pub fn in_range(low: u32, x: u32, high: u32) -> bool
    ensures { result ≡ in_range low x high }
{
    (low..=high).contains(&x)
}

// Whether v is below 2 ^ width.
fn fits(v: u32, width: u32) -> bool
    requires { width < 64 }
    ensures { result ≡ ltb v (2 ^ width) }
{
    u64::from(v) < 1 << width
}

// Reads a number of that width. Each call hands what is above the low seven bits to the next, with the width that is left
// for it, so no more bytes are looked at than a number of that width can take.
#[tactic(auto, using(crate::proofs::Laws::by_width))]
fn read_of_width(s: &[u8], width: u32) -> Option<(u32, usize)>
    requires { width ≤ 32 }
    ensures { result ≡ reading_of width s.now }
{
    let [first, rest @ ..] = s else {
        return None;
    };
    let b = *first as u32;
    if b < 128 {
        if fits(b, width) {
            return Some((b, 1));
        }
        return None;
    }
    if width <= 7 {
        return None;
    }
    let (high, at) = read_of_width(rest, width - 7)?;
    if high == 0 {
        return None;
    }
    Some((b % 128 + high * 128, at + 1))
}

// Reads the number at the front of s: it, and the place after it.
pub fn read_number(s: &[u8]) -> Option<(u32, usize)>
    ensures { result ≡ reading_of 32 s.now }
{
    read_of_width(s, 32)
}

// How many bytes v is written in. What is left of v says when to stop, here and in `put`, so no iterator is plainer.
#[tactic(auto, using(crate::proofs::Laws::byte_by_byte))]
pub fn number_length(v: u32) -> usize
    ensures { result ≡ length (coded 32 v) }
{
    let mut left = v;
    let mut n: usize = 1;
    while 128 <= left {
        left /= 128;
        n += 1;
    }
    n
}

// Writes v at a place of out, and answers the place after it.
#[tactic(auto, using(crate::proofs::Laws::byte_by_byte))]
fn put(v: u32, out: &mut [u8], at: usize) -> usize
    requires { at + length (coded 32 v) ≤ length out.old }
    ensures { (result ≡ at + length (coded 32 v)) × (out.new ≡ sets out.old at (coded 32 v)) }
{
    let mut left = v;
    let mut to = at;
    while 128 <= left {
        out[to] = (left % 128 + 128) as u8;
        left /= 128;
        to += 1;
    }
    out[to] = left as u8;
    to + 1
}

// Writes v to the front of out, and answers the length written. Refused: 8.
#[tactic(auto, using(crate::proofs::Laws::written_fits, crate::proofs::Laws::written_over))]
pub fn write_number(v: u32, out: &mut [u8]) -> Result<usize, Refusal>
    ensures { (result ≡ (written (coded 32 v) out.old).answer) × (out.new ≡ (written (coded 32 v) out.old).out) }
{
    let n = number_length(v);
    if out.len() < n {
        return Err(Refusal::ShortOutput);
    }
    put(v, out, 0);
    Ok(n)
}

// How many bytes the numbers of a row are written in.
#[tactic(auto, using(crate::proofs::Laws::row_sum, crate::proofs::Laws::row_size))]
fn row_length(row: &[u32]) -> usize
    ensures { result ≡ length (row_bytes row.now) }
{
    row.iter().map(|v| number_length(*v)).sum()
}

// Writes the numbers of a row, one after another, to the front of out. Refused: 8.
#[tactic(auto, using(crate::proofs::Laws::row_by_row))]
pub fn write_row(row: &[u32], out: &mut [u8]) -> Result<usize, Refusal>
    ensures { (result ≡ (written (row_bytes row.now) out.old).answer) × (out.new ≡ (written (row_bytes row.now) out.old).out) }
{
    let size = row_length(row);
    if out.len() < size {
        return Err(Refusal::ShortOutput);
    }
    let mut at = 0;
    for v in row {
        at = put(*v, out, at);
    }
    Ok(size)
}
