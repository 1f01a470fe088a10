// Numbers as text, both ways: words and decimal numbers put into an output, and the numbers of a line of text read into a row. The
// definitions are in specs/: Text, Rows, Printing.
#![tactic(auto)]

ghost use Rattle.std.specs.Prelude.{◌≡◌};
ghost use Rattle.text.specs.Text.{is_digit, most_digits, said, all_digits, decimal};
ghost use Rattle.text.specs.Rows.{most_numbers, row_of};
ghost use Rattle.text.specs.Printing.{spaced, EndsSpaced, PutWhereFits};

// The numbers of a line of text, and zeros behind them. The count stands beside an array of fixed size, as there is no heap.
#[derive(Clone, Copy)]
pub struct Row {
    pub count: usize,
    pub values: [u64; Row::MOST_NUMBERS],
}

impl Row {
    pub const MOST_NUMBERS: usize = 19;

    // Of a number in a row.
    pub const MOST_DIGITS: usize = 10;
}

// The decimal digits of a number, with a space behind them: what stands from `from` on, in an array of fixed size, as there is no heap.
#[derive(Clone, Copy)]
struct Spaced {
    from: usize,
    bytes: [u8; ALL_DIGITS + 1],
}

// A number of 64 bits has no more digits.
const ALL_DIGITS: usize = 20;

// The limits are the definitions' numbers.
fn limits()
    ensures most_numbers { Row.MOST_NUMBERS ≡ most_numbers }
    ensures most_digits { Row.MOST_DIGITS ≡ most_digits }
    ensures all_digits { ALL_DIGITS ≡ all_digits }
{}

// ---- text into an output. What does not fit whole is not written, and the place stays as it was: `write!` would write a part of it.

// Copies a text to a place of out, and answers the place after it.
#[tactic(auto, using(crate::proofs::Printing::copied), unfolding(crate::specs::Printing::placed))]
pub fn put_text(text: &[u8], out: &mut [u8], at: usize) -> usize
    ensures { PutWhereFits text.now at out.old result out.new }
{
    if out.len() < at || out.len() - at < text.len() {
        return at;
    }
    let end = at + text.len();
    out[at..end].copy_from_slice(text);
    end
}

// The last digit stands in front of the space, and each digit in front of those behind it. What is left of n says when to stop, so no iterator is
// plainer.
#[tactic(auto, using(crate::proofs::Printing::digit_by_digit))]
fn digits(n: u64) -> Spaced
    ensures { EndsSpaced result.bytes result.from n }
{
    let mut bytes = [b' '; ALL_DIGITS + 1];
    let mut from = ALL_DIGITS;
    let mut left = n;
    loop {
        from -= 1;
        bytes[from] = b'0' + (left % 10) as u8;
        left /= 10;
        if left == 0 {
            return Spaced { from, bytes };
        }
    }
}

// Writes a number's decimal digits.
#[tactic(auto, using(crate::proofs::Printing::without_space))]
pub fn put_decimal(n: u64, out: &mut [u8], at: usize) -> usize
    ensures { PutWhereFits (decimal n) at out.old result out.new }
{
    let Spaced { from, bytes } = digits(n);
    put_text(&bytes[from..ALL_DIGITS], out, at)
}

// Writes a number and a space.
#[tactic(auto, using(crate::proofs::Printing::with_space))]
pub fn put_spaced(n: u64, out: &mut [u8], at: usize) -> usize
    ensures { PutWhereFits (spaced n) at out.old result out.new }
{
    let Spaced { from, bytes } = digits(n);
    put_text(&bytes[from..], out, at)
}

// ---- the numbers of a line of text

pub fn is_digit(b: u8) -> bool
    ensures { result ≡ is_digit b }
{
    b.is_ascii_digit()
}

// Reads the numbers of a line. None: bad text, or more numbers than a row holds.
#[tactic(auto, using(crate::proofs::Reading::byte_by_byte))]
pub fn read_row(line: &[u8]) -> Option<Row>
    ensures { result ≡ row_of (said line.now) }
{
    let mut row = Row {
        count: 0,
        values: [0; Row::MOST_NUMBERS],
    };
    let mut digits = 0usize;
    let mut value = 0u64;
    for &b in line {
        if b == b' ' {
            if digits == 0 || row.count + 1 == Row::MOST_NUMBERS {
                return None;
            }
            row.values[row.count] = value;
            row.count += 1;
            digits = 0;
            value = 0;
            continue;
        }
        if !is_digit(b) || digits == Row::MOST_DIGITS {
            return None;
        }
        value = value * 10 + (b - b'0') as u64;
        digits += 1;
    }
    if digits == 0 {
        return None;
    }
    row.values[row.count] = value;
    row.count += 1;
    Some(row)
}
