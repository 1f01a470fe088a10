// A digest of a row of numbers: each in turn is added to the digest so far, times a constant, modulo a prime above 2^32. So one figure or one
// byte that is another always makes another digest.
use std::fmt;

// The largest prime below 2^40.
const PRIME: u64 = 1_099_511_627_689;

const TIMES: u64 = 65_599;

#[derive(Clone, Copy)]
pub struct Digest(u64);

impl Digest {
    pub(crate) fn of<T: Copy + Into<u64>>(numbers: &[T]) -> Digest {
        Digest(0).with(numbers)
    }

    fn with_number(self, number: u64) -> Digest {
        Digest((self.0 % PRIME * TIMES + number % PRIME + 1) % PRIME)
    }

    pub(crate) fn with<T: Copy + Into<u64>>(self, numbers: &[T]) -> Digest {
        numbers
            .iter()
            .fold(self, |digest, &number| digest.with_number(number.into()))
    }
}

// Forty bits, as ten digits.
impl fmt::Display for Digest {
    fn fmt<W: fmt::Write>(&self, f: &mut fmt::Formatter<W>) -> fmt::Result {
        write!(f, "{:010x}", self.0)
    }
}
