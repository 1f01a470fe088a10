// A recording is numbers as they are on the wire, and rows of bytes, each behind its length. Whoever plays one asks for what stands at a place, and
// goes on from the place after it. The definitions are in specs/Recording.antt.
#![tactic(auto)]

ghost use Rattle.std.specs.Prelude.{◌≡◌};
ghost use Rattle.recording.specs.Recording.{number_at, part_at};

use std::ops::Range;

// The number at a place of a recording, and the place after it.
#[tactic(auto, using(numbers::proofs::Laws::place, crate::proofs::Laws::past_end), unfolding(crate::specs::Recording::number_at))]
pub fn number_at(s: &[u8], at: usize) -> Option<(u32, usize)>
    ensures { result ≡ number_at s.now at }
{
    let (v, n) = numbers::read_number(s.get(at..)?)?;
    Some((v, at + n))
}

// Where the row of bytes stands whose length stands at a place of a recording.
#[tactic(auto, using(crate::proofs::Laws::within), unfolding(crate::specs::Recording::part_at))]
pub fn part_at(s: &[u8], at: usize) -> Option<Range<usize>>
    ensures { result ≡ part_at s.now at }
{
    let (size, from) = number_at(s, at)?;
    let end = from + size as usize;
    (end <= s.len()).then_some(from..end)
}
