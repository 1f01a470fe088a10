// A line's ring: items go in behind what it holds, and are read at its head. A run of bytes that comes to the ring's end goes on from its
// start. Any place and any count will do: they are taken as the definitions say, in specs/Ring.antt.
#![tactic(auto)]

ghost use Rattle.std.specs.Prelude.{◌≡◌, cond, ◌≤◌, ◌<◌, min, length};
ghost use Rattle.numbers.specs.Writing.{written};
ghost use Rattle.ring.specs.Ring.{from_ring, into_ring, onto, held, room_for, stored, front_of, in_front};

use numbers::Refusal;
use plan::Plan;

// Copies all of the bytes. `copy_from_slice` would be a call of `memmove`, which whoever links the stage's archive would have to bring. The second way out of the
// loop is never taken; without it the compiler makes the same call of the loop.
fn copy(from: &[u8], to: &mut [u8])
    requires { length from.now ≡ length to.old }
    ensures { to.new ≡ from.now }
{
    for (at, &byte) in from.iter().enumerate() {
        if at == to.len() {
            return;
        }
        to[at] = byte;
    }
}

// The bytes go into the ring from a place on: a run up to its end, and what is left from its start.
#[tactic(auto, using(crate::proofs::Laws::into_runs))]
fn lay(ring: &mut [u8], at: usize, bytes: &[u8])
    requires { (at < length ring.old) × (length bytes.now ≤ length ring.old) }
    ensures { ring.new ≡ into_ring ring.old at bytes.now }
{
    let first = bytes.len().min(ring.len() - at);
    let (front, rest) = bytes.split_at(first);
    copy(front, &mut ring[at..at + first]);
    copy(rest, &mut ring[..rest.len()]);
}

// Bytes of the ring from a place on, in two runs likewise, to the front of out.
#[tactic(auto, using(std::proofs::lemmas::Grind::common_steps, crate::proofs::Laws::from_runs))]
fn lift(ring: &[u8], at: usize, n: usize, out: &mut [u8])
    requires { (at < length ring.now) × ((n ≤ length ring.now) × (n ≤ length out.old)) }
    ensures { out.new ≡ onto (from_ring ring.now at n) out.old }
{
    let first = n.min(ring.len() - at);
    copy(&ring[at..at + first], &mut out[..first]);
    copy(&ring[..n - first], &mut out[first..n]);
}

// Stores an item behind the used bytes from head on. Answers whether there was room; without it no byte changes.
#[tactic(auto, using(crate::proofs::Laws::into_both), unfolding(crate::specs::Ring::stored))]
pub fn store(ring: &mut [u8], head: u32, used: u32, kind: u8, bytes: &[u8]) -> bool
    ensures { (result ≡ room_for (length ring.old) used (length bytes.now))
        × (ring.new ≡ cond result (stored ring.old head used kind bytes.now) ring.old) }
{
    let size = ring.len();
    let n = bytes.len();
    let room = size.saturating_sub(used as usize);
    if room < Plan::ITEM_HEAD as usize + n {
        return false;
    }
    let at = (head as usize + used as usize) % size;
    let [low, high, ..] = n.to_le_bytes();
    lay(&mut *ring, at, &[kind, low, high]);
    lay(ring, (at + Plan::ITEM_HEAD as usize) % size, bytes);
    true
}

// The kind and length of the item at the head of the used bytes; nothing where there can be none.
#[tactic(auto, using(crate::proofs::Laws::held_most, crate::proofs::Laws::held_front, crate::proofs::Laws::too_few, crate::proofs::Laws::cut_short, crate::proofs::Laws::there))]
pub fn head_item(ring: &[u8], head: u32, used: u32) -> Option<(u8, usize)>
    ensures { result ≡ front_of (held ring.now head used) }
{
    let size = ring.len();
    let most = size.min(used as usize);
    if most < Plan::ITEM_HEAD as usize {
        return None;
    }
    let at = head as usize % size;
    let mut item_head = [0; Plan::ITEM_HEAD as usize];
    lift(ring, at, item_head.len(), &mut item_head);
    let [kind, low, high] = item_head;
    let n = usize::from(u16::from_le_bytes([low, high]));
    if most - (Plan::ITEM_HEAD as usize) < n {
        return None;
    }
    Some((kind, n))
}

// Copies the n bytes of the item at the head to the front of out, and answers how many. Refused: 8.
#[tactic(auto, using(numbers::proofs::Laws::written_over, crate::proofs::Laws::from_most, crate::proofs::Laws::onto_none, crate::proofs::Laws::onto_written, crate::proofs::Laws::in_front_most))]
pub fn hand_out(ring: &[u8], head: u32, n: usize, out: &mut [u8]) -> Result<usize, Refusal>
    ensures { (result ≡ (written (in_front ring.now head n) out.old).answer)
        × (out.new ≡ (written (in_front ring.now head n) out.old).out) }
{
    let size = ring.len();
    let length = n.min(size);
    if out.len() < length {
        return Err(Refusal::ShortOutput);
    }
    if length == 0 {
        return Ok(0);
    }
    let at = (head as usize + Plan::ITEM_HEAD as usize) % size;
    lift(ring, at, length, out);
    Ok(length)
}
