// A message in pieces: the blocks that a piece completes, and the padding behind the last. The tail and the count of what was taken lie in
// structs of C, and are lent one by one.
ghost use Rattle.std.specs.Prelude.{◌≡◌, ℕ, ◌+◌, ◌-◌, ◌/◌, ◌≤◌, List, length, drop, replicate, nat_lt};
ghost use Rattle.seqs.specs.Blocks.{after};
ghost use Rattle.seqs.specs.Sha2.{Value, step};
ghost use Rattle.fips180.specs.Kinds.{size};
ghost use Rattle.fips180.specs.Layout.{value_of};
ghost use Rattle.fips180.specs.Takes.{HashesTo, HoldsBytes, TakesBytes, most};

use crate::bytes::{lay, seal};
use crate::word::Word;
use crate::words::Words;

// The most bytes that one hash takes from fresh.
pub const MOST: u64 = 1048576;

// Every whole block from index from on, each counted where it is worked.
fn blocks<W: Word>(v: &mut Words<W>, b: &[u8], from: usize, worked: &mut usize)
    requires { (from ≤ length b.now) × (worked.old ≤ 1) }
    ensures { (value_of W.number v.new ≡ after (size W.kind) (step W.kind) (value_of W.number v.old) ((length b.now - from) / size W.kind) (drop from b.now)) × (worked.new ≡ worked.old + (length b.now - from) / size W.kind) }
{
    let size = W::block();
    for i in 0..(b.len() - from) / size {
        v.work(b, from + size * i);
        *worked += 1;
    }
}

// More bytes, behind those that were taken: the first block is completed in the tail where some wait there, the others are worked where
// they lie, and only what is left over is copied. A tail that isn't one block takes nothing.
pub fn take<W: Word>(
    v: &mut Words<W>,
    tail: &mut [u8],
    taken: u64,
    bytes: &[u8],
    worked: &mut usize,
)
    ensures taken { length tail.old ≡ size W.kind → (first : Value) → TakesBytes W.kind first (value_of W.number v.old) tail.old taken bytes.now (value_of W.number v.new) tail.new worked.new }
    ensures none { (length tail.old ≡ size W.kind → ⊥) → (v.new ≡ v.old) × (tail.new ≡ tail.old) × (worked.new ≡ 0) }
{
    let size = W::block();
    if tail.len() != size {
        *worked = 0;
        return;
    }
    let at = (taken % size as u64) as usize;
    let n = bytes.len();
    if n < size - at {
        *worked = 0;
        lay(tail, at, bytes);
        return;
    }
    let mut from = 0;
    let mut count = 0;
    if 0 < at {
        from = size - at;
        lay(tail, at, &bytes[..from]);
        v.work(tail, 0);
        tail.fill(0);
        count = 1;
    }
    blocks(v, bytes, from, &mut count);
    *worked = count;
    let left = (n - from) % size;
    lay(tail, 0, &bytes[n - left..]);
}

// The hash value behind the padding, which is laid into the last block, or the last two; the block is blank then. A block of another size,
// or a count that no hash reaches, changes nothing.
pub fn end<W: Word>(v: &mut Words<W>, block: &mut [u8], taken: u64)
    ensures ended { length block.old ≡ size W.kind → taken ≤ most → (first : Value) (m : List ℕ) → HoldsBytes W.kind first (value_of W.number v.old) block.old taken m → HashesTo W.kind first m (value_of W.number v.new) }
    ensures blank { length block.old ≡ size W.kind → taken ≤ most → block.new ≡ replicate (size W.kind) 0 }
    ensures none { (length block.old ≡ size W.kind → taken ≤ most → ⊥) → (v.new ≡ v.old) × (block.new ≡ block.old) }
{
    let size = W::block();
    if block.len() != size || MOST < taken {
        return;
    }
    let at = (taken % size as u64) as usize;
    let last = size - W::field();
    seal(block, at);
    if last <= at {
        v.work(block, 0);
        block.fill(0);
    }
    W::put_length(block, taken * 8);
    v.work(block, 0);
    block.fill(0); // what is lent comes back blank
}

// The hash value of a whole message, from a fresh one: no running hash is made. Its blocks are worked where they lie, and what is left of
// it goes into the block that is lent, with the padding; the block is blank then. A block of another size, or a message that is too long,
// changes nothing.
pub fn whole<W: Word>(v: &mut Words<W>, block: &mut [u8], message: &[u8])
    ensures whole { length block.old ≡ size W.kind → length message.now ≤ most → HashesTo W.kind (value_of W.number v.old) message.now (value_of W.number v.new) }
    ensures blank { length block.old ≡ size W.kind → length message.now ≤ most → block.new ≡ replicate (size W.kind) 0 }
    ensures none { (length block.old ≡ size W.kind → length message.now ≤ most → ⊥) → (v.new ≡ v.old) × (block.new ≡ block.old) }
{
    let size = W::block();
    let n = message.len();
    if block.len() != size || MOST < n as u64 {
        return;
    }
    for i in 0..n / size {
        v.work(message, size * i);
    }
    block.fill(0);
    lay(block, 0, &message[n - n % size..]);
    end(v, block, n as u64);
}

// Would n bytes more be too many?
pub fn exceeds(taken: u64, n: u64) -> bool
    ensures { result ≡ nat_lt most (taken + n) }
{
    if MOST < taken {
        return true;
    }
    MOST - taken < n
}
