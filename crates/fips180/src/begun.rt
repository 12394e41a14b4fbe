// A hash value that has taken one block, and the blocks behind it, laid out in blocks that the caller lends: no running hash is made.
ghost use Rattle.std.specs.Prelude.{◌≡◌, ℕ, ◌+◌, ◌*◌, ◌<◌, List, ◌++◌, length, replicate, nat_le};
ghost use Rattle.seqs.specs.Sha2.{Value, step};
ghost use Rattle.fips180.specs.Kinds.{size, field};
ghost use Rattle.fips180.specs.Layout.{value_of};
ghost use Rattle.fips180.specs.Takes.{HashesTo};

use crate::bytes::{lay, seal};
use crate::word::Word;
use crate::words::Words;

// Do the three fit? No sum is made before it is known to be small.
pub fn fits(room: usize, a: &[u8], b: &[u8], c: &[u8]) -> bool
    ensures { result ≡ nat_le (length a.now + (length b.now + length c.now)) room }
{
    if room < a.len() {
        return false;
    }
    if room - a.len() < b.len() {
        return false;
    }
    c.len() <= room - a.len() - b.len()
}

// The hash value behind d, where one block has room for it and the padding; the block is blank then. Where it has none, or the block
// another size, nothing changes.
pub fn end_by<W: Word>(v: &mut Words<W>, block: &mut [u8], d: &[u8])
    ensures ended { length block.old ≡ size W.kind → length d.now + field W.kind < size W.kind → (first : Value) (k : List ℕ) → length k ≡ size W.kind → value_of W.number v.old ≡ step W.kind first k → HashesTo W.kind first (k ++ d.now) (value_of W.number v.new) }
    ensures blank { length block.old ≡ size W.kind → length d.now + field W.kind < size W.kind → block.new ≡ replicate (size W.kind) 0 }
    ensures none { (length block.old ≡ size W.kind → length d.now + field W.kind < size W.kind → ⊥) → (v.new ≡ v.old) × (block.new ≡ block.old) }
{
    let size = W::block();
    let n = d.len();
    if block.len() != size || size - W::field() <= n {
        return;
    }
    lay(block, 0, d);
    seal(block, n);
    W::put_length(block, (8 * (size + n)) as u64);
    v.work(block, 0);
    block.fill(0);
}

// The hash value behind a, b and c, where two blocks have room for them and the padding, as with every HMAC of the PRF; the blocks are
// blank then. Where they have none, or another size, nothing changes.
pub fn end_short<W: Word>(v: &mut Words<W>, blocks: &mut [u8], a: &[u8], b: &[u8], c: &[u8])
    ensures ended { length blocks.old ≡ 2 * size W.kind → length a.now + (length b.now + length c.now) + field W.kind < 2 * size W.kind → (first : Value) (k : List ℕ) → length k ≡ size W.kind → value_of W.number v.old ≡ step W.kind first k → HashesTo W.kind first (k ++ (a.now ++ (b.now ++ c.now))) (value_of W.number v.new) }
    ensures blank { length blocks.old ≡ 2 * size W.kind → length a.now + (length b.now + length c.now) + field W.kind < 2 * size W.kind → blocks.new ≡ replicate (2 * size W.kind) 0 }
    ensures none { (length blocks.old ≡ 2 * size W.kind → length a.now + (length b.now + length c.now) + field W.kind < 2 * size W.kind → ⊥) → (v.new ≡ v.old) × (blocks.new ≡ blocks.old) }
{
    let size = W::block();
    let field = W::field();
    if blocks.len() != 2 * size || !fits(2 * size - field - 1, a, b, c) {
        return;
    }
    let i = a.len();
    let j = i + b.len();
    let n = j + c.len();
    lay(blocks, 0, a);
    lay(blocks, i, b);
    lay(blocks, j, c);
    seal(blocks, n);
    let bits = 8 * (size + n);
    if n < size - field {
        W::put_length(&mut blocks[..size], bits as u64);
        v.work(blocks, 0);
        blocks.fill(0);
        return;
    }
    W::put_length(&mut blocks[size..], bits as u64);
    v.work(blocks, 0);
    v.work(blocks, size);
    blocks.fill(0); // what is lent comes back blank
}
