// The functions of FIPS 180-4 on words of 32 and of 64 bits.
ghost use Rattle.std.specs.Prelude.{◌≡◌, ℕ, ◌+◌, ◌-◌, ◌*◌, ◌<◌, ◌≤◌, ◌++◌, length, take, drop, get_or};
ghost use Rattle.seqs.specs.Words.{big, in_bytes, of_bytes};
ghost use Rattle.seqs.specs.Operations.{add, ch, maj};
ghost use Rattle.seqs.specs.Sha2.{Sha2, next};
ghost use Rattle.fips180.specs.Kinds.{words32, words64, size, field};
ghost use Rattle.std.specs.Mem.{type_size};
ghost use Rattle.std.proofs.Common.{rules};

use crate::constants::{K32, K64};

pub(crate) trait Word: Copy {
    // what the document has of its own for words of this width
    ghost kind: { Sha2 };

    // the number that a word is
    ghost number: { Self → ℕ };

    // A contract by a name of specs/: a chain of sums is then a chain of `add`.
    fn add(self, y: Self) -> Self
        ensures { number result ≡ add kind.width (number self) (number y) };

    fn small0(self) -> Self
        ensures { number result ≡ kind.σ0 (number self) };

    fn small1(self) -> Self
        ensures { number result ≡ kind.σ1 (number self) };

    fn big0(self) -> Self
        ensures { number result ≡ kind.Σ0 (number self) };

    fn big1(self) -> Self
        ensures { number result ≡ kind.Σ1 (number self) };

    // Ch and Maj take fewer operations than FIPS 180-4 writes; their promises are its own form.
    fn choice(self, y: Self, z: Self) -> Self
        ensures { number result ≡ ch kind.width (number self) (number y) (number z) };

    fn majority(self, y: Self, z: Self) -> Self
        ensures { number result ≡ maj (number self) (number y) (number z) };

    // The constant of round t.
    fn constant(t: usize) -> Self
        requires { t < kind.more + 16 }
        ensures { number result ≡ get_or kind.ks t 0 };

    // A block has so many turns of sixteen rounds.
    fn turns() -> usize
        ensures { (16 * result ≡ kind.more + 16) × (result ≤ 5) };

    // How many bytes a block has.
    fn block() -> usize
        ensures { result ≡ size kind };

    // How many bytes of the last block are for the message's length.
    fn field() -> usize
        ensures { result ≡ field kind };

    // The length in bits, in the last bytes of the block.
    fn put_length(block: &mut [u8], x: u64)
        requires { length block.old ≡ size kind }
        ensures { block.new ≡ take (size kind - field kind) block.old ++ in_bytes big (field kind) x };

    // Word t behind index at.
    fn read(b: &[u8], at: usize, t: usize) -> Self
        requires { at + kind.bytes * t + kind.bytes ≤ length b.now }
        ensures { number result ≡ of_bytes big (take kind.bytes (drop (at + kind.bytes * t) b.now)) };

    // sixteen words fit into memory
    ghost small: { type_size Self.row ≤ 8 };

    // the bytes of a word are few, and a block has room for the length behind a byte
    ghost narrow: { (0 < kind.bytes) × (kind.bytes ≤ 8) };
}

// Kept: `add`, `choice` and `majority` are alike in both; as bodies of the trait they want `^`, `&` and their laws as bounds, for a line each.
impl Word for u32 {
    ghost kind = { words32 };

    ghost number = { λ x. x };

    ghost small = { Prim.search rules };

    ghost narrow = { Prim.search rules };

    fn add(self, y: u32) -> u32 {
        self.wrapping_add(y)
    }

    fn small0(self) -> u32 {
        self.rotate_right(7) ^ self.rotate_right(18) ^ self >> 3
    }

    fn small1(self) -> u32 {
        self.rotate_right(17) ^ self.rotate_right(19) ^ self >> 10
    }

    fn big0(self) -> u32 {
        self.rotate_right(2) ^ self.rotate_right(13) ^ self.rotate_right(22)
    }

    fn big1(self) -> u32 {
        self.rotate_right(6) ^ self.rotate_right(11) ^ self.rotate_right(25)
    }

    fn choice(self, y: u32, z: u32) -> u32 {
        z ^ (self & (y ^ z))
    }

    fn majority(self, y: u32, z: u32) -> u32 {
        y ^ ((self ^ y) & (y ^ z))
    }

    fn constant(t: usize) -> u32 {
        K32[t]
    }

    fn turns() -> usize {
        4
    }

    fn block() -> usize {
        64
    }

    fn field() -> usize {
        8
    }

    fn put_length(block: &mut [u8], x: u64) {
        block[56..].copy_from_slice(&x.to_be_bytes());
    }

    fn read(b: &[u8], at: usize, t: usize) -> u32 {
        let i = at + 4 * t;
        u32::from_be_bytes([b[i], b[i + 1], b[i + 2], b[i + 3]])
    }
}

impl Word for u64 {
    ghost kind = { words64 };

    ghost number = { λ x. x };

    ghost small = { Prim.search rules };

    ghost narrow = { Prim.search rules };

    fn add(self, y: u64) -> u64 {
        self.wrapping_add(y)
    }

    fn small0(self) -> u64 {
        self.rotate_right(1) ^ self.rotate_right(8) ^ self >> 7
    }

    fn small1(self) -> u64 {
        self.rotate_right(19) ^ self.rotate_right(61) ^ self >> 6
    }

    fn big0(self) -> u64 {
        self.rotate_right(28) ^ self.rotate_right(34) ^ self.rotate_right(39)
    }

    fn big1(self) -> u64 {
        self.rotate_right(14) ^ self.rotate_right(18) ^ self.rotate_right(41)
    }

    fn choice(self, y: u64, z: u64) -> u64 {
        z ^ (self & (y ^ z))
    }

    fn majority(self, y: u64, z: u64) -> u64 {
        y ^ ((self ^ y) & (y ^ z))
    }

    fn constant(t: usize) -> u64 {
        K64[t]
    }

    fn turns() -> usize {
        5
    }

    fn block() -> usize {
        128
    }

    fn field() -> usize {
        16
    }

    fn put_length(block: &mut [u8], x: u64) {
        block[112..120].fill(0);
        block[120..].copy_from_slice(&x.to_be_bytes());
    }

    fn read(b: &[u8], at: usize, t: usize) -> u64 {
        let i = at + 8 * t;
        u64::from_be_bytes([
            b[i],
            b[i + 1],
            b[i + 2],
            b[i + 3],
            b[i + 4],
            b[i + 5],
            b[i + 6],
            b[i + 7],
        ])
    }
}

// The word that follows those 16, 15, 7 and 2 places before it.
pub(crate) fn next_word<W: Word>(a: W, b: W, c: W, d: W) -> W
    ensures { W.number result ≡ next W.kind (W.number a) (W.number b) (W.number c) (W.number d) }
{
    d.small1().add(c).add(b.small0()).add(a)
}
