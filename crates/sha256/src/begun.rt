// A hash value that has taken one block, which is what HMAC keeps of a key: made once, and ended as often as there are messages.
// Every value of the struct is harmless; what one stands for is `Begins` of specs/.
ghost use Rattle.std.specs.Prelude.{◌≡◌, ℕ, ◌+◌, ◌≤◌, List, ◌++◌, length};
ghost use Rattle.sha256.specs.Running.{most};
ghost use Rattle.sha256.specs.Begins.{Begins};
ghost use Rattle.sha256.specs.Sha256.{sha256};

use crate::compress::{State, initial, output};
use crate::running::Hash;
use fips180::Words;

// The most bytes that two blocks hold before the padding: it has one byte for the one bit, and eight for the length.
const ROOM: usize = 119;

// Kept: C interface, as the struct; what they do is `fips180`'s.
impl State {
    pub fn of_block(b: [u8; 64]) -> State
        ensures { Begins result b }
    {
        let mut v = initial();
        v.compress(&b, 0);
        State::from(v)
    }

    // The digest of the block and of a, b and c after it.
    pub fn ended(self, a: &[u8], b: &[u8], c: &[u8]) -> [u8; 32]
        ensures { (k : List ℕ) → Begins self k → 64 + (length a.now + (length b.now + length c.now)) ≤ most → result ≡ sha256 (k ++ (a.now ++ (b.now ++ c.now))) }
    {
        let mut h = Hash {
            state: self,
            tail: [0; 64],
            length: 64,
        };
        let mut worked = 0;
        h.take(a, &mut worked);
        h.take(b, &mut worked);
        h.take(c, &mut worked);
        h.digest()
    }

    // The digest of the block and of a, b and c after it, where two blocks have room for them and the padding: so it is with every HMAC of
    // the PRF.
    pub fn ended_short(self, a: &[u8], b: &[u8], c: &[u8]) -> [u8; 32]
        ensures { (k : List ℕ) → Begins self k → length a.now + (length b.now + length c.now) ≤ 119 → result ≡ sha256 (k ++ (a.now ++ (b.now ++ c.now))) }
    {
        if !fips180::fits(ROOM, a, b, c) {
            return [0; 32];
        }
        let mut blocks = [0u8; 128];
        let mut v = Words::from(self);
        fips180::end_short(&mut v, &mut blocks, a, b, c);
        output(v)
    }

    // The digest of the block and of the 32 bytes d after it.
    pub fn ended_by(self, d: [u8; 32]) -> [u8; 32]
        ensures { (k : List ℕ) → Begins self k → result ≡ sha256 (k ++ d) }
    {
        let mut block = [0u8; 64];
        let mut v = Words::from(self);
        fips180::end_by(&mut v, &mut block, &d);
        output(v)
    }
}
