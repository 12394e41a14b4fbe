// What HMAC needs of a hash: its value after one block, which a key is kept as, and the digests of messages that begin with the block.
ghost use Rattle.std.specs.Prelude.{◌≡◌, ℕ, ◌+◌, ◌≤◌, List, ◌++◌, length};
ghost use Rattle.sha256.specs.Begins.{Begins};
ghost use Rattle.sha384.specs.Begins.{Begins as Begins384};
ghost use Rattle.sha256.specs.Sha256.{sha256};
ghost use Rattle.sha384.specs.Sha384.{sha384};
ghost use Rattle.std.proofs.Common.{lit<, lit≤};
ghost use Rattle.prf.specs.Begun.{PairFits};
ghost use Rattle.prf.specs.Hash.{Lawful, hash_over};
ghost use Rattle.prf.specs.Lawful.{sha256_lawful, sha384_lawful};

use sha256::State;
use sha384::State384;

// The hash value of a hash with blocks and digests of so many bytes. Where a message ends in one of two ways, each has a frame of its own,
// so that neither lies beside the other's blocks.
pub trait Begun<const BLOCK: usize, const DIGEST: usize>: Copy {
    // the hash
    ghost hash: { List ℕ → List ℕ };

    // the value has taken the block, and nothing else
    ghost begins: { Self → List ℕ → Type 0 };

    // the most bytes that `ended_short` takes: every HMAC of the PRF has so few
    ghost SHORT: { ℕ };

    const SHORT: usize;

    fn of_block(b: [u8; BLOCK]) -> Self
        ensures { begins result b.entry };

    // The digest of the block and of a, b and c after it.
    fn ended(self, a: &[u8], b: &[u8], c: &[u8]) -> [u8; DIGEST]
        ensures { (k : List ℕ) → begins self k → length a.now + (length b.now + length c.now) ≤ 65536 → result ≡ hash (k ++ (a.now ++ (b.now ++ c.now))) };

    // The same where they are short, with less work.
    fn ended_short(self, a: &[u8], b: &[u8], c: &[u8]) -> [u8; DIGEST]
        ensures { (k : List ℕ) → begins self k → length a.now + (length b.now + length c.now) ≤ SHORT → result ≡ hash (k ++ (a.now ++ (b.now ++ c.now))) };

    // The digest of the block and of a digest after it.
    fn ended_by(self, d: [u8; DIGEST]) -> [u8; DIGEST]
        ensures { (k : List ℕ) → begins self k → result ≡ hash (k ++ d.entry) };

    // The digest of a message alone.
    fn digest_of(message: &[u8]) -> [u8; DIGEST]
        ensures { length message.now ≤ 65536 → result ≡ hash message.now };

    ghost lawful: { Lawful (hash_over hash BLOCK DIGEST) };

    // so that sums and locals are known to fit
    ghost small: { BLOCK ≤ 128 };

    ghost light: { PairFits Self.row };
}

impl Begun<64, 32> for State {
    ghost hash = { sha256 };

    ghost begins = { Begins };

    ghost SHORT = { 119 };

    const SHORT: usize = 119;

    fn of_block(b: [u8; 64]) -> State
        ensures { Begins result b }
    {
        State::of_block(b)
    }

    #[inline(never)]
    fn ended(self, a: &[u8], b: &[u8], c: &[u8]) -> [u8; 32] {
        State::ended(self, a, b, c)
    }

    #[inline(never)]
    fn ended_short(self, a: &[u8], b: &[u8], c: &[u8]) -> [u8; 32] {
        State::ended_short(self, a, b, c)
    }

    fn ended_by(self, d: [u8; 32]) -> [u8; 32]
        ensures { (k : List ℕ) → Begins self k → result ≡ sha256 (k ++ d) }
    {
        State::ended_by(self, d)
    }

    fn digest_of(message: &[u8]) -> [u8; 32] {
        sha256::sha256(message).digest
    }

    ghost lawful = { sha256_lawful };

    ghost small = { lit≤ tt };

    ghost light = { lit< tt };
}

impl Begun<128, 48> for State384 {
    ghost hash = { sha384 };

    ghost begins = { Begins384 };

    ghost SHORT = { 239 };

    const SHORT: usize = 239;

    fn of_block(b: [u8; 128]) -> State384
        ensures { Begins384 result b }
    {
        State384::of_block(b)
    }

    #[inline(never)]
    fn ended(self, a: &[u8], b: &[u8], c: &[u8]) -> [u8; 48] {
        State384::ended(self, a, b, c)
    }

    #[inline(never)]
    fn ended_short(self, a: &[u8], b: &[u8], c: &[u8]) -> [u8; 48] {
        State384::ended_short(self, a, b, c)
    }

    fn ended_by(self, d: [u8; 48]) -> [u8; 48]
        ensures { (k : List ℕ) → Begins384 self k → result ≡ sha384 (k ++ d) }
    {
        State384::ended_by(self, d)
    }

    fn digest_of(message: &[u8]) -> [u8; 48] {
        sha384::sha384(message).digest
    }

    ghost lawful = { sha384_lawful };

    ghost small = { lit≤ tt };

    ghost light = { lit< tt };
}
