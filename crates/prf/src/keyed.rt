// HMAC: a key is taken once, into the two hash values that every message under it begins with.
ghost use Rattle.std.specs.Prelude.{◌≡◌, List, ◌++◌, ℕ, ◌+◌, ◌-◌, ◌≤◌, length, replicate};
ghost use Rattle.prf.specs.Hash.{hash_over};
ghost use Rattle.prf.specs.Hmac.{key_block, mask, hmac};
ghost use Rattle.prf.specs.Keyed.{KeyedBy};
ghost use Rattle.prf.specs.Promise.{hmac_number, Answers, tagged_of, tagged384_of};

use crate::begun::Begun;
use refusal::{Reason, Refusal};
use sha256::State;
use sha384::State384;

// Kept: C interface, both structs of an answer.
#[repr(C)]
#[derive(Clone, Copy)]
pub struct Tagged {
    pub refusal: Refusal,
    pub tag: [u8; 32],
}

#[repr(C)]
#[derive(Clone, Copy)]
pub struct Tagged384 {
    pub refusal: Refusal,
    pub tag: [u8; 48],
}

// The hash values after the two blocks of a key.
#[derive(Clone, Copy)]
pub(crate) struct Keyed<const BLOCK: usize, const DIGEST: usize, H> {
    pub(crate) inner: H,
    pub(crate) outer: H,
}

// The most bytes of a key, and of a message.
const MOST: usize = 65536;

// The key, or the digest of a key that is longer than a block, and zeros after it.
fn key_block<const BLOCK: usize, const DIGEST: usize, H: Begun<BLOCK, DIGEST>>(
    key: &[u8],
) -> [u8; BLOCK]
    requires { length key.now ≤ 65536 }
    ensures { result ≡ key_block (hash_over H.hash BLOCK DIGEST) key.now }
{
    let mut block = [0u8; BLOCK];
    if BLOCK < key.len() {
        block[..DIGEST].copy_from_slice(&H::digest_of(key));
    } else {
        block[..key.len()].copy_from_slice(key);
    }
    block
}

fn masked<const BLOCK: usize>(mut block: [u8; BLOCK], x: u8) -> [u8; BLOCK]
    ensures { result ≡ mask x block.entry }
{
    for v in &mut block {
        *v ^= x;
    }
    block
}

impl<const BLOCK: usize, const DIGEST: usize, H: Begun<BLOCK, DIGEST>> Keyed<BLOCK, DIGEST, H> {
    pub(crate) fn by(key: &[u8]) -> Keyed<BLOCK, DIGEST, H>
        requires { length key.now ≤ 65536 }
        ensures { KeyedBy (hash_over H.hash BLOCK DIGEST) H.begins result key.now }
    {
        let block = key_block::<BLOCK, DIGEST, H>(key);
        let inner = H::of_block(masked(block, 0x36));
        let outer = H::of_block(masked(block, 0x5c));
        Keyed { inner, outer }
    }

    // The tag of a, b and c, one after the other.
    pub(crate) fn tag(&self, a: &[u8], b: &[u8], c: &[u8]) -> [u8; DIGEST]
        requires { length a.now + (length b.now + length c.now) ≤ 65536 }
        ensures { (k : List ℕ) → KeyedBy (hash_over H.hash BLOCK DIGEST) H.begins self.now k → result ≡ hmac (hash_over H.hash BLOCK DIGEST) k (a.now ++ (b.now ++ c.now)) }
    {
        // Two ways, each to its end: with the digests of both in one place, the frames were larger by some 300 bytes.
        if a.len() + (b.len() + c.len()) <= H::SHORT {
            return self.outer.ended_by(self.inner.ended_short(a, b, c));
        }
        self.outer.ended_by(self.inner.ended(a, b, c))
    }
}

// The tag, where key and message are within their bounds.
fn tag<const BLOCK: usize, const DIGEST: usize, H: Begun<BLOCK, DIGEST>>(
    key: &[u8],
    message: &[u8],
) -> Result<[u8; DIGEST], Reason>
    ensures { Answers result (hmac_number (length key.now) (length message.now)) (hmac (hash_over H.hash BLOCK DIGEST) key.now message.now) }
{
    if MOST < key.len() || MOST < message.len() {
        return Err(Reason::Length);
    }
    Ok(Keyed::<BLOCK, DIGEST, H>::by(key).tag(&[], &[], message))
}

// Kept: C interface, each hash has a call and an answer of its own.
pub fn hmac(key: &[u8], message: &[u8]) -> Tagged
    ensures { result ≡ tagged_of key.now message.now }
{
    match tag::<64, 32, State>(key, message) {
        Ok(tag) => Tagged {
            refusal: refusal::refuse(0),
            tag,
        },
        Err(reason) => Tagged {
            refusal: Refusal::from(reason),
            tag: [0; 32],
        },
    }
}

pub fn hmac384(key: &[u8], message: &[u8]) -> Tagged384
    ensures { result ≡ tagged384_of key.now message.now }
{
    match tag::<128, 48, State384>(key, message) {
        Ok(tag) => Tagged384 {
            refusal: refusal::refuse(0),
            tag,
        },
        Err(reason) => Tagged384 {
            refusal: Refusal::from(reason),
            tag: [0; 48],
        },
    }
}
