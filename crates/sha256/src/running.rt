// A hash that takes its message in pieces. Every value of the struct is harmless; what one stands for is `Running` of specs/.
ghost use Rattle.std.specs.Prelude.{◌≡◌, ℕ, ◌+◌, ◌%◌, List, [], nat_lt};
ghost use Rattle.sha256.specs.Running.{Running, taken, most};
ghost use Rattle.sha256.specs.Sha256.{sha256};
ghost use Rattle.sha256.specs.Promise.{Absorbs, Takes, digested_of};

use crate::compress::{State, initial, output};
use fips180::{MOST, Words};
use refusal::{Reason, Refusal, refuse};

// Kept: C interface.
#[repr(C)]
#[derive(Clone, Copy)]
pub struct Hash {
    pub state: State,
    // what is left of the message behind its whole blocks: length % 64 bytes, and zeros behind them
    pub tail: [u8; 64],
    // every byte taken so far
    pub length: u64,
}

// Kept: C interface.
#[repr(C)]
#[derive(Clone, Copy)]
pub struct Absorbed {
    pub refusal: Refusal,
    pub hash: Hash,
}

// Kept: C interface.
#[repr(C)]
#[derive(Clone, Copy)]
pub struct Digested {
    pub refusal: Refusal,
    pub digest: [u8; 32],
}

// Kept: C interface, a struct and its calls for each hash; what they do is `fips180`'s.
impl Hash {
    pub fn fresh() -> Hash
        ensures { Running result [] }
    {
        let state = State::from(initial());
        Hash {
            state,
            tail: [0; 64],
            length: 0,
        }
    }

    // How many bytes wait for their block to be full.
    pub fn waiting(self) -> usize
        ensures { result ≡ taken self % 64 }
    {
        (self.length % 64) as usize
    }

    // More bytes, for a caller that knows that there is room, and how many blocks were worked: each is counted where it is compressed. The
    // sum wraps where there is no room, so that every struct value is harmless.
    pub fn take(&mut self, bytes: &[u8], worked: &mut usize)
        ensures { Takes self.old bytes.now self.new worked.new }
    {
        let taken = self.length;
        self.length = taken.wrapping_add(bytes.len() as u64);
        let mut v = Words::from(self.state);
        fips180::take(&mut v, &mut self.tail, taken, bytes, worked);
        self.state = State::from(v);
    }

    // The same of a hash by value: the next state.
    pub fn more(self, bytes: &[u8], worked: &mut usize) -> Hash
        ensures { Takes self bytes.now result worked.new }
    {
        let mut next = self;
        next.take(bytes, worked);
        next
    }

    // Would n bytes more be too many?
    pub fn exceeds(self, n: u64) -> bool
        ensures { result ≡ nat_lt most (taken self + n) }
    {
        fips180::exceeds(self.length, n)
    }

    // The answer is laid out first and its hash is made in place, so that there is no second one on the stack.
    pub fn absorb(self, bytes: &[u8]) -> Absorbed
        ensures { Absorbs self bytes.now result }
    {
        let refusal = refuse(0);
        let mut r = Absorbed {
            refusal,
            hash: self,
        };
        if self.exceeds(bytes.len() as u64) {
            r.refusal = Refusal::from(Reason::Length);
            return r;
        }
        let mut worked = 0;
        r.hash.take(bytes, &mut worked);
        r
    }

    // The padding is laid into the last block, or the last two.
    pub fn digest(self) -> [u8; 32]
        ensures { (m : List ℕ) → Running self m → result ≡ sha256 m }
    {
        if MOST < self.length {
            return [0; 32];
        }
        let mut block = self.tail;
        let mut v = Words::from(self.state);
        fips180::end(&mut v, &mut block, self.length);
        output(v)
    }
}

// The hash of a whole message. No running hash is made.
pub fn sha256(message: &[u8]) -> Digested
    ensures { result ≡ digested_of message.now }
{
    if MOST < message.len() as u64 {
        let refusal = Refusal::from(Reason::Length);
        return Digested {
            refusal,
            digest: [0; 32],
        };
    }
    let mut block = [0u8; 64];
    let mut v = initial();
    fips180::whole(&mut v, &mut block, message);
    let digest = output(v);
    let refusal = refuse(0);
    Digested { refusal, digest }
}
