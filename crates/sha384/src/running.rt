// A hash that takes its message in pieces. Every value of the struct is harmless; what one stands for is `Running` of specs/.
ghost use Rattle.std.specs.Prelude.{◌≡◌, ℕ, ◌+◌, ◌%◌, List, [], nat_lt};
ghost use Rattle.sha384.specs.Running.{Running, taken, most};
ghost use Rattle.sha384.specs.Sha384.{sha384};
ghost use Rattle.sha384.specs.Promise.{Absorbs, Takes, digested_of};

use crate::compress::{State384, initial, output};
use fips180::{MOST, Words};
use refusal::{Reason, Refusal, refuse};

// Kept: C interface.
#[repr(C)]
#[derive(Clone, Copy)]
pub struct Hash384 {
    pub state: State384,
    // what is left of the message behind its whole blocks: length % 128 bytes, and zeros behind them
    pub tail: [u8; 128],
    // every byte taken so far
    pub length: u64,
}

// Kept: C interface.
#[repr(C)]
#[derive(Clone, Copy)]
pub struct Absorbed384 {
    pub refusal: Refusal,
    pub hash: Hash384,
}

// Kept: C interface.
#[repr(C)]
#[derive(Clone, Copy)]
pub struct Digested384 {
    pub refusal: Refusal,
    pub digest: [u8; 48],
}

// Kept: C interface, a struct and its calls for each hash; what they do is `fips180`'s.
impl Hash384 {
    pub fn fresh() -> Hash384
        ensures { Running result [] }
    {
        let state = State384::from(initial());
        Hash384 {
            state,
            tail: [0; 128],
            length: 0,
        }
    }

    // How many bytes wait for their block to be full.
    pub fn waiting(self) -> usize
        ensures { result ≡ taken self % 128 }
    {
        (self.length % 128) as usize
    }

    // More bytes, for a caller that knows that there is room, and how many blocks were worked: each is counted where it is compressed. The
    // sum wraps where there is no room, so that every struct value is harmless.
    pub fn take(&mut self, bytes: &[u8], worked: &mut usize)
        ensures { Takes self.old bytes.now self.new worked.new }
    {
        let taken = self.length;
        // Of a running hash it is blank already; of a struct that no call made, a tail where nothing waits is blank behind a block.
        if taken % 128 == 0 && 128 <= bytes.len() {
            self.tail = [0; 128];
        }
        self.length = taken.wrapping_add(bytes.len() as u64);
        let mut v = Words::from(self.state);
        fips180::take(&mut v, &mut self.tail, taken, bytes, worked);
        self.state = State384::from(v);
    }

    // The same of a hash by value: the next state.
    pub fn more(self, bytes: &[u8], worked: &mut usize) -> Hash384
        ensures { Takes self bytes.now result worked.new }
    {
        let mut next = self;
        next.take(bytes, worked);
        next
    }

    // Would n bytes more be too many?
    pub fn exceeds(self, n: u64) -> bool
        ensures { result ≡ nat_lt most (taken self + n) }
    {
        fips180::exceeds(self.length, n)
    }

    // The answer is laid out first and its hash is made in place, so that there is no second one on the stack.
    pub fn absorb(self, bytes: &[u8]) -> Absorbed384
        ensures { Absorbs self bytes.now result }
    {
        let refusal = refuse(0);
        let mut r = Absorbed384 {
            refusal,
            hash: self,
        };
        if self.exceeds(bytes.len() as u64) {
            r.refusal = Refusal::from(Reason::Length);
            return r;
        }
        let mut worked = 0;
        r.hash.take(bytes, &mut worked);
        r
    }

    // The padding is laid into the last block, or the last two.
    pub fn digest(self) -> [u8; 48]
        ensures { (m : List ℕ) → Running self m → result ≡ sha384 m }
    {
        if MOST < self.length {
            return [0; 48];
        }
        let mut block = self.tail;
        let mut v = Words::from(self.state);
        fips180::end(&mut v, &mut block, self.length);
        output(v)
    }
}

// The hash of a whole message. No running hash is made.
pub fn sha384(message: &[u8]) -> Digested384
    ensures { result ≡ digested_of message.now }
{
    if MOST < message.len() as u64 {
        let refusal = Refusal::from(Reason::Length);
        return Digested384 {
            refusal,
            digest: [0; 48],
        };
    }
    let mut block = [0u8; 128];
    let mut v = initial();
    fips180::whole(&mut v, &mut block, message);
    let digest = output(v);
    let refusal = refuse(0);
    Digested384 { refusal, digest }
}
