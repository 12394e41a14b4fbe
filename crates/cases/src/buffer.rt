// Bytes gathered in fixed memory, one behind the other.
ghost use Rattle.std.specs.Prelude.{◌≡◌, List, [], ◌++◌, ℕ, ◌+◌, ◌-◌, ◌≤◌, ◌<◌, length, take, drop, replicate};

use std::marker::Model;

// At most `N` bytes. Contracts see those that were put in; zeros stand behind them.
#[derive(Clone, Copy)]
pub struct Buffer<const N: usize> {
    bytes: [u8; N],
    held: usize,
}

impl<const N: usize> Model for Buffer<N> {
    ghost use Rattle.std.specs.Prelude.{◌≡◌, List, ◌++◌, ℕ, ◌-◌, ◌≤◌, length, take, drop, replicate};
    ghost use Rattle.std.proofs.Common.{◌∙◌, ap, sym, arith, take-append-drop, length-take-le};

    ghost Value = { List ℕ };

    ghost view = { λ b. take b.held b.bytes };

    ghost invariant = { λ b. (b.held ≤ N) × (length b.bytes ≡ N) × (drop b.held b.bytes ≡ replicate (N - b.held) 0) };

    // What it holds fixes the fields, so it may be copied.
    ghost inverse = { λ s. record { bytes = s ++ replicate (N - length s) 0; held = length s } };

    ghost inverse_ok = { λ b h i. record {
      bytes =
          (ap (λ (k : ℕ). take b.held b.bytes ++ replicate (N - k) 0) (length-take-le b.held b.bytes (omega (arith, h.0, h.1)))
          ∙ ap (λ (s : List ℕ). take b.held b.bytes ++ s) (sym h.2)
          ∙ take-append-drop b.held b.bytes)
          i;
      held = length-take-le b.held b.bytes (omega (arith, h.0, h.1)) i;
    } };
}

impl<const N: usize> Buffer<N> {
    pub fn empty() -> Self
        ensures { result ≡ [] }
    {
        Buffer {
            bytes: [0; N],
            held: 0,
        }
    }

    // Puts more behind what it holds; where there is no room for all of it, nothing.
    pub fn push(&mut self, more: &[u8])
        ensures fits { length self.old + length more.now ≤ N → self.new ≡ self.old ++ more.now }
        ensures full { N < length self.old + length more.now → self.new ≡ self.old }
    {
        let start = self.held;
        let room = N - start;
        let n = if more.len() <= room { more.len() } else { 0 };
        let end = start + n;
        let bytes = &mut self.bytes[..];
        bytes[start..end].copy_from_slice(&more[..n]);
        self.held = end;
    }

    // What it holds.
    pub fn as_slice(&self) -> &[u8]
        ensures value { result.now ≡ self.now }
        ensures within { length result.now ≤ N }
    {
        &self.bytes[..self.held]
    }
}
