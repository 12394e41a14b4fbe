// The hash value as C has it.
ghost use Rattle.std.specs.Prelude.{◌≡◌};
ghost use Rattle.fips180.specs.Layout.{value_of as value_of_words};
ghost use Rattle.sha256.specs.Layout.{value_of};
ghost use Rattle.sha256.specs.Constants.{initial};
ghost use Rattle.sha256.specs.Compress.{output};

use crate::words::bytes;
use fips180::Words;

// Eight words, as C has the hash value. Contracts speak of them as `Value` of specs/.
// Kept: C interface: a struct with a type parameter, or a field of such a type, is refused in the signature of an exported function.
#[repr(C)]
#[derive(Clone, Copy)]
pub struct State {
    pub a: u32,
    pub b: u32,
    pub c: u32,
    pub d: u32,
    pub e: u32,
    pub f: u32,
    pub g: u32,
    pub h: u32,
}

impl From<State> for Words<u32> {
    ghost from_gives = { λ s w. value_of_words (λ x. x) w ≡ value_of s };

    fn from(s: State) -> Words<u32> {
        Words {
            a: s.a,
            b: s.b,
            c: s.c,
            d: s.d,
            e: s.e,
            f: s.f,
            g: s.g,
            h: s.h,
        }
    }
}

impl From<Words<u32>> for State {
    ghost from_gives = { λ w s. value_of s ≡ value_of_words (λ x. x) w };

    fn from(w: Words<u32>) -> State {
        State {
            a: w.a,
            b: w.b,
            c: w.c,
            d: w.d,
            e: w.e,
            f: w.f,
            g: w.g,
            h: w.h,
        }
    }
}

// The first hash value.
pub(crate) fn initial() -> Words<u32>
    ensures { value_of_words (λ x. x) result ≡ initial }
{
    Words {
        a: 0x6a09e667,
        b: 0xbb67ae85,
        c: 0x3c6ef372,
        d: 0xa54ff53a,
        e: 0x510e527f,
        f: 0x9b05688c,
        g: 0x1f83d9ab,
        h: 0x5be0cd19,
    }
}

// The digest of a hash value.
pub(crate) fn output(w: Words<u32>) -> [u8; 32]
    ensures { result ≡ output (value_of_words (λ x. x) w) }
{
    bytes([w.a, w.b, w.c, w.d, w.e, w.f, w.g, w.h])
}
