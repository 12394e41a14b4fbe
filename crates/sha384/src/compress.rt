// The hash value as C has it.
ghost use Rattle.std.specs.Prelude.{◌≡◌};
ghost use Rattle.fips180.specs.Layout.{value_of as value_of_words};
ghost use Rattle.sha384.specs.Layout.{value_of};
ghost use Rattle.sha384.specs.Constants.{initial};
ghost use Rattle.sha384.specs.Compress.{output};

use crate::words::bytes;
use fips180::Words;

// Eight words, as C has the hash value. Contracts speak of them as `Value` of specs/.
// Kept: C interface: a struct with a type parameter, or a field of such a type, is refused in the signature of an exported function.
#[repr(C)]
#[derive(Clone, Copy)]
pub struct State384 {
    pub a: u64,
    pub b: u64,
    pub c: u64,
    pub d: u64,
    pub e: u64,
    pub f: u64,
    pub g: u64,
    pub h: u64,
}

impl From<State384> for Words<u64> {
    ghost from_gives = { λ s w. value_of_words (λ x. x) w ≡ value_of s };

    fn from(s: State384) -> Words<u64> {
        Words {
            a: s.a,
            b: s.b,
            c: s.c,
            d: s.d,
            e: s.e,
            f: s.f,
            g: s.g,
            h: s.h,
        }
    }
}

impl From<Words<u64>> for State384 {
    ghost from_gives = { λ w s. value_of s ≡ value_of_words (λ x. x) w };

    fn from(w: Words<u64>) -> State384 {
        State384 {
            a: w.a,
            b: w.b,
            c: w.c,
            d: w.d,
            e: w.e,
            f: w.f,
            g: w.g,
            h: w.h,
        }
    }
}

// The first hash value.
pub(crate) fn initial() -> Words<u64>
    ensures { value_of_words (λ x. x) result ≡ initial }
{
    Words {
        a: 0xcbbb9d5dc1059ed8,
        b: 0x629a292a367cd507,
        c: 0x9159015a3070dd17,
        d: 0x152fecd8f70e5939,
        e: 0x67332667ffc00b31,
        f: 0x8eb44a8768581511,
        g: 0xdb0c2e0d64f98fa7,
        h: 0x47b5481dbefa4fa4,
    }
}

// The digest of a hash value.
pub(crate) fn output(w: Words<u64>) -> [u8; 48]
    ensures { result ≡ output (value_of_words (λ x. x) w) }
{
    bytes([w.a, w.b, w.c, w.d, w.e, w.f])
}
