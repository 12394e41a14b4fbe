// SHA-384 (document 02, order 7).
ghost use Rattle.std.specs.Prelude.{◌≡◌, List, [], ℕ};
ghost use Rattle.sha384.specs.Running.{Running};
ghost use Rattle.sha384.specs.Sha384.{sha384};
ghost use Rattle.sha384.specs.Promise.{Absorbs, digested_of};

use sha384::{Absorbed384, Digested384, Hash384};

// An array crosses the C face in a struct.
#[repr(C)]
#[derive(Clone, Copy)]
pub struct Digest384 {
    pub bytes: [u8; 48],
}

#[unsafe(no_mangle)]
pub extern "C" fn axle_hash384_fresh() -> Hash384
    ensures { Running result [] }
{
    Hash384::fresh()
}

#[unsafe(no_mangle)]
pub extern "C" fn axle_hash384_absorb(hash: Hash384, bytes: &[u8]) -> Absorbed384
    ensures { Absorbs hash bytes.now result }
{
    hash.absorb(bytes)
}

#[unsafe(no_mangle)]
pub extern "C" fn axle_hash384_digest(hash: Hash384) -> Digest384
    ensures { (m : List ℕ) → Running hash m → result.bytes ≡ sha384 m }
{
    let bytes = hash.digest();
    Digest384 { bytes }
}

#[unsafe(no_mangle)]
pub extern "C" fn axle_sha384(message: &[u8]) -> Digested384
    ensures { result ≡ digested_of message.now }
{
    sha384::sha384(message)
}
