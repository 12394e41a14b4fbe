// SHA-256 (document 01, 'Secrets').
ghost use Rattle.std.specs.Prelude.{◌≡◌, List, [], ℕ};
ghost use Rattle.sha256.specs.Running.{Running};
ghost use Rattle.sha256.specs.Sha256.{sha256};
ghost use Rattle.sha256.specs.Promise.{Absorbs, digested_of};

use sha256::{Absorbed, Digested, Hash};

// An array crosses the C face in a struct.
#[repr(C)]
#[derive(Clone, Copy)]
pub struct Digest {
    pub bytes: [u8; 32],
}

#[unsafe(no_mangle)]
pub extern "C" fn axle_hash_fresh() -> Hash
    ensures { Running result [] }
{
    Hash::fresh()
}

#[unsafe(no_mangle)]
pub extern "C" fn axle_hash_absorb(hash: Hash, bytes: &[u8]) -> Absorbed
    ensures { Absorbs hash bytes.now result }
{
    hash.absorb(bytes)
}

#[unsafe(no_mangle)]
pub extern "C" fn axle_hash_digest(hash: Hash) -> Digest
    ensures { (m : List ℕ) → Running hash m → result.bytes ≡ sha256 m }
{
    let bytes = hash.digest();
    Digest { bytes }
}

#[unsafe(no_mangle)]
pub extern "C" fn axle_sha256(message: &[u8]) -> Digested
    ensures { result ≡ digested_of message.now }
{
    sha256::sha256(message)
}
