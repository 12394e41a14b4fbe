// HMAC and the master secrets (document 01, 'Secrets'; document 02, order 7).
ghost use Rattle.std.specs.Prelude.{◌≡◌, length};
ghost use Rattle.seqs.specs.Flag.{yes};
ghost use Rattle.prf.specs.Hash.{hash_by};
ghost use Rattle.prf.specs.Secrets.{extended_master_secret, master_secret};
ghost use Rattle.prf.specs.Promise.{tagged_of, tagged384_of, secret_number, Derives};

use prf::{Tagged, Tagged384};
use refusal::Refusal;

#[unsafe(no_mangle)]
pub extern "C" fn axle_hmac(key: &[u8], message: &[u8]) -> Tagged
    ensures { result ≡ tagged_of key.now message.now }
{
    prf::hmac(key, message)
}

#[unsafe(no_mangle)]
pub extern "C" fn axle_hmac_sha384(key: &[u8], message: &[u8]) -> Tagged384
    ensures { result ≡ tagged384_of key.now message.now }
{
    prf::hmac384(key, message)
}

#[unsafe(no_mangle)]
pub extern "C" fn axle_extended_master_secret(
    sha384: u8,
    pre_master: &[u8],
    session_hash: &[u8],
    out: &mut [u8],
) -> Refusal
    ensures { Derives (secret_number (hash_by (yes sha384)).width (length pre_master.now) (length session_hash.now) (length out.old)) (extended_master_secret (hash_by (yes sha384)) pre_master.now session_hash.now) out.old out.new result }
{
    prf::extended_master_secret(sha384 != 0, pre_master, session_hash, out)
}

#[unsafe(no_mangle)]
pub extern "C" fn axle_master_secret(
    sha384: u8,
    pre_master: &[u8],
    randoms: &[u8],
    out: &mut [u8],
) -> Refusal
    ensures { Derives (secret_number 64 (length pre_master.now) (length randoms.now) (length out.old)) (master_secret (hash_by (yes sha384)) pre_master.now randoms.now) out.old out.new result }
{
    prf::master_secret(sha384 != 0, pre_master, randoms, out)
}
