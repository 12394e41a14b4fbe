// The master secrets and the Finished values, with either hash.
ghost use Rattle.std.specs.Prelude.{◌≡◌, ◌≤◌, ⊤, length};
ghost use Rattle.refusal.specs.Reason.{refused, refusal_in};
ghost use Rattle.prf.specs.Hash.{hash_by, hash_over};
ghost use Rattle.prf.specs.Prf.{prf};
ghost use Rattle.prf.specs.Secrets.{extended_master_secret, master_secret, finished_label};
ghost use Rattle.prf.specs.Promise.{secret_number, Tested, Derives, verified_of};

use crate::begun::Begun;
use crate::expand::expand;
use crate::keyed::Keyed;
use refusal::{Reason, Refusal};
use sha256::State;
use sha384::State384;

// How long a master secret is.
const SECRET: usize = 48;

// The lengths that a call for a master secret is given, with a seed that is to be due bytes long.
fn lengths(due: usize, pre_master: usize, seed: usize, out: usize) -> Result<(), Reason>
    ensures { Tested result (secret_number due pre_master seed out) }
{
    if pre_master < 1 || 512 < pre_master || seed != due || out < SECRET {
        return Err(Reason::Length);
    }
    Ok(())
}

// A secret under a label, to the front of out.
#[tactic(auto, using(crate::proofs::Numbers::secret_within))]
fn derive<const BLOCK: usize, const DIGEST: usize, H: Begun<BLOCK, DIGEST>>(
    pre_master: &[u8],
    label: &[u8],
    seed: &[u8],
    due: usize,
    out: &mut [u8],
) -> Result<(), Reason>
    requires { (length label.now ≤ 128) × (due ≤ 128) }
    ensures { Derives (secret_number due (length pre_master.now) (length seed.now) (length out.old)) (prf (hash_over H.hash BLOCK DIGEST) pre_master.now label.now seed.now 48) out.old out.new (refusal_in result) }
{
    lengths(due, pre_master.len(), seed.len(), out.len())?;
    let keyed = Keyed::<BLOCK, DIGEST, H>::by(pre_master);
    expand(&keyed, label, seed, &mut out[..SECRET]);
    Ok(())
}

// The seed is the session hash of RFC 7627, as long as the hash is wide.
pub fn extended_master_secret(
    sha384: bool,
    pre_master: &[u8],
    session_hash: &[u8],
    out: &mut [u8],
) -> Refusal
    ensures { Derives (secret_number (hash_by sha384).width (length pre_master.now) (length session_hash.now) (length out.old)) (extended_master_secret (hash_by sha384) pre_master.now session_hash.now) out.old out.new result }
{
    let label = b"extended master secret";
    if sha384 {
        return Refusal::of(derive::<128, 48, State384>(pre_master, label, session_hash, 48, out));
    }
    Refusal::of(derive::<64, 32, State>(pre_master, label, session_hash, 32, out))
}

// The seed is the client's random and then the server's, with either hash.
pub fn master_secret(sha384: bool, pre_master: &[u8], randoms: &[u8], out: &mut [u8]) -> Refusal
    ensures { Derives (secret_number 64 (length pre_master.now) (length randoms.now) (length out.old)) (master_secret (hash_by sha384) pre_master.now randoms.now) out.old out.new result }
{
    let label = b"master secret";
    if sha384 {
        return Refusal::of(derive::<128, 48, State384>(pre_master, label, randoms, 64, out));
    }
    Refusal::of(derive::<64, 32, State>(pre_master, label, randoms, 64, out))
}

fn finished_label(server: bool) -> [u8; 15]
    ensures { result ≡ finished_label server }
{
    if server {
        *b"server finished"
    } else {
        *b"client finished"
    }
}

// The verify_data of one side, from the hash of the log before its Finished. Each hash has a frame of its own, so that a caller that knows
// both has not the larger one's locals beside the smaller one's.
#[inline(never)]
pub fn verify_data<const BLOCK: usize, const DIGEST: usize, H: Begun<BLOCK, DIGEST>>(
    secret: &[u8],
    server: bool,
    hash: [u8; DIGEST],
) -> Result<[u8; 12], Reason>
    ensures { refused result ≡ verified_of (hash_over H.hash BLOCK DIGEST) secret.now server hash.entry }
{
    if secret.len() != SECRET {
        return Err(Reason::Length);
    }
    let label = finished_label(server);
    let keyed = Keyed::<BLOCK, DIGEST, H>::by(secret);
    let mut value = [0u8; 12];
    expand(&keyed, &label, &hash, &mut value);
    Ok(value)
}
