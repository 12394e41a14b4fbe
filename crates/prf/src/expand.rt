// The chain A(i) and the output that it expands to. Each part goes straight to where the caller wants it.
ghost use Rattle.std.specs.Prelude.{◌≡◌, List, ◌++◌, ℕ, ◌*◌, ◌≤◌, length};
ghost use Rattle.prf.specs.Hash.{hash_over};
ghost use Rattle.prf.specs.Prf.{prf};
ghost use Rattle.prf.specs.Keyed.{KeyedBy, ChainedTo};

use crate::begun::Begun;
use crate::keyed::Keyed;

// A(i + 1), and the first i parts of the output to the front of out. A(0) is the label and the seed, A(i + 1) the HMAC of A(i), and
// part i the HMAC of A(i), the label and the seed. Each part takes a level of the stack.
fn chain<const BLOCK: usize, const DIGEST: usize, H: Begun<BLOCK, DIGEST>>(
    keyed: &Keyed<BLOCK, DIGEST, H>,
    label: &[u8],
    seed: &[u8],
    i: usize,
    out: &mut [u8],
) -> [u8; DIGEST]
    requires { (length label.now ≤ 128) × (length seed.now ≤ 128) × (DIGEST * i ≤ length out.old) }
    ensures { (k : List ℕ) → KeyedBy (hash_over H.hash BLOCK DIGEST) H.begins keyed.now k → ChainedTo (hash_over H.hash BLOCK DIGEST) k (label.now ++ seed.now) i result out.old out.new }
{
    if i == 0 {
        return keyed.tag(&[], label, seed);
    }
    let a = chain(keyed, label, seed, i - 1, out);
    let part = keyed.tag(&a, label, seed);
    let at = DIGEST * (i - 1);
    out[at..at + DIGEST].copy_from_slice(&part);
    keyed.tag(&[], &[], &a)
}

// All of out is written: whole parts, and of the last what there is room for.
pub(crate) fn expand<const BLOCK: usize, const DIGEST: usize, H: Begun<BLOCK, DIGEST>>(
    keyed: &Keyed<BLOCK, DIGEST, H>,
    label: &[u8],
    seed: &[u8],
    out: &mut [u8],
)
    requires { (length label.now ≤ 128) × (length seed.now ≤ 128) × (1 ≤ length out.old) }
    ensures { (k : List ℕ) → KeyedBy (hash_over H.hash BLOCK DIGEST) H.begins keyed.now k → out.new ≡ prf (hash_over H.hash BLOCK DIGEST) k label.now seed.now (length out.old) }
{
    let whole = (out.len() - 1) / DIGEST;
    let a = chain(keyed, label, seed, whole, out);
    let part = keyed.tag(&a, label, seed);
    let at = DIGEST * whole;
    let n = out.len() - at;
    out[at..].copy_from_slice(&part[..n]);
}
