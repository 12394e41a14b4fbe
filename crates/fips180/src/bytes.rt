// Bytes into a block.
ghost use Rattle.std.specs.Prelude.{◌≡◌, ◌+◌, ◌<◌, ◌≤◌, length};
ghost use Rattle.std.proofs.Math.Seq.{paste};
ghost use Rattle.seqs.specs.Taken.{sealed};

// The bytes b at index at.
// Kept: byte by byte, since `copy_from_slice` asks for memmove, and the archive promises C to ask for memcpy and memset alone.
pub(crate) fn lay(block: &mut [u8], at: usize, b: &[u8])
    requires { at + length b.now ≤ length block.old }
    ensures { block.new ≡ paste block.old at b.now (length b.now) }
{
    for i in 0..b.len() {
        block[at + i] = b[i];
    }
}

// A one bit behind the first at bytes, and zeros to the end of the block, whatever stood there. In a running hash zeros stand there
// already; docs/DECISIONS.md, "Speed", says why they are written.
pub(crate) fn seal(block: &mut [u8], at: usize)
    requires { at < length block.old }
    ensures { block.new ≡ sealed (length block.old) block.old at }
{
    block[at] = 128;
    block[at + 1..].fill(0);
}
