// Bytes of words.
ghost use Rattle.std.specs.Prelude.{◌≡◌};
ghost use Rattle.seqs.specs.Words.{big, bytes_of};

// Kept: over `Word` each would be a method of the trait with two bodies, a loop over it and a law of both, for these few lines.
// Division and remainder by a literal: what `>>` and a cast would do.
pub(crate) fn bytes(w: [u64; 6]) -> [u8; 48]
    ensures { result ≡ bytes_of big 8 w }
{
    let mut b = [0u8; 48];
    for t in 0..6 {
        let x = w[t];
        b[8 * t] = (x / 72057594037927936 % 256) as u8;
        b[8 * t + 1] = (x / 281474976710656 % 256) as u8;
        b[8 * t + 2] = (x / 1099511627776 % 256) as u8;
        b[8 * t + 3] = (x / 4294967296 % 256) as u8;
        b[8 * t + 4] = (x / 16777216 % 256) as u8;
        b[8 * t + 5] = (x / 65536 % 256) as u8;
        b[8 * t + 6] = (x / 256 % 256) as u8;
        b[8 * t + 7] = (x % 256) as u8;
    }
    b
}
