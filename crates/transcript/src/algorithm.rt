// The hashes of the suites that there are.
ghost use Rattle.std.specs.Prelude.{◌≡◌, OnOk, OnErr};
ghost use Rattle.transcript.specs.Choice.{algorithm_by};
ghost use Rattle.transcript.specs.Told.{algorithm_in, byte_of};

#[derive(Clone, Copy, PartialEq, Eq)]
pub enum Algorithm {
    Sha256,
    Sha384,
}

// A caller states it by a flag, yes for SHA-384.
impl From<bool> for Algorithm {
    ghost from_gives = { λ sha384 algorithm. algorithm_in algorithm ≡ algorithm_by sha384 };

    fn from(sha384: bool) -> Algorithm {
        if sha384 {
            Algorithm::Sha384
        } else {
            Algorithm::Sha256
        }
    }
}

// The byte of a transcript that has chosen it.
impl From<Algorithm> for u8 {
    ghost from_gives = { λ algorithm byte. byte ≡ byte_of algorithm };

    fn from(algorithm: Algorithm) -> u8 {
        match algorithm {
            Algorithm::Sha256 => 1,
            Algorithm::Sha384 => 2,
        }
    }
}
