// The hashes that a log carries from message to message. Upper parts know what they stand for (`Carries` of specs/), and not how one is
// laid out.
#![tactic(auto)]

mod algorithm;

ghost use Rattle.std.specs.Prelude.{◌≡◌, List, [], ℕ, ◌≤◌};
ghost use Rattle.sha256.specs.Sha256.{sha256};
ghost use Rattle.sha384.specs.Sha384.{sha384};
ghost use Rattle.transcript.specs.Choice.{Choice, algorithm_by, algorithm_of};
ghost use Rattle.transcript.specs.Choice.Algorithm.{sha_256, sha_384};
ghost use Rattle.transcript.specs.Choice.Choice.{unchosen};
ghost use Rattle.transcript.specs.Allowance.{let_in};
ghost use Rattle.transcript.specs.Carries.{Carries, choice_in};
ghost use Rattle.transcript.specs.Told.{told_in};
ghost use Rattle.transcript.specs.Promise.{EntersTo, worked};

pub use algorithm::Algorithm;
use sha256::Hash;
use sha384::Hash384;

#[repr(C)]
#[derive(Clone, Copy)]
pub struct Transcript {
    // one that isn't carried is fresh
    pub sha256: Hash,
    pub sha384: Hash384,
    // 1 for SHA-256 alone, 2 for SHA-384 alone, any other byte for both
    // Kept: C interface, a byte of the C struct Log.
    pub choice: u8,
}

// How many blocks of each hash were worked.
#[repr(C)]
#[derive(Clone, Copy)]
pub struct Blocks {
    pub sha256: usize,
    pub sha384: usize,
}

impl Transcript {
    pub fn fresh() -> Transcript
        ensures { Carries result unchosen [] }
    {
        Transcript {
            sha256: Hash::fresh(),
            sha384: Hash384::fresh(),
            choice: 0,
        }
    }

    // The hash that is carried alone, once it is chosen.
    pub fn chosen(&self) -> Option<Algorithm>
        ensures { told_in result ≡ choice_in self.now }
    {
        match self.choice {
            1 => Some(Algorithm::Sha256),
            2 => Some(Algorithm::Sha384),
            _ => None,
        }
    }

    // Is SHA-384 chosen?
    pub fn is_sha384(&self) -> bool
        ensures { (c : Choice) (m : List ℕ) → Carries self.now c m → algorithm_of c ≡ algorithm_by result }
    {
        self.chosen() == Some(Algorithm::Sha384)
    }

    // How many of the bytes that are left an allowance of blocks lets in. Where both are carried SHA-256 has the smaller room.
    pub fn lets_in(&self, allowance: u16, left: usize) -> usize
        ensures { (result ≤ left) × ((c : Choice) (m : List ℕ) → Carries self.now c m → result ≡ let_in c allowance m left) }
    {
        let blocks = allowance as usize + 1;
        let room = if self.is_sha384() {
            128 * blocks - 1 - self.sha384.waiting()
        } else {
            64 * blocks - 1 - self.sha256.waiting()
        };
        left.min(room)
    }

    // More bytes, for a caller that knows that there is room. Behind them the transcript carries what it did, or of both hashes the one that
    // is told.
    pub fn enter(mut self, bytes: &[u8], told: Option<Algorithm>, blocks: &mut Blocks) -> Transcript
        ensures { EntersTo self bytes.now (told_in told) result (worked blocks.new) }
    {
        *blocks = self.take(bytes, told);
        self
    }

    // The same where it lies, for a log that keeps it in a place of its own.
    pub fn take(&mut self, bytes: &[u8], told: Option<Algorithm>) -> Blocks
        ensures { EntersTo self.old bytes.now (told_in told) self.new (worked result) }
    {
        let mut blocks = Blocks {
            sha256: 0,
            sha384: 0,
        };
        match self.chosen() {
            Some(Algorithm::Sha256) => self.sha256.take(bytes, &mut blocks.sha256),
            Some(Algorithm::Sha384) => self.sha384.take(bytes, &mut blocks.sha384),
            None => {
                self.sha256.take(bytes, &mut blocks.sha256);
                self.sha384.take(bytes, &mut blocks.sha384);
                match told {
                    Some(Algorithm::Sha256) => {
                        self.sha384 = Hash384::fresh();
                        self.choice = u8::from(Algorithm::Sha256);
                    }
                    Some(Algorithm::Sha384) => {
                        self.sha256 = Hash::fresh();
                        self.choice = u8::from(Algorithm::Sha384);
                    }
                    None => {}
                }
            }
        }
        blocks
    }

    // Kept: as one function with a trait for the field there are the same two bodies, and a trait besides.
    pub fn digest256(&self) -> [u8; 32]
        ensures { (c : Choice) (m : List ℕ) → Carries self.now c m → algorithm_of c ≡ sha_256 → result ≡ sha256 m }
    {
        self.sha256.digest()
    }

    pub fn digest384(&self) -> [u8; 48]
        ensures { (c : Choice) (m : List ℕ) → Carries self.now c m → algorithm_of c ≡ sha_384 → result ≡ sha384 m }
    {
        self.sha384.digest()
    }
}
