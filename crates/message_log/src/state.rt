// The log: a struct that each call hands back as its next state. Every value of it is harmless; what one stands for is `Stands` of specs/.
ghost use Rattle.std.specs.Prelude.{◌≡◌, not, ◌&&◌, List, ℕ, ◌≤◌};
ghost use Rattle.transcript.specs.Choice.{Choice, algorithm_of};
ghost use Rattle.transcript.specs.Carries.{Carries, digest_of};
ghost use Rattle.transcript.specs.Told.{told_in};
ghost use Rattle.transcript.specs.Promise.{worked};
ghost use Rattle.message_log.specs.Told.{told_of};
ghost use Rattle.message_log.specs.Suite.{width_of, in_field};
ghost use Rattle.message_log.specs.History.{exchanged};
ghost use Rattle.message_log.specs.History.History.{fresh};
ghost use Rattle.message_log.specs.Standing.{Standing, history_of, between};
ghost use Rattle.message_log.specs.Standing.Standing.{whole};
ghost use Rattle.message_log.specs.Stands.{Stands};
ghost use Rattle.message_log.specs.Promise.{Accepts, Hashes};
ghost use Rattle.message_log.specs.Steps.{answered, TurnOf, CarriedBehind, Entered};

use crate::answers::{Accepted, SessionHash, Told};
use crate::order::Place;
use crate::{kind, shape};
use refusal::{Reason, Refusal, refuse};
use transcript::{Algorithm, Blocks, Transcript};

// A message that is in turn, as a log keeps it between parts: its type, the number of the place that it leads to, and the hash that was
// told with it: 1 for SHA-384.
#[derive(Clone, Copy)]
pub(crate) struct Turn {
    pub kind: u8,
    pub place: u8,
    pub sha384: u8,
}

// Kept: C interface. The places, the type and the hash are bytes, any of which a caller may hand back.
#[repr(C)]
#[derive(Clone, Copy)]
pub struct Log {
    // every accepted message but type 0, and what has entered of one that is between parts
    pub hash: Transcript,
    // where the handshake stands: the number of a place of `order`
    pub place: u8,
    // the session hash, once there is one, with zeros behind it
    pub session: [u8; 48],
    // verify_data of each side's Finished, once it is taken
    pub client: [u8; 12],
    pub server: [u8; 12],
    // between the parts of a message its type, the place that it leads to, the hash that was told and how many bytes are left; else 0
    pub kind: u8,
    pub next: u8,
    pub sha384: u8,
    pub left: u16,
}

impl Log {
    pub fn fresh() -> Log
        ensures { Stands result (whole fresh) }
    {
        let hash = Transcript::fresh();
        Log {
            hash,
            place: u8::from(Place::Beginning),
            session: [0; 48],
            client: [0; 12],
            server: [0; 12],
            kind: 0,
            next: 0,
            sha384: 0,
            left: 0,
        }
    }

    // The next message, and what is told with a ServerHello, which counts with it alone. A HelloRequest leaves the log as it is, and a
    // Finished goes to `finish`.
    pub fn accept(mut self, message: &[u8], told: Told) -> Accepted
        ensures { Accepts self message.now (told_of told) result }
    {
        let refusal = Refusal::of(self.try_accept(message, told));
        Accepted { refusal, log: self }
    }

    // Refused, the log is as it was.
    fn try_accept(&mut self, message: &[u8], told: Told) -> Result<(), Reason>
        ensures { Accepts self.old message.now (told_of told) (answered result self.new) }
    {
        if let Some(turn) = self.turn(message, told)? {
            self.entered(message, turn, 0);
        }
        Ok(())
    }

    // Where does the message lead, if it is in turn? None for a HelloRequest, which leads nowhere else.
    pub(crate) fn turn(&self, message: &[u8], told: Told) -> Result<Option<Turn>, Reason>
        ensures { TurnOf self.now message.now (told_of told) result }
    {
        let kind = shape::judge(message)?;
        if self.left != 0 {
            return Err(Reason::OutOfTurn);
        }
        if kind == kind::HELLO_REQUEST {
            return Ok(None);
        }
        if kind == kind::FINISHED {
            return Err(Reason::OutOfTurn);
        }
        let place = Place::try_from(self.place)?
            .next(kind, told.resumes != 0)
            .ok_or(Reason::OutOfTurn)?;
        Ok(Some(Turn {
            kind,
            place: u8::from(place),
            sha384: u8::from(told.sha384 != 0),
        }))
    }

    // What is carried behind bytes of a message: a ServerHello that is whole chooses the hash.
    fn carried(&self, turn: Turn, left: u16) -> Option<Algorithm>
        ensures { CarriedBehind self.now turn left (told_in result) }
    {
        if left == 0 && turn.kind == kind::SERVER_HELLO {
            return Some(Algorithm::from(turn.sha384 != 0));
        }
        self.hash.chosen()
    }

    // These bytes of a message in turn enter the log where it lies, and how many blocks they worked: left bytes are still to come, or none,
    // and the message is accepted.
    pub(crate) fn entered(&mut self, bytes: &[u8], turn: Turn, left: u16) -> Blocks
        ensures { Entered self.old bytes.now turn left self.new (worked result) }
    {
        let told = self.carried(turn, left);
        let blocks = self.hash.take(bytes, told);
        self.left = left;
        if left != 0 {
            self.kind = turn.kind;
            self.next = turn.place;
            self.sha384 = turn.sha384;
            return blocks;
        }
        self.kind = 0;
        self.next = 0;
        self.sha384 = 0;
        self.place = turn.place;
        if turn.kind == kind::CLIENT_KEY_EXCHANGE {
            let session = digest(&self.hash);
            self.session = session;
        }
        blocks
    }

    pub fn session_hash(self) -> SessionHash
        ensures { Hashes self result }
    {
        if !self.exchanged() {
            return SessionHash {
                refusal: Refusal::from(Reason::OutOfTurn),
                length: 0,
                hash: [0; 48],
            };
        }
        let hash = self.session;
        SessionHash {
            refusal: refuse(0),
            length: width(&self.hash),
            hash,
        }
    }

    // Was a ClientKeyExchange accepted? Between the parts of a message that is not answered.
    fn exchanged(&self) -> bool
        ensures { (s : Standing) → Stands self.now s → result ≡ (not (between s) && exchanged (history_of s)) }
    {
        self.left == 0 && matches!(Place::try_from(self.place), Ok(place) if place.exchanged())
    }
}

// The digest of the suite's hash, with zeros behind it.
fn digest(hash: &Transcript) -> [u8; 48]
    ensures { (c : Choice) (m : List ℕ) → Carries hash.now c m → result ≡ in_field (digest_of (algorithm_of c) m) }
{
    if hash.is_sha384() {
        return hash.digest384();
    }
    let mut field = [0u8; 48];
    field[..32].copy_from_slice(&hash.digest256());
    field
}

// How many bytes it has.
fn width(carried: &Transcript) -> u8
    ensures { (result ≤ 48) × ((c : Choice) (m : List ℕ) → Carries carried.now c m → result ≡ width_of (algorithm_of c)) }
{
    if carried.is_sha384() { 48 } else { 32 }
}
