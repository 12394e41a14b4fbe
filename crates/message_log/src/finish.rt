// A Finished: what is expected of it, and the one call that checks and takes it.
ghost use Rattle.std.specs.Prelude.{◌≡◌, length};
ghost use Rattle.prf.specs.Hash.{hash_over};
ghost use Rattle.prf.specs.Secrets.{verify_data};
ghost use Rattle.message_log.specs.History.{History, from_server};
ghost use Rattle.message_log.specs.Standing.{Standing};
ghost use Rattle.message_log.specs.Standing.Standing.{whole};
ghost use Rattle.message_log.specs.Finish.{expected_value};
ghost use Rattle.message_log.specs.Stands.{Stands};
ghost use Rattle.message_log.specs.Places.{IsDueTo};
ghost use Rattle.message_log.specs.Promise.{Finishes, Expects};
ghost use Rattle.message_log.specs.Steps.{expected_by, Asks, Checks, Takes};

use crate::answers::{Accepted, Expected};
use crate::order::{Due, Place};
use crate::state::Log;
use crate::{kind, shape};
use prf::Begun;
use refusal::{Reason, Refusal, refuse};
use sha256::State;
use sha384::State384;

// How long a master secret is.
const SECRET: usize = 48;

// A Finished that is due, and the verify_data that it carries, as is expected of it.
#[derive(Clone, Copy)]
pub(crate) struct Carried {
    pub due: Due,
    pub value: [u8; 12],
}

impl Log {
    // The Finished that is due is checked and taken, or refused.
    pub fn finish(self, secret: &[u8], message: &[u8]) -> Accepted
        ensures { Finishes self secret.now message.now result }
    {
        match self.checked(secret, message) {
            Ok(carried) => {
                let value = carried.value;
                let log = self.taking(message, value, carried.due);
                return Accepted {
                    refusal: refuse(0),
                    log,
                };
            }
            Err(reason) => {
                return Accepted {
                    refusal: Refusal::from(reason),
                    log: self,
                };
            }
        }
    }

    // Asks before a byte is taken. A log goes by value here: of one that is lent the compiler makes a copy in the caller's frame.
    fn checked(self, secret: &[u8], message: &[u8]) -> Result<Carried, Reason>
        ensures { Checks self secret.now message.now result }
    {
        let due = self.ask(secret, message)?;
        let value = self.value(secret, due.server);
        if !shape::carries(message, value) {
            return Err(Reason::Differs);
        }
        Ok(Carried { due, value })
    }

    // The log that has taken a Finished with this verify_data. By value and in a frame of its own, so that it is not on the stack beside the
    // keys of the expected value.
    #[inline(never)]
    fn taking(mut self, message: &[u8], value: [u8; 12], due: Due) -> Log
        ensures { Takes self message.now value due result }
    {
        let chosen = self.hash.chosen();
        self.hash.take(message, chosen);
        self.place = u8::from(due.next);
        if due.server {
            self.server = value;
        } else {
            self.client = value;
        }
        self
    }

    // What is asked before the value is computed.
    fn ask(self, secret: &[u8], message: &[u8]) -> Result<Due, Reason>
        ensures { Asks self secret.now message.now result }
    {
        if secret.len() != SECRET {
            return Err(Reason::Length);
        }
        let kind = shape::judge(message)?;
        if kind != kind::FINISHED {
            return Err(Reason::OutOfTurn);
        }
        self.due().ok_or(Reason::OutOfTurn)
    }

    // The Finished that is in turn. Between the parts of a message none is.
    fn due(self) -> Option<Due>
        ensures { (s : Standing) → Stands self s → IsDueTo s result }
    {
        if self.left != 0 {
            return None;
        }
        Place::try_from(self.place).ok()?.due()
    }

    // verify_data of the Finished that is due.
    pub fn expected_finished(self, secret: &[u8]) -> Expected
        ensures { Expects self secret.now result }
    {
        match self.try_expected(secret) {
            Ok(value) => Expected {
                refusal: refuse(0),
                value,
            },
            Err(reason) => Expected {
                refusal: Refusal::from(reason),
                value: [0; 12],
            },
        }
    }

    fn try_expected(self, secret: &[u8]) -> Result<[u8; 12], Reason>
        ensures { Expects self secret.now (expected_by result) }
    {
        if secret.len() != SECRET {
            return Err(Reason::Length);
        }
        let due = self.due().ok_or(Reason::OutOfTurn)?;
        Ok(self.value(secret, due.server))
    }

    // The same of either side's, whichever is due, by the suite's hash.
    fn value(self, secret: &[u8], server: bool) -> [u8; 12]
        requires { length secret.now ≡ 48 }
        ensures { (h : History) → Stands self (whole h) → server ≡ from_server h → result ≡ expected_value h secret.now }
    {
        if self.hash.is_sha384() {
            return verified::<128, 48, State384>(secret, server, self.hash.digest384());
        }
        verified::<64, 32, State>(secret, server, self.hash.digest256())
    }
}

// In a frame of its own for each hash, so that neither has the other's locals on the stack.
#[inline(never)]
fn verified<const BLOCK: usize, const DIGEST: usize, H: Begun<BLOCK, DIGEST>>(
    secret: &[u8],
    server: bool,
    hash: [u8; DIGEST],
) -> [u8; 12]
    requires { length secret.now ≡ 48 }
    ensures { result ≡ verify_data (hash_over H.hash BLOCK DIGEST) secret.now server hash.entry }
{
    prf::verify_data::<BLOCK, DIGEST, H>(secret, server, hash).unwrap()
}
