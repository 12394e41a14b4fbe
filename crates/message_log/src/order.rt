// Where a handshake stands, and which type of message is in turn there (document 01, 'The message log').
ghost use Rattle.std.specs.Prelude.{◌≡◌};
ghost use Rattle.message_log.specs.Order.{look, turns};
ghost use Rattle.message_log.specs.History.{History, exchanged, from_server};
ghost use Rattle.message_log.specs.Stands.{number, Placed};
ghost use Rattle.message_log.specs.Places.{read, led, Numbered, IsDue};

use crate::kind;
use refusal::Reason;

// Named by the message that was accepted last. A log keeps the number of its place, and the numbers rise along the order, so that it has
// only so many turns.
#[derive(Clone, Copy, PartialEq, Eq)]
pub(crate) enum Place {
    Beginning,
    ClientHello,
    ServerHello,
    ServerCertificate,
    ServerKeyExchange,
    CertificateRequest,
    HelloDone,
    HelloDoneRequested,
    ClientCertificate,
    KeyExchange,
    KeyExchangeCertified,
    CertificateVerify,
    ClientFirst,
    CompleteFull,
    ResumingHello,
    ServerFirst,
    CompleteResumed,
}

impl From<Place> for u8 {
    ghost from_gives = { λ place byte. byte ≡ number (read place) };

    #[tactic(auto, unfolding(crate::specs::Stands::number, crate::specs::Places::read))]
    fn from(place: Place) -> u8 {
        place as u8
    }
}

// A byte of a log that is the number of no place: nothing is in turn there.
impl TryFrom<u8> for Place {
    type Error = Reason;

    ghost try_from_gives = { Numbered };

    #[tactic(auto, unfolding(crate::specs::Stands::number, crate::specs::Places::read))]
    fn try_from(byte: u8) -> Result<Place, Reason> {
        match byte {
            0 => Ok(Place::Beginning),
            1 => Ok(Place::ClientHello),
            2 => Ok(Place::ServerHello),
            3 => Ok(Place::ServerCertificate),
            4 => Ok(Place::ServerKeyExchange),
            5 => Ok(Place::CertificateRequest),
            6 => Ok(Place::HelloDone),
            7 => Ok(Place::HelloDoneRequested),
            8 => Ok(Place::ClientCertificate),
            9 => Ok(Place::KeyExchange),
            10 => Ok(Place::KeyExchangeCertified),
            11 => Ok(Place::CertificateVerify),
            12 => Ok(Place::ClientFirst),
            13 => Ok(Place::CompleteFull),
            14 => Ok(Place::ResumingHello),
            15 => Ok(Place::ServerFirst),
            16 => Ok(Place::CompleteResumed),
            _ => Err(Reason::OutOfTurn),
        }
    }
}

// A Finished that is in turn: is it the server's, and where does it lead?
#[derive(Clone, Copy)]
pub(crate) struct Due {
    pub server: bool,
    pub next: Place,
}

impl Place {
    // The place that a message of this type leads to, if it is in turn.
    #[tactic(auto, unfolding(crate::specs::Order::turns, crate::specs::Order::look, crate::specs::Places::read))]
    pub(crate) fn next(self, kind: u8, resumes: bool) -> Option<Place>
        ensures { led result ≡ look kind (turns resumes (read self)) }
    {
        match (self, kind) {
            (Place::Beginning, kind::CLIENT_HELLO) => Some(Place::ClientHello),
            (Place::ClientHello, kind::SERVER_HELLO) if resumes => Some(Place::ResumingHello),
            (Place::ClientHello, kind::SERVER_HELLO) => Some(Place::ServerHello),
            (Place::ServerHello, kind::CERTIFICATE) => Some(Place::ServerCertificate),
            (Place::ServerHello | Place::ServerCertificate, kind::SERVER_KEY_EXCHANGE) => {
                Some(Place::ServerKeyExchange)
            }
            (
                Place::ServerHello | Place::ServerCertificate | Place::ServerKeyExchange,
                kind::CERTIFICATE_REQUEST,
            ) => Some(Place::CertificateRequest),
            (
                Place::ServerHello | Place::ServerCertificate | Place::ServerKeyExchange,
                kind::HELLO_DONE,
            ) => Some(Place::HelloDone),
            (Place::CertificateRequest, kind::HELLO_DONE) => Some(Place::HelloDoneRequested),
            (Place::HelloDone, kind::CLIENT_KEY_EXCHANGE) => Some(Place::KeyExchange),
            (Place::HelloDoneRequested, kind::CERTIFICATE) => Some(Place::ClientCertificate),
            (Place::ClientCertificate, kind::CLIENT_KEY_EXCHANGE) => {
                Some(Place::KeyExchangeCertified)
            }
            (Place::KeyExchangeCertified, kind::CERTIFICATE_VERIFY) => {
                Some(Place::CertificateVerify)
            }
            (
                Place::KeyExchange | Place::KeyExchangeCertified | Place::CertificateVerify,
                kind::FINISHED,
            ) => Some(Place::ClientFirst),
            (Place::ClientFirst, kind::FINISHED) => Some(Place::CompleteFull),
            (Place::ResumingHello, kind::FINISHED) => Some(Place::ServerFirst),
            (Place::ServerFirst, kind::FINISHED) => Some(Place::CompleteResumed),
            _ => None,
        }
    }

    // The Finished that is in turn, if one is.
    pub(crate) fn due(self) -> Option<Due>
        ensures { (h : History) → Placed (number (read self)) h → IsDue h result }
    {
        let next = self.next(kind::FINISHED, false)?;
        let server = self.from_server();
        Some(Due { server, next })
    }

    // Is it the server's?
    fn from_server(self) -> bool
        ensures { (h : History) → Placed (number (read self)) h → result ≡ from_server h }
    {
        matches!(self, Place::ClientFirst | Place::ResumingHello)
    }

    // Was a ClientKeyExchange accepted? So it was in the full order from there on.
    pub(crate) fn exchanged(self) -> bool
        ensures { (h : History) → Placed (number (read self)) h → result ≡ exchanged h }
    {
        matches!(
            self,
            Place::KeyExchange
                | Place::KeyExchangeCertified
                | Place::CertificateVerify
                | Place::ClientFirst
                | Place::CompleteFull
        )
    }
}
