// Types of messages (HandshakeType of RFC 5246, section 7.4), by their numbers.
// Kept: any byte may come as a type, and the C struct Log keeps one, so an enum would need a variant for every other byte, which must not be
// one of these, and a conversion at each use.
pub(crate) const HELLO_REQUEST: u8 = 0;

pub(crate) const CLIENT_HELLO: u8 = 1;

pub(crate) const SERVER_HELLO: u8 = 2;

pub(crate) const CERTIFICATE: u8 = 11;

pub(crate) const SERVER_KEY_EXCHANGE: u8 = 12;

pub(crate) const CERTIFICATE_REQUEST: u8 = 13;

pub(crate) const HELLO_DONE: u8 = 14;

pub(crate) const CERTIFICATE_VERIFY: u8 = 15;

pub(crate) const CLIENT_KEY_EXCHANGE: u8 = 16;

pub(crate) const FINISHED: u8 = 20;
