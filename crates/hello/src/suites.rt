// A list of cipher suites (RFC 5246, section 7.4.1.2).
ghost use Rattle.std.specs.Prelude.{◌≡◌};
ghost use Rattle.hello.specs.Fields.{lists};

use message::pair;

// Is the suite in the list? A suite is two bytes, and stands there whole.
pub fn lists_suite(suites: &[u8], suite: u16) -> bool
    ensures { result ≡ lists suite suites.now }
{
    suites
        .chunks_exact(2)
        .any(|bytes| pair(bytes, 0) == suite as usize)
}
