// How both hellos begin.
ghost use Rattle.std.specs.Prelude.{◌≡◌, not, length};
ghost use Rattle.writing.specs.Steps.{opens_outside};

// The version, the random and the session identifier.
#[derive(Clone, Copy)]
pub(crate) struct Opening<'a> {
    pub version: u16,
    pub random: &'a [u8],
    pub identifier: &'a [u8],
}

impl Opening<'_> {
    // Random and identifier are within their bounds.
    pub(crate) fn is_bounded(&self) -> bool
        ensures { not result ≡ opens_outside (length self.now.random.now) (length self.now.identifier.now) }
    {
        self.random.len() == 32 && self.identifier.len() <= 32
    }
}
