// The answer of a writer, and why it refuses.
ghost use Rattle.std.specs.Prelude.{◌≡◌, ltb};
ghost use Rattle.writing.specs.Lists.{misshapen};
ghost use Rattle.writing.specs.Steps.{repeats, judged};
ghost use Rattle.writing.specs.Lent.{lent};

use crate::lists::List;
use refusal::{Reason, Refusal, refuse};

// Kept: C interface.
#[repr(C)]
#[derive(Clone, Copy)]
pub struct Written {
    pub refusal: Refusal,
    // how many bytes the message has; 0 where refused
    pub length: usize,
}

impl From<Result<usize, Reason>> for Written {
    ghost use Rattle.writing.specs.Tried.{written_of};

    ghost from_gives = { λ tried written. written ≡ written_of tried };

    fn from(tried: Result<usize, Reason>) -> Written {
        match tried {
            Ok(length) => Written {
                refusal: refuse(0),
                length,
            },
            Err(reason) => Written {
                refusal: Refusal::from(reason),
                length: 0,
            },
        }
    }
}

// Shapes, repeats, version, output: `room` is the output's length. A writer gives no place.
// Inline, since a list that is lent to a call lies in the caller's frame, which has a limit.
#[inline(always)]
pub(crate) fn judge(
    list: &List,
    wrong_version: bool,
    size: usize,
    room: usize,
) -> Result<(), Reason>
    ensures { result ≡ judged (misshapen (lent list.now)) (repeats list.now.types.now) wrong_version (ltb room size) }
{
    if list.is_misshaped() {
        return Err(Reason::Malformed(0));
    }
    if list.repeats() {
        return Err(Reason::Repeated(0));
    }
    if wrong_version {
        return Err(Reason::Version);
    }
    if room < size {
        return Err(Reason::Length);
    }
    Ok(())
}
