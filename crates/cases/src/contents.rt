// The contents of a case: a count byte, a length of two bytes for each body, and then the bodies.
ghost use Rattle.std.specs.Prelude.{◌≡◌};
ghost use Rattle.cases.specs.Contents.{good_case};

use message::{byte, pair};

const LONGEST: usize = 32768;

// Do the contents and the bodies fill the case exactly? It is judged whole, before any body is used.
pub fn is_good(case: &[u8]) -> bool
    ensures { result ≡ good_case case.now }
{
    if LONGEST < case.len() {
        return false;
    }
    let count = byte(case, 0);
    let size = 1 + 2 * count;
    if case.len() < size {
        return false;
    }
    let mut end = size;
    for i in 0..count {
        end += pair(case, 1 + 2 * i);
    }
    end == case.len()
}
