// How many bytes a hello has, counted before the first one is written. There is no number where a field, the list or the whole is outside
// its bounds.
ghost use Rattle.std.specs.Prelude.{◌≡◌, not, ◌≤◌, ltb, length};
ghost use Rattle.writing.specs.Steps.{size_or, lists_outside, whole_size, client_size, server_size};

use crate::lists::List;
use crate::opening::Opening;
use refusal::Reason;

const LONGEST: usize = 16388;

pub(crate) fn client_size(
    opening: &Opening,
    suites: &[u8],
    methods: &[u8],
    list: &List,
) -> Result<usize, Reason>
    ensures { result ≡ client_size (length opening.now.random.now) (length opening.now.identifier.now) (length suites.now) (length methods.now) list.now.block (length list.now.types.now) (length list.now.«data».now) }
{
    if !opening.is_bounded() || !offers(suites.len(), methods.len()) {
        return Err(Reason::Length);
    }
    whole_size(
        42 + opening.identifier.len() + suites.len() + methods.len(),
        list,
    )
}

pub(crate) fn server_size(opening: &Opening, list: &List) -> Result<usize, Reason>
    ensures { result ≡ server_size (length opening.now.random.now) (length opening.now.identifier.now) list.now.block (length list.now.types.now) (length list.now.«data».now) }
{
    if !opening.is_bounded() {
        return Err(Reason::Length);
    }
    whole_size(42 + opening.identifier.len(), list)
}

// Suites and methods are within their bounds.
pub(crate) fn offers(suites: usize, methods: usize) -> bool
    ensures { not result ≡ lists_outside suites methods }
{
    if suites < 2 || 65534 < suites || suites % 2 != 0 {
        return false;
    }
    1 <= methods && methods <= 255
}

// `front` bytes stand before the extension block. The number of extensions is bounded before it is multiplied.
fn whole_size(front: usize, list: &List) -> Result<usize, Reason>
    requires { front ≤ 131072 }
    ensures { result ≡ whole_size front list.now.block (length list.now.types.now) (length list.now.«data».now) }
{
    let count = list.types.len();
    let bytes = list.data.len();
    if !list.block {
        if count != 0 {
            return Err(Reason::Length);
        }
        return within(front);
    }
    if LONGEST < count || LONGEST < bytes {
        return Err(Reason::Length);
    }
    within(front + 2 + 4 * count + bytes)
}

fn within(size: usize) -> Result<usize, Reason>
    ensures { result ≡ size_or (ltb 16388 size) size }
{
    if LONGEST < size {
        return Err(Reason::Length);
    }
    Ok(size)
}
