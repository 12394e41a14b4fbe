// The extensions of two hellos that were read, by their types, the lowest first.
ghost use Rattle.std.specs.Prelude.{◌≡◌, List, [], ◌∷◌, ◌++◌, ℕ, ◌+◌, ◌≤◌, ◌<◌, ◌⊎◌, length};
ghost use Rattle.hello.specs.Extensions.{Extension};
ghost use Rattle.hello.specs.Places.{behind, bytes_at};
ghost use Rattle.comparing.specs.Differences.{How, difference, unless, extension_differences};
ghost use Rattle.comparing.specs.Comparison.{text};
ghost use Rattle.comparing.specs.Steps.{handed, least, IsLowest, IsLesser, matched};
ghost use Rattle.comparing.specs.Pages.{HasRoom, Puts};

use crate::fields::same_part;
use crate::lines::Page;
use hello::{Next, Part, next_extension};
use std::cmp::min;

// An extension of a message: its type, and where its data stands.
#[derive(Clone, Copy)]
pub(crate) struct Found {
    pub kind: u16,
    pub data: Part,
}

// The lower one of the two, of those that are not below `low`; of two of one type the first.
fn lower(best: Option<Found>, next: Next, low: usize) -> Option<Found>
    ensures { (m : List ℕ) (es : List Extension) → IsLowest m es low (least best) → behind next.«data» ≤ length m → IsLowest m (es ++ (record { kind = next.kind; content = bytes_at m next.«data» } ∷ [])) low (least result) }
{
    let kind = next.kind;
    if (kind as usize) < low {
        return best;
    }
    let data = next.data;
    let Some(best) = best else {
        return Some(Found { kind, data });
    };
    if best.kind <= kind {
        return Some(best);
    }
    Some(Found { kind, data })
}

// The one of the lowest type from type `low` on, if there is one.
fn lowest(message: &[u8], list: usize, low: usize) -> Option<Found>
    ensures { IsLowest message.now (handed message.now list) low (least result) }
{
    let mut best = None;
    let mut at = list;
    // Kept: C interface, whose `Next` has the flag and the place to ask next.
    loop {
        let next = next_extension(message, at);
        if next.found == 0 {
            return best;
        }
        best = lower(best, next, low);
        at = next.next;
    }
}

// The lower type of the two.
fn lesser(x: Option<Found>, y: Option<Found>) -> Option<u16>
    ensures { IsLesser (least x).kind (least y).kind result }
{
    let Some(x) = x else {
        return Some(y?.kind);
    };
    let Some(y) = y else {
        return Some(x.kind);
    };
    Some(min(x.kind, y.kind))
}

// Are both there, of one type, and have they the same data?
fn match_data(a: &[u8], x: Option<Found>, b: &[u8], y: Option<Found>) -> bool
    requires found { ((least x).kind < 65536) ⊎ ((least y).kind < 65536) }
    requires within { (behind (least x).«data» ≤ length a.now) × (behind (least y).«data» ≤ length b.now) }
    ensures { result ≡ matched a.now (least x) b.now (least y) }
{
    let Some((x, y)) = x.zip(y) else {
        return false;
    };
    x.kind == y.kind && same_part(a, x.data, b, y.data)
}

// A line, but where the two are the same.
fn put_extension(page: &mut Page<'_>, number: u8, kind: u16, same: bool)
    requires { HasRoom page.old (text (unless same (difference number (How.extension kind)))) }
    ensures { Puts page.old (text (unless same (difference number (How.extension kind)))) page.new }
{
    if !same {
        page.put_numbered(number, b"extension ", kind);
    }
}

// From one type that stands in either list to the next. The lists begin at places i and j.
pub(crate) fn put_extensions(
    page: &mut Page<'_>,
    number: u8,
    a: &[u8],
    i: usize,
    b: &[u8],
    j: usize,
)
    requires { HasRoom page.old (text (extension_differences number (handed a.now i) (handed b.now j))) }
    ensures { Puts page.old (text (extension_differences number (handed a.now i) (handed b.now j))) page.new }
{
    let mut low: usize = 0;
    loop {
        let x = lowest(a, i, low);
        let y = lowest(b, j, low);
        let Some(kind) = lesser(x, y) else {
            return;
        };
        put_extension(page, number, kind, match_data(a, x, b, y));
        low = kind as usize + 1;
    }
}
