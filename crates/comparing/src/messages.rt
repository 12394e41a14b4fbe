// The messages of two cases, number by number.
ghost use Rattle.std.specs.Prelude.{◌≡◌, ◌==◌, true, ◌<◌, length};
ghost use Rattle.std.specs.List.{prefix_len, zip};
ghost use Rattle.cases.specs.Contents.{good_case};
ghost use Rattle.comparing.specs.Differences.{read_differences, hello_differences, message_differences, differences};
ghost use Rattle.comparing.specs.Comparison.{text};
ghost use Rattle.comparing.specs.Steps.{SeenWithin, reading_at};
ghost use Rattle.comparing.specs.Pages.{HasRoom, Puts};

use crate::extensions::put_extensions;
use crate::fields::{Fields, as_client, as_server, put_fields};
use crate::lines::Page;
use message::{byte, pair};
use std::cmp::min;

// How many bytes both begin with alike.
fn common(a: &[u8], b: &[u8]) -> usize
    ensures { result ≡ prefix_len (λ p. p.0 == p.1) (zip a.now b.now) }
{
    a.iter().zip(b).take_while(|(x, y)| x == y).count()
}

// Two hellos, where both were read: their fields, then their extensions.
fn put_hellos(
    page: &mut Page<'_>,
    number: u8,
    a: &[u8],
    first: Option<Fields>,
    b: &[u8],
    second: Option<Fields>,
)
    requires within { SeenWithin a.now first × SeenWithin b.now second }
    requires room { HasRoom page.old (text (read_differences number (reading_at a.now first) (reading_at b.now second))) }
    ensures { Puts page.old (text (read_differences number (reading_at a.now first) (reading_at b.now second))) page.new }
{
    let Some(x) = first else {
        return;
    };
    let Some(y) = second else {
        return;
    };
    put_fields(page, number, a, x, b, y);
    put_extensions(page, number, a, x.list, b, y.list);
}

// Two messages of one number: where they differ at all, the place first.
fn put_message(page: &mut Page<'_>, number: u8, a: &[u8], b: &[u8])
    requires room { HasRoom page.old (text (message_differences number a.now b.now)) }
    requires short { length a.now < 65536 }
    ensures { Puts page.old (text (message_differences number a.now b.now)) page.new }
{
    if octets::same(a, b) {
        return;
    }
    page.put_numbered(number, b"byte ", common(a, b) as u16);
    put_hellos(page, number, a, as_client(a), b, as_client(b));
    put_hellos(page, number, a, as_server(a), b, as_server(b));
}

// The messages that both cases have, in pairs; then those that one has alone.
pub(crate) fn put_messages(page: &mut Page<'_>, a: &[u8], b: &[u8])
    requires first { good_case a.now ≡ true }
    requires second { good_case b.now ≡ true }
    requires room { HasRoom page.old (text (differences a.now b.now)) }
    ensures { Puts page.old (text (differences a.now b.now)) page.new }
{
    let first = byte(a, 0);
    let second = byte(b, 0);
    let both = min(first, second);
    let mut p = 1 + 2 * first;
    let mut q = 1 + 2 * second;
    for i in 0..both {
        let p_end = p + pair(a, 1 + 2 * i);
        let q_end = q + pair(b, 1 + 2 * i);
        put_message(page, (i + 1) as u8, &a[p..p_end], &b[q..q_end]);
        p = p_end;
        q = q_end;
    }
    page.put_alone(both, first, b"first");
    page.put_alone(both, second, b"second");
}
