// The fields of two hellos that were read, compared by their bytes, wherever they stand.
ghost use Rattle.std.specs.Prelude.{◌≡◌, Bool, ◌+◌, ◌≤◌, length};
ghost use Rattle.octets.specs.Same.{same};
ghost use Rattle.hello.specs.Fields.{read_client, read_server};
ghost use Rattle.hello.specs.Places.{behind, bytes_at};
ghost use Rattle.comparing.specs.Differences.{How, difference, unless, field_differences};
ghost use Rattle.comparing.specs.Comparison.{text};
ghost use Rattle.comparing.specs.Steps.{Sees, Within, hello_at};
ghost use Rattle.comparing.specs.Pages.{HasRoom, Puts};

use crate::lines::Page;
use hello::{Part, read_client_hello, read_server_hello};

// A hello that was read, client's or server's: where its fields stand in the message.
#[derive(Clone, Copy)]
pub(crate) struct Fields {
    pub version: u16,
    pub random: Part,
    pub identifier: Part,
    pub suites: Part,
    pub methods: Part,
    // where the list of extensions begins
    pub list: usize,
}

pub(crate) fn as_client(message: &[u8]) -> Option<Fields>
    ensures { Sees message.now (read_client message.now) result }
{
    let hello = read_client_hello(message).ok()?;
    let list = hello.extensions.list.at;
    Some(Fields {
        version: hello.version,
        random: hello.random,
        identifier: hello.identifier,
        suites: hello.suites,
        methods: hello.methods,
        list,
    })
}

// Its one suite stands behind the identifier, and its one method behind the suite.
pub(crate) fn as_server(message: &[u8]) -> Option<Fields>
    ensures { Sees message.now (read_server message.now) result }
{
    let hello = read_server_hello(message).ok()?;
    let identifier = hello.identifier;
    let suite = identifier.at + identifier.length;
    let list = hello.extensions.list.at;
    Some(Fields {
        version: hello.version,
        random: hello.random,
        identifier,
        suites: Part {
            at: suite,
            length: 2,
        },
        methods: Part {
            at: suite + 2,
            length: 1,
        },
        list,
    })
}

// Have two parts the same bytes?
pub(crate) fn same_part(a: &[u8], p: Part, b: &[u8], q: Part) -> bool
    requires { (behind p ≤ length a.now) × (behind q ≤ length b.now) }
    ensures { result ≡ same (bytes_at a.now p) (bytes_at b.now q) }
{
    let i = p.at;
    let j = i + p.length;
    let k = q.at;
    let l = k + q.length;
    octets::same(&a[i..j], &b[k..l])
}

// A line, but where the two are the same.
fn put_field(page: &mut Page<'_>, number: u8, name: &[u8], same: bool)
    requires { HasRoom page.old (text (unless same (difference number (How.field name.now)))) }
    ensures { Puts page.old (text (unless same (difference number (How.field name.now)))) page.new }
{
    if !same {
        page.put_line(number, b"field ", name);
    }
}

pub(crate) fn put_fields(page: &mut Page<'_>, number: u8, a: &[u8], x: Fields, b: &[u8], y: Fields)
    requires within { Within a.now x × Within b.now y }
    requires room { HasRoom page.old (text (field_differences number (hello_at a.now x) (hello_at b.now y))) }
    ensures { Puts page.old (text (field_differences number (hello_at a.now x) (hello_at b.now y))) page.new }
{
    let random = same_part(a, x.random, b, y.random);
    let identifier = same_part(a, x.identifier, b, y.identifier);
    let suites = same_part(a, x.suites, b, y.suites);
    let methods = same_part(a, x.methods, b, y.methods);
    put_field(page, number, b"version", x.version == y.version);
    put_field(page, number, b"random", random);
    put_field(page, number, b"identifier", identifier);
    put_field(page, number, b"suites", suites);
    put_field(page, number, b"methods", methods);
}
