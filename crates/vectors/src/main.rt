// The published vectors, run: cases from standard input, on standard output two lines of hex for each, SHA-256's and SHA-384's.
//
// A case: the length of the message (2 bytes, big-endian), how often it is repeated (2 bytes), the message.
#![tactic(auto)]

ghost use Rattle.std.specs.Prelude.{◌<◌, ◌≤◌, length, IfSome};

use sha256::Hash;
use sha384::Hash384;

fn main(rt: HostRuntime) {
    let mut cases = io::large_buffer();
    // What came before a read that failed is run too.
    let n = match stdio::read_from(&mut rt.stdin(), &mut cases) {
        Ok(n) => n,
        Err(failed) => failed.length,
    };
    run(&rt, &cases[..n]);
}

// Each case in turn, up to the first that is not whole.
fn run<R: Print>(rt: &R, cases: &[u8]) {
    let mut rest = cases;
    while let Some(case) = first(rest) {
        let piece = case.piece;
        let fold = (0..case.times).fold(Hash::fresh(), |hash, _| hash.absorb(piece).hash);
        print(rt, &fold.digest());
        let fold = (0..case.times).fold(Hash384::fresh(), |hash, _| hash.absorb(piece).hash);
        print(rt, &fold.digest());
        rest = case.rest;
    }
}

// A piece of a message, how often it is repeated, and what is behind the case.
#[derive(Clone, Copy)]
struct Case<'a> {
    piece: &'a [u8],
    times: usize,
    rest: &'a [u8],
}

fn first(cases: &[u8]) -> Option<Case>
    ensures { IfSome result (λ c. length c.rest.now < length cases.now) }
{
    let (head, behind) = cases.split_at_checked(4)?;
    let (piece, rest) = behind.split_at_checked(message::pair(head, 0))?;
    Some(Case {
        piece,
        times: message::pair(head, 2),
        rest,
    })
}

// A line of hex, by one write.
fn print<R: Print>(rt: &R, digest: &[u8])
    requires { length digest.now ≤ 48 }
{
    let mut line = [b'\n'; 97];
    for (i, byte) in digest.iter().enumerate() {
        line[2 * i] = digit(byte / 16);
        line[2 * i + 1] = digit(byte % 16);
    }
    let _ = rt.write_all(&line[..2 * digest.len() + 1]);
}

fn digit(n: u8) -> u8
    requires { n < 16 }
{
    match n {
        0..=9 => b'0' + n,
        _ => b'a' + (n - 10),
    }
}
