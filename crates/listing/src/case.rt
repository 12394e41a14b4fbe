// The whole text of a case.
ghost use Rattle.std.specs.Prelude.{◌≡◌, true, ◌++◌, ◌≤◌, length};
ghost use Rattle.message_log.specs.History.History.{fresh};
ghost use Rattle.message_log.specs.Standing.Standing.{whole};
ghost use Rattle.cases.specs.Contents.{good_case, bodies_of};
ghost use Rattle.listing.specs.Texts.{header};
ghost use Rattle.listing.specs.Listing.{lines, listing};

use crate::feed::feed;
use cases::{Buffer, is_good};
use message::{byte, pair};
use message_log::Log;

// 23 bytes of header, and 255 lines of at most 16.
pub type Text = Buffer<4103>;

// What a case prints, whatever its bytes are.
pub fn list(case: &[u8]) -> Text
    ensures text { result ≡ listing case.now }
    ensures within { length result ≤ 4103 }
{
    if is_good(case) {
        return lines(case);
    }
    let mut text = headed();
    text.push(b"contents refused\n");
    text
}

fn headed() -> Text
    ensures { result ≡ header }
{
    let mut text = Buffer::empty();
    text.push(b"message type log hello\n");
    text
}

// The messages are fed one after the other to one log, which a refused one leaves as it was.
fn lines(case: &[u8]) -> Text
    requires { good_case case.now ≡ true }
    ensures text { result ≡ header ++ lines 1 (whole fresh) (bodies_of case.now) }
    ensures within { length result ≤ 4103 }
{
    let count = byte(case, 0);
    let mut text = headed();
    let mut log = Log::fresh();
    let mut at = 1 + 2 * count;
    for i in 0..count {
        let end = at + pair(case, 1 + 2 * i);
        let line = feed(&mut log, (i + 1) as u8, &case[at..end]);
        text.push(line.as_slice());
        at = end;
    }
    text
}
