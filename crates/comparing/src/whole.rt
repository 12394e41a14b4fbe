// The whole text of two cases.
ghost use Rattle.comparing.specs.Comparison.{comparison};
ghost use Rattle.comparing.specs.Pages.{HasRoom, Puts};
ghost use Rattle.comparing.specs.Promise.{Compares};

use crate::lines::Page;
use crate::messages::put_messages;
use cases::is_good;
use refusal::Reason;

// No text is longer.
const LONGEST: usize = 358280;

// The differences of two cases, a line each, or the one line of a case that is refused; the first one is judged first. It answers
// how many bytes of text stand at the front of the output, which has room for the longest.
pub fn compare(first: &[u8], second: &[u8], out: &mut [u8]) -> Result<usize, Reason>
    ensures { Compares first.now second.now out.old out.new result }
{
    if out.len() < LONGEST {
        return Err(Reason::Length);
    }
    let mut page = Page { out, at: 0 };
    put_comparison(&mut page, first, second);
    Ok(page.at)
}

fn put_comparison(page: &mut Page<'_>, first: &[u8], second: &[u8])
    requires { HasRoom page.old (comparison first.now second.now) }
    ensures { Puts page.old (comparison first.now second.now) page.new }
{
    if !is_good(first) {
        return page.put(b"first refused\n");
    }
    if !is_good(second) {
        return page.put(b"second refused\n");
    }
    put_messages(page, first, second);
}
