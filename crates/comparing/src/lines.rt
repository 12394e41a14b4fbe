// A lent output that lines are put to, one behind the other.
ghost use Rattle.std.specs.Prelude.{◌+◌, ◌-◌, ◌≤◌};
ghost use Rattle.cases.specs.Digits.{ascii, decimal};
ghost use Rattle.comparing.specs.Comparison.{line};
ghost use Rattle.comparing.specs.Steps.{lines_from};
ghost use Rattle.comparing.specs.Pages.{HasRoom, Puts};

use cases::decimal_of;

// The output, and the place that the next line begins at.
#[derive(Drop)]
pub(crate) struct Page<'a> {
    pub out: &'a mut [u8],
    pub at: usize,
}

impl Page<'_> {
    pub(crate) fn put(&mut self, bytes: &[u8])
        requires { HasRoom self.old bytes.now }
        ensures { Puts self.old bytes.now self.new }
    {
        let start = self.at;
        let end = start + bytes.len();
        let out = &mut self.out[..];
        out[start..end].copy_from_slice(bytes);
        self.at = end;
    }

    // The message's number, a word, and what the word is of.
    pub(crate) fn put_line(&mut self, number: u8, word: &[u8], of: &[u8])
        requires { HasRoom self.old (line number word.now of.now) }
        ensures { Puts self.old (line number word.now of.now) self.new }
    {
        self.put(decimal_of(number as u16).as_slice());
        self.put(b" ");
        self.put(word);
        self.put(of);
        self.put(b"\n");
    }

    // The same of a number.
    pub(crate) fn put_numbered(&mut self, number: u8, word: &[u8], of: u16)
        requires { HasRoom self.old (line number word.now (decimal of)) }
        ensures { Puts self.old (line number word.now (decimal of)) self.new }
    {
        self.put_line(number, word, decimal_of(of).as_slice());
    }

    // Lines of a word alone, of the messages behind number `from` up to number `to`.
    pub(crate) fn put_alone(&mut self, from: usize, to: usize, word: &[u8])
        requires room { HasRoom self.old (lines_from word.now (from + 1) (to - from)) }
        requires few { to ≤ 255 }
        ensures { Puts self.old (lines_from word.now (from + 1) (to - from)) self.new }
    {
        for i in from..to {
            self.put_line((i + 1) as u8, word, b"");
        }
    }
}
