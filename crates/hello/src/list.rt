// A list of extensions that was read.
ghost use Rattle.std.specs.Prelude.{◌≡◌, true, ◌≤◌, length, MatchResult};
ghost use Rattle.std.specs.Iterator.{YieldsFirst, item_count};
ghost use Rattle.hello.specs.Extensions.{others_of};
ghost use Rattle.hello.specs.Cuts.{Broken, parsed_at, well_formed_at, list_at};
ghost use Rattle.hello.specs.Entries.{entries_from, data_in, differ_from};

use crate::parts::Part;
use crate::walk::{EMS, Entry, RI, read_entry, well_shaped};
use refusal::Reason;

// The extensions from a place of a message to its end, each whole and of its shape. They are handed out one after the other.
#[derive(Clone, Copy)]
pub(crate) struct List<'a> {
    pub message: &'a [u8],
    pub at: usize,
    ghost within: { at ≤ length message.now },
    ghost well_formed: { well_formed_at message.now at ≡ true },
}

impl Iterator for List<'_> {
    type Item = Entry;

    ghost next_gives = { YieldsFirst (λ l. entries_from l.at (list_at l.message.now l.at)) };

    ghost remaining = { item_count (λ l. entries_from l.at (list_at l.message.now l.at)) };

    fn next(&mut self) -> Option<Entry> {
        let first = read_entry(self.message, self.at).ok()?;
        self.at = first.data.end();
        Some(first)
    }
}

impl<'a> List<'a> {
    // Reads it, or finds the first fault in it.
    pub(crate) fn read(message: &'a [u8], at: usize) -> Result<List<'a>, Reason>
        requires { at ≤ length message.now }
        ensures { MatchResult result (λ l. (l.message.now ≡ message.now) × (l.at ≡ at)) (Broken (parsed_at message.now at)) }
    {
        // Kept: what the iterator goes over is known to be whole, which is found here.
        let mut end = at;
        while end < message.len() {
            let next = read_entry(message, end)?;
            if !well_shaped(next.kind, next.data.of(message)) {
                return Err(Reason::Malformed(next.data.at));
            }
            end = next.data.end();
        }
        Ok(List { message, at })
    }

    // The data of the first extension of a type.
    pub(crate) fn data_of(mut self, kind: usize) -> Option<Part>
        ensures { result ≡ data_in kind self.entry.at (list_at self.entry.message.now self.entry.at) }
    {
        self.find(|e| e.kind == kind).map(|e| e.data)
    }

    // An extension of a type other than the two that are known here.
    pub(crate) fn has_others(mut self) -> bool
        ensures { result ≡ others_of (list_at self.entry.message.now self.entry.at) }
    {
        self.any(|e| e.kind != EMS && e.kind != RI)
    }

    // No type stands before it too. Each is compared with all before it, up to the first repeat.
    // Kept: a nested walk that is left by its label is the form that document 01 names.
    pub(crate) fn differ(self) -> Result<(), Reason>
        ensures { result ≡ differ_from self.entry.at (list_at self.entry.message.now self.entry.at) }
    {
        let mut answer = Ok(());
        'all: for (n, e) in self.enumerate() {
            for f in self.take(n) {
                if f.kind == e.kind {
                    answer = Err(Reason::Repeated(e.at));
                    break 'all;
                }
            }
        }
        answer
    }
}
