// A list of extensions as a caller lends it.
ghost use Rattle.std.specs.Prelude.{◌≡◌, true, false, ◌≤◌, ◌<◌, length, MatchOption};
ghost use Rattle.std.specs.Iterator.{YieldsFirstBy, item_count};
ghost use Rattle.writing.specs.Lists.{fitting, extension_of, extensions_from, misshapen};
ghost use Rattle.writing.specs.Steps.{repeats};

use hello::well_shaped;

// Whether there is an extension block, the types, the length of each one's data, and all data one after the other. The extensions are
// handed out one after the other.
#[derive(Clone, Copy)]
pub(crate) struct List<'a> {
    pub block: bool,
    pub types: &'a [u16],
    pub lengths: &'a [u16],
    pub data: &'a [u8],
    ghost fits: { fitting types.now lengths.now «data».now ≡ true },
}

impl<'a> Iterator for List<'a> {
    type Item = (u16, &'a [u8]);

    ghost next_gives = { YieldsFirstBy (λ x. extension_of x.0 x.1.now) (λ l. extensions_from l.types.now l.lengths.now l.«data».now) };

    ghost remaining = { item_count (λ l. extensions_from l.types.now l.lengths.now l.«data».now) };

    fn next(&mut self) -> Option<(u16, &'a [u8])> {
        let (kind, types) = self.types.split_first()?;
        let (length, lengths) = self.lengths.split_first()?;
        let (first, data) = self.data.split_at(*length as usize);
        *self = List {
            block: self.block,
            types,
            lengths,
            data,
        };
        Some((*kind, first))
    }
}

impl<'a> List<'a> {
    // There is a length for each type, and together they are exactly the data.
    pub(crate) fn new(
        block: bool,
        types: &'a [u16],
        lengths: &'a [u16],
        data: &'a [u8],
    ) -> Option<List<'a>>
        ensures { MatchOption result (fitting types.now lengths.now «data».now ≡ false) (λ l. (l.block ≡ block) × (l.types.now ≡ types.now) × (l.lengths.now ≡ lengths.now) × (l.«data».now ≡ «data».now)) }
    {
        if types.len() != lengths.len() {
            return None;
        }
        let mut left = data.len();
        for length in lengths {
            left = left.checked_sub(*length as usize)?;
        }
        if left != 0 {
            return None;
        }
        Some(List {
            block,
            types,
            lengths,
            data,
        })
    }

    // An RI or EMS of the wrong shape is among them.
    pub(crate) fn is_misshaped(mut self) -> bool
        ensures { result ≡ misshapen (extensions_from self.entry.types.now self.entry.lengths.now self.entry.«data».now) }
    {
        self.any(|(kind, data)| !well_shaped(kind as usize, data))
    }

    // A type stands twice. Each type is compared with all behind it, up to the first repeat, which leaves the walk by its label as document
    // 01 names it for reading. The inner walk is the library's, several types at a time: by hand a thousand types took five times as long.
    pub(crate) fn repeats(&self) -> bool
        ensures { result ≡ repeats self.now.types.now }
    {
        let mut found = false;
        let mut types = self.types;
        'all: while let Some((kind, rest)) = types.split_first() {
            if rest.contains(kind) {
                found = true;
                break 'all;
            }
            types = rest;
        }
        found
    }
}
