// An axle's sessions in order of storing, the oldest first.
ghost use Rattle.std.specs.Prelude.{◌≡◌, [], ◌∷◌, ◌++◌, ℕ, ◌≤◌, ◌<◌, IfSome, length, take};
ghost use Rattle.std.specs.List.{position};
ghost use Rattle.seqs.specs.Cut.{cut};
ghost use Rattle.sessions.specs.Book.{Session, Book, is_named, sought};
ghost use Rattle.sessions.specs.Keeps.{row_of, laid, sessions_of};
ghost use Rattle.sessions.specs.Places.{session_at};

use crate::row::Row;

// The first `held` places count, the others are blank.
// Kept: C interface.
#[repr(C)]
#[derive(Clone, Copy)]
pub struct Queue {
    pub rows: [Row; 8],
    pub held: u8,
}

impl Queue {
    pub(crate) fn blank() -> Queue
        ensures { result ≡ laid [] }
    {
        Queue {
            rows: [Row::blank(); 8],
            held: 0,
        }
    }

    // The places that count. A number held of more than there are is all of them.
    pub(crate) fn sessions(&self) -> &[Row]
        ensures { (result.now ≡ take self.now.held self.now.rows) × (length result.now ≤ 8) }
    {
        &self.rows[..usize::from(self.held).min(8)]
    }

    // The place of the session of that identifier.
    pub(crate) fn find(&self, identifier: &[u8]) -> Option<usize>
        ensures within { IfSome result (λ i. i < 8) }
        ensures found { (a : ℕ) → result ≡ position (is_named a identifier.now) (sessions_of a self.now) }
    {
        self.sessions()
            .iter()
            .position(|row| row.is_named(identifier))
    }

    // The session of that identifier, in its place.
    pub(crate) fn named(&self, identifier: &[u8]) -> Option<&Row>
        ensures { (a : ℕ) → session_at a result ≡ sought a identifier.now (sessions_of a self.now) }
    {
        let i = self.find(identifier)?;
        Some(&self.rows[i])
    }

    // Takes the session at i out, if there is one: those behind it move up, and the place that is free then is blanked.
    pub(crate) fn remove(&mut self, i: usize)
        ensures { (b : Book) → self.old ≡ laid b → length b ≤ 8 → self.new ≡ laid (cut i b) }
    {
        let n = self.sessions().len();
        if n <= i {
            return;
        }
        self.rows.copy_within(i + 1..n, i);
        let free = n - 1;
        self.rows[free] = Row::blank();
        self.held = n as u8 - 1;
    }

    // With one session more, the last, if there is room.
    pub(crate) fn push(&mut self, row: Row)
        ensures { (b : Book) (s : Session) → self.old ≡ laid b → row ≡ row_of s → length b ≤ 7 → self.new ≡ laid (b ++ (s ∷ [])) }
    {
        let n = self.sessions().len();
        if 8 <= n {
            return;
        }
        self.rows[n] = row;
        self.held = n as u8 + 1;
    }
}
