// The message schedule, the rounds, and a block into the hash value. Of the schedule there are sixteen words at a time, which roll
// forward: before the turn of sixteen rounds that begins with round t they are W(t) to W(t + 15), which is `Ring` of specs/.
ghost use Rattle.std.specs.Prelude.{◌≡◌, ℕ, ◌+◌, ◌*◌, ◌<◌, ◌≤◌, List, length, map, take, drop};
ghost use Rattle.seqs.specs.Sha2.{Value, schedule, round_of, rounds, step};
ghost use Rattle.seqs.specs.Ring.{Ring, Rolls};
ghost use Rattle.fips180.specs.Layout.{value_of};

use crate::word::{Word, next_word};

// Eight words: the working variables of the rounds, or the hash value. Contracts speak of them as `Value` of specs/.
#[derive(Clone, Copy)]
pub struct Words<W> {
    pub a: W,
    pub b: W,
    pub c: W,
    pub d: W,
    pub e: W,
    pub f: W,
    pub g: W,
    pub h: W,
}

// The sixteen words of the block that starts at index at. Written out: an array that a loop fills stays on the stack.
fn load<W: Word>(b: &[u8], at: usize) -> [W; 16]
    requires { at + 16 * W.kind.bytes ≤ length b.now }
    ensures { map W.number result ≡ schedule W.kind 0 (take (16 * W.kind.bytes) (drop at b.now)) }
{
    [
        W::read(b, at, 0),
        W::read(b, at, 1),
        W::read(b, at, 2),
        W::read(b, at, 3),
        W::read(b, at, 4),
        W::read(b, at, 5),
        W::read(b, at, 6),
        W::read(b, at, 7),
        W::read(b, at, 8),
        W::read(b, at, 9),
        W::read(b, at, 10),
        W::read(b, at, 11),
        W::read(b, at, 12),
        W::read(b, at, 13),
        W::read(b, at, 14),
        W::read(b, at, 15),
    ]
}

// The sixteen words that follow. By value and with a literal at every index: the form with the smallest frame.
fn rolled<W: Word>(w: [W; 16]) -> [W; 16]
    ensures { Rolls W.kind (map W.number w) (map W.number result) }
{
    let a = next_word(w[0], w[1], w[9], w[14]);
    let b = next_word(w[1], w[2], w[10], w[15]);
    let c = next_word(w[2], w[3], w[11], a);
    let d = next_word(w[3], w[4], w[12], b);
    let e = next_word(w[4], w[5], w[13], c);
    let f = next_word(w[5], w[6], w[14], d);
    let g = next_word(w[6], w[7], w[15], e);
    let h = next_word(w[7], w[8], a, f);
    let i = next_word(w[8], w[9], b, g);
    let j = next_word(w[9], w[10], c, h);
    let k = next_word(w[10], w[11], d, i);
    let l = next_word(w[11], w[12], e, j);
    let m = next_word(w[12], w[13], f, k);
    let n = next_word(w[13], w[14], g, l);
    let o = next_word(w[14], w[15], h, m);
    let p = next_word(w[15], a, i, n);
    [a, b, c, d, e, f, g, h, i, j, k, l, m, n, o, p]
}

impl<W: Word> Words<W> {
    fn round(self, k: W, w: W) -> Words<W>
        ensures { value_of W.number result ≡ round_of W.kind (value_of W.number self) (W.number k) (W.number w) }
    {
        let choice = self.e.choice(self.f, self.g);
        let s = self.h.add(self.e.big1()).add(choice).add(k).add(w);
        let t = self.a.big0().add(self.a.majority(self.b, self.c));
        Words {
            a: s.add(t),
            b: self.a,
            c: self.b,
            d: self.c,
            e: self.d.add(s),
            f: self.e,
            g: self.f,
            h: self.g,
        }
    }

    // Sixteen rounds bring each of the eight words back to its place: the compiler keeps them in registers and moves none.
    fn sixteen_rounds(self, w: [W; 16], turn: usize) -> Words<W>
        requires { (16 * turn ≤ W.kind.more) × (turn ≤ 4) }
        ensures { (s : Value) (block : List ℕ) → Ring W.kind (map W.number w) block (16 * turn) → value_of W.number self ≡ rounds W.kind (16 * turn) s (schedule W.kind W.kind.more block) → value_of W.number result ≡ rounds W.kind (16 * turn + 16) s (schedule W.kind W.kind.more block) }
    {
        let t = 16 * turn;
        let r = self.round(W::constant(t), w[0]);
        let r = r.round(W::constant(t + 1), w[1]);
        let r = r.round(W::constant(t + 2), w[2]);
        let r = r.round(W::constant(t + 3), w[3]);
        let r = r.round(W::constant(t + 4), w[4]);
        let r = r.round(W::constant(t + 5), w[5]);
        let r = r.round(W::constant(t + 6), w[6]);
        let r = r.round(W::constant(t + 7), w[7]);
        let r = r.round(W::constant(t + 8), w[8]);
        let r = r.round(W::constant(t + 9), w[9]);
        let r = r.round(W::constant(t + 10), w[10]);
        let r = r.round(W::constant(t + 11), w[11]);
        let r = r.round(W::constant(t + 12), w[12]);
        let r = r.round(W::constant(t + 13), w[13]);
        let r = r.round(W::constant(t + 14), w[14]);
        r.round(W::constant(t + 15), w[15])
    }

    // All rounds of the block whose own words are first: turn by turn, and nothing is rolled behind the last.
    fn all_rounds(self, first: [W; 16]) -> Words<W>
        ensures { (block : List ℕ) → Ring W.kind (map W.number first) block 0 → value_of W.number result ≡ rounds W.kind (W.kind.more + 16) (value_of W.number self) (schedule W.kind W.kind.more block) }
    {
        let mut w = first;
        let mut v = self;
        let turns = W::turns();
        for turn in 0..turns {
            v = v.sixteen_rounds(w, turn);
            if turn + 1 < turns {
                w = rolled(w);
            }
        }
        v
    }

    // The block that starts at index at. In place, as all that works blocks: a hash value by value has a place in every frame.
    pub(crate) fn work(&mut self, b: &[u8], at: usize)
        requires { at + 16 * W.kind.bytes ≤ length b.now }
        ensures { value_of W.number self.new ≡ step W.kind (value_of W.number self.old) (take (16 * W.kind.bytes) (drop at b.now)) }
    {
        let s = *self;
        let v = s.all_rounds(load(b, at));
        *self = Words {
            a: s.a.add(v.a),
            b: s.b.add(v.b),
            c: s.c.add(v.c),
            d: s.d.add(v.d),
            e: s.e.add(v.e),
            f: s.f.add(v.f),
            g: s.g.add(v.g),
            h: s.h.add(v.h),
        };
    }

    // The same for callers elsewhere: where no whole block starts at index at, nothing changes.
    pub fn compress(&mut self, b: &[u8], at: usize)
        ensures block { at + 16 * W.kind.bytes ≤ length b.now → value_of W.number self.new ≡ step W.kind (value_of W.number self.old) (take (16 * W.kind.bytes) (drop at b.now)) }
        ensures none { length b.now < at + 16 * W.kind.bytes → self.new ≡ self.old }
    {
        if b.len() < at || b.len() - at < W::block() {
            return;
        }
        self.work(b, at);
    }
}
