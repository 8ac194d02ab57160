// The upper levels of a bucket as one value, under a counter that grows: that there is room for it was found before. Its bounds of an entry stand
// in no type, as those of `packed`.
#![tactic(auto)]

ghost use Rattle.std.specs.Prelude.{◌≡◌, ◌+◌, ◌-◌, ◌*◌, ◌/◌, ◌%◌, ◌≤◌, ◌<◌, ◌^◌, get_or, set};
ghost use Rattle.model.specs.Packed.{put_in, replaced};
ghost use Rattle.shapes.specs.Shapes.{rows_from, rows_in};
ghost use Rattle.rooms.specs.Growth.{entering, raising};
ghost use Rattle.growth.specs.Levels.{levels_in};
ghost use Rattle.growth.specs.Grow.{Comes, Grown, Redone, Rises};

use shapes::Shape;

// Their words of entries, and the packed word, which has their marks.
#[derive(Clone, Copy)]
pub struct Upper {
    pub words: [u64; 4],
    pub packed: u64,
}

impl Upper {
    // Entry a of the upper level j, of width w, is replaced. `rise` shows what this asks.
    fn replace(mut self, j: u64, w: u64, a: u64, part: u64) -> Self
        requires { (j < 4) × (w * a + w ≤ 64) × (1 ≤ w) × (w < 64) × (part < 2 ^ w) }
        ensures { result ≡ record { words = set self.words j (replaced w (get_or self.words j 0) a part); packed = self.packed } }
    {
        let i = j as usize;
        self.words[i] = packed::replace(self.words[i], a, w, part);
        self
    }

    // The entries of the upper level j at and above a move up by one, and the part is put in. `shift` and `grow` show what this asks.
    // It stays apart from `replace`: one function for both would take the call of `packed` as a closure, and its clauses would say more than they do now.
    fn put_in(mut self, j: u64, w: u64, a: u64, part: u64) -> Self
        requires { (j < 4) × (w * a + w ≤ 64) × (1 ≤ w) × (w < 64) × (part < 2 ^ w) × (get_or self.words j 0 < 2 ^ (64 - w)) }
        ensures { result ≡ record { words = set self.words j (put_in w (get_or self.words j 0) a part); packed = self.packed } }
    {
        let i = j as usize;
        self.words[i] = packed::put_in(self.words[i], a, w, part);
        self
    }

    // The same, and the level's k marks, from bit `off` of the packed word on, move likewise: the mark is put in. `grow` shows what this asks.
    fn shift(mut self, j: u64, off: u64, k: u64, w: u64, a: u64, part: u64, mark: u64) -> Self
        requires { (j < 4) × (w * a + w ≤ 64) × (1 ≤ w) × (w < 64) × (part < 2 ^ w) × (get_or self.words j 0 < 2 ^ (64 - w))
            × (off + k ≤ 40) × (a < 64) × (mark < 2) × (put_in 1 (self.packed / 2 ^ off % 2 ^ k) a mark < 2 ^ k) }
        ensures { Redone self j off k (put_in w (get_or self.words j 0) a part) (put_in 1 (self.packed / 2 ^ off % 2 ^ k) a mark) result }
    {
        let m = (self.packed >> off) % packed::pow2(k);
        let packed = packed::put_field(self.packed, off, k, packed::put_mark(m, a, mark));
        let mut moved = self.put_in(j, w, a, part);
        moved.packed = packed;
        moved
    }

    // A counter of value v0 comes in at entry a0 of the upper level j0, whose marks begin at bit off0: into this level and those after it that
    // its value reaches. `rise` and `raise` show what this asks.
    pub fn grow(mut self, shape: Shape, levels: u64, j0: u64, off0: u64, a0: u64, v0: u64) -> Self
        requires { Comes shape levels j0 off0 self a0 v0 }
        ensures { Grown shape levels j0 off0 self (entering (rows_from levels shape j0) (levels_in levels shape self off0 j0) a0 v0) result }
    {
        let last = j0 + levels - 1;
        let mut off = off0;
        let mut a = a0;
        let mut v = v0;
        for j in j0..last {
            let w = shape.width_at(j);
            let k = shape.entries_at(j);
            let m = (self.packed >> off) % packed::pow2(k);
            let part = v % packed::pow2(w);
            v = v >> w;
            if v == 0 {
                return self.shift(j, off, k, w, a, part, 0);
            }
            self = self.shift(j, off, k, w, a, part, 1);
            a = packed::rank(m, a);
            off += k;
        }
        self.put_in(last, shape.width_at(last), a, v)
    }

    // The counter at entry a0 of the first upper level comes to the value v0. `raise` shows what this asks.
    pub fn rise(mut self, shape: Shape, a0: u64, v0: u64) -> Self
        requires { Rises shape shape.uppers 0 0 self a0 v0 }
        ensures { Grown shape shape.uppers 0 0 self (raising (rows_in shape) (levels_in shape.uppers shape self 0 0) a0 v0) result }
    {
        let last = shape.uppers - 1;
        let mut off: u64 = 0;
        let mut a = a0;
        let mut v = v0;
        for j in 0..last {
            let w = shape.width_at(j);
            self = self.replace(j, w, a, v % packed::pow2(w));
            v = v >> w;
            if v == 0 {
                return self;
            }
            let k = shape.entries_at(j);
            let m = (self.packed >> off) % packed::pow2(k);
            let next = packed::rank(m, a);
            if packed::bit(m, a) == 0 {
                self.packed = packed::set_mark(self.packed, off + a);
                return self.grow(shape, last - j, j + 1, off + k, next, v);
            }
            a = next;
            off += k;
        }
        self.replace(last, shape.width_at(last), a, v)
    }
}
