// A flagged bucket where it lies in the words of a wall, judged and read in place.
#![tactic(auto)]

ghost use Rattle.std.specs.Prelude.{◌≡◌, ◌==◌, count_by};

mod flagged;

pub use flagged::Flagged;

// How many words are 0. A `for` has no way out but its end, and the compiler takes several words at a time; an iterator's `filter` it takes one by one.
fn zero_words(words: &[u64]) -> usize
    ensures { result ≡ count_by (λ x. x == 0) words.now }
{
    let mut zeros = 0;
    for word in words {
        if *word == 0 {
            zeros += 1;
        }
    }
    zeros
}

impl Flagged<'_> {
    ghost use Rattle.std.specs.Prelude.{◌≡◌, ◌+◌, ◌/◌, ◌%◌, ◌≤◌, ◌<◌, ◌^◌, get_or};
    ghost use Rattle.model.specs.Lists.{sum, all};
    ghost use Rattle.model.specs.Packed.{bit};
    ghost use Rattle.model.specs.Sound.{bucket_counts, sound_place};
    ghost use Rattle.uppers.specs.Judge.{verdict};
    ghost use Rattle.plain.specs.Plain.{own_of, packed_of};
    ghost use Rattle.fulls.specs.Fulls.{Judges, full_of, full_tests, gained, zero_places};

    // The word of the moved flags.
    fn moved(&self) -> u64
        ensures { result ≡ get_or self.now.site.words.now self.now.full 0 }
    {
        self.site.words[self.full]
    }

    // The full-size count of a place.
    fn full_count(&self, place: u64) -> u64
        requires { place < 64 }
        ensures { result ≡ get_or self.now.site.words.now (self.now.full + 1 + place) 0 }
    {
        self.site.words[self.full + 1 + place as usize]
    }

    // The count at a place: the full-size one if it is moved, else the bucket's own.
    pub fn count(&self, place: u64) -> u64
        requires { place < 64 }
        ensures { result ≡ get_or (bucket_counts (own_of self.now.site) (full_of self.now)) place 0 }
    {
        if packed::bit(self.moved(), place) == 0 {
            return self.site.count(place);
        }
        self.full_count(place)
    }

    // The bucket's own count at a place; one that lies in level 1 alone is read without a call. `gain` shows what this asks.
    fn own_count(&self, place: u64) -> u64
        requires { place < 64 }
        ensures { result ≡ get_or (own_of self.now.site) place 0 }
    {
        let s = &self.site;
        if packed::bit(s.marks(), place) == 0 {
            return cells::entry_at(s.words, s.at, place, s.shape.width);
        }
        s.count(place)
    }

    // What the full-size count of a moved place adds to the bucket's own, if it exceeds it. `judge_moved` shows what this asks.
    fn gain(&self, place: u64) -> Option<u64>
        requires { (place < 64) × (bit (get_or self.now.site.words.now self.now.full 0) place ≡ 1) }
        ensures { result ≡ verdict (sound_place (own_of self.now.site) (full_of self.now) place) (gained (own_of self.now.site) (full_of self.now) place) }
    {
        let full = self.full_count(place);
        let own = self.own_count(place);
        if full <= own {
            return None;
        }
        Some(full - own)
    }

    // How many places of the full-size bucket hold 0.
    fn zero_places(&self) -> u64
        ensures { (result ≡ zero_places (full_of self.now) 64) × (result ≤ 64) }
    {
        zero_words(&self.site.words[self.full + 1..self.full + 65]) as u64
    }

    // The moved places: own is the sum of the bucket's own counts, to which they add. `judge` shows what this asks.
    fn judge_moved(&self, own: u64, total: u64) -> Option<u64>
        requires { (own ≡ sum (own_of self.now.site)) × (own ≤ total) }
        ensures { result ≡ verdict (all (full_tests (own_of self.now.site) (full_of self.now) total)) (sum (bucket_counts (own_of self.now.site) (full_of self.now))) }
    {
        let moved = packed::count(self.moved());
        if moved == 0 {
            return None;
        }
        // A place holds 0 or is moved: a moved count exceeds the own one, so it is not 0.
        if self.zero_places() + moved < 64 {
            return None;
        }
        // No `for`: the marks of a word are cleared from the lowest on, and nothing is counted.
        let mut m = self.moved();
        let mut left = total - own;
        while 0 < m {
            let place = u64::from(m.trailing_zeros());
            let more = self.gain(place)?;
            // A moved count may be any word, and the sum with it might not fit one: what it adds is taken off what the total leaves.
            if left < more {
                return None;
            }
            left -= more;
            m -= packed::pow2(place);
        }
        Some(total - left)
    }

    // The bucket judged, with the sum of its counts: it has the flag, and no spare bits. Who read the packed word knows what this asks.
    pub fn judge(&self, total: u64) -> Option<u64>
        requires { packed_of self.now.site / 2 ^ 40 % 256 ≡ 1 }
        ensures { Judges self.now total result }
    {
        let own = self.site.upper()? + self.site.sum_first();
        if total < own {
            return None;
        }
        self.judge_moved(own, total)
    }
}
