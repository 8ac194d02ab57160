// A bucket where it lies in the words of a wall, judged and read in place; what a flagged one has besides is in its full-size bucket.
#![tactic(auto)]

mod site;

pub use site::Site;

impl Site<'_> {
    ghost use Rattle.std.specs.Prelude.{◌≡◌, ◌+◌, ◌%◌, ◌≤◌, ◌<◌, ◌^◌, leb, length, get_or, drop};
    ghost use Rattle.sums.specs.Sums.{first_sum};
    ghost use Rattle.plain.specs.Plain.{own_of, packed_of, upper_of, SaysSound, Weighs};

    // The marks of level 1.
    pub fn marks(&self) -> u64
        ensures { result ≡ get_or self.now.words.now (self.now.at + self.now.shape.width) 0 }
    {
        self.words[self.at + self.shape.width as usize]
    }

    // The packed word.
    pub fn packed(&self) -> u64
        ensures { result ≡ packed_of self.now }
    {
        self.words[self.at + self.shape.width as usize + 1 + self.shape.uppers as usize]
    }

    // The marks of the upper levels.
    fn upper_marks(&self) -> u64
        ensures { result ≡ packed_of self.now % 2 ^ 40 }
    {
        self.packed() % 1099511627776
    }

    // Whether the upper levels are sound, and what the counts have there.
    pub fn upper(&self) -> Option<u64>
        ensures { result ≡ upper_of self.now }
    {
        let first = self.at + self.shape.width as usize + 1;
        uppers::judge(
            self.words,
            first,
            self.marks(),
            self.upper_marks(),
            self.shape,
        )
    }

    // The bucket's own count at a place.
    pub fn count(&self, place: u64) -> u64
        requires { place < 64 }
        ensures { result ≡ get_or (own_of self.now) place 0 }
    {
        reads::count(self.words, self.at, place, self.upper_marks(), self.shape)
    }

    // Whether the counts add up to at most the total: upper is what they have above level 1, which is summed only where its largest entries
    // could exceed it. `judge` shows what this asks.
    fn within(&self, upper: u64, total: u64) -> bool
        requires { upper < 2 ^ 63 }
        ensures { result ≡ leb (upper + first_sum self.now.shape.width (drop self.now.at self.now.words.now)) total }
    {
        if upper + 64 * (packed::pow2(self.shape.width) - 1) <= total {
            return true;
        }
        upper + self.sum_first() <= total
    }

    // The sum of the entries of level 1.
    pub fn sum_first(&self) -> u64
        ensures { result ≡ first_sum self.now.shape.width (drop self.now.at self.now.words.now) }
    {
        sums::sum_first(self.words, self.at, self.shape.width)
    }

    // Whether a bucket without the flag, the number and spare bits is sound. Who read the packed word knows what this asks.
    pub fn judge(&self, total: u64) -> bool
        requires { packed_of self.now < 2 ^ 40 }
        ensures { SaysSound self.now total result }
    {
        match self.upper() {
            Some(upper) => self.within(upper, total),
            None => false,
        }
    }

    // The same with the sum of its counts, which is always added up. It asks as `judge` does.
    pub fn weigh(&self, total: u64) -> Option<u64>
        requires { packed_of self.now < 2 ^ 40 }
        ensures { Weighs self.now total result }
    {
        let own = self.upper()? + self.sum_first();
        if total < own {
            return None;
        }
        Some(own)
    }
}
