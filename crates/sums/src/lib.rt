// The sum of the 64 entries of level 1, where they lie in the words of a wall. The bounds of a width stand in no type, which each call would make.
#![tactic(auto)]

ghost use Rattle.std.specs.Prelude.{◌≡◌, ◌+◌, ◌-◌, ◌*◌, ◌/◌, ◌≤◌, ◌<◌, ◌^◌, length, drop};
ghost use Rattle.std.specs.Int.Bits.{bit_and};
ghost use Rattle.model.specs.Lists.{sum};
ghost use Rattle.model.specs.Packed.{pack, unpack};
ghost use Rattle.sums.specs.Sums.{first_sum};

// The entries of y added in pairs, in lanes of twice their width: `odd` picks the upper of each pair. `sum_lanes` shows what this asks.
fn paired(y: u64, w: u64, odd: u64) -> u64
    requires { (w < 64) × (bit_and (y / 2 ^ w) odd * (2 ^ w - 1) ≤ y) }
    ensures { result + bit_and (y / 2 ^ w) odd * (2 ^ w - 1) ≡ y }
{
    y - ((y >> w) & odd) * (packed::pow2(w) - 1)
}

// The sum of the n lowest entries of a word. `sum_lanes` shows what this asks.
fn sum_word(x: u64, v: u64, n: u64) -> u64
    requires { v < 64 }
    ensures { result ≡ sum (unpack v n x) }
{
    let p = packed::pow2(v);
    let mut y = x;
    let mut total = 0;
    for _ in 0..n {
        total += y % p;
        y >>= v;
    }
    total
}

// The entries are drawn in chunks, n pairs a chunk, and added lane by lane. `sum_first` shows that a lane has room for its part of the sum.
fn sum_lanes(words: &[u64], at: usize, w: u64, n: u64, chunks: u64) -> u64
    requires { (n * chunks ≡ 32) × (1 ≤ n) × (n ≤ 4) × (chunks ≤ 32) × (chunks * 2 ≤ 2 ^ w) × ((w + w) * n < 64) × (1 ≤ w) × (w ≤ 16) × (at + w ≤ length words.now) }
    ensures { result ≡ first_sum w (drop at words.now) }
{
    let wide = (w + w) * n;
    let odd = (packed::pow2(wide) - 1) / (packed::pow2(w) + 1);
    let mut acc = 0;
    for g in 0..chunks {
        acc += paired(cells::entry_at(words, at, g, wide), w, odd);
    }
    sum_word(acc, w + w, n)
}

// Entry by entry, for the widths whose pairs have no room to add up. `sum_first` shows what this asks.
fn sum_entries(words: &[u64], at: usize, w: u64) -> u64
    requires { (1 ≤ w) × (w ≤ 16) × (at + w ≤ length words.now) }
    ensures { result ≡ first_sum w (drop at words.now) }
{
    let mut total = 0;
    for a in 0..64 {
        total += cells::entry_at(words, at, a, w);
    }
    total
}

// The sum of the 64 entries of w bits from `at` on. Who read the wall's header knows that their words are there.
pub fn sum_first(words: &[u64], at: usize, w: u64) -> u64
    requires { (1 ≤ w) × (w ≤ 16) × (at + w ≤ length words.now) }
    ensures { result ≡ first_sum w (drop at words.now) }
{
    match w {
        // The default width has its own copy, which the compiler unrolls.
        7 => sum_lanes(words, at, 7, 4, 8),
        ..=3 => sum_entries(words, at, w),
        ..=7 => sum_lanes(words, at, w, 4, 8),
        ..=15 => sum_lanes(words, at, w, 2, 16),
        _ => sum_lanes(words, at, 16, 1, 32),
    }
}
