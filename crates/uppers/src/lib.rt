// Whether the levels of a bucket above level 1 are sound, and what its counts have there, read where they lie in the words of a wall.
#![tactic(auto)]

ghost use Rattle.std.specs.Prelude.{◌≡◌, ◌==◌, ◌+◌, ◌*◌, ◌%◌, ◌≤◌, ◌<◌, ◌^◌, length, [], ◌∷◌};
ghost use Rattle.std.specs.List.{list_all};
ghost use Rattle.std.specs.Int.Count.{ones};
ghost use Rattle.model.specs.Lists.{sum};
ghost use Rattle.model.specs.Packed.{unpack};
ghost use Rattle.uppers.specs.Judge.{verdict, filled};
ghost use Rattle.uppers.specs.Uppers.{Ahead, judged};

use shapes::{Levels, Shape};

// One level of which n entries are used. Each x is the entries from one on; the sum of the entries is what is left of the first x when all the others
// are taken off, each 2 ^ w - 1 times. `judge` shows what this asks.
fn judge_level(cells: u64, marks: u64, w: u64, n: u64) -> Option<u64>
    requires { (1 ≤ w) × (w ≤ 16) × (n ≤ 64) × (marks < 2 ^ n) }
    ensures { result ≡ verdict (filled w n cells marks) (sum (unpack w n cells)) }
{
    let p = packed::pow2(w);
    let mut x = cells;
    let mut above: u64 = 0;
    for i in 0..n {
        if x % p == 0 && packed::bit(marks, i) == 0 {
            return None;
        }
        x >>= w;
        above += x;
    }
    if 0 < x {
        return None;
    }
    Some(cells - above * (p - 1))
}

// Whether words are zero, as those of levels are that no counter is in: two to four of them, and `zeros::zero_from` has all to the end.
fn all_zero(words: &[u64]) -> bool
    ensures { result ≡ list_all (λ x. x == 0) words.now }
{
    words.iter().all(|w| *w == 0)
}

// The upper levels, whose words begin at `first`, under the marks m1 of level 1; g has their own marks.
// Who read the wall's header knows that the shape is valid and that the words are there. These stand in no type: the clause speaks of the
// weight from which the walk begins, which `reads::read` and `rooms` ask of another, and holds for any marks.
pub fn judge(words: &[u64], first: usize, m1: u64, g: u64, shape: Shape) -> Option<u64>
    requires { Ahead shape.uppers shape.entries shape.widths shape.width × (1 ≤ shape.uppers) × (shape.uppers ≤ 4) × (first + shape.uppers ≤ length words.now) }
    ensures { result ≡ judged shape.uppers words.now first g shape.entries shape.widths (ones m1) shape.width 0 }
{
    let last = first + shape.uppers as usize - 1;
    let mut levels = shape.levels();
    let mut m = m1;
    let mut marks = g;
    let mut weight = shape.width;
    let mut sum: u64 = 0;
    for at in first..last {
        if m == 0 {
            return (marks == 0 && all_zero(&words[at..last + 1])).then_some(sum);
        }
        let n = packed::count(m);
        let k = levels.entries();
        let w = levels.width();
        if k < n {
            return None;
        }
        m = marks % packed::pow2(k);
        if packed::pow2(n) <= m {
            return None;
        }
        let own = judge_level(words[at], m, w, n)?;
        sum += own * packed::pow2(weight);
        marks >>= k;
        levels = levels.above();
        weight += w;
    }
    judge_last(words[last], packed::count(m), marks, levels, weight, sum)
}

// The last level has no marks. `judge` shows what this asks.
fn judge_last(cells: u64, n: u64, g: u64, levels: Levels, weight: u64, sum: u64) -> Option<u64>
    requires { (1 ≤ levels.widths % 256) × (levels.widths % 256 ≤ 16) × (n ≤ 64) × (weight + levels.widths % 256 ≤ 47) × (sum + 64 ≤ 64 * 2 ^ weight) }
    ensures { result ≡ judged 1 (cells ∷ []) 0 g levels.entries levels.widths n weight sum }
{
    if 0 < g {
        return None;
    }
    if levels.entries() < n {
        return None;
    }
    let own = judge_level(cells, 0, levels.width(), n)?;
    Some(sum + own * packed::pow2(weight))
}
