#![tactic(auto)]

ghost use Rattle.std.specs.Prelude.{◌≡◌, ◌<◌};
ghost use Rattle.answer.specs.Answers.{outcome_of, checked_of};
ghost use Rattle.model.specs.Walls.{buckets_in, parse};
ghost use Rattle.model.specs.Sound.{fulls_zero, sound_rest};
ghost use Rattle.model.specs.Calls as model;
ghost use Rattle.layout.specs.Views.{header_of};
ghost use Rattle.whole.specs.Check.{Bitmap, Counted, Noted, Passed, Seen, Weighed, seen_at};

use answer::Fault;
use header::Opened;

// Of the buckets passed: their counts added up, how many are flagged, and how many of those hold a number that one before them holds.
#[derive(Clone, Copy)]
struct Tally {
    sum: u64,
    flagged: u64,
    again: u64,
}

// A bit for each full-size number, in 64 words, fixed memory: the number's is set, and 1 given if it was before. `weigh` shows what this asks.
fn mark(seen: &mut [u64; 64], number: u64) -> u64
    requires { (number < 4096) × Bitmap seen.old }
    ensures { (result ≡ seen_at seen.old number) × (result < 2) × Noted seen.old seen.new number }
{
    let q = (number / 64) as usize;
    let x = seen[q];
    seen[q] = packed::set_mark(x, number % 64);
    packed::bit(x, number % 64)
}

// Bucket i after those before it, or nothing where it is unsound. `pass` shows what this asks.
fn weigh(wall: &Opened<'_>, i: u64, t: Tally, seen: &mut [u64; 64]) -> Option<Tally>
    requires { (i < buckets_in (header_of wall.now.header)) × Passed (parse wall.now.words.now) i t × Seen (parse wall.now.words.now) i seen.old }
    ensures { Weighed (parse wall.now.words.now) i seen.new result }
{
    let sum = t.sum + found::weigh(wall, i)?;
    let packed = found::packed_word(wall, i);
    if (packed >> 40) % 2 == 0 {
        return Some(Tally { sum, ..t });
    }
    let again = mark(seen, packed >> 48);
    Some(Tally {
        sum,
        flagged: t.flagged + 1,
        again: t.again + again,
    })
}

// All buckets, or the lowest unsound one.
fn pass(wall: &Opened<'_>) -> Result<Tally, u64>
    ensures { Counted (parse wall.now.words.now) result }
{
    let mut seen = [0u64; 64];
    let mut t = Tally {
        sum: 0,
        flagged: 0,
        again: 0,
    };
    let n = header::buckets(wall.header);
    for i in 0..n {
        t = weigh(wall, i, t, &mut seen).ok_or(i)?;
    }
    Ok(t)
}

// Whether the full-size buckets from U up are zero.
fn fulls_zero(wall: &Opened<'_>) -> bool
    ensures { result ≡ fulls_zero (parse wall.now.words.now) }
{
    let v = wall.header;
    if v.used == v.full {
        return true;
    }
    zeros::zero_from(wall.words, header::full_at(v, v.used))
}

// Whether the wall is sound besides its buckets, which `check` found sound.
fn rest_sound(wall: &Opened<'_>, t: Tally) -> bool
    requires { Passed (parse wall.now.words.now) (buckets_in (parse wall.now.words.now).header) t }
    ensures { result ≡ sound_rest (parse wall.now.words.now) }
{
    if t.sum != wall.header.total {
        return false;
    }
    if t.flagged != wall.header.used {
        return false;
    }
    if 0 < t.again {
        return false;
    }
    fulls_zero(wall)
}

// The whole wall.
pub fn check(words: &[u64]) -> Result<(), Fault>
    ensures { outcome_of (checked_of result) words.now ≡ model.check words.now }
{
    let wall = header::open(words).ok_or(Fault::BadHeader)?;
    let t = pass(&wall).map_err(Fault::Unsound)?;
    if rest_sound(&wall, t) {
        Ok(())
    } else {
        Err(Fault::UnsoundWall)
    }
}
