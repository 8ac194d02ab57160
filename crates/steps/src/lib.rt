#![tactic(auto)]

ghost use Rattle.std.specs.Prelude.{◌≡◌, [], ◌∷◌, ◌≤◌, ◌<◌, ◌^◌, get_or, length, set};
ghost use Rattle.answer.specs.Answers.{outcome_of, answer_of};
ghost use Rattle.model.specs.Packed.{join_fields};
ghost use Rattle.model.specs.Walls.{full_fields, parse};
ghost use Rattle.model.specs.Sound.{bucket_at, counts_at, flag};
ghost use Rattle.steps.specs.Step.{Ready, step_in};

use answer::Refusal;
use layout::Wall;
use shapes::Shape;

// Words and header come apart here: no `Opened` can be held while its words are written.

// The total and U in words 2 and 3, where J and the spread stay. A good header shows what this asks.
pub fn put_totals(words: &mut [u64], v: Wall, total: u64, used: u64)
    requires { (4 ≤ length words.old) × (v.full ≤ 4096) × (used ≤ 4096) × (v.spread < 2 ^ 32) }
    ensures { words.new ≡ set (set words.old 2 total) 3 (join_fields full_fields (v.full ∷ used ∷ v.spread ∷ [])) }
{
    words[2] = total;
    words[3] = v.full + used * 65536 + v.spread * 4294967296;
}

// Place `at` of bucket i, which has no flag, comes to a count that carries: its levels have room for it, or the bucket overflows into
// full-size bucket U. `step_plain` shows what this asks.
fn step_carry(
    words: &mut [u64],
    v: Wall,
    i: u64,
    at: u64,
    count: u64,
    total: u64,
) -> Result<u64, Refusal>
    requires { Ready words.old v i at count × (flag (bucket_at (parse words.old) i) ≡ 0) }
    ensures { outcome_of (answer_of result) words.new ≡ step_in words.old i at count total }
{
    let start = header::bucket_at(v, i);
    let shape = Shape::of(v.shape, v.width);
    let bucket = Wall::empty_bucket().take(words, start, shape);
    if bucket.room(shape, at, count) {
        bucket.raise(shape, at, count).store(words, start, shape);
        put_totals(words, v, total, v.used);
        return Ok(count);
    }
    if v.used == v.full {
        return Err(Refusal::NoFull);
    }
    bucket.overflow(v.used).store(words, start, shape);
    moves::move_first(words, header::full_at(v, v.used), at, count);
    put_totals(words, v, total, v.used + 1);
    Ok(count)
}

// The same where the count may carry or not: `was` is the count before. `increment::one_more_plain` shows what this asks.
pub fn step_plain(
    words: &mut [u64],
    v: Wall,
    i: u64,
    at: u64,
    was: u64,
    count: u64,
    total: u64,
) -> Result<u64, Refusal>
    requires { Ready words.old v i at count × (was ≡ get_or (counts_at (parse words.old) i) at 0) × (flag (bucket_at (parse words.old) i) ≡ 0) }
    ensures { outcome_of (answer_of result) words.new ≡ step_in words.old i at count total }
{
    if count >> v.width == was >> v.width {
        let shape = Shape::of(v.shape, v.width);
        parts::step_first(words, header::bucket_at(v, i), shape, at, count);
        put_totals(words, v, total, v.used);
        return Ok(count);
    }
    step_carry(words, v, i, at, count, total)
}
