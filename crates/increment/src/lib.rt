#![tactic(auto)]

ghost use Rattle.std.specs.Prelude.{◌≡◌, ◌/◌, ◌≤◌, ◌<◌, ◌^◌};
ghost use Rattle.answer.specs.Answers.{outcome_of, answer_of};
ghost use Rattle.model.specs.Walls.{buckets_in, parse};
ghost use Rattle.model.specs.Sound.{bucket_at};
ghost use Rattle.model.specs.Calls as model;
ghost use Rattle.layout.specs.Views.{header_of};
ghost use Rattle.header.specs.Headers.{Open};
ghost use Rattle.increment.specs.OneMore.{one_more};

use answer::Refusal;
use header::Opened;
use layout::Wall;

// Words and header come apart here, and are one again where they are read: no `Opened` can be held while its words are written.

// One more at a place of a bucket that has nothing but marks in its packed word. `increment` shows what this asks.
fn one_more_plain(words: &mut [u64], v: Wall, i: u64, at: u64) -> Result<u64, Refusal>
    requires { Open words.old v × (i < buckets_in (header_of v)) × (at < 64) × ((bucket_at (parse words.old) i).packed / 2 ^ 40 ≤ 0) }
    ensures { outcome_of (answer_of result) words.new ≡ one_more words.old i at }
{
    let wall = Opened { words, header: v };
    let was = found::read_plain(&wall, i, at).ok_or(Refusal::Unsound)?;
    if v.total == v.limit {
        return Err(Refusal::AtLimit);
    }
    steps::step_plain(words, v, i, at, was, was + 1, v.total + 1)
}

// The same of a bucket that has more: its full-size bucket holds the count. `increment` shows what this asks.
fn one_more_flagged(
    words: &mut [u64],
    v: Wall,
    i: u64,
    at: u64,
    packed: u64,
) -> Result<u64, Refusal>
    requires { Open words.old v × (i < buckets_in (header_of v)) × (at < 64) × (packed ≡ (bucket_at (parse words.old) i).packed) × (0 < packed / 2 ^ 40) }
    ensures { outcome_of (answer_of result) words.new ≡ one_more words.old i at }
{
    let wall = Opened { words, header: v };
    found::judge_flagged(&wall, i, packed).ok_or(Refusal::Unsound)?;
    if v.limit == v.total {
        return Err(Refusal::AtLimit);
    }
    let count = found::count_flagged(&wall, i, at, packed) + 1;
    moves::move_in(words, header::full_at(v, packed >> 48), at, count);
    steps::put_totals(words, v, v.total + 1, v.used);
    Ok(count)
}

// One more of a flow.
pub fn increment(words: &mut [u64], flow: u64) -> Result<u64, Refusal>
    ensures { outcome_of (answer_of result) words.new ≡ model.increment words.old flow }
{
    let wall = header::open(words).ok_or(Refusal::BadHeader)?;
    let v = wall.header;
    if packed::pow2(v.bits) <= flow {
        return Err(Refusal::NoFlow);
    }
    let s = spreads::slot_of(v.bits, v.spread, flow);
    let packed = found::packed_word(&wall, s / 64);
    if packed >> 40 == 0 {
        return one_more_plain(words, v, s / 64, s % 64);
    }
    one_more_flagged(words, v, s / 64, s % 64, packed)
}
