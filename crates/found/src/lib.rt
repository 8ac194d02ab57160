// Bucket i of a wall whose header is good, judged and read where it lies. A bucket and a place in it stay numbers: who stands above counts them up,
// or takes them from a slot. So does a packed word beside its bucket, which its callers have read before.
#![tactic(auto)]

ghost use Rattle.std.specs.Prelude.{◌≡◌, ◌/◌, ◌≤◌, ◌<◌, ◌^◌, T, get_or};
ghost use Rattle.model.specs.Lists.{sum};
ghost use Rattle.model.specs.Walls.{buckets_in, parse};
ghost use Rattle.model.specs.Sound.{bucket_at, counts_at, sound_at};
ghost use Rattle.layout.specs.Views.{header_of};
ghost use Rattle.uppers.specs.Judge.{verdict};
ghost use Rattle.found.specs.Found.{Lies, LiesFull};

use fulls::Flagged;
use header::Opened;
use plain::Site;
use shapes::Shape;

// Where the bucket lies. The slot of one of the wall's flows shows what this and the others ask of i.
fn site<'a>(wall: &Opened<'a>, i: u64) -> Site<'a>
    requires { i < buckets_in (header_of wall.now.header) }
    ensures { Lies wall.now i result }
{
    let v = wall.header;
    Site {
        words: wall.words,
        at: header::bucket_at(v, i),
        shape: Shape::of(v.shape, v.width),
    }
}

// The same with full-size bucket q. `judge_flagged` and `count_flagged` show that it is in use.
fn flagged<'a>(wall: &Opened<'a>, i: u64, q: u64) -> Flagged<'a>
    requires { (i < buckets_in (header_of wall.now.header)) × (q < wall.now.header.used) }
    ensures { LiesFull wall.now i q result }
{
    Flagged {
        site: site(wall, i),
        full: header::full_at(wall.header, q),
    }
}

// The packed word of a bucket.
pub fn packed_word(wall: &Opened<'_>, i: u64) -> u64
    requires { i < buckets_in (header_of wall.now.header) }
    ensures { result ≡ (bucket_at (parse wall.now.words.now) i).packed }
{
    site(wall, i).packed()
}

// A bucket that has more than marks in its packed word: the flag and a number in use, or it is unsound. With it, the sum of its counts.
// Its callers show that it has more.
pub fn judge_flagged(wall: &Opened<'_>, i: u64, packed: u64) -> Option<u64>
    requires { (i < buckets_in (header_of wall.now.header)) × (packed ≡ (bucket_at (parse wall.now.words.now) i).packed) × (0 < packed / 2 ^ 40) }
    ensures { result ≡ verdict (sound_at (parse wall.now.words.now) i) (sum (counts_at (parse wall.now.words.now) i)) }
{
    if (packed >> 40) % 256 != 1 {
        return None;
    }
    if wall.header.used <= packed >> 48 {
        return None;
    }
    flagged(wall, i, packed >> 48).judge(wall.header.total)
}

// The count at a place of such a bucket, which its caller found sound.
pub fn count_flagged(wall: &Opened<'_>, i: u64, place: u64, packed: u64) -> u64
    requires { (i < buckets_in (header_of wall.now.header)) × (packed ≡ (bucket_at (parse wall.now.words.now) i).packed) × (0 < packed / 2 ^ 40) × T (sound_at (parse wall.now.words.now) i) × (place < 64) }
    ensures { result ≡ get_or (counts_at (parse wall.now.words.now) i) place 0 }
{
    flagged(wall, i, packed >> 48).count(place)
}

// The count at a place of a bucket that has nothing but marks in its packed word, if the bucket is sound. Its callers show that it has nothing else.
pub fn read_plain(wall: &Opened<'_>, i: u64, place: u64) -> Option<u64>
    requires { (i < buckets_in (header_of wall.now.header)) × ((bucket_at (parse wall.now.words.now) i).packed / 2 ^ 40 ≤ 0) × (place < 64) }
    ensures { result ≡ verdict (sound_at (parse wall.now.words.now) i) (get_or (counts_at (parse wall.now.words.now) i) place 0) }
{
    let site = site(wall, i);
    if !site.judge(wall.header.total) {
        return None;
    }
    Some(site.count(place))
}

// The count at a place, if the bucket is sound.
pub fn read(wall: &Opened<'_>, i: u64, place: u64) -> Option<u64>
    requires { (i < buckets_in (header_of wall.now.header)) × (place < 64) }
    ensures { result ≡ verdict (sound_at (parse wall.now.words.now) i) (get_or (counts_at (parse wall.now.words.now) i) place 0) }
{
    let packed = packed_word(wall, i);
    if packed >> 40 == 0 {
        return read_plain(wall, i, place);
    }
    judge_flagged(wall, i, packed)?;
    Some(count_flagged(wall, i, place, packed))
}

// The count at a place of a bucket that its caller found sound: nothing is judged again.
pub fn count(wall: &Opened<'_>, i: u64, place: u64) -> u64
    requires { (i < buckets_in (header_of wall.now.header)) × T (sound_at (parse wall.now.words.now) i) × (place < 64) }
    ensures { result ≡ get_or (counts_at (parse wall.now.words.now) i) place 0 }
{
    let packed = packed_word(wall, i);
    if 0 < packed >> 40 {
        return count_flagged(wall, i, place, packed);
    }
    site(wall, i).count(place)
}

// The sum of its counts, if the bucket is sound.
pub fn weigh(wall: &Opened<'_>, i: u64) -> Option<u64>
    requires { i < buckets_in (header_of wall.now.header) }
    ensures { result ≡ verdict (sound_at (parse wall.now.words.now) i) (sum (counts_at (parse wall.now.words.now) i)) }
{
    let packed = packed_word(wall, i);
    if 0 < packed >> 40 {
        return judge_flagged(wall, i, packed);
    }
    site(wall, i).weigh(wall.header.total)
}
