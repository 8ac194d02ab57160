#![tactic(auto)]

ghost use Rattle.std.specs.Prelude.{◌≡◌, ℕ, ◌^◌, get_or, ◌+◌, ◌-◌, ◌*◌, ◌≤◌, ◌<◌, T, length, option_map, IfSome};
ghost use Rattle.std.specs.Coded.{Coded-set};
ghost use Rattle.model.specs.Walls.{buckets_in, bucket_length, wall_size, limit_fits, full_fits, good};
ghost use Rattle.layout.specs.Views.{header_of};
ghost use Rattle.header.specs.Headers.{Known, Marked, Open, fields_of, opened_of};

use layout::Wall;

// The words of a wall whose header is good.
#[derive(Clone, Copy)]
pub struct Opened<'a> {
    pub words: &'a [u64],
    pub header: Wall,
    pub ghost fields: { header ≡ fields_of words.now } by { Coded-set header-code header (fields_of words.now) },
    pub ghost good: { T (good words.now) },
    pub ghost fit: { (i : ℕ) → get_or words.now i 0 < 2 ^ 64 },
}

impl<'a> Opened<'a> {
    // Of words whose header was opened before. That they fit is shown of the slice that is lent here: docs/DECISIONS.md.
    pub fn of(words: &'a [u64], header: Wall) -> Opened<'a>
        requires { Open words.now header }
        ensures words { result.words.now ≡ words.now }
        ensures header { result.header ≡ header }
    {
        Opened { words, header }
    }
}

// The letters B, W, L and version 1.
pub const MARK: u64 = 0x1_4C5742;

// `open` shows that the words are there.
fn fields(words: &[u64]) -> Wall
    requires { 4 ≤ length words.now }
    ensures { result ≡ fields_of words.now }
{
    let head = words[0];
    let full = words[3];
    Wall {
        shape: (head >> 40) % 256,
        width: (head >> 48) % 256,
        bits: head >> 56,
        limit: words[1],
        total: words[2],
        full: full % 65536,
        used: (full >> 16) % 65536,
        spread: full >> 32,
    }
}

// What the rest asks of a header is shown by `open`, and by `raise` after its refusals 1, 2 and 3. It stands in no type: `fits` and
// `raise_sized` ask it before a wall is opened, a step while it writes the words; with a struct around `Wall`, each use of a field would go through it.

// h, the number of buckets
pub fn buckets(v: Wall) -> u64
    requires { Known v }
    ensures { (result ≡ buckets_in (header_of v)) × (result ≤ 65536) }
{
    packed::pow2(v.bits - 6)
}

pub fn bucket_length(v: Wall) -> u64
    requires { Known v }
    ensures { (result ≡ bucket_length (header_of v)) × (result ≤ 22) }
{
    v.width + v.shape + 1
}

pub fn size(v: Wall) -> u64
    requires { Known v × (v.full ≤ 4096) }
    ensures { result ≡ wall_size (header_of v) }
{
    4 + buckets(v) * bucket_length(v) + 65 * v.full
}

pub fn limit_fits(v: Wall) -> bool
    requires { Known v }
    ensures { result ≡ limit_fits (header_of v) }
{
    (1..packed::pow2(shapes::counter_bits(v.shape, v.width))).contains(&v.limit)
}

pub fn full_fits(v: Wall) -> bool
    requires { Known v }
    ensures { result ≡ full_fits (header_of v) }
{
    v.full <= buckets(v) && Wall::known_full(v.full)
}

// Shape, width and bits are judged before anything is computed with them. Inlined into each call, so that no header is copied and words that are no
// wall are refused in a few instructions.
#[inline(always)]
pub fn open(words: &[u64]) -> Option<Opened<'_>>
    ensures header { option_map (λ o. o.header) result ≡ opened_of words.now }
    ensures words { IfSome result (λ o. o.words.now ≡ words.now) }
{
    if words.len() < 4 {
        return None;
    }
    if words[0] % 1099511627776 != MARK {
        return None;
    }
    let v = fields(words);
    if !Wall::known_shape(v.shape) {
        return None;
    }
    if !Wall::valid_width(v.width) {
        return None;
    }
    if !Wall::known_bits(v.bits) {
        return None;
    }
    if !fits(words, v) {
        return None;
    }
    Some(Opened { words, header: v })
}

// `open` shows what this asks.
fn fits(words: &[u64], v: Wall) -> bool
    requires { Known v × Marked words.now × (v ≡ fields_of words.now) }
    ensures { result ≡ good words.now }
{
    if !limit_fits(v) {
        return false;
    }
    if !full_fits(v) {
        return false;
    }
    if v.limit < v.total {
        return false;
    }
    if v.full < v.used {
        return false;
    }
    if !spreads::valid(v.bits, v.spread) {
        return false;
    }
    words.len() as u64 == size(v)
}

// Where bucket i begins. A good header and the slot of one of its flows show what this asks.
pub fn bucket_at(v: Wall, i: u64) -> usize
    requires { Known v × (i < buckets_in (header_of v)) }
    ensures { result ≡ 4 + i * bucket_length (header_of v) }
{
    (4 + i * bucket_length(v)) as usize
}

// Where full-size bucket q begins. A number below U, and U itself where it is below J, show what this asks.
pub fn full_at(v: Wall, q: u64) -> usize
    requires { Known v × (q < 4096) }
    ensures { result ≡ 4 + (buckets_in (header_of v) * bucket_length (header_of v) + q * 65) }
{
    (4 + (buckets(v) * bucket_length(v) + q * 65)) as usize
}
