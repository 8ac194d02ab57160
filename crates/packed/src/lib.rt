// A word of packed entries of w bits each, entry 0 lowest. A mark is an entry of one bit. Places and widths lie within a word: who
// knows the shape of a bucket shows it. These bounds stand in no type, here and above: one for each would be made at each call.
#![tactic(auto)]

ghost use Rattle.std.specs.Prelude.{◌≡◌, ◌+◌, ◌-◌, ◌*◌, ◌/◌, ◌%◌, ◌≤◌, ◌<◌, ◌^◌};
ghost use Rattle.std.specs.Int.Count.{ones};
ghost use Rattle.model.specs.Packed.{entry, bit, rank, replaced, put_in};

// 2 to the power k.
pub fn pow2(k: u64) -> u64
    requires { k < 64 }
    ensures { (result ≡ 2 ^ k) × (0 < result) }
{
    1 << k
}

// Entry a of a word; past the end of the word it is 0.
pub fn entry(x: u64, a: u64, w: u64) -> u64
    requires { (a < 64) × (w < 64) }
    ensures { result ≡ entry w x a }
{
    let s = w * a;
    if 64 <= s {
        return 0;
    }
    (x >> s) % pow2(w)
}

// Mark a of a word: 1 if it is set. A number and no `bool`, for ranks and the check's tally add marks up.
pub fn bit(x: u64, a: u64) -> u64
    requires { a < 64 }
    ensures { result ≡ bit x a }
{
    (x >> a) % 2
}

// How many marks of a word are set.
pub fn count(x: u64) -> u64
    ensures { (result ≡ ones x) × (result ≤ 64) }
{
    u64::from(x.count_ones())
}

// How many marks are set below mark a.
pub fn rank(x: u64, a: u64) -> u64
    requires { a < 64 }
    ensures { (result ≡ rank x a) × (result ≤ a) }
{
    count(x % pow2(a))
}

// The k bits from bit off on are replaced by u.
pub fn put_field(x: u64, off: u64, k: u64, u: u64) -> u64
    requires { (off + k ≤ 64) × (off < 64) × (k < 64) × (u < 2 ^ k) }
    ensures { result + x / 2 ^ off % 2 ^ k * 2 ^ off ≡ x + u * 2 ^ off }
{
    let p = pow2(off);
    let old = (x >> off) % pow2(k);
    x - old * p + u * p
}

// Entry a is replaced by v.
pub fn replace(x: u64, a: u64, w: u64, v: u64) -> u64
    requires { (w * a + w ≤ 64) × (1 ≤ w) × (w < 64) × (v < 2 ^ w) }
    ensures { result ≡ replaced w x a v }
{
    put_field(x, w * a, w, v)
}

// v is put in as entry a; the entries that were at a and above move up by one.
pub fn put_in(x: u64, a: u64, w: u64, v: u64) -> u64
    requires { (w * a + w ≤ 64) × (1 ≤ w) × (w < 64) × (v < 2 ^ w) × (x < 2 ^ (64 - w)) }
    ensures { result ≡ put_in w x a v }
{
    let s = w * a;
    let p = pow2(s);
    let high = x >> s;
    (high * pow2(w) + v) * p + x % p
}

// Mark a is set.
pub fn set_mark(x: u64, a: u64) -> u64
    requires { a < 64 }
    ensures { result ≡ replaced 1 x a 1 }
{
    replace(x, a, 1, 1)
}

// m is put in as mark a; the marks that were at a and above move up by one.
pub fn put_mark(x: u64, a: u64, m: u64) -> u64
    requires { (a < 64) × (m < 2) × (x < 2 ^ 63) }
    ensures { result ≡ put_in 1 x a m }
{
    put_in(x, a, 1, m)
}
