#![tactic(auto)]

ghost use Rattle.std.specs.Prelude.{◌≡◌, ◌≤◌, ◌<◌, ◌^◌, length};
ghost use Rattle.answer.specs.Answers.{outcome_of, answer_of};
ghost use Rattle.model.specs.Calls as model;
ghost use Rattle.model.specs.Calls.{ask};
ghost use Rattle.model.specs.Walls.{fresh, wall_size};
ghost use Rattle.layout.specs.Views.{header_of};
ghost use Rattle.header.specs.Headers.{Known};
ghost use Rattle.fresh.specs.Raise.{raise_sized};

use answer::Refusal;
use layout::Wall;

// Words and header come apart here: the header is not in the words yet.

// The fresh wall of a header, whatever stood in the words. `raise_sized` and `close` show what it asks.
fn write(words: &mut [u64], v: Wall)
    requires { Known v × (v.full ≤ 4096) × (v.spread < 2 ^ 32) × (length words.old ≡ wall_size (header_of v)) }
    ensures { words.new ≡ fresh (header_of v) }
{
    let n = words.len();
    zeros::clear(words, 0, n);
    words[0] = v.bits * 72057594037927936
        + v.width * 281474976710656
        + v.shape * 1099511627776
        + header::MARK;
    words[1] = v.limit;
    words[3] = v.full + v.spread * 4294967296;
}

// The header that was asked for, judged to its end: 4, 5, and then both of 15 and 6 are asked, and the ifs say their order. `raise` shows what this asks.
fn raise_sized(words: &mut [u64], v: Wall) -> Result<u64, Refusal>
    requires { Known v }
    ensures { outcome_of (answer_of result) words.new ≡ raise_sized (header_of v) words.old }
{
    if !header::limit_fits(v) {
        return Err(Refusal::BadLimit);
    }
    if !header::full_fits(v) {
        return Err(Refusal::BadFull);
    }
    let valid = spreads::valid(v.bits, v.spread);
    let exact = words.len() as u64 == header::size(v);
    if !valid {
        return Err(Refusal::BadSpread);
    }
    if !exact {
        return Err(Refusal::BadLength);
    }
    write(words, v);
    Ok(0)
}

// A fresh wall in the words lent. The arguments are the C call's and become a `Wall` at once.
pub fn raise(
    words: &mut [u64],
    shape: u64,
    width: u64,
    bits: u64,
    limit: u64,
    full: u64,
    spread: u64,
) -> Result<u64, Refusal>
    ensures { outcome_of (answer_of result) words.new ≡ model.raise (ask shape width bits limit full spread) words.old }
{
    if !Wall::known_shape(shape) {
        return Err(Refusal::BadShape);
    }
    if Wall::MAX_WIDTH < width {
        return Err(Refusal::BadWidth);
    }
    if !Wall::known_bits(bits) {
        return Err(Refusal::BadBits);
    }
    let v = Wall {
        shape,
        width: Wall::width_asked(width),
        bits,
        limit,
        total: 0,
        full,
        used: 0,
        spread,
    };
    raise_sized(words, v)
}

// The interval ends: the fresh wall of the same header.
pub fn close(words: &mut [u64]) -> Result<u64, Refusal>
    ensures { outcome_of (answer_of result) words.new ≡ model.close words.old }
{
    let v = header::open(words).ok_or(Refusal::BadHeader)?.header;
    write(words, v);
    Ok(0)
}
