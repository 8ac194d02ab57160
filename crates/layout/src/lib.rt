#![tactic(auto)]

ghost use Rattle.std.specs.Prelude.{◌≡◌, leb, replicate};
ghost use Rattle.answer.specs.Answers.{reply_of, answer_of};
ghost use Rattle.model.specs.Calls.{limits_call};
ghost use Rattle.model.specs.Shapes.{known_shape, valid_width, width_asked};
ghost use Rattle.model.specs.Slots.{known_bits};

use answer::Refusal;
use bucket::Bucket;
use growth::Upper;

// A wall's header. The shape stays a number: it says how many levels there are, and L and the length of a bucket are computed with it.
#[derive(Clone, Copy)]
pub struct Wall {
    pub shape: u64,
    pub width: u64,
    pub bits: u64,
    pub limit: u64,
    pub total: u64,
    pub full: u64,
    pub used: u64,
    pub spread: u64,
}

impl Wall {
    pub const MIN_SHAPE: u64 = 3;

    pub const MAX_SHAPE: u64 = 5;

    pub const MIN_WIDTH: u64 = 1;

    pub const MAX_WIDTH: u64 = 16;

    // The width of a wall for which width 0 was asked.
    pub const DEFAULT_WIDTH: u64 = 7;

    pub const MIN_BITS: u64 = 6;

    pub const MAX_BITS: u64 = 22;

    pub const MAX_FULL: u64 = 4096;

    pub fn known_shape(shape: u64) -> bool
        ensures { result ≡ known_shape shape }
    {
        (Wall::MIN_SHAPE..=Wall::MAX_SHAPE).contains(&shape)
    }

    // Of a header's own width: 0, which asks for the default, is none.
    pub fn valid_width(width: u64) -> bool
        ensures { result ≡ valid_width width }
    {
        (Wall::MIN_WIDTH..=Wall::MAX_WIDTH).contains(&width)
    }

    pub fn known_bits(bits: u64) -> bool
        ensures { result ≡ known_bits bits }
    {
        (Wall::MIN_BITS..=Wall::MAX_BITS).contains(&bits)
    }

    // Of J, whatever the number of buckets.
    pub fn known_full(full: u64) -> bool
        ensures { result ≡ leb full 4096 }
    {
        full <= Wall::MAX_FULL
    }

    // No `Default`: zeros, which a wall's step fills.
    pub fn empty_bucket() -> Bucket
        ensures { result ≡ record { first = replicate 16 0; marks = 0; upper = record { words = replicate 4 0; packed = 0 } } }
    {
        let upper = Upper {
            words: [0; 4],
            packed: 0,
        };
        Bucket {
            first: [0; 16],
            marks: 0,
            upper,
        }
    }

    // The width of a wall for which this one was asked.
    pub fn width_asked(width: u64) -> u64
        ensures { result ≡ width_asked width }
    {
        if width == 0 {
            return Wall::DEFAULT_WIDTH;
        }
        width
    }
}

// L of a shape at a width, where 0 asks for the default.
pub fn limits(shape: u64, width: u64) -> Result<u64, Refusal>
    ensures { reply_of (answer_of result) ≡ limits_call shape width }
{
    if !Wall::known_shape(shape) {
        return Err(Refusal::BadShape);
    }
    if Wall::MAX_WIDTH < width {
        return Err(Refusal::BadWidth);
    }
    let w = Wall::width_asked(width);
    Ok(shapes::counter_bits(shape, w))
}
