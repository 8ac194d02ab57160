#![tactic(auto)]

ghost use Rattle.std.specs.Prelude.{◌≡◌, ◌+◌, ◌≤◌, length, set};
ghost use Rattle.model.specs.Lists.{splice};
ghost use Rattle.model.specs.Shapes.{bucket_size};
ghost use Rattle.model.specs.Walls.{bucket_words};
ghost use Rattle.model.specs.Sound.{own_counts};
ghost use Rattle.model.specs.Calls.{holding};
ghost use Rattle.shapes.specs.Shapes.{rows_in};
ghost use Rattle.bucket.specs.Views.{bucket_in};
ghost use Rattle.bucket.specs.Raise.{RaisesIn, Stays};

use layout::Wall;
use shapes::Shape;

// Words, offset and shape come apart, for the words are written.

// The step of a count whose part in level 1 alone changes: the bucket is taken out, stepped and stored. `step_first` shows what these ask.
fn step_part(words: &mut [u64], at: usize, shape: Shape, place: u64, value: u64)
    requires { (at + bucket_size shape.width (rows_in shape) ≤ length words.old) × RaisesIn shape (bucket_in shape words.old at) place value × Stays shape (bucket_in shape words.old at) place value }
    ensures { words.new ≡ splice words.old at (bucket_words (holding shape.width (rows_in shape) (set (own_counts shape.width (rows_in shape) (bucket_in shape words.old at)) place value))) }
{
    let w = shape.width;
    let part = value % packed::pow2(w);
    Wall::empty_bucket()
        .take(words, at, shape)
        .put(w, place, part)
        .store(words, at, shape);
}

// The same at the default width, a copy of its own that the compiler unrolls. One function for both is no plainer: it is called twice all the same, with a
// shape whose width another function makes known, is inlined at both calls, and takes an increment 320 bytes more of the card's stack.
fn step_default(words: &mut [u64], at: usize, shape: Shape, place: u64, value: u64)
    requires { (at + bucket_size shape.width (rows_in shape) ≤ length words.old) × RaisesIn shape (bucket_in shape words.old at) place value × Stays shape (bucket_in shape words.old at) place value × (shape.width ≡ 7) }
    ensures { words.new ≡ splice words.old at (bucket_words (holding shape.width (rows_in shape) (set (own_counts shape.width (rows_in shape) (bucket_in shape words.old at)) place value))) }
{
    let seven = Shape { width: 7, ..shape };
    Wall::empty_bucket()
        .take(words, at, seven)
        .put(7, place, value % 128)
        .store(words, at, seven);
}

// Who judged the bucket shows what this asks.
pub fn step_first(words: &mut [u64], at: usize, shape: Shape, place: u64, value: u64)
    requires { (at + bucket_size shape.width (rows_in shape) ≤ length words.old) × RaisesIn shape (bucket_in shape words.old at) place value × Stays shape (bucket_in shape words.old at) place value }
    ensures { words.new ≡ splice words.old at (bucket_words (holding shape.width (rows_in shape) (set (own_counts shape.width (rows_in shape) (bucket_in shape words.old at)) place value))) }
{
    if shape.width == 7 {
        step_default(words, at, shape, place, value);
        return;
    }
    step_part(words, at, shape, place, value);
}
