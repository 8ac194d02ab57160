// A bucket taken out of the words of a wall, and stored there again. Words, offset and shape come apart, for the words are written too.
ghost use Rattle.std.specs.Prelude.{◌≡◌, ◌+◌, ◌≤◌, length, drop};
ghost use Rattle.std.proofs.Math.Seq.{paste};
ghost use Rattle.model.specs.Lists.{splice};
ghost use Rattle.model.specs.Shapes.{bucket_size};
ghost use Rattle.model.specs.Walls.{bucket_words};
ghost use Rattle.shapes.specs.Shapes.{rows_in, Valid};
ghost use Rattle.bucket.specs.Views.{bucket_in, as_bucket};

use super::Bucket;
use shapes::Shape;

// n words of `from`, from start on, into `to` from at on. `take` and `store` show that both have as many. With std's `copy_from_slice` an increment
// takes more instructions: docs/DESIGN-PASS.md.
fn copy(to: &mut [u64], at: usize, from: &[u64], start: usize, n: usize)
    requires { (at + n ≤ length to.old) × (start + n ≤ length from.now) }
    ensures { to.new ≡ paste to.old at (drop start from.now) n }
{
    for i in 0..n {
        to[at + i] = from[start + i];
    }
}

impl Bucket {
    // Filled from the words at an offset, whatever it held. Who read the wall's header knows that the shape is valid and that the words are there.
    pub fn take(mut self, words: &[u64], at: usize, shape: Shape) -> Self
        requires { Valid shape × (at + bucket_size shape.width (rows_in shape) ≤ length words.now) }
        ensures { as_bucket shape result ≡ bucket_in shape words.now at }
    {
        let width = shape.width as usize;
        let uppers = shape.uppers as usize;
        // A part lent out of a field comes back unknown to the proof, so the arrays are taken out and put back.
        let mut first = self.first;
        copy(&mut first[..], 0, words, at, width);
        self.first = first;
        let next = at + width;
        self.marks = words[next];
        let mut upper = self.upper;
        let mut cells = upper.words;
        copy(&mut cells[..], 0, words, next + 1, uppers);
        upper.words = cells;
        upper.packed = words[next + 1 + uppers];
        self.upper = upper;
        self
    }

    // Its caller took it out at the same offset.
    pub fn store(self, words: &mut [u64], at: usize, shape: Shape)
        requires { Valid shape × (at + bucket_size shape.width (rows_in shape) ≤ length words.old) }
        ensures { words.new ≡ splice words.old at (bucket_words (as_bucket shape self)) }
    {
        let width = shape.width as usize;
        let uppers = shape.uppers as usize;
        let first = self.first;
        copy(words, at, &first[..], 0, width);
        let next = at + width;
        words[next] = self.marks;
        let upper = self.upper;
        let cells = upper.words;
        copy(words, next + 1, &cells[..], 0, uppers);
        words[next + 1 + uppers] = upper.packed;
    }
}
