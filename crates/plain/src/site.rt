ghost use Rattle.std.specs.Prelude.{ℕ, ◌≡◌, ◌+◌, ◌≤◌, ◌<◌, ◌^◌, get_or, length};
ghost use Rattle.uppers.specs.Uppers.{Ahead};
ghost use Rattle.plain.specs.Ahead.{Ahead-prop};

use shapes::Shape;

// A bucket where it lies: its words begin at `at`. Who read the wall's header knows that the shape is valid and that the words are there.
#[derive(Clone, Copy)]
pub struct Site<'a> {
    pub words: &'a [u64],
    pub at: usize,
    pub shape: Shape,
    pub ghost levels: { Ahead shape.uppers shape.entries shape.widths shape.width } by { Ahead-prop shape.uppers shape.entries shape.widths shape.width },
    pub ghost some: { 1 ≤ shape.uppers },
    pub ghost few: { shape.uppers ≤ 4 },
    pub ghost wide: { 1 ≤ shape.width },
    pub ghost narrow: { shape.width ≤ 16 },
    pub ghost fit: { (i : ℕ) → get_or words.now i 0 < 2 ^ 64 },
    pub ghost there: { at + shape.width + 1 + shape.uppers < length words.now },
}

impl<'a> Site<'a> {
    // Who read the wall's header knows what this asks. That the words fit is shown of the slice that is lent here: docs/DECISIONS.md.
    pub fn of(words: &'a [u64], at: usize, shape: Shape) -> Site<'a>
        requires { Ahead shape.uppers shape.entries shape.widths shape.width × (1 ≤ shape.uppers) × (shape.uppers ≤ 4) × (1 ≤ shape.width) × (shape.width ≤ 16) × (at + shape.width + 1 + shape.uppers < length words.now) }
        ensures words { result.words.now ≡ words.now }
        ensures at { result.at ≡ at }
        ensures shape { result.shape ≡ shape }
    {
        Site { words, at, shape }
    }
}
