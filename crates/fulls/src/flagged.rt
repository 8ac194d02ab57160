ghost use Rattle.std.specs.Prelude.{◌+◌, ◌≤◌, length};

use plain::Site;

// A flagged bucket where it lies: the words of its full-size bucket begin at `full`. Who read the wall's header knows that they are there.
#[derive(Clone, Copy)]
pub struct Flagged<'a> {
    pub site: Site<'a>,
    pub full: usize,
    pub ghost room: { full + 65 ≤ length site.words.now },
}
