// A full-size bucket where it lies in the words of a wall: its moved flags at the offset `at`, and a count for each place after them. The offset comes
// with all the words, for the clauses say what all of them become.
#![tactic(auto)]

ghost use Rattle.std.specs.Prelude.{◌≡◌, ◌+◌, ◌≤◌, ◌<◌, length};
ghost use Rattle.model.specs.Lists.{splice};
ghost use Rattle.model.specs.Walls.{full_words, empty_full};
ghost use Rattle.model.specs.Calls.{move_in};
ghost use Rattle.moves.specs.Full.{full_at};

// The place is moved, with this count. Who found the bucket in the wall knows that its words are there.
pub fn move_in(words: &mut [u64], at: usize, place: u64, count: u64)
    requires { (at + 65 ≤ length words.old) × (place < 64) }
    ensures { words.new ≡ splice words.old at (full_words (move_in (full_at words.old at) place count)) }
{
    let a = place as usize;
    words[at] = packed::set_mark(words[at], place);
    words[at + 1 + a] = count;
}

// Every word is written, whatever stood there: the place is moved, with this count, and the rest is 0. It asks as `move_in` does.
pub fn move_first(words: &mut [u64], at: usize, place: u64, count: u64)
    requires { (at + 65 ≤ length words.old) × (place < 64) }
    ensures { words.new ≡ splice words.old at (full_words (move_in empty_full place count)) }
{
    zeros::clear(words, at, 65);
    move_in(words, at, place, count);
}
