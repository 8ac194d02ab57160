#![tactic(auto)]

ghost use Rattle.std.specs.Prelude.{◌≡◌, ◌++◌, ◌≤◌, length, drop};
ghost use Rattle.lines.specs.Transcript.{answers, lines_of, transcript, words_after, words_of};
ghost use Rattle.texts.specs.Writing.{Added, Fits};

pub mod read;

use read::Lines;
use texts::Page;

// The most bytes of input that are read as lines.
pub const INPUT: usize = 65536;

// Each line of the input in turn. `lines` shows that there is room.
fn each_line(input: &[u8], words: &mut [u64], page: &mut Page)
    requires { Fits page.old (answers 1 (lines_of input.now) words.old) }
    ensures written { Added page.old (answers 1 (lines_of input.now) words.old) page.new }
    ensures words { words.new ≡ words_of (lines_of input.now) words.old }
{
    for (i, line) in Lines::new(input).enumerate() {
        let Some(flow) = read::flow_in(line) else {
            page.bad_line(i as u64 + 1);
            return;
        };
        page.answer(flow, increment::increment(words, flow).into());
    }
    page.totals(words);
}

// The whole output for the whole input, over the wall in the words: how many bytes of `out` it takes. `count::respond` shows that there is room.
// No `Page` comes in: this contract, over the buffer and the length, is one that docs/PROMISES.md names.
pub fn lines(input: &[u8], words: &mut [u64], out: &mut [u8]) -> usize
    requires { length (transcript input.now words.old) ≤ length out.old }
    ensures size { result ≡ length (transcript input.now words.old) }
    ensures output { out.new ≡ transcript input.now words.old ++ drop result out.old }
    ensures words { words.new ≡ words_after input.now words.old }
{
    let mut page = Page::new(out);
    if INPUT < input.len() {
        page.text(b"bad input\n");
    } else {
        each_line(input, words, &mut page);
    }
    page.len()
}
