#![tactic(auto)]

ghost use Rattle.std.specs.Prelude.{◌≡◌, ◌++◌, get_or};
ghost use Rattle.model.specs.Walls.{read_header};
ghost use Rattle.texts.specs.Texts.{answer_line, bad_line, decimal, total_line};
ghost use Rattle.texts.specs.Writing.{Added, Fits};

use answer::Answer;

// A buffer, and how many bytes at its front are written.
#[derive(Drop)]
pub struct Page<'a> {
    bytes: &'a mut [u8],
    len: usize,
}

impl<'a> Page<'a> {
    pub fn new(bytes: &'a mut [u8]) -> Page<'a>
        ensures same { result.bytes.ghost_name ≡ bytes.entry.ghost_name }
        ensures kept { result.bytes.now ≡ bytes.old }
        ensures none { result.len ≡ 0 }
    {
        Page { bytes, len: 0 }
    }

    pub fn len(&self) -> usize
        ensures { result ≡ self.now.len }
    {
        self.len
    }

    // Each of these writes where there is room, which its caller shows.

    pub fn text(&mut self, s: &[u8])
        requires { Fits self.old s.now }
        ensures { Added self.old s.now self.new }
    {
        let end = self.len + s.len();
        self.bytes[self.len..end].copy_from_slice(s);
        self.len = end;
    }

    fn number(&mut self, n: u64)
        requires { Fits self.old (decimal n) }
        ensures { Added self.old (decimal n) self.new }
    {
        // The kit's digits are written into a buffer that is lent.
        let mut digits = [0u8; 20];
        let k = io::decimal(n, &mut digits);
        self.text(&digits[..k]);
    }

    // A number and what ends it.
    fn field(&mut self, n: u64, end: &[u8])
        requires { Fits self.old (decimal n ++ end.now) }
        ensures { Added self.old (decimal n ++ end.now) self.new }
    {
        self.number(n);
        self.text(end);
    }

    pub fn answer(&mut self, flow: u64, a: Answer)
        requires { Fits self.old (answer_line flow a.number a.value) }
        ensures { Added self.old (answer_line flow a.number a.value) self.new }
    {
        self.field(flow, b" ");
        self.field(a.number, b" ");
        self.field(a.value, b"\n");
    }

    pub fn bad_line(&mut self, line: u64)
        requires { Fits self.old (bad_line line) }
        ensures { Added self.old (bad_line line) self.new }
    {
        self.text(b"bad line ");
        self.field(line, b"\n");
    }

    pub fn totals(&mut self, words: &[u64])
        requires { Fits self.old (total_line (read_header words.now).total (read_header words.now).used) }
        ensures { Added self.old (total_line (read_header words.now).total (read_header words.now).used) self.new }
    {
        let total = word(words, 2);
        let used = (word(words, 3) >> 16) % 65536;
        self.text(b"total ");
        self.field(total, b" full ");
        self.field(used, b"\n");
    }
}

// A word, and 0 where there is none.
fn word(words: &[u64], i: usize) -> u64
    ensures { result ≡ get_or words.now i 0 }
{
    words.get(i).copied().unwrap_or(0)
}
