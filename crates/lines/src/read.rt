ghost use Rattle.std.specs.Prelude.{◌≡◌};
ghost use Rattle.std.specs.Iterator.{YieldsFirstRef, item_count};
ghost use Rattle.lines.specs.Transcript.{flow_of, lines_of};

// The lines that are left to read, each without its newline.
#[derive(Drop)]
pub struct Lines<'a> {
    rest: &'a [u8],
}

impl<'a> Lines<'a> {
    pub fn new(input: &'a [u8]) -> Lines<'a>
        ensures { result.rest.now ≡ input.now }
    {
        Lines { rest: input }
    }
}

impl<'a> Iterator for Lines<'a> {
    type Item = &'a [u8];

    ghost next_gives = { YieldsFirstRef (λ s. lines_of s.rest.now) };

    ghost remaining = { item_count (λ s. lines_of s.rest.now) };

    fn next(&mut self) -> Option<&'a [u8]> {
        let rest = self.rest;
        if rest.is_empty() {
            return None;
        }
        match rest.iter().position(|b| *b == b'\n') {
            Some(n) => {
                self.rest = &rest[n + 1..];
                Some(&rest[..n])
            }
            None => {
                self.rest = &[];
                Some(rest)
            }
        }
    }
}

// The flow number in a line, which is 1 to 7 digits. Std's parse would take a sign too.
pub fn flow_in(line: &[u8]) -> Option<u64>
    ensures { result ≡ flow_of line.now }
{
    if !(1..=7).contains(&line.len()) {
        return None;
    }
    let mut value = 0;
    for &b in line {
        if !b.is_ascii_digit() {
            return None;
        }
        value = value * 10 + u64::from(b - b'0');
    }
    Some(value)
}
