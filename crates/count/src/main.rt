#![tactic(auto)]

ghost use Rattle.std.specs.Prelude.{◌≡◌, ◌++◌, ℕ, ◌≤◌, ◌<◌, length, take, drop, IfOk, IfErr, IfSome, OnOk, OnErr};
ghost use Rattle.std.specs.Io.{StartsWith};
ghost use Rattle.std.specs.Io.KnownBytes.{Appends, Consumes, Keeps};
ghost use Rattle.io.specs.Counts.{IsPrefixLen};
ghost use Rattle.count.specs.Program.{program};
ghost use Rattle.count.specs.Failures.{IfUnread};
ghost use Rattle.count.specs.Examples.{Examples};

use std::fmt::InlineText;
use std::io::{Read, Write};
use std::{fmt, io};

// What the program writes for the n bytes that it read: the first bytes of `out`. `run` shows that these are enough, and that its buffer
// holds more than the longest input: `longer` speaks of the whole buffer, which is why it comes with n beside it.
fn respond(input: &[u8], n: usize, out: &mut [u8]) -> usize
    requires longer { 65536 < length input.now }
    requires within { n ≤ length input.now }
    requires room { 262208 ≤ length out.old }
    ensures size { result ≡ length (program (take n input.now)) }
    ensures output { out.new ≡ program (take n input.now) ++ drop result out.old }
    ensures prefix { IsPrefixLen result out.new }
    ensures examples { Examples }
{
    let mut words = [0u64; 74];
    let _ = fresh::raise(&mut words, 3, 1, 6, 100, 1, 0);
    lines::lines(&input[..n], &mut words, out)
}

// Reads until the buffer is full or the input ends: how many bytes. Where a read fails, the first bytes of the buffer are those read before.
fn read_whole<R: Read>(reader: &mut R, buf: &mut [u8]) -> io::Result<usize>
    ensures bound { IfOk result (λ n. IsPrefixLen n buf.new) }
    ensures front { IfOk result (λ n. IfSome (R.remaining reader.old) (λ input. take n buf.new ≡ take (length buf.old) input)) }
    ensures rest { IfOk result (λ n. Consumes (R.remaining reader.old) (R.remaining reader.new) (take n buf.new)) }
    ensures failed { OnErr result ((n : ℕ) × (n ≤ length buf.new) × Consumes (R.remaining reader.old) (R.remaining reader.new) (take n buf.new)) }
{
    // no library call: `read_to_end` wants a `Vec`, and there is no heap; `read_exact` does not say how many bytes came
    let mut done = 0;
    while done < buf.len() {
        let n = reader.read(&mut buf[done..])?;
        if n == 0 {
            return Ok(done);
        }
        done += n;
    }
    Ok(done)
}

// A read or a write that failed.
#[derive(Debug, Drop)]
enum Failure {
    Read(io::Error),
    Write(io::Error),
}

// The whole program: one byte more than the longest input is read, to know one that is longer. Where a read fails, nothing is written.
fn run<R: Read, W: Write>(reader: &mut R, writer: &mut W) -> Result<(), Failure>
    ensures written { OnOk result (IfSome (R.remaining reader.old) (λ input. Appends (W.contents writer.old) (W.contents writer.new) (program input))) }
    ensures unread { IfErr result (λ failure. IfUnread failure (Keeps (W.contents writer.old) (W.contents writer.new))) }
{
    let mut input = [0u8; 65537];
    let n = read_whole(reader, &mut input).map_err(Failure::Read)?;
    let mut out = [0u8; 262208];
    let written = respond(&input, n, &mut out);
    writer.write_all(&out[..written]).map_err(Failure::Write)
}

// The system's words for an error, without the number that std puts after them.
fn words(text: &str) -> &str
    ensures { StartsWith text.now result.now }
{
    text.split_once(" (os error ")
        .map_or(text, |(words, _)| words)
}

// What failed, and the system's words for it.
impl fmt::Display for Failure {
    fn fmt<W: fmt::Write>(&self, f: &mut fmt::Formatter<W>) -> fmt::Result {
        let (what, error) = match self {
            Failure::Read(error) => ("read", error),
            Failure::Write(error) => ("write", error),
        };
        let text = InlineText::<256>::of(error);
        let words = words(text.as_str());
        write!(f, "{what}: {words}")
    }
}

// A failed read or write is said on standard error. Where that fails too, nothing is said.
fn main(rt: HostRuntime) {
    if let Err(failure) = run(&mut rt.stdin(), &mut rt.stdout()) {
        let _ = eprintln!(rt; "count: {failure}");
    }
}
