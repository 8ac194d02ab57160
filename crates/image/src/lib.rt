#![tactic(auto)]

ghost use Rattle.std.specs.Prelude.{◌≡◌};
ghost use Rattle.model.specs.Calls.{image_call};
ghost use Rattle.answer.specs.Answers.{reply_of, answer_of};

use answer::Refusal;

// Word `n` of the image `bytes`, where all its eight bytes are there.
pub fn word(bytes: &[u8], n: u64) -> Result<u64, Refusal>
    ensures { reply_of (answer_of result) ≡ image_call bytes.now n }
{
    let words = bytes.as_chunks::<8>().0;
    if n < words.len() as u64 {
        Ok(u64::from_le_bytes(words[n as usize]))
    } else {
        Err(Refusal::BadLength)
    }
}
