#![tactic(auto)]

ghost use Rattle.std.specs.Prelude.{◌≡◌};
ghost use Rattle.answer.specs.Answers.{reply_of, answer_of};
ghost use Rattle.model.specs.Calls.{slot_call};

use answer::Refusal;
use layout::Wall;

// The three tests are asked first, and the ifs then say the order of the refusals.
pub fn slot(bits: u64, spread: u64, flow: u64) -> Result<u64, Refusal>
    ensures { reply_of (answer_of result) ≡ slot_call bits spread flow }
{
    let known = Wall::known_bits(bits);
    let valid = spreads::valid(bits, spread);
    let within = spreads::below(bits, flow);
    if !known {
        return Err(Refusal::BadBits);
    }
    if !valid {
        return Err(Refusal::BadSpread);
    }
    if !within {
        return Err(Refusal::NoFlow);
    }
    Ok(spreads::slot_of(bits, spread, flow))
}
