#![tactic(auto)]

ghost use Rattle.std.specs.Prelude.{◌≡◌};
ghost use Rattle.answer.specs.Answers.{outcome_of, answer_of};
ghost use Rattle.model.specs.Calls as model;

use answer::Refusal;

// The count of a flow.
pub fn lookup(words: &[u64], flow: u64) -> Result<u64, Refusal>
    ensures { outcome_of (answer_of result) words.now ≡ model.lookup words.now flow }
{
    let wall = header::open(words).ok_or(Refusal::BadHeader)?;
    let v = wall.header;
    if packed::pow2(v.bits) <= flow {
        return Err(Refusal::NoFlow);
    }
    let s = spreads::slot_of(v.bits, v.spread, flow);
    found::read(&wall, s / 64, s % 64).ok_or(Refusal::Unsound)
}
