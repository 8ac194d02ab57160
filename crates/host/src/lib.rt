#![tactic(auto)]

ghost use Rattle.std.specs.Prelude.{◌≡◌};
ghost use Rattle.answer.specs.Answers.{reply_of};
ghost use Rattle.model.specs.Calls.{image_call, limits_call, slot_call};

use answer::Answer;

// The calls of the card's C host; include/wall.h declares them.

#[unsafe(no_mangle)]
pub extern "C" fn wall_slot(bits: u64, spread: u64, flow: u64) -> Answer
    ensures { reply_of result ≡ slot_call bits spread flow }
{
    slot::slot(bits, spread, flow).into()
}

#[unsafe(no_mangle)]
pub extern "C" fn wall_limits(shape: u64, width: u64) -> Answer
    ensures { reply_of result ≡ limits_call shape width }
{
    layout::limits(shape, width).into()
}

#[unsafe(no_mangle)]
pub extern "C" fn wall_image(bytes: &[u8], n: u64) -> Answer
    ensures { reply_of result ≡ image_call bytes.now n }
{
    image::word(bytes, n).into()
}
