#![tactic(auto)]

ghost use Rattle.std.specs.Prelude.{◌≡◌};
ghost use Rattle.answer.specs.Answers.{listing_of, outcome_of};
ghost use Rattle.model.specs.Calls as model;
ghost use Rattle.model.specs.Calls.{ask};
ghost use Rattle.model.specs.BusyLists.{busy};

use answer::Answer;

// The calls over a wall for firmware in C; include/wall.h declares them beside those of the host.

#[unsafe(no_mangle)]
pub extern "C" fn wall_raise(
    words: &mut [u64],
    shape: u64,
    width: u64,
    bits: u64,
    limit: u64,
    full: u64,
    spread: u64,
) -> Answer
    ensures { outcome_of result words.new ≡ model.raise (ask shape width bits limit full spread) words.old }
{
    fresh::raise(words, shape, width, bits, limit, full, spread).into()
}

#[unsafe(no_mangle)]
pub extern "C" fn wall_lookup(words: &[u64], flow: u64) -> Answer
    ensures { outcome_of result words.now ≡ model.lookup words.now flow }
{
    lookup::lookup(words, flow).into()
}

#[unsafe(no_mangle)]
pub extern "C" fn wall_increment(words: &mut [u64], flow: u64) -> Answer
    ensures { outcome_of result words.new ≡ model.increment words.old flow }
{
    increment::increment(words, flow).into()
}

#[unsafe(no_mangle)]
pub extern "C" fn wall_check(words: &[u64]) -> Answer
    ensures { outcome_of result words.now ≡ model.check words.now }
{
    whole::check(words).into()
}

#[unsafe(no_mangle)]
pub extern "C" fn wall_busy(words: &[u64], floor: u64, list: &mut [u64]) -> Answer
    ensures { listing_of result words.now list.new ≡ busy words.now floor list.old }
{
    busy::busy(words, floor, list).into()
}

#[unsafe(no_mangle)]
pub extern "C" fn wall_close(words: &mut [u64]) -> Answer
    ensures { outcome_of result words.new ≡ model.close words.old }
{
    fresh::close(words).into()
}
