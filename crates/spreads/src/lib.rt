#![tactic(auto)]

ghost use Rattle.std.specs.Prelude.{◌≡◌, ◌≤◌, ◌<◌, ◌^◌, ltb};
ghost use Rattle.model.specs.Slots.{slot, valid_spread};

// Whether x is below 2^bits, for any number of bits: from 64 on every x is.
pub fn below(bits: u64, x: u64) -> bool
    ensures { result ≡ ltb x (2 ^ bits) }
{
    if 64 <= bits {
        return true;
    }
    x < packed::pow2(bits)
}

// Whether a wall of 2^bits flows may carry the spread: an odd one is below 2^bits, an even one below 2^0, which is 0. In one test, so that a header is
// judged in the frame of the call that opens it.
pub fn valid(bits: u64, spread: u64) -> bool
    ensures { result ≡ valid_spread bits spread }
{
    below(spread % 2 * bits, spread)
}

// The slot of a flow. The slot call shows what this asks by its refusals 3, 15 and 8, a call over a wall by 7 and 8, or by asking for flows below N alone.
pub fn slot_of(bits: u64, spread: u64, flow: u64) -> u64
    requires { (bits ≤ 22) × (spread < 2 ^ bits) × (flow < 2 ^ bits) }
    ensures { (result ≡ slot bits spread flow) × (result < 2 ^ bits) }
{
    if spread == 0 {
        return reversal::reversed(bits, flow);
    }
    flow * spread % packed::pow2(bits)
}
