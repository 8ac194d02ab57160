#![tactic(auto)]

ghost use Rattle.std.specs.Prelude.{◌≡◌, ◌≤◌, ◌<◌, ◌^◌};
ghost use Rattle.model.specs.Slots as model;

mod table;

use table::reversed_bytes;

// The low bits of the flow in reverse order. `spreads::slot_of` shows what this asks.
pub fn reversed(bits: u64, flow: u64) -> u64
    requires { bits ≤ 24 }
    ensures { (result ≡ model.reversed bits flow) × (result < 2 ^ bits) }
{
    let all = reversed_bytes(flow % 256, (flow >> 8) % 256, (flow >> 16) % 256);
    all >> (24 - bits)
}
