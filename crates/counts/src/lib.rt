#![tactic(auto)]

ghost use Rattle.std.specs.Prelude.{◌≡◌, ◌<◌};
ghost use Rattle.model.specs.Walls.{flows, parse};
ghost use Rattle.model.specs.Sound.{count};
ghost use Rattle.model.specs.Calls as model;

use header::Opened;

// An opened wall that the check accepts.
#[derive(Clone, Copy)]
pub struct Checked<'a> {
    pub wall: Opened<'a>,
    pub ghost sound: { (model.check wall.words.now).number ≡ 0 },
}

// The count of a flow of the wall, read where it lies: nothing is judged again. Its callers know the flow.
pub fn count_of(checked: &Checked<'_>, flow: u64) -> u64
    requires { flow < flows (parse checked.now.wall.words.now).header }
    ensures { result ≡ count (parse checked.now.wall.words.now) flow }
{
    let v = checked.wall.header;
    let s = spreads::slot_of(v.bits, v.spread, flow);
    found::count(&checked.wall, s / 64, s % 64)
}
