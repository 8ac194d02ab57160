#![tactic(auto)]

ghost use Rattle.std.specs.Prelude.{◌≡◌, ◌+◌, ◌*◌, ◌≤◌, ◌<◌, length, set};
ghost use Rattle.answer.specs.Answers.{listing_of, answer_of};
ghost use Rattle.model.specs.Walls.{parse};
ghost use Rattle.model.specs.Sound.{count};
ghost use Rattle.model.specs.BusyLists.{busy_flows, written, busy};

use answer::Refusal;
use counts::Checked;

// How many flows count at least the floor. That does not depend on their order, so they are counted by slot.
fn listed(checked: &Checked<'_>, floor: u64) -> u64
    ensures { (result ≡ length (busy_flows (parse checked.now.wall.words.now) floor)) × (result ≤ 4194304) }
{
    let mut k: u64 = 0;
    for slot in 0..packed::pow2(checked.wall.header.bits) {
        if floor <= found::count(&checked.wall, slot / 64, slot % 64) {
            k += 1;
        }
    }
    k
}

// A list, and how many words at its front are written.
#[derive(Drop)]
struct Entries<'a> {
    list: &'a mut [u64],
    len: usize,
}

impl<'a> Entries<'a> {
    // A flow and its count. `fill` shows that there is room.
    fn put(&mut self, flow: u64, count: u64)
        requires { self.old.len + 2 ≤ length self.old.list.now }
        ensures same { self.new.list.ghost_name ≡ self.old.list.ghost_name }
        ensures list { self.new.list.now ≡ set (set self.old.list.now self.old.len flow) (self.old.len + 1) count }
        ensures len { self.new.len ≡ self.old.len + 2 }
    {
        self.list[self.len] = flow;
        self.list[self.len + 1] = count;
        self.len += 2;
    }
}

// The entries of the flows that count at least the floor, which take the words before `end`: it stops with the last of them. `busy` has found the room.
fn fill(checked: &Checked<'_>, floor: u64, end: usize, list: &mut [u64])
    requires { (end ≡ 2 * length (busy_flows (parse checked.now.wall.words.now) floor)) × (end ≤ length list.old) }
    ensures { list.new ≡ written (count (parse checked.now.wall.words.now)) (busy_flows (parse checked.now.wall.words.now) floor) list.old }
{
    let mut entries = Entries { list, len: 0 };
    let mut flow: u64 = 0;
    // No `for`: the last entry ends it, and not the last flow.
    while entries.len < end {
        let count = counts::count_of(checked, flow);
        if floor <= count {
            entries.put(flow, count);
        }
        flow += 1;
    }
}

// The busy list. The wall is checked once; then its counts are read where they lie, once to count the flows to list and once to write them.
pub fn busy(words: &[u64], floor: u64, list: &mut [u64]) -> Result<u64, Refusal>
    ensures { listing_of (answer_of result) words.now list.new ≡ busy words.now floor list.old }
{
    let wall = header::open(words).ok_or(Refusal::BadHeader)?;
    whole::check(words)?;
    let checked = Checked { wall };
    let k = listed(&checked, floor);
    let end = 2 * k;
    if (list.len() as u64) < end {
        return Err(Refusal::ListShort);
    }
    fill(&checked, floor, end as usize, list);
    Ok(k)
}
