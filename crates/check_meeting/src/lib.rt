// A height that comes to an instruction: the first there, the same again, or another.
#![tactic(auto)]

ghost use Rattle.std.specs.Prelude.{◌+◌, ◌≤◌, ◌<◌, length};
ghost use Rattle.rules_object.specs.Filling.{nevers};
ghost use Rattle.check_meeting.specs.Meeting.{Meets};

use limits::CODE;

pub type Table = [u8; CODE];

// Instructions that wait to be visited.
pub type Work = [u16; CODE];

// The height of an instruction that control never comes to.
pub const NEVER: u8 = 255;

const STACK: u8 = limits::STACK as u8;

// The height h comes to the instruction t: how many instructions wait then, if there can be a table.
pub fn meet(
    t: usize,
    n: usize,
    h: u8,
    table: &mut Table,
    work: &mut Work,
    top: usize,
) -> Option<usize>
    requires { (n ≤ 4096) × ((n ≤ length table.old) × (nevers table.old + top ≤ 4096)) }
    ensures { Meets n t h table.old work.old top table.new work.new result }
{
    if n <= t {
        return None;
    }
    let g = table[t];
    if g == NEVER {
        if STACK < h {
            return None;
        }
        table[t] = h;
        work[top] = t as u16;
        return Some(top + 1);
    }
    if g == h { Some(top) } else { None }
}
