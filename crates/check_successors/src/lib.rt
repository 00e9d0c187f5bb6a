// Where control goes after an instruction whose operand passed 43: how many successors it has, and each of them.
#![tactic(auto)]

ghost use Rattle.std.specs.Prelude.{◌≡◌, true, ℕ, ◌<◌, length, get_or};
ghost use Rattle.rules_object.specs.Operations.{meant, no_loop, successors};
ghost use Rattle.object_contents.specs.Layout.{Placed, object_at};
ghost use Rattle.check_operands.specs.Operands.{operand_right};

use object_contents::Layout;
use object_words::load;

// Operations as the indexes that they are in the tables of what each pops and pushes.
const HLT: usize = object_opcodes::HLT as usize;

const JMP: usize = object_opcodes::JMP as usize;

const BR3: usize = object_opcodes::BR3 as usize;

const BRC: usize = object_opcodes::BRC as usize;

const DOE: usize = object_opcodes::DOE as usize;

fn exit_at(o: &[u8], e: &Layout, i: usize) -> usize
    requires { Placed e.now o.now × (i < e.now.exit_count) }
    ensures { result ≡ get_or (object_at e.now o.now).exits i 0 }
{
    load(o, e.exits + 4 * i) as usize
}

fn body_of(o: &[u8], e: &Layout, i: usize) -> usize
    requires { Placed e.now o.now × (i < e.now.do_count) }
    ensures { result ≡ (get_or (object_at e.now o.now).dos i no_loop).body }
{
    load(o, e.dos + 16 * i + 12) as usize
}

// How many successors. On bytes and places, for docs/TRACE.md names it, so that it may ask no more than where the bodies stand.
pub fn width_of(o: &[u8], e: &Layout, operation: usize, x: usize) -> usize
    requires { Placed e.now o.now × (operand_right (object_at e.now o.now) operation x ≡ true) }
    ensures { (a : ℕ) → result ≡ length (successors a (meant (object_at e.now o.now) operation x)) }
{
    match operation {
        HLT => 0,
        BR3 => 3,
        BRC => exit_at(o, e, x),
        DOE => 2,
        _ => 1,
    }
}

// One of them, on bytes and places as `width_of`. A computed branch's count stands before its targets.
pub fn next_of(o: &[u8], e: &Layout, operation: usize, x: usize, a: usize, k: usize) -> usize
    requires placed { Placed e.now o.now × (operand_right (object_at e.now o.now) operation x ≡ true) }
    requires bound { (a < 4096) × (k < length (successors a (meant (object_at e.now o.now) operation x))) }
    ensures { result ≡ get_or (successors a (meant (object_at e.now o.now) operation x)) k 0 }
{
    match operation {
        JMP => x,
        BR3 => exit_at(o, e, x + k),
        BRC => exit_at(o, e, x + 1 + k),
        DOE => { if k == 0 { body_of(o, e, x) } else { a + 1 } }
        _ => a + 1,
    }
}
