// The tests of a bench run, before each instruction: 8 where it is not right, 7 where the stack has too few numbers or too little room.
#![tactic(auto)]

ghost use Rattle.std.specs.Prelude.{◌≡◌, false, ◌≤◌, ◌<◌, Ok};
ghost use Rattle.rules_object.specs.Operations.{operation_at};
ghost use Rattle.object_contents.specs.Book.{book_of};
ghost use Rattle.run_guards.specs.Guarding.{room_for, guard_of, Sees};

use limits::{CODE, STACK};
use object_contents::placed::Object;
use object_opcodes::Halt;
use run_registers::Regs;

// For each instruction 1 more than a height at which all is right, or 0.
pub type Seen = [u8; CODE];

fn room(op: usize, h: usize) -> Result<(), Halt>
    requires { (op < 18) × (h ≤ 40) }
    ensures { result ≡ room_for (operation_at op).pops (operation_at op).pushes h }
{
    let pops = usize::from(check_operands::pops_of(op));
    if h < pops || STACK < h - pops + usize::from(check_operands::pushes_of(op)) {
        return Err(Halt::BadStack);
    }
    Ok(())
}

fn guard(o: &Object, r: Regs) -> Result<(), Halt>
    requires { r.height ≤ 40 }
    ensures { result ≡ guard_of (book_of o.now) r.index r.height }
{
    if o.layout.code_count <= r.index {
        return Err(Halt::BadInstruction);
    }
    let w = object_words::load(o.bytes, o.layout.code + 4 * r.index);
    if !check_operands::word_right(o.bytes, &o.layout, w) {
        return Err(Halt::BadInstruction);
    }
    if !check_operands::entry_right(o, w) {
        return Err(Halt::BadInstruction);
    }
    room(object_words::operation(w) as usize, r.height)
}

// The same, where an instruction that was once right at its height is not looked at again.
fn guard_again(o: &Object, r: Regs, seen: &mut Seen) -> Result<(), Halt>
    requires code_bound { o.now.layout.code_count ≤ 4096 }
    requires height_bound { r.height ≤ 40 }
    requires sees { Sees (book_of o.now) seen.old }
    ensures { (result ≡ guard_of (book_of o.now) r.index r.height) × Sees (book_of o.now) seen.new }
{
    if o.layout.code_count <= r.index {
        return Err(Halt::BadInstruction);
    }
    let tag = r.height as u8 + 1;
    if seen[r.index] != tag {
        guard(o, r)?;
        seen[r.index] = tag;
    }
    Ok(())
}

// The guard's answer. Where the caller knows that it is `Ok`, nothing is tested.
pub fn test(guarded: bool, o: &Object, r: Regs, seen: &mut Seen) -> Result<(), Halt>
    requires code_bound { o.now.layout.code_count ≤ 4096 }
    requires height_bound { r.height ≤ 40 }
    requires sees { Sees (book_of o.now) seen.old }
    requires height_value { guarded ≡ false → guard_of (book_of o.now) r.index r.height ≡ Ok tt }
    ensures { (result ≡ guard_of (book_of o.now) r.index r.height) × Sees (book_of o.now) seen.new }
{
    if guarded {
        guard_again(o, r, seen)
    } else {
        Ok(())
    }
}
