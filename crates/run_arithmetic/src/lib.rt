// The operations on the upper numbers of the stack. A place that is left free is made 0.
#![tactic(auto)]

ghost use Rattle.std.specs.Prelude.{◌≡◌, List, ◌+◌, ◌-◌, ◌^◌, ◌≤◌, ◌<◌, length, set, ℤ, nat_abs};
ghost use Rattle.number.specs.Code.{divided_of};
ghost use Rattle.rules_object.specs.Machine.{cell};
ghost use Rattle.run_arithmetic.specs.Performed.{after, next, pushed, popped, joined, negated};

use limits::STACK;
use number::Worked;
use object_opcodes::Halt;
use run_registers::{Regs, Turn};

pub fn push(r: Regs, stack: &mut [i64; STACK], v: i64) -> Regs
    requires { (r.height < 40) × (r.index < 4096) }
    ensures { (so : List ℤ) → next result stack.new so ≡ pushed r stack.old so v }
{
    stack[r.height] = v;
    r.onward(r.height + 1)
}

// The upper number goes into cell `a`.
pub fn store_top(r: Regs, stack: &mut [i64; STACK], store: &mut [i64], a: usize) -> Regs
    requires { (0 < r.height) × (r.height ≤ 40) × (r.index < 4096) × (a < length store.old) }
    ensures { next result stack.new store.new ≡ popped r stack.old (set store.old a (cell stack.old (r.height - 1))) (r.index + 1) }
{
    let top = r.height - 1;
    store[a] = stack[top];
    stack[top] = 0;
    r.onward(top)
}

// The two upper numbers become what `work` makes of them.
#[inline]
pub fn join<F: FnOnce(i64, i64) -> Option<Worked>>(
    r: Regs,
    stack: &mut [i64; STACK],
    work: F,
) -> Turn
    requires lt_height { (1 < r.height) × (r.height ≤ 40) × (r.index < 4096) }
    requires works { F.pre work (cell stack.old (r.height - 2)) (cell stack.old (r.height - 1)) }
    ensures { (w : _)
        × F.post work (cell stack.old (r.height - 2)) (cell stack.old (r.height - 1)) w
        × ((so : List ℤ) → after result stack.new so ≡ joined (divided_of w) r stack.old so) }
{
    let top = r.height - 1;
    let Some(w) = work(stack[top - 1], stack[top]) else {
        return Turn::Halt(Halt::DivideByZero);
    };
    stack[top - 1] = w.value;
    stack[top] = 0;
    Turn::Next(r.marking(w.loss).onward(top))
}

pub fn do_neg(r: Regs, stack: &mut [i64; STACK]) -> Regs
    requires height_nonzero { (0 < r.height) × (r.height ≤ 40) × (r.index < 4096) }
    requires height_bound { nat_abs (cell stack.old (r.height - 1)) < 2 ^ 63 }
    ensures { (so : List ℤ) → next result stack.new so ≡ negated r stack.old so }
{
    let top = r.height - 1;
    stack[top] = -stack[top];
    r.onward(r.height)
}
