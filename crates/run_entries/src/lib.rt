// The operations that have an entry: exits, DOs and elements. Nothing is tested here that the check of an object has settled.
#![tactic(auto)]

ghost use Rattle.std.specs.Prelude.{◌≡◌, List, ◌+◌, ◌-◌, ◌*◌, ◌≤◌, ◌<◌, length, set, ℤ};
ghost use Rattle.rules_shared.specs.Choose.{all_positive, positive};
ghost use Rattle.rules_object.specs.Machine.{cell, place_of};
ghost use Rattle.object_words.specs.Word.{word_at};
ghost use Rattle.object_contents.specs.Layout.{element_at, loop_at};
ghost use Rattle.run_subscripts.specs.Elements.{ElementIn};
ghost use Rattle.run_arithmetic.specs.Performed.{after, next, popped, loaded, put, branched, begun, ended};
ghost use Rattle.run_entries.specs.Entries.{LoopIn, chosen, sign_of};

use limits::STACK;
use object_opcodes::Halt;
use run_registers::{Regs, Turn};
use std::cmp::Ordering;

// Three exits stand at byte `b`.
pub fn do_br3(o: &[u8], b: usize, r: Regs, stack: &mut [i64; STACK]) -> Regs
    requires height_nonzero { (0 < r.height) × (r.height ≤ 40) }
    requires b_in_bounds { b + 12 ≤ length o.now }
    ensures { (so : List ℤ) → next result stack.new so ≡ popped r stack.old so (word_at o.now (b + 4 * sign_of (cell stack.old (r.height - 1)))) }
{
    let top = r.height - 1;
    let exit = match stack[top].cmp(&0) {
        Ordering::Less => b,
        Ordering::Equal => b + 4,
        Ordering::Greater => b + 8,
    };
    stack[top] = 0;
    r.going_to(object_words::load(o, exit) as usize, top)
}

// The count of exits stands at byte `b`, the exits after it.
pub fn do_brc(o: &[u8], b: usize, r: Regs, stack: &mut [i64; STACK]) -> Turn
    requires height_nonzero { (0 < r.height) × (r.height ≤ 40) }
    requires b_in_bounds { b + 4 * word_at o.now b + 4 ≤ length o.now }
    ensures { (so : List ℤ) → after result stack.new so ≡ branched (chosen o.now b (word_at o.now b) (cell stack.old (r.height - 1))) r stack.old so }
{
    let top = r.height - 1;
    let k = stack[top];
    if k <= 0 || i64::from(object_words::load(o, b)) < k {
        return Turn::Halt(Halt::BadExit);
    }
    stack[top] = 0;
    Turn::Next(r.going_to(object_words::load(o, b + 4 * k as usize) as usize, top))
}

// Sets variable, limit and step, in this order.
pub fn do_doi(o: &[u8], b: usize, r: Regs, stack: &mut [i64; STACK], store: &mut [i64]) -> Turn
    requires loop_in { LoopIn o.now b store.old }
    requires lt_height { (2 < r.height) × (r.height ≤ 40) × (r.index < 4096) }
    ensures { after result stack.new store.new ≡ begun (all_positive (cell stack.old (r.height - 3)) (cell stack.old (r.height - 2)) (cell stack.old (r.height - 1))) (loop_at o.now b) r stack.old store.old }
{
    let first = stack[r.height - 3];
    let limit = stack[r.height - 2];
    let step = stack[r.height - 1];
    if first <= 0 || limit <= 0 || step <= 0 {
        return Turn::Halt(Halt::BadParameter);
    }
    set_loop(o, b, store, first, limit, step);
    stack[r.height - 3] = 0;
    stack[r.height - 2] = 0;
    stack[r.height - 1] = 0;
    Turn::Next(r.onward(r.height - 3))
}

pub fn set_loop(o: &[u8], b: usize, store: &mut [i64], first: i64, limit: i64, step: i64)
    requires { LoopIn o.now b store.old }
    ensures { store.new ≡ set (set (set store.old (word_at o.now b) first) (word_at o.now (b + 4)) limit) (word_at o.now (b + 8)) step }
{
    store[object_words::load(o, b) as usize] = first;
    store[object_words::load(o, b + 4) as usize] = limit;
    store[object_words::load(o, b + 8) as usize] = step;
}

pub fn do_doe(o: &[u8], b: usize, r: Regs, store: &mut [i64]) -> Turn
    requires loop_in { LoopIn o.now b store.old }
    requires index_bound { r.index < 4096 }
    ensures { (st : List ℤ) → after result st store.new ≡ ended (positive (cell store.old (word_at o.now (b + 8)))) (loop_at o.now b) r st store.old }
{
    let variable = object_words::load(o, b) as usize;
    let limit = store[object_words::load(o, b + 4) as usize];
    let step = store[object_words::load(o, b + 8) as usize];
    if step <= 0 {
        return Turn::Halt(Halt::BadParameter);
    }
    let z = store[variable] + step;
    if z <= limit {
        store[variable] = z;
        return Turn::Next(r.going_to(object_words::load(o, b + 12) as usize, r.height));
    }
    Turn::Next(r.onward(r.height))
}

pub fn do_lde(o: &[u8], b: usize, r: Regs, stack: &mut [i64; STACK], store: &[i64]) -> Turn
    requires element_in { ElementIn o.now b store.now }
    requires height_bound { (r.height < 40) × (r.index < 4096) }
    ensures { after result stack.new store.now ≡ loaded (place_of store.now (element_at o.now b)) (word_at o.now b) r stack.old store.now }
{
    let Some(n) = run_subscripts::element_place(o, b, store) else {
        return Turn::Halt(Halt::BadSubscript);
    };
    let v = store[object_words::load(o, b) as usize + n];
    Turn::Next(run_arithmetic::push(r, stack, v))
}

pub fn do_ste(o: &[u8], b: usize, r: Regs, stack: &mut [i64; STACK], store: &mut [i64]) -> Turn
    requires element_in { ElementIn o.now b store.old }
    requires height_nonzero { (0 < r.height) × (r.height ≤ 40) × (r.index < 4096) }
    ensures { after result stack.new store.new ≡ put (place_of store.old (element_at o.now b)) (word_at o.now b) r stack.old store.old }
{
    let Some(n) = run_subscripts::element_place(o, b, store) else {
        return Turn::Halt(Halt::BadSubscript);
    };
    let a = object_words::load(o, b) as usize + n;
    Turn::Next(run_arithmetic::store_top(r, stack, store, a))
}
