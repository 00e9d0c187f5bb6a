// The run of an object: a step, and the loops of a run and a bench run.
#![tactic(auto)]

ghost use Rattle.std.specs.Prelude.{◌≡◌, false, ◌≤◌, ◌<◌, length, Ok};
ghost use Rattle.rules_formats.specs.Walk.{devices_of};
ghost use Rattle.rules_object.specs.Object.{rule_of};
ghost use Rattle.rules_object.specs.Operations.{instruction};
ghost use Rattle.rules_object.specs.Machine.{bench_step};
ghost use Rattle.rules_object.specs.Machine as book;
ghost use Rattle.rules_object.specs.Calls.{run_from, sequence_of};
ghost use Rattle.rules_object.specs.Safe.{Faultless};
ghost use Rattle.object_contents.specs.Layout.{Placed, object_at};
ghost use Rattle.object_contents.specs.Book.{book_of};
ghost use Rattle.run_registers.specs.Registers.{state_of};
ghost use Rattle.run_registers.specs.Devices.{trays_of};
ghost use Rattle.run_arithmetic.specs.Performed.{after, performed};
ghost use Rattle.run_operations.specs.Ready.{Held};
ghost use Rattle.run_guards.specs.Guarding.{guard_of, Sees};
ghost use Rattle.run_machine.specs.Running.{answer, NoFault, Pauses};

use limits::{CELLS, CODE, STACK};
use object_contents::Layout;
use object_contents::placed::Object;
use object_opcodes::Halt;
use run_guards::Seen;
use run_registers::{Regs, Turn};
use run_transfers::Trays;

// With the cards taken and the lines written.
#[derive(Clone, Copy, PartialEq, Eq, Debug)]
pub struct Ran {
    pub halt: Halt,
    pub steps: u32,
    pub regs: Regs,
    pub trays: Trays,
}

// How the steps up to a READ or PRINT end.
#[derive(Clone, Copy, PartialEq, Eq, Debug)]
enum Pause {
    // the allowance is used
    Used,
    // the last step halted
    Halted(Halt),
    // the last step is a READ or PRINT, which is not done here
    Transfer,
}

// With the steps taken, the last of them counted.
#[derive(Clone, Copy, PartialEq, Eq, Debug)]
struct Paused {
    pause: Pause,
    steps: u32,
    regs: Regs,
}

// One instruction, where the guard finds nothing wrong.
fn step(o: &Object, r: Regs, stack: &mut [i64; STACK], store: &mut [i64]) -> Turn
    requires held { Held o.now r stack.old store.old }
    requires height_value { guard_of (book_of o.now) r.index r.height ≡ Ok tt }
    ensures { after result stack.new store.new ≡ performed (rule_of (book_of o.now)) (instruction (book_of o.now) r.index) r stack.old store.old }
{
    let w = object_words::load(o.bytes, o.layout.code + 4 * r.index);
    let x = object_words::operand(w) as usize;
    run_operations::perform(object_words::operation(w), x, o, r, stack, store)
}

// The one loop over single steps, which has no READ or PRINT in it and so is fast. Only one call of `step` keeps it inlined.
fn until_transfer(
    guarded: bool,
    o: &Object,
    start: Regs,
    stack: &mut [i64; STACK],
    store: &mut [i64],
    allowance: u32,
    seen: &mut Seen,
) -> Paused
    requires held { Held o.now start stack.old store.old }
    requires no_fault { guarded ≡ false → NoFault (book_of o.now) start stack.old store.old }
    requires sees { Sees (book_of o.now) seen.old }
    ensures { Pauses o.now allowance start stack.old store.old result stack.new store.new × Sees (book_of o.now) seen.new }
{
    let mut regs = start;
    for done in 0..allowance {
        let steps = done + 1;
        if let Err(halt) = run_guards::test(guarded, o, regs, seen) {
            return Paused {
                pause: Pause::Halted(halt),
                steps,
                regs,
            };
        }
        match step(o, regs, stack, store) {
            Turn::Next(next) => regs = next,
            Turn::Halt(halt) => return Paused {
                pause: Pause::Halted(halt),
                steps,
                regs,
            },
            Turn::Transfer => return Paused {
                pause: Pause::Transfer,
                steps,
                regs,
            },
        }
    }
    Paused {
        pause: Pause::Used,
        steps: allowance,
        regs,
    }
}

// The whole run, from one READ or PRINT to the next. READ keeps the cells in `kept`.
fn turns(
    guarded: bool,
    o: &Object,
    start: Regs,
    stack: &mut [i64; STACK],
    store: &mut [i64],
    kept: &mut [i64],
    cards: &[u8],
    lines: &mut [u8],
    allowance: u32,
    seen: &mut Seen,
) -> Ran
    requires held { Held o.now start stack.old store.old }
    requires faultless { guarded ≡ false → Faultless (book_of o.now) (state_of start stack.old store.old (devices_of (trays_of cards.now lines.old))) }
    requires cells_in_bounds { 0 < o.now.layout.transfer_count → o.now.layout.cells ≤ length kept.old }
    requires sees { Sees (book_of o.now) seen.old }
    ensures { answer (book_of o.now) result stack.new store.new lines.new ≡ run_from (book_of o.now) (trays_of cards.now lines.old) (bench_step (book_of o.now)) allowance (state_of start stack.old store.old (devices_of (trays_of cards.now lines.old))) }
{
    let mut regs = start;
    let mut steps = 0;
    let mut trays = Trays {
        taken: 0,
        written: 0,
    };
    loop {
        let left = allowance - steps;
        let p = until_transfer(guarded, o, regs, stack, store, left, seen);
        steps += p.steps;
        regs = p.regs;
        match p.pause {
            Pause::Used => return Ran {
                halt: Halt::Allowance,
                steps,
                regs,
                trays,
            },
            Pause::Halted(halt) => return Ran {
                halt,
                steps,
                regs,
                trays,
            },
            Pause::Transfer => {
                match run_transfers::transfer(o, regs.index, store, kept, cards, lines, trays) {
                    Ok(after) => trays = after,
                    Err(halt) => return Ran {
                        halt,
                        steps,
                        regs,
                        trays,
                    },
                }
                regs = regs.onward(regs.height);
            }
        }
    }
}

// With room for what is seen, and for the cells that are kept if the object has transfers.
fn turns_with_room(
    guarded: bool,
    o: &Object,
    start: Regs,
    stack: &mut [i64; STACK],
    store: &mut [i64],
    cards: &[u8],
    lines: &mut [u8],
    allowance: u32,
) -> Ran
    requires held { Held o.now start stack.old store.old }
    requires faultless { guarded ≡ false → Faultless (book_of o.now) (state_of start stack.old store.old (devices_of (trays_of cards.now lines.old))) }
    ensures { answer (book_of o.now) result stack.new store.new lines.new ≡ run_from (book_of o.now) (trays_of cards.now lines.old) (bench_step (book_of o.now)) allowance (state_of start stack.old store.old (devices_of (trays_of cards.now lines.old))) }
{
    let mut seen = [0; CODE];
    if o.layout.transfer_count == 0 {
        let mut none = [0i64; 1];
        return turns(
            guarded, o, start, stack, store, &mut none, cards, lines, allowance, &mut seen,
        );
    }
    let mut kept = [0i64; CELLS];
    turns(
        guarded, o, start, stack, store, &mut kept, cards, lines, allowance, &mut seen,
    )
}

// The run of an object that passed the check.
pub fn run(
    o: &Object,
    start: Regs,
    stack: &mut [i64; STACK],
    store: &mut [i64],
    cards: &[u8],
    lines: &mut [u8],
    allowance: u32,
) -> Ran
    requires held { Held o.now start stack.old store.old }
    requires faultless { Faultless (book_of o.now) (state_of start stack.old store.old (devices_of (trays_of cards.now lines.old))) }
    ensures { answer (book_of o.now) result stack.new store.new lines.new ≡ run_from (book_of o.now) (trays_of cards.now lines.old) (book.step (book_of o.now)) allowance (state_of start stack.old store.old (devices_of (trays_of cards.now lines.old))) }
{
    turns_with_room(false, o, start, stack, store, cards, lines, allowance)
}

// The bench run of any object that has its bodies and keeps the limits.
pub fn bench(
    o: &Object,
    start: Regs,
    stack: &mut [i64; STACK],
    store: &mut [i64],
    cards: &[u8],
    lines: &mut [u8],
    allowance: u32,
) -> Ran
    requires { Held o.now start stack.old store.old }
    ensures { answer (book_of o.now) result stack.new store.new lines.new ≡ run_from (book_of o.now) (trays_of cards.now lines.old) (bench_step (book_of o.now)) allowance (state_of start stack.old store.old (devices_of (trays_of cards.now lines.old))) }
{
    turns_with_room(true, o, start, stack, store, cards, lines, allowance)
}

// The sequence number of the last statement at or before the instruction that the mark names.
// On bytes and places, for docs/TRACE.md names it, so that it may ask no more than where the bodies stand.
pub fn sequence(o: &[u8], e: &Layout, mark: u32) -> u32
    requires { Placed e.now o.now }
    ensures { result ≡ sequence_of (object_at e.now o.now).lines mark }
{
    if mark == 0 {
        return 0;
    }
    let address = mark - 1;
    let mut found = 0;
    for i in 0..e.line_count {
        let line = e.lines + 12 * i;
        if object_words::load(o, line + 8) <= address {
            found = object_words::load(o, line);
        }
    }
    found
}
