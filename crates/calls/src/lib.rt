// The calls that C and Rust make: compile, check, map, run and bench. Whatever is lent gets one outcome, the book's. The archive that exports them is `calls_c`.
#![tactic(auto)]

ghost use Rattle.rules_object.specs.Calls.{running, benching};
ghost use Rattle.run_registers.specs.Devices.{trays_of};
ghost use Rattle.run_lent.specs.Lending.{lent};
ghost use Rattle.check_verdicts.specs.Outcomes.{Checks, Maps};
ghost use Rattle.run_object.specs.Outcomes.{Ends};
ghost use Rattle.calls.specs.Outcomes.{Compiles};

use check_verdicts::{Refusal, Written};
use limits::STACK;
use run_object::Ran;

// The deck's object at the start of the output; bytes past it stay, and on a refusal all of them.
#[unsafe(no_mangle)]
pub extern "C" fn luvinqata_compile(k: u32, deck: &[u8], output: &mut [u8]) -> Written
    ensures { Compiles k deck.now output.old output.new result }
{
    Written::from(compiler::compile(k, deck, output))
}

#[unsafe(no_mangle)]
pub extern "C" fn luvinqata_check(object: &[u8]) -> Refusal
    ensures { Checks object.now result }
{
    check_verdicts::check(object)
}

// Body 7, an entry of twenty bytes for each name; bytes past it stay.
#[unsafe(no_mangle)]
pub extern "C" fn luvinqata_map(object: &[u8], table: &mut [u8]) -> Written
    ensures { Maps object.now table.old table.new result }
{
    check_verdicts::map(object, table)
}

// From the state that is lent; what it leaves is a state to go on from. Every whole eighty bytes of `cards` are a card, and lines of 132 columns are written at the start of `lines`; bytes past them stay.
#[unsafe(no_mangle)]
pub extern "C" fn luvinqata_run(
    object: &[u8],
    store: &mut [i64],
    index: &mut u32,
    height: &mut u32,
    mark: &mut u32,
    places: &mut [i64; STACK],
    cards: &[u8],
    lines: &mut [u8],
    allowance: u32,
) -> Ran
    ensures { Ends (running object.now store.old (lent index.old height.old mark.old places.old) (trays_of cards.now lines.old) allowance) result (lent index.new height.new mark.new places.new) store.new lines.new }
{
    run_object::run(
        object, store, index, height, mark, places, cards, lines, allowance,
    )
}

// Starts fresh, and tests each instruction before it is done: 42 to 44 are not asked.
#[unsafe(no_mangle)]
pub extern "C" fn luvinqata_bench(
    object: &[u8],
    store: &mut [i64],
    index: &mut u32,
    height: &mut u32,
    mark: &mut u32,
    places: &mut [i64; STACK],
    cards: &[u8],
    lines: &mut [u8],
    allowance: u32,
) -> Ran
    ensures { Ends (benching object.now store.old (lent index.old height.old mark.old places.old) (trays_of cards.now lines.old) allowance) result (lent index.new height.new mark.new places.new) store.new lines.new }
{
    run_object::bench(
        object, store, index, height, mark, places, cards, lines, allowance,
    )
}
