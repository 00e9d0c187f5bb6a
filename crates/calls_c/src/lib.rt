// The archive of the calls for C and Rust. Rattle builds a crate as a library or as a static library, and not as both: each export is the call of `calls` that has its name.
#![tactic(auto)]

ghost use Rattle.rules_object.specs.Calls.{running, benching};
ghost use Rattle.run_registers.specs.Devices.{trays_of};
ghost use Rattle.run_lent.specs.Lending.{lent};
ghost use Rattle.check_verdicts.specs.Outcomes.{Checks, Maps};
ghost use Rattle.run_object.specs.Outcomes.{Ends};
ghost use Rattle.calls.specs.Outcomes.{Compiles};

use check_verdicts::{Refusal, Written};
use limits::STACK;
use run_object::Ran;

#[unsafe(no_mangle)]
pub extern "C" fn luvinqata_compile(k: u32, deck: &[u8], output: &mut [u8]) -> Written
    ensures { Compiles k deck.now output.old output.new result }
{
    calls::luvinqata_compile(k, deck, output)
}

#[unsafe(no_mangle)]
pub extern "C" fn luvinqata_check(object: &[u8]) -> Refusal
    ensures { Checks object.now result }
{
    calls::luvinqata_check(object)
}

#[unsafe(no_mangle)]
pub extern "C" fn luvinqata_map(object: &[u8], table: &mut [u8]) -> Written
    ensures { Maps object.now table.old table.new result }
{
    calls::luvinqata_map(object, table)
}

#[unsafe(no_mangle)]
pub extern "C" fn luvinqata_run(
    object: &[u8],
    store: &mut [i64],
    index: &mut u32,
    height: &mut u32,
    mark: &mut u32,
    places: &mut [i64; STACK],
    cards: &[u8],
    lines: &mut [u8],
    allowance: u32,
) -> Ran
    ensures { Ends (running object.now store.old (lent index.old height.old mark.old places.old) (trays_of cards.now lines.old) allowance) result (lent index.new height.new mark.new places.new) store.new lines.new }
{
    calls::luvinqata_run(
        object, store, index, height, mark, places, cards, lines, allowance,
    )
}

#[unsafe(no_mangle)]
pub extern "C" fn luvinqata_bench(
    object: &[u8],
    store: &mut [i64],
    index: &mut u32,
    height: &mut u32,
    mark: &mut u32,
    places: &mut [i64; STACK],
    cards: &[u8],
    lines: &mut [u8],
    allowance: u32,
) -> Ran
    ensures { Ends (benching object.now store.old (lent index.old height.old mark.old places.old) (trays_of cards.now lines.old) allowance) result (lent index.new height.new mark.new places.new) store.new lines.new }
{
    calls::luvinqata_bench(
        object, store, index, height, mark, places, cards, lines, allowance,
    )
}
