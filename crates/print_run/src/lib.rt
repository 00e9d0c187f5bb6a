// An object run from the start, with a zero store, and its run printed.
#![tactic(auto)]

ghost use Rattle.std.specs.Prelude.{◌≡◌, ◌≤◌, length};
ghost use Rattle.rules_object.specs.Bytes.{read_object};
ghost use Rattle.rules_program.specs.Text.{name_lines};
ghost use Rattle.rules_program.specs.Program.{names_of, printed_object};
ghost use Rattle.rules_program.specs.Tidy.{TidyObject};
ghost use Rattle.print_numbers.specs.Puts.{Puts};
ghost use Rattle.print_run.specs.Printing.{most_printed, ran_text, Zero};

use limits::{CELLS, STACK};
use run_object::Ran;

const ALLOWANCE: u32 = 1_000_000;

fn print_names(object: &[u8], store: &[i64], out: &mut [u8], at: usize) -> usize
    requires { TidyObject object.now × (length store.now ≡ 4096) × (at ≤ 49) × (most_printed ≤ length out.old) }
    ensures { Puts (name_lines (names_of (read_object object.now)) store.now) at out.old out.new result × (result ≤ most_printed) }
{
    match object_contents::contents_of(object) {
        Some(e) => print_lines::put_names(out, at, object, e, store),
        None => at,
    }
}

// A run's number is that of a refusal, or 0: as C has it.
fn print_ran(object: &[u8], ran: Ran, store: &[i64], out: &mut [u8]) -> usize
    requires { TidyObject object.now × (length store.now ≡ 4096) × (most_printed ≤ length out.old) }
    ensures { Puts (ran_text object.now ran store.now) 0 out.old out.new result × (result ≤ most_printed) }
{
    if ran.number != 0 {
        return print_lines::put_refused(out, 0, ran.number, ran.place);
    }
    let at = print_lines::put_halt(out, 0, ran.halt, ran.steps, ran.sequence);
    print_names(object, store, out, at)
}

fn run_and_print(
    object: &[u8],
    store: &mut [i64],
    places: &mut [i64; STACK],
    out: &mut [u8],
) -> usize
    requires { TidyObject object.now × Zero store.old places.old × (most_printed ≤ length out.old) }
    ensures { Puts (printed_object object.now) 0 out.old out.new result × (result ≤ most_printed) }
{
    let mut index = 0;
    let mut height = 0;
    let mut mark = 0;
    let ran = run_object::run(
        object,
        store,
        &mut index,
        &mut height,
        &mut mark,
        places,
        &[],
        &mut [],
        ALLOWANCE,
    );
    print_ran(object, ran, store, out)
}

// With a zero store, from the start.
pub fn print_object(object: &[u8], out: &mut [u8]) -> usize
    requires { TidyObject object.now × (most_printed ≤ length out.old) }
    ensures { Puts (printed_object object.now) 0 out.old out.new result × (result ≤ most_printed) }
{
    let mut store: [i64; CELLS] = [0; CELLS];
    let mut places: [i64; STACK] = [0; STACK];
    run_and_print(object, &mut store, &mut places, out)
}
