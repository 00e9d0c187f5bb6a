// The program: what it prints of an input, a control card and a deck.
#![tactic(auto)]

ghost use Rattle.std.specs.Prelude.{◌≡◌, ◌≤◌, length, replicate};
ghost use Rattle.rules_program.specs.Program.{most_bytes, compiled_lines, printed};
ghost use Rattle.rules_shared.specs.House.{house1401};
ghost use Rattle.rules_deck.specs.Compile.{compiling};
ghost use Rattle.print_numbers.specs.Puts.{Puts};
ghost use Rattle.print_run.specs.Printing.{most_printed};

use print_control_card::CARD;
use refusals::Reason;

// The greatest object: every table at its limit.
const MOST_BYTES: usize = 38644;

// A deck's object run, or its refusal.
fn print_deck(k: u32, deck: &[u8], object: &mut [u8], out: &mut [u8]) -> usize
    requires { (object.old ≡ replicate most_bytes 0) × (most_printed ≤ length out.old) }
    ensures { Puts (compiled_lines (compiling (house1401 k) deck.now (replicate most_bytes 0))) 0 out.old out.new result × (result ≤ most_printed) }
{
    match compiler::compile(k, deck, object) {
        Ok(n) => print_run::print_object(&object[..n as usize], out),
        Err(refusal) => print_lines::put_refused(out, 0, refusal.reason.number(), refusal.place),
    }
}

// What the program prints for an input, from the output's start on; the answer is its length.
pub fn answer(input: &[u8], out: &mut [u8]) -> usize
    requires { most_printed ≤ length out.old }
    ensures { Puts (printed input.now) 0 out.old out.new result × (result ≤ most_printed) }
{
    let Some(k) = print_control_card::control(input) else {
        return print_lines::put_refused(out, 0, Reason::Digits.number(), 0);
    };
    let mut object = [0u8; MOST_BYTES];
    print_deck(k, &input[CARD..], &mut object, out)
}
