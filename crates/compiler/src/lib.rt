// A deck compiled: its cards, its statements one by one, the deck as a whole, and then its object, or the first of them that refuses.
// All that it works with is on the stack.
#![tactic(auto)]

ghost use Rattle.std.specs.Prelude.{◌≡◌, List};
ghost use Rattle.rules_shared.specs.House.{house1401};
ghost use Rattle.rules_text.specs.Trees.{Statement};
ghost use Rattle.rules_deck.specs.Compile.{read, judge_read, write_read, compiling};
ghost use Rattle.take_draft.specs.Kept.{words_of};
ghost use Rattle.compiler.specs.Compiled.{answer, Punches, Holds, HoldsOne};

use limits::{CODE, CONSTANTS, JUMPS, TEXT};
use read_items::{ELEMENT_ITEM, NAME_ITEM};
use refusals::Refusal;
use take_draft::{Counts, DO_WORDS, ELEMENT_WORDS, LOOP_WORDS, NAMES_WORDS, ROW_WORDS, Tables};

// Words of the reader's table: a name's item for each character of a text, and an element's.
const ITEM_WORDS: usize = NAME_ITEM * TEXT + ELEMENT_ITEM;

// The deck as a whole, and its object.
fn judge_whole(k: u32, n: Counts, t: &mut Tables, output: &mut [u8]) -> Result<u32, Refusal>
    requires { HoldsOne k n (words_of t.old) }
    ensures { (deck : List Statement) → Holds k deck n (words_of t.old) → answer result output.new ≡ write_read (house1401 k) output.old (judge_read (read deck)) }
{
    let places = whole_deck::judge(t.rows, n.statements, t.loops, n.dos, t.jumps, n.jumps)?;
    whole_deck::put_positions(&places, n.jumps, t.jumps);
    match final_object::finish(k, n, t, output) {
        Ok(length) => Ok(length as u32),
        Err(reason) => Err(Refusal {
            reason,
            place: 0,
            kind: 0,
        }),
    }
}

// A deck whose cards are right.
fn compile_statements(k: u32, deck: &[u8], output: &mut [u8]) -> Result<u32, Refusal>
    requires { Punches k deck.now }
    ensures { answer result output.new ≡ compiling (house1401 k) deck.now output.old }
{
    let mut items = [0u64; ITEM_WORDS];
    let mut names = [0u64; NAMES_WORDS];
    let mut constants = [0u32; CONSTANTS];
    let mut elements = [0u32; ELEMENT_WORDS];
    let mut dos = [0u32; DO_WORDS];
    let mut loops = [0u32; LOOP_WORDS];
    let mut code = [0u32; CODE];
    let mut rows = [0u64; ROW_WORDS];
    let mut jumps = [0u32; JUMPS];
    let mut t = Tables {
        names: &mut names,
        constants: &mut constants,
        elements: &mut elements,
        dos: &mut dos,
        loops: &mut loops,
        code: &mut code,
        rows: &mut rows,
        jumps: &mut jumps,
    };
    let n = take_deck::draft(k, deck, &mut items, &mut t)?;
    take_deck::room(&t);
    judge_whole(k, n, &mut t, output)
}

// How many bytes the object has.
pub fn compile(k: u32, deck: &[u8], output: &mut [u8]) -> Result<u32, Refusal>
    ensures { answer result output.new ≡ compiling (house1401 k) deck.now output.old }
{
    read_deck_cards::judge(k, deck)?;
    compile_statements(k, deck, output)
}
