// Rule 43 on an object's bytes, rule 42 of the entry that an instruction uses, and what an operation pops and pushes.
#![tactic(auto)]

ghost use Rattle.std.specs.Prelude.{◌≡◌, true, ◌+◌, ◌^◌, ◌≤◌, ◌<◌, take, drop};
ghost use Rattle.refusals.specs.Answers.{maybe};
ghost use Rattle.rules_object.specs.Operations.{targets, right43, entry_right, operation_at};
ghost use Rattle.rules_object.specs.Calls.{refused43};
ghost use Rattle.object_contents.specs.Layout.{Placed, object_at};
ghost use Rattle.object_contents.specs.Book.{book_of};
ghost use Rattle.check_entries.specs.Judge.{refusal_at};
ghost use Rattle.check_operands.specs.Operands.{operand_right, entry_right_at};

use check_entries::{Entry, constant_right, element_right, first_bad, loop_right};
use check_transfers::transfer_right;
use limits::{FEWEST_EXITS, MOST_EXITS};
use object_contents::{Layout, Object};
use object_opcodes::{
    ADD, BR3, BRC, CON, DIV, DOE, DOI, HLT, JMP, LDE, LOD, MUL, NEG, PRINT, READ, STE, STO, SUB,
};
use object_words::{load, operand, operation};

// HLT CON LOD STO LDE STE ADD SUB MUL DIV NEG JMP BR3 BRC DOI DOE READ PRINT
const POPS: [u8; 18] = [0, 0, 0, 1, 0, 1, 2, 2, 2, 2, 1, 0, 1, 1, 3, 0, 0, 0];

const PUSHES: [u8; 18] = [0, 1, 1, 0, 1, 0, 1, 1, 1, 1, 1, 0, 0, 0, 0, 0, 0, 0];

pub fn pops_of(operation: usize) -> u8
    requires { operation < 18 }
    ensures { result ≡ (operation_at operation).pops }
{
    POPS[operation]
}

pub fn pushes_of(operation: usize) -> u8
    requires { operation < 18 }
    ensures { (result ≡ (operation_at operation).pushes) × (result ≤ 1) }
{
    PUSHES[operation]
}

// The `n` exits from `at` on lead into the code.
fn targets_right(o: &[u8], e: &Layout, at: usize, n: usize) -> bool
    requires { Placed e.now o.now × (at + n ≤ e.now.exit_count) }
    ensures { result ≡ targets (object_at e.now o.now) (take n (drop at (object_at e.now o.now).exits)) }
{
    for i in at..at + n {
        if load(o, e.exits + 4 * i) as usize >= e.code_count {
            return false;
        }
    }
    true
}

fn br3_right(o: &[u8], e: &Layout, x: usize) -> bool
    requires { Placed e.now o.now × (x < 2 ^ 24) }
    ensures { result ≡ operand_right (object_at e.now o.now) 12 x }
{
    x + 2 < e.exit_count && targets_right(o, e, x, 3)
}

// The first exit is the count of those that follow.
fn brc_right(o: &[u8], e: &Layout, x: usize) -> bool
    requires { Placed e.now o.now × (x < 2 ^ 24) }
    ensures { result ≡ operand_right (object_at e.now o.now) 13 x }
{
    if e.exit_count <= x {
        return false;
    }
    let n = load(o, e.exits + 4 * x) as usize;
    FEWEST_EXITS <= n && n <= MOST_EXITS && x + n < e.exit_count && targets_right(o, e, x + 1, n)
}

#[tactic(auto, using(crate::proofs::Tests::do_said))]
fn operand_right(o: &[u8], e: &Layout, operation: u32, x: usize) -> bool
    requires { Placed e.now o.now × (x < 2 ^ 24) }
    ensures { result ≡ operand_right (object_at e.now o.now) operation x }
{
    match operation {
        HLT => x <= 1,
        CON => x < e.constant_count,
        LOD | STO => x < e.cells as usize,
        LDE | STE => x < e.element_count,
        ADD | SUB | MUL | DIV | NEG => x == 0,
        JMP => x < e.code_count,
        BR3 => br3_right(o, e, x),
        BRC => brc_right(o, e, x),
        DOI | DOE => x < e.do_count,
        READ | PRINT => x < e.transfer_count,
        _ => false,
    }
}

// On bytes and places, as are those above, for docs/DECISIONS.md names it, so that it may ask no more than where the bodies stand.
pub fn word_right(o: &[u8], e: &Layout, w: u32) -> bool
    requires { Placed e.now o.now }
    ensures { result ≡ right43 (object_at e.now o.now) w }
{
    operand_right(o, e, operation(w), operand(w) as usize)
}

// The entry that an instruction uses.
fn used_right(o: &Object, operation: u32, x: usize) -> bool
    requires { operand_right (book_of o.now) operation x ≡ true }
    ensures { result ≡ entry_right_at (book_of o.now) operation x }
{
    match operation {
        CON => constant_right(o, x),
        LDE | STE => element_right(o, x),
        DOI | DOE => loop_right(o.bytes, &o.layout, x),
        READ | PRINT => transfer_right(o, x),
        _ => true,
    }
}

// 42 of the entry that the word uses. The word passes 43, so there is one.
pub fn entry_right(o: &Object, w: u32) -> bool
    requires { right43 (book_of o.now) w ≡ true }
    ensures { result ≡ entry_right (book_of o.now) w }
{
    used_right(o, operation(w), operand(w) as usize)
}

// The first instruction that fails. On bytes and places, as `word_right`, for docs/EXCEPTIONS.md names it.
pub fn words(o: &[u8], e: &Layout) -> Option<Entry>
    requires { Placed e.now o.now }
    ensures { maybe (refusal_at 43) result ≡ refused43 (object_at e.now o.now) }
{
    first_bad(
        5,
        e.code_count,
        |i| word_right(o, e, load(o, e.code + 4 * i)),
    )
}
