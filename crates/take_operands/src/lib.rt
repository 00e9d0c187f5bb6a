// The instructions of operands, put at the end of a draft's code: those of an expression's items, and of a target.
#![tactic(auto)]

// The tables come one by one, as arrays: names are only read here, so no clause has to say that they and the other four stay.

ghost use Rattle.std.specs.Prelude.{◌≡◌, ◌+◌, ◌<◌, ◌≤◌, length};
ghost use Rattle.take_draft.specs.Parts.{Worded};
ghost use Rattle.take_draft.specs.Kept.{Fit};
ghost use Rattle.take_instructions.specs.Emits.{Grows};
ghost use Rattle.take_operands.specs.Operands.{subscript_at, ElementAt, EmitsConstant, EmitsRefer, EmitsItem, EmitsItems, EmitsStore, EmitsLoad};

use limits::{CODE, CONSTANTS, ELEMENTS};
use object_opcodes::{CON, LDE, LOD, STE, STO};
use read_elements::{Element, Subscript, Subscripts, Target};
use read_tokens::{NAME_WORDS, Name, name_at};
use take_draft::{Counts, ELEMENT_WORDS, NAMES_WORDS};
use take_instructions::append;
use take_name_table::{COUNT_AT, FIRST_AT, Names, SECOND_AT};

// Where a subscript has its addend's sign and value.
const MINUS: usize = NAME_WORDS + 1;

const ADDEND: usize = NAME_WORDS + 2;

fn constant(
    value: u64,
    constants: &mut [u32; CONSTANTS],
    code: &mut [u32; CODE],
    n: Counts,
) -> Option<Counts>
    requires { Fit n }
    ensures { Grows 0 n result × EmitsConstant value constants.old code.old constants.new code.new n result }
{
    let word = take_entries::low(value);
    let pooled = take_entries::pool(constants, n.constants, word)?;
    let m = Counts {
        constants: pooled.count,
        ..n
    };
    append(code, m, CON, pooled.index as u32)
}

// A plain name's cell.
pub fn load(
    name: Name,
    names: &[u64; NAMES_WORDS],
    code: &mut [u32; CODE],
    n: Counts,
) -> Option<Counts>
    requires { Fit n }
    ensures { Grows 0 n result × EmitsLoad name names.now code.old code.new n result }
{
    let listed = Names {
        words: names,
        count: n.names,
    };
    append(code, n, LOD, listed.cell_of(name))
}

// An element's entry and its word: LDE or STE.
fn refer(
    operation: u32,
    element: Element,
    names: &[u64; NAMES_WORDS],
    elements: &mut [u32; ELEMENT_WORDS],
    code: &mut [u32; CODE],
    n: Counts,
) -> Option<Counts>
    requires { (operation < 256) × Fit n }
    ensures { Grows 0 n result × EmitsRefer operation element names.now elements.old code.old elements.new code.new n result }
{
    let at = n.elements;
    if at == ELEMENTS {
        return None;
    }
    let listed = Names {
        words: names,
        count: n.names,
    };
    take_entries::put_element(&listed, element, elements, at);
    let m = Counts {
        elements: at + 1,
        ..n
    };
    append(code, m, operation, at as u32)
}

fn subscript_at(items: &[u64], at: usize) -> Subscript
    requires { at + 7 ≤ length items.now }
    ensures { result ≡ subscript_at items.now at }
{
    Subscript {
        times: items[at],
        name: name_at(items, at + 1),
        minus: items[at + MINUS],
        addend: items[at + ADDEND],
    }
}

fn element_at(items: &[u64]) -> Element
    requires { 20 ≤ length items.now }
    ensures { ElementAt items.now result }
{
    Element {
        name: name_at(items, 1),
        subscripts: Subscripts {
            count: items[COUNT_AT],
            first: subscript_at(items, FIRST_AT),
            second: subscript_at(items, SECOND_AT),
        },
    }
}

// The item that the words start with.
fn item(
    items: &[u64],
    names: &[u64; NAMES_WORDS],
    constants: &mut [u32; CONSTANTS],
    elements: &mut [u32; ELEMENT_WORDS],
    code: &mut [u32; CODE],
    n: Counts,
) -> Option<Counts>
    requires { (Worded items.now × (0 < length items.now)) × Fit n }
    ensures { Grows 0 n result × EmitsItem items.now names.now constants.old elements.old code.old constants.new elements.new code.new n result }
{
    match items[0] {
        1 => constant(items[1], constants, code, n),
        2 => load(name_at(items, 1), names, code, n),
        4 => refer(LDE, element_at(items), names, elements, code, n),
        operation => append(code, n, take_entries::low(operation), 0),
    }
}

// The words of all items, in order.
pub fn emit(
    items: &[u64],
    names: &[u64; NAMES_WORDS],
    constants: &mut [u32; CONSTANTS],
    elements: &mut [u32; ELEMENT_WORDS],
    code: &mut [u32; CODE],
    n: Counts,
) -> Option<Counts>
    requires { Worded items.now × Fit n }
    ensures { Grows 0 n result × EmitsItems items.now names.now constants.old elements.old code.old constants.new elements.new code.new n result }
{
    let mut at = 0;
    let mut m = n;
    while at < items.len() {
        m = item(&items[at..], names, constants, elements, code, m)?;
        at += take_name_table::item_length(items[at]);
    }
    Some(m)
}

// What is on the stack goes to a target.
pub fn store(
    target: Target,
    names: &[u64; NAMES_WORDS],
    elements: &mut [u32; ELEMENT_WORDS],
    code: &mut [u32; CODE],
    n: Counts,
) -> Option<Counts>
    requires { Fit n }
    ensures { Grows 0 n result × EmitsStore target names.now elements.old code.old elements.new code.new n result }
{
    match target {
        Target::Cell(name) => {
            let listed = Names {
                words: names,
                count: n.names,
            };
            append(code, n, STO, listed.cell_of(name))
        }
        Target::Element(element) => refer(STE, element, names, elements, code, n),
    }
}
