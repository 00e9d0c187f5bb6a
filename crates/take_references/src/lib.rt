// 16: references of a statement's operands, by the table of names.
#![tactic(auto)]

ghost use Rattle.std.specs.Prelude.{◌≡◌, ◌≤◌, ◌<◌, length};
ghost use Rattle.take_draft.specs.Parts.{Worded};
ghost use Rattle.take_references.specs.Rights.{RightPlace, RightItem, References};

use read_tokens::name_at;
use take_name_table::{COLUMNS, COUNT_AT, ENTRY_WORDS, FIRST_AT, Names, SECOND_AT};

// Of an element: its array, as many subscripts as dimensions, and no array in a subscript.
fn right_place(items: &[u64], names: &Names) -> bool
    requires { 20 ≤ length items.now }
    ensures { RightPlace items.now names.now.words.now names.now.count result }
{
    let Some(i) = names.find(name_at(items, 1), true) else {
        return false;
    };
    (items[COUNT_AT] == 1) == (names.words[ENTRY_WORDS * i + COLUMNS] == 0)
        && !names.holds(name_at(items, FIRST_AT + 1), true)
        && !names.holds(name_at(items, SECOND_AT + 1), true)
}

// Of the operand or operation that the words start with.
fn right_item(items: &[u64], names: &Names) -> bool
    requires { Worded items.now × (0 < length items.now) }
    ensures { RightItem items.now names.now.words.now names.now.count result }
{
    match items[0] {
        2 => !names.holds(name_at(items, 1), true),
        4 => right_place(items, names),
        _ => true,
    }
}

// 16: every element's array is declared with as many dimensions, and no array's name stands bare.
pub fn references_right(items: &[u64], names: &Names) -> bool
    requires { Worded items.now }
    ensures { References items.now names.now.words.now names.now.count result }
{
    let mut at = 0;
    while at < items.len() {
        if !right_item(&items[at..], names) {
            return false;
        }
        at += take_name_table::item_length(items[at]);
    }
    true
}
