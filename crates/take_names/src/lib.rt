// The plain names of a statement's operands take cells, each where it first appears.
#![tactic(auto)]

ghost use Rattle.std.specs.Prelude.{◌<◌, length};
ghost use Rattle.take_draft.specs.Parts.{Worded};
ghost use Rattle.take_names.specs.Takes.{TakesName, TakesAny, TakesItem, Appears};

use limits::{CELLS, NAMES};
use read_tokens::Name;
use take_draft::NAMES_WORDS;
use take_name_table::{Extent, FIRST_AT, Names, SECOND_AT};

fn take_name(table: &mut [u64; NAMES_WORDS], n: Extent, name: Name) -> Option<Extent>
    ensures { TakesName table.old table.new n name result }
{
    let names = Names {
        words: table,
        count: n.names,
    };
    if names.holds(name, false) {
        return Some(n);
    }
    if n.names == NAMES || n.cells == CELLS {
        return None;
    }
    take_name_table::put_entry(table, n.names, name, n.cells as u64, 0, 0);
    Some(Extent {
        names: n.names + 1,
        cells: n.cells + 1,
    })
}

fn take_any(table: &mut [u64; NAMES_WORDS], n: Extent, name: Name) -> Option<Extent>
    ensures { TakesAny table.old table.new n name result }
{
    if !read_tokens::is_name(name) {
        return Some(n);
    }
    take_name(table, n, name)
}

fn take_item(items: &[u64], table: &mut [u64; NAMES_WORDS], n: Extent) -> Option<Extent>
    requires { Worded items.now × (0 < length items.now) }
    ensures { TakesItem items.now table.old table.new n result }
{
    match items[0] {
        2 => take_name(table, n, read_tokens::name_at(items, 1)),
        4 => {
            let m = take_any(table, n, read_tokens::name_at(items, FIRST_AT + 1))?;
            take_any(table, m, read_tokens::name_at(items, SECOND_AT + 1))
        }
        _ => Some(n),
    }
}

// The plain names of some operands, subscripts' too, each taking a cell where it first appears.
pub fn appear(items: &[u64], table: &mut [u64; NAMES_WORDS], n: Extent) -> Option<Extent>
    requires { Worded items.now }
    ensures { Appears items.now table.old table.new n result }
{
    let mut at = 0;
    let mut m = n;
    while at < items.len() {
        m = take_item(&items[at..], table, m)?;
        at += take_name_table::item_length(items[at]);
    }
    Some(m)
}
