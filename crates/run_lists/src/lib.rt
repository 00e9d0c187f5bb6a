// The list of a READ or PRINT, one number after the other. Nothing is tested here that the check of an object has settled.
#![tactic(auto)]

ghost use Rattle.std.specs.Prelude.{◌≡◌, true, ◌<◌};
ghost use Rattle.rules_object.specs.Object as book;
ghost use Rattle.rules_object.specs.Operations.{transfer_right};
ghost use Rattle.object_contents.specs.Book.{book_of};
ghost use Rattle.run_lists.specs.Cursors.{Stored, Reached, Begins, Comes, Left};

use object_contents::Object;
use object_opcodes::Halt;
use object_words::load;

// What is left of a list: so many cells from one on, then so many items from one on. That it is reached stands in the contracts: as a fact of
// its own it would put the object into each cursor.
#[derive(Clone, Copy)]
pub struct Cursor {
    pub cell: usize,
    pub cells: usize,
    pub item: usize,
    pub items: usize,
}

// How a field leaves its record: at a column, with what is left of the list; at the record's end; or at the statement's end.
#[derive(Drop)]
pub enum Step {
    On(usize, Cursor),
    RecordEnds,
    StatementEnds,
}

// Where a record begins: a word of its FORMAT, and what is left of its list. That the word is a FORMAT's stands in the contracts: it can be so
// in more than one way, which no ghost field may.
#[derive(Clone, Copy)]
pub struct Start {
    pub word: usize,
    pub list: Cursor,
}

// Where the statement of a transfer begins.
pub fn start_of(o: &Object, x: usize) -> Start
    requires x_bound { x < o.now.layout.transfer_count }
    requires x_value { transfer_right (book_of o.now) x ≡ true }
    ensures { Begins (book_of o.now) x result }
{
    let b = o.layout.transfers + 12 * x;
    Start {
        word: load(o.bytes, b) as usize,
        list: Cursor {
            cell: 0,
            cells: 0,
            item: load(o.bytes, b + 4) as usize,
            items: load(o.bytes, b + 8) as usize,
        },
    }
}

pub fn any_left(c: Cursor) -> bool
    ensures { (o : book.Object) → Reached o c → Left o c result }
{
    c.cells > 0 || c.items > 0
}

// The cell of the next number, with what is left after it; none where no number is left.
pub fn next_number(o: &Object, store: &[i64], c: Cursor) -> Result<Option<(usize, Cursor)>, Halt>
    requires stored { Stored o.now store.now }
    requires reached { Reached (book_of o.now) c }
    ensures { Comes (book_of o.now) store.now c result }
{
    if c.cells > 0 {
        let rest = Cursor {
            cell: c.cell + 1,
            cells: c.cells - 1,
            ..c
        };
        return Ok(Some((c.cell, rest)));
    }
    if c.items == 0 {
        return Ok(None);
    }
    let b = o.layout.items + 8 * c.item;
    let first = load(o.bytes, b) as usize;
    let count = load(o.bytes, b + 4) as usize;
    let rest = Cursor {
        cell: 0,
        cells: 0,
        item: c.item + 1,
        items: c.items - 1,
    };
    if count > 0 {
        let rest = Cursor {
            cell: first + 1,
            cells: count - 1,
            ..rest
        };
        return Ok(Some((first, rest)));
    }
    let entry = o.layout.elements + 36 * first;
    let n = run_subscripts::element_place(o.bytes, entry, store).ok_or(Halt::BadSubscript)?;
    Ok(Some((load(o.bytes, entry) as usize + n, rest)))
}
