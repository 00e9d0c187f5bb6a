// READ: the cells are kept before any is read, so that trouble leaves the store as it was.
#![tactic(auto)]

ghost use Rattle.std.specs.Prelude.{◌≡◌, true, ◌++◌, ◌≤◌, ◌<◌, length, take, drop};
ghost use Rattle.rules_formats.specs.Format.{I};
ghost use Rattle.rules_formats.specs.Walk.{cards_of};
ghost use Rattle.rules_object.specs.Operations.{transfer_right};
ghost use Rattle.object_contents.specs.Book.{book_of};
ghost use Rattle.run_formats.specs.Scan.{field_of, Scanning};
ghost use Rattle.run_lists.specs.Cursors.{Stored, Reached};
ghost use Rattle.run_reads.specs.Takes.{Does, Takes, cards_at, Read, read_by, Result};

use object_contents::Object;
use object_opcodes::Halt;
use run_formats::{Field, Word};
use run_lists::{Cursor, Start, Step};

const WIDTH: usize = 80;

// The number in so many columns of a card, from a column on, for the list's next cell.
fn read_number(
    o: &Object,
    store: &mut [i64],
    c: Cursor,
    card: &[u8],
    column: usize,
    width: usize,
) -> Result<Step, Halt>
    requires stored { Stored o.now store.old }
    requires ten { 10 ≤ o.now.rule.ceiling }
    requires reached { Reached (book_of o.now) c }
    requires card_len { (length card.now ≡ 80) × (column ≤ 80) }
    ensures { Does o.now c store.old card.now column (I width) store.new result }
{
    let Some((cell, rest)) = run_lists::next_number(o, store, c)? else {
        return Ok(Step::StatementEnds);
    };
    if WIDTH - column < width {
        return Err(Halt::BadField);
    }
    let columns = &card[column..column + width];
    let Some(v) = run_fields::read_field(o.rule.ceiling, columns) else {
        return Err(Halt::BadField);
    };
    store[cell] = v;
    Ok(Step::On(column + width, rest))
}

// One field.
fn read_field(
    o: &Object,
    store: &mut [i64],
    c: Cursor,
    card: &[u8],
    column: usize,
    f: Field,
) -> Result<Step, Halt>
    requires stored { Stored o.now store.old }
    requires ten { 10 ≤ o.now.rule.ceiling }
    requires reached { Reached (book_of o.now) c }
    requires card_len { (length card.now ≡ 80) × (column ≤ 80) }
    ensures { Does o.now c store.old card.now column (field_of f) store.new result }
{
    match f {
        Field::Number(width) => read_number(o, store, c, card, column, width),
        Field::Skip(n) => {
            if WIDTH - column < n {
                return Err(Halt::BadField);
            }
            Ok(Step::On(column + n, c))
        }
        Field::Text(_) => {
            if column == WIDTH {
                return Err(Halt::BadField);
            }
            Ok(Step::On(column + 1, c))
        }
        Field::Slash => Ok(Step::RecordEnds),
    }
}

// One card; answers where the next begins, unless the card is the last. PRINT's walk is as this one: a walk that takes what a field does
// would have that in each clause, since the book has the two walks apart, by a line and by a store.
fn read_card(
    o: &Object,
    store: &mut [i64],
    card: &[u8],
    start: Start,
) -> Result<Option<Start>, Halt>
    requires stored { Stored o.now store.old }
    requires ten { 10 ≤ o.now.rule.ceiling }
    requires reached { Reached (book_of o.now) start.list }
    requires scanning { Scanning (book_of o.now).formats start.word }
    requires card_len { length card.now ≡ 80 }
    ensures { Takes o.now start store.old card.now store.new result }
{
    let mut at = start;
    let mut column = 0;
    loop {
        match run_formats::word_at(o, at.word) {
            Word::End(again) => {
                if run_lists::any_left(at.list) {
                    return Ok(Some(Start { word: again, ..at }));
                }
                return Ok(None);
            }
            Word::Of(f) => match read_field(o, store, at.list, card, column, f)? {
                Step::RecordEnds => {
                    return Ok(Some(Start {
                        word: at.word + 1,
                        ..at
                    }));
                }
                Step::StatementEnds => return Ok(None),
                Step::On(next, list) => {
                    column = next;
                    at = Start {
                        word: at.word + 1,
                        list,
                    };
                }
            },
        }
    }
}

// Cards from one on; answers how many are taken then. A halt leaves what was read before it in the store.
fn read_cards(
    o: &Object,
    store: &mut [i64],
    cards: &[u8],
    taken: usize,
    start: Start,
) -> Result<usize, Halt>
    requires stored { Stored o.now store.old }
    requires ten { 10 ≤ o.now.rule.ceiling }
    requires reached { Reached (book_of o.now) start.list }
    requires scanning { Scanning (book_of o.now).formats start.word }
    requires taken_in_bounds { taken ≤ length (cards_of cards.now) }
    ensures { Read o.now cards.now taken (cards_at (book_of o.now) o.now.rule (drop taken (cards_of cards.now)) start store.old) store.old store.new result }
{
    let mut at = start;
    for n in taken..cards.len() / WIDTH {
        let card = &cards[WIDTH * n..WIDTH * n + WIDTH];
        let Some(next) = read_card(o, store, card, at)? else {
            return Ok(n + 1);
        };
        at = next;
    }
    Err(Halt::RanOut)
}

// The first n numbers; those after them stay.
fn copy(from: &[i64], to: &mut [i64], n: usize)
    requires { (n ≤ length from.now) × (n ≤ length to.old) }
    ensures { to.new ≡ take n from.now ++ drop n to.old }
{
    for i in 0..n {
        to[i] = from[i];
    }
}

// READ by the transfer x, from cards of which the first are taken; answers how many are then. The cells are kept in numbers that are lent.
pub fn read(
    o: &Object,
    x: usize,
    store: &mut [i64],
    kept: &mut [i64],
    cards: &[u8],
    taken: usize,
) -> Result<usize, Halt>
    requires stored { Stored o.now store.old }
    requires ten { 10 ≤ o.now.rule.ceiling }
    requires x_bound { x < o.now.layout.transfer_count }
    requires x_value { transfer_right (book_of o.now) x ≡ true }
    requires cells_in_bounds { o.now.layout.cells ≤ length kept.old }
    requires taken_in_bounds { taken ≤ length (cards_of cards.now) }
    ensures { Result cards.now taken (read_by (book_of o.now) o.now.rule x store.old (drop taken (cards_of cards.now))) store.old store.new result }
{
    let cells = o.layout.cells as usize;
    copy(store, kept, cells);
    match read_cards(o, store, cards, taken, run_lists::start_of(o, x)) {
        Ok(n) => Ok(n),
        Err(halt) => {
            copy(kept, store, cells);
            Err(halt)
        }
    }
}
