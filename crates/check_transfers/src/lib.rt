// 42 of all that a READ or PRINT uses: its transfer, every word of its FORMAT, and every item of its list with the element's entry.
#![tactic(auto)]

ghost use Rattle.std.specs.Prelude.{◌≡◌, ◌+◌, ◌-◌, ◌≤◌, ◌<◌, get_or, take, drop};
ghost use Rattle.rules_shared.specs.Lists.{all};
ghost use Rattle.rules_object.specs.Operations.{item_right, transfer_right};
ghost use Rattle.object_contents.specs.Book.{book_of};
ghost use Rattle.check_formats.specs.Formats.{no_item};

use check_entries::element_right;
use object_contents::Object;
use object_words::load;

fn item_right(o: &Object, i: usize) -> bool
    requires { i < o.now.layout.item_count }
    ensures { result ≡ item_right (book_of o.now) (get_or (book_of o.now).items i no_item) }
{
    let b = o.layout.items + 8 * i;
    check_formats::item_right(o.bytes, &o.layout, i)
        && (load(o.bytes, b + 4) != 0 || element_right(o, load(o.bytes, b) as usize))
}

// The `n` items from `at` on.
fn items_right(o: &Object, at: usize, n: usize) -> bool
    requires { at + n ≤ o.now.layout.item_count }
    ensures { result ≡ all (item_right (book_of o.now)) (take n (drop at (book_of o.now).items)) }
{
    for i in at..at + n {
        if !item_right(o, i) {
            return false;
        }
    }
    true
}

pub fn transfer_right(o: &Object, x: usize) -> bool
    requires { x < o.now.layout.transfer_count }
    ensures { result ≡ transfer_right (book_of o.now) x }
{
    if !check_formats::transfer_right(o.bytes, &o.layout, x) {
        return false;
    }
    let b = o.layout.transfers + 12 * x;
    let format = load(o.bytes, b) as usize;
    let first = load(o.bytes, b + 4) as usize;
    let count = load(o.bytes, b + 8) as usize;
    check_formats::whole_right(o, format) && items_right(o, first, count)
}
