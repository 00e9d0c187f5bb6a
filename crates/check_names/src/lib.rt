// 42 of the entries of body 7, and spans of cells, worked exactly.
#![tactic(auto)]

ghost use Rattle.std.specs.Prelude.{◌≡◌, ◌+◌, ◌*◌, ◌≤◌, ◌<◌, ◌==◌, leb, length, get_or, drop};
ghost use Rattle.std.specs.List.{list_all};
ghost use Rattle.rules_object.specs.Check.{right_named, right_name, span};
ghost use Rattle.object_contents.specs.Layout.{Placed, object_at};
ghost use Rattle.check_names.specs.Names.{no_name, NameEnd};

use object_contents::Layout;
use object_words::load;

// Exact: the words are 32 bits wide and the sum is not.
pub fn inside(first: u32, rows: u32, columns: u32, cells: u32) -> bool
    ensures { result ≡ leb (first + rows * columns) cells }
{
    u64::from(first) + u64::from(rows) * u64::from(columns) <= u64::from(cells)
}

// Where the letters and digits of a name end: after six characters at most.
fn name_end(name: &[u8]) -> usize
    requires { length name.now ≡ 8 }
    ensures { NameEnd name.now result }
{
    for k in 1..6 {
        if !(name[k].is_ascii_uppercase() || name[k].is_ascii_digit()) {
            return k;
        }
    }
    6
}

fn is_blank(bytes: &[u8]) -> bool
    ensures { result ≡ list_all (λ c. c == 32) bytes.now }
{
    bytes.iter().all(|c| *c == b' ')
}

fn name_right(name: &[u8]) -> bool
    requires { length name.now ≡ 8 }
    ensures { result ≡ right_name name.now }
{
    b'I' <= name[0] && name[0] <= b'N' && is_blank(&name[name_end(name)..])
}

// How many cells a name has.
fn span_of(rows: u32, columns: u32) -> u64
    ensures { (result ≡ span rows columns) × (result ≤ 4294967295 * 4294967295) }
{
    match (rows, columns) {
        (0, _) => 1,
        (_, 0) => u64::from(rows),
        _ => u64::from(rows) * u64::from(columns),
    }
}

// On bytes and places, for docs/TRACE.md names it, so that it may ask no more than where the bodies stand.
pub fn named_right(o: &[u8], e: &Layout, i: usize) -> bool
    requires { Placed e.now o.now × (i < e.now.name_count) }
    ensures { result ≡ right_named (object_at e.now o.now) (get_or (object_at e.now o.now).names i no_name) }
{
    let b = e.names + 20 * i;
    let rows = load(o, b + 12);
    let columns = load(o, b + 16);
    let plain_or_table = 1 <= rows || columns == 0;
    let last = u64::from(load(o, b + 8)) + span_of(rows, columns);
    name_right(&o[b..b + 8]) && plain_or_table && last <= u64::from(e.cells)
}
