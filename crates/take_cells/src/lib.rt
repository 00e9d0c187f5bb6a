// A form's operands against the table of names: those that stand first, then the items. And a DO's hidden cells.
#![tactic(auto)]

ghost use Rattle.take_draft.specs.Parts.{Worded};
ghost use Rattle.take_cells.specs.Operands.{RightBoth, TakesBoth, Hides};

use take_draft::NAMES_WORDS;
use take_name_table::{Extent, Names};
use take_names::appear;
use take_references::references_right;

// 16
pub fn right_operands(first: &[u64], items: &[u64], names: &Names) -> bool
    requires { Worded first.now × Worded items.now }
    ensures { RightBoth first.now items.now names.now.words.now names.now.count result }
{
    references_right(first, names) && references_right(items, names)
}

pub fn take_operands(
    first: &[u64],
    items: &[u64],
    table: &mut [u64; NAMES_WORDS],
    n: Extent,
) -> Option<Extent>
    requires { Worded first.now × Worded items.now }
    ensures { TakesBoth first.now items.now table.old table.new n result }
{
    let m = appear(first, table, n)?;
    appear(items, table, m)
}

// A DO's limit and step come after its names.
pub fn hide(n: Extent) -> Option<Extent>
    ensures { Hides n result }
{
    if 4094 < n.cells {
        return None;
    }
    Some(Extent {
        names: n.names,
        cells: n.cells + 2,
    })
}
