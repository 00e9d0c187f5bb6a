// A form's plan against the table of names: 15, 16, and the cells that it takes.
#![tactic(auto)]

ghost use Rattle.take_plans.specs.Plans.{Readied};
ghost use Rattle.take_plan_names.specs.Naming.{RightArrays, RightOperands, TakesCells};

use take_arrays::ARRAY_WORDS;
use take_draft::NAMES_WORDS;
use take_kinds::Kind;
use take_name_table::{Extent, Names};
use take_plans::Plan;

// 15
pub fn right_arrays(p: Plan, first: &[u64], items: &[u64], names: &Names) -> bool
    requires { Readied p first.now items.now }
    ensures { RightArrays p items.now names.now.words.now names.now.count result }
{
    match p.kind {
        Kind::Dimension => take_arrays::arrays_right(&items[..ARRAY_WORDS * p.listed], names),
        _ => true,
    }
}

// 16
pub fn right_operands(p: Plan, first: &[u64], items: &[u64], names: &Names) -> bool
    requires { Readied p first.now items.now }
    ensures { RightOperands p first.now items.now names.now.words.now names.now.count result }
{
    take_cells::right_operands(first, &items[..p.count], names)
}

// A DO's hidden cells and a DIMENSION's arrays come after the names.
pub fn take_cells(
    p: Plan,
    first: &[u64],
    items: &[u64],
    table: &mut [u64; NAMES_WORDS],
    n: Extent,
) -> Option<Extent>
    requires { Readied p first.now items.now }
    ensures { TakesCells p first.now items.now table.old table.new n result }
{
    let m = take_cells::take_operands(first, &items[..p.count], table, n)?;
    match p.kind {
        Kind::Do => take_cells::hide(m),
        Kind::Dimension => take_arrays::declare(&items[..ARRAY_WORDS * p.listed], table, m),
        _ => Some(m),
    }
}
