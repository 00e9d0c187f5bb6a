// The parts of taking a statement: cells and code, a DO's entries, the row and the jumps.
#![tactic(auto)]

ghost use Rattle.std.specs.Prelude.{◌+◌, ◌*◌, ◌≤◌, length};
ghost use Rattle.take_draft.specs.Kept.{Fit};
ghost use Rattle.take_marks.specs.Marks.{Jumping};
ghost use Rattle.take_plans.specs.Plans.{Readied};
ghost use Rattle.take_parts.specs.Steps.{Onward, Fills, Entering, Counted, Enters, Marked};

use limits::{CODE, CONSTANTS, DOS};
use read_cards::Number;
use take_draft::{Counts, DO_WORDS, ELEMENT_WORDS, LOOP_WORDS, NAMES_WORDS};
use take_kinds::Kind;
use take_name_table::{Extent, Names};
use take_plans::Plan;

// The cells that a form brings, and its code.
pub fn fill(
    p: Plan,
    first: &[u64],
    items: &[u64],
    names: &mut [u64; NAMES_WORDS],
    constants: &mut [u32; CONSTANTS],
    elements: &mut [u32; ELEMENT_WORDS],
    code: &mut [u32; CODE],
    n: Counts,
) -> Option<Counts>
    requires { Readied p first.now items.now × Fit n }
    ensures { Onward p n result × Fills p first.now items.now names.old constants.old elements.old code.old names.new constants.new elements.new code.new n result }
{
    let taken = Extent {
        names: n.names,
        cells: n.cells,
    };
    let grown = take_plan_names::take_cells(p, first, items, names, taken)?;
    let m = Counts {
        names: grown.names,
        cells: grown.cells,
        ..n
    };
    take_code::emit_plan(p, items, names, constants, elements, code, m)
}

// A DO's entry and its loop; its hidden cells are the last.
pub fn enter_do(
    p: Plan,
    names: &[u64; NAMES_WORDS],
    dos: &mut [u32; DO_WORDS],
    loops: &mut [u32; LOOP_WORDS],
    m: Counts,
) -> Option<Counts>
    requires { Entering p m }
    ensures { Counted p m result × Enters p names.now dos.old loops.old dos.new loops.new m result }
{
    let Kind::Do = p.kind else {
        return Some(m);
    };
    if DOS <= m.dos {
        return None;
    }
    let names = Names {
        words: names,
        count: m.names,
    };
    let variable = names.cell_of(take_marks::cell_name(p.target));
    let limit = (m.cells - 2) as u32;
    take_marks::put_do(dos, m.dos, variable, limit);
    take_marks::put_loop(loops, m.dos, m.statements, m.jumps);
    Some(Counts {
        dos: m.dos + 1,
        ..m
    })
}

// The statement's numbers, and its row.
pub fn mark(
    p: Plan,
    number: Number,
    words: u64,
    items: &[u64],
    rows: &mut [u64],
    jumps: &mut [u32],
    m: Counts,
) -> Counts
    requires { Jumping p items.now jumps.old m.jumps × ((5 * m.statements + 5 ≤ length rows.old) × (m.statements ≤ 400)) }
    ensures { Marked p number.0 words items.now rows.old jumps.old rows.new jumps.new m result }
{
    let top = take_marks::put_jumps(p, items, jumps, m.jumps);
    take_marks::put_row(
        rows,
        m.statements,
        number,
        p.kind.word(),
        take_marks::set_of(p),
        words,
        (top - m.jumps) as u64,
    );
    Counts {
        jumps: top,
        statements: m.statements + 1,
        ..m
    }
}
