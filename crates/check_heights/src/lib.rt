// 44: a height for each instruction, filled in by a worklist over control flow. The object has passed 40, 41 and 43.
#![tactic(auto)]

ghost use Rattle.std.specs.Prelude.{◌≡◌, ◌+◌, ◌<◌, length};
ghost use Rattle.rules_object.specs.Operations.{flow_of};
ghost use Rattle.rules_object.specs.Heights.{heights, waiting};
ghost use Rattle.rules_object.specs.Filling.{nevers, Filling};
ghost use Rattle.object_contents.specs.Layout.{object_at};
ghost use Rattle.object_contents.specs.Book.{book_of};
ghost use Rattle.check_heights.specs.Judged.{Judged, Fresh, answered};
ghost use Rattle.check_heights.specs.Walk.{Visited};

use check_meeting::{Table, Work, meet};
use check_operands::{pops_of, pushes_of};
use check_successors::{next_of, width_of};
use limits::CODE;
use number::Rule;
use object_contents::{Layout, Object};
use object_words::{load, operand, operation};

// The last instruction that waits, and has a height: the height after it comes to each of its successors.
fn visit(o: &Object, table: &mut Table, work: &mut Work, start: usize) -> Option<usize>
    requires judged { Judged o.now.layout o.now.bytes.now × (nevers table.old + start < 4096) }
    requires filling { Filling (flow_of (book_of o.now)) table.old work.old (start + 1) }
    ensures { Visited (flow_of (book_of o.now)) table.new work.new (nevers table.old + start) result }
{
    let a = usize::from(work[start]);
    let w = load(o.bytes, o.layout.code + 4 * a);
    let op = operation(w) as usize;
    let x = operand(w) as usize;
    let g = table[a];
    let p = pops_of(op);
    if g < p {
        return None;
    }
    let h = g - p + pushes_of(op);
    let n = width_of(o.bytes, &o.layout, op, x);
    let mut top = start;
    for k in 0..n {
        let t = next_of(o.bytes, &o.layout, op, x, a, k);
        top = meet(t, o.layout.code_count, h, table, work, top)?;
    }
    Some(top)
}

// From a table that is NEVER throughout, and instruction 0 first in the worklist.
fn fill(o: &Object, table: &mut Table, work: &mut Work) -> bool
    requires judged { Judged o.now.layout o.now.bytes.now }
    requires fresh { Fresh table.old × ((waiting work.old 0 ≡ 0) × (length work.old ≡ 4096)) }
    ensures { heights (flow_of (book_of o.now)) ≡ answered o.now.layout.code_count table.new result }
{
    table[0] = 0;
    let mut top = 1;
    while 0 < top {
        let Some(left) = visit(o, table, work, top - 1) else {
            return false;
        };
        top = left;
    }
    true
}

// Whether there is a table of heights. If so, it is left in `table`, an entry for each instruction; else what is left is of no use.
// On bytes and places, for docs/EXCEPTIONS.md names it, so that it may ask for no rule.
pub fn heights_of(bytes: &[u8], layout: Layout, table: &mut Table) -> bool
    requires judged { Judged layout bytes.now }
    requires fresh { Fresh table.old }
    ensures { heights (flow_of (object_at layout bytes.now)) ≡ answered layout.code_count table.new result }
{
    let rule = Rule::of_digits(layout.digits as usize);
    let object = Object {
        bytes,
        layout,
        rule,
    };
    let mut work = [0u16; CODE];
    fill(&object, table, &mut work)
}
