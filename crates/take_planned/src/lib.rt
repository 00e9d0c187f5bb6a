// A planned statement: refused by 15, 16 or 18, or taken into the draft.
#![tactic(auto)]

ghost use Rattle.take_draft.specs.Draft.{Draft};
ghost use Rattle.take_draft.specs.Kept.{words_of, Kept};
ghost use Rattle.take_planned.specs.Planned.{Planning, ComesPlanned};

use read_cards::Number;
use refusals::Reason;
use take_draft::{Counts, Tables};
use take_name_table::Names;
use take_plans::Plan;

// 15, 16 and 18, in this order.
pub fn take_planned(
    p: Plan,
    number: Number,
    first: &[u64],
    items: &[u64],
    t: &mut Tables,
    n: Counts,
) -> Result<Counts, Reason>
    requires { Planning p first.now items.now (words_of t.old) n }
    ensures { (D : Draft) → Kept D (words_of t.old) n → ComesPlanned p number.0 first.now items.now n.statements D (words_of t.new) result }
{
    let names = Names {
        words: t.names,
        count: n.names,
    };
    if !take_plan_names::right_arrays(p, first, items, &names) {
        return Err(Reason::Dimension);
    }
    if !take_plan_names::right_operands(p, first, items, &names) {
        return Err(Reason::Element);
    }
    let Some(m) = take_parts::fill(p, first, items, t.names, t.constants, t.elements, t.code, n)
    else {
        return Err(Reason::Table);
    };
    let Some(l) = take_parts::enter_do(p, t.names, t.dos, t.loops, m) else {
        return Err(Reason::Table);
    };
    let words = (m.code - n.code) as u64;
    Ok(take_parts::mark(
        p,
        number,
        words,
        items,
        t.rows.as_mut_slice(),
        t.jumps.as_mut_slice(),
        l,
    ))
}
