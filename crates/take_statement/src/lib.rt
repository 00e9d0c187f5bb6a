// One statement that was read: refused by 11 to 18, the lowest number first, or taken into the draft.
#![tactic(auto)]

ghost use Rattle.take_draft.specs.Draft.{Draft};
ghost use Rattle.take_draft.specs.Kept.{words_of, Kept};
ghost use Rattle.take_statement.specs.Taking.{Ready, Comes};

use read_cards::Number;
use read_forms::Statement;
use read_items::ELEMENT_ITEM;
use refusals::Reason;
use take_draft::{Counts, Tables};

// `items` is the reader's table: 3,300 words that it may fill; a DO's parameters are put there.
pub fn take(
    s: Statement,
    number: Number,
    k: u32,
    items: &mut [u64],
    t: &mut Tables,
    n: Counts,
) -> Result<Counts, Reason>
    requires { Ready s number.0 k items.old (words_of t.old) n }
    ensures { (D : Draft) → Kept D (words_of t.old) n → Comes s number.0 k items.old n.statements D (words_of t.new) result }
{
    take_limits::of_statement(k, items, s)?;
    let p = take_plans::plan_of(s, items);
    let mut first = [0u64; ELEMENT_ITEM];
    let top = take_plans::put_first(p, &mut first);
    take_planned::take_planned(p, number, &first[..top], items, t, n)
}
