// A deck's next statement: taken from the cards, read, judged by 6 and 10 to 18, and kept in the tables that are lent.
#![tactic(auto)]

ghost use Rattle.take_draft.specs.Kept.{words_of};
ghost use Rattle.take_next.specs.Steps.{Ahead, Continues};

use limits::TEXT;
use refusals::Reason;
use take_draft::{Counts, Tables};

// After a statement that is kept: the card at which the next one starts, and the counts.
#[derive(Clone, Copy)]
pub struct Kept {
    pub next: usize,
    pub counts: Counts,
}

// None after the last statement.
pub fn take_next(
    k: u32,
    deck: &[u8],
    card: usize,
    items: &mut [u64],
    t: &mut Tables,
    n: Counts,
) -> Result<Option<Kept>, Reason>
    requires { Ahead k deck.now card items.old (words_of t.old) n }
    ensures { Continues k deck.now card n (words_of t.old) (words_of t.new) result }
{
    let mut text = [0u8; TEXT];
    let Some(taken) = read_texts::statement(deck, card, &mut text) else {
        return Ok(None);
    };
    if taken.length == 0 {
        return Err(Reason::Empty);
    }
    let Some(s) = read_statement::read(&text[..taken.length], items) else {
        return Err(Reason::Form);
    };
    let counts = take_statement::take(s, taken.number, k, items, t, n)?;
    Ok(Some(Kept {
        next: taken.next,
        counts,
    }))
}
