// A deck's statements, one after the other, kept as a draft in the tables that are lent, or the first that is refused.
#![tactic(auto)]

ghost use Rattle.std.specs.Prelude.{◌≡◌, List, length};
ghost use Rattle.rules_shared.specs.House.{house1401};
ghost use Rattle.rules_text.specs.Cards.{Punched, statements, carded};
ghost use Rattle.rules_deck.specs.Judge.{nothing_taken};
ghost use Rattle.rules_deck.specs.Compile.{read_from};
ghost use Rattle.take_draft.specs.Kept.{Room, words_of};
ghost use Rattle.take_deck.specs.Drafted.{Begins, Drafts};

use read_cards::Sequence;
use refused_statements::AtStatement;
use take_draft::{Counts, Tables};

fn long<T, const N: usize>(words: &[T; N])
    ensures { length words.now ≡ N }
{}

// That the tables are as long as their types tell, where a call or a turn of a loop is not to lose it.
pub fn room(t: &Tables)
    ensures { Room (words_of t.now) }
{
    long(t.names);
    long(t.constants);
    long(t.elements);
    long(t.dos);
    long(t.loops);
    long(t.code);
    long(t.rows);
    long(t.jumps);
}

pub fn draft(k: u32, deck: &[u8], items: &mut [u64], t: &mut Tables) -> Result<Counts, AtStatement>
    requires { Begins k deck.now items.old (words_of t.old) }
    ensures { (ps : List Punched) → carded (house1401 k) deck.now ≡ statements ps → Drafts (read_from (house1401 k) 0 nothing_taken ps) (words_of t.new) result }
{
    // tried: Counts::default(), but the derive's contract does not say that each count is 0
    let mut n = Counts {
        names: 0,
        cells: 0,
        constants: 0,
        elements: 0,
        exits: 0,
        dos: 0,
        code: 0,
        jumps: 0,
        statements: 0,
    };
    let mut card = 0;
    loop {
        match take_next::take_next(k, deck, card, items, t, n) {
            Ok(None) => return Ok(n),
            Ok(Some(kept)) => {
                room(t);
                card = kept.next;
                n = kept.counts;
            }
            Err(reason) => {
                return Err(AtStatement {
                    reason,
                    place: Sequence(n.statements as u32 + 1),
                });
            }
        }
    }
}
