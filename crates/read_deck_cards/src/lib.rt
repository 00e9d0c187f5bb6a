// A deck's cards judged: refused by 1 to 5 or 7, or how many statements they hold.
#![tactic(auto)]

ghost use Rattle.std.specs.Prelude.{◌≡◌, ℕ, ◌<◌, ◌≤◌, length};
ghost use Rattle.rules_shared.specs.House.{house1401};
ghost use Rattle.rules_text.specs.Cards.{nothing_read, card_by_card, carded};
ghost use Rattle.read_deck_cards.specs.Judging.{Judges, After};

use limits::{CARDS, DIGITS};
use read_cards::{Card, Sequence};
use refusals::{Reason, Refusal};

// Cards that may follow a statement's first.
const CONTINUATIONS: u32 = 9;

const STATEMENTS: u32 = limits::STATEMENTS as u32;

// Bytes of the longest deck.
const LONGEST: usize = 80 * CARDS;

// What is read so far: the next card's place, how many statements are begun, and how many continuations may yet follow.
#[derive(Clone, Copy)]
struct Begun {
    place: u32,
    statements: u32,
    room: u32,
}

// What is read with one card more.
#[tactic(auto, using(std::proofs::lemmas::Bool::Decides::nat_tests), unfolding(rules_text::specs::Cards::wrong_card, crate::specs::Judging::after_of))]
fn after_card(b: Begun, card: &Card) -> Result<Begun, Reason>
    requires { (b.place < 1000) × (b.statements < 1000) }
    ensures { (k : ℕ) → After (house1401 k) b card.now result }
{
    let place = b.place + 1;
    if read_cards::is_comment(card) {
        return Ok(Begun { place, ..b });
    }
    if !read_cards::all_characters(card) {
        return Err(Reason::Character);
    }
    if read_cards::starts(card) {
        if read_cards::punched(card).is_none() {
            return Err(Reason::NumberColumns);
        }
        return Ok(Begun {
            place,
            statements: b.statements + 1,
            room: CONTINUATIONS,
        });
    }
    if !read_cards::no_number(card) {
        return Err(Reason::NumberColumns);
    }
    if b.room == 0 {
        return Err(Reason::Continuation);
    }
    Ok(Begun {
        place,
        room: b.room - 1,
        ..b
    })
}

// The last statement's sequence number.
fn card_by_card(cards: &[Card]) -> Result<Sequence, Refusal>
    requires { length cards.now ≤ 512 }
    ensures { (k : ℕ) → Judges (card_by_card (house1401 k) 1 nothing_read cards.now) result }
{
    let mut b = Begun {
        place: 1,
        statements: 0,
        room: 0,
    };
    for card in cards {
        match after_card(b, card) {
            Ok(after) => b = after,
            Err(reason) => {
                return Err(Refusal {
                    reason,
                    place: b.place,
                    kind: 0,
                });
            }
        }
    }
    Ok(Sequence(b.statements))
}

// How many statements there are: the last one's sequence number.
pub fn judge(k: u32, deck: &[u8]) -> Result<Sequence, Refusal>
    ensures { Judges (carded (house1401 k) deck.now) result }
{
    if k < 1 || DIGITS < k {
        return Err(Refusal::of(Reason::Digits));
    }
    let n = deck.len();
    if n == 0 || n % 80 != 0 || LONGEST < n {
        return Err(Refusal::of(Reason::DeckLength));
    }
    let last = card_by_card(read_cards::cards(deck))?;
    if STATEMENTS < last.0 {
        return Err(Refusal::of(Reason::Statements));
    }
    Ok(last)
}
