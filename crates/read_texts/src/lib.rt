// A deck's statements, taken one after the other: number, what is punched, its text, and where the next one starts.
// Columns 7-72 of a first card and nine continuations are 660 bytes.
#![tactic(auto)]

ghost use Rattle.std.specs.Prelude.{◌≡◌, ◌≤◌, length};
ghost use Rattle.rules_text.specs.Cards.{read_as, text_of};
ghost use Rattle.read_texts.specs.Taking.{Accepted, over, begins, skipped, joined, punched_raw, punched_text, Takes, Put};

use limits::TEXT;
use read_cards::{Card, Number};

// `length` bytes in the table, and the card at which the next statement starts.
#[derive(Clone, Copy, PartialEq, Eq, Debug)]
pub struct Taken {
    pub number: Number,
    pub length: usize,
    pub next: usize,
}

#[tactic(auto, unfolding(crate::specs::Taking::begins))]
fn starts_statement(card: &Card) -> bool
    ensures { result ≡ begins card.now }
{
    !read_cards::is_comment(card) && read_cards::starts(card)
}

// How many cards stand before the next that starts a statement.
fn skipped(cards: &[Card]) -> usize
    ensures { result ≡ skipped cards.now }
{
    let found = cards.iter().position(|card| starts_statement(card));
    found.unwrap_or(cards.len())
}

// Columns 7-72 of the cards that are no comments, put at the start.
fn put(cards: &[Card], raw: &mut [u8; TEXT]) -> usize
    requires { length (joined cards.now) ≤ 660 }
    ensures { Put (joined cards.now) raw.old raw.new result }
{
    let mut n = 0;
    for card in cards {
        if !read_cards::is_comment(card) {
            raw[n..n + 66].copy_from_slice(&card[6..72]);
            n += 66;
        }
    }
    n
}

// Of a deck that `judge` does not refuse: the first statement from `card` on, what is punched put at the start.
pub fn columns(deck: &[u8], card: usize, raw: &mut [u8; TEXT]) -> Option<Taken>
    requires { Accepted deck.now }
    ensures { Takes punched_raw deck.now card raw.old raw.new result }
{
    let cards = read_cards::cards(deck).get(card..)?;
    let start = skipped(cards);
    let (first, more) = cards[start..].split_first()?;
    // No card of such a deck is wrong.
    let number = read_cards::punched(first)?;
    let end = start + 1 + skipped(more);
    Some(Taken {
        number,
        length: put(&cards[start..end], raw),
        next: card + end,
    })
}

fn read_as(c: u8) -> u8
    ensures { result ≡ read_as c }
{
    if c == b'$' { b'*' } else { c }
}

// The text of what is punched, put at the start: blanks gone.
pub fn text_of(raw: &[u8], text: &mut [u8; TEXT]) -> usize
    requires { length raw.now ≤ 660 }
    ensures { Put (text_of raw.now) text.old text.new result }
{
    let mut n = 0;
    for c in raw {
        if *c != b' ' {
            text[n] = read_as(*c);
            n += 1;
        }
    }
    n
}

// The same statement, its text put at the start.
pub fn statement(deck: &[u8], card: usize, text: &mut [u8; TEXT]) -> Option<Taken>
    requires { Accepted deck.now }
    ensures { Takes punched_text deck.now card text.old text.new result }
{
    let mut raw = [0u8; TEXT];
    let taken = columns(deck, card, &mut raw)?;
    Some(Taken {
        length: text_of(&raw[..taken.length], text),
        ..taken
    })
}
