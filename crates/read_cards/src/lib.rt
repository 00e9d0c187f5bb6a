// A deck's cards, and what stands in a card's columns.
#![tactic(auto)]

ghost use Rattle.std.specs.Prelude.{◌≡◌};
ghost use Rattle.rules_object.specs.Check.{blanks, character};
ghost use Rattle.rules_text.specs.Cards.{columns_read, number_columns, comment, first_card, characters, cards_of};
ghost use Rattle.read_cards.specs.Columns.{digits_of, punched_of};

// A statement's number as punched, 0 where none is.
#[derive(Clone, Copy, PartialEq, Eq, Debug, Default)]
pub struct Number(pub u32);

// A statement's place in card order, from 1 on.
#[derive(Clone, Copy, PartialEq, Eq, Debug, Default)]
pub struct Sequence(pub u32);

pub type Card = [u8; 80];

// The whole cards of a deck's bytes.
pub fn cards(deck: &[u8]) -> &[Card]
    ensures { result.now ≡ cards_of deck.now }
{
    deck.as_chunks().0
}

// ---- a card's columns: column c is the byte at c - 1

pub fn is_comment(card: &Card) -> bool
    ensures { result ≡ comment card.now }
{
    card[0] == b'C'
}

pub fn starts(card: &Card) -> bool
    ensures { result ≡ first_card card.now }
{
    card[5] == b' ' || card[5] == b'0'
}

fn is_character(c: u8) -> bool
    ensures { result ≡ character c }
{
    // b'(' to b'9' are ( ) * + , - . / and the digits
    matches!(c, b' ' | b'$' | b'=' | b'('..=b'9' | b'A'..=b'Z')
}

pub fn all_characters(card: &Card) -> bool
    ensures { result ≡ characters (columns_read card.now) }
{
    card[..72].iter().all(|c| is_character(*c))
}

pub fn no_number(card: &Card) -> bool
    ensures { result ≡ blanks (number_columns card.now) }
{
    card[..5].iter().all(|c| *c == b' ')
}

fn digits(card: &Card) -> Option<u32>
    ensures { result ≡ digits_of card.now }
{
    let mut value = 0;
    for c in &card[..5] {
        match *c {
            b' ' => {}
            b'0'..=b'9' => value = value * 10 + u32::from(*c - b'0'),
            _ => return None,
        }
    }
    Some(value)
}

// The number that a first card has in columns 1-5.
pub fn punched(card: &Card) -> Option<Number>
    ensures { result ≡ punched_of card.now }
{
    if no_number(card) {
        return Some(Number(0));
    }
    let value = digits(card)?;
    if value == 0 {
        return None;
    }
    Some(Number(value))
}
