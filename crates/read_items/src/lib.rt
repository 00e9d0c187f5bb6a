// Operands, read from the start of a text and written as items.
#![tactic(auto)]

ghost use Rattle.std.specs.Prelude.{[], ◌∷◌, ◌+◌, ◌*◌, ◌<◌, ◌≤◌, length};
ghost use Rattle.rules_text.specs.Grammar as grammar;
ghost use Rattle.read_tokens.specs.Words.{name_words};
ghost use Rattle.read_items.specs.Items.{subscript_words, target_words};
ghost use Rattle.read_items.specs.Parsed.{Put, Parsed};

use read_elements::{Element, Subscript, Target};
use read_tokens::{NAME_WORDS, Name, Read};

// Words of a name's item and of an element's.
pub const NAME_ITEM: usize = 1 + NAME_WORDS;

pub const ELEMENT_ITEM: usize = 2 + NAME_WORDS + 2 * (NAME_WORDS + 3);

// Words at a place of a table; the place after them.
fn put_words<T: Copy>(table: &mut [T], at: usize, words: &[T]) -> usize
    requires { at + length words.now ≤ length table.old }
    ensures { Put table.old table.new at words.now result }
{
    let end = at + words.len();
    table[at..end].copy_from_slice(words);
    end
}

pub fn put(table: &mut [u32], at: usize, word: u32) -> usize
    requires { at < length table.old }
    ensures { Put table.old table.new at (word ∷ []) result }
{
    put_words(table, at, &[word])
}

pub fn put_two(items: &mut [u64], n: usize, kind: u64, word: u64) -> usize
    requires { n + 2 ≤ length items.old }
    ensures { Put items.old items.new n (kind ∷ word ∷ []) result }
{
    put_words(items, n, &[kind, word])
}

pub fn put_name(items: &mut [u64], n: usize, name: Name) -> usize
    requires { n + 4 ≤ length items.old }
    ensures { Put items.old items.new n (name_words name) result }
{
    put_words(items, n, &[name.0, name.1, name.2, name.3])
}

// A word and a name.
pub fn put_named(items: &mut [u64], n: usize, word: u64, name: Name) -> usize
    requires { n + 5 ≤ length items.old }
    ensures { Put items.old items.new n (word ∷ name_words name) result }
{
    items[n] = word;
    put_name(items, n + 1, name)
}

fn put_subscript(items: &mut [u64], n: usize, subscript: Subscript) -> usize
    requires { n + 7 ≤ length items.old }
    ensures { Put items.old items.new n (subscript_words subscript) result }
{
    let b = put_named(items, n, subscript.times, subscript.name);
    put_two(items, b, subscript.minus, subscript.addend)
}

fn put_element(items: &mut [u64], n: usize, element: Element) -> usize
    requires { n + 20 ≤ length items.old }
    ensures { Put items.old items.new n (target_words (Target.Element element)) result }
{
    let a = put_named(items, n, 4, element.name);
    let b = put_words(items, a, &[element.subscripts.count]);
    let c = put_subscript(items, b, element.subscripts.first);
    put_subscript(items, c, element.subscripts.second)
}

pub fn put_target(items: &mut [u64], n: usize, target: Target) -> usize
    requires { n + length (target_words target) ≤ length items.old }
    ensures { Put items.old items.new n (target_words target) result }
{
    match target {
        Target::Cell(name) => put_named(items, n, 2, name),
        Target::Element(element) => put_element(items, n, element),
    }
}

// A constant, a name or an element: how many bytes it takes, and how many words the table has then.
pub fn operand(s: &[u8], items: &mut [u64], n: usize) -> Option<Read<usize>>
    requires { n + 5 * length s.now ≤ length items.old }
    ensures { Parsed s.now items.old items.new n (grammar.operand s.now) result }
{
    if let Some(number) = read_tokens::read_number(s, 0) {
        return Some(Read {
            at: number.at,
            value: put_two(items, n, 1, number.value),
            sizes: number.sizes,
        });
    }
    let place = read_elements::read_place(s, 0)?;
    Some(Read {
        at: place.at,
        value: put_target(items, n, place.value),
        sizes: place.sizes,
    })
}
