// Tokens of a statement's text: bytes, values and names, each read from a place of the text on; and what the limits are tested on.
#![tactic(auto)]

ghost use Rattle.std.specs.Prelude.{◌≡◌, ℕ, Bool, ◌+◌, ◌≤◌, ◌&&◌, not, eqb, leb, length, drop, get_or};
ghost use Rattle.rules_text.specs.Tokens.{run, digit_run, name_run, number, name};
ghost use Rattle.read_tokens.specs.Words.{capped, name_word, name_of, no_name, name_at};
ghost use Rattle.read_tokens.specs.Sizes.{both};
ghost use Rattle.read_tokens.specs.Reading.{ReadsNumber, ReadsName};

// What 11, 12 and 14 are tested on.
#[derive(Clone, Copy, Debug, Default, PartialEq, Eq)]
pub struct Sizes {
    pub name: usize,
    // whether a name starts with another letter than I to N
    pub other: bool,
    pub constant: usize,
    pub levels: usize,
}

// How many words a name has.
pub const NAME_WORDS: usize = 4;

// Above every constant of nine digits and every statement number; larger values are not told apart.
const MOST: u64 = 1_000_000_000;

// A name of at most thirty-two bytes, blank-filled: eight bytes in a word, the first of them highest.
#[derive(Clone, Copy, Debug, PartialEq, Eq)]
pub struct Name(pub u64, pub u64, pub u64, pub u64);

// What was read: the place after it, its value and its sizes.
#[derive(Drop)]
pub struct Read<T> {
    pub at: usize,
    pub value: T,
    pub sizes: Sizes,
}

// Whether the names that start with this byte are integers'.
fn is_integer_letter(c: u8) -> bool
    ensures { result ≡ leb 73 c && leb c 78 }
{
    (b'I'..=b'N').contains(&c)
}

// The byte at a place, and 0, which no form has, past the end.
pub fn byte(s: &[u8], at: usize) -> u8
    ensures { result ≡ get_or s.now at 0 }
{
    s.get(at).copied().unwrap_or(0)
}

// How many bytes from the start on pass a test. Tried: `take_while` and `position`, whose proof does not close here.
fn run<F: Fn(u8) -> bool>(s: &[u8], test: F) -> usize
    requires { F.IsAlwaysCallable test }
    ensures { (t : ℕ → Bool) → ((c : ℕ) (b : Bool) → F.post test c b → b ≡ t c) → result ≡ run t s.now }
{
    for i in 0..s.len() {
        if !test(s[i]) {
            return i;
        }
    }
    s.len()
}

fn digit_run(s: &[u8]) -> usize
    ensures { result ≡ digit_run s.now }
{
    run(s, |c| c.is_ascii_digit())
}

// How many bytes the name takes that a text starts with, 0 where it starts with none.
fn name_run(s: &[u8]) -> usize
    ensures { result ≡ name_run s.now }
{
    if byte(s, 0).is_ascii_uppercase() {
        run(s, |c| c.is_ascii_uppercase() || c.is_ascii_digit())
    } else {
        0
    }
}

// The value of some digits, `MOST` where it is larger.
pub fn value(digits: &[u8]) -> u64
    requires { length digits.now ≤ digit_run digits.now }
    ensures { result ≡ capped digits.now }
{
    let mut v = 0;
    for &c in digits {
        v = (v * 10 + u64::from(c - b'0')).min(MOST);
    }
    v
}

// Eight bytes of a name, blank-filled, as one number: those after its first `skip`.
fn name_word(name: &[u8], skip: usize) -> u64
    requires { skip ≤ 24 }
    ensures { result ≡ name_word (drop skip name.now) }
{
    let mut w = 0;
    for i in 0..8 {
        w = w * 256 + u64::from(name.get(skip + i).copied().unwrap_or(b' '));
    }
    w
}

fn name_of(name: &[u8]) -> Name
    ensures { result ≡ name_of name.now }
{
    Name(
        name_word(name, 0),
        name_word(name, 8),
        name_word(name, 16),
        name_word(name, 24),
    )
}

pub fn no_name() -> Name
    ensures { result ≡ no_name }
{
    Name(0, 0, 0, 0)
}

// Whether it is one: no name's first word is 0. In a table words of 0 stand for none, so an `Option` would be no plainer.
pub fn is_name(n: Name) -> bool
    ensures { result ≡ not (eqb n.0 0) }
{
    n.0 != 0
}

// The name whose words stand in a table from a place on.
pub fn name_at(table: &[u64], at: usize) -> Name
    requires { at + 4 ≤ length table.now }
    ensures { result ≡ name_at table.now at }
{
    Name(table[at], table[at + 1], table[at + 2], table[at + 3])
}

impl Sizes {
    // Those of both parts.
    pub fn join(self, other: Sizes) -> Sizes
        ensures { result ≡ both self other }
    {
        Sizes {
            name: self.name.max(other.name),
            other: self.other || other.other,
            constant: self.constant.max(other.constant),
            levels: self.levels.max(other.levels),
        }
    }
}

pub fn read_number(s: &[u8], from: usize) -> Option<Read<u64>>
    requires { from ≤ length s.now }
    ensures { ReadsNumber s.now from (number (drop from s.now)) result }
{
    let rest = &s[from..];
    let k = digit_run(rest);
    if k == 0 {
        return None;
    }
    Some(Read {
        at: from + k,
        value: value(&rest[..k]),
        sizes: Sizes {
            constant: k,
            ..Sizes::default()
        },
    })
}

pub fn read_name(s: &[u8], from: usize) -> Option<Read<Name>>
    requires { from ≤ length s.now }
    ensures { ReadsName s.now from (name (drop from s.now)) result }
{
    let rest = &s[from..];
    let k = name_run(rest);
    if k == 0 {
        return None;
    }
    Some(Read {
        at: from + k,
        value: name_of(&rest[..k]),
        sizes: Sizes {
            name: k,
            other: !is_integer_letter(byte(s, from)),
            ..Sizes::default()
        },
    })
}
