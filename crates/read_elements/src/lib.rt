// Subscripts, elements and targets, each read from a place of the text on.
#![tactic(auto)]

ghost use Rattle.std.specs.Prelude.{◌≡◌, ◌≤◌, length, drop};
ghost use Rattle.rules_text.specs.Grammar.{addend, subscript, subscripts, place};
ghost use Rattle.read_elements.specs.Values.{minus_of, ReadsAddend, ReadsSubscript, ReadsLinear, ReadsSubscripts, ReadsPlace};

use read_tokens::{Name, Read, Sizes};

#[derive(Drop)]
pub struct Addend {
    pub minus: u64,
    pub value: u64,
}

// Word for word as in an item, from which take_operands makes it again: a 0 or 1 in `minus`, and `no_name` for none, are words there.
#[derive(Clone, Copy, Debug, PartialEq, Eq)]
pub struct Subscript {
    pub times: u64,
    pub name: Name,
    pub minus: u64,
    pub addend: u64,
}

#[derive(Clone, Copy, Debug, PartialEq, Eq)]
pub struct Subscripts {
    pub count: u64,
    pub first: Subscript,
    pub second: Subscript,
}

#[derive(Clone, Copy, Debug, PartialEq, Eq)]
pub struct Element {
    pub name: Name,
    pub subscripts: Subscripts,
}

// A plain cell or an element.
#[derive(Clone, Copy, Debug, PartialEq, Eq)]
pub enum Target {
    Cell(Name),
    Element(Element),
}

const NO_SUBSCRIPT: Subscript = Subscript {
    times: 0,
    name: Name(0, 0, 0, 0),
    minus: 0,
    addend: 0,
};

// A sign's word: 0 for a plus, 1 for a minus.
fn minus_of(c: u8) -> Option<u64>
    ensures { result ≡ minus_of c }
{
    match c {
        b'+' => Some(0),
        b'-' => Some(1),
        _ => None,
    }
}

fn read_addend(s: &[u8], from: usize) -> Option<Read<Addend>>
    requires { from ≤ length s.now }
    ensures { ReadsAddend s.now from (addend (drop from s.now)) result }
{
    let Some(minus) = minus_of(read_tokens::byte(s, from)) else {
        return Some(Read {
            at: from,
            value: Addend { minus: 0, value: 0 },
            sizes: Sizes::default(),
        });
    };
    let number = read_tokens::read_number(s, from + 1)?;
    Some(Read {
        at: number.at,
        value: Addend {
            minus,
            value: number.value,
        },
        sizes: number.sizes,
    })
}

// A variable and its addend, after a multiplier.
fn read_linear(s: &[u8], times: Read<u64>) -> Option<Read<Subscript>>
    requires { times.at ≤ length s.now }
    ensures { ReadsLinear s.now times.at times.value times.sizes result }
{
    let name = read_tokens::read_name(s, times.at)?;
    let addend = read_addend(s, name.at)?;
    Some(Read {
        at: addend.at,
        value: Subscript {
            times: times.value,
            name: name.value,
            minus: addend.value.minus,
            addend: addend.value.value,
        },
        sizes: times.sizes.join(name.sizes.join(addend.sizes)),
    })
}

fn read_subscript(s: &[u8], from: usize) -> Option<Read<Subscript>>
    requires { from ≤ length s.now }
    ensures { ReadsSubscript s.now from (subscript (drop from s.now)) result }
{
    let Some(number) = read_tokens::read_number(s, from) else {
        return read_linear(
            s,
            Read {
                at: from,
                value: 1,
                sizes: Sizes::default(),
            },
        );
    };
    if read_tokens::byte(s, number.at) == b'*' {
        return read_linear(
            s,
            Read {
                at: number.at + 1,
                ..number
            },
        );
    }
    Some(Read {
        at: number.at,
        value: Subscript {
            addend: number.value,
            ..NO_SUBSCRIPT
        },
        sizes: number.sizes,
    })
}

fn read_subscripts(s: &[u8], from: usize) -> Option<Read<Subscripts>>
    requires { from ≤ length s.now }
    ensures { ReadsSubscripts s.now from (subscripts (drop from s.now)) result }
{
    if read_tokens::byte(s, from) != b'(' {
        return None;
    }
    let first = read_subscript(s, from + 1)?;
    match read_tokens::byte(s, first.at) {
        b')' => Some(Read {
            at: first.at + 1,
            value: Subscripts {
                count: 1,
                first: first.value,
                second: NO_SUBSCRIPT,
            },
            sizes: first.sizes,
        }),
        b',' => {
            let second = read_subscript(s, first.at + 1)?;
            if read_tokens::byte(s, second.at) != b')' {
                return None;
            }
            Some(Read {
                at: second.at + 1,
                value: Subscripts {
                    count: 2,
                    first: first.value,
                    second: second.value,
                },
                sizes: first.sizes.join(second.sizes),
            })
        }
        _ => None,
    }
}

pub fn read_place(s: &[u8], from: usize) -> Option<Read<Target>>
    requires { from ≤ length s.now }
    ensures { ReadsPlace s.now from (place (drop from s.now)) result }
{
    let name = read_tokens::read_name(s, from)?;
    if read_tokens::byte(s, name.at) != b'(' {
        return Some(Read {
            at: name.at,
            value: Target::Cell(name.value),
            sizes: name.sizes,
        });
    }
    let subscripts = read_subscripts(s, name.at)?;
    Some(Read {
        at: subscripts.at,
        value: Target::Element(Element {
            name: name.value,
            subscripts: subscripts.value,
        }),
        sizes: name.sizes.join(subscripts.sizes),
    })
}
