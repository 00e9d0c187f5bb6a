// Entries of a draft's tables: pooled constants, and elements of nine words.
#![tactic(auto)]

ghost use Rattle.std.specs.Prelude.{◌≡◌, ◌==◌, ◌+◌, ◌*◌, ◌%◌, ◌^◌, ◌≤◌, ◌++◌, length, position, take};
ghost use Rattle.take_entries.specs.Pooling.{Pools};
ghost use Rattle.take_entries.specs.Places.{Signed, LinearOf, SecondOf, PutsElement};

use limits::CONSTANTS;
use read_elements::{Element, Subscript, Subscripts};
use take_name_table::Names;

// A constant's index, and how many constants there are then.
#[derive(Clone, Copy)]
pub struct Pooled {
    pub index: usize,
    pub count: usize,
}

// A subscript's three words: the addend is in two's complement.
#[derive(Clone, Copy)]
pub struct Linear {
    pub times: u32,
    pub cell: u32,
    pub plus: u32,
}

// ---- constants

fn find(constants: &[u32], value: u32) -> Option<usize>
    ensures { result ≡ position (λ c. c == value) constants.now }
{
    constants.iter().position(|&c| c == value)
}

// Each value once. The table comes whole, with how many it keeps: one more may be put there.
pub fn pool(constants: &mut [u32; CONSTANTS], n: usize, value: u32) -> Option<Pooled>
    requires { n ≤ 256 }
    ensures { Pools constants.old constants.new n value result }
{
    if let Some(index) = find(&constants[..n], value) {
        return Some(Pooled { index, count: n });
    }
    if n == CONSTANTS {
        return None;
    }
    constants[n] = value;
    Some(Pooled {
        index: n,
        count: n + 1,
    })
}

// ---- elements

pub fn low(word: u64) -> u32
    ensures { result ≡ word % 2 ^ 32 }
{
    (word & 0xffff_ffff) as u32
}

// An addend as a signed word.
fn signed(minus: u64, value: u64) -> u32
    ensures { Signed minus value result }
{
    let word = low(value);
    if minus == 0 {
        word
    } else {
        word.wrapping_neg()
    }
}

// A constant has multiplier 0 and cell 0.
fn linear_of(names: &Names, subscript: Subscript) -> Linear
    ensures { LinearOf names.now.words.now names.now.count subscript result }
{
    let times = low(subscript.times);
    let plus = signed(subscript.minus, subscript.addend);
    if !read_tokens::is_name(subscript.name) {
        return Linear {
            times,
            cell: 0,
            plus,
        };
    }
    let cell = names.cell_of(subscript.name);
    Linear { times, cell, plus }
}

// One dimension has second subscript 0, 0, 1.
fn second_of(names: &Names, subscripts: Subscripts) -> Linear
    ensures { SecondOf names.now.words.now names.now.count subscripts result }
{
    if subscripts.count == 1 {
        return Linear {
            times: 0,
            cell: 0,
            plus: 1,
        };
    }
    linear_of(names, subscripts.second)
}

fn put_words(elements: &mut [u32], at: usize, words: [u32; 9])
    requires { at + 9 ≤ length elements.old }
    ensures { take (at + 9) elements.new ≡ take at elements.old ++ words }
{
    elements[at..at + 9].copy_from_slice(&words);
}

// The entry of a reference, at index n: each reference has its own.
pub fn put_element(names: &Names, element: Element, elements: &mut [u32], n: usize)
    requires { 9 * n + 9 ≤ length elements.old }
    ensures { PutsElement names.now.words.now names.now.count element elements.old elements.new n }
{
    let array = names.array_of(element.name);
    let columns = array.columns.max(1);
    let first = linear_of(names, element.subscripts.first);
    let second = second_of(names, element.subscripts);
    put_words(
        elements,
        9 * n,
        [
            array.first,
            array.rows,
            columns,
            first.times,
            first.cell,
            first.plus,
            second.times,
            second.cell,
            second.plus,
        ],
    );
}
