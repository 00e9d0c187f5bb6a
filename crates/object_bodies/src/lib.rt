// The kinds of an object's bodies, once for those who read, judge and write: how many an edition has, the words of an entry, and how many entries at most.
#![tactic(auto)]

ghost use Rattle.std.specs.Prelude.{◌≡◌, ◌≤◌, ◌<◌, length, get_or};
ghost use Rattle.rules_object.specs.Kinds.{kinds_of, contents_length};
ghost use Rattle.object_bodies.specs.Edition.{most_kinds, sizes, mosts};

use limits::{
    CODE, CONSTANTS, DOS, ELEMENTS, EXITS, FORMAT_WORDS, LIST_ITEMS, NAMES, STATEMENTS, TRANSFERS,
};

// ---- the edition that is written

pub const EDITION: u32 = 1;

pub const KINDS: usize = 7;

// Words of the contents: edition, digits, cells and how many bodies; then of each body its kind, first byte and length in bytes.
pub const CONTENTS: usize = 4 + 3 * KINDS;

// The byte after them, where the first body begins.
pub const HEAD: usize = 4 * CONTENTS;

// ---- every edition

// As many as any edition has; an edition has the first of them.
pub const MOST_KINDS: usize = 10;

// Words in an entry of more than one.
pub const ELEMENT: usize = 9;

pub const LOOP: usize = 4;

pub const LINE: usize = 3;

pub const NAME: usize = 5;

pub const ITEM: usize = 2;

pub const TRANSFER: usize = 3;

const SIZES: [usize; MOST_KINDS] = [1, ELEMENT, 1, LOOP, 1, LINE, NAME, 1, ITEM, TRANSFER];

const MOST: [usize; MOST_KINDS] = [
    CONSTANTS,
    ELEMENTS,
    EXITS,
    DOS,
    CODE,
    STATEMENTS,
    NAMES,
    FORMAT_WORDS,
    LIST_ITEMS,
    TRANSFERS,
];

pub fn entry_words(kind: usize) -> usize
    requires { kind < most_kinds }
    ensures { result ≡ get_or sizes kind 0 }
{
    SIZES[kind]
}

pub fn most_entries(kind: usize) -> usize
    requires { kind < most_kinds }
    ensures { result ≡ get_or mosts kind 0 }
{
    MOST[kind]
}

// How many kinds an edition has: none, if there is no such edition, as the list of the book, which is empty there.
pub fn kinds_of(edition: u32) -> usize
    ensures { (result ≡ length (kinds_of edition)) × (result ≤ most_kinds) }
{
    match edition {
        1 => 7,
        2 => 10,
        _ => 0,
    }
}

// The bytes of the contents of so many bodies.
pub fn contents_length(kinds: usize) -> usize
    requires { kinds ≤ most_kinds }
    ensures { result ≡ contents_length kinds }
{
    4 * (4 + 3 * kinds)
}
