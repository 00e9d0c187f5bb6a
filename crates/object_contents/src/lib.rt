// The contents of an object: where its bodies stand and how many entries each has.
#![tactic(auto)]

ghost use Rattle.std.specs.Prelude.{◌≡◌, ◌+◌, ◌*◌, ◌/◌, ◌%◌, ◌≤◌, ◌<◌, length};
ghost use Rattle.rules_object.specs.Kinds.{contents_length};
ghost use Rattle.object_bodies.specs.Edition.{most_kinds};
ghost use Rattle.object_contents.specs.Opened.{Opened};
ghost use Rattle.object_contents.specs.Bodies.{first_in, length_in, size_of, body_fits, AllFit, layout_in, Begun};

pub mod placed;

pub use placed::Object;

// Of each body the byte that it starts at and how many entries it has.
#[derive(Clone, Copy)]
pub struct Layout {
    pub edition: u32,
    pub digits: u32,
    pub cells: u32,
    pub constants: usize,
    pub constant_count: usize,
    pub elements: usize,
    pub element_count: usize,
    pub exits: usize,
    pub exit_count: usize,
    pub dos: usize,
    pub do_count: usize,
    pub code: usize,
    pub code_count: usize,
    pub lines: usize,
    pub line_count: usize,
    pub names: usize,
    pub name_count: usize,
    pub formats: usize,
    pub format_count: usize,
    pub items: usize,
    pub item_count: usize,
    pub transfers: usize,
    pub transfer_count: usize,
}

fn size_of(kind: usize) -> usize
    requires { kind < most_kinds }
    ensures { (result ≡ size_of kind) × (0 < result) }
{
    4 * object_bodies::entry_words(kind)
}

// A body that an edition of so many kinds does not have stands empty at the end.
#[tactic(auto, using(std::proofs::lemmas::Bool::Decides::nat_tests), unfolding(crate::specs::Bodies::first_in))]
fn first_of(o: &[u8], kinds: usize, kind: usize) -> usize
    requires { (contents_length kinds ≤ length o.now) × (kinds ≤ most_kinds) }
    ensures { result ≡ first_in o.now kinds kind }
{
    if kinds <= kind {
        return o.len();
    }
    object_words::load(o, 20 + 12 * kind) as usize
}

#[tactic(auto, using(std::proofs::lemmas::Bool::Decides::nat_tests), unfolding(crate::specs::Bodies::length_in))]
fn length_of(o: &[u8], kinds: usize, kind: usize) -> usize
    requires { (contents_length kinds ≤ length o.now) × (kinds ≤ most_kinds) }
    ensures { result ≡ length_in o.now kinds kind }
{
    if kinds <= kind {
        return 0;
    }
    object_words::load(o, 24 + 12 * kind) as usize
}

fn count_of(o: &[u8], kinds: usize, kind: usize) -> usize
    requires { (contents_length kinds ≤ length o.now) × (kinds ≤ most_kinds) × (kind < most_kinds) }
    ensures { result ≡ length_in o.now kinds kind / size_of kind }
{
    length_of(o, kinds, kind) / size_of(kind)
}

// One body: its kind in order, right after the one before, whole entries, inside.
#[tactic(auto, using(std::proofs::lemmas::Bool::Decides::nat_tests), unfolding(crate::specs::Bodies::body_fits))]
fn body_fits(o: &[u8], kinds: usize, kind: usize, at: usize) -> bool
    requires { (contents_length kinds ≤ length o.now) × (kinds ≤ most_kinds) × (kind < kinds) × (at ≤ length o.now) }
    ensures { result ≡ body_fits o.now kinds kind at }
{
    let n = length_of(o, kinds, kind);
    object_words::load(o, 16 + 12 * kind) as usize == kind + 1
        && first_of(o, kinds, kind) == at
        && n % size_of(kind) == 0
        && n <= o.len() - at
}

// Every body of so many kinds, and nothing after the last.
fn bodies_fit(o: &[u8], kinds: usize) -> bool
    requires { (contents_length kinds ≤ length o.now) × (kinds ≤ most_kinds) × (length o.now % 4 ≡ 0) }
    ensures { AllFit o.now kinds result }
{
    let mut at = object_bodies::contents_length(kinds);
    for kind in 0..kinds {
        if !body_fits(o, kinds, kind, at) {
            return false;
        }
        at += length_of(o, kinds, kind);
    }
    at == o.len()
}

fn layout_of(o: &[u8], kinds: usize) -> Layout
    requires { (contents_length kinds ≤ length o.now) × (kinds ≤ most_kinds) }
    ensures { result ≡ layout_in o.now kinds }
{
    Layout {
        edition: object_words::load(o, 0),
        digits: object_words::load(o, 4),
        cells: object_words::load(o, 8),
        constants: first_of(o, kinds, 0),
        constant_count: count_of(o, kinds, 0),
        elements: first_of(o, kinds, 1),
        element_count: count_of(o, kinds, 1),
        exits: first_of(o, kinds, 2),
        exit_count: count_of(o, kinds, 2),
        dos: first_of(o, kinds, 3),
        do_count: count_of(o, kinds, 3),
        code: first_of(o, kinds, 4),
        code_count: count_of(o, kinds, 4),
        lines: first_of(o, kinds, 5),
        line_count: count_of(o, kinds, 5),
        names: first_of(o, kinds, 6),
        name_count: count_of(o, kinds, 6),
        formats: first_of(o, kinds, 7),
        format_count: count_of(o, kinds, 7),
        items: first_of(o, kinds, 8),
        item_count: count_of(o, kinds, 8),
        transfers: first_of(o, kinds, 9),
        transfer_count: count_of(o, kinds, 9),
    }
}

// The bodies of an object whose edition has so many kinds.
fn bodies_of(o: &[u8], kinds: usize) -> Option<Layout>
    requires { Begun o.now kinds }
    ensures { Opened o.now result }
{
    if o.len() < object_bodies::contents_length(kinds)
        || !bodies_fit(o, kinds)
        || count_of(o, kinds, 4) == 0
    {
        return None;
    }
    Some(layout_of(o, kinds))
}

// Any bytes: wrong by 40, or the places of the bodies. The first four words are the edition, the digits, the cells and how many bodies there are.
pub fn contents_of(o: &[u8]) -> Option<Layout>
    ensures { Opened o.now result }
{
    if o.len() < 16 || o.len() % 4 != 0 {
        return None;
    }
    let kinds = object_bodies::kinds_of(object_words::load(o, 0));
    if kinds == 0 || object_words::load(o, 12) as usize != kinds {
        return None;
    }
    bodies_of(o, kinds)
}
