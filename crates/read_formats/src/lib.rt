// A FORMAT read from its columns and written out to words of body 8, in one pass.
#![tactic(auto)]

ghost use Rattle.std.specs.Prelude.{◌≡◌, true, ◌||◌, [], ◌∷◌, ◌+◌, ◌≤◌, ◌<◌, length, take, drop, get_or};
ghost use Rattle.std.proofs.Math.Option.{some};
ghost use Rattle.rules_formats.specs.Words.{most_words};
ghost use Rattle.rules_formats.specs.Fields.{is_blank, is_digit};
ghost use Rattle.rules_formats.specs.Punched.{list, most_number, number_from, mark_of, counted, width_of, may_field, may_comma, may_slash, may_close, opening, after_word, after, format_of};
ghost use Rattle.read_formats.specs.Puts.{text_words, Puts, Repeats};
ghost use Rattle.read_formats.specs.Reads.{place_of, run_of, Grown, Counts, Ready, Ahead, Steps, field_at, Reads, Stood, Alone};
ghost use Rattle.read_formats.specs.Formatted.{Formatted};

// As many words as body 8 may have. A top of one more tells that there were more.
const MOST: usize = 4096;

// What body 8's words are, in their top eight bits.
const KIND_I: u32 = 16777216;

const KIND_X: u32 = 33554432;

const KIND_H: u32 = 50331648;

const KIND_SLASH: u32 = 67108864;

const KIND_END: u32 = 83886080;

// Where in a list: at its beginning, or after what.
#[derive(Clone, Copy, PartialEq, Eq, Debug)]
pub enum Place {
    First,
    AfterComma,
    AfterSlash,
    AfterField,
}

// How far reading is: the next column, the number of words, the word where a new scan begins, whether a number was among the fields.
#[derive(Clone, Copy, PartialEq, Eq, Debug)]
pub struct Sofar {
    pub at: usize,
    pub top: usize,
    pub again: usize,
    pub numbers: bool,
}

// ---- numbers

// Whether a column may stand in a number's run.
fn in_run(c: u8) -> bool
    ensures { result ≡ is_blank c || is_digit c }
{
    c == b' ' || c.is_ascii_digit()
}

// A number with one column more of its run; 100000 for all that is over 99999.
fn grown(n: usize, c: u8) -> usize
    requires small { n ≤ most_number + 1 }
    requires run { is_blank c || is_digit c ≡ true }
    ensures { Grown n c result }
{
    if c == b' ' {
        return n;
    }
    (n * 10 + (c - b'0') as usize).min(100000)
}

// A number from 1 to 99999, and the column after its run.
#[derive(Clone, Copy, PartialEq, Eq, Debug)]
pub struct Run {
    pub value: usize,
    pub at: usize,
}

fn tested(value: usize, at: usize) -> Option<Run>
    ensures { result ≡ run_of value at }
{
    if value < 1 || 99999 < value {
        return None;
    }
    Some(Run { value, at })
}

// The number from a column on, n being what the digits before make.
fn number(columns: &[u8], at: usize, n: usize) -> Option<Run>
    requires { (n ≤ most_number) × (at ≤ length columns.now) }
    ensures { Counts columns.now at n result }
{
    let mut v = n;
    for i in at..columns.len() {
        let c = columns[i];
        if !in_run(c) {
            return tested(v, i);
        }
        v = grown(v, c);
    }
    tested(v, columns.len())
}

// ---- words

fn put(words: &mut [u32], top: usize, word: u32) -> usize
    requires { (length words.old ≡ most_words) × (top ≤ most_words + 1) }
    ensures { Puts (word ∷ []) words.old words.new top result }
{
    if top >= MOST {
        return MOST + 1;
    }
    words[top] = word;
    top + 1
}

// A column of an H field, a blank too.
fn put_character(words: &mut [u32], top: usize, c: u8) -> usize
    requires { (length words.old ≡ most_words) × (top ≤ most_words + 1) }
    ensures { Puts (text_words (c ∷ [])) words.old words.new top result }
{
    put(words, top, KIND_H + c as u32)
}

// The n columns after nH, each a word.
fn put_text(columns: &[u8], at: usize, n: usize, words: &mut [u32], top: usize) -> usize
    requires text { at + n ≤ length columns.now }
    requires table { (length words.old ≡ most_words) × (top ≤ most_words + 1) }
    ensures { Puts (text_words (take n (drop at columns.now))) words.old words.new top result }
{
    let mut t = top;
    for j in 0..n {
        t = put_character(words, t, columns[at + j]);
    }
    t
}

// The words from a place to the top, which stand once, n times.
fn repeat(words: &mut [u32], from: usize, top: usize, n: usize) -> usize
    requires table { (length words.old ≡ most_words) × (from ≤ top) × (top ≤ most_words + 1) }
    requires count { (1 ≤ n) × (n ≤ most_number) }
    ensures { Repeats n words.old words.new from top result }
{
    if top > MOST {
        return top;
    }
    let many = (n - 1) * (top - from);
    for k in 0..many {
        if top + k >= MOST {
            return MOST + 1;
        }
        words[top + k] = words[from + k];
    }
    top + many
}

// ---- one field, comma, slash or parenthesis

// What one field or mark of a list comes to: the list ends, the list goes on at a place, a group begins with its count.
#[derive(Clone, Copy, PartialEq, Eq, Debug)]
pub enum Step {
    Closes(Sofar),
    Next(Sofar, Place),
    Opens(Sofar, usize),
}

fn may_field(p: Place) -> bool
    ensures { result ≡ may_field (place_of p) }
{
    matches!(p, Place::First | Place::AfterComma | Place::AfterSlash)
}

fn may_comma(p: Place) -> bool
    ensures { result ≡ may_comma (place_of p) }
{
    matches!(p, Place::AfterField)
}

fn may_slash(p: Place) -> bool
    ensures { result ≡ may_slash (place_of p) }
{
    matches!(p, Place::First | Place::AfterSlash | Place::AfterField)
}

fn may_close(p: Place) -> bool
    ensures { result ≡ may_close (place_of p) }
{
    matches!(p, Place::AfterSlash | Place::AfterField)
}

// The width after nI.
fn width(columns: &[u8], at: usize, n: usize, words: &mut [u32], s: Sofar) -> Option<Step>
    requires ready { Ahead columns.now words.old s at n }
    ensures { Steps columns.now words.old words.new s (width_of list n (number_from 0 (drop at columns.now))) result }
{
    let w = number(columns, at, 0)?;
    let once = put(words, s.top, KIND_I + w.value as u32);
    let top = repeat(words, s.top, once, n);
    let next = Sofar {
        at: w.at,
        top,
        numbers: true,
        ..s
    };
    Some(Step::Next(next, Place::AfterField))
}

// What stands after a count: I and its width, X, H and its columns, a group.
fn after_count(columns: &[u8], at: usize, n: usize, words: &mut [u32], s: Sofar) -> Option<Step>
    requires ready { Ahead columns.now words.old s (at + 1) n }
    ensures { Steps columns.now words.old words.new s (counted list n (mark_of (get_or columns.now at 0)) (drop (at + 1) columns.now)) result }
{
    let c = columns[at];
    let next = at + 1;
    if c == b'I' {
        return width(columns, next, n, words, s);
    }
    if c == b'(' {
        return Some(Step::Opens(Sofar { at: next, ..s }, n));
    }
    if c == b'X' {
        let top = put(words, s.top, KIND_X + n as u32);
        return Some(Step::Next(Sofar { at: next, top, ..s }, Place::AfterField));
    }
    if c != b'H' {
        return None;
    }
    if n > columns.len() - next {
        return None;
    }
    let top = put_text(columns, next, n, words, s.top);
    let end = Sofar {
        at: next + n,
        top,
        ..s
    };
    Some(Step::Next(end, Place::AfterField))
}

// A field, with its count or without.
fn field(columns: &[u8], words: &mut [u32], s: Sofar) -> Option<Step>
    requires ready { Ready columns.now words.old s }
    requires inside { s.at < length columns.now }
    ensures { Steps columns.now words.old words.new s (field_at (mark_of (get_or columns.now s.at 0)) (drop (s.at + 1) columns.now)) result }
{
    let at = s.at;
    let c = columns[at];
    if c == b'I' {
        return after_count(columns, at, 1, words, s);
    }
    if c == b'(' {
        return after_count(columns, at, 1, words, s);
    }
    if c < b'0' {
        return None;
    }
    if c > b'9' {
        return None;
    }
    let n = number(columns, at + 1, (c - b'0') as usize)?;
    if n.at >= columns.len() {
        return None;
    }
    after_count(columns, n.at, n.value, words, s)
}

fn one(columns: &[u8], words: &mut [u32], s: Sofar, place: Place) -> Option<Step>
    requires ready { Ready columns.now words.old s }
    ensures { Steps columns.now words.old words.new s (list (place_of place) (drop s.at columns.now)) result }
{
    let at = s.at;
    if at >= columns.len() {
        return None;
    }
    let c = columns[at];
    let next = at + 1;
    if c == b' ' {
        return Some(Step::Next(Sofar { at: next, ..s }, place));
    }
    if c == b',' {
        if !may_comma(place) {
            return None;
        }
        return Some(Step::Next(Sofar { at: next, ..s }, Place::AfterComma));
    }
    if c == b'/' {
        if !may_slash(place) {
            return None;
        }
        let top = put(words, s.top, KIND_SLASH);
        return Some(Step::Next(Sofar { at: next, top, ..s }, Place::AfterSlash));
    }
    if c == b')' {
        if !may_close(place) {
            return None;
        }
        return Some(Step::Closes(Sofar { at: next, ..s }));
    }
    if !may_field(place) {
        return None;
    }
    field(columns, words, s)
}

// ---- lists

// A list to its closing parenthesis. A group's fields are put once, and then copied.
fn read_list(columns: &[u8], words: &mut [u32], s: Sofar, place: Place) -> Option<Sofar>
    requires { Ready columns.now words.old s }
    ensures { Reads columns.now words.old words.new s (list (place_of place) (drop s.at columns.now)) result }
{
    let mut t = s;
    let mut p = place;
    loop {
        match one(columns, words, t, p)? {
            Step::Closes(u) => return Some(u),
            Step::Next(u, q) => {
                t = u;
                p = q;
            }
            Step::Opens(u, n) => {
                let v = read_list(columns, words, u, Place::First)?;
                let top = repeat(words, u.top, v.top, n);
                t = Sofar {
                    top,
                    again: u.top,
                    ..v
                };
                p = Place::AfterField;
            }
        }
    }
}

// ---- the statement

const OPENING: &[u8; 7] = b"FORMAT(";

// The column after the next that is not blank, if it holds this character.
fn past(columns: &[u8], at: usize, character: u8) -> Option<usize>
    ensures { Stood columns.now (after character (drop at columns.now)) result }
{
    for i in at..columns.len() {
        let c = columns[i];
        if c != b' ' {
            if c == character {
                return Some(i + 1);
            }
            return None;
        }
    }
    None
}

// The column after FORMAT(.
fn opened(columns: &[u8]) -> Option<usize>
    ensures { Stood columns.now (after_word opening (some columns.now)) result }
{
    let mut at = 0;
    for k in 0..OPENING.len() {
        at = past(columns, at, OPENING[k])?;
    }
    Some(at)
}

// Whether only blanks stand from a column on.
fn blank_from(columns: &[u8], at: usize) -> bool
    ensures { Alone (drop at columns.now) result }
{
    for i in at..columns.len() {
        if columns[i] != b' ' {
            return false;
        }
    }
    true
}

// Why columns are not kept: they are no FORMAT, or its words do not fit.
#[derive(Clone, Copy, PartialEq, Eq, Debug)]
pub enum FormatError {
    Bad,
    Full,
}

// How many words there are with the FORMAT's, and whether a number is among its fields.
#[derive(Clone, Copy, PartialEq, Eq, Debug)]
pub struct Words {
    pub top: usize,
    pub numbers: bool,
}

// The columns read as a FORMAT, and its words put after those that stand.
pub fn read_format(columns: &[u8], words: &mut [u32], top: usize) -> Result<Words, FormatError>
    requires { (length words.old ≡ most_words) × (top ≤ most_words) }
    ensures { Formatted words.old words.new top (format_of columns.now) result }
{
    let Some(at) = opened(columns) else {
        return Err(FormatError::Bad);
    };
    let begin = Sofar {
        at,
        top,
        again: top,
        numbers: false,
    };
    let Some(s) = read_list(columns, words, begin, Place::First) else {
        return Err(FormatError::Bad);
    };
    if !blank_from(columns, s.at) {
        return Err(FormatError::Bad);
    }
    let end = put(words, s.top, KIND_END + s.again as u32);
    if end > MOST {
        return Err(FormatError::Full);
    }
    Ok(Words {
        top: end,
        numbers: s.numbers,
    })
}
