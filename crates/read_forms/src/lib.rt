// The statement forms: assignment, GO TO, IF, and those that are a word. The others are in the crates above.
#![tactic(auto)]

ghost use Rattle.std.specs.Prelude.{◌≡◌, ◌*◌, ◌≤◌, length, drop};
ghost use Rattle.rules_text.specs.Tokens.{comma, after, number};
ghost use Rattle.rules_text.specs.Grammar.{read_assignment, read_go_to, read_if};
ghost use Rattle.read_tokens.specs.Words.{most};
ghost use Rattle.read_tokens.specs.Reading.{ReadsNumber};
ghost use Rattle.read_forms.specs.Statements.{as_number, answer, Reads, EndsIf, only_word, word_form};

use read_cards::Number;
use read_elements::Target;
use read_tokens::{Name, Read, Sizes};

#[derive(Clone, Copy, Debug, PartialEq, Eq)]
pub struct Assignment {
    pub target: Target,
    // words of the expression's items in the table
    pub count: usize,
    pub sizes: Sizes,
}

#[derive(Clone, Copy, Debug, PartialEq, Eq)]
pub struct Computed {
    // numbers in the table
    pub exits: usize,
    pub name: Name,
    pub sizes: Sizes,
}

#[derive(Clone, Copy, Debug, PartialEq, Eq)]
pub struct If {
    pub count: usize,
    pub below: Number,
    pub at: Number,
    pub above: Number,
    pub sizes: Sizes,
}

// A constant's value, or a variable.
#[derive(Clone, Copy, Debug, PartialEq, Eq)]
pub enum Parameter {
    Constant(u64),
    Variable(Name),
}

#[derive(Clone, Copy, Debug, PartialEq, Eq)]
pub struct Do {
    pub last: Number,
    pub name: Name,
    pub first: Parameter,
    pub limit: Parameter,
    // the constant 1 where it is not written
    pub by: Parameter,
    pub sizes: Sizes,
}

#[derive(Clone, Copy, Debug, PartialEq, Eq)]
pub struct Dimension {
    // arrays in the table, seven words each
    pub arrays: usize,
    pub sizes: Sizes,
}

#[derive(Clone, Copy, Debug, PartialEq, Eq)]
pub enum Statement {
    Assign(Assignment),
    GoTo(Number),
    Computed(Computed),
    If(If),
    Do(Do),
    Continue,
    Stop,
    End,
    Dimension(Dimension),
}

// v=e, v(s)=e or v(s,s)=e: the expression reader is handed the text from where the expression begins.
pub fn read_assignment(text: &[u8], items: &mut [u64]) -> Option<Statement>
    requires { 5 * length text.now ≤ length items.old }
    ensures { Reads items.new (read_assignment text.now) result }
{
    let place = read_elements::read_place(text, 0)?;
    if read_tokens::byte(text, place.at) != b'=' {
        return None;
    }
    let from = place.at + 1;
    let expression = read_expressions::expression(&text[from..], items, 0)?;
    if from + expression.at != text.len() {
        return None;
    }
    Some(Statement::Assign(Assignment {
        target: place.value,
        count: expression.value,
        sizes: place.sizes.join(expression.sizes),
    }))
}

// A statement number as its token has it: 13 is not judged yet, but the value is capped.
pub fn number_of(word: u64) -> Number
    requires { word ≤ most }
    ensures { result ≡ as_number word }
{
    Number(word as u32)
}

// GOTOn
pub fn read_go_to(text: &[u8]) -> Option<Statement>
    ensures { result ≡ answer (read_go_to text.now) }
{
    if !text.starts_with(b"GOTO") {
        return None;
    }
    let number = read_tokens::read_number(text, 4)?;
    if number.at != text.len() {
        return None;
    }
    Some(Statement::GoTo(number_of(number.value)))
}

// A comma and a number.
pub fn read_next(text: &[u8], from: usize) -> Option<Read<u64>>
    requires { from ≤ length text.now }
    ensures { ReadsNumber text.now from (after comma number (drop from text.now)) result }
{
    if read_tokens::byte(text, from) != b',' {
        return None;
    }
    read_tokens::read_number(text, from + 1)
}

// n,n,n to the end of the text, after an expression.
fn read_exits(text: &[u8], expression: Read<usize>) -> Option<Statement>
    requires { expression.at ≤ length text.now }
    ensures { EndsIf text.now expression.at expression.value expression.sizes result }
{
    let below = read_tokens::read_number(text, expression.at)?;
    let at = read_next(text, below.at)?;
    let above = read_next(text, at.at)?;
    if above.at != text.len() {
        return None;
    }
    Some(Statement::If(If {
        count: expression.value,
        below: number_of(below.value),
        at: number_of(at.value),
        above: number_of(above.value),
        sizes: expression.sizes,
    }))
}

// IF(e)n,n,n
pub fn read_if(text: &[u8], items: &mut [u64]) -> Option<Statement>
    requires { 5 * length text.now ≤ length items.old }
    ensures { Reads items.new (read_if text.now) result }
{
    if !text.starts_with(b"IF") {
        return None;
    }
    if read_tokens::byte(text, 2) != b'(' {
        return None;
    }
    let expression = read_expressions::expression(&text[3..], items, 0)?;
    let end = expression.at + 3;
    if read_tokens::byte(text, end) != b')' {
        return None;
    }
    read_exits(
        text,
        Read {
            at: end + 1,
            ..expression
        },
    )
}

// Whether the text is this word and nothing more. Tried: a `match` on the byte strings leaves a goal for each byte.
pub fn is_word(text: &[u8], word: &[u8]) -> bool
    ensures { result ≡ only_word word.now text.now }
{
    text == word
}

// CONTINUE, STOP or END
pub fn read_word(text: &[u8]) -> Option<Statement>
    ensures { result ≡ answer (word_form text.now) }
{
    if is_word(text, b"CONTINUE") {
        return Some(Statement::Continue);
    }
    if is_word(text, b"STOP") {
        return Some(Statement::Stop);
    }
    if is_word(text, b"END") {
        return Some(Statement::End);
    }
    None
}
