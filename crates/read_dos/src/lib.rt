// DOnv=m,m and DOnv=m,m,m, each m an expression that is a constant or a variable.
#![tactic(auto)]

ghost use Rattle.std.specs.Prelude.{◌≡◌, ◌*◌, ◌≤◌, length, drop};
ghost use Rattle.rules_text.specs.Grammar.{parameter, read_do};
ghost use Rattle.read_forms.specs.Statements.{answer};
ghost use Rattle.read_forms.specs.declared.Parameter.TheVariants as Parameter;
ghost use Rattle.read_dos.specs.Parameters.{ReadsParameter, EndsBy, EndsDo};

use read_cards::Number;
use read_forms::{Do, Parameter, Statement};
use read_tokens::{Name, Read};

// An expression that is one constant or name, with nothing around it. What the table holds then is free.
fn read_parameter(text: &[u8], from: usize, items: &mut [u64]) -> Option<Read<Parameter>>
    requires { (from ≤ length text.now) × (5 * length text.now ≤ length items.old) }
    ensures { ReadsParameter text.now from (parameter (drop from text.now)) result }
{
    if read_tokens::byte(text, from) == b'+' {
        return None;
    }
    let expression = read_expressions::expression(&text[from..], items, 0)?;
    if expression.sizes.levels != 0 {
        return None;
    }
    let at = from + expression.at;
    let sizes = expression.sizes;
    match expression.value {
        2 => Some(Read {
            at,
            value: Parameter::Constant(items[1]),
            sizes,
        }),
        5 if items[0] == 2 => Some(Read {
            at,
            value: Parameter::Variable(read_tokens::name_at(items, 1)),
            sizes,
        }),
        _ => None,
    }
}

// What follows the second parameter, a third or the end of the text, after a DO in which the third is 1.
fn read_by(text: &[u8], items: &mut [u64], from: usize, two: Do) -> Option<Statement>
    requires room { (from ≤ length text.now) × (5 * length text.now ≤ length items.old) }
    requires one { two.by ≡ Parameter.Constant 1 }
    ensures { EndsBy text.now from two.last two.name two.first two.limit two.sizes result }
{
    if read_tokens::byte(text, from) != b',' {
        if from != text.len() {
            return None;
        }
        return Some(Statement::Do(two));
    }
    let by = read_parameter(text, from + 1, items)?;
    if by.at != text.len() {
        return None;
    }
    Some(Statement::Do(Do {
        by: by.value,
        sizes: two.sizes.join(by.sizes),
        ..two
    }))
}

// The parameters, from the place after the equals sign on: `name` is told that place.
fn read_parameters(
    text: &[u8],
    items: &mut [u64],
    last: Number,
    name: Read<Name>,
) -> Option<Statement>
    requires { (name.at ≤ length text.now) × (5 * length text.now ≤ length items.old) }
    ensures { EndsDo text.now name.at last name.value name.sizes result }
{
    let first = read_parameter(text, name.at, items)?;
    if read_tokens::byte(text, first.at) != b',' {
        return None;
    }
    let limit = read_parameter(text, first.at + 1, items)?;
    let two = Do {
        last,
        name: name.value,
        first: first.value,
        limit: limit.value,
        by: Parameter::Constant(1),
        sizes: name.sizes.join(first.sizes.join(limit.sizes)),
    };
    read_by(text, items, limit.at, two)
}

pub fn read_do(text: &[u8], items: &mut [u64]) -> Option<Statement>
    requires { 5 * length text.now ≤ length items.old }
    ensures { result ≡ answer (read_do text.now) }
{
    if !text.starts_with(b"DO") {
        return None;
    }
    let last = read_tokens::read_number(text, 2)?;
    let name = read_tokens::read_name(text, last.at)?;
    if read_tokens::byte(text, name.at) != b'=' {
        return None;
    }
    read_parameters(
        text,
        items,
        read_forms::number_of(last.value),
        Read {
            at: name.at + 1,
            ..name
        },
    )
}
