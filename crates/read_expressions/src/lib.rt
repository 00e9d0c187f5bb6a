// Readers of expressions: three functions that call each other in a cycle, each on a part of the text, and write postfix items.
#![tactic(auto)]

ghost use Rattle.std.specs.Prelude.{◌+◌, ◌*◌, ◌<◌, ◌≤◌, length};
ghost use Rattle.rules_text.specs.Grammar.{parse, Mode};
ghost use Rattle.read_items.specs.Parsed.{Parsed};

use read_tokens::{Read, Sizes};

// This loop and that of `term` stay two: no proof goes through a cycle of calls by a function that is handed on.
#[cycle(expression_factor_term)]
pub fn expression(s: &[u8], items: &mut [u64], n: usize) -> Option<Read<usize>>
    requires { n + 5 * length s.now ≤ length items.old }
    ensures { Parsed s.now items.old items.new n (parse Mode.an_expression s.now) result }
{
    let c = read_tokens::byte(s, 0);
    let sign = read_operators::sign_len(c);
    let first = term(&s[sign..], items, n)?;
    let mut read = Read {
        at: sign + first.at,
        value: read_operators::put_sign(items, first.value, c == b'-'),
        sizes: first.sizes,
    };
    while let Some(op) = read_operators::sum_op(read_tokens::byte(s, read.at)) {
        let next = term(&s[read.at + 1..], items, read.value)?;
        items[next.value] = op;
        read = Read {
            at: read.at + 1 + next.at,
            value: next.value + 1,
            sizes: read.sizes.join(next.sizes),
        };
    }
    Some(read)
}

#[cycle(expression_factor_term)]
fn term(s: &[u8], items: &mut [u64], n: usize) -> Option<Read<usize>>
    requires { n + 5 * length s.now ≤ length items.old }
    ensures { Parsed s.now items.old items.new n (parse Mode.a_term s.now) result }
{
    let mut read = factor(s, items, n)?;
    while let Some(op) = read_operators::product_op(read_tokens::byte(s, read.at)) {
        let next = factor(&s[read.at + 1..], items, read.value)?;
        items[next.value] = op;
        read = Read {
            at: read.at + 1 + next.at,
            value: next.value + 1,
            sizes: read.sizes.join(next.sizes),
        };
    }
    Some(read)
}

#[cycle(expression_factor_term)]
fn factor(s: &[u8], items: &mut [u64], n: usize) -> Option<Read<usize>>
    requires { n + 5 * length s.now ≤ length items.old }
    ensures { Parsed s.now items.old items.new n (parse Mode.a_factor s.now) result }
{
    if read_tokens::byte(s, 0) != b'(' {
        return read_items::operand(s, items, n);
    }
    let inner = expression(&s[1..], items, n)?;
    let end = inner.at + 1;
    if read_tokens::byte(s, end) != b')' {
        return None;
    }
    Some(Read {
        at: end + 1,
        value: inner.value,
        sizes: Sizes {
            levels: inner.sizes.levels + 1,
            ..inner.sizes
        },
    })
}
