// 11 to 14: tests of what the reader gives back.
#![tactic(auto)]

ghost use Rattle.std.specs.Prelude.{◌≡◌, ◌&&◌, ◌≤◌, length};
ghost use Rattle.std.specs.List.{list_all};
ghost use Rattle.take_limits.specs.Tests.{right_number, of_sizes, of_statement, exits_in};

use limits::PARENTHESES;
use read_cards::Number;
use read_forms::Statement;
use read_tokens::Sizes;
use refusals::Reason;

// Characters of a name.
const NAME_LENGTH: usize = 6;

// A number that is a word in the table.
#[tactic(auto, unfolding(crate::specs::Tests::right_number))]
fn right_word(word: u64) -> bool
    ensures { result ≡ right_number word }
{
    1 <= word && word <= 99999
}

fn right_number(n: Number) -> bool
    ensures { result ≡ right_number n.0 }
{
    right_word(u64::from(n.0))
}

fn right_words(words: &[u64]) -> bool
    ensures { result ≡ list_all right_number words.now }
{
    words.iter().all(|&word| right_word(word))
}

#[tactic(auto, unfolding(crate::specs::Tests::of_sizes))]
fn of_sizes(k: u32, sizes: Sizes, numbers: bool) -> Result<(), Reason>
    ensures { result ≡ of_sizes k sizes numbers }
{
    if NAME_LENGTH < sizes.name || sizes.other {
        return Err(Reason::Name);
    }
    if (k as usize) < sizes.constant {
        return Err(Reason::Constant);
    }
    if !numbers {
        return Err(Reason::Number);
    }
    if PARENTHESES < sizes.levels {
        return Err(Reason::Parentheses);
    }
    Ok(())
}

// The lowest number, if one of them is wrong.
#[tactic(auto, unfolding(crate::specs::Tests::of_statement, crate::specs::Tests::exits_in))]
pub fn of_statement(k: u32, items: &[u64], s: Statement) -> Result<(), Reason>
    requires { exits_in s ≤ length items.now }
    ensures { result ≡ of_statement k items.now s }
{
    match s {
        Statement::Assign(a) => of_sizes(k, a.sizes, true),
        Statement::GoTo(n) => {
            if right_number(n) {
                Ok(())
            } else {
                Err(Reason::Number)
            }
        }
        Statement::Computed(c) => of_sizes(k, c.sizes, right_words(&items[..c.exits])),
        Statement::If(i) => of_sizes(
            k,
            i.sizes,
            right_number(i.below) && right_number(i.at) && right_number(i.above),
        ),
        Statement::Do(d) => of_sizes(k, d.sizes, right_number(d.last)),
        Statement::Continue | Statement::Stop | Statement::End => Ok(()),
        Statement::Dimension(d) => of_sizes(k, d.sizes, true),
    }
}
