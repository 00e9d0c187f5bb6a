// The program's control card.
#![tactic(auto)]

ghost use Rattle.std.specs.Prelude.{◌≡◌, ◌≤◌, ◌==◌, length, IfSome};
ghost use Rattle.std.specs.List.{list_all};
ghost use Rattle.rules_program.specs.Program.{first_column, control_digits};
ghost use Rattle.refusals.specs.Answers.{maybe};

pub const CARD: usize = 80;

fn is_blank(columns: &[u8]) -> bool
    ensures { result ≡ list_all (λ c. c == 32) columns.now }
{
    columns.iter().all(|c| *c == b' ')
}

// The digits that column 1 says.
fn first_column(c: u8) -> Option<u32>
    ensures { maybe (λ k. k) result ≡ first_column c }
{
    match c {
        b' ' => Some(5),
        b'1'..=b'9' => Some(u32::from(c - b'0')),
        _ => None,
    }
}

// The digits on the control card that an input begins with.
pub fn control(input: &[u8]) -> Option<u32>
    ensures digits { maybe (λ k. k) result ≡ control_digits input.now }
    ensures card { IfSome result (λ k. 80 ≤ length input.now) }
{
    if input.len() < CARD || !is_blank(&input[1..CARD]) {
        return None;
    }
    first_column(input[0])
}
