// The signs of an expression: a leading one, and operations between terms and between factors.
#![tactic(auto)]

ghost use Rattle.std.specs.Prelude.{◌≡◌, true, ◌+◌, ◌*◌, ◌<◌, length};
ghost use Rattle.rules_text.specs.Grammar.{sum_op, product_op};
ghost use Rattle.read_operators.specs.Signs.{Signed, op_number, sign_len};

// How many bytes the leading sign takes that a byte may be.
pub fn sign_len(c: u8) -> usize
    ensures { result ≡ sign_len c }
{
    match c {
        b'+' | b'-' => 1,
        _ => 0,
    }
}

// The item of the operation between terms that a byte is.
#[tactic(auto, unfolding(crate::specs::Signs::op_number, rules_text::specs::Grammar::sum_op))]
pub fn sum_op(c: u8) -> Option<u64>
    ensures { result ≡ op_number (sum_op c) }
{
    match c {
        b'+' => Some(6),
        b'-' => Some(7),
        _ => None,
    }
}

#[tactic(auto, unfolding(crate::specs::Signs::op_number, rules_text::specs::Grammar::product_op))]
pub fn product_op(c: u8) -> Option<u64>
    ensures { result ≡ op_number (product_op c) }
{
    match c {
        b'*' => Some(8),
        b'/' => Some(9),
        _ => None,
    }
}

// Puts NEG after the first term where the sign is minus, and returns how many words there are then.
pub fn put_sign(items: &mut [u64], n: usize, minus: bool) -> usize
    requires { minus ≡ true → n < length items.old }
    ensures { Signed items.old items.new n minus result }
{
    if minus {
        items[n] = 10;
        n + 1
    } else {
        n
    }
}
