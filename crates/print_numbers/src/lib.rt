// Words, numerals, signed numbers and subscripts, written into a lent output from a place on. Each function answers the place after what it wrote.
#![tactic(auto)]

ghost use Rattle.std.specs.Prelude.{◌<◌};
ghost use Rattle.rules_program.specs.Text.{numeral, signed, stated, subscripts};
ghost use Rattle.print_numbers.specs.Puts.{Room, Puts};

pub fn put_words(out: &mut [u8], at: usize, words: &[u8]) -> usize
    requires { Room words.now at out.old }
    ensures { Puts words.now at out.old out.new result }
{
    let end = at + words.len();
    out[at..end].copy_from_slice(words);
    end
}

// The digits before the last, then the last.
pub fn put_numeral(out: &mut [u8], at: usize, n: u64) -> usize
    requires { Room (numeral n) at out.old }
    ensures { Puts (numeral n) at out.old out.new result }
{
    let digit = b'0' + (n % 10) as u8;
    if n < 10 {
        out[at] = digit;
        return at + 1;
    }
    let end = put_numeral(out, at, n / 10);
    out[end] = digit;
    end + 1
}

pub fn put_stated(out: &mut [u8], at: usize, words: &[u8], n: u64) -> usize
    requires { Room (stated words.now n) at out.old }
    ensures { Puts (stated words.now n) at out.old out.new result }
{
    let end = put_words(out, at, words);
    put_numeral(out, end, n)
}

pub fn put_signed(out: &mut [u8], at: usize, v: i64) -> usize
    requires { Room (signed v) at out.old }
    ensures { Puts (signed v) at out.old out.new result }
{
    let size = v.unsigned_abs();
    if v < 0 {
        let end = put_words(out, at, b"-");
        return put_numeral(out, end, size);
    }
    put_numeral(out, at, size)
}

// Of the element that has i elements before it; they lie by columns.
pub fn put_subscripts(out: &mut [u8], at: usize, rows: usize, columns: usize, i: usize) -> usize
    requires { (i < 4096) × Room (subscripts rows columns i) at out.old }
    ensures { Puts (subscripts rows columns i) at out.old out.new result }
{
    if rows == 0 {
        return at;
    }
    if columns == 0 {
        let a = put_stated(out, at, b"(", (i + 1) as u64);
        return put_words(out, a, b")");
    }
    let a = put_stated(out, at, b"(", (i % rows + 1) as u64);
    let b = put_stated(out, a, b",", (i / rows + 1) as u64);
    put_words(out, b, b")")
}
