// One number in its columns: read from a card, printed into a line.
#![tactic(auto)]

ghost use Rattle.std.specs.Prelude.{◌≡◌, ◌≤◌, ◌<◌, ◌^◌, length};
ghost use Rattle.rules_formats.specs.Fields.{zeros, digits, magnitude, field_read, blank, numeral, printed};
ghost use Rattle.run_fields.specs.Read.{below, whole, read_of};
ghost use Rattle.run_fields.specs.Put.{Digits};

// ---- read

// Blanks to the end, each counting as a 0 after n.
fn zeros(ceiling: u64, columns: &[u8], n: u64) -> Option<u64>
    requires { (n < ceiling) × (ceiling ≤ 2 ^ 32) }
    ensures { result ≡ below ceiling (zeros n columns.now) }
{
    let mut v = n;
    for c in columns {
        if *c != b' ' {
            return None;
        }
        v *= 10;
        if v >= ceiling {
            return None;
        }
    }
    Some(v)
}

// More digits after n, then blanks.
fn digits(ceiling: u64, columns: &[u8], n: u64) -> Option<u64>
    requires { (n < ceiling) × (ceiling ≤ 2 ^ 32) }
    ensures { result ≡ below ceiling (digits n columns.now) }
{
    let mut v = n;
    for i in 0..columns.len() {
        let c = columns[i];
        if !c.is_ascii_digit() {
            return zeros(ceiling, &columns[i..], v);
        }
        v = v * 10 + u64::from(c - b'0');
        if v >= ceiling {
            return None;
        }
    }
    Some(v)
}

// A digit at least.
fn magnitude(ceiling: u64, columns: &[u8]) -> Option<i64>
    requires { (10 ≤ ceiling) × (ceiling ≤ 2 ^ 32) }
    ensures { result ≡ whole (below ceiling (magnitude columns.now)) }
{
    if !columns.first()?.is_ascii_digit() {
        return None;
    }
    Some(digits(ceiling, columns, 0)? as i64)
}

// A card's columns as a number below the ceiling.
pub fn read_field(ceiling: u64, columns: &[u8]) -> Option<i64>
    requires { (10 ≤ ceiling) × (ceiling ≤ 2 ^ 32) }
    ensures { result ≡ read_of (field_read ceiling columns.now) }
{
    for i in 0..columns.len() {
        match columns[i] {
            b' ' => {}
            b'-' | b'@' => return Some(-magnitude(ceiling, &columns[i + 1..])?),
            b'+' => return magnitude(ceiling, &columns[i + 1..]),
            _ => return magnitude(ceiling, &columns[i..]),
        }
    }
    Some(0)
}

// ---- printed

// A number's digits at the end of a line; answers where they begin, if there is room.
fn put_digits(line: &mut [u8], n: u64) -> Option<usize>
    ensures { Digits n line.old line.new result }
{
    let mut left = n;
    for at in (0..line.len()).rev() {
        line[at] = b'0' + (left % 10) as u8;
        left /= 10;
        if left == 0 {
            return Some(at);
        }
    }
    None
}

// A number across a field's columns, or asterisks.
pub fn print_field(value: i64, line: &mut [u8])
    ensures { line.new ≡ printed (length line.old) value }
{
    line.fill(b' ');
    match put_digits(line, value.unsigned_abs()) {
        Some(_) if value >= 0 => {}
        Some(at) if at > 0 => line[at - 1] = b'-',
        _ => line.fill(b'*'),
    }
}
