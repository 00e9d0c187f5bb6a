// Words in bytes: u32, little-endian; the top eight bits of an instruction name the operation, the low twenty-four the operand.
#![tactic(auto)]

ghost use Rattle.std.specs.Prelude.{◌≡◌, ◌+◌, ◌*◌, ◌/◌, ◌%◌, ◌^◌, ◌≤◌, ◌<◌, ◌++◌, length, take, drop};
ghost use Rattle.rules_object.specs.Bytes.{word_bytes};
ghost use Rattle.object_words.specs.Word.{word_at};

// The word whose first byte is at `at`.
pub fn load(s: &[u8], at: usize) -> u32
    requires { at + 4 ≤ length s.now }
    ensures { result ≡ word_at s.now at }
{
    u32::from_le_bytes([s[at], s[at + 1], s[at + 2], s[at + 3]])
}

pub fn index(w: u32) -> usize
    ensures { result ≡ w }
{
    w as usize
}

pub fn operation(w: u32) -> u32
    ensures { (result ≡ w / 2 ^ 24) × (result < 256) }
{
    w >> 24
}

pub fn operand(w: u32) -> u32
    ensures { (result ≡ w % 2 ^ 24) × (result < 2 ^ 24) }
{
    w & 0xff_ffff
}

// One instruction as a word.
pub fn pack(op: u32, operand: u32) -> u32
    requires { (op < 256) × (operand < 2 ^ 24) }
    ensures { result ≡ op * 2 ^ 24 + operand }
{
    (op << 24) | operand
}

// The word at `at`; the other bytes stay.
pub fn store(out: &mut [u8], at: usize, w: u32)
    requires { at + 4 ≤ length out.old }
    ensures { out.new ≡ take at out.old ++ (word_bytes w ++ drop (at + 4) out.old) }
{
    out[at..at + 4].copy_from_slice(&w.to_le_bytes());
}
