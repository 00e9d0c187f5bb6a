// The operations of the machine by number, and why a run halts.
#![tactic(auto)]

ghost use Rattle.std.specs.Prelude.{◌≡◌};
ghost use Rattle.object_opcodes.specs.Halts.{number_of};

pub const HLT: u32 = 0;

pub const CON: u32 = 1;

pub const LOD: u32 = 2;

pub const STO: u32 = 3;

pub const LDE: u32 = 4;

pub const STE: u32 = 5;

pub const ADD: u32 = 6;

pub const SUB: u32 = 7;

pub const MUL: u32 = 8;

pub const DIV: u32 = 9;

pub const NEG: u32 = 10;

pub const JMP: u32 = 11;

pub const BR3: u32 = 12;

pub const BRC: u32 = 13;

pub const DOI: u32 = 14;

pub const DOE: u32 = 15;

pub const READ: u32 = 16;

pub const PRINT: u32 = 17;

// Why a run halts. A halt's number is 01's.
#[derive(Clone, Copy, PartialEq, Eq, Debug)]
pub enum Halt {
    Stop = 0,
    End = 1,
    Allowance = 2,
    DivideByZero = 3,
    BadSubscript = 4,
    BadExit = 5,
    BadParameter = 6,
    BadStack = 7,
    BadInstruction = 8,
    RanOut = 9,
    BadField = 10,
}

impl Halt {
    pub fn number(self) -> u32
        ensures { result ≡ number_of self }
    {
        self as u32
    }
}
