// What is refused: the rule that is broken, and where. A reason's number is 01's.
#![tactic(auto)]

ghost use Rattle.std.specs.Prelude.{◌≡◌};
ghost use Rattle.refusals.specs.Numbers.{number_of};

#[derive(Clone, Copy, PartialEq, Eq, Debug)]
pub enum Reason {
    Digits = 1,
    DeckLength = 2,
    Character = 3,
    NumberColumns = 4,
    Continuation = 5,
    Empty = 6,
    Statements = 7,
    Form = 10,
    Name = 11,
    Constant = 12,
    Number = 13,
    Parentheses = 14,
    Dimension = 15,
    Element = 16,
    Table = 18,
    End = 20,
    DefinedTwice = 21,
    Undefined = 22,
    Range = 23,
    Jump = 24,
    Variable = 25,
    Room = 30,
    Contents = 40,
    Limits = 41,
    Entry = 42,
    Instruction = 43,
    Heights = 44,
    StoreLength = 50,
    StoreNumber = 51,
    State = 52,
}

impl Reason {
    pub fn number(self) -> u32
        ensures { result ≡ number_of self }
    {
        self as u32
    }
}

// With the place that 01 gives each rule, and the kind of the body, 0 where there is none.
#[derive(Clone, Copy, PartialEq, Eq, Debug)]
pub struct Refusal {
    pub reason: Reason,
    pub place: u32,
    pub kind: u32,
}

impl Refusal {
    // Of no place.
    pub fn of(reason: Reason) -> Refusal
        ensures { result ≡ record { reason = reason; place = 0; kind = 0 } }
    {
        Refusal {
            reason,
            place: 0,
            kind: 0,
        }
    }
}
