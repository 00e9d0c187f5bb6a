// What is refused at a statement: a reason, and the statement's own kind of place.
#![tactic(auto)]

ghost use Rattle.std.specs.Prelude.{◌≡◌};
ghost use Rattle.refused_statements.specs.Places.{as_refusal};

use read_cards::Sequence;
use refusals::{Reason, Refusal};

// The place is 0 for a deck of no statement.
#[derive(Clone, Copy, PartialEq, Eq, Debug)]
pub struct AtStatement {
    pub reason: Reason,
    pub place: Sequence,
}

impl From<AtStatement> for Refusal {
    ghost from_gives = { λ at refusal. refusal ≡ as_refusal at };

    fn from(at: AtStatement) -> Refusal {
        Refusal {
            reason: at.reason,
            place: at.place.0,
            kind: 0,
        }
    }
}
