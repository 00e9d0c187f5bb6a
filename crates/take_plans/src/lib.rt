// What a statement asks of the draft, in one shape for all forms.
#![tactic(auto)]

ghost use Rattle.std.specs.Prelude.{◌≡◌, ◌+◌, ◌≤◌, length};
ghost use Rattle.read_items.specs.Parsed.{Put};
ghost use Rattle.take_draft.specs.Parts.{parameter_words};
ghost use Rattle.take_plans.specs.Plans.{bare, parameters_words, Planned, first_words};

use read_cards::Number;
use read_elements::Target;
use read_forms::{Do, Parameter, Statement};
use take_kinds::Kind;

#[derive(Clone, Copy)]
pub struct Plan {
    pub kind: Kind,
    // what stands first: an assignment's target, a computed GO TO's variable or a DO's
    pub target: Target,
    // words of the items
    pub count: usize,
    // numbers or arrays in the table
    pub listed: usize,
    // statement numbers; a GO TO's and a DO's is the first
    pub below: Number,
    pub at: Number,
    pub above: Number,
}

// Of a form that has nothing but its kind.
fn bare(kind: Kind) -> Plan
    ensures { result ≡ bare kind }
{
    let none = Number(0);
    Plan {
        kind,
        target: Target::Cell(read_tokens::no_name()),
        count: 0,
        listed: 0,
        below: none,
        at: none,
        above: none,
    }
}

#[tactic(auto, unfolding(take_draft::specs::Parts::parameter_words))]
fn put_parameter(items: &mut [u64], n: usize, parameter: Parameter) -> usize
    requires { n + 5 ≤ length items.old }
    ensures { Put items.old items.new n (parameter_words parameter) result }
{
    match parameter {
        Parameter::Constant(word) => read_items::put_two(items, n, 1, word),
        Parameter::Variable(name) => read_items::put_named(items, n, 2, name),
    }
}

#[tactic(auto, using(crate::proofs::Room::parameter_room, read_items::proofs::Tables::put_more))]
fn put_parameters(items: &mut [u64], d: Do) -> usize
    requires { 15 ≤ length items.old }
    ensures { Put items.old items.new 0 (parameters_words d) result }
{
    let a = put_parameter(items, 0, d.first);
    let b = put_parameter(items, a, d.limit);
    put_parameter(items, b, d.by)
}

// A DO's parameters become items.
#[tactic(auto, unfolding(crate::specs::Plans::plan_of, crate::specs::Plans::Laid))]
pub fn plan_of(s: Statement, items: &mut [u64]) -> Plan
    requires { 15 ≤ length items.old }
    ensures { Planned s items.old items.new result }
{
    match s {
        Statement::Assign(a) => Plan {
            target: a.target,
            count: a.count,
            ..bare(Kind::Assignment)
        },
        Statement::GoTo(below) => Plan {
            below,
            ..bare(Kind::GoTo)
        },
        Statement::Computed(c) => Plan {
            target: Target::Cell(c.name),
            listed: c.exits,
            ..bare(Kind::Computed)
        },
        Statement::If(i) => Plan {
            count: i.count,
            below: i.below,
            at: i.at,
            above: i.above,
            ..bare(Kind::If)
        },
        Statement::Do(d) => Plan {
            target: Target::Cell(d.name),
            count: put_parameters(items, d),
            below: d.last,
            ..bare(Kind::Do)
        },
        Statement::Continue => bare(Kind::Continue),
        Statement::Stop => bare(Kind::Stop),
        Statement::End => bare(Kind::End),
        Statement::Dimension(d) => Plan {
            listed: d.arrays,
            ..bare(Kind::Dimension)
        },
    }
}

// The words of what stands first, if anything does.
#[tactic(auto, using(crate::proofs::Room::target_room), unfolding(crate::specs::Plans::first_words))]
pub fn put_first(p: Plan, first: &mut [u64]) -> usize
    requires { 20 ≤ length first.old }
    ensures { Put first.old first.new 0 (first_words p) result }
{
    match p.kind {
        Kind::Assignment | Kind::Computed | Kind::Do => read_items::put_target(first, 0, p.target),
        _ => 0,
    }
}
