// The reader of a statement's text. No text is of two forms, so the order in which they are tried does not matter.
#![tactic(auto)]

ghost use Rattle.std.specs.Prelude.{◌*◌, ◌≤◌, length};
ghost use Rattle.rules_text.specs.Grammar.{form_of};
ghost use Rattle.read_forms.specs.Statements.{Reads};

use read_forms::Statement;

// None is refused 10.
pub fn read(text: &[u8], items: &mut [u64]) -> Option<Statement>
    requires { 5 * length text.now ≤ length items.old }
    ensures { Reads items.new (form_of text.now) result }
{
    if let Some(assigned) = read_forms::read_assignment(text, items) {
        return Some(assigned);
    }
    if let Some(jump) = read_forms::read_go_to(text) {
        return Some(jump);
    }
    if let Some(computed) = read_lists::read_computed(text, items) {
        return Some(computed);
    }
    if let Some(tested) = read_forms::read_if(text, items) {
        return Some(tested);
    }
    if let Some(looped) = read_dos::read_do(text, items) {
        return Some(looped);
    }
    if let Some(word) = read_forms::read_word(text) {
        return Some(word);
    }
    read_lists::read_dimension(text, items)
}
