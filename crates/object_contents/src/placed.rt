// An object's bytes, where its bodies stand in them, and the rule of its numbers.

ghost use Rattle.std.specs.Prelude.{◌≡◌};
ghost use Rattle.number.specs.Code.{ruled};
ghost use Rattle.rules_object.specs.Object.{rule_of};
ghost use Rattle.object_contents.specs.Layout.{Placed, object_at};
ghost use Rattle.object_contents.specs.Proposition.{placed_prop, ruled_prop};

use crate::Layout;
use number::Rule;

#[derive(Clone, Copy)]
pub struct Object<'a> {
    pub bytes: &'a [u8],
    pub layout: Layout,
    pub rule: Rule,
    ghost placed: { Placed layout bytes.now } by { placed_prop layout bytes.now },
    ghost ruled: { ruled rule ≡ rule_of (object_at layout bytes.now) } by { ruled_prop rule layout bytes.now },
}
