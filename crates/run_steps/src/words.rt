// Words of the stack (JVMS 6.5.pop, 6.5.dup, 6.5.swap and the like).
ghost use Rattle.jvm_model.specs.Instructions.{OnStack};
ghost use Rattle.jvm_model.specs.Stack.{doubled, dropped, swapped};
ghost use Rattle.run_steps.specs.Outcomes.{Does, DoesAs};
ghost use Rattle.run_steps.specs.Frames.{body_of};
ghost use Rattle.jvm_model.specs.Local.{by_sort};
ghost use Rattle.std.specs.Prelude.{◌≡◌, ◌-◌, ◌<◌, ◌^◌, Some};

use crate::{Body, Outcome};
use jv_base::M;

/// Nothing is done (JVMS 6.5.nop).
pub(crate) fn pass(body: &mut Body) -> Outcome<'static>
    requires { body.old.at < 2 ^ 64 - 1 }
    ensures { Does result body.old body.new (by_sort (body_of body.old) (OnStack Some)) }
{
    body.go_on();
    Outcome::Moves
}

/// So many words are dropped (JVMS 6.5.pop, 6.5.pop2).
pub(crate) fn drop_words(body: &mut Body, count: u8) -> Outcome<'static>
    requires { body.old.at < 2 ^ 64 - 1 }
    ensures { Does result body.old body.new (by_sort (body_of body.old) (OnStack (dropped count))) }
{
    if body.stack.drop_words(count) {
        body.go_on();
        Outcome::Moves
    } else {
        Outcome::Stuck
    }
}

/// So many words are put once more, under so many others (JVMS 6.5.dup and the like).
pub(crate) fn double_words(body: &mut Body, copied: u8, under: u8) -> M<Outcome<'static>>
    requires { body.old.at < 2 ^ 64 - 1 }
    ensures { DoesAs result body.old body.new (OnStack (doubled copied under)) }
{
    if body.stack.double_words(copied, under)? {
        body.go_on();
        Ok(Outcome::Moves)
    } else {
        Ok(Outcome::Stuck)
    }
}

/// Two words are exchanged (JVMS 6.5.swap).
pub(crate) fn swap_words(body: &mut Body) -> M<Outcome<'static>>
    requires { body.old.at < 2 ^ 64 - 1 }
    ensures { DoesAs result body.old body.new (OnStack swapped) }
{
    if body.stack.swap_words()? {
        body.go_on();
        Ok(Outcome::Moves)
    } else {
        Ok(Outcome::Stuck)
    }
}
