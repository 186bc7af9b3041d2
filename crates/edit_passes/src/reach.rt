// What reach finds: instructions that control never reaches.
ghost use Rattle.std.specs.Prelude.{◌≡◌, ◌<◌, ◌+◌, IfOk, None, length};
ghost use Rattle.code_edit.specs.declared.act.Pass.TheVariants as pass;
ghost use Rattle.code_edit.specs.Passes.{IsReachEdits, runs};
ghost use Rattle.code_edit.specs.SoundCode.{IsSound};

use crate::finding::found_in;
use class_model::Code;
use code_edit::{Act, Pass, PassEdits};
use jv_base::{Items, M};
use std::alloc::Global;

/// A drop of each maximal run of indices without a mark.
fn runs(alloc: Global, marks: &[bool]) -> M<Items<Act>>
    requires { length marks.now < 4294967295 }
    ensures { IfOk result (λ acts. acts ≡ runs 0 None marks.now) }
{
    let mut acts = Items::new(alloc);
    let mut began: Option<u32> = None;
    let mut at: u32 = 0;
    for mark in marks {
        match began {
            Some(from) => {
                if *mark {
                    acts.push(Act::Drop {
                        from,
                        to: at.saturating_sub(1),
                    })?;
                    began = None;
                }
            }
            None => {
                if !*mark {
                    began = Some(at);
                }
            }
        }
        at += 1;
    }
    if let Some(from) = began {
        acts.push(Act::Drop {
            from,
            to: at.saturating_sub(1),
        })?;
    }
    Ok(acts)
}

/// The acts of reach: a drop of each maximal run of indices that control doesn't reach, in the
/// order of the code. Each round goes over all that was found; one more comes only where handlers
/// were entered.
pub fn reach_edits(alloc: Global, code: &Code) -> M<PassEdits>
    requires few { length code.now.ins < 4294967295 }
    requires sound { IsSound code.now }
    ensures pass { IfOk result (λ edits. edits.pass ≡ pass.Reach) }
    ensures acts { IfOk result (λ edits. IsReachEdits code.now edits.acts) }
{
    let marks = found_in(alloc, code)?;
    let acts = runs(alloc, &marks)?;
    Ok(PassEdits {
        pass: Pass::Reach,
        acts,
    })
}
