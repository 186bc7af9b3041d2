// The descriptors of methods as texts (JVMS 4.3.3).
ghost use Rattle.std.specs.Prelude.{◌≡◌, ◌++◌, [], ◌∷◌, IfOk, OnOk, map};
ghost use Rattle.class_pool.specs.bodies.Descriptors.{method_texts};

use crate::set::lookup::ClassesByName;
use class_model::Class;
use jv_base::{Items, M, Text, method_text};
use std::alloc::Global;

/// For each class the descriptors of its methods, in their order.
pub(crate) fn descriptors_of(alloc: Global, classes: &ClassesByName) -> M<Items<Items<Text>>>
    ensures { IfOk result (λ texts. texts ≡ map method_texts classes.now) }
{
    let mut texts = Items::new(alloc);
    for number in 0..classes.len() {
        texts.push(texts_of(alloc, classes.class(number))?)?;
    }
    Ok(texts)
}

fn texts_of(alloc: Global, class: &Class) -> M<Items<Text>>
    ensures { IfOk result (λ texts. texts ≡ method_texts class.now) }
{
    let mut texts = Items::new(alloc);
    for method in class.methods.as_slice() {
        push_text(&mut texts, method_text(alloc, &method.ty)?)?;
    }
    Ok(texts)
}

fn push_text(texts: &mut Items<Text>, text: Text) -> M<()>
    ensures { OnOk result (texts.new ≡ texts.old ++ text ∷ []) }
{
    let shared = as_last(texts, text)?;
    texts.push(shared)?;
    Ok(())
}

/// The text, which shares the string of the last one where they are the same.
fn as_last(texts: &Items<Text>, text: Text) -> M<Text>
    ensures { IfOk result (λ shared. shared ≡ text) }
{
    if let Some(last) = texts.as_slice().last() {
        if *last == text {
            return Ok(last.clone()?);
        }
    }
    Ok(text)
}
