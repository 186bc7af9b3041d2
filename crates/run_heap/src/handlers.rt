// Which handler catches an object (JVMS 2.10, 4.7.3).
ghost use Rattle.std.specs.Prelude.{◌≡◌, false, option_copied, true};
ghost use Rattle.std.specs.Option.{option_map, option_map_or};
ghost use Rattle.jvm_model.specs.Heap.{class_of};
ghost use Rattle.jvm_model.specs.Local.{handler_for, handles};
ghost use Rattle.jvm_model.specs.Unwinding.{is_of_class};
ghost use Rattle.run_heap.specs.Worlds.{object_of};

use crate::{Known, Object, Shapes};
use class_model::Handler;
use jv_base::Name;

/// The class of an object by name; that of an array counts as Object.
pub fn class_of(object: &Object) -> &str
    ensures { result.now ≡ class_of (object_of object.now) }
{
    match object {
        Object::Instance(instance) => instance.class.as_str(),
        Object::Array { .. } => "java/lang/Object",
        Object::Text(_) => "java/lang/String",
        Object::Builder(_) => "java/lang/StringBuilder",
    }
}

/// The same as a name.
pub fn class_name<'a, S: Shapes>(shapes: &'a S, object: &'a Object) -> &'a Name
    ensures { result.now ≡ class_of (object_of object.now) }
{
    match object {
        Object::Instance(instance) => &instance.class,
        Object::Array { .. } => shapes.name_of(Known::Object),
        Object::Text(_) => shapes.name_of(Known::String),
        Object::Builder(_) => shapes.name_of(Known::StringBuilder),
    }
}

/// Where the first handler begins that covers an index and catches an object, if there is one.
pub fn handler_of<S: Shapes>(
    shapes: &S,
    object: Option<&Object>,
    at: usize,
    handlers: &[Handler],
) -> Option<u32>
    ensures { result ≡ handler_for
        (is_of_class (S.shape shapes.now) (option_map object_of (option_copied object.entry))) at handlers.now }
{
    match object {
        Some(object) => handler_for(shapes, class_name(shapes, object), at, handlers),
        None => handler_of_all(at, handlers),
    }
}

/// Where the first handler begins that covers an index and catches everything.
fn handler_of_all(at: usize, handlers: &[Handler]) -> Option<u32>
    ensures { result ≡ handler_for (λ class. false) at handlers.now }
{
    for handler in handlers {
        if handles_all(at, handler) {
            return Some(handler.entry);
        }
    }
    None
}

fn handles_all(at: usize, handler: &Handler) -> bool
    ensures { result ≡ handles (λ class. false) at handler.now }
{
    handler.from as usize <= at && at < handler.to as usize && catches_all(handler)
}

fn catches_all(handler: &Handler) -> bool
    ensures { result ≡ option_map_or (λ class. false) handler.now.caught true }
{
    match &handler.caught {
        Some(_) => false,
        None => true,
    }
}

/// Where the first handler begins that covers an index and catches objects of a class.
fn handler_for<S: Shapes>(shapes: &S, class: &Name, at: usize, handlers: &[Handler]) -> Option<u32>
    ensures { result ≡ handler_for ((S.shape shapes.now).is_sub class.now) at handlers.now }
{
    for handler in handlers {
        if handles(shapes, class, at, handler) {
            return Some(handler.entry);
        }
    }
    None
}

fn handles<S: Shapes>(shapes: &S, class: &Name, at: usize, handler: &Handler) -> bool
    ensures { result ≡ handles ((S.shape shapes.now).is_sub class.now) at handler.now }
{
    handler.from as usize <= at && at < handler.to as usize && catches(shapes, class, handler)
}

fn catches<S: Shapes>(shapes: &S, class: &Name, handler: &Handler) -> bool
    ensures { result ≡ option_map_or ((S.shape shapes.now).is_sub class.now) handler.now.caught true }
{
    match &handler.caught {
        Some(caught) => shapes.is_sub(class, caught),
        None => true,
    }
}
