// What names mean in a program, and its codes (JVMS 5.4.3, 5.4.5).
use crate::{Key, Target};
use class_model::{Code, MemberRef};
use jv_base::{Items, M, Name};
use run_steps::Descriptors;
use run_values::Value;
use std::alloc::Global;

/// A class of the library that objects are of which have no name with them: arrays count as of Object.
#[derive(Clone, Copy)]
pub enum Known {
    Object,
    String,
    StringBuilder,
}

/// A field or a method that was found: the program has it, or it was made.
#[derive(Drop)]
pub enum Found<'a> {
    Kept(&'a Key),
    Made(Key),
}

impl<'a> Found<'a> {
    ghost use Rattle.std.specs.Prelude.{◌≡◌};
    ghost use Rattle.run_heap.specs.Targets.{key_found};

    /// The field or the method.
    pub fn key(&self) -> &Key
        ensures { result.now ≡ key_found self.now }
    {
        match self {
            Found::Kept(key) => *key,
            Found::Made(key) => key,
        }
    }
}

/// A program as the machine sees it. A name that means nothing in it gives nothing.
pub trait Shapes: Descriptors {
    ghost use Rattle.std.specs.Option.{option_map};
    ghost use Rattle.std.specs.Prelude.{◌≡◌, IfOk, Option, option_copied};
    ghost use Rattle.class_model.specs.declared.code.Code.{Code};
    ghost use Rattle.jvm_model.specs.Program.{Shape};
    ghost use Rattle.jvm_model.specs.Value.{Key};
    ghost use Rattle.run_heap.specs.Targets.{HasConstants, IsTarget, key_found, known_name};

    ghost shape: { Self → Shape };

    ghost code_of: { Self → Key → Option Code };

    /// Whether a class is another one or one of its supertypes is (JLS 4.10.2).
    fn is_sub(&self, class: &Name, other: &Name) -> bool
        ensures { result ≡ (shape self.now).is_sub class.now other.now };

    /// The name of a class of the library.
    fn name_of(&self, class: Known) -> &Name
        ensures { result.now ≡ known_name class };

    /// Whether a class is one of the library, which is initialised before the program begins.
    fn is_library(&self, class: &Name) -> bool
        ensures { result ≡ (shape self.now).is_library class.now };

    /// The field of a reference (JVMS 5.4.3.2).
    fn field(&self, reference: &MemberRef) -> M<Option<Found<'_>>>
        ensures { IfOk result (λ found. option_map key_found found ≡ (shape self.now).field reference.now) };

    /// What invokestatic runs (JVMS 6.5.invokestatic).
    fn static_target(&self, method: &MemberRef) -> M<Option<Target>>
        ensures { IfOk result (λ target. IsTarget target ((shape self.now).static_target method.now)) };

    /// What invokespecial runs in a class (JVMS 6.5.invokespecial).
    fn special_target(&self, from: &Name, method: &MemberRef) -> M<Option<Target>>
        ensures { IfOk result (λ target. IsTarget target ((shape self.now).special_target from.now method.now)) };

    /// What invokevirtual or invokeinterface runs on a receiver of a class (JVMS 6.5.invokevirtual,
    /// 6.5.invokeinterface).
    fn selected_target(&self, class: &Name, method: &MemberRef) -> M<Option<Target>>
        ensures { IfOk result (λ target. IsTarget target ((shape self.now).selected_target class.now method.now)) };

    /// The same on an array (JLS 4.10.3, 10.8).
    fn array_target(&self, method: &MemberRef) -> M<Option<Target>>
        ensures { IfOk result (λ target. IsTarget target ((shape self.now).array_target method.now)) };

    /// The classes that are initialised before a class (JVMS 5.5, step 7).
    fn firsts(&self, alloc: Global, class: &Name) -> M<Items<Name>>
        ensures { IfOk result (λ names. names ≡ (shape self.now).firsts class.now) };

    /// The class or interface initialisation method of a class, if it has one (JVMS 2.9).
    fn clinit(&self, class: &Name) -> M<Option<Key>>
        ensures { IfOk result (λ key. key ≡ (shape self.now).clinit class.now) };

    /// Fields of a class, among them each that has an attribute ConstantValue (JVMS 4.7.2).
    fn fields_of(&self, alloc: Global, class: &Name) -> M<Items<Key>>
        ensures { IfOk result (λ keys. HasConstants (shape self.now) class.now keys) };

    /// The value of the attribute ConstantValue of a field, if it has one (JVMS 4.7.2).
    fn constant(&self, key: &Key) -> M<Option<Value>>
        ensures { IfOk result (λ value. value ≡ (shape self.now).constant key.now) };

    /// The code of a method, if it has one (JVMS 4.7.3).
    fn code(&self, key: &Key) -> Option<&Code>
        ensures { option_copied result ≡ code_of self.now key.now };
}
