// Types and names that many lines share.
ghost use Rattle.std.specs.Prelude.{◌≡◌, ℕ, ◌+◌, ◌<◌, ◌≤◌, [], ◌∷◌, ◌++◌, length, Some, IfOk, nat_le};
ghost use Rattle.std.specs.Option.{option_map};
ghost use Rattle.jv_base.specs.Types as descriptor;
ghost use Rattle.jv_base.specs.Types.{argument_words};
ghost use Rattle.text_lines.specs.Members.{arguments_of, class_of, class_of_type, method_type, method_type_of};
ghost use Rattle.text_lines.specs.Members.{result_of, type_of};
ghost use Rattle.text_lines.specs.bodies.Shared.{IsPushed, KeepsTold};

use crate::cut;
use crate::table::{Told, Trees, keep_value, kept_value, no_values};
use jv_base::{
    Base, FieldType, Items, M, MethodType, Name, Or, OutOfMemory, Text, method_text, read_external,
    words_of,
};
use std::alloc::Global;
use std::collections::BTreeSet;

/// The types and names of a text, each kept once however many lines have it. A look-up takes the logarithm of how
/// many there are at most, whatever they are.
#[derive(Drop)]
pub struct Known<'a> {
    types: Trees<'a, FieldType>,
    names: Trees<'a, Name>,
    descriptors: BTreeSet<Text>,
    ghost types_told: { KeepsTold (λ text ty. type_of text ≡ Some ty) types.items },
    ghost names_told: { KeepsTold (λ text name. name ≡ text) names.items },
}

impl Told for FieldType {
    ghost told_by = { λ text ty. type_of text ≡ Some ty };
}

impl Told for Text {
    ghost told_by = { λ text name. name ≡ text };
}

impl<'a> Known<'a> {
    /// Nothing is kept yet of a text of so many bytes.
    pub fn new(alloc: Global, length: usize) -> M<Known<'a>> {
        let count = tree_count(length);
        let types = no_values(alloc, count)?;
        let names = no_values(alloc, count)?;
        Ok(Known {
            types,
            names,
            descriptors: BTreeSet::new(alloc),
        })
    }

    /// The type that a text spells as Java source does, if it spells one.
    pub fn field_type(&mut self, alloc: Global, text: &'a str) -> M<Option<FieldType>>
        ensures { IfOk result (λ ty. ty ≡ type_of text.now) }
    {
        if let Some(ty) = kept_value(&self.types, text) {
            return Ok(Some(copy_of(ty)?));
        }
        let Some(ty) = read_type(alloc, text)? else {
            return Ok(None);
        };
        keep_value(&mut self.types, text, copy_of(&ty)?)?;
        Ok(Some(ty))
    }

    /// The class name, in internal form, that a text spells with dots, if it spells one.
    pub fn class_name(&mut self, alloc: Global, text: &'a str) -> M<Option<Name>>
        ensures { IfOk result (λ name. name ≡ class_of text.now) }
    {
        match self.field_type(alloc, text)? {
            Some(ty) => Ok(class_of_type(ty)),
            None => Ok(None),
        }
    }

    /// A text that is a name, as one that is kept.
    pub fn name(&mut self, alloc: Global, text: &'a str) -> M<Name>
        ensures { IfOk result (λ name. name ≡ text.now) }
    {
        if let Some(name) = kept_value(&self.names, text) {
            return Ok(name.clone()?);
        }
        let name = Text::from_str(alloc, text)?;
        keep_value(&mut self.names, text, name.clone()?)?;
        Ok(name)
    }

    /// The type of a method, by the texts of its result and of its parameters, with a comma between two.
    pub fn method_type(
        &mut self,
        alloc: Global,
        ret: &'a str,
        args: &'a str,
    ) -> M<Option<MethodType>>
        ensures { IfOk result (λ ty. ty ≡ method_type_of ret.now args.now) }
    {
        let Some(ret) = self.result_type(alloc, ret)? else {
            return Ok(None);
        };
        let Some(args) = self.argument_types(alloc, args)? else {
            return Ok(None);
        };
        Ok(method_type(ret, args))
    }

    /// The descriptor of a method's type that two texts spell so, kept once however many methods have it.
    pub fn descriptor(&mut self, alloc: Global, ret: &'a str, args: &'a str) -> M<Option<Text>>
        ensures { IfOk result (λ text. text ≡ option_map descriptor.method_text (method_type_of ret.now args.now)) }
    {
        match self.method_type(alloc, ret, args)? {
            Some(ty) => {
                let text = method_text(alloc, &ty)?;
                Ok(Some(shared(&mut self.descriptors, text)?))
            }
            None => Ok(None),
        }
    }

    fn result_type(&mut self, alloc: Global, text: &'a str) -> M<Option<Option<FieldType>>>
        ensures { IfOk result (λ ret. ret ≡ result_of text.now) }
    {
        if text == "void" {
            return Ok(Some(None));
        }
        match self.field_type(alloc, text)? {
            Some(ty) => Ok(Some(Some(ty))),
            None => Ok(None),
        }
    }

    fn argument_types(&mut self, alloc: Global, text: &'a str) -> M<Option<Items<FieldType>>>
        ensures { IfOk result (λ args. args ≡ arguments_of text.now) }
    {
        let mut types = Items::new(alloc);
        if text.is_empty() {
            return Ok(Some(types));
        }
        let mut rest = text;
        while let Some((first, others)) = cut(rest, ',') {
            if !self.push_type(alloc, &mut types, first)? {
                return Ok(None);
            }
            rest = others;
        }
        if !self.push_type(alloc, &mut types, rest)? {
            return Ok(None);
        }
        Ok(Some(types))
    }

    // Appends the type that a text spells, and answers whether it spells one.
    fn push_type(&mut self, alloc: Global, types: &mut Items<FieldType>, text: &'a str) -> M<bool>
        ensures { IfOk result (λ found. IsPushed found types.old types.new (type_of text.now)) }
    {
        match self.field_type(alloc, text)? {
            Some(ty) => {
                types.push(ty)?;
                Ok(true)
            }
            None => Ok(false),
        }
    }
}

// How many trees serve for a text of so many bytes: one for each 2 KiB, within bounds.
fn tree_count(length: usize) -> usize {
    (length / 2048).clamp(1, 65_536)
}

// A type once more. Its name is shared.
fn copy_of(ty: &FieldType) -> M<FieldType>
    ensures { IfOk result (λ copy. copy ≡ ty.now) }
{
    Ok(ty.clone()?)
}

// A text, as the one that is kept.
fn shared(kept: &mut BTreeSet<Text>, text: Text) -> M<Text>
    ensures { IfOk result (λ same. same ≡ text) }
{
    if let Some(same) = kept.get(&text) {
        return Ok(same.clone()?);
    }
    kept.insert(text.clone()?)?;
    Ok(text)
}

// The type that a text spells; a text of 4 GiB is want of memory.
fn read_type(alloc: Global, text: &str) -> M<Option<FieldType>>
    ensures { IfOk result (λ ty. ty ≡ type_of text.now) }
{
    if text.len() >= u32::MAX as usize {
        return Err(OutOfMemory);
    }
    match read_external(alloc, &Text::from_str(alloc, text)?) {
        Ok(ty) => Ok(Some(ty)),
        Err(Or::Fault(_)) => Ok(None),
        Err(Or::OutOfMemory) => Err(OutOfMemory),
    }
}

// The name of a type that is a class.
fn class_of_type(ty: FieldType) -> Option<Name>
    ensures { result ≡ class_of_type ty }
{
    match ty {
        FieldType {
            dims: 0,
            base: Base::Class(name),
        } => Some(name),
        _ => None,
    }
}

// The type of a method whose parameters take at most 255 words.
fn method_type(ret: Option<FieldType>, args: Items<FieldType>) -> Option<MethodType>
    ensures { result ≡ method_type ret args }
{
    if fit_in_words(args.as_slice()) {
        Some(MethodType { args, ret })
    } else {
        None
    }
}

#[tactic(auto, unfolding(jv_base::specs::Types::argument_words))]
fn fit_in_words(args: &[FieldType]) -> bool
    ensures { result ≡ nat_le (argument_words args.now) 255 }
{
    let mut words = 0;
    for arg in args {
        words += words_of(arg);
        if words > 255 {
            return false;
        }
    }
    true
}
