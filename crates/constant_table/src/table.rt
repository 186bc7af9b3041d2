// The constants of a pool and the index of each (JVMS 4.4).
ghost use Rattle.std.specs.Prelude.{◌≡◌, ℕ, ◌+◌, ◌^◌, ◌<◌, [], ◌∷◌, ◌++◌, length, Ok, IfOk, OnOk, is_ok, if◌then◌else◌};
ghost use Rattle.std.specs.Int.{w16, to_be_bytes};
ghost use Rattle.std.specs.List.{flat_map};
ghost use Rattle.jv_base.specs.Outcome.{IsDue};
ghost use Rattle.class_model.specs.ConstantPool.{cp_info};
ghost use Rattle.class_model.specs.WriteLimits.{first_of, text_fits};
ghost use Rattle.constant_table.specs.Limits.{pool_fits};
ghost use Rattle.indexmap.specs.IndexSet.{insert_key, insert_all};
ghost use Rattle.jv_base.specs.Utf16.{units_of};
ghost use Rattle.class_model.specs.declared.constant.PoolConstant.{PoolConstant};
ghost use Rattle.class_model.specs.CanonicalPool as canonical;
ghost use Rattle.constant_table.specs.bodies.Keys.{AreKeysOf, constants_of};

use crate::finding::{index_of_key, member_numbers, method_key, type_number};
use crate::items::put_all;
use crate::key::Key;
use crate::keys::Keys;
use crate::limits::check_keys;
use crate::putting::{
    put_class, put_constant, put_field, put_int, put_long, put_method, put_string, put_text,
    put_type, put_units,
};
use crate::texts::Texts;
use class_model::{MemberRef, PoolConstant, WriteLimit};
use jv_base::{FieldType, M, Name, Or, Text, Units};
use std::alloc::Global;
use std::marker::Model;

/// The constants of a pool in the order of their indices, the first at index 1. Contracts see the list of them. Each
/// text is stored once, and the index of a constant is found without going through the others.
#[derive(Drop)]
pub struct ConstantTable {
    texts: Texts,
    keys: Keys,
}

impl Model for ConstantTable {
    ghost use Rattle.std.specs.Prelude.{List};
    ghost use Rattle.class_model.specs.declared.constant.PoolConstant.{PoolConstant};
    ghost use Rattle.constant_table.specs.bodies.Keys.{AreKeysOf, constants_of};

    ghost Value = { List PoolConstant };

    ghost view = { λ t. constants_of t.texts t.keys };

    ghost invariant = { λ t. AreKeysOf t.texts t.keys };
}

impl ConstantTable {
    /// The table without constants.
    pub fn new(alloc: Global) -> Self
        ensures { result ≡ [] }
    {
        ConstantTable {
            texts: Texts::new(alloc),
            keys: Keys::new(alloc),
        }
    }

    /// How many constants there are.
    pub fn len(&self) -> usize
        ensures { result ≡ length self.now }
    {
        self.keys.len()
    }

    /// Puts a constant behind the others, whether or not it is there. Where memory is wanting, the table is as it was.
    pub fn push(&mut self, alloc: Global, constant: PoolConstant) -> M<()>
        ensures { self.new ≡ (if is_ok result then self.old ++ constant ∷ [] else self.old) }
    {
        put_constant(alloc, &mut self.texts, &mut self.keys, &constant)
    }

    // ---- constants with their parts, each unless it is there

    /// The text of a name or a descriptor (JVMS 4.4.7).
    pub fn add_text(&mut self, alloc: Global, text: &Text) -> M<()>
        ensures { OnOk result (self.new ≡ insert_all canonical.same self.old (canonical.text_constants text.now)) }
    {
        put_text(alloc, &mut self.texts, &mut self.keys, text)
    }

    /// The text of these units.
    pub fn add_units(&mut self, alloc: Global, units: &Units) -> M<()>
        ensures { OnOk result (self.new ≡ insert_key canonical.same self.old (PoolConstant.Utf8 units.now)) }
    {
        put_units(alloc, &mut self.texts, &mut self.keys, units)
    }

    /// A class behind the text of its name (JVMS 4.4.1).
    pub fn add_class(&mut self, alloc: Global, name: &Name) -> M<()>
        ensures { OnOk result (self.new ≡ insert_all canonical.same self.old (canonical.class_constants name.now)) }
    {
        put_class(alloc, &mut self.texts, &mut self.keys, name)
    }

    /// A class or an array type behind the text of its name (JVMS 4.4.1).
    pub fn add_type(&mut self, alloc: Global, ty: &FieldType) -> M<()>
        ensures { OnOk result (self.new ≡ insert_all canonical.same self.old
            (canonical.class_constants (canonical.type_name ty.now))) }
    {
        put_type(alloc, &mut self.texts, &mut self.keys, ty)
    }

    /// A string behind its text (JVMS 4.4.3).
    pub fn add_string(&mut self, alloc: Global, units: &Units) -> M<()>
        ensures { OnOk result (self.new ≡ insert_all canonical.same self.old (canonical.string_constants units.now)) }
    {
        put_string(alloc, &mut self.texts, &mut self.keys, units)
    }

    /// An int (JVMS 4.4.4).
    pub fn add_int(&mut self, number: i32) -> M<()>
        ensures { OnOk result (self.new ≡ insert_all canonical.same self.old (PoolConstant.Integer number ∷ [])) }
    {
        put_int(&self.texts, &mut self.keys, number)
    }

    /// A long with the second index that it takes (JVMS 4.4.5).
    pub fn add_long(&mut self, number: i64) -> M<()>
        ensures { OnOk result (self.new ≡ insert_all canonical.same self.old (canonical.long_constants number)) }
    {
        put_long(&self.texts, &mut self.keys, number)
    }

    /// A field behind its class and its name and type (JVMS 4.4.2).
    pub fn add_field(&mut self, alloc: Global, field: &MemberRef) -> M<()>
        ensures { OnOk result (self.new ≡ insert_all canonical.same self.old
            (canonical.with_parts field.now (canonical.fieldref field.now))) }
    {
        put_field(alloc, &mut self.texts, &mut self.keys, field)
    }

    /// A method behind its class and its name and type (JVMS 4.4.2).
    pub fn add_method(&mut self, alloc: Global, method: &MemberRef) -> M<()>
        ensures { OnOk result (self.new ≡ insert_all canonical.same self.old
            (canonical.with_parts method.now (canonical.methodref method.now))) }
    {
        put_method(alloc, &mut self.texts, &mut self.keys, method)
    }

    // ---- a pool that is written

    /// The first limit that the pool passes: that of its count, and then those of its texts (JVMS 4.1, 4.4.7).
    pub fn check_limits(&self, alloc: Global) -> Result<(), Or<WriteLimit>>
        ensures { IsDue result (pool_fits self.now) }
    {
        let count = self.keys.as_slice().len() as u64 + 1;
        if count > 65_535 {
            return Err(Or::Fault(WriteLimit::PoolFull(count)));
        }
        check_keys(alloc, &self.texts, self.keys.as_slice())
    }

    /// The constants as items of a constant_pool, their count first, which is one more than the last index (JVMS 4.4).
    pub fn put(&self, alloc: Global, out: &mut Vec<u8>) -> M<()>
        requires count { length self.now + 1 < 2 ^ 16 }
        requires texts { first_of text_fits self.now ≡ Ok tt }
        ensures { OnOk result (out.new.items ≡ out.old.items
            ++ (to_be_bytes w16 (length self.now + 1) ++ flat_map cp_info (canonical.infos_of self.now))) }
    {
        put_all(alloc, &self.texts, &self.keys, out)
    }

    // ---- indices, that of the first place; or the index behind the last, where a constant is missing

    /// The index of the text of a name or a descriptor (JVMS 4.4.7).
    pub fn text_index(&self, alloc: Global, text: &Text) -> M<usize>
        ensures { IfOk result (λ index. index ≡ canonical.index_of self.now (PoolConstant.Utf8 (units_of text.now))) }
    {
        let number = self.texts.number_of_text(alloc, text)?;
        Ok(index_of_key(&self.texts, &self.keys, Key::Utf8(number)))
    }

    /// The index of the text of these units.
    pub fn units_index(&self, units: &Units) -> usize
        ensures { result ≡ canonical.index_of self.now (PoolConstant.Utf8 units.now) }
    {
        let number = self.texts.number_of_units(units);
        index_of_key(&self.texts, &self.keys, Key::Utf8(number))
    }

    /// The index of a class (JVMS 4.4.1).
    pub fn class_index(&self, alloc: Global, name: &Name) -> M<usize>
        ensures { IfOk result (λ index. index ≡ canonical.index_of self.now (canonical.class_constant name.now)) }
    {
        let number = self.texts.number_of_text(alloc, name)?;
        Ok(index_of_key(&self.texts, &self.keys, Key::Class(number)))
    }

    /// The index of a class or an array type (JVMS 4.4.1).
    pub fn type_index(&self, alloc: Global, ty: &FieldType) -> M<usize>
        ensures { IfOk result (λ index. index ≡ canonical.index_of self.now
            (canonical.class_constant (canonical.type_name ty.now))) }
    {
        let number = type_number(alloc, &self.texts, ty)?;
        Ok(index_of_key(&self.texts, &self.keys, Key::Class(number)))
    }

    /// The index of a string (JVMS 4.4.3).
    pub fn string_index(&self, units: &Units) -> usize
        ensures { result ≡ canonical.index_of self.now (PoolConstant.Str units.now) }
    {
        let number = self.texts.number_of_units(units);
        index_of_key(&self.texts, &self.keys, Key::Str(number))
    }

    /// The index of an int (JVMS 4.4.4).
    pub fn int_index(&self, number: i32) -> usize
        ensures { result ≡ canonical.index_of self.now (PoolConstant.Integer number) }
    {
        index_of_key(&self.texts, &self.keys, Key::Integer(number))
    }

    /// The index of a long (JVMS 4.4.5).
    pub fn long_index(&self, number: i64) -> usize
        ensures { result ≡ canonical.index_of self.now (PoolConstant.Long number) }
    {
        index_of_key(&self.texts, &self.keys, Key::Long(number))
    }

    /// The index of a reference to a field (JVMS 4.4.2).
    pub fn field_index(&self, alloc: Global, field: &MemberRef) -> M<usize>
        ensures { IfOk result (λ index. index ≡ canonical.index_of self.now (canonical.fieldref field.now)) }
    {
        let m = member_numbers(alloc, &self.texts, field)?;
        let key = Key::Fieldref(m.class, m.name, m.descriptor);
        Ok(index_of_key(&self.texts, &self.keys, key))
    }

    /// The index of a reference to a method (JVMS 4.4.2).
    pub fn method_index(&self, alloc: Global, method: &MemberRef) -> M<usize>
        ensures { IfOk result (λ index. index ≡ canonical.index_of self.now (canonical.methodref method.now)) }
    {
        let m = member_numbers(alloc, &self.texts, method)?;
        let key = method_key(m, method.of_interface);
        Ok(index_of_key(&self.texts, &self.keys, key))
    }
}
