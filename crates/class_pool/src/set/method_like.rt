// Methods with the name and the descriptor of another one.
ghost use Rattle.std.specs.Prelude.{◌≡◌, ◌<◌, ◌+◌, IfSome, IsTrue, false, length, slice_get};
ghost use Rattle.std.specs.List.{position};
ghost use Rattle.std.specs.Option.{option_and_then, option_map_or};
ghost use Rattle.jv_base.specs.Types.{method_text};
ghost use Rattle.lib_table.specs.Library.{library as library_rows};
ghost use Rattle.lib_table.specs.Lookups.{class_at, is_method};
ghost use Rattle.class_pool.specs.declared.id.ClassId.TheVariants.{Prog};
ghost use Rattle.class_pool.specs.Found.{IsMethod, IsMember, declared_in, named_at};
ghost use Rattle.class_pool.specs.Hierarchy.{IsClass};
ghost use Rattle.class_pool.specs.Members.{declared_at, member_named};

use crate::{ClassId, ClassSet, MemberAt};
use class_model::{Class, Method};
use lib_table::{LibId, lib_is, lib_like};

impl ClassSet {
    /// The method that a class declares with the name and the descriptor of another method.
    pub fn method_like(&self, id: ClassId, m: MemberAt) -> Option<MemberAt>
        requires class { IsClass self.now id }
        requires there { IsMember self.now m }
        requires method { IsMethod self.now m }
        ensures is { result ≡ declared_in self.now (named_at self.now m) id }
        ensures there { IfSome result (IsMember self.now) }
    {
        let class = id;
        let index = self.number_like(id, m)?;
        Some(MemberAt { class, index })
    }

    fn number_like(&self, id: ClassId, m: MemberAt) -> Option<u32>
        requires class { IsClass self.now id }
        requires there { IsMember self.now m }
        requires method { IsMethod self.now m }
        ensures { result ≡ declared_at self.now id (named_at self.now m).0 (named_at self.now m).1 }
    {
        let class = m.class;
        match class {
            ClassId::Prog(number) => self.number_like_own(id, number, m.index),
            ClassId::Lib(library) => self.number_like_library(id, library, m.index),
        }
    }

    /// The method of another class has its descriptor as a text.
    fn number_like_own(&self, id: ClassId, number: u32, index: u32) -> Option<u32>
        requires class { IsClass self.now id }
        requires there { IsMember self.now (record { class = Prog number; index = index }) }
        requires method { IsMethod self.now (record { class = Prog number; index = index }) }
        ensures { result ≡ declared_at self.now id
            (named_at self.now (record { class = Prog number; index = index })).0
            (named_at self.now (record { class = Prog number; index = index })).1 }
    {
        let class = self.class(number);
        let at = index as usize - class.fields.len();
        let descriptor = &self.descriptors[number as usize][at];
        self.declares(id, &class.methods[at].name, descriptor)
    }

    fn number_like_library(&self, id: ClassId, library: LibId, at: u32) -> Option<u32>
        requires class { IsClass self.now id }
        requires there { library < length library_rows }
        requires method { IsTrue (option_map_or (λ m. m.is_method) (slice_get (class_at library).members at) false) }
        ensures { result ≡ option_and_then (λ m. declared_at self.now id m.name m.descriptor)
            (slice_get (class_at library).members at) }
    {
        match id {
            ClassId::Prog(number) => number_in(self.class(number), library, at),
            ClassId::Lib(id) => {
                let member = lib_like(id, library, at)?;
                Some(member.at)
            }
        }
    }
}

/// The number of the method of a class with the name and the descriptor of a method of the
/// library. No field has it, since the descriptor of a method begins with a parenthesis, and that
/// of a field doesn't (JVMS 4.3.2, 4.3.3).
fn number_in(class: &Class, library: LibId, at: u32) -> Option<u32>
    requires few { length class.now.fields + length class.now.methods < 4294967295 }
    requires there { library < length library_rows }
    requires method { IsTrue (option_map_or (λ m. m.is_method) (slice_get (class_at library).members at) false) }
    ensures { result ≡ option_and_then (λ m. member_named class.now m.name m.descriptor)
        (slice_get (class_at library).members at) }
{
    let position = position_in(class.methods.as_slice(), library, at)?;
    Some((class.fields.len() + position) as u32)
}

fn position_in(methods: &[Method], library: LibId, at: u32) -> Option<usize>
    ensures { result ≡ position (λ m. is_method m.name (method_text m.ty)
        (slice_get (class_at library).members at)) methods.now }
{
    methods
        .iter()
        .position(|method| lib_is(library, at, &method.name, &method.ty))
}
