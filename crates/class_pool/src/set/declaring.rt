// From which class on upwards a member of a name and a descriptor is to be looked for.
ghost use Rattle.std.specs.Prelude.{◌≡◌, IfSome};
ghost use Rattle.class_pool.specs.Found.{IsMember, IsMethod, declared_by, named_at};
ghost use Rattle.class_pool.specs.Hierarchy.{IsClass};
ghost use Rattle.class_pool.specs.Walk.{superclasses_from, superclasses_up};
ghost use Rattle.class_pool.specs.declared.id.ClassId.TheVariants.{Prog};

use crate::{ClassId, ClassSet, MemberAt};
use jv_base::{Name, Text};
use tree_notes::Up;

impl ClassSet {
    /// The class from which on upwards members of a name and a descriptor are to be looked for: no class before it
    /// declares one. Where a class has many superclasses, it is the nearest one that declares such a member, or one of
    /// the library; else it is the class itself. It takes no memory.
    pub fn declaring_from(&self, id: ClassId, name: &Name, ty: &Text) -> Option<ClassId>
        requires { IsClass self.now id }
        ensures same { declared_by self.now (name.now, ty.now) (superclasses_from self.now id)
            ≡ declared_by self.now (name.now, ty.now) (superclasses_up self.now result) }
        ensures there { IfSome result (IsClass self.now) }
    {
        let ClassId::Prog(number) = id else {
            return Some(id);
        };
        let count = self.len();
        match self.notes.up_from(number, name, ty) {
            Up::At(at) if at < count => Some(ClassId::Prog(at)),
            Up::Above(at) if at < count => self.super_of(ClassId::Prog(at)),
            _ => Some(id),
        }
    }

    /// The same of the methods with the name and the descriptor of another method.
    pub fn alike_from(&self, id: ClassId, m: MemberAt) -> Option<ClassId>
        requires class { IsClass self.now id }
        requires there { IsMember self.now m }
        requires method { IsMethod self.now m }
        ensures same { declared_by self.now (named_at self.now m) (superclasses_from self.now id)
            ≡ declared_by self.now (named_at self.now m) (superclasses_up self.now result) }
        ensures there { IfSome result (IsClass self.now) }
    {
        let class = m.class;
        match class {
            ClassId::Prog(number) => self.own_alike_from(id, number, m.index),
            ClassId::Lib(_) => Some(id),
        }
    }

    fn own_alike_from(&self, id: ClassId, number: u32, index: u32) -> Option<ClassId>
        requires class { IsClass self.now id }
        requires there { IsMember self.now (record { class = Prog number; index = index }) }
        requires method { IsMethod self.now (record { class = Prog number; index = index }) }
        ensures same { declared_by self.now (named_at self.now (record { class = Prog number; index = index }))
            (superclasses_from self.now id)
            ≡ declared_by self.now (named_at self.now (record { class = Prog number; index = index }))
            (superclasses_up self.now result) }
        ensures there { IfSome result (IsClass self.now) }
    {
        let class = self.class(number);
        let at = index as usize - class.fields.len();
        let descriptor = &self.descriptors[number as usize][at];
        self.declaring_from(id, &class.methods[at].name, descriptor)
    }
}
