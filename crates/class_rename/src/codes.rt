// Instructions, handlers and codes (JVMS 4.7.3, 6.5).
ghost use Rattle.std.specs.Prelude.{◌≡◌, IfOk, OnOk, map};
ghost use Rattle.class_rename.specs.Names.{Names, names_in};
ghost use Rattle.class_rename.specs.Renamed.{renamed_code, renamed_field_ref, renamed_handler, renamed_ins};
ghost use Rattle.class_rename.specs.Renamed.{renamed_method_ref, renamed_op};

use crate::NewNames;
use crate::each::{Rename, RenameReferences, rename_each, rename_references_of_each};
use crate::frames::rename_frames;
use crate::renamer::Renamer;
use crate::types::rename_shared_type;
use class_model::{Code, Handler, Ins, MemberRef, Op};
use jv_base::{M, Shared};
use std::alloc::Global;

fn rename_field_ref(alloc: Global, renamer: &mut Renamer, field: &mut Shared<MemberRef>) -> M<()>
    ensures names { renamer.new ≡ renamer.old }
    ensures renamed { OnOk result (field.new ≡ renamed_field_ref (names_in renamer.old) field.old) }
{
    let new = renamer.field_ref(alloc, field)?;
    *field = new;
    Ok(())
}

fn rename_method_ref(alloc: Global, renamer: &mut Renamer, method: &mut Shared<MemberRef>) -> M<()>
    ensures names { renamer.new ≡ renamer.old }
    ensures renamed { OnOk result (method.new ≡ renamed_method_ref (names_in renamer.old) method.old) }
{
    let new = renamer.method_ref(alloc, method)?;
    *method = new;
    Ok(())
}

impl RenameReferences for Op {
    ghost renamed = { renamed_op };

    fn rename_references(&mut self, alloc: Global, renamer: &mut Renamer) -> M<()> {
        match self {
            Op::GetStatic(field) => rename_field_ref(alloc, renamer, field),
            Op::PutStatic(field) => rename_field_ref(alloc, renamer, field),
            Op::GetField(field) => rename_field_ref(alloc, renamer, field),
            Op::PutField(field) => rename_field_ref(alloc, renamer, field),
            Op::InvokeVirtual(method) => rename_method_ref(alloc, renamer, method),
            Op::InvokeSpecial(method) => rename_method_ref(alloc, renamer, method),
            Op::InvokeStatic(method) => rename_method_ref(alloc, renamer, method),
            Op::InvokeInterface(method) => rename_method_ref(alloc, renamer, method),
            Op::New(name) => renamer.names().rename_class(name),
            Op::NewArray(base) => base.rename(alloc, renamer.names()),
            Op::ANewArray(ty) => rename_shared_type(alloc, renamer.names(), ty),
            Op::CheckCast(ty) => rename_shared_type(alloc, renamer.names(), ty),
            Op::InstanceOf(ty) => rename_shared_type(alloc, renamer.names(), ty),
            Op::MultiNewArray(ty, _) => rename_shared_type(alloc, renamer.names(), ty),
            _ => Ok(()),
        }
    }
}

impl RenameReferences for Ins {
    ghost renamed = { renamed_ins };

    fn rename_references(&mut self, alloc: Global, renamer: &mut Renamer) -> M<()> {
        self.op.rename_references(alloc, renamer)
    }
}

impl Rename for Handler {
    ghost renamed = { renamed_handler };

    fn rename(&mut self, _alloc: Global, names: &NewNames) -> M<()> {
        if let Some(name) = &mut self.caught {
            names.rename_class(name)?;
        }
        Ok(())
    }
}

impl RenameReferences for Code {
    ghost renamed = { renamed_code };

    fn rename_references(&mut self, alloc: Global, renamer: &mut Renamer) -> M<()> {
        rename_references_of_each(alloc, renamer, &mut self.ins)?;
        rename_each(alloc, renamer.names(), &mut self.handlers)?;
        rename_frames(alloc, renamer.names(), &mut self.frames)
    }
}
