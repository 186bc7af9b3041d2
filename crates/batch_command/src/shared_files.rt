// Class files that several threads read.
ghost use Rattle.std.specs.Prelude.{◌≡◌, IfOk, true};
ghost use Rattle.batch_command.specs.Jobs.{AreClassFiles};

use jv_base::{Items, M};
use std::alloc::Global;
use std::marker::Model;
use std::sync::Arc;
use tree_io::FileAt;

/// Class files, which are kept once however many own them. Contracts see them as a list.
#[derive(Drop)]
pub(crate) struct SharedFiles {
    owned: Arc<Items<FileAt>>,
}

impl Model for SharedFiles {
    ghost use Rattle.std.specs.Prelude.{List};
    ghost use Rattle.tree_io.specs.declared.file_at.FileAt.{FileAt};
    ghost use Rattle.batch_command.specs.Jobs.{AreClassFiles};

    ghost Value = { List FileAt };

    ghost view = { λ s. s.owned.value };

    ghost invariant = { λ s. AreClassFiles s.owned.value };
}

impl SharedFiles {
    pub(crate) fn new(alloc: Global, files: Items<FileAt>) -> M<SharedFiles>
        requires { AreClassFiles files }
        ensures { IfOk result (λ shared. shared ≡ files) }
    {
        Ok(SharedFiles {
            owned: Arc::new(alloc, files)?,
        })
    }

    /// One more owner.
    pub(crate) fn again(&self) -> M<SharedFiles>
        ensures { IfOk result (λ shared. shared ≡ self.now) }
    {
        Ok(SharedFiles {
            owned: Arc::try_clone(&self.owned)?,
        })
    }

    /// The files, or a copy where there are other owners.
    pub(crate) fn into_files(self) -> M<Items<FileAt>>
        ensures files { IfOk result (λ files. files ≡ self) }
        ensures taken { IfOk result AreClassFiles }
    {
        Ok(Arc::unwrap_or_clone(self.owned)?)
    }

    /// Whether the other ones have the same files.
    pub(crate) fn is(&self, other: &SharedFiles) -> bool
        ensures { result ≡ true → self.now ≡ other.now }
    {
        *self.owned == *other.owned
    }
}
