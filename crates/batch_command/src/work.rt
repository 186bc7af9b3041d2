// What a job is.
ghost use Rattle.std.specs.Prelude.{IfOk};
ghost use Rattle.command_frame.specs.Steps.{Finds, Makes, seen};
ghost use Rattle.batch_command.specs.Jobs.{AreClassFiles, HasNames, IsRead, Parts, input_of};

use batch_list::JobFiles;
use command_frame::{Plan, Stop};
use jv_base::Items;
use keep_rules::Rules;
use mapping_file::Mapping;
use std::alloc::Global;
use tree_io::{FileAt, Tree};

/// A job whose config was read, and the earlier mapping that it applies, if any.
#[derive(Drop)]
pub struct JobConfig {
    pub files: JobFiles,
    pub rules: Rules,
    pub earlier: Option<Mapping>,
}

/// What each job of a batch does, in three parts: it finds its config with the earlier mapping that it names, finds its
/// input, and makes its plan.
pub trait Work {
    /// What has to hold of it before a job is done: that it may call what it was handed.
    ghost ready: { Self → Type 0 };

    /// What is due of each part.
    ghost parts: { Parts };

    /// What the config of a job says, and the earlier mapping that it names. No file changes.
    fn find_config<T: Tree>(
        &self,
        alloc: Global,
        job: JobFiles,
        tree: &mut T,
    ) -> Result<JobConfig, Stop>
        requires { ready self.now }
        ensures names { IfOk result HasNames }
        ensures found { Finds result (λ fs. parts.config fs job)
            (seen (T.files tree.old) (T.faults tree.old) (T.log tree.old))
            (seen (T.files tree.new) (T.faults tree.new) (T.log tree.new)) };

    /// The class files that a config names. No file changes.
    fn find_input<T: Tree>(
        &self,
        alloc: Global,
        rules: &Rules,
        tree: &mut T,
    ) -> Result<Items<FileAt>, Stop>
        requires { ready self.now }
        ensures taken { IfOk result AreClassFiles }
        ensures found { Finds result (λ fs. parts.input fs rules.now)
            (seen (T.files tree.old) (T.faults tree.old) (T.log tree.old))
            (seen (T.files tree.new) (T.faults tree.new) (T.log tree.new)) };

    /// What a job with this config and these class files is to write and to say. It may have so many workers inside.
    fn make_plan(
        &self,
        alloc: Global,
        workers: u32,
        config: &JobConfig,
        inputs: Items<FileAt>,
    ) -> Result<Plan, Stop>
        requires ready { ready self.now }
        requires taken { IsRead (input_of config.now inputs) }
        ensures { Makes result (parts.plan (input_of config.now inputs)) };
}
