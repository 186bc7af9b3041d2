// The command.
ghost use Rattle.std.specs.Prelude.{◌≡◌, ◌<◌, IfOk, length, []};
ghost use Rattle.command_frame.specs.Steps.{Finds, Makes, seen};
ghost use Rattle.retrace_command.specs.Due.{FollowsMapping, IsDue, IsMapping, IsRetraced};

use command_frame::{Command, Plan, Quantity, Stop, faulty_text, read_file};
use jv_base::{Items, Or, Text};
use mapping_file::{Mapping, read_mapping};
use retrace_core::retrace;
use std::alloc::Global;
use tree_io::Tree;

/// The files of `retrace MAPPING TRACE`, which says the trace with the old names of the mapping.
///
/// | Status | Comes | Text |
/// |---|---|---|
/// | 0 | where the trace was said | the trace with old names |
/// | 2 | where no file stands at a path | `error 2 absent PATH` |
/// | 6 | where a file has more than 64 MiB | `error 6 limit QUANTITY 67108864`, with `mapping` or `trace` |
/// | 7 | only where a count of faults rose: the tree's, or at the trace the sink's | `error 7 device` |
/// | 10 | where memory is wanting | `error 10 memory` |
/// | 11 | where the mapping's text is outside its grammar | `error 11 text LINE KIND` |
///
/// The mapping's file is looked at first, then the trace's, then the mapping's text. No file changes.
#[derive(Drop)]
pub struct RetraceFiles {
    pub mapping: Text,
    pub trace: Text,
}

impl Command for RetraceFiles {
    ghost ready = { λ _. Unit {0} };

    ghost plans = { λ _ plan. plan.files ≡ [] };

    ghost due = { IsDue };

    fn due_plan<T: Tree>(&self, alloc: Global, tree: &mut T) -> Result<Plan, Stop> {
        let map = read_file(alloc, Quantity::Mapping, &self.mapping, tree)?;
        find_trace(alloc, map.as_slice(), &self.trace, tree)
    }
}

/// The plan for a mapping's text and the trace in a file.
fn find_trace<T: Tree>(alloc: Global, map: &[u8], trace: &Text, tree: &mut T) -> Result<Plan, Stop>
    requires { length map.now < 4294967295 }
    ensures made { IfOk result (λ plan. plan.files ≡ []) }
    ensures found { Finds result (λ fs. FollowsMapping fs trace.now map.now)
        (seen (T.files tree.old) (T.faults tree.old) (T.log tree.old))
        (seen (T.files tree.new) (T.faults tree.new) (T.log tree.new)) }
{
    let text = read_file(alloc, Quantity::Trace, trace, tree)?;
    plan_of(alloc, map, text.as_slice())
}

/// The plan for the texts of a mapping and of a trace.
fn plan_of(alloc: Global, map: &[u8], trace: &[u8]) -> Result<Plan, Stop>
    requires { length map.now < 4294967295 }
    ensures made { IfOk result (λ plan. plan.files ≡ []) }
    ensures told { Makes result (IsRetraced map.now trace.now) }
{
    let mapping = mapping_in(alloc, map)?;
    let text = retrace(alloc, &mapping, trace)?;
    Ok(Plan {
        files: Items::new(alloc),
        text,
    })
}

/// The mapping that a text stands for.
fn mapping_in(alloc: Global, map: &[u8]) -> Result<Mapping, Stop>
    requires { length map.now < 4294967295 }
    ensures { Makes result (IsMapping map.now) }
{
    match read_mapping(alloc, map) {
        Ok(mapping) => Ok(mapping),
        Err(Or::Fault(fault)) => {
            Err(Stop::Refused(faulty_text(alloc, fault.line, fault.kind.name())?))
        }
        Err(Or::OutOfMemory) => Err(Stop::OutOfMemory),
    }
}
