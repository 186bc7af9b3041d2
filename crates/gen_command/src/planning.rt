// What is written and said.
ghost use Rattle.std.specs.Prelude.{◌≡◌, ◌≤◌, IfOk, Ok, map};
ghost use Rattle.command_frame.specs.Steps.{Makes};
ghost use Rattle.gen_command.specs.Due.{below, gen_text, plan_for};

use crate::GenFiles;
use class_files::path_in;
use command_frame::{Plan, Stop};
use gen_classes::generate;
use jv_base::{Bytes, Items, M, Text};
use std::alloc::Global;
use tree_io::FileAt;

/// The plan of a set for a directory.
pub(crate) fn plan_of(alloc: Global, named: &GenFiles) -> Result<Plan, Stop>
    requires { named.now.number ≤ 4000 }
    ensures made { IfOk result (λ plan. plan ≡ plan_for named.now) }
    ensures told { Makes result (λ due. due ≡ Ok (plan_for named.now)) }
{
    Ok(plan_for(alloc, named)?)
}

fn plan_for(alloc: Global, named: &GenFiles) -> M<Plan>
    requires { named.now.number ≤ 4000 }
    ensures { IfOk result (λ plan. plan ≡ plan_for named.now) }
{
    let files = generate(alloc, named.number)?;
    let text = gen_text(alloc, files.len())?;
    let files = all_below(alloc, &named.directory, files)?;
    Ok(Plan { files, text })
}

/// Files below a directory.
fn all_below(alloc: Global, directory: &Text, files: Items<FileAt>) -> M<Items<FileAt>>
    ensures { IfOk result (λ all. all ≡ map (below directory.now) files) }
{
    let mut all = Items::new(alloc);
    for file in files.into_vec() {
        let path = path_in(alloc, directory, &file.path)?;
        let bytes = file.bytes;
        all.push(FileAt { path, bytes })?;
    }
    Ok(all)
}

/// What is said of so many classes.
fn gen_text(alloc: Global, count: usize) -> M<Bytes>
    ensures { IfOk result (λ text. text ≡ gen_text count) }
{
    let text = format!(in alloc; "classes {count}\n")?;
    Ok(Items::from_vec(text.into_bytes()))
}
