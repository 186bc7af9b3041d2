// What is said at the end of a shrink.
ghost use Rattle.std.specs.Fmt.{decimal};
ghost use Rattle.std.specs.Prelude.{◌≡◌, ◌++◌, IfOk, codes, string_bytes};
ghost use Rattle.shrink_command.specs.Summary.{count_line, summary_text};

use jv_base::{Bytes, Items, M};
use set_shrink::Counts;
use std::alloc::Global;

/// The five lines that count what was read and what was kept: classes, fields and methods, and how many methods were
/// edited or left as they were.
pub(crate) fn summary_text(
    alloc: Global,
    read: Counts,
    kept: Counts,
    edited: usize,
    fallback: usize,
) -> M<Bytes>
    ensures { IfOk result (λ text. text ≡ summary_text read kept edited fallback) }
{
    let mut text = count_line(alloc, "classes", read.classes, kept.classes)?;
    let fields = count_line(alloc, "fields", read.fields, kept.fields)?;
    text.push_str(fields.as_str())?;
    let methods = count_line(alloc, "methods", read.methods, kept.methods)?;
    text.push_str(methods.as_str())?;
    let edits = edit_lines(alloc, edited, fallback)?;
    text.push_str(edits.as_str())?;
    Ok(Items::from_vec(text.into_bytes()))
}

fn count_line(alloc: Global, word: &str, read: usize, kept: usize) -> M<String>
    ensures { IfOk result (λ line. string_bytes line ≡ count_line word.now read kept) }
{
    Ok(format!(in alloc; "{word} {read} {kept}\n")?)
}

fn edit_lines(alloc: Global, edited: usize, fallback: usize) -> M<String>
    ensures { IfOk result (λ lines. string_bytes lines
        ≡ codes "edited " ++ (decimal edited ++ (codes "\nfallback " ++ (decimal fallback ++ codes "\n")))) }
{
    Ok(format!(in alloc; "edited {edited}\nfallback {fallback}\n")?)
}
