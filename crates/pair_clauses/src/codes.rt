// A code of the output, compared with one of the input.
ghost use Rattle.std.specs.Prelude.{◌≡◌, ◌↔◌, IfOk, IsTrue, Some, if◌then◌else◌};
ghost use Rattle.std.specs.Option.{option_copied};
ghost use Rattle.class_model.specs.declared.class.Method.{Method};
ghost use Rattle.attribute_filter.specs.Filtered.{code_kept, without_lines};
ghost use Rattle.pair_clauses.specs.Codes.{AreSameCodes, IsSameCode};

use attribute_filter::AttributeFilter;
use class_model::{Code, Method};
use jv_base::M;
use new_names::{NewNames, is_mapped_code, is_mapped_handlers};
use std::alloc::Global;

/// A method of the output, if there is one, has this code under new names, or none where there is none.
pub fn has_same_code(
    alloc: Global,
    names: &NewNames<'_>,
    filter: &AttributeFilter,
    code: &Option<Code>,
    out: Option<&Method>,
) -> M<bool>
    ensures { IfOk result (λ same. IsTrue same ↔ ((o : Method) × (option_copied out.entry ≡ Some o)
        × AreSameCodes names.now (code_kept filter.now code.now) o.code)) }
{
    let Some(out) = out else {
        return Ok(false);
    };
    match (code, &out.code) {
        (Some(code), Some(out)) => is_same_code(alloc, names, filter.line_numbers, code, out),
        (None, None) => Ok(true),
        _ => Ok(false),
    }
}

/// A code is another one under new names, with its lines where these are kept.
fn is_same_code(
    alloc: Global,
    names: &NewNames<'_>,
    lines: bool,
    code: &Code,
    out: &Code,
) -> M<bool>
    ensures { IfOk result (λ same. IsTrue same
        ↔ IsSameCode names.now (if lines then code.now else without_lines code.now) out.now) }
{
    let (old, new) = (code.handlers.as_slice(), out.handlers.as_slice());
    if !is_mapped_handlers(names, old, new) {
        return Ok(false);
    }
    is_mapped_code(alloc, names, lines, code.ins.as_slice(), out.ins.as_slice())
}
