// Rules on members alone, as rules that keep classes. Texts are shared with the rules that they are made of.
ghost use Rattle.std.specs.Prelude.{◌≡◌, IfOk};
ghost use Rattle.keep_match.specs.Asked.{asks_members};
ghost use Rattle.keep_match.specs.bodies.AsKeeps.{as_keep, as_keeps};

use jv_base::{Items, M, Text};
use keep_rules::{ClassSpec, Filter, Keep, KeepKind, MemberSpec};
use std::alloc::Global;

/// Those rules that ask for members, as rules that keep classes.
pub(crate) fn as_keeps(alloc: Global, keeps: &[Keep]) -> M<Items<Keep>>
    ensures { IfOk result (λ copies. copies ≡ as_keeps keeps.now) }
{
    let mut copies = Items::new(alloc);
    for keep in keeps {
        if asks_members(keep) {
            copies.push(as_keep(alloc, keep)?)?;
        }
    }
    Ok(copies)
}

/// Whether a rule is one on members alone, and none by which what matches may be dropped.
fn asks_members(keep: &Keep) -> bool
    ensures { result ≡ asks_members keep.now }
{
    !keep.allow_shrinking
        && match keep.kind {
            KeepKind::Members => true,
            KeepKind::Keep | KeepKind::WithMembers => false,
        }
}

pub(crate) fn as_keep(alloc: Global, keep: &Keep) -> M<Keep>
    ensures { IfOk result (λ copy. copy ≡ as_keep keep.now) }
{
    let spec = class_spec(alloc, &keep.spec)?;
    Ok(Keep {
        kind: KeepKind::Keep,
        descriptor_classes: keep.descriptor_classes,
        allow_shrinking: false,
        allow_obfuscation: keep.allow_obfuscation,
        spec,
    })
}

fn class_spec(alloc: Global, spec: &ClassSpec) -> M<ClassSpec>
    ensures { IfOk result (λ copy. copy ≡ spec.now) }
{
    let flags = filters(alloc, spec.flags.as_slice())?;
    let names = filters(alloc, spec.names.as_slice())?;
    let members = member_specs(alloc, spec.members.as_slice())?;
    let kind = spec.kind.clone()?;
    let above = optional_text(&spec.above)?;
    Ok(ClassSpec {
        flags,
        kind,
        names,
        above,
        members,
    })
}

fn filters(alloc: Global, filters: &[Filter]) -> M<Items<Filter>>
    ensures { IfOk result (λ copies. copies ≡ filters.now) }
{
    let mut copies = Items::new(alloc);
    for filter in filters {
        copies.push(filter_copy(filter)?)?;
    }
    Ok(copies)
}

fn filter_copy(filter: &Filter) -> M<Filter>
    ensures { IfOk result (λ copy. copy ≡ filter.now) }
{
    Ok(Filter {
        negated: filter.negated,
        pattern: filter.pattern.clone()?,
    })
}

fn member_specs(alloc: Global, specs: &[MemberSpec]) -> M<Items<MemberSpec>>
    ensures { IfOk result (λ copies. copies ≡ specs.now) }
{
    let mut copies = Items::new(alloc);
    for spec in specs {
        copies.push(member_spec(alloc, spec)?)?;
    }
    Ok(copies)
}

fn member_spec(alloc: Global, spec: &MemberSpec) -> M<MemberSpec>
    ensures { IfOk result (λ copy. copy ≡ spec.now) }
{
    let flags = filters(alloc, spec.flags.as_slice())?;
    let args = optional_texts(alloc, &spec.args)?;
    let ty = optional_text(&spec.ty)?;
    let name = spec.name.clone()?;
    Ok(MemberSpec {
        flags,
        ty,
        name,
        args,
    })
}

fn optional_texts(alloc: Global, texts: &Option<Items<Text>>) -> M<Option<Items<Text>>>
    ensures { IfOk result (λ copy. copy ≡ texts.now) }
{
    match texts {
        Some(texts) => Ok(Some(text_list(alloc, texts.as_slice())?)),
        None => Ok(None),
    }
}

fn text_list(alloc: Global, texts: &[Text]) -> M<Items<Text>>
    ensures { IfOk result (λ copies. copies ≡ texts.now) }
{
    let mut copies = Items::new(alloc);
    for text in texts {
        copies.push(text.clone()?)?;
    }
    Ok(copies)
}

fn optional_text(text: &Option<Text>) -> M<Option<Text>>
    ensures { IfOk result (λ copy. copy ≡ text.now) }
{
    match text {
        Some(text) => Ok(Some(text.clone()?)),
        None => Ok(None),
    }
}
