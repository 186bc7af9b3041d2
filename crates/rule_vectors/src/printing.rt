// Rules and faults in words.
use jv_base::{Items, Text};
use keep_rules::{ClassSpec, Filter, Keep, KeepKind, MemberSpec, RuleFault, Rules};
use line_answers::push_listed;
use std::alloc::{AllocError, Global};

/// `rules LINE KIND`, with the option of the kind.
pub fn fault_text(alloc: Global, fault: &RuleFault) -> Result<String, AllocError> {
    let line = fault.line;
    let mut text = format!(in alloc; "rules {line} ")?;
    text.push_str(fault.kind.name())?;
    if let Some(option) = fault.kind.option() {
        text.push_str(" ")?;
        push_listed(&mut text, option.as_bytes())?;
    }
    Ok(text)
}

/// `ok`, and each part of the rules as `NAME=VALUE`.
pub fn rules_text(alloc: Global, rules: &Rules) -> Result<String, AllocError> {
    let mut text = String::from_str(alloc, "ok")?;
    push_rules(&mut text, rules)?;
    Ok(text)
}

fn push_rules(text: &mut String, rules: &Rules) -> Result<(), AllocError> {
    push_paths(text, rules)?;
    push_steps(text, rules)?;
    push_filters(text, " attrs=", &rules.attrs)?;
    push_any(text, " source=", &rules.source_name)?;
    for keep in rules.keeps.as_slice() {
        push_keep(text, keep)?;
    }
    Ok(())
}

fn push_paths(text: &mut String, rules: &Rules) -> Result<(), AllocError> {
    push_text(text, " in=", &rules.in_dir)?;
    push_text(text, " out=", &rules.out_dir)?;
    push_text(text, " mapping=", &rules.mapping)?;
    push_any(text, " seeds=", &rules.seeds)?;
    push_any(text, " usage=", &rules.usage)
}

fn push_steps(text: &mut String, rules: &Rules) -> Result<(), AllocError> {
    push_yes(text, " shrink=", rules.shrink)?;
    push_yes(text, " optimise=", rules.optimise)?;
    push_yes(text, " obfuscate=", rules.obfuscate)
}

fn push_keep(text: &mut String, keep: &Keep) -> Result<(), AllocError> {
    text.push_str(" keep=")?;
    text.push_str(keep_name(keep.kind))?;
    push_yes(text, " descriptors=", keep.descriptor_classes)?;
    push_yes(text, " shrinking=", keep.allow_shrinking)?;
    push_yes(text, " obfuscation=", keep.allow_obfuscation)?;
    push_spec(text, &keep.spec)
}

fn keep_name(kind: KeepKind) -> &'static str {
    match kind {
        KeepKind::Keep => "Keep",
        KeepKind::Members => "Members",
        KeepKind::WithMembers => "WithMembers",
    }
}

fn push_spec(text: &mut String, spec: &ClassSpec) -> Result<(), AllocError> {
    push_filters(text, " flags=", &spec.flags)?;
    push_text(text, " kind=", &spec.kind)?;
    push_filters(text, " names=", &spec.names)?;
    push_any(text, " above=", &spec.above)?;
    for member in spec.members.as_slice() {
        push_member(text, member)?;
    }
    Ok(())
}

fn push_member(text: &mut String, member: &MemberSpec) -> Result<(), AllocError> {
    push_text(text, " member=", &member.name)?;
    push_filters(text, " flags=", &member.flags)?;
    push_any(text, " type=", &member.ty)?;
    text.push_str(" args=")?;
    match &member.args {
        Some(types) => push_types(text, types),
        None => text.push_str("-"),
    }
}

fn push_text(text: &mut String, name: &str, value: &Text) -> Result<(), AllocError> {
    text.push_str(name)?;
    push_listed(text, value.as_bytes())
}

fn push_any(text: &mut String, name: &str, value: &Option<Text>) -> Result<(), AllocError> {
    match value {
        Some(value) => push_text(text, name, value),
        None => {
            text.push_str(name)?;
            text.push_str("-")
        }
    }
}

fn push_yes(text: &mut String, name: &str, value: bool) -> Result<(), AllocError> {
    text.push_str(name)?;
    text.push_str(if value { "yes" } else { "no" })
}

fn push_filters(text: &mut String, name: &str, filters: &Items<Filter>) -> Result<(), AllocError> {
    text.push_str(name)?;
    text.push_str("[")?;
    for (at, filter) in filters.as_slice().iter().enumerate() {
        if at > 0 {
            text.push_str(",")?;
        }
        if filter.negated {
            text.push_str("!")?;
        }
        push_listed(text, filter.pattern.as_bytes())?;
    }
    text.push_str("]")
}

fn push_types(text: &mut String, types: &Items<Text>) -> Result<(), AllocError> {
    text.push_str("[")?;
    for (at, ty) in types.as_slice().iter().enumerate() {
        if at > 0 {
            text.push_str(",")?;
        }
        push_listed(text, ty.as_bytes())?;
    }
    text.push_str("]")
}
