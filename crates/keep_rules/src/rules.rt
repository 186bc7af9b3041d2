// The rules that a config gives (ProGuard manual, "Usage").
use jv_base::{Items, Text};

/// What a config says: where classes are read and written, what is done with them, and what is kept.
#[derive(Drop)]
pub struct Rules {
    /// The directory of `-injars`, without a `/` at its end.
    pub in_dir: Text,
    /// The directory of `-outjars`, without a `/` at its end.
    pub out_dir: Text,
    /// The file of `-printmapping`.
    pub mapping: Text,
    /// The file of `-printseeds`.
    pub seeds: Option<Text>,
    /// The file of `-printusage`.
    pub usage: Option<Text>,
    /// The file of `-applymapping`, an earlier mapping.
    pub apply: Option<Text>,
    /// False where `-dontshrink` is given.
    pub shrink: bool,
    /// False where `-dontoptimize` is given.
    pub optimise: bool,
    /// False where `-dontobfuscate` is given.
    pub obfuscate: bool,
    /// The filters of all options `-keepattributes`, one behind the other.
    pub attrs: Items<Filter>,
    /// The word of `-renamesourcefileattribute`.
    pub source_name: Option<Text>,
    /// The keep options, in the order of the config.
    pub keeps: Items<Keep>,
}

/// A keep option (ProGuard manual, "Keep Options").
#[derive(Drop)]
pub struct Keep {
    pub kind: KeepKind,
    /// The modifier includedescriptorclasses: the classes in the descriptors of what matches keep their names.
    pub descriptor_classes: bool,
    /// The modifier allowshrinking, which the options whose names end with `names` have too: what matches may be
    /// dropped.
    pub allow_shrinking: bool,
    /// The modifier allowobfuscation: what matches may be renamed.
    pub allow_obfuscation: bool,
    pub spec: ClassSpec,
}

/// What a keep option keeps.
#[derive(Clone, Copy, PartialEq, Eq)]
pub enum KeepKind {
    /// `-keep` and `-keepnames`: classes, and members of theirs.
    Keep,
    /// `-keepclassmembers` and `-keepclassmembernames`: members, where their class is kept.
    Members,
    /// `-keepclasseswithmembers` and `-keepclasseswithmembernames`: classes that have all members that are
    /// specified, and these members.
    WithMembers,
}

/// One pattern of a filter, or one flag, perhaps behind a `!` (ProGuard manual, "Filters").
#[derive(Drop)]
pub struct Filter {
    /// Whether it stands behind a `!`.
    pub negated: bool,
    /// Without the `!`.
    pub pattern: Text,
}

/// A class specification (ProGuard manual, "Class Specifications").
#[derive(Drop)]
pub struct ClassSpec {
    /// Of `public`, `final`, `abstract` and `synthetic`.
    pub flags: Items<Filter>,
    /// `class`, `interface`, `!interface` or `enum`.
    pub kind: Text,
    /// The filter of class names, of one pattern or more.
    pub names: Items<Filter>,
    /// The pattern behind `extends` or `implements`.
    pub above: Option<Text>,
    /// One or more: where none is written, there is the constructor without parameters.
    pub members: Items<MemberSpec>,
}

/// A member specification (ProGuard manual, "Class Specifications"), in one of these forms:
///
/// | Written | `ty` | `name` | `args` |
/// |---|---|---|---|
/// | `*` | none | `*` | none |
/// | `<fields>` | none | `<fields>` | none |
/// | `<methods>` | none | `<methods>` | none |
/// | `<init>(types)` | none | `<init>` | the types |
/// | `name(types)`, the name being that of the class | none | `<init>` | the types |
/// | `type name` | the type | the name | none |
/// | `type name(types)` | the type | the name | the types |
#[derive(Drop)]
pub struct MemberSpec {
    /// Of the flags of a class specification, `private`, `protected`, `static`, `volatile`, `transient`,
    /// `synchronized`, `native`, `strictfp`, `bridge` and `varargs`.
    pub flags: Items<Filter>,
    /// The pattern of the type of a field, or of what a method gives.
    pub ty: Option<Text>,
    /// The pattern of the name.
    pub name: Text,
    /// The patterns of the parameters' types; `...` alone stands for any.
    pub args: Option<Items<Text>>,
}
