// What to do about the line of a refusal, by its status and its kind.

/// What a line such as `error 5 profile A int f() Unresolved` means, and what to do; the line has no end of line.
pub fn advice(line: &str) -> Option<&'static str> {
    let (status, rest) = line.strip_prefix("error ")?.split_once(' ')?;
    match status {
        "1" => Some(WORDS),
        "2" => Some(
            "no file stands at this path; paths are taken from the folder in which the command is called",
        ),
        "3" => rules_advice(rest),
        "4" => Some(format_advice(last_word(rest))),
        "5" => Some(profile_advice(rest)),
        "6" => limit_advice(rest),
        "8" => Some(
            "nothing but folders may lie below the directory of -outjars, so that its files are those of one \
                call: take away what lies there (rm -r), or name another directory",
        ),
        "9" => clause_advice(rest),
        "10" => Some(
            "memory was wanting: give the process more, or end what else needs it, and call again with an \
                empty output directory",
        ),
        "11" => text_advice(last_word(rest)),
        "12" => Some(
            "no static method of the class files is spelled so that can be run with these words: \
                demo.Main.sum(int,long) with a decimal number for each, ~1 for -1; docs/RUNNING.md has the \
                words of each type. compare asks besides that the rules keep the method",
        ),
        "13" => Some(
            "from this method the output doesn't print, return or throw what the input does, or doesn't have \
                it; run on both directories shows what each does",
        ),
        "14" => Some(
            "no class and no member of the input is spelled so: demo.Helper, demo.Helper: int size and \
                demo.Helper: int twice(int), in quotes, as the list of -printseeds has them; with -keep class \
                ** { *; } in the config that list has all",
        ),
        "15" => Some(
            "the job of this line of the list would write over the list or over what an earlier line's job reads \
                or writes, or read what an earlier one writes: give each job its own output directory, mapping, \
                lists and witness",
        ),
        _ => None,
    }
}

const WORDS: &str =
    "usage: shrink CONFIG WITNESS, check CONFIG WITNESS, retrace MAPPING TRACE, why CONFIG ITEM or batch LIST, all but ITEM \
        paths without ./, ../ or // in them and without / at their ends: s.pro and not ./s.pro; --help tells \
        more, and of run, compare and gen too";

const SURVEY: &str =
    "it uses what is neither below the directory of -injars nor in the small library, or may not be used of \
        it; bin/survey DIRECTORY lists all such things at once, and docs/LIMITS.md has the library";

const TOGETHER: &str =
    "the class files don't belong together, as compilations of different versions don't: compile all of them \
        again";

// The word behind the last blank.
fn last_word(text: &str) -> &str {
    match text.rsplit_once(' ') {
        Some((_, word)) => word,
        None => text,
    }
}

// A config: `rules LINE KIND`, perhaps with an option behind it.
fn rules_advice(rest: &str) -> Option<&'static str> {
    let (_, placed) = rest.strip_prefix("rules ")?.split_once(' ')?;
    let (kind, option) = placed.split_once(' ').unwrap_or((placed, ""));
    match kind {
        "UnknownOption" => Some(
            "a word on this line is no option that is known, or one too many behind an option: \
                docs/PROGUARD.md has every option, and -injars takes one directory, no list and no filter",
        ),
        "BadClassSpec" => Some(
            "a word on this line is no part of a class specification, which is: public, final or abstract, \
                then class, interface or enum, a name with dots, perhaps extends and a name, and members in \
                braces",
        ),
        "BadMemberSpec" => Some(
            "a word on this line is no part of a member specification, or one is missing: each ends with a \
                semicolon, as in { *; }, { int size; } or { void run(int); }, and the brace is closed",
        ),
        "BadValue" => Some(value_advice(option)),
        "MissingName" => Some(
            "a value is missing: an option ends before it, or a rule before the name of a class; \
                -printmapping, -printseeds, -printusage and -applymapping need a file here",
        ),
        "Repeated" => Some(
            "this option may stand once; for several input directories copy them into one",
        ),
        "MissingOption" => Some(
            "a config has -injars DIRECTORY, -outjars DIRECTORY and -printmapping FILE",
        ),
        "SamePath" => Some(
            "of the directories and files that the config and the command name two are one, or one lies below \
                another, or something would be written over the config: give each its own place",
        ),
        "LeftOut" => Some(
            "ProGuard has this option, and it isn't built here: docs/PROGUARD.md tells what can be done in \
                its place",
        ),
        "NothingKept" => Some(
            "no rule keeps a class: names in rules have dots (demo.Main, not demo/Main), and \
                -keepclassmembers, -keepnames and allowshrinking keep no class by themselves",
        ),
        "NotUtf8" => Some("the config isn't in UTF-8: save it so"),
        "QuoteOpen" => Some("a quote on this line isn't closed on it"),
        _ => None,
    }
}

// A value of an option that isn't what it has to be.
fn value_advice(option: &str) -> &'static str {
    match option {
        "-injars"
        | "-outjars"
        | "-printmapping"
        | "-printseeds"
        | "-printusage"
        | "-applymapping" =>
            "a path has no ./, ../ or // in it: in and not ./in; only a directory may have a / at its end",
        "-keepattributes" | "-renamesourcefileattribute" =>
            "a filter is patterns with commas between, each perhaps behind a !",
        _ =>
            "behind the comma of a rule stands allowshrinking, allowoptimization, allowobfuscation or \
                includedescriptorclasses",
    }
}

// A file that is no class file.
fn format_advice(kind: &str) -> &'static str {
    match kind {
        "BadVersion" =>
            "only class files of Java 8 are taken (version 52.0): compile with javac --release 8, and leave \
                out module-info.class and META-INF/versions, which are of later releases",
        "BadMagic" =>
            "the file's name ends in .class, and it is no class file: leave it out of the directory",
        "Cut" => "the file ends too soon: it was copied or unpacked in part",
        "Trailing" =>
            "something stands behind the class file's end: it was joined with another file, or damaged",
        _ =>
            "the file breaks a rule of the Java Virtual Machine Specification at this offset: it was \
                damaged, or made by a tool that isn't a compiler of Java 8; docs/CLASS-FILES.md has the \
                rules",
    }
}

// A class that breaks a rule: `profile CLASS MEMBER KIND`.
fn profile_advice(rest: &str) -> &'static str {
    match last_word(rest) {
        "NameMismatch" =>
            "the file of a class has to lie at the path of its name, demo/X.class for demo.X, below the \
                directory of -injars: that is one level too high or too low, or a second copy of the class \
                lies there, as in META-INF/versions or WEB-INF/classes",
        "LibraryName" =>
            "classes of java.* belong to the library: leave the file out of the directory",
        "SuperMissing" =>
            "the class extends or implements one that is neither below the directory of -injars nor in the \
                small library; bin/survey DIRECTORY lists all that is missing, and docs/LIMITS.md has the \
                library",
        "SuperKind" | "Cycle" | "Inaccessible" | "WrongKind" => TOGETHER,
        "LeftOutFlag" =>
            "enums, annotation types and native methods aren't taken; bin/survey DIRECTORY lists all that \
                isn't",
        "LeftOutConstant" =>
            "the class has a float or a double, a lambda or method reference, a class literal (A.class), or \
                strings joined as Java 9 does it: compile with javac --release 8; bin/survey DIRECTORY lists all \
                that isn't taken",
        "LeftOutOpcode" =>
            "the method computes with float or double, or has a synchronized block (a synchronized method is \
                taken); bin/survey DIRECTORY lists all that isn't taken",
        "LeftOutType" => "float and double aren't taken, here as a type",
        "Unresolved" => SURVEY,
        "LeftOutMember" =>
            "a static or default method of an interface, finalize, clone of an array, or a member of the \
                library that may not be used stands here; bin/survey DIRECTORY lists all such things at \
                once, and docs/LIMITS.md has the library",
        // The word behind `Type`.
        _ => {
            "the code isn't type-correct (Java Virtual Machine Specification 4.10): no compiler writes such \
                code, so look at what changed it since; docs/TYPES.md has the rules"
        }
    }
}

// A quantity that passes its limit: `limit QUANTITY LIMIT`.
fn limit_advice(rest: &str) -> Option<&'static str> {
    let (quantity, _) = rest.strip_prefix("limit ")?.split_once(' ')?;
    match quantity {
        "config" | "mapping" | "witness" | "trace" => Some(
            "the file has more bytes than that: is it the right one?",
        ),
        "files" => Some(
            "so many files at most may lie below the input directory, and below the output directory for \
                check, resources among them: take the resources out",
        ),
        "classes" | "input" | "items" | "needs" | "pairs" => Some(
            "the program is larger than what is taken together: docs/LIMITS.md has the limits",
        ),
        "jobs" | "batch" => Some("make two lists of it, and call batch for each"),
        "text" => Some(
            "the mapping or one of the lists would have more bytes than that: do without -printseeds and \
                -printusage, or keep fewer classes",
        ),
        "pool" | "utf8" | "code" | "table" | "branch" | "attribute" => Some(
            "a class file would be larger than the format has room for, which comes only at a class that is \
                near that limit",
        ),
        _ => None,
    }
}

// An output that doesn't belong to its input: `no CLAUSE CLASS MEMBER`.
fn clause_advice(rest: &str) -> Option<&'static str> {
    let (clause, _) = rest.strip_prefix("no ")?.split_once(' ')?;
    match clause {
        "OutputFormat" => Some(
            "a file below the output directory whose name ends in .class is no class file",
        ),
        "OutputProfile" => Some(
            "the classes of the output are no set that is taken: one is missing, stands at another path than \
                its name, breaks a rule, or has code that isn't type-correct",
        ),
        "MapShape" => Some(
            "the mapping doesn't fit: this line names nothing of the input or of the output or gives a name \
                twice, or the class has no line; is it the mapping of this output?",
        ),
        "FixedName" => Some(
            "a name that the rules keep, or one of the library, was changed or given away: were the same \
                rules used?",
        ),
        "Package" => Some(
            "the class went to another package, as -repackageclasses and -flattenpackagehierarchy have it",
        ),
        "SeedLost" => Some(
            "the rules keep it, and the mapping has no line for it: were the same rules used?",
        ),
        "NotClosed" => Some(
            "something that is there needs it, and it is gone, as when a tool inlined it or took away an \
                interface",
        ),
        "MemberDiffers" => Some(
            "it isn't as in the input: flags, supertypes, a type, a constant, or Exceptions; or the class \
                has members that have no line, or the wrong rules were used",
        ),
        "WitnessStray" => Some(
            "the witness tells of a method that isn't kept, or has no code: is it the witness of this \
                mapping?",
        ),
        "EditIllegal" => Some(
            "the witness tells of an act that may change what the method does: docs/PASSES.md has the rules",
        ),
        "CodeDiffers" => Some(
            "the code, or its lines, isn't that of the input under new names: it was optimised otherwise \
                than the witness tells, or -keepattributes LineNumberTable isn't in both configs",
        ),
        "LineRange" => Some(
            "a line of its code lies outside the range that the mapping tells: is it the mapping of this output?",
        ),
        _ => None,
    }
}

// A text that is outside its grammar.
fn text_advice(kind: &str) -> Option<&'static str> {
    match kind {
        "NotUtf8" => Some("the line isn't in UTF-8"),
        "BadLine" => Some(
            "the line is none of its grammar: in a mapping, old -> new: for a class and four blanks before a \
                member's line (docs/MANUAL.md); a witness begins with the line witness 1; a line of a batch's list \
                is a config's path, one blank and a witness's path (docs/BATCH.md)",
        ),
        "NoClass" => Some("a member's line comes before the first line of a class"),
        "Repeated" => Some(
            "the class of this line has an old or a new name that stands in an earlier line: were two \
                mappings joined?",
        ),
        "BadOrder" => Some("the lines of a witness have an order (docs/WITNESS.md)"),
        _ => None,
    }
}
