// The classes of the library, row by row (JVMS 4.1, 4.5 and 4.6).
ghost use Rattle.std.specs.Prelude.{◌≡◌, map};
ghost use Rattle.lib_table.specs.Library.{library};
ghost use Rattle.lib_table.specs.bodies.Rows.{told_class};

use crate::{LibKind, Role};

/// A field or a method of a library class. Each one is public, and none is final.
pub(crate) struct MemberRow {
    pub name: &'static str,
    pub descriptor: &'static str,
    pub is_method: bool,
    pub is_static: bool,
    pub role: Role,
}

/// A class or an interface of the library. Each one is public.
pub(crate) struct ClassRow {
    pub name: &'static str,
    pub kind: LibKind,
    pub super_name: Option<&'static str>,
    pub interfaces: &'static [&'static str],
    pub members: &'static [MemberRow],
}

macro_rules! method {
    ($role:ident $name:literal $descriptor:literal) => {
        MemberRow {
            name: $name,
            descriptor: $descriptor,
            is_method: true,
            is_static: false,
            role: Role::$role,
        }
    };
}

macro_rules! constructor {
    ($descriptor:literal) => {
        method!(Callable "<init>" $descriptor)
    };
}

macro_rules! static_method {
    ($name:literal $descriptor:literal) => {
        MemberRow {
            name: $name,
            descriptor: $descriptor,
            is_method: true,
            is_static: true,
            role: Role::Callable,
        }
    };
}

macro_rules! static_field {
    ($name:literal $descriptor:literal) => {
        MemberRow {
            name: $name,
            descriptor: $descriptor,
            is_method: false,
            is_static: true,
            role: Role::Callable,
        }
    };
}

/// Of an exception that is made without a message, or with one.
macro_rules! two_constructors {
    () => {
        &[
            constructor!("()V"),
            constructor!("(Ljava/lang/String;)V"),
        ]
    };
}

/// The same, and with a message and a cause.
macro_rules! three_constructors {
    () => {
        &[
            constructor!("()V"),
            constructor!("(Ljava/lang/String;)V"),
            constructor!("(Ljava/lang/String;Ljava/lang/Throwable;)V"),
        ]
    };
}

/// A class stands behind its supertypes.
static CLASSES: [ClassRow; 32] = [
    ClassRow {
        name: "java/lang/Object",
        kind: LibKind::Open,
        super_name: None,
        interfaces: &[],
        members: &[
            constructor!("()V"),
            method!(Callable "equals" "(Ljava/lang/Object;)Z"),
            method!(KnownOnly "hashCode" "()I"),
            method!(KnownOnly "toString" "()Ljava/lang/String;"),
            method!(KnownOnly "getClass" "()Ljava/lang/Class;"),
            method!(KnownOnly "clone" "()Ljava/lang/Object;"),
            method!(KnownOnly "notify" "()V"),
            method!(KnownOnly "notifyAll" "()V"),
            method!(KnownOnly "wait" "()V"),
            method!(KnownOnly "wait" "(J)V"),
            method!(KnownOnly "wait" "(JI)V"),
            method!(NoOverride "finalize" "()V"),
        ],
    },
    ClassRow {
        name: "java/lang/Runnable",
        kind: LibKind::Interface,
        super_name: Some("java/lang/Object"),
        interfaces: &[],
        members: &[method!(Callable "run" "()V")],
    },
    ClassRow {
        name: "java/lang/Comparable",
        kind: LibKind::Interface,
        super_name: Some("java/lang/Object"),
        interfaces: &[],
        members: &[method!(KnownOnly "compareTo" "(Ljava/lang/Object;)I")],
    },
    ClassRow {
        name: "java/lang/CharSequence",
        kind: LibKind::Interface,
        super_name: Some("java/lang/Object"),
        interfaces: &[],
        members: &[
            method!(KnownOnly "length" "()I"),
            method!(KnownOnly "charAt" "(I)C"),
            method!(KnownOnly "toString" "()Ljava/lang/String;"),
        ],
    },
    ClassRow {
        name: "java/lang/Cloneable",
        kind: LibKind::Interface,
        super_name: Some("java/lang/Object"),
        interfaces: &[],
        members: &[],
    },
    ClassRow {
        name: "java/io/Serializable",
        kind: LibKind::Interface,
        super_name: Some("java/lang/Object"),
        interfaces: &[],
        members: &[],
    },
    ClassRow {
        name: "java/lang/String",
        kind: LibKind::Final,
        super_name: Some("java/lang/Object"),
        interfaces: &[
            "java/lang/Comparable",
            "java/lang/CharSequence",
            "java/io/Serializable",
        ],
        members: &[
            method!(Callable "length" "()I"),
            method!(Callable "charAt" "(I)C"),
            method!(Callable "equals" "(Ljava/lang/Object;)Z"),
            method!(Callable "hashCode" "()I"),
            method!(Callable "isEmpty" "()Z"),
            method!(Callable "substring" "(I)Ljava/lang/String;"),
            method!(Callable "substring" "(II)Ljava/lang/String;"),
            method!(Callable "compareTo" "(Ljava/lang/String;)I"),
            method!(Callable "toString" "()Ljava/lang/String;"),
            static_method!("valueOf" "(I)Ljava/lang/String;"),
            static_method!("valueOf" "(J)Ljava/lang/String;"),
            static_method!("valueOf" "(C)Ljava/lang/String;"),
            static_method!("valueOf" "(Z)Ljava/lang/String;"),
        ],
    },
    ClassRow {
        name: "java/lang/StringBuilder",
        kind: LibKind::Final,
        super_name: Some("java/lang/Object"),
        interfaces: &["java/lang/CharSequence", "java/io/Serializable"],
        members: &[
            constructor!("()V"),
            constructor!("(Ljava/lang/String;)V"),
            method!(Callable "append" "(I)Ljava/lang/StringBuilder;"),
            method!(Callable "append" "(J)Ljava/lang/StringBuilder;"),
            method!(Callable "append" "(C)Ljava/lang/StringBuilder;"),
            method!(Callable "append" "(Z)Ljava/lang/StringBuilder;"),
            method!(Callable "append" "(Ljava/lang/String;)Ljava/lang/StringBuilder;"),
            method!(Callable "length" "()I"),
            method!(Callable "toString" "()Ljava/lang/String;"),
        ],
    },
    ClassRow {
        name: "java/lang/System",
        kind: LibKind::Final,
        super_name: Some("java/lang/Object"),
        interfaces: &[],
        members: &[static_field!("out" "Ljava/io/PrintStream;")],
    },
    ClassRow {
        name: "java/io/PrintStream",
        kind: LibKind::Open,
        super_name: Some("java/lang/Object"),
        interfaces: &[],
        members: &[
            method!(Callable "print" "(I)V"),
            method!(Callable "print" "(J)V"),
            method!(Callable "print" "(C)V"),
            method!(Callable "print" "(Z)V"),
            method!(Callable "print" "(Ljava/lang/String;)V"),
            method!(Callable "println" "(I)V"),
            method!(Callable "println" "(J)V"),
            method!(Callable "println" "(C)V"),
            method!(Callable "println" "(Z)V"),
            method!(Callable "println" "(Ljava/lang/String;)V"),
            method!(Callable "println" "()V"),
        ],
    },
    ClassRow {
        name: "java/lang/Throwable",
        kind: LibKind::Open,
        super_name: Some("java/lang/Object"),
        interfaces: &["java/io/Serializable"],
        members: &[
            constructor!("()V"),
            constructor!("(Ljava/lang/String;)V"),
            constructor!("(Ljava/lang/String;Ljava/lang/Throwable;)V"),
            method!(Callable "getMessage" "()Ljava/lang/String;"),
            method!(Callable "getCause" "()Ljava/lang/Throwable;"),
            method!(KnownOnly "toString" "()Ljava/lang/String;"),
            method!(KnownOnly "getLocalizedMessage" "()Ljava/lang/String;"),
            method!(KnownOnly "printStackTrace" "()V"),
            method!(KnownOnly "initCause" "(Ljava/lang/Throwable;)Ljava/lang/Throwable;"),
            method!(NoOverride "fillInStackTrace" "()Ljava/lang/Throwable;"),
        ],
    },
    ClassRow {
        name: "java/lang/Exception",
        kind: LibKind::Open,
        super_name: Some("java/lang/Throwable"),
        interfaces: &[],
        members: three_constructors!(),
    },
    ClassRow {
        name: "java/lang/Error",
        kind: LibKind::Open,
        super_name: Some("java/lang/Throwable"),
        interfaces: &[],
        members: three_constructors!(),
    },
    ClassRow {
        name: "java/lang/RuntimeException",
        kind: LibKind::Open,
        super_name: Some("java/lang/Exception"),
        interfaces: &[],
        members: three_constructors!(),
    },
    ClassRow {
        name: "java/lang/ArithmeticException",
        kind: LibKind::Open,
        super_name: Some("java/lang/RuntimeException"),
        interfaces: &[],
        members: two_constructors!(),
    },
    ClassRow {
        name: "java/lang/ArrayStoreException",
        kind: LibKind::Open,
        super_name: Some("java/lang/RuntimeException"),
        interfaces: &[],
        members: two_constructors!(),
    },
    ClassRow {
        name: "java/lang/ClassCastException",
        kind: LibKind::Open,
        super_name: Some("java/lang/RuntimeException"),
        interfaces: &[],
        members: two_constructors!(),
    },
    ClassRow {
        name: "java/lang/NegativeArraySizeException",
        kind: LibKind::Open,
        super_name: Some("java/lang/RuntimeException"),
        interfaces: &[],
        members: two_constructors!(),
    },
    ClassRow {
        name: "java/lang/NullPointerException",
        kind: LibKind::Open,
        super_name: Some("java/lang/RuntimeException"),
        interfaces: &[],
        members: two_constructors!(),
    },
    ClassRow {
        name: "java/lang/IndexOutOfBoundsException",
        kind: LibKind::Open,
        super_name: Some("java/lang/RuntimeException"),
        interfaces: &[],
        members: two_constructors!(),
    },
    ClassRow {
        name: "java/lang/ArrayIndexOutOfBoundsException",
        kind: LibKind::Open,
        super_name: Some("java/lang/IndexOutOfBoundsException"),
        interfaces: &[],
        members: two_constructors!(),
    },
    ClassRow {
        name: "java/lang/StringIndexOutOfBoundsException",
        kind: LibKind::Open,
        super_name: Some("java/lang/IndexOutOfBoundsException"),
        interfaces: &[],
        members: two_constructors!(),
    },
    ClassRow {
        name: "java/lang/IllegalArgumentException",
        kind: LibKind::Open,
        super_name: Some("java/lang/RuntimeException"),
        interfaces: &[],
        members: three_constructors!(),
    },
    ClassRow {
        name: "java/lang/IllegalStateException",
        kind: LibKind::Open,
        super_name: Some("java/lang/RuntimeException"),
        interfaces: &[],
        members: three_constructors!(),
    },
    ClassRow {
        name: "java/lang/UnsupportedOperationException",
        kind: LibKind::Open,
        super_name: Some("java/lang/RuntimeException"),
        interfaces: &[],
        members: three_constructors!(),
    },
    ClassRow {
        name: "java/lang/NumberFormatException",
        kind: LibKind::Open,
        super_name: Some("java/lang/IllegalArgumentException"),
        interfaces: &[],
        members: two_constructors!(),
    },
    ClassRow {
        name: "java/lang/LinkageError",
        kind: LibKind::Open,
        super_name: Some("java/lang/Error"),
        interfaces: &[],
        members: &[],
    },
    ClassRow {
        name: "java/lang/NoClassDefFoundError",
        kind: LibKind::Open,
        super_name: Some("java/lang/LinkageError"),
        interfaces: &[],
        members: &[],
    },
    ClassRow {
        name: "java/lang/ExceptionInInitializerError",
        kind: LibKind::Open,
        super_name: Some("java/lang/LinkageError"),
        interfaces: &[],
        members: &[],
    },
    ClassRow {
        name: "java/lang/IncompatibleClassChangeError",
        kind: LibKind::Open,
        super_name: Some("java/lang/LinkageError"),
        interfaces: &[],
        members: &[],
    },
    ClassRow {
        name: "java/lang/IllegalAccessError",
        kind: LibKind::Open,
        super_name: Some("java/lang/IncompatibleClassChangeError"),
        interfaces: &[],
        members: &[],
    },
    ClassRow {
        name: "java/lang/AbstractMethodError",
        kind: LibKind::Open,
        super_name: Some("java/lang/IncompatibleClassChangeError"),
        interfaces: &[],
        members: &[],
    },
];

/// The table.
pub(crate) fn classes() -> &'static [ClassRow]
    ensures { map told_class result.now ≡ library }
{
    &CLASSES
}
