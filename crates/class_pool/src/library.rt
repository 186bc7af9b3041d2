// The library's classes by name.
ghost use Rattle.std.specs.Prelude.{◌≡◌, map};
ghost use Rattle.lib_table.specs.Library.{library};

/// The names of the library's classes, in the order of its table (the project's own).
pub fn library_names() -> &'static [&'static str]
    ensures { map (λ name. name.now) result.now ≡ map (λ c. c.name) library }
{
    &[
        "java/lang/Object",
        "java/lang/Runnable",
        "java/lang/Comparable",
        "java/lang/CharSequence",
        "java/lang/Cloneable",
        "java/io/Serializable",
        "java/lang/String",
        "java/lang/StringBuilder",
        "java/lang/System",
        "java/io/PrintStream",
        "java/lang/Throwable",
        "java/lang/Exception",
        "java/lang/Error",
        "java/lang/RuntimeException",
        "java/lang/ArithmeticException",
        "java/lang/ArrayStoreException",
        "java/lang/ClassCastException",
        "java/lang/NegativeArraySizeException",
        "java/lang/NullPointerException",
        "java/lang/IndexOutOfBoundsException",
        "java/lang/ArrayIndexOutOfBoundsException",
        "java/lang/StringIndexOutOfBoundsException",
        "java/lang/IllegalArgumentException",
        "java/lang/IllegalStateException",
        "java/lang/UnsupportedOperationException",
        "java/lang/NumberFormatException",
        "java/lang/LinkageError",
        "java/lang/NoClassDefFoundError",
        "java/lang/ExceptionInInitializerError",
        "java/lang/IncompatibleClassChangeError",
        "java/lang/IllegalAccessError",
        "java/lang/AbstractMethodError",
    ]
}
