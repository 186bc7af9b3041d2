// The exceptions that the machine and the calls of the library make themselves (JVMS 5.5, 6.5).
ghost use Rattle.std.specs.Prelude.{◌≡◌};
ghost use Rattle.jvm_model.specs.Exceptions.{exception_class};
ghost use Rattle.run_library.specs.Rows.{exception_of};

/// An exception that carries no message.
#[derive(Clone, Copy, PartialEq, Eq)]
pub enum Exception {
    Arithmetic,
    NullPointer,
    ArrayIndex,
    NegativeSize,
    ArrayStore,
    ClassCast,
    TextIndex,
    NoClassDef,
    InInitializer,
    IncompatibleChange,
    IllegalAccess,
    AbstractMethod,
}

/// The name of its class in internal form.
pub fn class_of(exception: Exception) -> &'static str
    ensures { result.now ≡ exception_class (exception_of exception) }
{
    match exception {
        Exception::Arithmetic => "java/lang/ArithmeticException",
        Exception::NullPointer => "java/lang/NullPointerException",
        Exception::ArrayIndex => "java/lang/ArrayIndexOutOfBoundsException",
        Exception::NegativeSize => "java/lang/NegativeArraySizeException",
        Exception::ArrayStore => "java/lang/ArrayStoreException",
        Exception::ClassCast => "java/lang/ClassCastException",
        Exception::TextIndex => "java/lang/StringIndexOutOfBoundsException",
        Exception::NoClassDef => "java/lang/NoClassDefFoundError",
        Exception::InInitializer => "java/lang/ExceptionInInitializerError",
        Exception::IncompatibleChange => "java/lang/IncompatibleClassChangeError",
        Exception::IllegalAccess => "java/lang/IllegalAccessError",
        Exception::AbstractMethod => "java/lang/AbstractMethodError",
    }
}
