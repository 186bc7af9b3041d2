// Which method of the library a class, a name and a descriptor tell (Java SE 8 API).
ghost use Rattle.std.specs.List.{find};
ghost use Rattle.std.specs.Option.{option_map};
ghost use Rattle.std.specs.Prelude.{◌≡◌, [], map};
ghost use Rattle.jvm_model.specs.LibraryRows.{entries_of, is_entry, of_builder, of_object, of_stream, of_string};
ghost use Rattle.jvm_model.specs.LibraryRows.{of_throwable, row_of};
ghost use Rattle.run_library.specs.Rows.{method_of};
ghost use Rattle.run_library.specs.bodies.Tables.{entry_of};

use crate::{Row, Told};

/// A method of a class.
pub(crate) struct Method {
    pub name: &'static str,
    pub descriptor: &'static str,
    pub row: Row,
}

macro_rules! method {
    ($name:literal $descriptor:literal $row:expr) => {
        Method {
            name: $name,
            descriptor: $descriptor,
            row: $row,
        }
    };
}

/// Those of Object.
static OF_OBJECT: [Method; 2] = [
    method!("<init>" "()V" Row::ObjectInit),
    method!("equals" "(Ljava/lang/Object;)Z" Row::ObjectEquals),
];

/// Those of String.
static OF_STRING: [Method; 13] = [
    method!("length" "()I" Row::StringLength),
    method!("charAt" "(I)C" Row::StringCharAt),
    method!("equals" "(Ljava/lang/Object;)Z" Row::StringEquals),
    method!("hashCode" "()I" Row::StringHashCode),
    method!("isEmpty" "()Z" Row::StringIsEmpty),
    method!("substring" "(I)Ljava/lang/String;" Row::StringFrom),
    method!("substring" "(II)Ljava/lang/String;" Row::StringBetween),
    method!("compareTo" "(Ljava/lang/String;)I" Row::StringCompareTo),
    method!("toString" "()Ljava/lang/String;" Row::StringToString),
    method!("valueOf" "(I)Ljava/lang/String;" Row::StringValueOf(Told::Int)),
    method!("valueOf" "(J)Ljava/lang/String;" Row::StringValueOf(Told::Long)),
    method!("valueOf" "(C)Ljava/lang/String;" Row::StringValueOf(Told::Char)),
    method!("valueOf" "(Z)Ljava/lang/String;" Row::StringValueOf(Told::Boolean)),
];

/// Those of StringBuilder.
static OF_BUILDER: [Method; 9] = [
    method!("<init>" "()V" Row::BuilderInit),
    method!("<init>" "(Ljava/lang/String;)V" Row::BuilderInitWith),
    method!("append" "(I)Ljava/lang/StringBuilder;" Row::BuilderAppend(Told::Int)),
    method!("append" "(J)Ljava/lang/StringBuilder;" Row::BuilderAppend(Told::Long)),
    method!("append" "(C)Ljava/lang/StringBuilder;" Row::BuilderAppend(Told::Char)),
    method!("append" "(Z)Ljava/lang/StringBuilder;" Row::BuilderAppend(Told::Boolean)),
    method!("append" "(Ljava/lang/String;)Ljava/lang/StringBuilder;" Row::BuilderAppend(Told::Text)),
    method!("length" "()I" Row::BuilderLength),
    method!("toString" "()Ljava/lang/String;" Row::BuilderToString),
];

/// Those of PrintStream.
static OF_STREAM: [Method; 11] = [
    method!("print" "(I)V" Row::Print(Told::Int)),
    method!("print" "(J)V" Row::Print(Told::Long)),
    method!("print" "(C)V" Row::Print(Told::Char)),
    method!("print" "(Z)V" Row::Print(Told::Boolean)),
    method!("print" "(Ljava/lang/String;)V" Row::Print(Told::Text)),
    method!("println" "(I)V" Row::PrintLine(Told::Int)),
    method!("println" "(J)V" Row::PrintLine(Told::Long)),
    method!("println" "(C)V" Row::PrintLine(Told::Char)),
    method!("println" "(Z)V" Row::PrintLine(Told::Boolean)),
    method!("println" "(Ljava/lang/String;)V" Row::PrintLine(Told::Text)),
    method!("println" "()V" Row::EndLine),
];

/// Those of Throwable and the exceptions below it.
static OF_THROWABLE: [Method; 5] = [
    method!("<init>" "()V" Row::ThrowableInit),
    method!("<init>" "(Ljava/lang/String;)V" Row::ThrowableInitWith),
    method!("<init>" "(Ljava/lang/String;Ljava/lang/Throwable;)V" Row::ThrowableInitFrom),
    method!("getMessage" "()Ljava/lang/String;" Row::GetMessage),
    method!("getCause" "()Ljava/lang/Throwable;" Row::GetCause),
];

fn of_object() -> &'static [Method]
    ensures { map entry_of result.now ≡ of_object }
{
    &OF_OBJECT
}

fn of_string() -> &'static [Method]
    ensures { map entry_of result.now ≡ of_string }
{
    &OF_STRING
}

fn of_builder() -> &'static [Method]
    ensures { map entry_of result.now ≡ of_builder }
{
    &OF_BUILDER
}

fn of_stream() -> &'static [Method]
    ensures { map entry_of result.now ≡ of_stream }
{
    &OF_STREAM
}

fn of_throwable() -> &'static [Method]
    ensures { map entry_of result.now ≡ of_throwable }
{
    &OF_THROWABLE
}

/// The methods of a class of the library; what is none of the first four and has methods is an exception, or an
/// interface, whose methods never run.
fn methods_of(class: &str) -> &'static [Method]
    ensures { map entry_of result.now ≡ entries_of class.now }
{
    if class == "java/lang/Object" {
        of_object()
    } else if class == "java/lang/String" {
        of_string()
    } else if class == "java/lang/StringBuilder" {
        of_builder()
    } else if class == "java/io/PrintStream" {
        of_stream()
    } else {
        of_throwable()
    }
}

fn row_among(methods: &[Method], name: &str, descriptor: &str) -> Option<Row>
    ensures { option_map method_of result ≡ option_map (λ e. e.row) (find (is_entry
        (record { class = []; name = name.now; descriptor = descriptor.now })) (map entry_of methods.now)) }
{
    for method in methods {
        if method.name == name && method.descriptor == descriptor {
            return Some(method.row);
        }
    }
    None
}

/// The method of a class of the library with a name and a descriptor, if a program may call it.
pub fn row_of(class: &str, name: &str, descriptor: &str) -> Option<Row>
    ensures { option_map method_of result ≡ row_of
        (record { class = class.now; name = name.now; descriptor = descriptor.now }) }
{
    row_among(methods_of(class), name, descriptor)
}
