// What holds of new names.
ghost use Rattle.fresh_names.specs.Laws.{ClassesDiffer, ClassesStay, FieldsDiffer, FieldsStay, MethodsDiffer};
ghost use Rattle.fresh_names.specs.Laws.{MethodsStay, PackagesStay};

/// No two names that stay or get a new one come to one: of classes, of fields, and of methods of one descriptor. A name
/// that stays is its own new one, and a class stays in its package. So it is whatever an earlier mapping gives.
pub fn given_names_differ()
    ensures classes { ClassesDiffer }
    ensures fields { FieldsDiffer }
    ensures methods { MethodsDiffer }
    ensures packages { PackagesStay }
    ensures classes_stay { ClassesStay }
    ensures fields_stay { FieldsStay }
    ensures methods_stay { MethodsStay }
{}
