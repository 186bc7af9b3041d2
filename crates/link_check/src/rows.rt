// What the rules for classes give for a few small sets.
//
// Each clause is computed from the definitions. The classes are written out in specs/rows/ProfileRows.antt; what is
// told of them follows from JVMS 4.10, 5.4.3 to 5.4.5 and 6.5. Not all of them could stand in one program.
ghost use Rattle.link_check.specs.rows.ProfileRows.{AccessRows, ArrayCallRows, CallRows, FieldRows, FinalRows};
ghost use Rattle.link_check.specs.rows.ProfileRows.{FlagRows};
ghost use Rattle.link_check.specs.rows.ProfileRows.{FloatRows, HandlerRows, ImplementingRows, InitRows};
ghost use Rattle.link_check.specs.rows.ProfileRows.{InterfaceBodyRows};
ghost use Rattle.link_check.specs.rows.ProfileRows.{LibraryCallRows, LibraryMethodRows, LibraryOverridingRows, NewRows};
ghost use Rattle.link_check.specs.rows.ProfileRows.{NotedRows, OperandRows, OverridingRows, OverridingThroughRows};
ghost use Rattle.link_check.specs.rows.ProfileRows.{ResolvedArrayRows, ResolvedFieldRows, ResolvedMethodRows};
ghost use Rattle.link_check.specs.rows.ProfileRows.{SeveralRows};
ghost use Rattle.link_check.specs.rows.ProfileRows.{SpecialRows, SuperinterfaceRows, SupertypeRows, TypeRows};

/// Carries what the rules give for a few small sets of classes. It does nothing.
pub fn computed_profile()
    ensures resolved_fields { ResolvedFieldRows }
    ensures resolved_methods { ResolvedMethodRows }
    ensures library_methods { LibraryMethodRows }
    ensures resolved_arrays { ResolvedArrayRows }
    ensures supertypes { SupertypeRows }
    ensures types { TypeRows }
    ensures operands { OperandRows }
    ensures handlers { HandlerRows }
    ensures fields { FieldRows }
    ensures calls { CallRows }
    ensures library_calls { LibraryCallRows }
    ensures access { AccessRows }
    ensures special_calls { SpecialRows }
    ensures instance_initialisation { InitRows }
    ensures new_objects { NewRows }
    ensures array_calls { ArrayCallRows }
    ensures final_fields { FinalRows }
    ensures overriding { OverridingRows }
    ensures overriding_through { OverridingThroughRows }
    ensures library_overriding { LibraryOverridingRows }
    ensures superinterfaces { SuperinterfaceRows }
    ensures implementing { ImplementingRows }
    ensures interface_bodies { InterfaceBodyRows }
    ensures flags { FlagRows }
    ensures noted { NotedRows }
    ensures floats { FloatRows }
    ensures several { SeveralRows }
{}
