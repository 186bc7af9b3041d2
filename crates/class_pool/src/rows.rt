// What the definitions of supertypes, resolution and selection give for a few classes.
//
// Each clause is computed from the definitions. The classes are written out in specs/rows/LinkRows.antt; what is asked
// of them follows from JVMS 5.4.3 to 5.4.5. Not all of them could stand in one program.
ghost use Rattle.class_pool.specs.rows.LinkRows.{ClassAccessRows, ClassMethodRows, FieldRows, InterfaceMethodRows};
ghost use Rattle.class_pool.specs.rows.LinkRows.{InterfaceSelectionRows, MemberAccessRows, NotOverridingRows};
ghost use Rattle.class_pool.specs.rows.LinkRows.{OverridingRows, PackageRows, ProtectedRows, SpecialRows};
ghost use Rattle.class_pool.specs.rows.LinkRows.{SuperinterfaceMethodRows, SupertypeRows};

/// Carries what the definitions give for a few classes. It does nothing.
pub fn computed_links()
    ensures supertypes { SupertypeRows }
    ensures fields { FieldRows }
    ensures class_methods { ClassMethodRows }
    ensures superinterface_methods { SuperinterfaceMethodRows }
    ensures interface_methods { InterfaceMethodRows }
    ensures packages { PackageRows }
    ensures class_access { ClassAccessRows }
    ensures member_access { MemberAccessRows }
    ensures protected { ProtectedRows }
    ensures overriding { OverridingRows }
    ensures not_overriding { NotOverridingRows }
    ensures interface_selection { InterfaceSelectionRows }
    ensures special { SpecialRows }
{}
