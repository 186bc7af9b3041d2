// Classes in the order of their files.
ghost use Rattle.std.specs.Prelude.{◌≡◌, [], IfOk, OnOk};
ghost use Rattle.std.specs.BTreeMap.{insert_entry};
ghost use Rattle.std.specs.Cmp.Lexicographic.{slice_cmp};
ghost use Rattle.std.specs.Ordering.{nat_cmp};
ghost use Rattle.set_shrink.specs.Order.{class_path, in_order, put_at_paths};

use class_model::Class;
use jv_base::{Items, M, Text};
use std::alloc::Global;
use std::collections::BTreeMap;

/// Classes in the order of the paths of their files, which isn't that of their names: `a$b.class` stands before
/// `a.class`.
pub(crate) fn in_order(alloc: Global, classes: Items<Class>) -> M<Items<Class>>
    ensures { IfOk result (λ ordered. ordered ≡ in_order classes) }
{
    let placed = placed(alloc, classes)?;
    let mut ordered = Items::new(alloc);
    for class in placed.into_values() {
        ordered.push(class)?;
    }
    Ok(ordered)
}

/// Each class at the path of its file.
fn placed(alloc: Global, classes: Items<Class>) -> M<BTreeMap<Text, Class>>
    ensures { IfOk result (λ map. map.entries ≡ put_at_paths [] classes) }
{
    let mut map = BTreeMap::new(alloc);
    for class in classes.into_vec() {
        place(alloc, &mut map, class)?;
    }
    Ok(map)
}

/// Puts a class at the path of its file.
fn place(alloc: Global, map: &mut BTreeMap<Text, Class>, class: Class) -> M<()>
    ensures { OnOk result (map.new.entries
        ≡ insert_entry (slice_cmp nat_cmp) map.old.entries (class_path class) class) }
{
    let path = class_path(alloc, &class)?;
    map.insert(path, class)?;
    Ok(())
}

/// The path of a class's file below the directory of all classes.
fn class_path(alloc: Global, class: &Class) -> M<Text>
    ensures { IfOk result (λ path. path ≡ class_path class.now) }
{
    let name = class.name.as_str();
    Ok(Text::from_string(alloc, format!(in alloc; "{name}.class")?)?)
}
