// Which method runs where another one is called on objects of a class (JVMS 5.4.5, 6.5).
//
// `select` walks up to the class of the method. Here the nearest method of its name and descriptor is noted, also the
// nearest one of each package, and a table tells at once whether the class of the method is above.
ghost use Rattle.std.specs.Prelude.{◌≡◌, ◌<◌, IfSome, IsTrue, Some, length, slice_get, true};
ghost use Rattle.class_pool.specs.Found.{IsMember};
ghost use Rattle.class_pool.specs.Resolution.{is_class_below};
ghost use Rattle.class_pool.specs.Selection.{may_override, selected};
ghost use Rattle.std.specs.List.{find};
ghost use Rattle.class_pool.specs.Walk.{superclasses_from};
ghost use Rattle.class_pool.specs.declared.id.ClassId.TheVariants.{Prog};
ghost use Rattle.link_check.specs.bodies.Overriding.{alike_from, has_open_override};
ghost use Rattle.override_pairs.specs.bodies.Above.{IsReceiver};
ghost use Rattle.method_places.specs.bodies.Alike.{HasItem, member_at};
ghost use Rattle.method_places.specs.bodies.Nearest.{IsListed, Runs};
ghost use Rattle.method_places.specs.bodies.Places.{place_in};
ghost use Rattle.method_places.specs.declared.methods.Openness.TheVariants.{Open, Package};

use crate::free::Free;
use class_pool::{ClassId, MemberAt};
use item_numbers::Numbered;
use jv_base::Items;
use link_check::select;
use method_places::{InstanceMethod, Note, Openness, Places, is_overriding, noted};

/// A class on whose objects methods are called, and what is known of the classes above it.
#[derive(Drop)]
pub(crate) struct Receiver<'a> {
    pub numbered: &'a Numbered<'a>,
    /// The number of the class.
    pub class: u32,
    /// The instance methods of each class.
    pub table: &'a Items<Items<InstanceMethod>>,
    /// For each class one that it is or is a superclass of.
    pub below: &'a [u32],
    pub stamp: u32,
    /// With that stamp the nearest methods from the class upwards.
    pub notes: &'a [Note],
    /// The methods that may override others by their places.
    pub places: &'a Places,
    /// The nearest methods of each place, and of those that methods of all packages may override.
    pub placed: &'a [Note],
    pub opening: &'a [Note],
    /// For each class how many steps it is above the one that is given for it.
    pub steps: &'a [usize],
    /// The methods that may override others, where a private method has their number, and the nearest ones.
    pub free: &'a Free,
    pub freed: &'a [Note],
}

impl<'a> Receiver<'a> {
    /// The method that runs where that of a row of a class is called on an object of the class, by its name and its
    /// descriptor.
    pub fn selected(&self, above: u32, row: &InstanceMethod) -> Option<MemberAt>
        requires receiver { IsReceiver self.now }
        requires above { above < length self.now.numbered.now.set.now }
        requires row { IsListed self.now.table.now above row.now }
        ensures is { result ≡ selected self.now.numbered.now.set.now (Prog self.now.class) (member_at row.now) }
        ensures there { IfSome result (IsMember self.now.numbered.now.set.now) }
    {
        select(self.numbered.set, ClassId::Prog(self.class), member_of(row))
    }

    /// The same, where the notes tell it. It is told whether the class of the row is known to be above.
    pub fn known(&self, above: u32, is_above: bool, row: &InstanceMethod) -> Option<InstanceMethod>
        requires receiver { IsReceiver self.now }
        requires above { above < length self.now.numbered.now.set.now }
        requires is_above { IsTrue is_above
            → is_class_below self.now.numbered.now.set.now (Prog self.now.class) (Prog above) ≡ true }
        requires row { IsListed self.now.table.now above row.now }
        ensures is { IfSome result (λ found. selected self.now.numbered.now.set.now (Prog self.now.class)
            (member_at row.now) ≡ Some (member_at found)) }
        ensures item { IfSome result (HasItem self.now.numbered.now.set.now) }
    {
        if row.number == 0 {
            return None;
        }
        if is_above && is_of_package(row) {
            return self.known_of_package(above, row);
        }
        let nearest = noted(self.notes, self.stamp, row.number)?;
        if self.runs(is_above, row, &nearest) {
            Some(nearest)
        } else if is_above && is_open(row) {
            self.known_open(above, row)
        } else {
            None
        }
    }

    /// The same of a method that methods of all packages may override, where a private method has its number.
    fn known_open(&self, above: u32, row: &InstanceMethod) -> Option<InstanceMethod>
        requires receiver { IsReceiver self.now }
        requires above { above < length self.now.numbered.now.set.now }
        requires is_above { is_class_below self.now.numbered.now.set.now (Prog self.now.class) (Prog above) ≡ true }
        requires row { IsListed self.now.table.now above row.now }
        requires kind { row.now.openness ≡ Open }
        requires number { 0 < row.now.number }
        ensures is { IfSome result (λ found. selected self.now.numbered.now.set.now (Prog self.now.class)
            (member_at row.now) ≡ Some (member_at found)) }
        ensures item { IfSome result (HasItem self.now.numbered.now.set.now) }
    {
        self.nearest_free(above, row)
    }

    /// The same of a method that methods of its package alone may override: the nearest one of its place; where a method
    /// of that place between opens it to all packages, the nearest one of its name and descriptor.
    fn known_of_package(&self, above: u32, row: &InstanceMethod) -> Option<InstanceMethod>
        requires receiver { IsReceiver self.now }
        requires above { above < length self.now.numbered.now.set.now }
        requires is_above { is_class_below self.now.numbered.now.set.now (Prog self.now.class) (Prog above) ≡ true }
        requires row { IsListed self.now.table.now above row.now }
        requires kind { row.now.openness ≡ Package }
        requires number { 0 < row.now.number }
        ensures is { IfSome result (λ found. selected self.now.numbered.now.set.now (Prog self.now.class)
            (member_at row.now) ≡ Some (member_at found)) }
        ensures item { IfSome result (HasItem self.now.numbered.now.set.now) }
    {
        let place = self.places.place(row);
        if place == 0 || place >= self.opening.len() {
            return None;
        }
        if self.is_opened(above, row, place)? {
            self.known_opened(above, row)
        } else {
            noted(self.placed, self.stamp, place)
        }
    }

    /// Whether a method between the class and that of a row opens the method of the row to all packages, where it is
    /// known. It is told the place of the row.
    fn is_opened(&self, above: u32, row: &InstanceMethod, place: usize) -> Option<bool>
        requires receiver { IsReceiver self.now }
        requires above { above < length self.now.numbered.now.set.now }
        requires row { IsListed self.now.table.now above row.now }
        requires kind { row.now.openness ≡ Package }
        requires number { 0 < row.now.number }
        requires place { place_in self.now.places.now.packages self.now.places.now.keys.items row.now ≡ place }
        requires some { 0 < place }
        requires within { place < length self.now.opening.now }
        ensures { IfSome result (λ opened. has_open_override self.now.numbered.now.set.now (member_at row.now)
            (alike_from self.now.numbered.now.set.now (member_at row.now) (Prog self.now.class)) ≡ opened) }
    {
        let Some(opening) = noted(self.opening, self.stamp, place) else {
            return Some(false);
        };
        self.numbered.set.has_ranks();
        let first = self.step(opening.class)?;
        let own = self.step(row.class)?;
        Some(first < own)
    }

    /// The method that runs where one is called that is opened to all packages, where it is the nearest one.
    fn known_opened(&self, above: u32, row: &InstanceMethod) -> Option<InstanceMethod>
        requires receiver { IsReceiver self.now }
        requires above { above < length self.now.numbered.now.set.now }
        requires is_above { is_class_below self.now.numbered.now.set.now (Prog self.now.class) (Prog above) ≡ true }
        requires row { IsListed self.now.table.now above row.now }
        requires kind { row.now.openness ≡ Package }
        requires number { 0 < row.now.number }
        requires opened { has_open_override self.now.numbered.now.set.now (member_at row.now)
            (alike_from self.now.numbered.now.set.now (member_at row.now) (Prog self.now.class)) ≡ true }
        ensures is { IfSome result (λ found. selected self.now.numbered.now.set.now (Prog self.now.class)
            (member_at row.now) ≡ Some (member_at found)) }
        ensures item { IfSome result (HasItem self.now.numbered.now.set.now) }
    {
        let nearest = noted(self.notes, self.stamp, row.number)?;
        if is_overriding(&nearest) {
            Some(nearest)
        } else {
            self.nearest_free(above, row)
        }
    }

    /// The nearest method of the name and descriptor of a row that may override others, where it is noted.
    fn nearest_free(&self, above: u32, row: &InstanceMethod) -> Option<InstanceMethod>
        requires receiver { IsReceiver self.now }
        requires above { above < length self.now.numbered.now.set.now }
        requires row { IsListed self.now.table.now above row.now }
        requires number { 0 < row.now.number }
        ensures is { IfSome result (λ found. find (may_override self.now.numbered.now.set.now)
            (alike_from self.now.numbered.now.set.now (member_at row.now) (Prog self.now.class))
            ≡ Some (member_at found)) }
        ensures item { IfSome result (HasItem self.now.numbered.now.set.now) }
    {
        let _ = above;
        let _ = self.free;
        noted(self.freed, self.stamp, row.number)
    }

    /// How many steps a class is above that of the receiver, where it is known to be above it or is it.
    fn step(&self, class: u32) -> Option<usize>
        requires receiver { IsReceiver self.now }
        ensures { IfSome result (λ k. slice_get
            (superclasses_from self.now.numbered.now.set.now (Prog self.now.class)) k ≡ Some (Prog class)) }
    {
        let below = *self.below.get(class as usize)?;
        if below != self.class {
            return None;
        }
        Some(*self.steps.get(class as usize)?)
    }

    /// Whether it is known that the nearest method of its name and descriptor runs where that of a row is called.
    fn runs(&self, is_above: bool, row: &InstanceMethod, nearest: &InstanceMethod) -> bool
        requires is_above { IsTrue is_above
            → is_class_below self.now.numbered.now.set.now (Prog self.now.class) (Prog row.now.class) ≡ true }
        ensures { IsTrue result → Runs self.now.numbered.now.set.now self.now.class row.now nearest.now }
    {
        let _ = self.numbered;
        nearest.class == row.class
            || match row.openness {
                Openness::Abstract => true,
                Openness::Open => is_overriding(nearest) && is_above,
                Openness::Package | Openness::Private => false,
            }
    }

    /// Whether it is known that a class is the one of the receiver or a superclass of it.
    pub fn is_above(&self, class: u32) -> bool
        requires receiver { IsReceiver self.now }
        requires class { class < length self.now.numbered.now.set.now }
        ensures { IsTrue result
            → is_class_below self.now.numbered.now.set.now (Prog self.now.class) (Prog class) ≡ true }
    {
        self.below[class as usize] == self.class
    }
}

/// Whether only methods of its package may override a method.
fn is_of_package(row: &InstanceMethod) -> bool
    ensures { IsTrue result → row.now.openness ≡ Package }
{
    matches!(row.openness, Openness::Package)
}

/// Whether methods of all packages may override a method.
fn is_open(row: &InstanceMethod) -> bool
    ensures { IsTrue result → row.now.openness ≡ Open }
{
    matches!(row.openness, Openness::Open)
}

/// The member of a row.
pub(crate) fn member_of(row: &InstanceMethod) -> MemberAt
    ensures { result ≡ member_at row.now }
{
    MemberAt {
        class: ClassId::Prog(row.class),
        index: row.index,
    }
}
