//! What references between classes mean, and which classes are taken (JVMS 5.4.3 to 5.4.5).
#![tactic(auto)]

mod fault;
mod laws;
mod overriding;
mod references;
mod rows;
mod rules;
mod same;
mod text_places;

pub use fault::{LinkKind, ProfileFault, ProfileKind};
pub use laws::taken_sets_break_no_rule;
pub use references::access::is_class_below;
pub use references::found::{field_found, method_found};
pub use references::resolution::{resolve_field, resolve_method};
pub use references::running::{is_below, select_for, select_special_for};
pub use references::selection::select;
pub use references::special::select_special;
pub use rows::computed_profile;
pub use rules::calls::class_of;
pub use rules::profile::check_links;
pub use same::{is_same_ref, is_same_text};
pub use text_places::{PLACES, ref_place, text_place};
