//! Objects, the heap and fields of the machine of `jvm_model`.
#![tactic(auto)]

mod acting;
mod answer;
mod arrays;
mod calls;
mod casts;
mod dimensions;
mod fields;
mod handlers;
mod key;
mod objects;
mod pointed;
mod seen;
mod shapes;
mod static_fields;
mod statics;
mod storing;
mod subtypes;
mod target;
mod world;

pub use answer::Answer;
pub use arrays::{array_length, blank_array, get_at, new_array};
pub use calls::{call_selected, call_special, called};
pub use casts::{cast, test};
pub use dimensions::new_arrays;
pub use fields::{Fields, Held, default_of, stored_in};
pub use handlers::{class_name, class_of, handler_of};
pub use key::Key;
pub use objects::{fresh, get_field, make, put_field};
pub use shapes::{Found, Known, Shapes};
pub use static_fields::Statics;
pub use statics::{get_static, put_static};
pub use storing::put_at;
pub use subtypes::{is_class_below, is_of_type};
pub use target::Target;
pub use world::{Instance, Object, World};
