//! The values of dynamic variables, and with them the package that is current.
//!
//! A dynamic variable has the value of its newest binding on the stack, else its global value in the image. What the layers above use is that
//! [`dynamic_value`] and [`assign_dynamic`] look it up and set it as the steps of `step_model` do, which the functions of `laws.rt` say, and that
//! [`current_package`], [`global_package`] and [`package_of_request`] answer what `specs/CurrentPackage.antt` of `step_model` says of `*PACKAGE*`: the
//! package that is current, the one that is global, and the binding of a request. `*PACKAGE*` belongs to the image, so no look-up makes a symbol.
#![tactic(auto)]

mod laws;
mod packages;
mod request_package;
mod values;

pub use laws::{assigning_is_that_of_a_step, the_value_is_that_of_a_step};
pub use packages::{current_package, global_package, set_global_package};
pub use request_package::package_of_request;
pub use values::{assign_dynamic, dynamic_value};
