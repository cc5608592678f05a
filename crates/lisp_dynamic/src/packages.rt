ghost use Rattle.std.specs.Prelude.{◌≡◌, IfOk, OnErr, OnOk};
ghost use Rattle.std.specs.Option.{option_copied, option_map_or};
ghost use Rattle.lisp_data.specs.declared.value.Value.TheVariants as value;
ghost use Rattle.lisp_data.specs.declared.value.Value.TheViews.{out-Value};
ghost use Rattle.lisp_packages.specs.Packages.{name_at, place_of};
ghost use Rattle.step_model.specs.CurrentPackage.{current_package, global_package, named_by, package_of, package_variable, user_package};
ghost use Rattle.step_model.specs.Image.{with_global};

use crate::dynamic_value;
use lisp_data::{NoMemory, Text, Value};
use lisp_frames::Stack;
use lisp_image::Image;
use lisp_packages::Packages;
use std::alloc::Global;

/// The package that a value which names none stands for.
pub(crate) const USER_PACKAGE: &str = "COMMON-LISP-USER";

/// The full name of the package that a text names, and COMMON-LISP-USER where it names none.
fn package_named(alloc: Global, packages: &Packages, text: &Text) -> Result<Text, NoMemory>
    ensures { IfOk result (λ name. name ≡ option_map_or (name_at packages.now) (place_of packages.now text.now) user_package) }
{
    match packages.find_package(text) {
        Some(name) => name.copy(alloc),
        None => Text::of(alloc, USER_PACKAGE),
    }
}

/// The same of the package that a value names.
fn package_named_by(alloc: Global, packages: &Packages, value: &Value) -> Result<Text, NoMemory>
    ensures { IfOk result (λ name. name ≡ named_by packages.now (out-Value value.now)) }
{
    match value {
        Value::Str(text) => package_named(alloc, packages, text),
        _ => Text::of(alloc, USER_PACKAGE),
    }
}

/// The same of a value that there may be.
fn package_of(alloc: Global, packages: &Packages, value: Option<&Value>) -> Result<Text, NoMemory>
    ensures { IfOk result (λ name. name ≡ package_of packages.now (option_copied value.entry)) }
{
    match value {
        Some(value) => package_named_by(alloc, packages, value),
        None => Text::of(alloc, USER_PACKAGE),
    }
}

/// A copy of the full name of the thread's current package.
pub fn current_package(alloc: Global, stack: &Stack, image: &Image) -> Result<Text, NoMemory>
    ensures { IfOk result (λ name. name ≡ current_package image.now stack.now.context) }
{
    let variable = image.package_variable().symbol();
    package_of(alloc, image.names(), dynamic_value(stack, image, variable))
}

/// A copy of the full name of the package that the global value of `*PACKAGE*` names.
pub fn global_package(alloc: Global, image: &Image) -> Result<Text, NoMemory>
    ensures { IfOk result (λ name. name ≡ global_package image.now) }
{
    let variable = image.package_variable().symbol();
    package_of(alloc, image.names(), image.global(variable))
}

/// Makes the package of this full name the global one.
pub fn set_global_package(image: &mut Image, name: Text) -> Result<(), NoMemory>
    ensures ok { OnOk result (image.new ≡ with_global image.old package_variable (value.Str name)) }
    ensures err { OnErr result (image.new ≡ image.old) }
{
    let variable = image.package_variable().share()?;
    image.set_global(variable.symbol(), Value::Str(name))
}
