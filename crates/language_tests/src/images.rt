ghost use Rattle.std.specs.Prelude.{IfOk};
ghost use Rattle.lisp_image.specs.Image.{HasSmallOffset, IsFunctionName};

use lisp_data::{Name, NoMemory, Rows, Shared, Symbol, Text, Value};
use lisp_image::{Function, Image};
use std::alloc::Global;
use std::test::Fail;
use syntax_trees::Forms;

fn symbol(alloc: Global, home: &str, name: &str) -> Result<Symbol, NoMemory> {
    Ok(Symbol {
        home: Text::of(alloc, home)?,
        name: Text::of(alloc, name)?,
    })
}

/// A symbol that may name a user function.
fn function_name(alloc: Global, name: &str) -> Result<Symbol, NoMemory>
    ensures { IfOk result (λ symbol. IsFunctionName symbol) }
{
    Ok(Symbol {
        home: Text::of(alloc, "COMMON-LISP-USER")?,
        name: Text::of(alloc, name)?,
    })
}

/// A function of no parameters, or of a rest parameter alone, with an empty body.
fn function(alloc: Global, rest: Option<Name>) -> Result<Function, NoMemory>
    ensures { IfOk result (λ function. HasSmallOffset function) }
{
    Ok(Function {
        required: Rows::new(alloc),
        optional: Rows::new(alloc),
        rest,
        body: Forms::of(Shared::new(alloc, Rows::new(alloc))?),
        source: None,
    })
}

fn is_text(value: Option<&Value>, want: &str) -> bool {
    matches!(value, Some(Value::Str(text)) if text.as_str() == want)
}

fn has_current_package_alone(image: &Image, current: &Symbol, other: &Symbol) -> bool {
    is_text(image.global(current), "COMMON-LISP-USER")
        && image.is_special(current)
        && image.global(other).is_none()
        && !image.is_special(other)
        && image.function_at(0).is_none()
        && image.names().package_at(2).is_some()
        && image.names().package_at(3).is_none()
}

fn set_text(image: &mut Image, alloc: Global, s: &Symbol, text: &str) -> Result<(), NoMemory> {
    image.set_global(s, Value::Str(Text::of(alloc, text)?))
}

/// Whether a value replaces another and proclaims nothing.
fn replaces(image: &mut Image, alloc: Global, s: &Symbol) -> Result<bool, NoMemory> {
    set_text(image, alloc, s, "old")?;
    set_text(image, alloc, s, "new")?;
    let is_lexical = !image.is_special(s);
    image.proclaim_special(s)?;
    Ok(is_lexical && image.is_special(s) && is_text(image.global(s), "new"))
}

/// Whether a function that is defined again is another one in the same place of the order.
fn keeps_its_place(
    image: &mut Image,
    alloc: Global,
    f: &Symbol,
    g: &Symbol,
    rest: Name,
) -> Result<bool, NoMemory>
    requires f { IsFunctionName f.now }
    requires g { IsFunctionName g.now }
{
    image.define(f, function(alloc, None)?)?;
    image.define(g, function(alloc, None)?)?;
    image.define(f, function(alloc, Some(rest))?)?;
    let is_last = image.function_at(2).is_none();
    let is_same = image.function(g).map_or(false, |old| old.rest.is_none());
    let is_first = image
        .function_at(0)
        .map_or(false, |found| found.1.rest.is_some());
    Ok(is_last && is_same && is_first && image.function(f).is_some())
}

/// Whether a symbol that is made through the image is in its packages.
fn interns(image: &mut Image, package: &Text, name: &Text) -> bool {
    let made = image.packages().intern(package, name).is_ok();
    made && image.names().find_symbol(package, name).is_some()
}

#[test]
fn a_fresh_image_has_the_current_package_alone(rt: HostRuntime) -> Result<(), Fail> {
    let alloc = rt.alloc();
    let current = symbol(alloc, "COMMON-LISP", "*PACKAGE*")?;
    let other = symbol(alloc, "COMMON-LISP-USER", "*PACKAGE*")?;
    let image = Image::new(alloc)?;
    assert!(rt; has_current_package_alone(&image, &current, &other));
    Ok(())
}

#[test]
fn a_global_value_is_replaced_and_proclaims_nothing(rt: HostRuntime) -> Result<(), Fail> {
    let alloc = rt.alloc();
    let x = symbol(alloc, "COMMON-LISP-USER", "X")?;
    let mut image = Image::new(alloc)?;
    let holds = replaces(&mut image, alloc, &x)?;
    assert!(rt; holds);
    Ok(())
}

#[test]
fn a_function_defined_again_keeps_its_place(rt: HostRuntime) -> Result<(), Fail> {
    let alloc = rt.alloc();
    let f = function_name(alloc, "F")?;
    let g = function_name(alloc, "G")?;
    let rest = Name::new(alloc, symbol(alloc, "KEYWORD", "REST")?)?;
    let mut image = Image::new(alloc)?;
    let holds = keeps_its_place(&mut image, alloc, &f, &g, rest)?;
    assert!(rt; holds);
    Ok(())
}

#[test]
fn packages_change_through_the_image(rt: HostRuntime) -> Result<(), Fail> {
    let alloc = rt.alloc();
    let user = Text::of(alloc, "CL-USER")?;
    let name = Text::of(alloc, "ZZ")?;
    let mut image = Image::new(alloc)?;
    let holds = interns(&mut image, &user, &name);
    assert!(rt; holds);
    Ok(())
}
