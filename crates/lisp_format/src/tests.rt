use crate::{FormatFault, format_text};
use lisp_data::{NoMemory, Rows, Text, Value};
use std::alloc::Global;
use std::test::Fail;

/// `("a" 255 -255)`
fn arguments(alloc: Global) -> Result<Rows<Value>, NoMemory> {
    let mut items = Rows::new(alloc);
    items.push(Value::Str(Text::of(alloc, "a")?))?;
    items.push(Value::Int(255))?;
    items.push(Value::Int(-255))?;
    Ok(items)
}

fn gives(alloc: Global, control: &str, text: &str) -> Result<bool, FormatFault> {
    let items = arguments(alloc)?;
    let package = Text::of(alloc, "COMMON-LISP-USER")?;
    let control = Text::of(alloc, control)?;
    let made = format_text(alloc, &control, items.as_slice(), &package)?;
    Ok(made.as_str() == text)
}

fn is_refused(alloc: Global, control: &str, fault: FormatFault) -> Result<bool, NoMemory> {
    let items = arguments(alloc)?;
    let package = Text::of(alloc, "COMMON-LISP-USER")?;
    let control = Text::of(alloc, control)?;
    match format_text(alloc, &control, items.as_slice(), &package) {
        Ok(_) => Ok(false),
        Err(found) => Ok(found == fault),
    }
}

#[test]
fn directives_show_their_arguments(rt: HostRuntime) -> Result<(), Fail> {
    let alloc = rt.alloc();
    assert!(rt; gives(alloc, "é ~a~S ~x~%", "é a255 -FF\n")?);
    assert!(rt; gives(alloc, "~s ~X ~D~~", "\"a\" FF -255~")?);
    assert!(rt; gives(alloc, "~x ~d", "a 255")?);
    Ok(())
}

#[test]
fn the_first_fault_decides(rt: HostRuntime) -> Result<(), Fail> {
    let alloc = rt.alloc();
    assert!(rt; is_refused(alloc, "~5d", FormatFault::BadDirective)?);
    assert!(rt; is_refused(alloc, "~a~", FormatFault::BadDirective)?);
    let few = FormatFault::TooFewArguments;
    assert!(rt; is_refused(alloc, "~a~a~a~a~q", few)?);
    Ok(())
}
