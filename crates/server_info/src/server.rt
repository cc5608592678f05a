ghost use Rattle.std.specs.Prelude.{◌≡◌, [], ◌∷◌, ◌++◌, IfOk, OnOk};
ghost use Rattle.lisp_data.specs.declared.sexp.Sexp.TheVariants as form;
ghost use Rattle.server_info.specs.Info as spec;

use lisp_data::{NoMemory, Rows, Sexp};
use std::alloc::Global;

fn encoding(alloc: Global) -> Result<Sexp, NoMemory>
    ensures { IfOk result (λ x. x ≡ spec.encoding) }
{
    let systems = [Sexp::string(alloc, "utf-8-unix")?];
    let parts = [
        Sexp::symbol(alloc, ":CODING-SYSTEMS")?,
        Sexp::list(alloc, systems)?,
    ];
    Ok(Sexp::list(alloc, parts)?)
}

fn implementation(alloc: Global) -> Result<Sexp, NoMemory>
    ensures { IfOk result (λ x. x ≡ spec.implementation) }
{
    let parts = [
        Sexp::symbol(alloc, ":TYPE")?,
        Sexp::string(alloc, "Profile")?,
        Sexp::symbol(alloc, ":NAME")?,
        Sexp::string(alloc, "profile")?,
        Sexp::symbol(alloc, ":VERSION")?,
        Sexp::string(alloc, "1")?,
    ];
    Ok(Sexp::list(alloc, parts)?)
}

fn machine(alloc: Global) -> Result<Sexp, NoMemory>
    ensures { IfOk result (λ x. x ≡ spec.machine) }
{
    let parts = [
        Sexp::symbol(alloc, ":INSTANCE")?,
        Sexp::string(alloc, "none")?,
    ];
    Ok(Sexp::list(alloc, parts)?)
}

fn package_line(alloc: Global, name: &str, prompt: &str) -> Result<Sexp, NoMemory>
    ensures { IfOk result (λ x. x ≡ spec.package_line name.now prompt.now) }
{
    let parts = [
        Sexp::symbol(alloc, ":NAME")?,
        Sexp::string(alloc, name)?,
        Sexp::symbol(alloc, ":PROMPT")?,
        Sexp::string(alloc, prompt)?,
    ];
    Ok(Sexp::list(alloc, parts)?)
}

/// Adds a key and its value at the end.
fn add(alloc: Global, parts: &mut Rows<Sexp>, key: &str, value: Sexp) -> Result<(), NoMemory>
    ensures { OnOk result (parts.new ≡ parts.old ++ form.Sym key.now ∷ value ∷ []) }
{
    parts.push(Sexp::symbol(alloc, key)?)?;
    parts.push(value)?;
    Ok(())
}

fn about_server(alloc: Global) -> Result<Rows<Sexp>, NoMemory>
    ensures { IfOk result (λ parts. parts ≡ spec.about_server) }
{
    let mut parts = Rows::new(alloc);
    add(alloc, &mut parts, ":PID", Sexp::Int(0))?;
    add(alloc, &mut parts, ":STYLE", Sexp::symbol(alloc, ":SPAWN")?)?;
    add(alloc, &mut parts, ":ENCODING", encoding(alloc)?)?;
    let implementation = implementation(alloc)?;
    add(alloc, &mut parts, ":LISP-IMPLEMENTATION", implementation)?;
    add(alloc, &mut parts, ":MACHINE", machine(alloc)?)?;
    Ok(parts)
}

/// What the server says of itself, with the name and the prompt of the global package.
pub fn info(alloc: Global, name: &str, prompt: &str) -> Result<Sexp, NoMemory>
    ensures { IfOk result (λ x. x ≡ spec.info name.now prompt.now) }
{
    let mut parts = about_server(alloc)?;
    add(alloc, &mut parts, ":FEATURES", Sexp::nil(alloc))?;
    add(alloc, &mut parts, ":MODULES", Sexp::nil(alloc))?;
    let package = package_line(alloc, name, prompt)?;
    add(alloc, &mut parts, ":PACKAGE", package)?;
    add(alloc, &mut parts, ":VERSION", Sexp::string(alloc, "2.28")?)?;
    Ok(Sexp::List(parts))
}
