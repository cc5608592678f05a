ghost use Rattle.std.specs.Prelude.{◌≡◌, IfOk};
ghost use Rattle.swank_rpc.specs.Info as spec;

use lisp_data::{NoMemory, Rows, Sexp, Text};
use lisp_dynamic::global_package;
use lisp_image::Image;
use lisp_packages::Packages;
use rpc_messages::cut;
use server_info::info;
use std::alloc::Global;

/// How many names a list of packages has at most.
const MAX_ITEMS: u64 = 1000;

/// What a prompt shows for the package of a name.
pub fn prompt(alloc: Global, packages: &Packages, name: &Text) -> Result<Text, NoMemory>
    ensures { IfOk result (λ prompt. prompt ≡ spec.prompt packages.now name.now) }
{
    match packages.prompt(name) {
        Some(prompt) => prompt.copy(alloc),
        None => name.copy(alloc),
    }
}

/// `(NAME PROMPT)` of the global package.
pub fn repl_package(alloc: Global, image: &Image) -> Result<Sexp, NoMemory>
    ensures { IfOk result (λ form. form ≡ spec.repl_package image.now) }
{
    let name = global_package(alloc, image)?;
    let prompt = prompt(alloc, image.names(), &name)?;
    let items = [
        Sexp::string(alloc, name.as_str())?,
        Sexp::string(alloc, prompt.as_str())?,
    ];
    Ok(Sexp::list(alloc, items)?)
}

/// What the server says of itself.
pub fn connection_info(alloc: Global, image: &Image) -> Result<Sexp, NoMemory>
    ensures { IfOk result (λ form. form ≡ spec.connection_info image.now) }
{
    let name = global_package(alloc, image)?;
    let prompt = prompt(alloc, image.names(), &name)?;
    Ok(info(alloc, name.as_str(), prompt.as_str())?)
}

/// The names of the first 1,000 packages, in order of making.
pub fn package_names(alloc: Global, packages: &Packages) -> Result<Sexp, NoMemory>
    ensures { IfOk result (λ form. form ≡ spec.package_names packages.now) }
{
    let mut names = Rows::new(alloc);
    for n in 0..MAX_ITEMS {
        let Some(name) = packages.package_at(n) else {
            return Ok(Sexp::List(names));
        };
        let name = cut(alloc, name.as_str())?;
        names.push(Sexp::Str(name))?;
    }
    Ok(Sexp::List(names))
}
