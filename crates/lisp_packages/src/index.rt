ghost use Rattle.std.specs.Prelude.{◌≡◌, ◌<◌, List, ℕ, true, None, Some, length, slice_get, if◌then◌else◌, IfSome, OnOk, OnErr};
ghost use Rattle.std.specs.Option.{option_copied};
ghost use Rattle.std.specs.Str.{bytes_eq};
ghost use Rattle.indexmap.specs.IndexMap.{get_by_text};
ghost use Rattle.lisp_packages.specs.Named.{HasNames};
ghost use Rattle.lisp_packages.specs.Packages.{is_named, place_of};

use crate::Package;
use indexmap::IndexMap;
use lisp_data::{NoMemory, Text};

fn package_at(list: &[Package], place: usize) -> Option<&Package>
    ensures { option_copied result ≡ slice_get list.now place }
{
    list.get(place)
}

/// The place of the package that a text names.
pub(crate) fn find_place(
    list: &[Package],
    names: &IndexMap<String, usize>,
    text: &str,
) -> Option<usize>
    requires { HasNames names.now list.now }
    ensures place { result ≡ place_of list.now text.now }
    ensures within { IfSome result (λ i. i < length list.now) }
{
    let place = *names.get(text)?;
    let package = package_at(list, place)?;
    if package.is_named(text) {
        Some(place)
    } else {
        None
    }
}

/// Gives a text this place.
fn set_place(names: &mut IndexMap<String, usize>, text: &str, place: usize) -> Result<(), NoMemory>
    ensures ok { OnOk result ((t : List ℕ) → get_by_text names.new t ≡ (if bytes_eq text.now t then Some place else get_by_text names.old t)) }
    ensures err { OnErr result (names.new.entries ≡ names.old.entries) }
{
    let alloc = *names.allocator();
    let text = String::from_str(alloc, text)?;
    names.insert(text, place)?;
    Ok(())
}

/// Gives a text that names no package this place.
fn add_name(
    list: &[Package],
    names: &mut IndexMap<String, usize>,
    text: &Text,
    place: usize,
) -> Result<(), NoMemory>
    requires { HasNames names.old list.now }
    ensures names { HasNames names.new list.now }
    ensures added { OnOk result (place_of list.now text.now ≡ None → get_by_text names.new text.now ≡ Some place) }
    ensures kept { (t : List ℕ) → get_by_text names.old t ≡ Some place → get_by_text names.new t ≡ Some place }
{
    if find_place(list, names, text.as_str()).is_some() {
        return Ok(());
    }
    set_place(names, text.as_str(), place)?;
    Ok(())
}

/// Gives the names of a package that name none yet this place.
pub(crate) fn add_names(
    list: &[Package],
    names: &mut IndexMap<String, usize>,
    package: &Package,
    place: usize,
) -> Result<(), NoMemory>
    requires { HasNames names.old list.now }
    ensures names { HasNames names.new list.now }
    ensures added { OnOk result ((t : List ℕ) → is_named t «package».now ≡ true → place_of list.now t ≡ None → get_by_text names.new t ≡ Some place) }
{
    add_name(list, names, &package.name, place)?;
    for nickname in package.nicknames.as_slice() {
        add_name(list, names, nickname, place)?;
    }
    Ok(())
}
