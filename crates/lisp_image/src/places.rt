ghost use Rattle.std.specs.Prelude.{◌≡◌, List, ℕ, Some, ◌&&◌, if◌then◌else◌, OnOk, OnErr};
ghost use Rattle.std.specs.Str.{bytes_eq};
ghost use Rattle.indexmap.specs.IndexMap.{get_by_text};
ghost use Rattle.lisp_image.specs.Places.{number_of};

use indexmap::IndexMap;
use lisp_data::NoMemory;

/// The number of the symbol of this home and this name.
pub(crate) fn number_of(
    homes: &IndexMap<String, IndexMap<String, usize>>,
    home: &str,
    name: &str,
) -> Option<usize>
    ensures { result ≡ number_of homes.now home.now name.now }
{
    homes.get(home)?.get(name).copied()
}

/// Gives a name this number.
fn set_in_home(
    names: &mut IndexMap<String, usize>,
    name: &str,
    number: usize,
) -> Result<(), NoMemory>
    ensures ok { OnOk result ((n : List ℕ) → get_by_text names.new n ≡ (if bytes_eq name.now n then Some number else get_by_text names.old n)) }
    ensures err { OnErr result (names.new.entries ≡ names.old.entries) }
{
    let alloc = *names.allocator();
    let name = String::from_str(alloc, name)?;
    names.insert(name, number)?;
    Ok(())
}

/// Gives the symbol of this home and this name a number.
pub(crate) fn set_number(
    homes: &mut IndexMap<String, IndexMap<String, usize>>,
    home: &str,
    name: &str,
    number: usize,
) -> Result<(), NoMemory>
    ensures ok { OnOk result ((h n : List ℕ) → number_of homes.new h n ≡ (if bytes_eq home.now h && bytes_eq name.now n then Some number else number_of homes.old h n)) }
    ensures err { OnErr result ((h n : List ℕ) → number_of homes.new h n ≡ number_of homes.old h n) }
{
    if let Some(names) = homes.get_mut(home) {
        return set_in_home(names, name, number);
    }
    let alloc = *homes.allocator();
    let mut names = IndexMap::new(alloc);
    set_in_home(&mut names, name, number)?;
    let home = String::from_str(alloc, home)?;
    homes.insert(home, names)?;
    Ok(())
}
