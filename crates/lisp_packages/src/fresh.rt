ghost use Rattle.std.specs.Prelude.{◌≡◌, ◌++◌, [], ◌∷◌, map, IfOk, OnOk, OnErr};
ghost use Rattle.lisp_packages.specs.Fresh.{standard_entry, standard_own, standard_packages};

use crate::names::STANDARD_NAMES;
use crate::{Entry, Own, Package, Packages};
use lisp_data::{COMMON_LISP, KEYWORD, Name, NoMemory, Rows, Text};
use std::alloc::Global;

/// The external symbol of this name of COMMON-LISP.
fn standard_entry(alloc: Global, name: &str) -> Result<Entry, NoMemory>
    ensures { IfOk result (λ entry. entry ≡ standard_entry name.now) }
{
    Ok(Entry {
        symbol: Name::common_lisp(alloc, name)?,
        external: true,
    })
}

/// The symbols of these names of COMMON-LISP, all external.
fn standard_own(alloc: Global, names: &[&str]) -> Result<Own, NoMemory>
    ensures { IfOk result (λ own. own ≡ standard_own (map (λ name. name.now) names.now)) }
{
    let mut own = Own::new(alloc);
    let mut rest = names;
    while let [name, more @ ..] = rest {
        own.put(standard_entry(alloc, name)?)?;
        rest = more;
    }
    Ok(own)
}

impl Packages {
    /// The packages of a fresh image: COMMON-LISP with all its names, COMMON-LISP-USER and KEYWORD.
    pub fn new(alloc: Global) -> Result<Packages, NoMemory>
        ensures { IfOk result (λ packages. packages ≡ standard_packages) }
    {
        let mut packages = Packages::none(alloc);
        let mut nicknames = Rows::new(alloc);
        nicknames.push(Text::of(alloc, "CL")?)?;
        packages.push(Package {
            name: Text::of(alloc, COMMON_LISP)?,
            nicknames,
            uses: Rows::new(alloc),
            own: standard_own(alloc, &STANDARD_NAMES)?,
        })?;
        let mut nicknames = Rows::new(alloc);
        nicknames.push(Text::of(alloc, "CL-USER")?)?;
        let mut uses = Rows::new(alloc);
        uses.push(0)?;
        packages.push(Package {
            name: Text::of(alloc, "COMMON-LISP-USER")?,
            nicknames,
            uses,
            own: Own::new(alloc),
        })?;
        packages.push(Package {
            name: Text::of(alloc, KEYWORD)?,
            nicknames: Rows::new(alloc),
            uses: Rows::new(alloc),
            own: Own::new(alloc),
        })?;
        Ok(packages)
    }
}
