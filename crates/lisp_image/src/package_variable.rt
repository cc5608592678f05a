ghost use Rattle.std.specs.Prelude.{◌≡◌};
ghost use Rattle.lisp_image.specs.Image.{package_variable};

use lisp_data::{Name, NoMemory};
use std::alloc::Global;
use std::marker::Model;

/// The symbol `*PACKAGE*`, made once, so that to look its value up makes no symbol.
pub(crate) struct PackageVariable {
    name: Name,
}

impl Model for PackageVariable {
    ghost use Rattle.std.specs.Prelude.{◌≡◌};
    ghost use Rattle.lisp_data.specs.declared.symbol.Symbol.{Symbol};
    ghost use Rattle.lisp_image.specs.Image.{package_variable};

    ghost Value = { Symbol };

    ghost view = { λ v. v.name };

    ghost invariant = { λ v. v.name ≡ package_variable };
}

impl Drop for PackageVariable {
    fn drop(self) {
        let PackageVariable { name: _ } = self;
    }
}

impl PackageVariable {
    pub(crate) fn new(alloc: Global) -> Result<PackageVariable, NoMemory> {
        Ok(PackageVariable {
            name: Name::common_lisp(alloc, "*PACKAGE*")?,
        })
    }

    pub(crate) fn name(&self) -> &Name
        ensures { result.now ≡ package_variable }
    {
        &self.name
    }
}
