ghost use Rattle.std.specs.Prelude.{◌≡◌, ◌↔◌, option_map, IsTrue, IfOk, OnOk, OnErr};
ghost use Rattle.std.specs.Option.{option_copied};
ghost use Rattle.std.specs.Borrow.{sem};
ghost use Rattle.lisp_packages.specs.Fresh.{standard_packages};
ghost use Rattle.lisp_image.specs.Image.{IsFunctionName, HasSmallOffset, global, is_special, function, function_at, with_global, with_special, with_function, fresh_image, package_variable};

use crate::package_variable::PackageVariable;
use crate::{Function, SymbolMap};
use lisp_data::{Name, NoMemory, Symbol, Text, Value};
use lisp_packages::Packages;
use std::alloc::Global;
use std::marker::Model;

/// The image of a session: the packages, the global values, the special variables and the user functions. Contracts see the record
/// of these four.
pub struct Image {
    packages: Packages,
    globals: SymbolMap<Value>,
    specials: SymbolMap<()>,
    functions: SymbolMap<Function>,
    package_variable: PackageVariable,
}

impl Model for Image {
    ghost use Rattle.std.specs.Coded.{codes};
    ghost use Rattle.lisp_data.specs.contracts.value.Value as value;
    ghost use Rattle.lisp_image.specs.Image.{ImageState};
    ghost use Rattle.syntax_trees.specs.contracts.ast.Ast as ast;

    ghost Value = { ImageState };

    ghost coded = { Prim.hlevel (codes, ast.the_row.coded, value.the_row.coded) };

    ghost view = { λ i. record { packages = i.packages; globals = i.globals; specials = i.specials; functions = i.functions } };
}

impl Drop for Image {
    fn drop(self) {
        let Image {
            packages: _,
            globals: _,
            specials: _,
            functions: _,
            package_variable: _,
        } = self;
    }
}

impl Image {
    ghost use Rattle.lisp_image.specs.Lends.{LendsPackages};

    /// The fresh image.
    pub fn new(alloc: Global) -> Result<Image, NoMemory>
        ensures { IfOk result (λ image. image ≡ fresh_image standard_packages) }
    {
        let mut image = Image {
            packages: Packages::new(alloc)?,
            globals: SymbolMap::new(alloc),
            specials: SymbolMap::new(alloc),
            functions: SymbolMap::new(alloc),
            package_variable: PackageVariable::new(alloc)?,
        };
        let variable = image.package_variable().share()?;
        image.proclaim_special(variable.symbol())?;
        let name = Text::of(alloc, "COMMON-LISP-USER")?;
        image.set_global(variable.symbol(), Value::Str(name))?;
        Ok(image)
    }

    /// `*PACKAGE*`, the variable that holds the name of the current package.
    pub fn package_variable(&self) -> &Name
        ensures { result.now ≡ package_variable }
    {
        self.package_variable.name()
    }

    /// The global value of a variable; None where it has none.
    pub fn global(&self, s: &Symbol) -> Option<&Value>
        ensures { option_copied result ≡ global self.now s.now }
    {
        self.globals.get(s)
    }

    pub fn set_global(&mut self, s: &Symbol, v: Value) -> Result<(), NoMemory>
        ensures ok { OnOk result (self.new ≡ with_global self.old s.now v) }
        ensures err { OnErr result (self.new ≡ self.old) }
    {
        self.globals.set(s, v)
    }

    /// The user function of a symbol; None where it has none.
    pub fn function(&self, s: &Symbol) -> Option<&Function>
        ensures { option_copied result ≡ function self.now s.now }
    {
        self.functions.get(s)
    }

    /// Gives the symbol this function. A symbol that has one keeps its place in the order of first definition.
    pub fn define(&mut self, s: &Symbol, f: Function) -> Result<(), NoMemory>
        requires name { IsFunctionName s.now }
        requires source { HasSmallOffset f }
        ensures ok { OnOk result (self.new ≡ with_function self.old s.now f) }
        ensures err { OnErr result (self.new ≡ self.old) }
    {
        self.functions.set(s, f)
    }

    pub fn proclaim_special(&mut self, s: &Symbol) -> Result<(), NoMemory>
        ensures ok { OnOk result (self.new ≡ with_special self.old s.now) }
        ensures err { OnErr result (self.new ≡ self.old) }
    {
        self.specials.set(s, ())
    }

    pub fn is_special(&self, s: &Symbol) -> bool
        ensures { result ≡ is_special self.now s.now }
    {
        self.specials.get(s).is_some()
    }

    /// The packages, to be changed.
    pub fn packages(&mut self) -> &mut Packages
        ensures* writes_back { sem 𝓛 (LendsPackages self.entry result) }
        ensures value { result.now ≡ self.old.packages }
    {
        &mut self.packages
    }

    /// The packages, to be read.
    pub fn names(&self) -> &Packages
        ensures { result.now ≡ self.now.packages }
    {
        &self.packages
    }

    /// The n-th user function in order of first definition, from 0, with its symbol.
    pub fn function_at(&self, n: u64) -> Option<(&Symbol, &Function)>
        ensures { option_map (λ found. (found.0.now, found.1.now)) result ≡ function_at self.now n }
    {
        self.functions.at(n as usize)
    }
}
