//! A law of the fresh image, as the clause of a function that does nothing.
ghost use Rattle.std.specs.Prelude.{◌≡◌, map};
ghost use Rattle.lisp_packages.specs.Fresh.{standard_entry, standard_names, standard_packages};
ghost use Rattle.lisp_packages.specs.Packages.{own_at};

/// The symbols of COMMON-LISP are those of the standard names and no others, each once and external.
pub fn the_standard_names_stand_once()
    ensures { own_at standard_packages 0 ≡ map standard_entry standard_names }
{}
