ghost use Rattle.lisp_data.specs.declared.sexp.Sexp.{Sexp};
ghost use Rattle.sexp_printer.specs.Plain.{IsPlain};
ghost use Rattle.sexp_printer.specs.Printed.{printed};
ghost use Rattle.sexp_reader.specs.Grammar.{max_open, IsSpelled};
ghost use Rattle.std.specs.Str.{chars};

/// A law that every plain form meets: its wire text is a spelling of that form, so whoever reads the text has the form again.
/// The body is empty, since the law is about the definitions.
pub fn printed_again()
    ensures { (form : Sexp) → IsPlain max_open form → IsSpelled (chars (printed form)) form }
{}
