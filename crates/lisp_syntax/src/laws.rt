//! Laws of the definitions of this crate. The bodies are empty, since the laws are about the definitions.

ghost use Rattle.std.specs.Prelude.{◌≡◌, ◌↔◌, Some, Ok, Err};
ghost use Rattle.lisp_data.specs.declared.symbol.Symbol.{Symbol};
ghost use Rattle.lisp_data.specs.declared.value.Value.{Value};
ghost use Rattle.lisp_data.specs.Symbols.{cl};
ghost use Rattle.syntax_trees.specs.declared.ast.Ast.{Ast};
ghost use Rattle.lisp_syntax.specs.Firsts.{FirstBad, IsGood};
ghost use Rattle.lisp_syntax.specs.Operators.{name_of, operator_of};
ghost use Rattle.lisp_syntax.specs.Parsing.{Item, item, parsed, parsed_item, planted, unparsed};
ghost use Rattle.lisp_syntax.specs.Rows.{Fitting, IsRow, form_of};
ghost use Rattle.lisp_syntax.specs.Table.{row_of};
ghost use Rattle.lisp_syntax.specs.declared.operator.Operator.{Operator};
ghost use Rattle.lisp_syntax.specs.declared.sort.Sort.{Sort};
ghost use Rattle.lisp_syntax.specs.declared.sort.Sort.TheVariants.{Form};

/// Every operator is found by its name, and by no other name.
pub fn operators_are_found_by_their_names()
    ensures { (s : Symbol) (o : Operator) → (operator_of s ≡ Some o) ↔ (s ≡ cl (name_of o)) }
{}

/// A row is found in a form exactly where it is a row of that very form and its subforms fit. So each form has one row at most, and a
/// form that fits a row is never refused.
pub fn rows_are_those_of_the_syntax()
    ensures { (s : Sort) (v : Value) (f : Fitting) → (row_of s v ≡ Some f) ↔ ((form_of f ≡ v) × IsRow s f) }
{}

/// What a form gives is what its row gives, with what its subforms give in their places. A form without a row is itself refused.
pub fn forms_are_parsed_by_their_rows()
    ensures { (i : Item) → parsed_item i ≡ planted parsed_item i.value (row_of i.sort i.value) }
{}

/// The tree of a form is a tree of that very form, with nothing normalised.
pub fn trees_give_their_forms_back()
    ensures { (v : Value) (t : Ast) → parsed v ≡ Ok t → unparsed t ≡ v }
{}

/// What is refused is the first bad form, by the rows and the order of the subforms alone, and so each form has at most one.
pub fn faults_are_the_first_bad_forms()
    ensures { (v u : Value) → (parsed v ≡ Err u) ↔ FirstBad (item Form v) u }
{}

/// A form has a tree exactly where it and all forms in it have rows. So each form has one tree, or one first bad form, and not both.
pub fn good_forms_have_trees()
    ensures { (v : Value) → IsGood (item Form v) ↔ ((t : Ast) × (parsed v ≡ Ok t)) }
{}
