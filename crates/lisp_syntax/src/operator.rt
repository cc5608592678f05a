ghost use Rattle.std.specs.Prelude.{◌≡◌};
ghost use Rattle.lisp_syntax.specs.Operators.{bare_name, holder_name, name_of, operator_named, operator_of};

use lisp_data::Symbol;
use syntax_trees::{Bare, Holder};

/// The symbols of COMMON-LISP that head a form of a shape of its own. Every other symbol heads a call.
#[derive(Clone, Copy)]
pub enum Operator {
    Quote,
    Function,
    Bare(Bare),
    Block,
    ReturnFrom,
    Held(Holder),
    Let,
    LetStar,
    Setq,
    Defun,
    HandlerBind,
    WithSimpleRestart,
    InPackage,
    Defpackage,
}

/// Every operator once.
const OPERATORS: [Operator; 31] = [
    Operator::Quote,
    Operator::Function,
    Operator::Bare(Bare::If),
    Operator::Bare(Bare::When),
    Operator::Bare(Bare::Unless),
    Operator::Bare(Bare::Cond),
    Operator::Bare(Bare::And),
    Operator::Bare(Bare::Or),
    Operator::Bare(Bare::Progn),
    Operator::Let,
    Operator::LetStar,
    Operator::Setq,
    Operator::Block,
    Operator::ReturnFrom,
    Operator::Bare(Bare::Return),
    Operator::Bare(Bare::Loop),
    Operator::Held(Holder::DoTimes),
    Operator::Held(Holder::DoList),
    Operator::Bare(Bare::Catch),
    Operator::Bare(Bare::Throw),
    Operator::Bare(Bare::UnwindProtect),
    Operator::Defun,
    Operator::Held(Holder::Defvar),
    Operator::Held(Holder::Defparameter),
    Operator::HandlerBind,
    Operator::Bare(Bare::HandlerCase),
    Operator::Bare(Bare::IgnoreErrors),
    Operator::Bare(Bare::RestartCase),
    Operator::WithSimpleRestart,
    Operator::InPackage,
    Operator::Defpackage,
];

fn bare_name(bare: Bare) -> &'static str
    ensures { result.now ≡ bare_name bare }
{
    match bare {
        Bare::If => "IF",
        Bare::When => "WHEN",
        Bare::Unless => "UNLESS",
        Bare::Cond => "COND",
        Bare::And => "AND",
        Bare::Or => "OR",
        Bare::Progn => "PROGN",
        Bare::Return => "RETURN",
        Bare::Loop => "LOOP",
        Bare::Catch => "CATCH",
        Bare::Throw => "THROW",
        Bare::UnwindProtect => "UNWIND-PROTECT",
        Bare::HandlerCase => "HANDLER-CASE",
        Bare::IgnoreErrors => "IGNORE-ERRORS",
        Bare::RestartCase => "RESTART-CASE",
    }
}

fn holder_name(holder: Holder) -> &'static str
    ensures { result.now ≡ holder_name holder }
{
    match holder {
        Holder::DoTimes => "DOTIMES",
        Holder::DoList => "DOLIST",
        Holder::Defvar => "DEFVAR",
        Holder::Defparameter => "DEFPARAMETER",
    }
}

impl Operator {
    /// The name of its symbol.
    pub fn name(self) -> &'static str
        ensures { result.now ≡ name_of self }
    {
        match self {
            Operator::Quote => "QUOTE",
            Operator::Function => "FUNCTION",
            Operator::Bare(bare) => bare_name(bare),
            Operator::Block => "BLOCK",
            Operator::ReturnFrom => "RETURN-FROM",
            Operator::Held(holder) => holder_name(holder),
            Operator::Let => "LET",
            Operator::LetStar => "LET*",
            Operator::Setq => "SETQ",
            Operator::Defun => "DEFUN",
            Operator::HandlerBind => "HANDLER-BIND",
            Operator::WithSimpleRestart => "WITH-SIMPLE-RESTART",
            Operator::InPackage => "IN-PACKAGE",
            Operator::Defpackage => "DEFPACKAGE",
        }
    }
}

/// The operator that the symbol is, None where it is none.
#[tactic(auto, unfolding(crate::specs::Operators::operator_of))]
pub fn operator_of(symbol: &Symbol) -> Option<Operator>
    ensures { result ≡ operator_of symbol.now }
{
    if symbol.is_of_common_lisp() {
        operator_named(symbol.name.as_str())
    } else {
        None
    }
}

#[tactic(auto, unfolding(crate::specs::Operators::operator_named))]
fn operator_named(name: &str) -> Option<Operator>
    ensures { result ≡ operator_named name.now }
{
    OPERATORS
        .iter()
        .copied()
        .find(|operator| operator.name() == name)
}
