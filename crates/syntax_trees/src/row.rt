use lisp_data::{Boxed, Name, Rows, Text, TypeId, Value};

/// The operators whose forms have no other parts than subforms. The clauses of `cond`, `handler-case` and `restart-case` are nodes of their
/// own, and count as subforms here.
#[derive(Clone, Copy, PartialEq, Eq)]
pub enum Bare {
    If,
    When,
    Unless,
    Cond,
    And,
    Or,
    Progn,
    Return,
    Loop,
    Catch,
    Throw,
    UnwindProtect,
    HandlerCase,
    IgnoreErrors,
    RestartCase,
}

/// The rows with one symbol before their subforms.
#[derive(Clone, Copy, PartialEq, Eq)]
pub enum Named {
    Block,
    ReturnFrom,
    /// A call of the function that the symbol names.
    Call,
}

/// The operators with one variable and a form that gives it a value, or may.
#[derive(Clone, Copy, PartialEq, Eq)]
pub enum Holder {
    DoTimes,
    DoList,
    Defvar,
    Defparameter,
}

/// How a binding of `let` and `let*` is written. Each binding has one subform; where none is written that is a literal NIL.
#[derive(Clone, Copy, PartialEq, Eq)]
pub enum Init {
    /// The variable alone.
    Bare,
    /// A list of the variable alone.
    Empty,
    /// A list of the variable and a form.
    Form,
}

/// A binding of `let` and `let*`.
#[derive(Drop)]
pub struct Binding {
    pub variable: Name,
    pub init: Init,
}

/// The parameters of a function (HyperSpec 3.4.1, without keyword and auxiliary parameters).
pub struct Parameters {
    pub required: Rows<Name>,
    /// None where `&optional` isn't written.
    pub optional: Option<Rows<Name>>,
    pub rest: Option<Name>,
}

impl Drop for Parameters {
    fn drop(self) {
        let Parameters {
            required: _,
            optional: _,
            rest: _,
        } = self;
    }
}

/// What names a package or a symbol: a string, or a symbol, whose name counts (HyperSpec 1.4.1.5).
#[derive(Drop)]
pub enum Designator {
    Str(Text),
    Sym(Name),
}

/// A row of the syntax, with the parts of a form that are no forms. The subforms stand beside it in the order in which they are written.
/// What is large and rare stands in a box, so that a row takes no more room than a value and a word.
pub enum Row {
    Literal(Value),
    Quote(Value),
    Variable(Name),
    Function(Name),
    /// `(OPERATOR E ..)`
    Bare(Bare),
    /// `(OPERATOR N E ..)`, or a call `(N E ..)`
    Named(Named, Name),
    /// `(dotimes (V E) E ..)`, `(dolist (V E) E ..)`, `(defvar V [E])`, `(defparameter V E)`
    Held(Holder, Name),
    /// The subforms are one for each binding, then the body.
    Let(Rows<Binding>),
    LetStar(Rows<Binding>),
    /// One subform for each variable.
    Setq(Rows<Name>),
    Defun {
        name: Name,
        parameters: Boxed<Parameters>,
    },
    /// The subforms are one for each type, which gives the handler's function, then the body.
    HandlerBind(Rows<TypeId>),
    /// The subforms are the arguments of the control text, as many as said, then the body.
    WithSimpleRestart {
        name: Name,
        control: Boxed<Text>,
        arguments: usize,
    },
    InPackage(Boxed<Designator>),
    Defpackage {
        name: Boxed<Designator>,
        /// None where `:use` isn't written.
        uses: Boxed<Option<Rows<Designator>>>,
        /// None where `:export` isn't written.
        exports: Boxed<Option<Rows<Designator>>>,
    },
    /// A clause of `cond`: a test, then a body.
    CondClause,
    /// A clause of `handler-case`, with the variable that is bound to the condition, if one is written. The subforms are its body.
    HandlerClause {
        kind: TypeId,
        variable: Option<Name>,
    },
    /// A clause of `restart-case`, with the text of `:report`, if one is written. The subforms are its body.
    RestartClause {
        name: Name,
        parameters: Boxed<Rows<Name>>,
        report: Option<Boxed<Text>>,
    },
}

impl Drop for Row {
    fn drop(self) {
        match self {
            Row::Literal(_) | Row::Quote(_) => {}
            Row::Variable(_) | Row::Function(_) | Row::Named(_, _) | Row::Held(_, _) => {}
            Row::Bare(_) | Row::HandlerBind(_) | Row::CondClause => {}
            Row::Let(_) | Row::LetStar(_) => {}
            Row::Setq(_) => {}
            Row::Defun {
                name: _,
                parameters: _,
            } => {}
            Row::WithSimpleRestart {
                name: _,
                control: _,
                arguments: _,
            } => {}
            Row::InPackage(_) => {}
            Row::Defpackage {
                name: _,
                uses: _,
                exports: _,
            } => {}
            Row::HandlerClause {
                kind: _,
                variable: _,
            } => {}
            Row::RestartClause {
                name: _,
                parameters: _,
                report: _,
            } => {}
        }
    }
}
