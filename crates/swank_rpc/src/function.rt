ghost use Rattle.std.specs.Prelude.{◌≡◌};
ghost use Rattle.std.specs.List.{find, list_any};
ghost use Rattle.std.specs.Option.{option_copied};
ghost use Rattle.std.specs.Str.{str_eq_ignore_ascii_case};
ghost use Rattle.swank_rpc.specs.Names as names;
ghost use Rattle.swank_rpc.specs.Names.{named, named_unbuilt};

/// A function that a request may call.
#[derive(Clone, Copy)]
pub enum SwankFunction {
    ConnectionInfo,
    CreateRepl,
    SetPackage,
    SwankRequire,
    BufferFirstChange,
    InteractiveEval,
    InteractiveEvalRegion,
    ListenerEval,
    ListAllPackageNames,
}

/// All of them.
pub const FUNCTIONS: [SwankFunction; 9] = [
    SwankFunction::ConnectionInfo,
    SwankFunction::CreateRepl,
    SwankFunction::SetPackage,
    SwankFunction::SwankRequire,
    SwankFunction::BufferFirstChange,
    SwankFunction::InteractiveEval,
    SwankFunction::InteractiveEvalRegion,
    SwankFunction::ListenerEval,
    SwankFunction::ListAllPackageNames,
];

/// The names of the functions that requests may call and that are not built.
pub const UNBUILT: [&str; 22] = [
    "COMPILE-STRING-FOR-EMACS",
    "SIMPLE-COMPLETIONS",
    "OPERATOR-ARGLIST",
    "APROPOS-LIST-FOR-EMACS",
    "XREF",
    "FIND-DEFINITIONS-FOR-EMACS",
    "INIT-INSPECTOR",
    "INSPECT-NTH-PART",
    "INSPECTOR-POP",
    "INSPECTOR-RANGE",
    "QUIT-INSPECTOR",
    "LIST-THREADS",
    "BACKTRACE",
    "FRAME-LOCALS-AND-CATCH-TAGS",
    "EVAL-STRING-IN-FRAME",
    "SLDB-RETURN-FROM-FRAME",
    "RESTART-FRAME",
    "INVOKE-NTH-RESTART-FOR-EMACS",
    "THROW-TO-TOPLEVEL",
    "SLDB-ABORT",
    "SLDB-CONTINUE",
    "QUIT-LISP",
];

/// The function's name, in upper case and without its package.
pub fn name_of(function: SwankFunction) -> &'static str
    ensures { result.now ≡ names.name_of function }
{
    match function {
        SwankFunction::ConnectionInfo => "CONNECTION-INFO",
        SwankFunction::CreateRepl => "CREATE-REPL",
        SwankFunction::SetPackage => "SET-PACKAGE",
        SwankFunction::SwankRequire => "SWANK-REQUIRE",
        SwankFunction::BufferFirstChange => "BUFFER-FIRST-CHANGE",
        SwankFunction::InteractiveEval => "INTERACTIVE-EVAL",
        SwankFunction::InteractiveEvalRegion => "INTERACTIVE-EVAL-REGION",
        SwankFunction::ListenerEval => "LISTENER-EVAL",
        SwankFunction::ListAllPackageNames => "LIST-ALL-PACKAGE-NAMES",
    }
}

fn is_swank(prefix: &str) -> bool
    ensures { result ≡ names.is_swank prefix.now }
{
    prefix.eq_ignore_ascii_case("SWANK") || prefix.eq_ignore_ascii_case("SWANK-REPL")
}

fn without_colon(rest: &str) -> &str
    ensures { result.now ≡ names.without_colon rest.now }
{
    match rest.strip_prefix(":") {
        Some(name) => name,
        None => rest,
    }
}

/// The name that a token has behind the prefix of one of the two packages; None where it has no such prefix.
fn name_in(token: &str) -> Option<&str>
    ensures { option_copied result ≡ names.name_in token.now }
{
    match token.split_once(':') {
        Some((prefix, rest)) => {
            if is_swank(prefix) {
                Some(without_colon(rest))
            } else {
                None
            }
        }
        None => None,
    }
}

fn function_named(name: &str) -> Option<SwankFunction>
    ensures { result ≡ named name.now }
{
    FUNCTIONS
        .iter()
        .copied()
        .find(|function| name_of(*function).eq_ignore_ascii_case(name))
}

fn is_among(names: &[&str], name: &str) -> bool
    ensures { result ≡ list_any (λ other. str_eq_ignore_ascii_case other.now name.now) names.now }
{
    names.iter().any(|other| other.eq_ignore_ascii_case(name))
}

fn is_unbuilt_name(name: &str) -> bool
    ensures { result ≡ named_unbuilt name.now }
{
    is_among(&UNBUILT, name)
}

/// The function that a call's head names; None where it names none that is built.
pub fn function_of(token: &str) -> Option<SwankFunction>
    ensures { result ≡ names.function_of token.now }
{
    match name_in(token) {
        Some(name) => function_named(name),
        None => None,
    }
}

/// Whether a call's head names a function that is not built.
pub fn is_unbuilt(token: &str) -> bool
    ensures { result ≡ names.is_unbuilt token.now }
{
    match name_in(token) {
        Some(name) => is_unbuilt_name(name),
        None => false,
    }
}
