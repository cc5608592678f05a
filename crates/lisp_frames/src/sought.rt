ghost use Rattle.std.specs.Prelude.{◌≡◌};
ghost use Rattle.lisp_frames.specs.Seeking.{block_seen, call_seen, catch_seen, dynamic_seen, end_seen, lexical_seen, level_seen, request_seen, seen_in, sees, target_if};

use lisp_data::{Name, Symbol, Value};
use term_model::{Frame, Plain};

/// What a search goes outwards for.
#[derive(Clone, Copy)]
pub enum Sought<'a> {
    /// The lexical binding of this variable.
    Lexical(&'a Symbol),
    /// The block of this name.
    Block(&'a Symbol),
    /// A dynamic binding of this variable.
    Dynamic(&'a Symbol),
    /// A catch with this tag.
    Catch(&'a Value),
    Request,
    /// A level of the debugger.
    Level,
    /// A call of a user function.
    Call,
}

/// What a layer is to a search outwards: what is sought, the end of what is seen, or something else.
#[derive(Clone, Copy)]
pub(crate) enum Seen {
    Target,
    End,
    Other,
}

fn target_if(found: bool) -> Seen
    ensures { result ≡ target_if found }
{
    if found { Seen::Target } else { Seen::Other }
}

fn lexical_seen(sought: Sought, variable: &Name) -> Seen
    ensures { result ≡ lexical_seen sought.entry variable.now }
{
    match sought {
        Sought::Lexical(s) => target_if(variable.symbol().same(s)),
        _ => Seen::Other,
    }
}

fn dynamic_seen(sought: Sought, variable: &Name) -> Seen
    ensures { result ≡ dynamic_seen sought.entry variable.now }
{
    match sought {
        Sought::Dynamic(s) => target_if(variable.symbol().same(s)),
        _ => Seen::Other,
    }
}

fn block_seen(sought: Sought, block: &Name) -> Seen
    ensures { result ≡ block_seen sought.entry block.now }
{
    match sought {
        Sought::Block(name) => target_if(block.symbol().same(name)),
        _ => Seen::Other,
    }
}

fn catch_seen(sought: Sought, caught: &Value) -> Seen
    ensures { result ≡ catch_seen sought.entry caught.now }
{
    match sought {
        Sought::Catch(tag) => target_if(caught.same(tag)),
        _ => Seen::Other,
    }
}

/// A layer that ends the search for a lexical variable and for a block: an evaluation without variables.
fn end_seen(sought: Sought) -> Seen
    ensures { result ≡ end_seen sought.entry }
{
    match sought {
        Sought::Lexical(_) | Sought::Block(_) => Seen::End,
        _ => Seen::Other,
    }
}

fn call_seen(sought: Sought) -> Seen
    ensures { result ≡ call_seen sought.entry }
{
    match sought {
        Sought::Call => Seen::Target,
        sought => end_seen(sought),
    }
}

fn request_seen(sought: Sought) -> Seen
    ensures { result ≡ request_seen sought.entry }
{
    match sought {
        Sought::Request => Seen::Target,
        sought => end_seen(sought),
    }
}

fn level_seen(sought: Sought) -> Seen
    ensures { result ≡ level_seen sought.entry }
{
    match sought {
        Sought::Level => Seen::Target,
        _ => Seen::Other,
    }
}

fn seen_in(sought: Sought, layer: &Plain) -> Seen
    ensures { result ≡ seen_in sought.entry layer.now }
{
    match layer {
        Plain::Lexical { variable, .. } => lexical_seen(sought, variable),
        Plain::Dynamic { variable, .. } => dynamic_seen(sought, variable),
        Plain::Block(name) => block_seen(sought, name),
        Plain::Catch(tag) => catch_seen(sought, tag),
        Plain::Call { .. } => call_seen(sought),
        Plain::Eval => end_seen(sought),
        _ => Seen::Other,
    }
}

/// What a layer is to a search: lexical variables and blocks are seen up to the nearest call, evaluation or request.
pub(crate) fn sees(sought: Sought, frame: &Frame) -> Seen
    ensures { result ≡ sees sought.entry frame.now }
{
    match frame {
        Frame::On(layer) => seen_in(sought, layer),
        Frame::Rex { .. } => request_seen(sought),
        Frame::Sldb { .. } => level_seen(sought),
        Frame::Protect { .. } | Frame::Cleanup { .. } | Frame::Ask { .. } => Seen::Other,
    }
}
