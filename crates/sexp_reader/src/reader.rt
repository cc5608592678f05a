ghost use Rattle.std.specs.Prelude.{◌≡◌, codes, Ok, IfOk, IfErr};
ghost use Rattle.std.specs.Str.{chars};
ghost use Rattle.sexp_reader.specs.Answers.{Gives};
ghost use Rattle.sexp_reader.specs.Grammar as grammar;
ghost use Rattle.sexp_reader.specs.Reading as spec;
ghost use Rattle.sexp_reader.specs.Reading.{Runs, run};

use crate::atom::atom;
use crate::characters::{ends_token, is_space};
use crate::state::{Forms, Frame, Mode, Reader};
use crate::{Placed, ReadFault};
use lisp_data::{NoMemory, Pile, Rows, Sexp, Text};
use std::alloc::Global;
use std::mem;

const MAX_OPEN: usize = 500;

const MAX_CHARACTERS: usize = 1000;

/// A form behind a quote mark: the list of the mark's name and the form.
fn quoted(alloc: Global, name: &str, inner: Sexp) -> Result<Sexp, NoMemory>
    ensures { IfOk result (λ x. x ≡ grammar.quoted name.now inner) }
{
    let mut items = Rows::new(alloc);
    items.push(Sexp::Sym(Text::of(alloc, name)?))?;
    items.push(inner)?;
    Ok(Sexp::List(items))
}

/// Puts a whole form behind what is open. The answer is the form itself where nothing is.
fn completed(alloc: Global, stack: &mut Pile<Frame>, form: Sexp) -> Result<Option<Sexp>, NoMemory>
    ensures { IfOk result (λ done. (stack.new, done) ≡ spec.completed stack.old form) }
{
    let mut form = form;
    loop {
        match stack.pop() {
            None => return Ok(Some(form)),
            Some(Frame::Open(mut items)) => {
                items.push(form)?;
                stack.push(Frame::Open(items))?;
                return Ok(None);
            }
            Some(Frame::Quote) => form = quoted(alloc, "QUOTE", form)?,
            Some(Frame::Function) => form = quoted(alloc, "FUNCTION", form)?,
        }
    }
}

impl Forms {
    #[tactic(auto, unfolding(crate::specs::Reading::is_full))]
    fn is_full(&self) -> bool
        ensures { result ≡ spec.is_full self.now }
    {
        !self.many && !self.placed.is_empty()
    }

    /// Adds a form that stands in no other, if there is one.
    fn add(&mut self, form: Option<Sexp>) -> Result<(), NoMemory>
        ensures { IfOk result (λ _. self.new ≡ spec.added self.old form) }
    {
        if let Some(form) = form {
            let at = self.begun;
            self.placed.push(Placed { form, at })?;
        }
        Ok(())
    }
}

impl Reader {
    pub fn new(alloc: Global, many: bool) -> Reader
        ensures { result ≡ spec.start many }
    {
        Reader {
            stack: Pile::new(alloc),
            forms: Forms {
                many,
                begun: 0,
                placed: Rows::new(alloc),
            },
            mode: Mode::Between,
            text: Text::new(alloc),
            token: Rows::new(alloc),
        }
    }

    #[tactic(auto, unfolding(crate::specs::Reading::complete))]
    fn complete(&mut self, alloc: Global, form: Sexp) -> Result<(), ReadFault>
        ensures value { IfOk result (λ _. self.new ≡ spec.complete self.old.stack self.old.forms form) }
        ensures memory { IfErr result (λ fault. fault ≡ ReadFault.NoMemory) }
    {
        let form = completed(alloc, &mut self.stack, form)?;
        self.forms.add(form)?;
        self.mode = Mode::Between;
        self.text = Text::new(alloc);
        self.token.truncate(0);
        Ok(())
    }

    #[tactic(auto, unfolding(crate::specs::Reading::opened))]
    fn open(&mut self, frame: Frame) -> Result<(), ReadFault>
        ensures { Gives (λ _. self.new) result (spec.opened self.old frame) }
    {
        if self.stack.len() >= MAX_OPEN {
            return Err(ReadFault::TooDeep);
        }
        self.stack.push(frame)?;
        self.mode = Mode::Between;
        Ok(())
    }

    #[tactic(auto, unfolding(crate::specs::Reading::closed))]
    fn close(&mut self, alloc: Global) -> Result<(), ReadFault>
        ensures { Gives (λ _. self.new) result (spec.closed self.old) }
    {
        match self.stack.pop() {
            Some(Frame::Open(items)) => self.complete(alloc, Sexp::List(items)),
            _ => Err(ReadFault::StrayClose),
        }
    }

    #[tactic(auto, unfolding(crate::specs::Reading::token_ended))]
    fn end_token(&mut self, alloc: Global) -> Result<(), ReadFault>
        ensures { Gives (λ _. self.new) result (spec.token_ended self.old) }
    {
        let form = atom(alloc, self.token.as_slice())?;
        self.complete(alloc, form)
    }

    /// Notes where a form begins that stands in no other.
    fn begin_at(&mut self, at: u64)
        ensures { self.new ≡ record self.old { forms = spec.began self.old.forms self.old.stack at } }
    {
        if self.stack.is_empty() {
            self.forms.begun = at;
        }
    }

    /// A character that begins something, or closes a list.
    #[tactic(auto, unfolding(crate::specs::Reading::begun_by))]
    fn begin(&mut self, alloc: Global, c: char) -> Result<(), ReadFault>
        ensures { Gives (λ _. self.new) result (spec.begun_by self.old c) }
    {
        match c {
            '(' => self.open(Frame::Open(Rows::new(alloc))),
            ')' => self.close(alloc),
            '\'' => self.open(Frame::Quote),
            '"' => {
                self.mode = Mode::Str;
                Ok(())
            }
            '#' => {
                self.mode = Mode::Hash;
                Ok(())
            }
            _ => {
                self.token.push(c)?;
                self.mode = Mode::Token;
                Ok(())
            }
        }
    }

    /// A character that no token, string or comment takes.
    #[tactic(auto, unfolding(crate::specs::Reading::between))]
    fn between(&mut self, alloc: Global, c: char, at: u64) -> Result<(), ReadFault>
        ensures { Gives (λ _. self.new) result (spec.between self.old at c) }
    {
        if is_space(c) {
            self.mode = Mode::Between;
            return Ok(());
        }
        if c == ';' {
            self.mode = Mode::Comment;
            return Ok(());
        }
        if self.forms.is_full() {
            return Err(ReadFault::TrailingText);
        }
        self.begin_at(at);
        self.begin(alloc, c)
    }

    /// A character after the first of a token. One that makes it too long is refused at once.
    #[tactic(auto, unfolding(crate::specs::Reading::in_token))]
    fn in_token(&mut self, alloc: Global, c: char, at: u64) -> Result<(), ReadFault>
        ensures { Gives (λ _. self.new) result (spec.in_token self.old at c) }
    {
        if ends_token(c) {
            self.end_token(alloc)?;
            return self.between(alloc, c, at);
        }
        if self.token.len() >= MAX_CHARACTERS {
            return Err(ReadFault::BadToken);
        }
        self.token.push(c)?;
        Ok(())
    }

    fn push(&mut self, c: char) -> Result<(), ReadFault>
        ensures { Gives (λ _. self.new) result (Ok (spec.more self.old c)) }
    {
        self.text.push(c)?;
        self.mode = Mode::Str;
        Ok(())
    }

    #[tactic(auto, unfolding(crate::specs::Reading::in_string))]
    fn in_string(&mut self, alloc: Global, c: char) -> Result<(), ReadFault>
        ensures { Gives (λ _. self.new) result (spec.in_string self.old c) }
    {
        if c == '"' {
            let text = mem::replace(&mut self.text, Text::new(alloc));
            return self.complete(alloc, Sexp::Str(text));
        }
        if c == '\\' {
            self.mode = Mode::Escape;
            return Ok(());
        }
        self.push(c)
    }

    #[tactic(auto, unfolding(crate::specs::Reading::step))]
    fn step(&mut self, alloc: Global, c: char, at: u64) -> Result<(), ReadFault>
        ensures { Gives (λ _. self.new) result (spec.step self.old at c) }
    {
        match self.mode {
            Mode::Between => self.between(alloc, c, at),
            Mode::Comment => {
                if c == '\n' {
                    self.mode = Mode::Between;
                }
                Ok(())
            }
            Mode::Hash => {
                if c == '\'' {
                    self.open(Frame::Function)
                } else {
                    Err(ReadFault::BadToken)
                }
            }
            Mode::Token => self.in_token(alloc, c, at),
            Mode::Str => self.in_string(alloc, c),
            Mode::Escape => self.push(c),
        }
    }

    pub fn read(&mut self, alloc: Global, text: &str) -> Result<(), ReadFault>
        ensures { Runs result (run (chars text.now) self.old (chars text.now)) self.new }
    {
        let mut at: u64 = 0;
        let mut rest = text.chars();
        while let Some(c) = rest.next() {
            self.step(alloc, c, at)?;
            at += 1;
        }
        Ok(())
    }

    fn whole(&mut self, alloc: Global) -> Result<Rows<Placed>, ReadFault>
        ensures { Gives (λ forms. forms) result (spec.whole self.old) }
    {
        if !self.stack.is_empty() {
            return Err(ReadFault::Unclosed);
        }
        Ok(mem::replace(&mut self.forms.placed, Rows::new(alloc)))
    }

    #[tactic(auto, unfolding(crate::specs::Reading::finish))]
    pub fn finish(&mut self, alloc: Global) -> Result<Rows<Placed>, ReadFault>
        ensures { Gives (λ forms. forms) result (spec.finish self.old) }
    {
        match self.mode {
            Mode::Between | Mode::Comment => {}
            Mode::Token => self.end_token(alloc)?,
            Mode::Hash => return Err(ReadFault::BadToken),
            Mode::Str | Mode::Escape => return Err(ReadFault::Unclosed),
        }
        self.whole(alloc)
    }
}
