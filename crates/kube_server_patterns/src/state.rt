//! The reader of a pattern, and what it knows at a place.
ghost use Rattle.std.specs.Prelude.{◌≡◌, string_bytes, IfOk, reverse};
ghost use Rattle.kube_server_patterns.specs.Fronts.{front};
ghost use Rattle.kube_server_patterns.specs.Lexemes as spec;
ghost use Rattle.kube_server_patterns.specs.States as states;

use crate::bracket::in_bracket;
use crate::escape::escape;
use crate::fronts::after;
use crate::group::Group;
use crate::lexeme::{Flags, Lexeme, Mode};
use crate::named::{lettered, unless_folded};
use crate::opening::opening;
use crate::refusal::{Limit, Refusal};
use crate::repetition::{braces, operator};
use std::alloc::{AllocError, Global};

/// How many groups may stand inside one another.
const MOST_GROUPS: usize = 50;

/// The character, unless case is ignored beyond ASCII.
fn character(folds: bool, c: char) -> Result<Lexeme, Refusal>
    ensures { result ≡ spec.character folds c }
{
    if folds && !c.is_ascii() {
        Err(Refusal::Unsupported(Limit::FoldedCharacter))
    } else {
        Ok(Lexeme::Character(c))
    }
}

/// What a letter after a backslash says, unless it is a single character.
#[tactic(auto, unfolding(crate::specs::Lexemes::letter))]
fn letter(folds: bool, c: char) -> Result<Option<Lexeme>, Refusal>
    ensures { result ≡ spec.letter folds c }
{
    match c {
        'A' => Ok(Some(Lexeme::TextBegin)),
        'z' => Ok(Some(Lexeme::TextEnd)),
        'b' => Ok(Some(Lexeme::WordBoundary)),
        'Q' => Ok(Some(Lexeme::Quote)),
        'B' => Err(Refusal::Unsupported(Limit::NotWordBoundary)),
        'p' | 'P' => Err(Refusal::Unsupported(Limit::UnicodeClass)),
        _ => match lettered(c) {
            Some((class, negated)) => Ok(Some(Lexeme::Class(
                unless_folded(class, folds)?,
                negated,
            ))),
            None => Ok(None),
        },
    }
}

/// Reads what follows a backslash.
#[tactic(auto, unfolding(crate::specs::Lexemes::escaped))]
fn escaped(folds: bool, text: &[char]) -> Result<(Lexeme, &[char]), Refusal>
    ensures { front result ≡ spec.escaped folds text.now }
{
    let [c, rest @ ..] = text else {
        return Err(Refusal::Invalid);
    };
    match letter(folds, *c)? {
        Some(lexeme) => Ok((lexeme, rest)),
        None => {
            let (made, rest) = escape(text)?;
            Ok((character(folds, made)?, rest))
        }
    }
}

/// The lexeme of a character that is one by itself.
#[tactic(auto, unfolding(crate::specs::Lexemes::sign))]
fn sign(c: char) -> Option<Lexeme>
    ensures { result ≡ spec.sign c }
{
    match c {
        '.' => Some(Lexeme::Dot),
        '^' => Some(Lexeme::Begin),
        '$' => Some(Lexeme::End),
        ')' => Some(Lexeme::Close),
        '|' => Some(Lexeme::Or),
        _ => None,
    }
}

/// Reads an opening bracket after its first character.
fn open_bracket(text: &[char]) -> (Lexeme, &[char])
    ensures lexeme { result.0 ≡ (spec.open_bracket text.now).0 }
    ensures rest { result.1.now ≡ (spec.open_bracket text.now).1 }
{
    match after('^', text) {
        Some(rest) => (Lexeme::OpenBracket(true), rest),
        None => (Lexeme::OpenBracket(false), text),
    }
}

/// Reads a lexeme.
#[tactic(auto, unfolding(crate::specs::Lexemes::plain))]
fn plain(flags: Flags, text: &[char]) -> Result<(Lexeme, &[char]), Refusal>
    ensures { front result ≡ spec.plain flags text.now }
{
    let [c, rest @ ..] = text else {
        return Err(Refusal::Invalid);
    };
    match *c {
        '\\' => escaped(flags.folds, rest),
        '(' => opening(flags, rest),
        '[' => Ok(open_bracket(rest)),
        '*' => Ok(operator(flags.lazy, 0, None, rest)),
        '+' => Ok(operator(flags.lazy, 1, None, rest)),
        '?' => Ok(operator(flags.lazy, 0, Some(1), rest)),
        '{' => braces(flags.lazy, rest),
        _ => match sign(*c) {
            Some(lexeme) => Ok((lexeme, rest)),
            None => Ok((character(flags.folds, *c)?, rest)),
        },
    }
}

/// Reads a lexeme between `\Q` and `\E`.
#[tactic(auto, unfolding(crate::specs::Lexemes::quoted))]
fn quoted(folds: bool, text: &[char]) -> Result<(Lexeme, &[char]), Refusal>
    ensures { front result ≡ spec.quoted folds text.now }
{
    match text {
        ['\\', 'E', rest @ ..] => Ok((Lexeme::Unquote, rest)),
        [c, rest @ ..] => Ok((character(folds, *c)?, rest)),
        [] => Err(Refusal::Invalid),
    }
}

/// Reads a lexeme.
fn lexeme(mode: Mode, flags: Flags, text: &[char]) -> Result<(Lexeme, &[char]), Refusal>
    ensures { front result ≡ spec.lexeme mode flags text.now }
{
    match mode {
        Mode::Plain => plain(flags, text),
        Mode::Quoted => quoted(flags.folds, text),
        Mode::Bracket => in_bracket(flags.folds, true, text),
        Mode::Members => in_bracket(flags.folds, false, text),
    }
}

/// How the characters after a lexeme are read.
fn mode_after(mode: Mode, lexeme: Lexeme) -> Mode
    ensures { result ≡ spec.mode_after mode lexeme }
{
    match lexeme {
        Lexeme::Quote => Mode::Quoted,
        Lexeme::Unquote => Mode::Plain,
        Lexeme::OpenBracket(_) => Mode::Bracket,
        Lexeme::CloseBracket => Mode::Plain,
        Lexeme::Range(_, _) => Mode::Members,
        Lexeme::Member(_, _) => Mode::Members,
        _ => mode,
    }
}

/// Reports whether a pattern may end where it is read like this.
fn is_text_mode(mode: Mode) -> bool
    ensures { result ≡ states.is_text_mode mode }
{
    match mode {
        Mode::Plain | Mode::Quoted => true,
        Mode::Bracket | Mode::Members => false,
    }
}

/// What is known at a place of a pattern.
pub(crate) struct State {
    pub(crate) mode: Mode,
    pub(crate) group: Group,
    /// The groups around that one, from the outermost on.
    pub(crate) outer: Vec<Group>,
}

impl Drop for State {
    fn drop(self) {
        let State {
            mode: _,
            group: _,
            outer: _,
        } = self;
    }
}

impl State {
    /// At the beginning of a pattern.
    pub(crate) fn new(alloc: Global) -> State
        ensures { states.place_of result ≡ states.beginning }
    {
        let flags = Flags {
            folds: false,
            lines: false,
            dots: false,
            lazy: false,
        };
        State {
            mode: Mode::Plain,
            group: Group::new(flags),
            outer: Vec::new(alloc),
        }
    }

    /// Begins a group.
    fn open(&mut self, flags: Flags) -> Result<Result<(), Refusal>, AllocError>
        ensures { IfOk result (λ r. states.moved_to r self.new
            ≡ states.opened self.old.mode self.old.group (reverse self.old.outer.items) flags) }
    {
        if self.outer.len() >= MOST_GROUPS {
            return Ok(Err(Refusal::Unsupported(Limit::DeepGroups)));
        }
        self.outer.push(self.group)?;
        self.group = Group::new(flags);
        Ok(Ok(()))
    }

    /// Ends a group.
    fn close(&mut self) -> Result<(), Refusal>
        ensures { states.moved_to result self.new
            ≡ states.closed self.old.mode self.old.group (reverse self.old.outer.items) }
    {
        match self.outer.pop() {
            Some(outer) => {
                self.group = outer.with_item(self.group.most);
                Ok(())
            }
            None => Err(Refusal::Invalid),
        }
    }

    /// Goes past a lexeme.
    #[tactic(auto, unfolding(crate::specs::States::passed))]
    fn pass(&mut self, lexeme: Lexeme) -> Result<Result<(), Refusal>, AllocError>
        ensures { IfOk result (λ r. states.moved_to r self.new ≡ states.passed (states.place_of self.old) lexeme) }
    {
        self.mode = mode_after(self.mode, lexeme);
        match lexeme {
            Lexeme::Open(flags) => self.open(flags),
            Lexeme::Close => Ok(self.close()),
            _ => match self.group.with(lexeme) {
                Ok(group) => {
                    self.group = group;
                    Ok(Ok(()))
                }
                Err(refusal) => Ok(Err(refusal)),
            },
        }
    }

    /// Reads a lexeme, and writes it. Returns what follows it.
    #[tactic(auto, unfolding(crate::specs::States::step))]
    pub(crate) fn step<'a>(
        &mut self,
        text: &'a [char],
        out: &mut String,
    ) -> Result<Result<&'a [char], Refusal>, AllocError>
        ensures { IfOk result (λ r. states.made_by r self.new (string_bytes out.new)
            ≡ states.made_of (string_bytes out.old) (states.step (states.place_of self.old) text.now)) }
    {
        match lexeme(self.mode, self.group.flags, text) {
            Ok((lexeme, rest)) => {
                crate::piece::write_lexeme(self.group.flags, lexeme, out)?;
                match self.pass(lexeme)? {
                    Ok(()) => Ok(Ok(rest)),
                    Err(refusal) => Ok(Err(refusal)),
                }
            }
            Err(refusal) => Ok(Err(refusal)),
        }
    }

    /// Reports whether a pattern may end here.
    pub(crate) fn is_end(&self) -> bool
        ensures { result ≡ states.is_end (states.place_of self.now) }
    {
        self.outer.is_empty() && is_text_mode(self.mode)
    }
}
