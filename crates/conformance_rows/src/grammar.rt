//! Makes texts from a grammar, chosen by a sequence of random numbers.
//!
//! A grammar is a text. A line `NAME = TEXT` states that `⟨NAME⟩` may be replaced by `TEXT`, which
//! may contain further names in such brackets. Empty lines and lines that begin with `#` are
//! ignored.

use crate::output::Output;
use crate::random::Random;
use crate::row::Stop;
use std::alloc::{AllocError, Global};

/// The texts that may replace a name.
#[derive(Drop)]
struct Symbol {
    name: String,
    /// The texts that contain names.
    forms: Vec<String>,
    /// The texts that contain no names.
    leaves: Vec<String>,
}

/// Makes texts from a grammar, one after another.
#[derive(Drop)]
pub struct Maker {
    symbols: Vec<Symbol>,
    random: Random,
    /// The text made last.
    pub text: Output,
}

/// The number of names that may be replaced in a text before it must be complete.
const LIMIT: usize = 5_000;

impl Symbol {
    /// Makes a name without texts.
    fn new(alloc: Global, name: &str) -> Result<Symbol, AllocError> {
        Ok(Symbol {
            name: String::from_str(alloc, name)?,
            forms: Vec::new(alloc),
            leaves: Vec::new(alloc),
        })
    }

    /// Adds a text that may replace the name.
    fn put(&mut self, alloc: Global, text: &str, out: &mut Output) {
        if let Some(text) = out.take(String::from_str(alloc, text)) {
            let added = if text.contains('⟨') {
                self.forms.push(text)
            } else {
                self.leaves.push(text)
            };
            out.take(added);
        }
    }

    /// Appends one of the texts. Unless `may_grow` is true, it is one without names, if there is
    /// any.
    fn choose(&self, random: &mut Random, may_grow: bool, out: &mut Output) {
        let grows = may_grow && random.below(5) > 0;
        let texts = if self.leaves.is_empty() || grows && !self.forms.is_empty() {
            self.forms.as_slice()
        } else {
            self.leaves.as_slice()
        };
        if let Some(text) = texts.get(random.below(texts.len())) {
            out.push(text.as_str());
        }
    }
}

impl Maker {
    /// Creates a maker from the text of a grammar. No text is made yet. If memory is refused, `out`
    /// stops.
    pub(crate) fn new(alloc: Global, grammar: &str, seed: u64, out: &mut Output) -> Maker {
        let mut maker = Maker {
            symbols: Vec::new(alloc),
            random: Random { state: seed },
            text: Output::new(alloc),
        };
        for line in grammar.lines() {
            if let (false, Some((name, text))) = (line.starts_with('#'), line.split_once(" = ")) {
                maker.put(alloc, name, text, out);
            }
        }
        maker
    }

    /// The index of a name, or the number of names if it isn't known.
    fn index_of(&self, name: &str) -> usize {
        let mut index = self.symbols.len();
        for at in 0..self.symbols.len() {
            if self.symbols[at].name.as_str() == name {
                index = at;
            }
        }
        index
    }

    /// Adds a text that may replace a name.
    fn put(&mut self, alloc: Global, name: &str, text: &str, out: &mut Output) {
        let index = self.index_of(name);
        if index == self.symbols.len() {
            if let Some(symbol) = out.take(Symbol::new(alloc, name)) {
                out.take(self.symbols.push(symbol));
            }
        }
        if let Some(symbol) = self.symbols.get_mut(index) {
            symbol.put(alloc, text, out);
        }
    }

    /// Appends a text that replaces a name. Unless `may_grow` is true, it is one without names, if
    /// there is any.
    fn choose(&mut self, name: &str, may_grow: bool, out: &mut Output) {
        let index = self.index_of(name);
        match self.symbols.get(index) {
            Some(symbol) => symbol.choose(&mut self.random, may_grow, out),
            None => out.stop(Stop::Unfit("a name of the grammar")),
        }
    }

    /// Replaces the first name in a text. Returns nothing if there is none, or if the text has
    /// stopped.
    fn expanded(&mut self, alloc: Global, text: &Output, may_grow: bool) -> Option<Output> {
        match text.as_str().split_once('⟨') {
            Some((before, inner)) if !text.is_stopped() => {
                let mut next = Output::new(alloc);
                next.push(before);
                match inner.split_once('⟩') {
                    Some((name, behind)) => {
                        self.choose(name, may_grow, &mut next);
                        next.push(behind);
                    }
                    None => next.stop(Stop::Unfit("a bracket of the grammar")),
                }
                Some(next)
            }
            _ => None,
        }
    }

    /// Makes the next text from a name. Only the first `most` names in it may be replaced by texts
    /// that contain names, unless a name has no other texts.
    pub fn make(&mut self, alloc: Global, name: &str, most: usize) -> Result<(), Stop> {
        let mut made = Output::new(alloc);
        self.choose(name, true, &mut made);
        for turn in 0..LIMIT {
            match self.expanded(alloc, &made, turn < most) {
                Some(next) => made = next,
                None => break,
            }
        }
        if made.as_str().contains('⟨') {
            made.stop(Stop::Unfit("a text of the grammar that ends"));
        }
        match made.stopped() {
            Some(stop) => Err(stop),
            None => {
                self.text = made;
                Ok(())
            }
        }
    }
}
