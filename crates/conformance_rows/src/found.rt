//! The answers found for a field.

use crate::given::required;
use crate::output::Output;
use crate::row::{Field, Stop};
use serde_json::Value;
use std::alloc::Global;

/// The answer of the first call that answers a field (`text`), and that of the current call
/// (`other`). If either records a reason to stop, the field has no answer.
#[derive(Drop)]
pub struct Found {
    alloc: Global,
    pub text: Output,
    pub other: Output,
    is_answered: bool,
}

impl Found {
    /// Returns an empty answer.
    pub fn new(alloc: Global) -> Found {
        Found {
            alloc,
            text: Output::new(alloc),
            other: Output::new(alloc),
            is_answered: false,
        }
    }

    /// The first reason to stop, if any.
    pub fn stopped(&self) -> Option<Stop> {
        match self.other.stopped() {
            None => self.text.stopped(),
            stopped => stopped,
        }
    }

    /// Reports whether there is a reason to stop.
    pub fn is_stopped(&self) -> bool {
        self.other.is_stopped() || self.text.is_stopped()
    }

    /// The answer of the current call, with the reason to stop that the first answer has, if any.
    fn current(&mut self) -> &mut Output {
        if let Some(stop) = self.text.stopped() {
            self.other.stop(stop);
        }
        &mut self.other
    }

    /// Records a reason to stop. Only the first one counts.
    pub fn stop(&mut self, stop: Stop) {
        self.current().stop(stop);
    }

    /// Returns what a call made. If it made nothing, records why.
    pub fn take<T: Drop, E: Into<Stop>>(&mut self, made: Result<T, E>) -> Option<T> {
        self.current().take(made)
    }

    /// The text last given under a key. If there is none, records that, and returns an empty text.
    pub fn required<'g>(&mut self, given: &'g [Field], key: &'static str) -> &'g str {
        required(given, key, self.current())
    }

    /// Discards all answers, unless there is a reason to stop.
    pub fn clear(&mut self) {
        if !self.is_stopped() {
            *self = Found::new(self.alloc);
        }
    }

    /// Ends a call whose answer is in `other`. Each call must give the same answer as the first
    /// one; if it doesn't, that is the reason to stop.
    pub fn end(&mut self, call: &'static str) {
        if self.is_stopped() {
            return;
        }
        if !self.is_answered {
            self.is_answered = true;
            self.text.push(self.other.as_str());
        } else if self.text.as_str() != self.other.as_str() {
            return self.other.stop(Stop::Differs(call));
        }
        self.other = Output::new(self.alloc);
    }

    /// Ends a call whose answer is in `other`. If `is_equal` is false, what the call made differs
    /// from what the first one made, and that is the reason to stop.
    pub fn end_equal(&mut self, is_equal: bool, call: &'static str) {
        if is_equal {
            self.end(call);
        } else {
            self.stop(Stop::Differs(call));
        }
    }

    /// Replaces the answer, unless there is a reason to stop.
    pub fn say(&mut self, text: &str) {
        if !self.is_stopped() {
            self.text = Output::new(self.alloc);
            self.text.push(text);
        }
    }

    /// Ends a call whose answer is JSON.
    pub fn end_json(&mut self, json: &Value, call: &'static str) {
        self.other.show(json);
        self.end(call);
    }

    /// Takes a field's JSON as the first answer, without the white space outside its strings.
    pub fn expect(&mut self, field: &Field) {
        self.other.push_compact(field.text.as_str());
        self.end("what is expected");
    }

    /// Ends a call that printed JSON, and takes the field's own text as the answer. The reason to
    /// stop is that what was printed differs, or that `is_read` is false: it wasn't read back as it
    /// should be.
    pub fn end_expected(&mut self, field: &Field, is_read: bool) {
        self.end("to_string");
        if !is_read {
            self.stop(Stop::Differs("from_str"));
        }
        self.say(field.text.as_str());
    }
}
