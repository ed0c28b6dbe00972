//! Texts that are written piece by piece.

use crate::row::Stop;
use kube_types_refused::Refused;
use serde_json::Value;
use std::alloc::{AllocError, Global};
use std::fmt::{Debug, Display};

/// A text that is written piece by piece. It records the first reason to stop, and ignores all that
/// is written from then on; so a writer has to ask about it only once, at its end.
#[derive(Drop)]
pub struct Output {
    alloc: Global,
    text: String,
    stop: Option<Stop>,
}

impl Output {
    /// Returns an empty text.
    pub fn new(alloc: Global) -> Output {
        Output {
            alloc,
            text: String::new(alloc),
            stop: None,
        }
    }

    /// The text written so far.
    pub fn as_str(&self) -> &str {
        self.text.as_str()
    }

    /// Reports whether nothing is written so far.
    pub fn is_empty(&self) -> bool {
        self.text.is_empty()
    }

    /// The first reason to stop, if any.
    pub fn stopped(&self) -> Option<Stop> {
        self.stop
    }

    /// Reports whether there is a reason to stop.
    pub fn is_stopped(&self) -> bool {
        self.stop.is_some()
    }

    /// Records a reason to stop. Only the first one counts.
    pub fn stop(&mut self, stop: Stop) {
        if self.stop.is_none() {
            self.stop = Some(stop);
        }
    }

    /// Returns what a call made. If it made nothing, records why.
    pub fn take<T: Drop, E: Into<Stop>>(&mut self, made: Result<T, E>) -> Option<T> {
        match made {
            Ok(value) => Some(value),
            Err(error) => {
                self.stop(error.into());
                None
            }
        }
    }

    /// Reports whether a call made a copy that equals its original. If it made none, records why.
    pub fn is_copy<T: PartialEq + Drop, E: Into<Stop>>(
        &mut self,
        made: Result<T, E>,
        original: &T,
    ) -> bool {
        match self.take(made) {
            Some(copy) => copy == *original,
            None => false,
        }
    }

    /// Compares the copy that `try_clone` made with its original. Unless both are equal, that is a
    /// reason to stop.
    pub fn hold_copy<T: PartialEq + Drop, E: Into<Stop>>(
        &mut self,
        made: Result<T, E>,
        original: &T,
    ) {
        if !self.is_copy(made, original) {
            self.stop(Stop::Differs("try_clone"));
        }
    }

    /// Records that memory was refused, if something couldn't be written.
    fn note(&mut self, written: Result<(), AllocError>) {
        if written.is_err() {
            self.stop(Stop::Memory);
        }
    }

    /// Appends a text.
    pub fn push(&mut self, text: &str) {
        match self.stop {
            None => {
                let written = self.text.push_str(text);
                self.note(written);
            }
            Some(_) => {}
        }
    }

    /// Appends what a value prints.
    pub fn show<T: Display>(&mut self, value: &T) {
        match self.stop {
            None => {
                let written = write!(self.text, "{value}");
                self.note(written);
            }
            Some(_) => {}
        }
    }

    /// Appends what a value prints for programmers.
    pub fn debug<T: Debug>(&mut self, value: &T) {
        match self.stop {
            None => {
                let written = write!(self.text, "{value:?}");
                self.note(written);
            }
            Some(_) => {}
        }
    }

    /// Appends the text that a call made. If it made none, records why.
    pub fn push_made<E: Into<Stop>>(&mut self, made: Result<String, E>) {
        if let Some(text) = self.take(made) {
            self.push(text.as_str());
        }
    }

    /// Appends texts.
    pub fn push_all(&mut self, parts: &[&str]) {
        for part in parts {
            self.push(part);
        }
    }

    /// Appends a text repeatedly.
    pub fn push_times(&mut self, part: &str, times: usize) {
        for _ in 0..times {
            self.push(part);
        }
    }

    /// Begins a new line, unless the text is empty, with this text.
    pub fn push_line(&mut self, line: &str) {
        if !self.text.is_empty() {
            self.push("\n");
        }
        self.push(line);
    }

    /// Appends a line, indented by two blanks for each level.
    pub fn push_indented(&mut self, depth: usize, parts: &[&str]) {
        self.push_line("");
        self.push_times("  ", depth);
        self.push_all(parts);
    }

    /// Appends a line with the name, if `is_there` is true.
    pub fn push_flag(&mut self, name: &str, is_there: bool) {
        if is_there {
            self.push_line(name);
        }
    }

    /// Appends a line with the name and the number, if there is one.
    pub fn push_number(&mut self, name: &str, number: Option<u64>) {
        if let Some(number) = number {
            self.push_line(name);
            self.push(": ");
            self.show(&number);
        }
    }

    /// Appends a line with the name and the count, unless it is 0.
    pub fn push_count(&mut self, name: &str, count: usize) {
        if count > 0 {
            self.push_number(name, Some(count as u64));
        }
    }

    /// Appends bytes, each as a blank and two hexadecimal digits.
    pub fn push_bytes(&mut self, bytes: &[u8]) {
        for byte in bytes {
            self.push_made(format!(in self.alloc; " {byte:02x}"));
        }
    }

    /// Appends bytes as a text. Those that aren't UTF-8 are replaced.
    pub fn push_lossy(&mut self, bytes: &[u8]) {
        self.push_made(String::from_utf8_lossy(self.alloc, bytes));
    }

    /// Appends names, separated by commas.
    pub fn push_names(&mut self, names: &[String]) {
        for name in names {
            let name = name.as_str();
            if !self.text.is_empty() {
                self.push(", ");
            }
            self.push(name);
        }
    }

    /// Appends a prefix and the reason for a refusal.
    pub fn push_refused(&mut self, before: &str, refused: Refused) {
        self.push(before);
        self.push(match refused {
            Refused::Memory => "memory",
            Refused::TooLarge => "too large",
        });
    }

    /// Appends a text as a JSON string.
    pub fn push_quoted(&mut self, content: &str) {
        if let Some(content) = self.take(String::from_str(self.alloc, content)) {
            self.show(&Value::String(content));
        }
    }

    /// Appends a member to an unfinished JSON object. The value is JSON.
    pub fn push_json(&mut self, key: &str, json: &str) {
        let open = if self.text.ends_with('{') {
            "\""
        } else {
            ", \""
        };
        self.push_all(&[open, key, "\": ", json]);
    }

    /// Appends a string member to an unfinished JSON object.
    pub fn push_member(&mut self, key: &str, text: &str) {
        self.push_json(key, "");
        self.push_quoted(text);
    }

    /// Appends a string member to an unfinished JSON object, if there is a text.
    pub fn push_optional_member(&mut self, key: &str, text: &Option<String>) {
        if let Some(text) = text {
            self.push_member(key, text.as_str());
        }
    }

    /// Appends a Boolean member to an unfinished JSON object.
    pub fn push_bool(&mut self, key: &str, holds: bool) {
        self.push_json(key, if holds { "true" } else { "false" });
    }

    /// Appends a JSON text without the white space outside its strings.
    pub fn push_compact(&mut self, json: &str) {
        let mut in_string = false;
        let mut escaped = false;
        for c in json.chars() {
            if in_string || !c.is_ascii_whitespace() {
                self.show(&c);
            }
            in_string = in_string != (c == '"' && !escaped);
            escaped = in_string && c == '\\' && !escaped;
        }
    }
}
