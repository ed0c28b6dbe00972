//! Reads files of rows.

use crate::output::Output;
use crate::row::{Field, Row};
use serde_json::Value;
use std::alloc::{AllocError, Global};

/// What a line is.
#[derive(Clone, Copy)]
enum Line<'a> {
    /// An empty line or a comment.
    Nothing,
    /// The beginning of a row with this name.
    Row(&'a str),
    /// A field whose text is the rest of the line.
    Plain(&'a str, &'a str),
    /// A field whose text is in the lines below.
    Block(&'a str),
    /// A field whose text is a JSON string.
    Quoted(&'a str, &'a str),
    /// A line of the text of the field above.
    Further(&'a str),
    /// None of these.
    Other,
}

/// Reports whether a text is a key: lower-case letters and blanks, without a blank at its end.
fn is_key(text: &str) -> bool {
    let mut is_key = !text.is_empty() && !text.ends_with(' ');
    for byte in text.bytes() {
        is_key = is_key && (byte.is_ascii_lowercase() || byte == b' ');
    }
    is_key
}

/// Parses a line with a key.
fn field_line(line: &str) -> Line<'_> {
    match (
        line.split_once(" = "),
        line.split_once(": "),
        line.strip_suffix(":"),
    ) {
        (Some((key, text)), _, _) if is_key(key) => Line::Quoted(key, text),
        (_, Some((key, text)), _) if is_key(key) => Line::Plain(key, text),
        (_, _, Some(key)) if is_key(key) => Line::Block(key),
        _ => Line::Other,
    }
}

/// Parses a line.
fn line_of(line: &str) -> Line<'_> {
    if line.is_empty() || line.starts_with('#') {
        return Line::Nothing;
    }
    match (line.strip_prefix("  "), line.strip_prefix("== ")) {
        (Some(text), _) => Line::Further(text),
        (_, Some(name)) => Line::Row(name),
        _ => field_line(line),
    }
}

/// Makes a field.
fn field_of(alloc: Global, key: &str, text: &str, line: usize) -> Result<Field, AllocError> {
    let key = String::from_str(alloc, key)?;
    let text = String::from_str(alloc, text)?;
    Ok(Field { key, text, line })
}

/// Appends a line to a text.
fn append_line(text: &mut String, line: &str) -> Result<(), AllocError> {
    if !text.is_empty() {
        text.push('\n')?;
    }
    text.push_str(line)
}

/// Reads a file's rows, up to the first line that is wrong.
#[derive(Drop)]
pub(crate) struct Reader {
    alloc: Global,
    pub(crate) rows: Vec<Row>,
    /// The number of the line read last.
    pub(crate) line: usize,
    /// What is wrong with that line. Empty if nothing is.
    pub(crate) fault: Output,
    /// Whether the next lines may continue the last field's text.
    in_block: bool,
}

impl Reader {
    /// Reports whether a row has this name.
    fn has_row(&self, name: &str) -> bool {
        let mut has_row = false;
        for row in self.rows.iter() {
            has_row = has_row || row.name.as_str() == name;
        }
        has_row
    }

    /// Begins a row.
    fn begin(&mut self, name: &str) {
        if self.has_row(name) {
            self.fault.push("another row has this name");
        }
        if let Some(name) = self.fault.take(String::from_str(self.alloc, name)) {
            let (line, fields) = (self.line, Vec::new(self.alloc));
            self.fault.take(self.rows.push(Row { name, line, fields }));
        }
    }

    /// Appends a field to the last row.
    fn put(&mut self, key: &str, text: &str) {
        let field = field_of(self.alloc, key, text, self.line);
        match (self.rows.last_mut(), self.fault.take(field)) {
            (Some(row), Some(field)) => {
                self.fault.take(row.fields.push(field));
            }
            _ => self.fault.push("a field stands before the first row"),
        }
    }

    /// Appends a field whose text is a JSON string.
    fn put_quoted(&mut self, key: &str, json: &str) {
        match Value::from_str(self.alloc, json) {
            Ok(Value::String(text)) => self.put(key, text.as_str()),
            _ => self.fault.push("no JSON string"),
        }
    }

    /// Appends a line to the text of the last field.
    fn go_on(&mut self, text: &str) {
        if let (true, Some(row)) = (self.in_block, self.rows.last_mut()) {
            if let Some(field) = row.fields.last_mut() {
                self.fault.take(append_line(&mut field.text, text));
                return;
            }
        }
        self.fault.push("no field's text goes on here");
    }

    /// Reads a line.
    fn take(&mut self, text: &str) {
        let line = line_of(text);
        self.in_block = match line {
            Line::Block(_) => true,
            Line::Further(_) => self.in_block,
            _ => false,
        };
        match line {
            Line::Nothing => {}
            Line::Row(name) => self.begin(name),
            Line::Plain(key, text) => self.put(key, text),
            Line::Block(key) => self.put(key, ""),
            Line::Quoted(key, json) => self.put_quoted(key, json),
            Line::Further(text) => self.go_on(text),
            Line::Other => self.fault.push("neither a row, a field nor a comment"),
        }
    }

    /// Reports whether a line is wrong, or memory was refused.
    pub(crate) fn fails(&self) -> bool {
        !self.fault.is_empty() || self.fault.is_stopped()
    }

    /// Reads the rows in a text, of which there must be at least one.
    pub(crate) fn read(alloc: Global, text: &str) -> Reader {
        let mut reader = Reader {
            alloc,
            rows: Vec::new(alloc),
            line: 0,
            fault: Output::new(alloc),
            in_block: false,
        };
        for line in text.lines() {
            if !reader.fails() {
                reader.line = reader.line.saturating_add(1);
                reader.take(line);
            }
        }
        if reader.rows.is_empty() && !reader.fails() {
            reader.fault.push("no row");
        }
        reader
    }
}
