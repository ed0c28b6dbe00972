//! Escapes texts for each form of output.
ghost use Rattle.kubecel_report.specs.Escapes as spec;
ghost use Rattle.kubecel_report.specs.Lines.{shown};
ghost use Rattle.std.specs.Char.{digit_char};
ghost use Rattle.std.specs.Prelude.{◌≡◌, ◌<◌, ◌++◌, ◌∷◌, [], IfOk, OnOk, option_map, string_bytes};

use std::alloc::{AllocError, Global};

/// The context that a text is escaped for.
#[derive(Clone, Copy, Drop)]
pub(crate) enum Escape {
    /// A line of text.
    Shown,
    /// JSON, of which only what isn't seen is escaped.
    Json,
    /// XML, as character data or inside quotation marks.
    Xml,
    /// The part of a workflow command after `::`.
    Data,
    /// A property of a workflow command.
    Property,
}

/// What stands before a character of a text.
#[derive(Clone, Copy)]
pub(crate) struct Before {
    /// Whether it is white space alone.
    is_blank: bool,
    /// Whether it ends in a number sign.
    ends_in_sign: bool,
    /// Whether it ends in two number signs.
    ends_in_two_signs: bool,
}

impl Before {
    /// What stands before a text.
    fn at_start() -> Before
        ensures { result ≡ spec.at_start }
    {
        Before {
            is_blank: true,
            ends_in_sign: false,
            ends_in_two_signs: false,
        }
    }

    /// What stands behind a character.
    fn after(self, character: char) -> Before
        ensures { result ≡ spec.after self character }
    {
        let is_sign = character == '#';
        Before {
            is_blank: self.is_blank && character.is_whitespace(),
            ends_in_sign: is_sign,
            ends_in_two_signs: self.ends_in_sign && is_sign,
        }
    }

    /// Reports whether GitHub's runner could take what begins, or ends, with this character for a
    /// command.
    fn is_of_command(self, character: char) -> bool
        ensures { result ≡ spec.is_of_command self character }
    {
        (self.is_blank && character == ':') || (self.ends_in_two_signs && character == '[')
    }
}

/// Reports whether a character has no glyph, and may change the order of those beside it.
fn is_format(character: char) -> bool
    ensures { result ≡ spec.is_format character }
{
    matches!(
        u32::from(character),
        0xad | 0x600..=0x605
            | 0x61c
            | 0x6dd
            | 0x70f
            | 0x890..=0x891
            | 0x8e2
            | 0x180e
            | 0x200b..=0x200f
            | 0x202a..=0x202e
            | 0x2060..=0x2064
            | 0x2066..=0x206f
            | 0xfeff
            | 0xfff9..=0xfffb
            | 0x110bd
            | 0x110cd
            | 0x13430..=0x1343f
            | 0x1bca0..=0x1bca3
            | 0x1d173..=0x1d17a
            | 0xe0001
            | 0xe0020..=0xe007f
    )
}

/// Reports whether a character separates lines or paragraphs, or is a code that stands for none.
fn is_separator(character: char) -> bool
    ensures { result ≡ spec.is_separator character }
{
    matches!(u32::from(character), 0x2028..=0x2029 | 0xfffe..=0xffff)
}

/// Reports whether a character isn't seen.
fn is_hidden(character: char) -> bool
    ensures { result ≡ spec.is_hidden character }
{
    character.is_control() || is_format(character) || is_separator(character)
}

/// Reports whether XML allows a character.
fn is_xml_char(character: char) -> bool
    ensures { result ≡ spec.is_xml_char character }
{
    matches!(
        u32::from(character),
        0x9 | 0xa | 0xd | 0x20..=0xd7ff | 0xe000..=0xfffd | 0x10000..=0x10ffff
    )
}

/// Appends a hexadecimal digit.
fn push_digit(out: &mut String, digit: u32) -> Result<(), AllocError>
    requires { digit < 16 }
    ensures { OnOk result (string_bytes out.new ≡ string_bytes out.old ++ digit_char digit ∷ []) }
{
    match char::from_digit(digit, 16) {
        Some(digit) => out.push(digit),
        None => Ok(()),
    }
}

/// Appends the escape of a UTF-16 unit.
#[tactic(auto, unfolding(crate::specs::Escapes::code_unit))]
fn push_unit(out: &mut String, unit: u32) -> Result<(), AllocError>
    ensures { OnOk result (string_bytes out.new ≡ string_bytes out.old ++ spec.code_unit unit) }
{
    out.push_str("\\u")?;
    push_digit(out, unit / 0x1000 % 16)?;
    push_digit(out, unit / 0x100 % 16)?;
    push_digit(out, unit / 0x10 % 16)?;
    push_digit(out, unit % 16)
}

/// Appends the escape that a character has in JSON.
#[tactic(auto, unfolding(crate::specs::Escapes::unicode_escape))]
fn push_unicode(out: &mut String, character: char) -> Result<(), AllocError>
    ensures { OnOk result (string_bytes out.new ≡ string_bytes out.old ++ spec.unicode_escape character) }
{
    let code = u32::from(character);
    if code < 0x10000 {
        return push_unit(out, code);
    }
    let offset = code - 0x10000;
    push_unit(out, 0xd800 + offset / 0x400)?;
    push_unit(out, 0xdc00 + offset % 0x400)
}

/// Appends the reference to a character in XML.
#[tactic(auto, unfolding(crate::specs::Escapes::character_reference))]
fn push_reference(alloc: Global, out: &mut String, character: char) -> Result<(), AllocError>
    ensures { OnOk result (string_bytes out.new ≡ string_bytes out.old ++ spec.character_reference character) }
{
    let code = u32::from(character);
    let reference = format!(in alloc; "&#{code};")?;
    out.push_str(reference.as_str())
}

/// The escape of a character in a line of text, if it has one of its own.
fn shown_escape(character: char) -> Option<&'static str>
    ensures { option_map (λ s. s.now) result ≡ spec.shown_escape character }
{
    match character {
        '\t' => Some("\\t"),
        '\n' => Some("\\n"),
        '\r' => Some("\\r"),
        _ => None,
    }
}

/// The escape of a character after `::`, if it has one of its own.
fn data_escape(character: char) -> Option<&'static str>
    ensures { option_map (λ s. s.now) result ≡ spec.data_escape character }
{
    match character {
        '%' => Some("%25"),
        '\r' => Some("%0D"),
        '\n' => Some("%0A"),
        _ => shown_escape(character),
    }
}

/// The escape of a character in a property, if it has one of its own.
fn property_escape(character: char) -> Option<&'static str>
    ensures { option_map (λ s. s.now) result ≡ spec.property_escape character }
{
    match character {
        ':' => Some("%3A"),
        ',' => Some("%2C"),
        _ => data_escape(character),
    }
}

/// The escape of a character in XML, if it has one of its own.
fn xml_escape(character: char) -> Option<&'static str>
    ensures { option_map (λ s. s.now) result ≡ spec.xml_escape character }
{
    match character {
        '&' => Some("&amp;"),
        '<' => Some("&lt;"),
        '>' => Some("&gt;"),
        '"' => Some("&quot;"),
        _ => None,
    }
}

impl Escape {
    /// The escape of a character that is written in one way always, if it has one.
    fn escape_of(self, character: char) -> Option<&'static str>
        ensures { option_map (λ s. s.now) result ≡ spec.escape_of self character }
    {
        match self {
            Escape::Shown => shown_escape(character),
            Escape::Json => None,
            Escape::Xml => xml_escape(character),
            Escape::Data => data_escape(character),
            Escape::Property => property_escape(character),
        }
    }
}

/// Appends the escape of a character that isn't seen.
fn push_hidden(
    alloc: Global,
    out: &mut String,
    escape: Escape,
    character: char,
) -> Result<(), AllocError>
    ensures { OnOk result (string_bytes out.new
        ≡ string_bytes out.old ++ spec.hidden_escape escape character) }
{
    match escape {
        Escape::Xml if is_xml_char(character) => push_reference(alloc, out, character),
        _ => push_unicode(out, character),
    }
}

/// Appends a character, escaped if it has to be.
#[tactic(auto, unfolding(crate::specs::Escapes::escaped_character))]
fn push_escaped(
    alloc: Global,
    out: &mut String,
    escape: Escape,
    character: char,
) -> Result<(), AllocError>
    ensures { OnOk result (string_bytes out.new
        ≡ string_bytes out.old ++ spec.escaped_character escape character) }
{
    match escape.escape_of(character) {
        Some(text) => out.push_str(text),
        None if is_hidden(character) => push_hidden(alloc, out, escape, character),
        None => out.push(character),
    }
}

/// Appends the escape of a character that is part of a command.
fn push_of_command(
    alloc: Global,
    out: &mut String,
    escape: Escape,
    character: char,
) -> Result<(), AllocError>
    ensures { OnOk result (string_bytes out.new
        ≡ string_bytes out.old ++ spec.command_escape escape character) }
{
    match escape {
        Escape::Shown | Escape::Json => push_unicode(out, character),
        Escape::Xml => push_reference(alloc, out, character),
        Escape::Data | Escape::Property => push_escaped(alloc, out, escape, character),
    }
}

/// Appends a character behind what stands before it.
#[tactic(auto, unfolding(crate::specs::Escapes::written_behind))]
fn push_behind(
    alloc: Global,
    out: &mut String,
    escape: Escape,
    before: Before,
    character: char,
) -> Result<(), AllocError>
    ensures { OnOk result (string_bytes out.new
        ≡ string_bytes out.old ++ spec.written_behind escape before character) }
{
    if before.is_of_command(character) {
        return push_of_command(alloc, out, escape, character);
    }
    push_escaped(alloc, out, escape, character)
}

/// Returns a text with each character escaped that has to be.
pub(crate) fn escaped(alloc: Global, escape: Escape, text: &str) -> Result<String, AllocError>
    ensures { IfOk result (λ s. string_bytes s ≡ spec.escaped_text escape text.now) }
{
    let mut out = String::new(alloc);
    let mut before = Before::at_start();
    for character in text.chars() {
        push_behind(alloc, &mut out, escape, before, character)?;
        before = before.after(character);
    }
    Ok(out)
}

/// Returns a text as it stands in a line of text: what isn't seen is escaped, so that it adds no
/// line.
pub fn shown(alloc: Global, text: &str) -> Result<String, AllocError>
    ensures { IfOk result (λ s. string_bytes s ≡ shown text.now) }
{
    escaped(alloc, Escape::Shown, text)
}
