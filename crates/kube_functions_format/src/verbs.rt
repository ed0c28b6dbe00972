//! The verbs of format strings.
ghost use Rattle.std.specs.Prelude.{◌≡◌, ◌++◌, IfOk, OnOk, string_bytes};
ghost use Rattle.std.specs.Fmt.{digits};
ghost use Rattle.cel_value.specs.Faults.{fault_view};
ghost use Rattle.cel_value.specs.Texts.{printed_view};
ghost use Rattle.cel_value.specs.View.{view};
ghost use Rattle.cel_semantics.specs.Outcome.{no_doubles};
ghost use Rattle.kube_functions_format.specs.Progress.{shown_view};
ghost use Rattle.kube_functions_format.specs.Verbs as spec;

use cel_value::{ExecutionError, Kind, Refused, Value};
use std::alloc::{AllocError, Global};

/// A verb, by what it prints.
#[derive(Clone, Copy)]
pub(crate) enum Verb {
    /// The text of a value: `%s`.
    Text,
    /// A decimal number: `%d`.
    Decimal,
    /// Octal digits: `%o`.
    Octal,
    /// Binary digits: `%b`.
    Binary,
    /// Hexadecimal digits in lower case: `%x`.
    LowerHex,
    /// Hexadecimal digits in upper case: `%X`.
    UpperHex,
    /// A double, which isn't supported: `%f`, `%e`.
    Double,
}

impl Verb {
    fn of(letter: char) -> Option<Verb>
        ensures { result ≡ spec.verb_of letter }
    {
        match letter {
            's' => Some(Verb::Text),
            'd' => Some(Verb::Decimal),
            'o' => Some(Verb::Octal),
            'b' => Some(Verb::Binary),
            'x' => Some(Verb::LowerHex),
            'X' => Some(Verb::UpperHex),
            'f' => Some(Verb::Double),
            'e' => Some(Verb::Double),
            _ => None,
        }
    }
}

/// The error of `format` with a message.
pub(crate) fn format_fault(alloc: Global, message: String) -> Result<ExecutionError, Refused>
    ensures value { IfOk result (λ e. fault_view e ≡ spec.format_fault (string_bytes message)) }
{
    Ok(ExecutionError::FunctionError {
        function: String::from_str(alloc, "format")?,
        message,
    })
}

fn double_fault(alloc: Global) -> Result<ExecutionError, Refused>
    ensures value { IfOk result (λ e. fault_view e ≡ no_doubles) }
{
    Ok(ExecutionError::UndeclaredReference(String::from_str(alloc, "double")?))
}

fn unknown_verb(alloc: Global, letter: char) -> Result<ExecutionError, Refused>
    ensures value { IfOk result (λ e. fault_view e ≡ spec.unknown_verb letter) }
{
    let message = format!(in alloc; "unknown format verb '%{letter}'")?;
    format_fault(alloc, message)
}

fn decimal_form(alloc: Global, item: &Value) -> Result<Result<String, Kind>, AllocError>
    ensures { IfOk result (λ r. printed_view r ≡ spec.decimal_form (view item.now)) }
{
    match item {
        Value::Int(n) => Ok(Ok(n.to_string(alloc)?)),
        Value::UInt(n) => Ok(Ok(n.to_string(alloc)?)),
        _ => Ok(Err(item.type_of())),
    }
}

fn octal_form(alloc: Global, item: &Value) -> Result<Result<String, Kind>, AllocError>
    ensures { IfOk result (λ r. printed_view r ≡ spec.octal_form (view item.now)) }
{
    match item {
        Value::Int(n) => Ok(Ok(format!(in alloc; "{n:o}")?)),
        Value::UInt(n) => Ok(Ok(format!(in alloc; "{n:o}")?)),
        _ => Ok(Err(item.type_of())),
    }
}

fn bit_text(bit: bool) -> &'static str
    ensures { result.now ≡ spec.bit_text bit }
{
    if bit { "1" } else { "0" }
}

fn binary_form(alloc: Global, item: &Value) -> Result<Result<String, Kind>, AllocError>
    ensures { IfOk result (λ r. printed_view r ≡ spec.binary_form (view item.now)) }
{
    match item {
        Value::Bool(bit) => Ok(Ok(String::from_str(alloc, bit_text(*bit))?)),
        Value::Int(n) => Ok(Ok(format!(in alloc; "{n:b}")?)),
        Value::UInt(n) => Ok(Ok(format!(in alloc; "{n:b}")?)),
        _ => Ok(Err(item.type_of())),
    }
}

fn hex_number(alloc: Global, upper: bool, number: u64) -> Result<String, AllocError>
    ensures { IfOk result (λ t. string_bytes t ≡ digits 16 upper number) }
{
    if upper {
        format!(in alloc; "{number:X}")
    } else {
        format!(in alloc; "{number:x}")
    }
}

fn push_byte(out: &mut String, upper: bool, byte: u8) -> Result<(), AllocError>
    ensures { OnOk result (string_bytes out.new ≡ string_bytes out.old ++ spec.byte_digits upper byte) }
{
    if upper {
        write!(out, "{byte:02X}")
    } else {
        write!(out, "{byte:02x}")
    }
}

fn hex_bytes(alloc: Global, upper: bool, bytes: &[u8]) -> Result<String, AllocError>
    ensures { IfOk result (λ t. string_bytes t ≡ spec.bytes_digits upper bytes.now) }
{
    let mut out = String::new(alloc);
    for byte in bytes {
        push_byte(&mut out, upper, *byte)?;
    }
    Ok(out)
}

fn hex_form(alloc: Global, upper: bool, item: &Value) -> Result<Result<String, Kind>, AllocError>
    ensures { IfOk result (λ r. printed_view r ≡ spec.hex_form upper (view item.now)) }
{
    match item {
        Value::Int(n) => Ok(Ok(hex_number(alloc, upper, n.cast_unsigned())?)),
        Value::UInt(n) => Ok(Ok(hex_number(alloc, upper, *n)?)),
        Value::String(text) => Ok(Ok(hex_bytes(alloc, upper, text.as_str().as_bytes())?)),
        Value::Bytes(bytes) => Ok(Ok(hex_bytes(alloc, upper, bytes.as_slice())?)),
        _ => Ok(Err(item.type_of())),
    }
}

// The text, or an error whose message is `refusal` and the name of the kind.
fn or_refused(
    alloc: Global,
    refusal: &str,
    form: Result<String, Kind>,
) -> Result<Result<String, ExecutionError>, Refused>
    ensures value { IfOk result (λ r. shown_view r ≡ spec.or_refused refusal.now (printed_view form)) }
{
    match form {
        Ok(text) => Ok(Ok(text)),
        Err(kind) => {
            let message = format!(in alloc; "{refusal}{kind}")?;
            Ok(Err(format_fault(alloc, message)?))
        }
    }
}

fn shown_by(
    alloc: Global,
    verb: Verb,
    item: &Value,
) -> Result<Result<String, ExecutionError>, Refused>
    ensures value { IfOk result (λ r. shown_view r ≡ spec.shown_by verb (view item.now)) }
{
    match verb {
        Verb::Text => or_refused(alloc, "%s does not support ", item.text(alloc)?),
        Verb::Decimal => or_refused(
            alloc,
            "%d requires int or uint, got ",
            decimal_form(alloc, item)?,
        ),
        Verb::Octal => or_refused(
            alloc,
            "%o requires int or uint, got ",
            octal_form(alloc, item)?,
        ),
        Verb::Binary => or_refused(
            alloc,
            "%b requires int, uint, or bool, got ",
            binary_form(alloc, item)?,
        ),
        Verb::LowerHex => or_refused(
            alloc,
            "%x requires int, uint, string, or bytes, got ",
            hex_form(alloc, false, item)?,
        ),
        Verb::UpperHex => or_refused(
            alloc,
            "%x requires int, uint, string, or bytes, got ",
            hex_form(alloc, true, item)?,
        ),
        Verb::Double => Ok(Err(double_fault(alloc)?)),
    }
}

/// The text of an item under the verb with this letter, or an error.
pub(crate) fn shown_by_letter(
    alloc: Global,
    letter: char,
    item: &Value,
) -> Result<Result<String, ExecutionError>, Refused>
    ensures value { IfOk result (λ r. shown_view r ≡ spec.shown_by_letter letter (view item.now)) }
{
    match Verb::of(letter) {
        Some(verb) => shown_by(alloc, verb, item),
        None => Ok(Err(unknown_verb(alloc, letter)?)),
    }
}
