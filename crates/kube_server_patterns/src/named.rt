//! Classes of ASCII characters that have a name.
ghost use Rattle.std.specs.Prelude.{◌≡◌};
ghost use Rattle.std.specs.Str.{bytes_eq};
ghost use Rattle.kube_server_patterns.specs.Classes as spec;

use crate::refusal::{Limit, Refusal};

/// A class of ASCII characters.
#[derive(Clone, Copy)]
pub(crate) enum Named {
    Alnum,
    Alpha,
    Ascii,
    Blank,
    Cntrl,
    Digit,
    Graph,
    Lower,
    Print,
    Punct,
    Space,
    Upper,
    Word,
    Xdigit,
    /// `\s`, which is `[:space:]` without the vertical tab.
    Gap,
}

fn spells(name: &[char], word: &[char]) -> bool
    ensures { result ≡ bytes_eq name.now word.now }
{
    name == word
}

fn named_to_d(name: &[char]) -> Option<Named>
    ensures { result ≡ spec.class_to_d name.now }
{
    if spells(name, &['a', 'l', 'n', 'u', 'm']) {
        Some(Named::Alnum)
    } else if spells(name, &['a', 'l', 'p', 'h', 'a']) {
        Some(Named::Alpha)
    } else if spells(name, &['a', 's', 'c', 'i', 'i']) {
        Some(Named::Ascii)
    } else if spells(name, &['b', 'l', 'a', 'n', 'k']) {
        Some(Named::Blank)
    } else if spells(name, &['c', 'n', 't', 'r', 'l']) {
        Some(Named::Cntrl)
    } else if spells(name, &['d', 'i', 'g', 'i', 't']) {
        Some(Named::Digit)
    } else {
        None
    }
}

fn named_from_g(name: &[char]) -> Option<Named>
    ensures { result ≡ spec.class_from_g name.now }
{
    if spells(name, &['g', 'r', 'a', 'p', 'h']) {
        Some(Named::Graph)
    } else if spells(name, &['l', 'o', 'w', 'e', 'r']) {
        Some(Named::Lower)
    } else if spells(name, &['p', 'r', 'i', 'n', 't']) {
        Some(Named::Print)
    } else if spells(name, &['p', 'u', 'n', 'c', 't']) {
        Some(Named::Punct)
    } else if spells(name, &['s', 'p', 'a', 'c', 'e']) {
        Some(Named::Space)
    } else if spells(name, &['u', 'p', 'p', 'e', 'r']) {
        Some(Named::Upper)
    } else if spells(name, &['w', 'o', 'r', 'd']) {
        Some(Named::Word)
    } else if spells(name, &['x', 'd', 'i', 'g', 'i', 't']) {
        Some(Named::Xdigit)
    } else {
        None
    }
}

/// The class with this name, as in `[:alpha:]`.
#[tactic(auto, unfolding(crate::specs::Classes::class_of_name))]
pub(crate) fn class_of_name(name: &[char]) -> Option<Named>
    ensures { result ≡ spec.class_of_name name.now }
{
    match named_to_d(name) {
        Some(class) => Some(class),
        None => named_from_g(name),
    }
}

/// The class that a letter stands for after a backslash, and whether it is negated.
#[tactic(auto, unfolding(crate::specs::Classes::lettered))]
pub(crate) fn lettered(c: char) -> Option<(Named, bool)>
    ensures { result ≡ spec.lettered c }
{
    match c {
        'd' => Some((Named::Digit, false)),
        'D' => Some((Named::Digit, true)),
        's' => Some((Named::Gap, false)),
        'S' => Some((Named::Gap, true)),
        'w' => Some((Named::Word, false)),
        'W' => Some((Named::Word, true)),
        _ => None,
    }
}

impl Named {
    /// Reports whether the class is the same where case is ignored.
    pub(crate) fn is_without_case(self) -> bool
        ensures { result ≡ spec.is_without_case self }
    {
        match self {
            Named::Blank
            | Named::Cntrl
            | Named::Digit
            | Named::Punct
            | Named::Space
            | Named::Xdigit
            | Named::Gap => true,
            _ => false,
        }
    }

    /// The text of the class inside brackets.
    pub(crate) fn text(self) -> &'static str
        ensures { result.now ≡ spec.class_text self }
    {
        match self {
            Named::Alnum => "[:alnum:]",
            Named::Alpha => "[:alpha:]",
            Named::Ascii => "[:ascii:]",
            Named::Blank => "[:blank:]",
            Named::Cntrl => "[:cntrl:]",
            Named::Digit => "[:digit:]",
            Named::Graph => "[:graph:]",
            Named::Lower => "[:lower:]",
            Named::Print => "[:print:]",
            Named::Punct => "[:punct:]",
            Named::Space => "[:space:]",
            Named::Upper => "[:upper:]",
            Named::Word => "[:word:]",
            Named::Xdigit => "[:xdigit:]",
            Named::Gap => "[\t\n\x0c\r ]",
        }
    }

    /// The text of all other characters inside brackets.
    pub(crate) fn negated_text(self) -> &'static str
        ensures { result.now ≡ spec.negated_text self }
    {
        match self {
            Named::Alnum => "[:^alnum:]",
            Named::Alpha => "[:^alpha:]",
            Named::Ascii => "[:^ascii:]",
            Named::Blank => "[:^blank:]",
            Named::Cntrl => "[:^cntrl:]",
            Named::Digit => "[:^digit:]",
            Named::Graph => "[:^graph:]",
            Named::Lower => "[:^lower:]",
            Named::Print => "[:^print:]",
            Named::Punct => "[:^punct:]",
            Named::Space => "[:^space:]",
            Named::Upper => "[:^upper:]",
            Named::Word => "[:^word:]",
            Named::Xdigit => "[:^xdigit:]",
            Named::Gap => "[^\t\n\x0c\r ]",
        }
    }
}

/// The class, unless it would be another one where case is ignored.
pub(crate) fn unless_folded(class: Named, folds: bool) -> Result<Named, Refusal>
    ensures { result ≡ spec.unless_folded class folds }
{
    if folds && !class.is_without_case() {
        Err(Refusal::Unsupported(Limit::FoldedClass))
    } else {
        Ok(class)
    }
}
