//! DNS labels and subdomains, by RFC 1035 and RFC 1123.
ghost use Rattle.std.specs.Prelude.{ℕ, List, ◌≡◌, ◌<◌, ◌++◌, length, nat_lt, OnOk, IfOk};
ghost use Rattle.std.specs.List.{list_all};
ghost use Rattle.kube_types_formats.specs.Found.{faults_found, texts_of};
ghost use Rattle.kube_types_formats.specs.Labels.{is_label_byte, first_byte, last_byte, empty_fault, end_tests, label_faults, subdomain_faults, parts_of, faults_of_parts};

use crate::fault::Fault;
use crate::offsets::{cut, first_offset};
use crate::report::Report;
use std::alloc::AllocError;

/// The maximum length of a label in bytes.
pub(crate) const LABEL_LIMIT: usize = 63;

/// The maximum length of a subdomain in bytes.
const SUBDOMAIN_LIMIT: usize = 253;

/// The kinds of labels.
#[derive(Clone, Copy)]
pub(crate) enum Label {
    /// A label of RFC 1123.
    Rfc1123,
    /// A prefix of a label of RFC 1123.
    Rfc1123Prefix,
    /// A label of RFC 1035.
    Rfc1035,
    /// A prefix of a label of RFC 1035, which may be empty.
    Rfc1035Prefix,
}

/// The fault of an empty text as a label, if any.
fn empty_fault(label: Label) -> Option<Fault>
    ensures { result ≡ empty_fault label }
{
    match label {
        Label::Rfc1123 | Label::Rfc1123Prefix | Label::Rfc1035 => Some(Fault::Empty),
        Label::Rfc1035Prefix => None,
    }
}

/// Reports whether all bytes are lower case letters, digits or hyphens.
fn is_label_text(text: &[u8]) -> bool
    ensures { result ≡ list_all is_label_byte text.now }
{
    text.iter().all(|byte| byte.is_ascii_lowercase() || byte.is_ascii_digit() || *byte == b'-')
}

/// The first byte of a text.
pub(crate) fn first_byte(text: &[u8]) -> u8
    requires { 0 < length text.now }
    ensures { result ≡ first_byte text.now }
{
    text[0]
}

/// The last byte of a text.
pub(crate) fn last_byte(text: &[u8]) -> u8
    requires { 0 < length text.now }
    ensures { result ≡ last_byte text.now }
{
    text[text.len() - 1]
}

/// Tests if the text is longer than the limit. Returns the result with the fault to report.
pub(crate) fn too_long(limit: usize, text: &[u8]) -> (bool, Fault)
    ensures { result ≡ (nat_lt limit (length text.now), Fault.TooLong limit (length text.now)) }
{
    let len = text.len();
    (len > limit, Fault::TooLong { limit, len })
}

impl Report {
    /// Adds the faults at both ends of a label.
    #[tactic(auto, unfolding(crate::specs::Labels::end_tests))]
    fn add_end_faults(&mut self, label: Label, prefix: &str, text: &[u8]) -> Result<(), AllocError>
        requires { 0 < length text.now }
        ensures added { OnOk result
            (texts_of self.new ≡ texts_of self.old
            ++ faults_found prefix.now (end_tests label text.now)) }
    {
        let hyphen_first = first_byte(text) == b'-';
        let hyphen_last = last_byte(text) == b'-';
        let no_letter_first = !first_byte(text).is_ascii_lowercase();
        match label {
            Label::Rfc1123 => {
                let hyphen_ends = hyphen_first || hyphen_last;
                self.add_chosen(prefix, &[(hyphen_ends, Fault::EndNotAlphanumeric)])
            }
            Label::Rfc1123Prefix => {
                self.add_chosen(prefix, &[(hyphen_first, Fault::FirstNotAlphanumeric)])
            }
            Label::Rfc1035 => self.add_chosen(
                prefix,
                &[
                    (no_letter_first, Fault::FirstNotLetter),
                    (hyphen_last, Fault::LastNotAlphanumeric),
                ],
            ),
            Label::Rfc1035Prefix => {
                self.add_chosen(prefix, &[(no_letter_first, Fault::FirstNotLetter)])
            }
        }
    }

    /// Adds the faults of a label.
    #[tactic(auto, unfolding(crate::specs::Labels::label_faults))]
    pub(crate) fn add_label(
        &mut self,
        label: Label,
        prefix: &str,
        text: &[u8],
    ) -> Result<(), AllocError>
        ensures added { OnOk result
            (texts_of self.new ≡ texts_of self.old ++ label_faults label prefix.now text.now) }
    {
        if text.is_empty() {
            return self.add_found(prefix, empty_fault(label));
        }
        let not_label = !is_label_text(text);
        self.add_chosen(
            prefix,
            &[too_long(LABEL_LIMIT, text), (not_label, Fault::NotLabel)],
        )?;
        self.add_end_faults(label, prefix, text)
    }

    /// Adds the faults of each part before the last dot, and returns the text after it.
    fn add_front_parts<'a>(&mut self, prefix: &str, text: &'a [u8]) -> Result<&'a [u8], AllocError>
        ensures added { IfOk result (λ last_part.
            (last : List ℕ → List (List ℕ)) → texts_of self.new ++ last last_part.now
            ≡ texts_of self.old
            ++ faults_of_parts (label_faults Label.Rfc1123 prefix.now) last (parts_of text.now)) }
    {
        let mut rest = text;
        while let Some(dot) = first_offset(b".", rest) {
            let (part, after) = cut(rest, dot);
            self.add_label(Label::Rfc1123, prefix, part)?;
            rest = after;
        }
        Ok(rest)
    }

    /// Adds the faults of a subdomain of RFC 1123. Its last label is tested as the given kind.
    #[tactic(auto, unfolding(crate::specs::Labels::subdomain_faults))]
    pub(crate) fn add_subdomain(
        &mut self,
        last: Label,
        prefix: &str,
        text: &[u8],
    ) -> Result<(), AllocError>
        ensures added { OnOk result
            (texts_of self.new ≡ texts_of self.old ++ subdomain_faults last prefix.now text.now) }
    {
        if text.is_empty() {
            return self.add(prefix, Fault::Empty);
        }
        self.add_chosen(prefix, &[too_long(SUBDOMAIN_LIMIT, text)])?;
        let last_part = self.add_front_parts(prefix, text)?;
        self.add_label(last, prefix, last_part)
    }
}
