//! Named formats, which find the faults of texts.
ghost use Rattle.std.specs.Prelude.{◌≡◌, ◌≢◌, ◌++◌, map, string_bytes, IfOk, IfErr, OnOk, MatchOption};
ghost use Rattle.kube_types_formats.specs.Found.{texts_of};
ghost use Rattle.kube_types_formats.specs.Formats.{name_of, kind_of, faults_of, uuid_fault, base64_fault};
ghost use Rattle.kube_types_formats.specs.declared.kind.FormatKind.{FormatKind};

use crate::base64::is_base64;
use crate::dates::{date_fault, date_time_fault};
use crate::dns::Label;
use crate::fault::Fault;
use crate::forms::fits;
use crate::kind::FormatKind;
use crate::report::Report;
use crate::uris::uri_fault;
use kube_types_refused::Refused;
use std::alloc::{AllocError, Global};

/// A named format.
#[derive(Clone, Copy, Debug, PartialEq, Eq)]
pub struct KubeFormat {
    kind: FormatKind,
}

impl KubeFormat {
    /// Returns the format of a kind.
    pub fn new(kind: FormatKind) -> KubeFormat
        ensures { kind_of result ≡ kind }
    {
        KubeFormat { kind }
    }

    /// Returns the format with a name, or None if there is none.
    pub fn named(name: &str) -> Option<KubeFormat>
        ensures { MatchOption result ((kind : FormatKind) → name_of kind ≢ name.now)
            (λ format. name_of (kind_of format) ≡ name.now) }
    {
        Some(KubeFormat::new(FormatKind::named(name)?))
    }

    /// The format's kind.
    pub fn kind(&self) -> FormatKind
        ensures { result ≡ kind_of self.now }
    {
        self.kind
    }

    /// Returns the faults of a text in this format, in
    /// order. The list is empty if the text is valid.
    ///
    /// Lengths are counted in bytes.
    ///
    /// # Errors
    /// [`Refused::Memory`] if memory is refused.
    pub fn faults(&self, alloc: Global, text: &str) -> Result<Vec<String>, Refused>
        ensures faults { IfOk result
            (λ texts. map string_bytes texts.items ≡ faults_of (kind_of self.now) text.now) }
        ensures memory { IfErr result (λ e. e ≡ Refused.Memory) }
    {
        let mut report = Report::new(alloc);
        report.add_faults(self.kind, text.as_bytes())?;
        Ok(report.into_texts())
    }
}

impl Report {
    /// Adds the faults of a text in the format of a kind.
    #[tactic(auto, unfolding(crate::specs::Formats::faults_of))]
    fn add_faults(&mut self, kind: FormatKind, text: &[u8]) -> Result<(), AllocError>
        ensures added { OnOk result
            (texts_of self.new ≡ texts_of self.old ++ faults_of kind text.now) }
    {
        match kind {
            FormatKind::Dns1123Label => self.add_label(Label::Rfc1123, "", text),
            FormatKind::Dns1035Label => self.add_label(Label::Rfc1035, "", text),
            FormatKind::Dns1035LabelPrefix => self.add_label(Label::Rfc1035Prefix, "", text),
            FormatKind::Dns1123LabelPrefix => self.add_label(Label::Rfc1123Prefix, "", text),
            FormatKind::Dns1123Subdomain => self.add_subdomain(Label::Rfc1123, "", text),
            FormatKind::Dns1123SubdomainPrefix => self.add_subdomain(
                Label::Rfc1123Prefix,
                "",
                text,
            ),
            FormatKind::QualifiedName => self.add_qualified_name(text),
            FormatKind::LabelValue => self.add_label_value(text),
            FormatKind::Uri => self.add_found("", uri_fault(text)),
            FormatKind::Uuid => self.add_found("", uuid_fault(text)),
            FormatKind::Byte => self.add_found("", base64_fault(text)),
            FormatKind::Date => self.add_found("", date_fault(text)),
            FormatKind::DateTime => self.add_found("", date_time_fault(text)),
        }
    }
}

/// The fault of the text as a UUID (RFC 4122), if any.
#[tactic(auto, unfolding(crate::specs::Formats::uuid_fault))]
fn uuid_fault(text: &[u8]) -> Option<Fault>
    ensures { result ≡ uuid_fault text.now }
{
    if fits(b"xxxxxxxx-xxxx-xxxx-xxxx-xxxxxxxxxxxx", text) {
        None
    } else {
        Some(Fault::NotUuid)
    }
}

/// The fault of the text as Base64, if any.
#[tactic(auto, unfolding(crate::specs::Formats::base64_fault))]
fn base64_fault(text: &[u8]) -> Option<Fault>
    ensures { result ≡ base64_fault text.now }
{
    if is_base64(text) {
        None
    } else {
        Some(Fault::NotBase64)
    }
}
