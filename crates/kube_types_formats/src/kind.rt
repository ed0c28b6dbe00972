//! The kinds of named formats.
ghost use Rattle.std.specs.Prelude.{◌≡◌, ◌≢◌, MatchOption, Some};

use std::fmt;

/// A format that Kubernetes has a name for. It prints as that name.
#[derive(Clone, Copy, Debug, PartialEq, Eq)]
pub enum FormatKind {
    /// A label of RFC 1123.
    Dns1123Label,
    /// A label of RFC 1035.
    Dns1035Label,
    /// A prefix of a label of RFC 1035.
    Dns1035LabelPrefix,
    /// A prefix of a label of RFC 1123.
    Dns1123LabelPrefix,
    /// Labels of RFC 1123, separated by dots.
    Dns1123Subdomain,
    /// A prefix of labels of RFC 1123, separated by dots.
    Dns1123SubdomainPrefix,
    /// A name, with an optional subdomain and slash before it.
    QualifiedName,
    /// The value of a label.
    LabelValue,
    /// A URI. Only its scheme is checked.
    Uri,
    /// A UUID.
    Uuid,
    /// Bytes in Base64.
    Byte,
    /// A date of RFC 3339.
    Date,
    /// A date and time of RFC 3339.
    DateTime,
}

/// All kinds.
const KINDS: [FormatKind; 13] = [
    FormatKind::Dns1123Label,
    FormatKind::Dns1035Label,
    FormatKind::Dns1035LabelPrefix,
    FormatKind::Dns1123LabelPrefix,
    FormatKind::Dns1123Subdomain,
    FormatKind::Dns1123SubdomainPrefix,
    FormatKind::QualifiedName,
    FormatKind::LabelValue,
    FormatKind::Uri,
    FormatKind::Uuid,
    FormatKind::Byte,
    FormatKind::Date,
    FormatKind::DateTime,
];

impl FormatKind {
    ghost use Rattle.kube_types_formats.specs.Formats.{name_of};
    ghost use Rattle.kube_types_formats.specs.declared.kind.FormatKind.{FormatKind};

    /// Returns the kind with a name, or None if there is none.
    pub fn named(name: &str) -> Option<FormatKind>
        ensures { MatchOption result ((kind : FormatKind) → name_of kind ≢ name.now)
            (λ kind. name_of kind ≡ name.now) }
    {
        for kind in KINDS {
            if kind.name() == name {
                return Some(kind);
            }
        }
        None
    }

    /// Returns the kind's name.
    #[tactic(auto, unfolding(crate::specs::Formats::name_of))]
    pub fn name(self) -> &'static str
        ensures { result.now ≡ name_of self }
    {
        match self {
            FormatKind::Dns1123Label => "dns1123Label",
            FormatKind::Dns1035Label => "dns1035Label",
            FormatKind::Dns1035LabelPrefix => "dns1035LabelPrefix",
            FormatKind::Dns1123LabelPrefix => "dns1123LabelPrefix",
            FormatKind::Dns1123Subdomain => "dns1123Subdomain",
            FormatKind::Dns1123SubdomainPrefix => "dns1123SubdomainPrefix",
            FormatKind::QualifiedName => "qualifiedName",
            FormatKind::LabelValue => "labelValue",
            FormatKind::Uri => "uri",
            FormatKind::Uuid => "uuid",
            FormatKind::Byte => "byte",
            FormatKind::Date => "date",
            FormatKind::DateTime => "datetime",
        }
    }
}

impl fmt::Display for FormatKind {
    ghost use Rattle.kube_types_formats.specs.Formats.{name_of};

    ghost output = { λ kind. Some (name_of kind) };

    fn fmt<W: fmt::Write>(&self, f: &mut fmt::Formatter<W>) -> fmt::Result {
        f.write_str(self.name())
    }
}
