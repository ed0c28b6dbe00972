//! Laws of the named formats. Each is the contract of a function with an empty body.
ghost use Rattle.std.specs.Prelude.{ℕ, List, [], ◌≡◌};
ghost use Rattle.kube_types_formats.specs.Formats.{name_of, faults_of};
ghost use Rattle.kube_types_formats.specs.declared.kind.FormatKind.{FormatKind};
ghost use Rattle.kube_types_formats.specs.declared.kind.FormatKind.TheVariants.{Dns1035Label, Dns1123Label, Dns1123LabelPrefix};

/// Different kinds have different names, so a name identifies its kind.
pub fn names_distinguish_kinds()
    ensures { (first second : FormatKind) → name_of first ≡ name_of second → first ≡ second }
{}

/// Every label that RFC 1035 allows is allowed by RFC 1123.
pub fn a_label_of_rfc_1035_is_one_of_rfc_1123()
    ensures { (text : List ℕ) → faults_of Dns1035Label text ≡ [] → faults_of Dns1123Label text ≡ [] }
{}

/// Every label is valid as a prefix of a label.
pub fn a_label_begins_a_label()
    ensures { (text : List ℕ) → faults_of Dns1123Label text ≡ [] → faults_of Dns1123LabelPrefix text ≡ [] }
{}
