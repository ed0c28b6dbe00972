//! The commands of the program.

/// A command with its arguments.
#[derive(Clone, Copy)]
pub enum Command<'l, 'w> {
    /// Checks objects against their CustomResourceDefinitions.
    Check(Check<'l, 'w>),
    /// Reports what a person should look at in the CustomResourceDefinitions at these paths.
    Review(&'l [&'w str]),
    /// Evaluates a policy for a request.
    Admit(Admit<'w>),
}

/// What `check` is given.
#[derive(Clone, Copy)]
pub struct Check<'l, 'w> {
    /// The files of CustomResourceDefinitions alone.
    pub crds: &'l [&'w str],
    /// The files of the old objects.
    pub olds: &'l [&'w str],
    /// The files of the objects. There may be CustomResourceDefinitions among them.
    pub objects: &'l [&'w str],
    /// Whether an object is skipped if no definition has its group and kind, or if it has neither
    /// apiVersion nor kind. Otherwise it counts as not judged.
    pub ignores_missing: bool,
    /// Whether it is allowed that no object is left to judge.
    pub allows_none: bool,
}

/// The paths that `admit` is given.
#[derive(Clone, Copy)]
pub struct Admit<'w> {
    pub policy: &'w str,
    /// The file of an AdmissionReview.
    pub request: Option<&'w str>,
    pub object: Option<&'w str>,
    pub old: Option<&'w str>,
    pub params: Option<&'w str>,
    pub namespace: Option<&'w str>,
}
