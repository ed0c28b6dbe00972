//! The report on each thing that was judged.
ghost use Rattle.kubecel_report.specs.Items.{finding_view, suffixed_text, item_view, items_status, kind_or_document, prefixed_text, title, finding_text, verdict_status};
ghost use Rattle.kubecel_report.specs.Json.{verdict_name};
ghost use Rattle.kubecel_report.specs.Lines.{colour, element, level, location, verdict_word};
ghost use Rattle.std.specs.Prelude.{◌≡◌, ◌≤◌, IfOk, map, max, string_bytes};

use std::alloc::{AllocError, Global};

/// The result of judging a thing.
#[derive(Clone, Copy, Drop)]
pub enum Verdict {
    /// All rules hold.
    Pass,
    /// It is a policy that doesn't apply to the request.
    Skip,
    /// At least one rule doesn't hold.
    Fail,
    /// It couldn't be judged.
    NotJudged,
}

/// Something that a report states about a thing.
#[derive(Drop)]
pub struct Finding {
    /// The place within the thing. Empty for its root.
    pub location: String,
    /// The source of the rule that it is about. Empty if it isn't about a rule.
    pub rule: String,
    /// The message.
    pub message: String,
}

/// A thing that was to be judged, with the result.
#[derive(Drop)]
pub struct Item {
    /// The path of its file.
    pub file: String,
    /// The index of its document in the file, counted from 0.
    pub index: usize,
    /// Its kind. Empty if it has none.
    pub kind: String,
    /// Its namespace. Empty if it has none.
    pub namespace: String,
    /// Its name. Empty if it has none.
    pub name: String,
    pub verdict: Verdict,
    /// The findings: why it fails or couldn't be judged, or remarks.
    pub findings: Vec<Finding>,
}

impl Verdict {
    /// The exit status for this verdict.
    pub(crate) fn status(self) -> u8
        ensures value { result ≡ verdict_status self }
        ensures within { result ≤ 2 }
    {
        match self {
            Verdict::Pass | Verdict::Skip => 0,
            Verdict::Fail => 1,
            Verdict::NotJudged => 2,
        }
    }

    /// Its words in a line of text.
    pub(crate) fn word(self) -> &'static str
        ensures { result.now ≡ verdict_word self }
    {
        match self {
            Verdict::Pass => "pass",
            Verdict::Skip => "skip",
            Verdict::Fail => "fail",
            Verdict::NotJudged => "not judged",
        }
    }

    /// Its name in JSON, which is one word.
    pub(crate) fn name(self) -> &'static str
        ensures { result.now ≡ verdict_name self }
    {
        match self {
            Verdict::Pass => "pass",
            Verdict::Skip => "skip",
            Verdict::Fail => "fail",
            Verdict::NotJudged => "not_judged",
        }
    }

    /// The terminal's escape sequence for its colour: green, blue, red, yellow.
    pub(crate) fn colour(self) -> &'static str
        ensures { result.now ≡ colour self }
    {
        match self {
            Verdict::Pass => "\u{1b}[32m",
            Verdict::Skip => "\u{1b}[34m",
            Verdict::Fail => "\u{1b}[31m",
            Verdict::NotJudged => "\u{1b}[33m",
        }
    }

    /// The level of GitHub's annotations for this verdict.
    pub(crate) fn level(self) -> &'static str
        ensures { result.now ≡ level self }
    {
        match self {
            Verdict::Pass | Verdict::Skip => "notice",
            Verdict::Fail | Verdict::NotJudged => "error",
        }
    }

    /// The JUnit element that holds the findings.
    pub(crate) fn element(self) -> &'static str
        ensures { result.now ≡ element self }
    {
        match self {
            Verdict::Pass => "system-out",
            Verdict::Skip => "skipped",
            Verdict::Fail => "failure",
            Verdict::NotJudged => "error",
        }
    }
}

fn greater(first: u8, second: u8) -> u8
    ensures { result ≡ max first second }
{
    if first < second { second } else { first }
}

/// Returns the exit status of a run that judged these things: 2 if one couldn't be judged, else 1
/// if one fails, else 0.
pub fn status_of(items: &[Item]) -> u8
    ensures value { result ≡ items_status (map item_view items.now) }
    ensures within { result ≤ 2 }
{
    let mut status = 0;
    for item in items {
        status = greater(status, item.verdict.status());
    }
    status
}

/// Joins two texts with a mark. Returns the second alone if the first is empty.
fn prefixed_text(alloc: Global, first: &str, mark: &str, text: &str) -> Result<String, AllocError>
    ensures { IfOk result (λ s. string_bytes s ≡ prefixed_text first.now mark.now text.now) }
{
    if first.is_empty() {
        String::from_str(alloc, text)
    } else {
        format!(in alloc; "{first}{mark}{text}")
    }
}

/// Joins two texts with a mark. Returns the first alone if the second is empty.
fn suffixed_text(alloc: Global, text: &str, mark: &str, other: &str) -> Result<String, AllocError>
    ensures { IfOk result (λ s. string_bytes s ≡ suffixed_text text.now mark.now other.now) }
{
    if other.is_empty() {
        String::from_str(alloc, text)
    } else {
        format!(in alloc; "{text}{mark}{other}")
    }
}

fn kind_or_document(kind: &str) -> &str
    ensures { result.now ≡ kind_or_document kind.now }
{
    if kind.is_empty() { "document" } else { kind }
}

impl Finding {
    /// Formats the finding as `PLACE: MESSAGE`.
    pub(crate) fn finding_text(&self, alloc: Global) -> Result<String, AllocError>
        ensures { IfOk result (λ s. string_bytes s ≡ finding_text (finding_view self.now)) }
    {
        prefixed_text(alloc, self.location.as_str(), ": ", self.message.as_str())
    }
}

impl Item {
    /// Formats the thing's name as `KIND NAMESPACE/NAME`.
    pub(crate) fn title(&self, alloc: Global) -> Result<String, AllocError>
        ensures { IfOk result (λ s. string_bytes s ≡ title (item_view self.now)) }
    {
        let kind = kind_or_document(self.kind.as_str());
        let name = prefixed_text(alloc, self.namespace.as_str(), "/", self.name.as_str())?;
        suffixed_text(alloc, kind, " ", name.as_str())
    }

    /// Formats the thing's location as `FILE`, or as `FILE[INDEX]` unless it is in the first
    /// document.
    pub(crate) fn location(&self, alloc: Global) -> Result<String, AllocError>
        ensures { IfOk result (λ s. string_bytes s ≡ location (string_bytes self.now.file) self.now.index) }
    {
        match self.index {
            0 => self.file.clone(),
            index => format!(in alloc; "{}[{index}]", self.file),
        }
    }
}
