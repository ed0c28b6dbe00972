//! Laws of reports. Each is the contract of a function with an empty body.
ghost use Rattle.kubecel_report.specs.Items.{ItemData};
ghost use Rattle.kubecel_report.specs.Lines.{said};
ghost use Rattle.kubecel_report.specs.Output.{output_text};
ghost use Rattle.kubecel_report.specs.Safe.{AreSeen, AreXmlChars, line_count, report_lines};
ghost use Rattle.kubecel_report.specs.declared.escape.Escape.{Escape};
ghost use Rattle.kubecel_report.specs.declared.output.Output as spec;
ghost use Rattle.std.specs.Prelude.{◌≡◌, ℕ, List};
ghost use Rattle.std.specs.Str.{IsUtf8};

/// In each form a report has exactly the lines of its things and findings, whatever their texts
/// are.
pub fn no_text_adds_a_line()
    ensures { (form : spec.Output) (items : List ItemData)
        → line_count (output_text form items) ≡ report_lines form items }
{}

/// What happened is said in one line, whatever the words are.
pub fn words_are_one_line()
    ensures { (words : List ℕ) → line_count (said words) ≡ 1 }
{}

/// In each form all characters that are written for a text of a file are seen.
pub fn no_text_hides_a_character()
    ensures { (escape : Escape) (text : List ℕ) → IsUtf8 text → AreSeen escape text }
{}

/// XML allows each character that is written for a text of a file.
pub fn each_text_is_one_of_xml()
    ensures { (text : List ℕ) → IsUtf8 text → AreXmlChars text }
{}
