//! Writes reports as JSON.
ghost use Rattle.kubecel_report.specs.Items.{finding_view, item_view};
ghost use Rattle.kubecel_report.specs.Json.{json_finding, json_findings, json_head, json_item, json_items, json_list, later_finding, later_item, json_string, text_member};
ghost use Rattle.std.specs.Io.KnownBytes.{Appends};
ghost use Rattle.std.specs.List.{flat_map};
ghost use Rattle.std.specs.Prelude.{◌≡◌, IfOk, OnOk, map, string_bytes};

use crate::escape::{Escape, escaped};
use crate::item::{Finding, Item};
use crate::lines::write_number;
use serde_json::Value;
use std::alloc::{AllocError, Global};
use std::io;
use std::io::Write;

/// Returns a text as a JSON string.
#[tactic(auto, unfolding(crate::specs::Json::json_string))]
fn json_string(alloc: Global, text: &str) -> Result<String, AllocError>
    ensures { IfOk result (λ s. string_bytes s ≡ json_string text.now) }
{
    let quoted = Value::String(String::from_str(alloc, text)?).to_string(alloc)?;
    escaped(alloc, Escape::Json, quoted.as_str())
}

/// Writes `head`, then a text as a JSON string.
#[tactic(auto, unfolding(crate::specs::Json::text_member))]
fn write_member<O: Write>(alloc: Global, head: &str, text: &str, out: &mut O) -> io::Result<()>
    ensures { OnOk result (Appends (O.contents out.old) (O.contents out.new)
        (text_member head.now text.now)) }
{
    let text = json_string(alloc, text)?;
    write!(out, "{head}{text}")
}

/// Writes things as an array of objects.
pub(crate) fn write_json_items<O: Write>(
    alloc: Global,
    items: &[Item],
    out: &mut O,
) -> io::Result<()>
    ensures { OnOk result (Appends (O.contents out.old) (O.contents out.new)
        (json_items (map item_view items.now))) }
{
    out.write_all(b"[")?;
    write_json_list(alloc, items, out)?;
    out.write_all(b"]\n")
}

fn write_json_list<O: Write>(alloc: Global, items: &[Item], out: &mut O) -> io::Result<()>
    ensures { OnOk result (Appends (O.contents out.old) (O.contents out.new)
        (json_list (map item_view items.now))) }
{
    match items.split_first() {
        Some((first, others)) => {
            write_json_item(alloc, first, out)?;
            write_later_items(alloc, others, out)
        }
        None => Ok(()),
    }
}

fn write_later_items<O: Write>(alloc: Global, items: &[Item], out: &mut O) -> io::Result<()>
    ensures { OnOk result (Appends (O.contents out.old) (O.contents out.new)
        (flat_map later_item (map item_view items.now))) }
{
    for item in items {
        out.write_all(b",\n")?;
        write_json_item(alloc, item, out)?;
    }
    Ok(())
}

fn write_json_item<O: Write>(alloc: Global, item: &Item, out: &mut O) -> io::Result<()>
    ensures { OnOk result (Appends (O.contents out.old) (O.contents out.new)
        (json_item (item_view item.now))) }
{
    write_json_head(alloc, item, out)?;
    out.write_all(b"\",\"findings\":[")?;
    write_json_findings(alloc, item.findings.as_slice(), out)?;
    out.write_all(b"]}")
}

fn write_json_head<O: Write>(alloc: Global, item: &Item, out: &mut O) -> io::Result<()>
    ensures { OnOk result (Appends (O.contents out.old) (O.contents out.new)
        (json_head (item_view item.now))) }
{
    write_member(alloc, "{\"file\":", item.file.as_str(), out)?;
    write_number(",\"index\":", item.index, out)?;
    write_member(alloc, ",\"kind\":", item.kind.as_str(), out)?;
    write_member(alloc, ",\"namespace\":", item.namespace.as_str(), out)?;
    write_member(alloc, ",\"name\":", item.name.as_str(), out)?;
    write!(out, ",\"verdict\":\"{}", item.verdict.name())
}

fn write_json_findings<O: Write>(alloc: Global, findings: &[Finding], out: &mut O) -> io::Result<()>
    ensures { OnOk result (Appends (O.contents out.old) (O.contents out.new)
        (json_findings (map finding_view findings.now))) }
{
    match findings.split_first() {
        Some((first, others)) => {
            write_json_finding(alloc, first, out)?;
            write_later_findings(alloc, others, out)
        }
        None => Ok(()),
    }
}

fn write_later_findings<O: Write>(
    alloc: Global,
    findings: &[Finding],
    out: &mut O,
) -> io::Result<()>
    ensures { OnOk result (Appends (O.contents out.old) (O.contents out.new)
        (flat_map later_finding (map finding_view findings.now))) }
{
    for finding in findings {
        out.write_all(b",\n")?;
        write_json_finding(alloc, finding, out)?;
    }
    Ok(())
}

#[tactic(auto, unfolding(crate::specs::Json::json_finding))]
fn write_json_finding<O: Write>(alloc: Global, finding: &Finding, out: &mut O) -> io::Result<()>
    ensures { OnOk result (Appends (O.contents out.old) (O.contents out.new)
        (json_finding (finding_view finding.now))) }
{
    write_member(alloc, "{\"location\":", finding.location.as_str(), out)?;
    write_member(alloc, ",\"rule\":", finding.rule.as_str(), out)?;
    write_member(alloc, ",\"message\":", finding.message.as_str(), out)?;
    out.write_all(b"}")
}
