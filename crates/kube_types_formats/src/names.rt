//! Kubernetes' qualified names and label values.
ghost use Rattle.std.specs.Prelude.{◌≡◌, ◌++◌, OnOk};
ghost use Rattle.std.specs.List.{list_all};
ghost use Rattle.kube_types_formats.specs.Found.{texts_of};
ghost use Rattle.kube_types_formats.specs.Names.{is_name_byte, name_faults, name_prefix_faults, label_value_faults, qualified_name_faults};

use crate::dns::{LABEL_LIMIT, Label, first_byte, last_byte, too_long};
use crate::fault::Fault;
use crate::offsets::{cut, last_offset};
use crate::report::Report;
use std::alloc::AllocError;

/// Reports whether all bytes are letters, digits, hyphens, underscores or dots.
fn is_name_text(text: &[u8]) -> bool
    ensures { result ≡ list_all is_name_byte text.now }
{
    text.iter().all(|byte| byte.is_ascii_alphanumeric() || matches!(*byte, b'-' | b'_' | b'.'))
}

impl Report {
    /// Adds the faults of a name.
    #[tactic(auto, unfolding(crate::specs::Names::name_faults))]
    fn add_name(&mut self, prefix: &str, text: &[u8]) -> Result<(), AllocError>
        ensures added { OnOk result
            (texts_of self.new ≡ texts_of self.old ++ name_faults prefix.now text.now) }
    {
        if text.is_empty() {
            return self.add(prefix, Fault::Empty);
        }
        let first_fault = !first_byte(text).is_ascii_alphanumeric();
        let last_fault = !last_byte(text).is_ascii_alphanumeric();
        self.add_chosen(
            prefix,
            &[
                too_long(LABEL_LIMIT, text),
                (!is_name_text(text), Fault::NotName),
                (first_fault, Fault::FirstNotAlphanumeric),
                (last_fault, Fault::LastNotAlphanumeric),
            ],
        )
    }

    /// Adds the faults of the part before the slash of a qualified name.
    #[tactic(auto, unfolding(crate::specs::Names::name_prefix_faults))]
    fn add_name_prefix(&mut self, prefix: &[u8]) -> Result<(), AllocError>
        ensures added { OnOk result
            (texts_of self.new ≡ texts_of self.old ++ name_prefix_faults prefix.now) }
    {
        if prefix.is_empty() {
            return self.add("", Fault::EmptyPrefix);
        }
        self.add_subdomain(Label::Rfc1123, "prefix: ", prefix)
    }

    /// Adds the faults of a qualified name.
    #[tactic(auto, unfolding(crate::specs::Names::qualified_name_faults, crate::specs::Names::faults_around))]
    pub(crate) fn add_qualified_name(&mut self, text: &[u8]) -> Result<(), AllocError>
        ensures added { OnOk result
            (texts_of self.new ≡ texts_of self.old ++ qualified_name_faults text.now) }
    {
        if text.is_empty() {
            return self.add("", Fault::Empty);
        }
        match last_offset(b"/", text) {
            None => self.add_name("", text),
            Some(slash) => {
                let (prefix, name) = cut(text, slash);
                self.add_name_prefix(prefix)?;
                self.add_name("name: ", name)
            }
        }
    }

    /// Adds the faults of a label value.
    #[tactic(auto, unfolding(crate::specs::Names::label_value_faults))]
    pub(crate) fn add_label_value(&mut self, text: &[u8]) -> Result<(), AllocError>
        ensures added { OnOk result
            (texts_of self.new ≡ texts_of self.old ++ label_value_faults text.now) }
    {
        if text.is_empty() {
            return Ok(());
        }
        self.add_name("", text)
    }
}
