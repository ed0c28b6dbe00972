//! The texts of the faults found so far, in order.
ghost use Rattle.std.specs.Prelude.{◌≡◌, [], ◌∷◌, ◌++◌, OnOk, map, string_bytes};
ghost use Rattle.kube_types_formats.specs.Found.{fault_line, faults_found, only, texts_of};

use crate::fault::Fault;
use std::alloc::{AllocError, Global};

/// The texts of the faults found so far.
#[derive(Drop)]
pub(crate) struct Report {
    alloc: Global,
    texts: Vec<String>,
}

impl Report {
    /// An empty report.
    pub(crate) fn new(alloc: Global) -> Report
        ensures { texts_of result ≡ [] }
    {
        Report {
            alloc,
            texts: Vec::new(alloc),
        }
    }

    /// The texts, in the order in which the faults were added.
    pub(crate) fn into_texts(self) -> Vec<String>
        ensures { map string_bytes result.items ≡ texts_of self }
    {
        self.texts
    }

    /// Adds the text of a fault. The prefix names the part of the
    /// text that the fault is in; it is empty for the whole text.
    pub(crate) fn add(&mut self, prefix: &str, fault: Fault) -> Result<(), AllocError>
        ensures added { OnOk result
            (texts_of self.new ≡ texts_of self.old ++ (fault_line prefix.now fault ∷ [])) }
    {
        let text = format!(in self.alloc; "{prefix}{fault}")?;
        self.texts.push(text)?;
        Ok(())
    }

    /// Adds the fault, if there is one.
    pub(crate) fn add_found(&mut self, prefix: &str, fault: Option<Fault>) -> Result<(), AllocError>
        ensures added { OnOk result
            (texts_of self.new ≡ texts_of self.old ++ only prefix.now fault) }
    {
        match fault {
            Some(fault) => self.add(prefix, fault),
            None => Ok(()),
        }
    }

    /// Adds the fault if its test found it.
    #[tactic(auto, unfolding(crate::specs::Found::faults_found))]
    fn add_if(&mut self, prefix: &str, found: bool, fault: Fault) -> Result<(), AllocError>
        ensures added { OnOk result
            (texts_of self.new ≡ texts_of self.old ++ faults_found prefix.now ((found, fault) ∷ [])) }
    {
        if found {
            self.add(prefix, fault)
        } else {
            Ok(())
        }
    }

    /// Adds each fault in the table whose test found it.
    pub(crate) fn add_chosen(
        &mut self,
        prefix: &str,
        rules: &[(bool, Fault)],
    ) -> Result<(), AllocError>
        ensures added { OnOk result
            (texts_of self.new ≡ texts_of self.old ++ faults_found prefix.now rules.now) }
    {
        for rule in rules {
            let (found, fault) = *rule;
            self.add_if(prefix, found, fault)?;
        }
        Ok(())
    }
}
