//! `KubeSemver`: parsing, its three numbers and copies.
ghost use Rattle.std.specs.Option.{option_map};
ghost use Rattle.std.specs.Prelude.{◌≡◌, false, IfOk, IfErr, IsOk};
ghost use Rattle.kube_types_refused.specs.declared.Refused.TheVariants.{Memory};
ghost use Rattle.kube_types.specs.Version.Reading.{version_of, integer_of, strictly, IsPlain};
ghost use Rattle.kube_types.specs.Version.Shown.{parts};

use crate::versions::reading::{normal_text, strict_version, without_v};
use kube_types_refused::Refused;
use std::alloc::Global;

/// A version by SemVer 2.0: three numbers, a pre-release and build metadata.
///
/// A pre-release or build metadata that isn't there is empty.
#[derive(Debug)]
pub struct KubeSemver {
    pub(crate) major: u64,
    pub(crate) minor: u64,
    pub(crate) patch: u64,
    pub(crate) pre: String,
    pub(crate) build: String,
}

// By hand, so that a proof about code that owns one doesn't go through its parts.
impl Drop for KubeSemver {
    fn drop(self) {
        let KubeSemver {
            major: _,
            minor: _,
            patch: _,
            pre: _,
            build: _,
        } = self;
    }
}

impl KubeSemver {
    /// Parses a version, or returns None if the text isn't one.
    ///
    /// Strictly, a text is a version by SemVer 2.0 with numbers below 2 to the 64. A lenient
    /// reading first drops one leading `v` or `V`. If the part before the first `-` is then one to
    /// three runs of digits separated by dots, it drops their leading zeros and takes 0 for each
    /// missing number; four or more runs aren't a version. Any other text is read strictly.
    ///
    /// A strict reading of a version with neither a pre-release nor build metadata takes no memory.
    ///
    /// # Errors
    /// [`Refused::Memory`] if memory is refused.
    #[tactic(auto, unfolding(crate::specs::Version::Reading::version_of))]
    pub fn read(alloc: Global, text: &str, lenient: bool) -> Result<Option<KubeSemver>, Refused>
        ensures answer { IfOk result (λ version. option_map parts version ≡ version_of lenient text.now) }
        ensures plain { lenient ≡ false → IsPlain (strictly text.now) → IsOk result }
        ensures memory { IfErr result (λ e. e ≡ Memory) }
    {
        if !lenient {
            let version = strict_version(alloc, text)?;
            return Ok(version);
        }
        match normal_text(alloc, without_v(text))? {
            Some(full) => {
                let version = strict_version(alloc, full.as_str())?;
                Ok(version)
            }
            None => Ok(None),
        }
    }

    /// The major number, or None if it exceeds a signed 64-bit integer.
    pub fn major(&self) -> Option<i64>
        ensures { result ≡ integer_of (parts self.now).0 }
    {
        i64::try_from(self.major).ok()
    }

    /// The minor number, or None if it exceeds a signed 64-bit integer.
    pub fn minor(&self) -> Option<i64>
        ensures { result ≡ integer_of (parts self.now).1 }
    {
        i64::try_from(self.minor).ok()
    }

    /// The patch number, or None if it exceeds a signed 64-bit integer.
    pub fn patch(&self) -> Option<i64>
        ensures { result ≡ integer_of (parts self.now).2 }
    {
        i64::try_from(self.patch).ok()
    }

    /// Returns a copy of this version.
    ///
    /// # Errors
    /// [`Refused::Memory`] if memory is refused.
    pub fn try_clone(&self) -> Result<KubeSemver, Refused>
        ensures same { IfOk result (λ version. parts version ≡ parts self.now) }
        ensures memory { IfErr result (λ e. e ≡ Memory) }
    {
        Ok(KubeSemver {
            major: self.major,
            minor: self.minor,
            patch: self.patch,
            pre: self.pre.clone()?,
            build: self.build.clone()?,
        })
    }
}
