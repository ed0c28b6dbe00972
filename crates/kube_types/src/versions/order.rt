//! Equality and order of versions.
ghost use Rattle.semver.specs.Order.{is_numeric, build_cmp, numeric_len, part_class, parts as parts_between_dots, pre_cmp, pre_part_cmp, pre_rank, value_len, without_zeros};
ghost use Rattle.std.specs.Cmp.Lexicographic.{slice_cmp};
ghost use Rattle.std.specs.Ordering.{on, as_partial_cmp};
ghost use Rattle.std.specs.Prelude.{◌≡◌};
ghost use Rattle.kube_types.specs.Version.Order.{parts_cmp, same_parts};
ghost use Rattle.kube_types.specs.Version.OrderLaws.{version_eq_laws, version_eq_equivalence, version_partial_order, version_cmp_total, version_cmp_agrees, version_cmp_matches_eq};
ghost use Rattle.kube_types.specs.Version.Shown.{parts};

use crate::versions::version::KubeSemver;
use std::cmp::Ordering;

/// Reports whether the part has nothing but digits.
fn is_numeric(part: &str) -> bool
    ensures { result ≡ is_numeric part.now }
{
    part.as_bytes().iter().all(|byte| byte.is_ascii_digit())
}

/// A part of a pre-release as a key whose order is that of the parts: first
/// come numbers, those of fewer digits before others, and then other texts.
fn pre_key(part: &str) -> (usize, usize, &str)
    ensures class { result.0 ≡ part_class part.now }
    ensures digits { result.1 ≡ numeric_len part.now }
    ensures text { result.2.now ≡ part.now }
{
    if is_numeric(part) {
        (0, part.len(), part)
    } else {
        (1, 0, part)
    }
}

/// A part of build metadata as a key whose order is that of the parts: numbers
/// are ordered by their value, and equal ones by their leading zeros.
#[tactic(auto, using(crate::proofs::Version::Texts::trimmed_zeros))]
fn build_key(part: &str) -> (usize, usize, &str, usize)
    ensures class { result.0 ≡ part_class part.now }
    ensures digits { result.1 ≡ value_len part.now }
    ensures text { result.2.now ≡ without_zeros part.now }
    ensures zeros { result.3 ≡ numeric_len part.now }
{
    if is_numeric(part) {
        let number = part.trim_start_matches('0');
        (0, number.len(), number, part.len())
    } else {
        (1, 0, part, 0)
    }
}

/// 1 for a version without a pre-release, which comes last, and 0 for one with it.
fn pre_rank(pre: &str) -> u8
    ensures { result ≡ pre_rank pre.now }
{
    if pre.is_empty() { 1 } else { 0 }
}

/// Compares two pre-releases part by part.
fn compare_pre_parts(left: &str, right: &str) -> Ordering
    ensures { result ≡ slice_cmp pre_part_cmp (parts_between_dots left.now) (parts_between_dots right.now) }
{
    let left = left.split('.').map(pre_key);
    left.cmp(right.split('.').map(pre_key))
}

/// Compares two pre-releases: a missing one comes last.
fn compare_pre(left: &str, right: &str) -> Ordering
    ensures { result ≡ pre_cmp left.now right.now }
{
    pre_rank(left)
        .cmp(&pre_rank(right))
        .then(compare_pre_parts(left, right))
}

/// Compares two texts of build metadata part by part.
fn compare_build(left: &str, right: &str) -> Ordering
    ensures { result ≡ build_cmp left.now right.now }
{
    let left = left.split('.').map(build_key);
    left.cmp(right.split('.').map(build_key))
}

/// Two versions are equal if their numbers, pre-releases and build metadata are.
impl PartialEq for KubeSemver {
    ghost eq = { λ a b. same_parts (parts a) (parts b) };

    ghost laws = { version_eq_laws };

    fn eq(&self, other: &KubeSemver) -> bool {
        self.major == other.major
            && self.minor == other.minor
            && self.patch == other.patch
            && self.pre == other.pre
            && self.build == other.build
    }
}

impl Eq for KubeSemver {
    ghost laws = { version_eq_equivalence };
}

/// Versions are ordered by precedence, and versions of the same precedence by their build metadata.
impl Ord for KubeSemver {
    ghost cmp = { on parts parts_cmp };

    ghost total = { version_cmp_total };

    ghost matches_partial_cmp = { version_cmp_agrees };

    ghost matches_eq = { version_cmp_matches_eq };

    fn cmp(&self, other: &KubeSemver) -> Ordering {
        self.major
            .cmp(&other.major)
            .then(self.minor.cmp(&other.minor))
            .then(self.patch.cmp(&other.patch))
            .then(compare_pre(self.pre.as_str(), other.pre.as_str()))
            .then(compare_build(self.build.as_str(), other.build.as_str()))
    }
}

impl PartialOrd for KubeSemver {
    ghost partial_cmp = { as_partial_cmp (on parts parts_cmp) };

    ghost laws = { version_partial_order };

    fn partial_cmp(&self, other: &KubeSemver) -> Option<Ordering> {
        Some(self.cmp(other))
    }
}
