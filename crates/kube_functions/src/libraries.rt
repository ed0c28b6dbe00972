//! The functions that Kubernetes adds and the answers to their calls, one file for each library.

pub(crate) mod encoders;
pub(crate) mod format;
pub(crate) mod lists;
pub(crate) mod math;
pub(crate) mod net;
pub(crate) mod quantity;
pub(crate) mod regex;
pub(crate) mod semver;
pub(crate) mod sets;
pub(crate) mod strings;
pub(crate) mod url;
