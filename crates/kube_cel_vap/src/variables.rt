//! The variables of a policy's expressions.
use crate::request::AdmissionRequest;
use serde_json::Value;

/// The variables that were set.
#[derive(Debug)]
pub(crate) struct Given {
    pub(crate) object: Option<Value>,
    pub(crate) old_object: Option<Value>,
    pub(crate) params: Option<Value>,
    pub(crate) namespace_object: Option<Value>,
    pub(crate) request: Option<AdmissionRequest>,
}

// By hand, so that a proof about code that owns one doesn't go through its parts.
impl Drop for Given {
    fn drop(self) {
        let Given {
            object: _,
            old_object: _,
            params: _,
            namespace_object: _,
            request: _,
        } = self;
    }
}
