//! The functions that `kube_functions` has, and an API server hasn't.
ghost use Rattle.std.specs.Prelude.{◌≡◌, false};
ghost use Rattle.kube_server_functions.specs.Unsupported as spec;

fn is_global(name: &str) -> bool
    ensures { result ≡ spec.is_unsupported name.now false }
{
    matches!(
        name,
        "min"
            | "max"
            | "isIPv4"
            | "isIPv6"
            | "isCIDRv4"
            | "isCIDRv6"
            | "math.abs"
            | "math.sign"
            | "math.greatest"
            | "math.least"
            | "math.bitAnd"
            | "math.bitOr"
            | "math.bitXor"
            | "math.bitNot"
            | "math.bitShiftLeft"
            | "math.bitShiftRight"
            | "base64.encode"
            | "base64.decode"
            | "jsonpatch.escapeKey"
    )
}

/// Reports whether an API server of Kubernetes 1.33 doesn't have a function of this name, called on
/// a receiver or without one as `receiver` says, although `kube_functions` has it.
pub fn is_unsupported(name: &str, receiver: bool) -> bool
    ensures { result ≡ spec.is_unsupported name.now receiver }
{
    if receiver {
        name == "string"
    } else {
        is_global(name)
    }
}
