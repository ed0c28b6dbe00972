//! Laws of the set of functions. Each is the contract of a function with an empty body.
ghost use Rattle.std.specs.Prelude.{◌≡◌, ℕ, Bool, List};
ghost use Rattle.cel_semantics.specs.declared.functions.Form.TheVariants.{Known};
ghost use Rattle.kube_functions.specs.Kube.{all_library};
ghost use Rattle.kube_server_functions.specs.Server.{server_library};

/// Every call that `AllFunctions` knows is known to the set of an API server's functions.
pub fn known_calls_stay_known()
    ensures { (name : List ℕ) (receiver : Bool) (count : ℕ)
        → all_library.form_of name receiver count ≡ Known
        → server_library.form_of name receiver count ≡ Known }
{}
