//! The functions that a Kubernetes rule may call.
//! `docs/APISERVER.md` lists them, and says what is missing.
//!
//! A [`Context`] begins with the functions of the CEL standard.
//! [`KubeCelExt`] adds those of Kubernetes: on strings, patterns, lists,
//! sets, numbers, quantities, addresses, versions, URLs and named formats.
//!
//! ```rust
//! use cel::{Answer, Program, Refused};
//! use kube_functions::{Context, KubeCelExt};
//! use std::alloc::Global;
//!
//! /// Evaluates an expression with all functions. Returns `None` if it can't be parsed.
//! fn evaluated(alloc: Global, text: &str) -> Result<Option<Answer>, Refused> {
//!     let Ok(program) = Program::compile(alloc, text)? else {
//!         return Ok(None);
//!     };
//!     let context: Context<'_> = Context::default(alloc).with_all();
//!     Ok(Some(program.execute(alloc, &context)?))
//! }
//! ```
//!
//! Proved: how each name may be called, and that each call returns what its definition
//! says (`specs/Kube.antt` and the definitions that it cites). Laws: a call that the
//! standard knows is known to the set of all functions, too, with the same answer
//! unless it is `string` of an IP address or a CIDR; the parser takes exactly the
//! dotted names of Kubernetes' functions, such as `math.abs`, as one name.
#![tactic(auto)]

mod calls;
mod context;
mod functions;
pub mod laws;
mod libraries;
mod operands;
mod overloads;
mod sets;
mod table;

pub use cel_value::Refused;
pub use context::{Context, KubeCelExt};
pub use kube_functions_format::{laws as format_laws, printed};
pub use kube_functions_lists::laws as list_laws;
pub use kube_functions_strings::laws as string_laws;
pub use sets::{AllFunctions, KubeFunctions};
