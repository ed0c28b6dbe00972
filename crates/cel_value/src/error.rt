//! The errors of an execution.
use crate::key::Key;
use kube_types::Refused;

/// Why an expression has no value. The display text is fixed and says no more than this.
///
/// Two errors are equal if they are of the same variant and their parts are equal.
#[derive(Debug, Drop, PartialEq, Eq)]
pub enum ExecutionError {
    /// A name isn't declared.
    UndeclaredReference(String),
    /// A map has no such key.
    NoSuchKey(Key),
    /// An operator, a macro or a function doesn't take values of these kinds.
    NoSuchOverload(String),
    /// A function rejected its arguments.
    FunctionError { function: String, message: String },
    /// A number is out of range.
    Overflow,
    /// A division by zero.
    DivisionByZero,
    /// A remainder by zero.
    RemainderByZero,
    /// A list index is out of range.
    IndexOutOfBounds,
    /// A value can't be the key of a map.
    UnsupportedKey,
    /// A key occurs twice in a map.
    DuplicateKey,
    /// A function was given an invalid pattern.
    InvalidPattern(String),
}

impl ExecutionError {
    ghost use Rattle.std.specs.Prelude.{◌≡◌, IfErr, IfOk};
    ghost use Rattle.cel_value.specs.Faults.{fault_view};

    /// Returns a copy of the error.
    ///
    /// # Errors
    /// Only [`Refused::Memory`], if memory is refused.
    pub fn try_clone(&self) -> Result<ExecutionError, Refused>
        ensures same { IfOk result (λ e. fault_view e ≡ fault_view self.now) }
        ensures memory { IfErr result (λ e. e ≡ Refused.Memory) }
    {
        match self {
            ExecutionError::UndeclaredReference(name) => {
                Ok(ExecutionError::UndeclaredReference(name.clone()?))
            }
            ExecutionError::NoSuchKey(key) => Ok(ExecutionError::NoSuchKey(key.try_clone()?)),
            ExecutionError::NoSuchOverload(name) => {
                Ok(ExecutionError::NoSuchOverload(name.clone()?))
            }
            ExecutionError::FunctionError { function, message } => {
                Ok(ExecutionError::FunctionError {
                    function: function.clone()?,
                    message: message.clone()?,
                })
            }
            ExecutionError::Overflow => Ok(ExecutionError::Overflow),
            ExecutionError::DivisionByZero => Ok(ExecutionError::DivisionByZero),
            ExecutionError::RemainderByZero => Ok(ExecutionError::RemainderByZero),
            ExecutionError::IndexOutOfBounds => Ok(ExecutionError::IndexOutOfBounds),
            ExecutionError::UnsupportedKey => Ok(ExecutionError::UnsupportedKey),
            ExecutionError::DuplicateKey => Ok(ExecutionError::DuplicateKey),
            ExecutionError::InvalidPattern(function) => {
                Ok(ExecutionError::InvalidPattern(function.clone()?))
            }
        }
    }
}
