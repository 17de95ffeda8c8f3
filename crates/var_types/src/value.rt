ghost use Rattle.std.specs.Prelude.{◌≡◌, IfOk};

use crate::path::Path;
use ksh_base::{Memory, Name, Text};
use std::alloc::Global;

/// What a row holds. The parts of a compound, of an array and of an instance of a type are rows
/// of their own, whose paths go on from the row's.
#[derive(Debug, Drop, PartialEq, Eq)]
pub enum Value {
    Unset,
    Plain(Text),
    Number(i64),
    Compound,
    Indexed,
    Assoc,
    Reference(Path),
    NoReference,
    Instance(Name),
}

impl Value {
    pub fn copy(&self, alloc: Global) -> Result<Value, Memory>
        ensures { IfOk result (λ v. v ≡ self.now) }
    {
        match self {
            Value::Unset => Ok(Value::Unset),
            Value::Plain(text) => Ok(Value::Plain(text.copy(alloc)?)),
            Value::Number(integer) => Ok(Value::Number(*integer)),
            Value::Compound => Ok(Value::Compound),
            Value::Indexed => Ok(Value::Indexed),
            Value::Assoc => Ok(Value::Assoc),
            Value::Reference(path) => Ok(Value::Reference(path.copy(alloc)?)),
            Value::NoReference => Ok(Value::NoReference),
            Value::Instance(name) => Ok(Value::Instance(name.copy(alloc)?)),
        }
    }
}
