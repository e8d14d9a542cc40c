//! Values: what calls and replies carry.

ghost use Rattle.std.specs.Prelude.{◌≡◌, ◌<◌, IsTrue, IfOk, OnErr};
ghost use Rattle.nob_pickle.specs.Shape.{forest, has_inside};
ghost use Rattle.nob_pickle.specs.Trees.{count};

use nob_bytes::Bytes;
use nob_ids::WireRep;
use std::alloc::AllocError;
use std::marker::Model;

/// A value. Contracts see the elements of a list as trees.
#[cycle(value)]
#[derive(Debug, Drop)]
pub enum Value {
    /// Nothing.
    Unit,
    /// A whole number.
    Int(i64),
    /// Bytes.
    Bytes(Bytes),
    /// Values, in order.
    List(Values),
    /// A reference to an object.
    Ref(WireRep),
}

impl Value {
    /// An equal value. Only memory fails it, and a value with nothing in it takes none: no bytes
    /// and no elements. It recurses once for each level of the value.
    #[cycle(copy)]
    pub fn copy(&self) -> Result<Value, AllocError>
        ensures same { IfOk result (λ value. value ≡ self.now) }
        ensures memory { OnErr result (IsTrue (has_inside self.now)) }
    {
        match self {
            Value::Unit => Ok(Value::Unit),
            Value::Int(number) => Ok(Value::Int(*number)),
            Value::Bytes(bytes) => Ok(Value::Bytes(bytes.copy()?)),
            Value::List(values) => Ok(Value::List(values.copy()?)),
            Value::Ref(rep) => Ok(Value::Ref(*rep)),
        }
    }
}

/// The values in a list. Contracts see them as trees, one after another.
#[cycle(value)]
#[derive(Debug, Drop)]
pub struct Values {
    values: Vec<Value>,
}

impl Model for Values {
    ghost use Rattle.nob_pickle.specs.Trees.{Trees, weight_all};
    ghost use Rattle.nob_pickle.specs.Marks.{trees_code};

    ghost Value = { Trees };

    ghost coded = { trees_code };

    ghost use Rattle.nob_pickle.specs.Shape.{forest};

    ghost view = { λ a. forest a.values.items };

    ghost size = { weight_all };

    ghost use Rattle.nob_pickle.specs.Falls.{deep_le};

    ghost size_decreases = { λ a h. deep_le a.values.items };
}

impl Values {
    /// These values. It takes no memory.
    pub fn from_vec(values: Vec<Value>) -> Values
        ensures { result ≡ forest values.items }
    {
        Values { values }
    }

    /// The values as a vector. It takes no memory.
    pub fn into_vec(self) -> Vec<Value>
        ensures { forest result.items ≡ self }
    {
        let Values { values } = self;
        values
    }

    /// The values.
    pub fn as_slice(&self) -> &[Value]
        ensures { forest result.now ≡ self.now }
    {
        self.values.as_slice()
    }

    /// Equal values. Only memory fails it, and no values take none. It recurses once for each level
    /// of the values.
    #[cycle(copy)]
    #[tactic(auto, using(crate::proofs::Forests::count_forest))]
    pub fn copy(&self) -> Result<Values, AllocError>
        ensures same { IfOk result (λ values. values ≡ self.now) }
        ensures memory { OnErr result (0 < count self.now) }
    {
        if self.values.is_empty() {
            return Ok(Values {
                values: Vec::new(*self.values.allocator()),
            });
        }
        let mut copies = Vec::with_capacity(*self.values.allocator(), self.values.len())?;
        for value in &self.values {
            copies.push(value.copy()?)?;
        }
        Ok(Values { values: copies })
    }
}
