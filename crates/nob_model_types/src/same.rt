//! Whether two values are the same.

ghost use Rattle.std.specs.Prelude.{◌≡◌};
ghost use Rattle.nob_item.specs.Shape.{forest};
ghost use Rattle.nob_model_types.specs.Same.{same_value as is_same_value, same_trees};

use nob_item::Value;

/// Whether two values are the same. It recurses once for each level of them.
#[cycle(same)]
pub fn same_value(value: &Value, other: &Value) -> bool
    ensures { result ≡ is_same_value value.now other.now }
{
    match value {
        Value::Unit => match other {
            Value::Unit => true,
            _ => false,
        },
        Value::Int(number) => match other {
            Value::Int(twin) => *number == *twin,
            _ => false,
        },
        Value::Bytes(bytes) => match other {
            Value::Bytes(twin) => bytes.as_slice() == twin.as_slice(),
            _ => false,
        },
        Value::List(values) => match other {
            Value::List(twins) => same_values(values.as_slice(), twins.as_slice()),
            _ => false,
        },
        Value::Ref(rep) => match other {
            Value::Ref(twin) => *rep == *twin,
            _ => false,
        },
    }
}

// Whether values one after another are the same.
#[cycle(same)]
fn same_values(values: &[Value], others: &[Value]) -> bool
    ensures { result ≡ same_trees (forest values.now) (forest others.now) }
{
    match values {
        [] => match others {
            [] => true,
            [_, ..] => false,
        },
        [value, after @ ..] => match others {
            [] => false,
            [other, rest @ ..] => {
                if !same_value(value, other) {
                    return false;
                }
                same_values(after, rest)
            }
        },
    }
}
