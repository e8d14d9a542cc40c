//! What is said.

use nob_pickle::Value;

/// What is said of a row.
#[derive(Clone, Copy, Debug, PartialEq, Eq)]
pub(crate) enum Said {
    /// Whether it is so.
    Is(bool),
    /// How many.
    Count(u64),
    /// A status with unit.
    Unit(u8),
    /// A status with a number.
    Number(u8, i64),
    /// A status with a reference to an object of a space.
    Object(u8, u16, u64),
    /// A status with another value.
    Other(u8),
    /// No reply came.
    Nothing,
}

impl Said {
    // What a status with a value says.
    pub(crate) fn of(status: u8, value: &Value) -> Said {
        match value {
            Value::Unit => Said::Unit(status),
            Value::Int(number) => Said::Number(status, *number),
            Value::Ref(rep) => Said::Object(status, rep.owner.get(), rep.index),
            _ => Said::Other(status),
        }
    }
}

/// A row of what is printed.
#[derive(Clone, Copy, Debug, PartialEq, Eq)]
pub(crate) struct Row {
    pub(crate) name: &'static str,
    pub(crate) said: Said,
}

// A row more. Where there is no memory for it, it is missing.
pub(crate) fn say(rows: &mut Vec<Row>, name: &'static str, said: Said) {
    let _ = rows.push(Row { name, said });
}
