//! References and values to texts.

ghost use Rattle.std.specs.Prelude.{◌≡◌, ◌++◌, ◌∷◌, IfOk, OnOk};
ghost use Rattle.std.specs.String.{string_bytes};
ghost use Rattle.nob_pickle.specs.Shape.{tree, forest};
ghost use Rattle.nob_pickle.specs.Trees.{int, bytes, list, ref};
ghost use Rattle.nob_model_text.specs.Values as spec;

use nob_ids::WireRep;
use nob_pickle::Value;
use std::alloc::{AllocError, Global};

/// The text of a reference. Only memory fails it.
pub fn rep_text(alloc: Global, rep: WireRep) -> Result<String, AllocError>
    ensures { IfOk result (λ text. string_bytes text ≡ spec.rep_text rep) }
{
    let owner = rep.owner;
    let index = rep.index;
    format!(in alloc; "{owner}.{index}")
}

/// The text of a value. Only memory fails it. It recurses once for each level of the value.
pub fn value_text(alloc: Global, value: &Value) -> Result<String, AllocError>
    ensures { IfOk result (λ text. string_bytes text ≡ spec.value_text value.now) }
{
    let mut text = String::new(alloc);
    put_value(alloc, &mut text, value)?;
    Ok(text)
}

// Puts a value behind a text.
#[cycle(writing)]
fn put_value(alloc: Global, text: &mut String, value: &Value) -> Result<(), AllocError>
    ensures { OnOk result (string_bytes text.new
        ≡ string_bytes text.old ++ spec.value_text value.now) }
{
    match value {
        Value::Unit => text.push_str("u"),
        Value::Int(number) => put_int(alloc, text, *number),
        Value::Bytes(bytes) => put_bytes(alloc, text, bytes.as_slice()),
        Value::List(values) => put_list(alloc, text, values.as_slice()),
        Value::Ref(rep) => put_rep(alloc, text, *rep),
    }
}

// Puts a list behind a text.
#[cycle(writing)]
fn put_list(alloc: Global, text: &mut String, values: &[Value]) -> Result<(), AllocError>
    ensures { OnOk result (string_bytes text.new
        ≡ string_bytes text.old ++ spec.tree_text (list (forest values.now))) }
{
    let Some((first, others)) = values.split_first() else {
        return text.push_str("[]");
    };
    text.push_str("[")?;
    put_value(alloc, text, first)?;
    put_behind(alloc, text, others)
}

// Puts the elements behind another one and the end of their list behind a text.
#[cycle(writing)]
fn put_behind(alloc: Global, text: &mut String, values: &[Value]) -> Result<(), AllocError>
    ensures { OnOk result (string_bytes text.new
        ≡ string_bytes text.old ++ spec.behind_text (forest values.now)) }
{
    for value in values {
        text.push_str(",")?;
        put_value(alloc, text, value)?;
    }
    text.push_str("]")
}

// Puts a number behind a text.
fn put_int(alloc: Global, text: &mut String, number: i64) -> Result<(), AllocError>
    ensures { OnOk result (string_bytes text.new
        ≡ string_bytes text.old ++ spec.tree_text (int number)) }
{
    let spelling = format!(in alloc; "i{number}")?;
    text.push_str(spelling.as_str())
}

// Puts bytes behind a text.
fn put_bytes(alloc: Global, text: &mut String, items: &[u8]) -> Result<(), AllocError>
    ensures { OnOk result (string_bytes text.new
        ≡ string_bytes text.old ++ spec.tree_text (bytes items.now)) }
{
    let digits = hex::encode(alloc, items)?;
    let spelling = format!(in alloc; "b{digits}")?;
    text.push_str(spelling.as_str())
}

// Puts a reference behind a text.
fn put_rep(alloc: Global, text: &mut String, rep: WireRep) -> Result<(), AllocError>
    ensures { OnOk result (string_bytes text.new
        ≡ string_bytes text.old ++ spec.tree_text (ref rep)) }
{
    let owner = rep.owner;
    let index = rep.index;
    let spelling = format!(in alloc; "r{owner}.{index}")?;
    text.push_str(spelling.as_str())
}
