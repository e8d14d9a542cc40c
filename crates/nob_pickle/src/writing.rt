//! Values to bytes.

ghost use Rattle.std.specs.Prelude.{◌≡◌, ◌++◌, ◌<◌, ◌≤◌, ◌∷◌, ◌^◌, Ok, IsTrue, IfOk, IfErr, OnOk, length};
ghost use Rattle.byteorder.specs.Endian.{big_bytes};
ghost use Rattle.nob_pickle.specs.Shape.{tree, forest};
ghost use Rattle.nob_pickle.specs.Trees.{int, bytes, list, ref};
ghost use Rattle.nob_pickle.specs.Spelling.{spelling, spelled, spelled_all};
ghost use Rattle.nob_pickle.specs.Limits.{Fits, Spelt, has_short_bytes, have_short_bytes, has_short_lists, have_short_lists};
ghost use Rattle.nob_pickle.specs.Writing.{Gives, pickle_of};
ghost use Rattle.nob_pickle.specs.declared.fault.PickleError.TheVariants.{OutOfMemory};

use crate::fault::PickleError;
use crate::judging::pickle_len;
use crate::value::Value;
use byteorder::{BigEndian, ByteOrder};
use nob_ids::WireRep;
use std::alloc::{AllocError, Global};

/// The one spelling of the value, or why it has none, as `fits` says. Want of memory comes after
/// each of its faults. It takes time linear in what it has to look at, at most about 16,000 values.
pub fn encode(alloc: Global, value: &Value) -> Result<Vec<u8>, PickleError>
    ensures found { IfOk result (λ pickle. Spelt pickle.items value.now) }
    ensures short { IfOk result (λ pickle. length pickle.items ≤ 16000) }
    ensures only { Fits value.now → Gives (λ pickle. pickle.items) result
        (Ok (spelling value.now)) }
    ensures exact { Gives (λ pickle. pickle.items) result (pickle_of value.now) }
    // Memory can run out for a value that has a pickle alone.
    ensures memory { IfErr result (λ e. e ≡ OutOfMemory → Fits value.now) }
{
    match pickle_len(value) {
        Ok(len) => Ok(pickle_of_len(alloc, value, len)?),
        Err(fault) => Err(PickleError::Fault(fault)),
    }
}

/// The spelling of a value that has one, of so many bytes. Only memory fails it.
fn pickle_of_len(alloc: Global, value: &Value, len: usize) -> Result<Vec<u8>, AllocError>
    requires { Fits value.now }
    ensures { IfOk result (λ pickle. pickle.items ≡ spelling value.now) }
{
    let mut pickle = Vec::with_capacity(alloc, len)?;
    put_value(&mut pickle, value)?;
    Ok(pickle)
}

/// Puts a value behind the bytes, whose bytes and lists are short.
#[cycle(writing)]
fn put_value(pickle: &mut Vec<u8>, value: &Value) -> Result<(), AllocError>
    requires bytes { IsTrue (has_short_bytes (tree value.now)) }
    requires lists { IsTrue (has_short_lists (tree value.now)) }
    ensures { OnOk result (pickle.new.items ≡ pickle.old.items ++ spelling value.now) }
{
    match value {
        Value::Unit => Ok(pickle.push(0)?),
        Value::Int(number) => put_int(pickle, *number),
        Value::Bytes(bytes) => put_bytes(pickle, bytes.as_slice()),
        Value::List(values) => put_list(pickle, values.as_slice()),
        Value::Ref(rep) => put_reference(pickle, *rep),
    }
}

/// The same for a list: its first byte, its count and its elements.
#[cycle(writing)]
#[tactic(auto, using(crate::proofs::Forests::count_forest, crate::proofs::Written::written_list))]
fn put_list(pickle: &mut Vec<u8>, values: &[Value]) -> Result<(), AllocError>
    requires bytes { IsTrue (have_short_bytes (forest values.now)) }
    requires lists { IsTrue (has_short_lists (list (forest values.now))) }
    ensures { OnOk result (pickle.new.items
        ≡ pickle.old.items ++ spelled (list (forest values.now))) }
{
    put_count(pickle, values.len() as u16)?;
    put_values(pickle, values)
}

/// The same for values, one after another.
#[cycle(writing)]
fn put_values(pickle: &mut Vec<u8>, values: &[Value]) -> Result<(), AllocError>
    requires bytes { IsTrue (have_short_bytes (forest values.now)) }
    requires lists { IsTrue (have_short_lists (forest values.now)) }
    ensures { OnOk result (pickle.new.items ≡ pickle.old.items ++ spelled_all (forest values.now)) }
{
    for value in values {
        put_value(pickle, value)?;
    }
    Ok(())
}

/// Puts a whole number behind the bytes.
fn put_int(pickle: &mut Vec<u8>, number: i64) -> Result<(), AllocError>
    ensures { OnOk result (pickle.new.items ≡ pickle.old.items ++ spelled (int number)) }
{
    let mut bytes = [1; 9];
    BigEndian::write_i64(&mut bytes[1..], number);
    pickle.extend_from_slice(&bytes)?;
    Ok(())
}

/// Puts the bytes of a value, of which there are not too many, behind the bytes.
fn put_bytes(pickle: &mut Vec<u8>, items: &[u8]) -> Result<(), AllocError>
    requires { length items.now < 2 ^ 32 }
    ensures { OnOk result (pickle.new.items ≡ pickle.old.items ++ spelled (bytes items.now)) }
{
    let mut head = [2; 5];
    BigEndian::write_u32(&mut head[1..], items.len() as u32);
    pickle.extend_from_slice(&head)?;
    pickle.extend_from_slice(items)?;
    Ok(())
}

/// Puts the first byte and the count of a list behind the bytes.
fn put_count(pickle: &mut Vec<u8>, count: u16) -> Result<(), AllocError>
    ensures { OnOk result (pickle.new.items ≡ pickle.old.items ++ 3 ∷ big_bytes 2 count) }
{
    let mut head = [3; 3];
    BigEndian::write_u16(&mut head[1..], count);
    pickle.extend_from_slice(&head)?;
    Ok(())
}

/// Puts a reference behind the bytes.
fn put_reference(pickle: &mut Vec<u8>, rep: WireRep) -> Result<(), AllocError>
    ensures { OnOk result (pickle.new.items ≡ pickle.old.items ++ spelled (ref rep)) }
{
    let mut head = [4; 3];
    BigEndian::write_u16(&mut head[1..], rep.owner.get());
    let mut tail = [0; 8];
    BigEndian::write_u64(&mut tail, rep.index);
    pickle.extend_from_slice(&head)?;
    pickle.extend_from_slice(&tail)?;
    Ok(())
}
