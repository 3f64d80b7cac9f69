//! The values of names.
ghost use Rattle.std.specs.Prelude.{◌≡◌, ◌≤◌, ◌<◌, ℕ, IfOk, length, map};
ghost use Rattle.mz_named.specs.Bodies.{Binds};
ghost use Rattle.mz_named.specs.View.{plain_value, value_in, env_of};

use crate::config::Value;
use mz_tree::Memory;
use sqlite_items::Items;
use std::alloc::Global;

/// What the name stands for. It takes no memory.
pub fn value_of(values: &[Value], name: u32) -> Value
    ensures { result ≡ value_in values.now name }
{
    match values.get(name as usize) {
        Some(value) => *value,
        None => Value::Int(0),
    }
}

/// The same values, of so many names at least.
pub fn padded(alloc: Global, values: &[Value], count: usize) -> Result<Items<Value>, Memory>
    ensures long { IfOk result (λ it. count ≤ length it) }
    ensures same { IfOk result (λ it. (n : ℕ) → value_in it n ≡ value_in values.now n) }
{
    let mut padded = Items::from_slice(alloc, values)?;
    while padded.len() < count {
        padded.push(Value::Int(0))?;
    }
    Ok(padded)
}

/// The values of these names.
pub fn values_of(alloc: Global, values: &[Value], names: &[u32]) -> Result<Items<Value>, Memory>
    ensures { IfOk result (λ it. it ≡ map (value_in values.now) names.now) }
{
    let mut found = Items::new(alloc);
    for i in 0..names.len() {
        found.push(value_of(values, names[i]))?;
    }
    Ok(found)
}

/// The name gets the value.
pub fn bind(values: &mut Items<Value>, name: u32, value: Value)
    requires { name < length values.old }
    ensures { Binds (env_of values.old) name (plain_value value) (env_of values.new) }
{
    values.set(name as usize, value);
}

/// The values after the name got the value.
pub fn bound(
    alloc: Global,
    values: &[Value],
    name: u32,
    value: Value,
) -> Result<Items<Value>, Memory>
    ensures { IfOk result (λ it. Binds (env_of values.now) name (plain_value value) (env_of it)) }
{
    let mut bound = padded(alloc, values, name as usize + 1)?;
    bind(&mut bound, name, value);
    Ok(bound)
}
