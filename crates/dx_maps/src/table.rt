ghost use Rattle.std.specs.Prelude.{◌≡◌, ◌<◌, ◌^◌, IsSome, IsOk, OnOk, OnErr, is_some, option_copied};
ghost use Rattle.std.specs.FinMap as map;
ghost use Rattle.dx_maps.specs.Tables.{map_of};

use crate::key::MapKey;
use std::alloc::AllocError;
use std::collections::BTreeMap;

/// The value of a key, lent.
pub fn get<K: MapKey, V>(table: &BTreeMap<K, V>, key: K) -> Option<&V>
    ensures { option_copied result ≡ map.get (map_of K.cmp table.now) key }
{
    table.get(&key)
}

/// The value of a key, copied.
pub fn get_copy<K: MapKey, V: Copy>(table: &BTreeMap<K, V>, key: K) -> Option<V>
    ensures { result ≡ map.get (map_of K.cmp table.now) key }
{
    table.get(&key).copied()
}

/// Whether a key has a value.
pub fn contains<K: MapKey, V>(table: &BTreeMap<K, V>, key: K) -> bool
    ensures { result ≡ is_some (map.get (map_of K.cmp table.now) key) }
{
    table.contains_key(&key)
}

/// How many keys have a value.
pub fn len<K: MapKey, V>(table: &BTreeMap<K, V>) -> usize
    ensures count { result ≡ map.len (map_of K.cmp table.now) }
    ensures small { result < 2 ^ 63 }
{
    table.len()
}

/// Sets the value of a key. A key that has a value takes no memory, and is never refused.
///
/// Answers `AllocError` where the key is new and there is no memory for it; the table is then as
/// before.
pub fn insert<K: MapKey, V: Drop>(
    table: &mut BTreeMap<K, V>,
    key: K,
    value: V,
) -> Result<(), AllocError>
    ensures ok { OnOk result (map_of K.cmp table.new ≡ map.insert (map_of K.cmp table.old) key value) }
    ensures err { OnErr result (map_of K.cmp table.new ≡ map_of K.cmp table.old) }
    ensures had { IsSome (map.get (map_of K.cmp table.old) key) → IsOk result }
{
    match table.insert(key, value) {
        Ok(_) => Ok(()),
        Err(_) => Err(AllocError),
    }
}

/// Sets the value of a key that has one, and answers the one before. Takes no memory.
pub fn replace<K: MapKey, V: Drop>(table: &mut BTreeMap<K, V>, key: K, value: V) -> V
    requires { IsSome (map.get (map_of K.cmp table.old) key) }
    ensures had { map.get (map_of K.cmp table.old) key ≡ Some result }
    ensures set { map_of K.cmp table.new ≡ map.insert (map_of K.cmp table.old) key value }
{
    match table.insert(key, value) {
        Ok(Some(had)) => had,
        Ok(None) => unreachable!(),
        Err(_) => unreachable!(),
    }
}

/// Takes a key out of the table, and answers the value that it had. Takes no memory.
pub fn remove<K: MapKey, V: Drop>(table: &mut BTreeMap<K, V>, key: K) -> Option<V>
    ensures had { result ≡ map.get (map_of K.cmp table.old) key }
    ensures removed { map_of K.cmp table.new ≡ map.remove (map_of K.cmp table.old) key }
{
    table.remove(&key)
}
