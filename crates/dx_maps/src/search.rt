ghost use Rattle.std.specs.Prelude.{◌≡◌};
ghost use Rattle.dx_maps.specs.Tables.{map_of, first_passing};

use crate::key::MapKey;
use std::collections::BTreeMap;

/// A test that the entries of a table pass or fail, each by its key and its value.
pub trait EntryTest<K, V> {
    ghost use Rattle.std.specs.Prelude.{Bool};

    /// Whether an entry passes.
    ghost passes: { Self → K → V → Bool };

    /// Whether an entry passes.
    fn passes(&self, key: &K, value: &V) -> bool
        ensures { result ≡ passes self.now key.now value.now };
}

/// The least key whose entry passes a test, if there is one. Takes no memory.
pub fn first_key<K: MapKey, V, T: EntryTest<K, V>>(table: &BTreeMap<K, V>, test: &T) -> Option<K>
    ensures { result ≡ first_passing (T.passes test.now) (map_of K.cmp table.now) }
{
    for (key, value) in table.iter() {
        if test.passes(key, value) {
            return Some(*key);
        }
    }
    None
}
