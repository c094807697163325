//! Each public call once, over keys that are a struct.

use crate::{EntryTest, MapKey, contains, first_key, get, get_copy, insert, len, remove, replace};
use std::collections::BTreeMap;
use std::test::Fail;

/// A key that is a struct.
#[derive(Clone, Copy, Debug, PartialEq, Eq, PartialOrd, Ord)]
struct Height {
    number: u32,
}

impl MapKey for Height {
    ghost use Rattle.std.proofs.Common.{ap};
    ghost use Rattle.std.specs.FinMap.{nat_cmp-IsAntisymmetric};

    ghost exact = { λ a b h. ap (λ n. record { number = n }) (nat_cmp-IsAntisymmetric a.number b.number h) };
}

/// Whether a value is at least a number.
struct AtLeast {
    least: u64,
}

impl<K> EntryTest<K, u64> for AtLeast {
    ghost use Rattle.std.specs.Prelude.{nat_le};

    ghost passes = { λ t k v. nat_le t.least v };

    fn passes(&self, _key: &K, value: &u64) -> bool {
        self.least <= *value
    }
}

#[test]
fn a_struct_is_a_key(rt: HostRuntime) -> Result<(), Fail> {
    let mut table = BTreeMap::new(rt.alloc());
    let (low, high) = (Height { number: 1 }, Height { number: 2 });
    insert(&mut table, high, 30)?;
    insert(&mut table, low, 10)?;
    assert_eq!(rt; (len(&table), contains(&table, low)), (2, true));
    assert_eq!(rt;
        (get_copy(&table, low), get(&table, high).copied()),
        (Some(10), Some(30))
    );
    assert!(rt; first_key(&table, &AtLeast { least: 11 }) == Some(high));
    if contains(&table, low) {
        assert_eq!(rt; replace(&mut table, low, 11), 10);
    }
    assert_eq!(rt;
        (remove(&mut table, low), get_copy(&table, low)),
        (Some(11), None)
    );
    Ok(())
}
