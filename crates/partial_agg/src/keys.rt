//! The keys of a group. A single key takes no memory.
ghost use Rattle.std.specs.Prelude.{◌≡◌, [], ◌∷◌, length, IfOk};

use std::alloc::AllocError;
use std::marker::Model;
use ts_schema::{NoMemory, Seq};

/// The values of the columns that rows are grouped by, where NULL is `None`. Contracts see them as a plain
/// list. A single key takes no memory beside the list itself.
#[derive(Drop, Debug)]
pub struct Keys {
    held: KeyStorage,
}

#[derive(Drop, Debug)]
enum KeyStorage {
    One(Option<i64>),
    Many(Seq<Option<i64>>),
}

impl Model for Keys {
    ghost use Rattle.std.specs.Prelude.{List, Option, ℤ};

    ghost Value = { List (Option ℤ) };

    ghost use Rattle.partial_agg.specs.KeyLists.{keys_held};

    ghost view = { λ k. keys_held k.held };
}

impl Keys {
    /// The list of this one key. It takes no memory.
    pub fn one(key: Option<i64>) -> Keys
        ensures items { result ≡ key ∷ [] }
    {
        Keys {
            held: KeyStorage::One(key),
        }
    }

    /// The list of these keys. It takes no memory, and frees that of a list of one key.
    pub fn of(keys: Seq<Option<i64>>) -> Keys
        ensures items { result ≡ keys }
    {
        match keys.items() {
            [key] => Keys::one(*key),
            _ => Keys {
                held: KeyStorage::Many(keys),
            },
        }
    }

    /// The number of keys.
    #[inline]
    pub fn len(&self) -> usize
        ensures len { result ≡ length self.now }
    {
        self.items().len()
    }

    /// The keys, in order.
    #[inline]
    pub fn items(&self) -> &[Option<i64>]
        ensures items { result.now ≡ self.now }
    {
        match &self.held {
            KeyStorage::One(key) => std::slice::from_ref(key),
            KeyStorage::Many(keys) => keys.items(),
        }
    }

    /// A copy of the keys.
    pub fn copy(&self) -> Result<Keys, NoMemory>
        ensures same { IfOk result (λ copy. copy ≡ self.now) }
    {
        Ok(match &self.held {
            KeyStorage::One(key) => Keys::one(*key),
            KeyStorage::Many(keys) => Keys {
                held: KeyStorage::Many(keys.copy()?),
            },
        })
    }
}

impl Clone for Keys {
    ghost use Rattle.std.specs.Prelude.{◌≡◌};

    ghost is_clone = { λ a b. a ≡ b };

    fn clone(&self) -> Result<Keys, AllocError> {
        match self.copy() {
            Ok(keys) => Ok(keys),
            Err(_) => Err(AllocError),
        }
    }
}

impl PartialEq for Keys {
    ghost use Rattle.std.specs.Ordering.{int_eq};
    ghost use Rattle.std.specs.Option.{option_eq};
    ghost use Rattle.std.specs.Cmp.Lexicographic.{pointwise};
    ghost use Rattle.std.proofs.Common.{rules};
    ghost use Rattle.std.specs.Cmp.Rules.{comparing};

    ghost eq = { pointwise (option_eq int_eq) };

    ghost laws = { Prim.search (comparing, rules) };

    fn eq(&self, other: &Keys) -> bool {
        self.items() == other.items()
    }
}

impl Eq for Keys {
    ghost use Rattle.std.proofs.Common.{rules};
    ghost use Rattle.std.specs.Cmp.Rules.{comparing};

    ghost laws = { Prim.search (comparing, rules) };
}
