//! Keys of facts: facts that clash have the same key, so the others need not be compared.
ghost use Rattle.std.specs.Prelude.{◌≡◌, map, IfOk};
ghost use Rattle.linear_prover.specs.Clashes.{key_of, fact_key, is_same_key};

use obligations::Fact;
use std::alloc::{AllocError, Global};
use unity_base::Seq;

/// The variables of a fact's first two factors. A lone factor's variable stands for both.
#[derive(Clone, Copy)]
pub struct Key {
    pub first: u32,
    pub second: u32,
}

/// The key of factors.
pub fn key_of(factors: &[(u32, i128)]) -> Key
    ensures { result ≡ key_of factors.now }
{
    match factors {
        [] => Key {
            first: 0,
            second: 0,
        },
        [f] => Key {
            first: f.0,
            second: f.0,
        },
        [f, g, ..] => Key {
            first: f.0,
            second: g.0,
        },
    }
}

/// Whether two keys are the same.
pub fn is_same_key(one: Key, other: Key) -> bool
    ensures { result ≡ is_same_key one other }
{
    one.first == other.first && one.second == other.second
}

/// The key of each fact.
pub fn keys_of(alloc: Global, facts: &[Fact]) -> Result<Seq<Key>, AllocError>
    ensures { IfOk result (λ keys. keys ≡ map fact_key facts.now) }
{
    let mut keys = Seq::new(alloc);
    for fact in facts {
        keys.push(key_of(fact.factors.as_slice()))?;
    }
    Ok(keys)
}
