//! The values of run-time parameters.

ghost use Rattle.std.specs.Prelude.{◌≡◌, [], ℕ, List, bytes_eq, cond, OnErr, OnOk, option_copied};
ghost use Rattle.std.specs.Prelude.{Some};
ghost use Rattle.pg_client.specs.View.{value_of};

use pg_wire::Seq;
use std::alloc::{AllocError, Global};
use std::collections::BTreeMap;
use std::marker::Model;

/// The last value of each parameter, by its name.
#[derive(Drop)]
pub struct Parameters {
    values: BTreeMap<Vec<u8>, Seq<u8>>,
}

impl Model for Parameters {
    ghost use Rattle.std.specs.Prelude.{ℕ, List, map};

    ghost Value = { List (List ℕ × List ℕ) };

    ghost view = { λ p. map (λ e. (e.0.items, e.1)) p.values.entries };
}

impl Parameters {
    /// No parameter has a value.
    pub fn new(alloc: Global) -> Self
        ensures { result ≡ [] }
    {
        Parameters {
            values: BTreeMap::new(alloc),
        }
    }

    /// The value of a parameter, if it has one.
    pub fn get(&self, name: &[u8]) -> Option<&Seq<u8>>
        ensures { option_copied result ≡ value_of name.now self.now }
    {
        self.values.get(name)
    }

    /// Gives a parameter this value. Where memory runs out, all are as they were.
    pub fn set(&mut self, name: Vec<u8>, value: Seq<u8>) -> Result<(), AllocError>
        ensures ok { OnOk result ((n : List ℕ)
            → value_of n self.new
            ≡ cond (bytes_eq name.items n) (Some value) (value_of n self.old)) }
        ensures err { OnErr result (self.new ≡ self.old) }
    {
        self.values.insert(name, value)?;
        Ok(())
    }
}
