//! Identifiers of objects.
ghost use Rattle.std.specs.Prelude.{◌≡◌, ◌<◌, ◌≤◌, IfOk, IfErr};

use crate::{MAX_ID, OutOfRange};
use std::marker::Model;

/// An identifier, from 0 to 2^40 - 1.
#[derive(Clone, Copy, Debug, PartialEq, Eq, PartialOrd, Ord)]
pub struct Id {
    value: u64,
}

impl Model for Id {
    ghost use Rattle.std.specs.Prelude.{ℕ, ◌≤◌};
    ghost use Rattle.mi_base.specs.declared.limits.TheConstants.{MAX_ID};

    ghost Value = { ℕ };

    ghost view = { λ a. a.value };

    ghost invariant = { λ a. a.value ≤ MAX_ID };

    ghost inverse = { λ n. record { value = n } };
}

impl Id {
    /// The identifier of this number.
    pub fn new(value: u64) -> Result<Id, OutOfRange>
        ensures ok { IfOk result (λ id. (id ≡ value) × (value ≤ MAX_ID)) }
        ensures err { IfErr result (λ refusal. (refusal.value ≡ value) × (MAX_ID < value)) }
    {
        if value <= MAX_ID {
            Ok(Id { value })
        } else {
            Err(OutOfRange { value })
        }
    }

    /// The number.
    pub fn get(&self) -> u64
        ensures same { result ≡ self.now }
        ensures small { result ≤ MAX_ID }
    {
        self.value
    }
}
