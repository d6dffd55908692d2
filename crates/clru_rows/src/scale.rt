//! A scale that counts how often it is asked.

use crate::pairs::Value;
use crate::world::{World, add};
use clru::WeightScale;

/// A value weighs what it says.
#[derive(Clone, Copy)]
pub struct Scale {
    pub world: &'static World,
}

impl<K> WeightScale<K, Value> for Scale {
    ghost weight = { λ _ _ value. value };

    fn weight(&self, _key: &K, value: &Value) -> usize {
        add(&self.world.weighed);
        value.weight()
    }
}
