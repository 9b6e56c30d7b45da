ghost use Rattle.std.specs.Prelude.{◌≡◌};
ghost use Rattle.flow_id.specs.Keys.{same_flow, same_key};
ghost use Rattle.flow_id.specs.Laws.{InRange, OfItsShard, Differ, OneFlow, OneKey};
ghost use Rattle.flow_id.specs.declared.key.Flow.{Flow};
ghost use Rattle.flow_id.specs.declared.key.Key.{Key};

use crate::key::{Flow, Key};

/// What holds of the eight candidate ports of a flow in a shard: each is between 1024 and 65535 and a port of that
/// shard, and no two are the same.
pub fn candidate_laws()
    ensures in_range { InRange }
    ensures of_its_shard { OfItsShard }
    ensures differ { Differ }
{}

/// What holds of the comparison of flows and of keys: `==` goes field by field, and what it finds the same is the same.
pub fn key_laws()
    ensures flows_by_fields { (a b : Flow) → ⟦<Flow as PartialEq>⟧.eq a b ≡ same_flow a b }
    ensures keys_by_fields { (a b : Key) → ⟦<Key as PartialEq>⟧.eq a b ≡ same_key a b }
    ensures one_flow { OneFlow }
    ensures one_key { OneKey }
{}
