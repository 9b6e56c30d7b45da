//! A replica fails: at each shard whose list holds it, in the order of the shards.
ghost use Rattle.std.specs.Prelude.{◌≡◌, ◌<◌, ℕ, Some, length, slice_get};
ghost use Rattle.world_model.specs.Runs.{after_all};
ghost use Rattle.world_model.specs.Shape.{IsShard};
ghost use Rattle.world_model.specs.Steps.{events_of, fails_at, place_at};
ghost use Rattle.world_model.specs.World.{Shard as ShardView};
ghost use Rattle.world_model.specs.World.{World as WorldView};
ghost use Rattle.world_model.specs.declared.event.Event.TheVariants.{Fail};

use crate::shard::Shard;
use rule_table::Setup;

/// The place of a replica in a shard's list, if the list is that long.
fn place_at(setup: &Setup, shard: u8, replica: u8) -> u8
    requires { replica < setup.now.replicas }
    ensures { result ≡ place_at setup.now shard replica }
{
    setup.known();
    let replicas = setup.replicas();
    (replica + replicas - shard % replicas) % replicas
}

/// The replica fails at the bench of a shard, if the shard's list holds it.
fn fail_at(setup: &Setup, shards: &mut [Shard], shard: u8, replica: u8)
    requires own { (g : ℕ) (s : ShardView) → slice_get shards.old g ≡ Some s → IsShard setup.now g s }
    requires within { shard < length shards.old }
    requires replica { replica < setup.now.replicas }
    ensures own { (g : ℕ) (s : ShardView) → slice_get shards.new g ≡ Some s → IsShard setup.now g s }
    ensures called { (w : WorldView) → w.shards ≡ shards.old → record w { shards = shards.new } ≡ after_all w (fails_at setup.now replica shard) }
{
    let place = place_at(setup, shard, replica);
    if place < setup.copies() {
        shards[shard as usize].fail(place);
    }
}

/// The replica fails at each shard whose list holds it, in the order of the shards. It takes no memory.
pub(crate) fn fail_all(setup: &Setup, shards: &mut [Shard], replica: u8)
    requires own { (g : ℕ) (s : ShardView) → slice_get shards.old g ≡ Some s → IsShard setup.now g s }
    requires count { length shards.old ≡ setup.now.shards }
    requires replica { replica < setup.now.replicas }
    ensures { (w : WorldView) → w.setup ≡ setup.now → w.shards ≡ shards.old
        → record w { shards = shards.new } ≡ after_all w (events_of w (Fail replica)) }
{
    for shard in 0..setup.shards() {
        fail_at(setup, shards, shard, replica);
    }
}
