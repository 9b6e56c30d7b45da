//! An instance crashes: at each shard, in their order, it loses its job, the bytes that it holds and the records that it keeps.
ghost use Rattle.std.specs.Prelude.{◌≡◌, ◌<◌, ℕ, Some, length, slice_get};
ghost use Rattle.bench.specs.declared.call.Call.TheVariants.{Crash as CrashCall};
ghost use Rattle.world_model.specs.After.{after};
ghost use Rattle.world_model.specs.Events.{calls};
ghost use Rattle.world_model.specs.Runs.{after_all};
ghost use Rattle.world_model.specs.Shape.{IsShard};
ghost use Rattle.world_model.specs.Steps.{events_of};
ghost use Rattle.world_model.specs.World.{Shard as ShardView};
ghost use Rattle.world_model.specs.World.{World as WorldView};
ghost use Rattle.world_model.specs.declared.event.Event.TheVariants.{Crash};

use crate::shard::Shard;
use rule_table::Setup;

/// The instance crashes at the bench of a shard.
fn crash_at(setup: &Setup, shards: &mut [Shard], shard: u8, instance: u16)
    requires own { (g : ℕ) (s : ShardView) → slice_get shards.old g ≡ Some s → IsShard setup.now g s }
    requires within { shard < length shards.old }
    requires instance { instance < setup.now.instances }
    ensures own { (g : ℕ) (s : ShardView) → slice_get shards.new g ≡ Some s → IsShard setup.now g s }
    ensures called { (w : WorldView) → w.shards ≡ shards.old → record w { shards = shards.new } ≡ after w (calls shard (CrashCall instance)) }
{
    shards[shard as usize].crash(instance);
}

/// The instance crashes at each shard, in their order. It takes no memory.
pub(crate) fn crash_all(setup: &Setup, shards: &mut [Shard], instance: u16)
    requires own { (g : ℕ) (s : ShardView) → slice_get shards.old g ≡ Some s → IsShard setup.now g s }
    requires count { length shards.old ≡ setup.now.shards }
    requires instance { instance < setup.now.instances }
    ensures { (w : WorldView) → w.setup ≡ setup.now → w.shards ≡ shards.old
        → record w { shards = shards.new } ≡ after_all w (events_of w (Crash instance)) }
{
    for shard in 0..setup.shards() {
        crash_at(setup, shards, shard, instance);
    }
}
