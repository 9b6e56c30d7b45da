ghost use Rattle.std.specs.Prelude.{ℕ, List};
ghost use Rattle.bench.specs.declared.call.Call.{Call};
ghost use Rattle.rule_table.specs.Setups.{SetupView, IsSetup};
ghost use Rattle.world_model.specs.FirstFlow.{FirstFlow};
ghost use Rattle.world_model.specs.Headline.{Headline};
ghost use Rattle.world_model.specs.Safety.{SafetyLaw};
ghost use Rattle.world_model.specs.Steps.{StepLaw};
ghost use Rattle.world_model.specs.WrongWorlds.{WrongWorlds};

use bench::move_laws;
use job_core::table_laws;
use tcp_end::sent_is_allowed;

/// What holds of the world after every run, as long as each list of replicas keeps a living member.
pub fn streams_agree()
    ensures { SafetyLaw }
{
    move_laws();
    table_laws();
}

/// What can happen in a step of the world is one event of it, or one for each shard.
pub fn steps_are_events()
    ensures { StepLaw }
{
    sent_is_allowed();
}

/// What a run of the benches promises to the ends of every world that it is part of.
pub fn headline()
    ensures { (setup : SetupView) (histories : ℕ → List Call) → IsSetup setup → Headline setup histories }
{
    streams_agree();
}

/// A first flow, worked out: it may happen, both ends have received all, and these are its shard's calls.
pub fn first_flow()
    ensures { FirstFlow }
{}

/// Worlds that the laws exclude.
pub fn wrong_worlds()
    ensures { WrongWorlds }
{}
