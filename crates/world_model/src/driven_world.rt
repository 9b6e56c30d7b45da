//! The world of a generated run at its beginning.
ghost use Rattle.std.specs.Prelude.{◌≡◌, ◌<◌, ◌≤◌, IfOk, map};
ghost use Rattle.std.specs.List.{range_with_len};
ghost use Rattle.world_model.specs.DrivenSetup.{after_draws, client_at, driven_client, driven_clients, driven_setup};
ghost use Rattle.world_model.specs.World.{start};

use crate::client::ClientSpec;
use crate::driving::MOST_FLOWS;
use crate::world::World;
use drive_plan::Plan;
use rule_table::{Choices, Rule, Server, Service, Setup, Sizes};
use seq_space::Num;
use std::alloc::{AllocError, Global};

/// The sizes of the balancer.
const SIZES: Sizes = Sizes {
    instances: 4,
    replicas: 3,
    copies: 2,
    shards: 4,
    secret: [
        0, 1, 2, 3, 4, 5, 6, 7, 8, 9, 10, 11, 12, 13, 14, 15, 16, 17, 18, 19, 20, 21, 22, 23, 24,
        25, 26, 27, 28, 29, 30, 31,
    ],
};

/// The service, at 198.51.100.10, port 80.
const SERVICE: Service = Service {
    number: 0,
    address: 0xc633_640a,
    port: 80,
};

/// The servers, at 10.0.0.1 and 10.0.0.2, port 8080.
const SERVERS: [Server; 2] = [
    Server {
        address: 0x0a00_0001,
        port: 8080,
    },
    Server {
        address: 0x0a00_0002,
        port: 8080,
    },
];

/// The balancer's setup: one rule without conditions, which goes to both servers alike. The one error is want of memory.
#[tactic(auto, unfolding(crate::specs::DrivenSetup::driven_setup))]
fn setup(alloc: Global) -> Result<Setup, AllocError>
    ensures { IfOk result (λ s. s ≡ driven_setup) }
{
    let servers = Vec::from_slice(alloc, &SERVERS)?;
    let to = Choices::new(Vec::from_slice(alloc, &[(0, 1), (1, 1)])?);
    let mut rules = Vec::new(alloc);
    rules.push(Rule {
        host: None,
        path: None,
        cookie: None,
        to,
    })?;
    Ok(Setup::make(SIZES, SERVICE, servers, rules))
}

/// A client: its address is one of 200 from 192.0.2.1 on, and its port is its own.
fn client(number: u32, isn: u32) -> ClientSpec
    requires { number < MOST_FLOWS }
    ensures { result ≡ client_at number isn }
{
    ClientSpec {
        address: 0xc000_0201 + number % 200,
        port: (20000 + number) as u16,
        isn: Num(isn),
    }
}

/// So many clients; the first number of each is a draw. The one error is want of memory.
#[tactic(auto, using(crate::proofs::Ranges::map_next, crate::proofs::Ranges::draws_next))]
fn clients(alloc: Global, flows: u32, plan: &mut Plan) -> Result<Vec<ClientSpec>, AllocError>
    requires { flows ≤ MOST_FLOWS }
    ensures clients { IfOk result (λ v. v.items ≡ driven_clients plan.old flows) }
    ensures draws { IfOk result (λ v. plan.new ≡ after_draws plan.old flows) }
{
    let mut clients = Vec::with_capacity(alloc, flows as usize)?;
    for number in 0..flows {
        clients.push(client(number, plan.draw()))?;
    }
    Ok(clients)
}

/// The world before anything has happened. The one error is want of memory.
#[tactic(auto, using(crate::proofs::Driven::driven_apart))]
pub(crate) fn first_world(alloc: Global, flows: u32, plan: &mut Plan) -> Result<World, AllocError>
    requires { flows ≤ MOST_FLOWS }
    ensures world { IfOk result (λ w. w ≡ start driven_setup (driven_clients plan.old flows)) }
    ensures draws { IfOk result (λ w. plan.new ≡ after_draws plan.old flows) }
{
    let clients = clients(alloc, flows, plan)?;
    World::new(alloc, setup(alloc)?, clients)
}
