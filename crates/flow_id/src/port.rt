ghost use Rattle.std.specs.Prelude.{◌≡◌, ◌<◌};
ghost use Rattle.flow_id.specs.Ports.{IsShardCount, shard_of, shard_of_port, candidate_port};

use crate::hash::Marks;
use crate::key::Flow;

/// The shard that holds the records of a flow: the sum of the client's address and port, modulo the number of shards.
pub fn shard(flow: &Flow, shards: u8) -> u8
    requires { IsShardCount shards }
    ensures { result ≡ shard_of flow.now shards }
{
    ((flow.address as u64 + flow.port as u64) % shards as u64) as u8
}

/// The shard that holds the records of a source port.
pub fn port_shard(port: u16, shards: u8) -> u8
    requires { IsShardCount shards }
    ensures { result ≡ shard_of_port port shards }
{
    (port % shards as u16) as u8
}

/// A flow's candidate port number `i` in a shard, 0 to 7: it is between 1024 and 65535, and a port of that shard.
pub fn candidate(marks: &Marks, shard: u8, shards: u8, i: u8) -> u16
    requires counted { IsShardCount shards }
    requires within { shard < shards }
    requires eight { i < 8 }
    ensures { result ≡ candidate_port marks.now.first shard shards i }
{
    let ports = 64512 / shards as u32;
    let turn = ((marks.first as u64 + i as u64) % ports as u64) as u32;
    (1024 + shard as u32 + shards as u32 * turn) as u16
}
