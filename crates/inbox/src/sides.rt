ghost use Rattle.std.specs.Prelude.{◌≡◌, ◌≤◌, [], false, IfOk};
ghost use Rattle.inbox.specs.Inboxes.{capacity_of};

use crate::giver::Giver;
use crate::rule::{Queue, Roles};
use crate::taker::Taker;
use std::alloc::{AllocError, Global};
use std::sync::Arc;

/// The two sides of a new inbox, which holds at most `capacity` items at a time, the end counted as one. The one error
/// is want of memory.
#[tactic(auto, using(crate::proofs::Steps::begins, crate::proofs::Steps::splits))]
pub fn pair<T: Drop>(alloc: Global, capacity: u32) -> Result<(Giver<T>, Taker<T>), AllocError>
    requires some { 1 ≤ capacity }
    requires bound { capacity ≤ 65536 }
    ensures capacity { IfOk result (λ r. capacity_of r.0.inbox ≡ capacity) }
    ensures inbox { IfOk result (λ r. r.1.inbox ≡ r.0.inbox) }
    ensures nothing_given { IfOk result (λ r. (r.0.given ≡ []) × (r.0.ended ≡ false) × (r.1.known_given ≡ [])) }
    ensures nothing_taken { IfOk result (λ r. (r.1.taken ≡ []) × (r.1.ended ≡ false) × (r.0.known_taken ≡ [])) }
{
    let (queue, mut giving) = Queue::ruled(alloc, capacity as usize)?;
    let queue = Arc::new(alloc, queue)?;
    let taking = queue.another::<Roles>(&mut giving);
    let taker = Taker {
        queue: Arc::try_clone(&queue)?,
        pass: taking,
        ended: false,
    };
    let giver = Giver {
        queue,
        pass: giving,
    };
    Ok((giver, taker))
}
