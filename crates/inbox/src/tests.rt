ghost use Rattle.std.specs.Prelude.{◌≡◌, false};

use crate::{Giver, Taker, Took, pair};
use std::sync::Wait;
use std::test::Fail;
use std::thread;

/// Gives the numbers below 100 in order, and then the end.
fn give_all<R: Wait>(rt: &R, mut giver: Giver<u32>) -> Giver<u32>
    requires { giver.ended ≡ false }
    ensures { result.inbox ≡ giver.inbox }
{
    let mut next = 0u32;
    for _ in rt.forever() {
        if next < 100 {
            match giver.try_give(rt, next) {
                Ok(()) => next += 1,
                Err(_) => thread::yield_now(),
            }
        } else if giver.end(rt) {
            break;
        }
    }
    giver
}

/// Takes all items, and answers how many of them were the next number.
fn take_all<R: Wait>(rt: &R, mut taker: Taker<u32>) -> (Taker<u32>, u32)
    ensures { result.0.inbox ≡ taker.inbox }
{
    let mut next = 0u32;
    for _ in rt.forever() {
        match taker.try_take(rt) {
            Took::Item(item) if item == next => next = next.wrapping_add(1),
            Took::Item(_) => break,
            Took::Empty => thread::yield_now(),
            Took::Ended => break,
        }
    }
    (taker, next)
}

#[test]
fn items_come_in_order_and_at_last_the_end(rt: HostRuntime) -> Result<(), Fail> {
    let (mut giver, mut taker) = pair::<u32>(rt.alloc(), 2)?;
    assert_eq!(rt; giver.try_give(&rt, 5), Ok(()));
    assert_eq!(rt; giver.try_give(&rt, 6), Ok(()));
    assert_eq!(rt; giver.try_give(&rt, 7), Err(7));
    assert_eq!(rt; taker.try_take(&rt), Took::Item(5));
    assert_eq!(rt; giver.try_give(&rt, 7), Ok(()));
    assert_eq!(rt; taker.try_take(&rt), Took::Item(6));
    assert_eq!(rt; taker.try_take(&rt), Took::Item(7));
    assert_eq!(rt; taker.try_take(&rt), Took::Empty);
    assert!(rt; giver.end(&rt));
    assert_eq!(rt; taker.try_take(&rt), Took::Ended);
    assert_eq!(rt; taker.try_take(&rt), Took::Ended);
    taker.take_in(giver);
    assert_eq!(rt; taker.try_take(&rt), Took::Ended);
    Ok(())
}

#[test]
fn a_full_inbox_has_no_place_for_the_end(rt: HostRuntime) -> Result<(), Fail> {
    let (mut giver, mut taker) = pair::<u32>(rt.alloc(), 1)?;
    assert_eq!(rt; giver.try_give(&rt, 5), Ok(()));
    assert!(rt; !giver.end(&rt));
    assert_eq!(rt; taker.try_take(&rt), Took::Item(5));
    taker.take_in(giver);
    assert_eq!(rt; taker.try_take(&rt), Took::Empty);
    Ok(())
}

#[test]
fn two_threads_hand_a_hundred_items_over(rt: HostRuntime) -> Result<(), Fail> {
    let (giver, taker) = pair::<u32>(rt.alloc(), 4)?;
    let (giver, (mut taker, came)) = thread::join(
        &rt,
        move || -> Giver<u32>
            requires { giver.ended ≡ false }
            ensures { result.inbox ≡ giver.inbox }
        { give_all(&rt, giver) },
        move || -> (Taker<u32>, u32)
            ensures { result.0.inbox ≡ taker.inbox }
        { take_all(&rt, taker) },
    );
    assert_eq!(rt; came, 100);
    taker.take_in(giver);
    assert_eq!(rt; taker.try_take(&rt), Took::Ended);
    Ok(())
}
