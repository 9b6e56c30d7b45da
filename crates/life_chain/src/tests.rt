ghost use Rattle.std.specs.Prelude.{IsTrue};
ghost use Rattle.flow_record.specs.Records.{is_syn};

use crate::{Answer, Chain, Found, continued_lives, opened_lives, short_chains};
use flow_id::{Flow, Key, Side};
use flow_record::{Ask, Record, fits};
use seq_space::Num;
use std::test::Fail;

const CLIENT: Flow = Flow {
    service: 0,
    address: 0xc000_0207,
    port: 40000,
    life: 0,
};

const GONE: Record = Record::Gone { by: 0 };

const LEFT: Record = Record::Fin {
    side: Side::Client,
    number: Num(1101),
};

const SERVED: Record = Record::Fin {
    side: Side::Server,
    number: Num(70501),
};

fn at(life: u16) -> Flow {
    Flow { life, ..CLIENT }
}

fn syn(number: u32) -> Record
    ensures { IsTrue (is_syn result) }
{
    Record::Syn {
        number: Num(number),
        mss: 1460,
        window: 64240,
        scale: Some(7),
        sack: true,
    }
}

fn claims(own: Record, life: u16) -> Ask {
    Ask::Add(Key::Syn(at(life)), own)
}

fn finds(life: u16) -> Ask {
    Ask::Get(Key::Syn(at(life)))
}

fn gone(life: u16) -> Ask {
    Ask::Get(Key::Gone(at(life)))
}

fn fin(life: u16, side: Side) -> Ask {
    Ask::Get(Key::Fin(at(life), side))
}

/// Tells the chain the answer to this ask, where it asks so and may be told so.
fn tell(chain: &mut Chain, ask: Ask, answer: Option<Record>) -> bool {
    let Found::Ask(asked) = chain.next() else {
        return false;
    };
    if asked != ask {
        return false;
    }
    match (asked, answer) {
        (_, Some(item)) if fits(&asked.key(), &item) => chain.answer(Answer::Decided(item)),
        (Ask::Get(_), None) => chain.answer(Answer::Absent),
        _ => return false,
    }
    true
}

/// Tells the chain these answers, in turn, as long as it asks for them. What it answers is how many it was told.
fn told(chain: &mut Chain, turns: &[(Ask, Option<Record>)]) -> usize {
    let mut count = 0usize;
    for (ask, answer) in turns {
        if !tell(chain, *ask, *answer) {
            return count;
        }
        count = count.saturating_add(1);
    }
    count
}

#[test]
fn a_second_connection_begins_behind_one_that_both_sides_closed(
    rt: HostRuntime,
) -> Result<(), Fail> {
    let own = syn(5000);
    let mut chain = Chain::syn(CLIENT, own);
    let turns = [
        (claims(own, 0), Some(syn(1000))),
        (gone(0), None),
        (fin(0, Side::Client), Some(LEFT)),
        (fin(0, Side::Server), Some(SERVED)),
        (claims(own, 1), Some(own)),
    ];
    assert_eq!(rt; told(&mut chain, &turns), 5);
    assert_eq!(rt; chain.next(), Found::At { life: 1 });
    assert_eq!(rt; chain.settled_syn(), Some(own));
    Ok(())
}

#[test]
fn a_syn_that_comes_again_is_of_its_own_life(rt: HostRuntime) -> Result<(), Fail> {
    let own = syn(1000);
    let mut chain = Chain::syn(CLIENT, own);
    assert_eq!(rt; told(&mut chain, &[(claims(own, 0), Some(syn(1000)))]), 1);
    assert_eq!(rt; chain.next(), Found::At { life: 0 });
    Ok(())
}

#[test]
fn a_third_number_meets_the_life_that_has_not_ended(rt: HostRuntime) -> Result<(), Fail> {
    let own = syn(6000);
    let mut chain = Chain::syn(CLIENT, own);
    let turns = [
        (claims(own, 0), Some(syn(1000))),
        (gone(0), Some(GONE)),
        (claims(own, 1), Some(syn(5000))),
        (gone(1), None),
    ];
    assert_eq!(rt; told(&mut chain, &turns), 4);
    let mut one_side = chain;
    assert_eq!(rt; told(&mut chain, &[(fin(1, Side::Client), None)]), 1);
    assert_eq!(rt; chain.next(), Found::Other { number: Num(5000) });
    assert_eq!(rt; chain.settled_syn(), None);
    // One side's close alone does not end a life.
    let closes = [
        (fin(1, Side::Client), Some(LEFT)),
        (fin(1, Side::Server), None),
    ];
    assert_eq!(rt; told(&mut one_side, &closes), 2);
    assert_eq!(rt; one_side.next(), Found::Other { number: Num(5000) });
    Ok(())
}

#[test]
fn eight_lives_that_were_reset_leave_none(rt: HostRuntime) -> Result<(), Fail> {
    let own = syn(9000);
    let mut chain = Chain::syn(CLIENT, own);
    for life in 0u16..8 {
        let turns = [
            (claims(own, life), Some(syn(life as u32))),
            (gone(life), Some(GONE)),
        ];
        assert_eq!(rt; told(&mut chain, &turns), 2);
    }
    assert_eq!(rt; chain.next(), Found::Spent);
    Ok(())
}

#[test]
fn eight_lives_that_were_closed_take_32_asks(rt: HostRuntime) -> Result<(), Fail> {
    let own = syn(9000);
    let mut chain = Chain::syn(CLIENT, own);
    for life in 0u16..8 {
        let turns = [
            (claims(own, life), Some(syn(life as u32))),
            (gone(life), None),
            (fin(life, Side::Client), Some(LEFT)),
            (fin(life, Side::Server), Some(SERVED)),
        ];
        assert_eq!(rt; told(&mut chain, &turns), 4);
    }
    assert_eq!(rt; chain.next(), Found::Spent);
    Ok(())
}

#[test]
fn other_segments_are_of_the_last_life_that_is_decided(rt: HostRuntime) -> Result<(), Fail> {
    let mut none = Chain::current(CLIENT, 0);
    assert_eq!(rt; told(&mut none, &[(finds(0), None)]), 1);
    assert_eq!(rt; none.next(), Found::Unknown);
    let mut chain = Chain::current(CLIENT, 2);
    let turns = [
        (finds(2), Some(syn(1))),
        (finds(3), Some(syn(2))),
        (finds(4), None),
    ];
    assert_eq!(rt; told(&mut chain, &turns), 3);
    assert_eq!(rt; chain.next(), Found::At { life: 3 });
    assert_eq!(rt; chain.settled_syn(), Some(syn(2)));
    let mut last = Chain::current(CLIENT, 6);
    let turns = [(finds(6), Some(syn(1))), (finds(7), Some(syn(2)))];
    assert_eq!(rt; told(&mut last, &turns), 2);
    assert_eq!(rt; last.next(), Found::At { life: 7 });
    opened_lives();
    continued_lives();
    short_chains();
    Ok(())
}
