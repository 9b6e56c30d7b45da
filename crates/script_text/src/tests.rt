ghost use Rattle.std.specs.Prelude.{◌<◌};

use crate::{Line, Script, ScriptFault, script_of};
use std::alloc::Global;
use std::test::Fail;

/// The lines of the text, for three instances and two replicas.
fn lines(alloc: Global, text: &[u8]) -> Result<Vec<Line>, ScriptFault> {
    let script = script_of(alloc, text, 3, 2)?;
    Ok(Vec::from_slice(alloc, script.lines())?)
}

#[test]
fn lines_of_each_form_are_read(rt: HostRuntime) -> Result<(), Fail> {
    let give = Line::Give {
        item: 0,
        instance: 2,
    };
    let crash = Line::Crash {
        instance: 1,
        item: 262_143,
        after: 88,
    };
    let back = Line::Back {
        instance: 1,
        item: 8,
    };
    let early = Line::Crash {
        instance: 1,
        item: 7,
        after: 0,
    };
    let fail = Line::Fail {
        replica: 1,
        item: 0,
    };
    let table: [(&[u8], &[Line]); 6] = [
        (b"", &[]),
        (b"# nothing\n\n\r\n#", &[]),
        (b"give 0 2", &[give]),
        (b"give 0 2\r\nfail 1 at 0\n", &[give, fail]),
        (b"crash 1 at 262143 after 88\n", &[crash]),
        (
            b"crash 1 at 7 after 0\nback 1 at 8\ncrash 1 at 262143 after 88",
            &[early, back, crash],
        ),
    ];
    for (text, expected) in table {
        let Ok(found) = lines(rt.alloc(), text) else {
            assert!(rt; false);
            continue;
        };
        assert!(rt; found.as_slice() == expected);
    }
    Ok(())
}

#[test]
fn the_first_fault_is_told_with_its_line(rt: HostRuntime) {
    let table: [(&[u8], ScriptFault); 22] = [
        (b"give 0", ScriptFault::Form(1)),
        (b"give  0 1", ScriptFault::Form(1)),
        (b" give 0 1", ScriptFault::Form(1)),
        (b"give 0 1 ", ScriptFault::Form(1)),
        (b"give 0 1\r", ScriptFault::Form(1)),
        (b"give 0\r1 1\n", ScriptFault::Form(1)),
        (b"give 00 1", ScriptFault::Form(1)),
        (b"give +1 1", ScriptFault::Form(1)),
        (b"Give 0 1", ScriptFault::Form(1)),
        (b"#\n\nback 0 in 5", ScriptFault::Form(3)),
        (b"give 262144 0", ScriptFault::Range(1)),
        (b"give 0 3", ScriptFault::Range(1)),
        (b"fail 2 at 0", ScriptFault::Range(1)),
        (b"crash 0 at 0 after 89", ScriptFault::Range(1)),
        (b"give 99999999999999999999999999 0", ScriptFault::Range(1)),
        (b"give 0 65536", ScriptFault::Range(1)),
        (b"fail 256 at 0", ScriptFault::Range(1)),
        (b"give 5 0\r\ngive 5 1\r\nx", ScriptFault::Twice(2)),
        (b"fail 0 at 1\nfail 0 at 300000", ScriptFault::Range(2)),
        (b"back 0 at 1", ScriptFault::Order(1)),
        (
            b"crash 0 at 4 after 0\n# at the same\nback 0 at 4",
            ScriptFault::Order(3),
        ),
        (
            b"crash 0 at 4 after 0\nback 0 at 6\ncrash 0 at 5 after 0",
            ScriptFault::Order(3),
        ),
    ];
    for (text, expected) in table {
        assert!(rt; lines(rt.alloc(), text) == Err(expected));
    }
}

/// Whether each of two instances is living for the record, and where it goes from the first and from the second.
fn around(script: &Script, item: u32) -> (bool, bool, Option<u16>, Option<u16>)
    requires { 1 < script.now.sizes.instances }
{
    (
        script.living(0, item),
        script.living(1, item),
        script.assign(item, 0),
        script.assign(item, 1),
    )
}

#[test]
fn records_go_to_living_instances(rt: HostRuntime) {
    let text =
        b"crash 0 at 2 after 3\nback 0 at 5\ncrash 1 at 3 after 0\ngive 1 1\ngive 2 0\ngive 4 1\n";
    let Ok(script) = script_of(rt.alloc(), text, 2, 1) else {
        assert!(rt; false);
        return;
    };
    assert!(rt; around(&script, 0) == (true, true, Some(0), Some(1)));
    assert!(rt; around(&script, 1) == (true, true, Some(1), Some(1)));
    assert!(rt; around(&script, 2) == (true, true, Some(0), Some(0)));
    assert!(rt; around(&script, 3) == (false, true, Some(1), Some(1)));
    assert!(rt; around(&script, 4) == (false, false, None, None));
    assert!(rt; around(&script, 5) == (true, false, Some(0), Some(0)));
}
