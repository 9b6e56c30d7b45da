use super::*;

const USAGE: &str =
    "2 usage: plain RULES TRACE SCRIPT OUT REPORT, run RULES TRACE SCRIPT OUT REPORT JOURNAL, drive FLOWS BYTES NUMBER, dump TRACE\n";

#[test]
fn a_generated_run_is_summed_up(rt: HostRuntime) -> Result<(), Fail> {
    let alloc = rt.alloc();
    let rows = [
        (
            "drive 1 0 18446744073709551615",
            "flows 1 closed 1 open 0 reset 0\nto servers 36\nto clients 0\n",
        ),
        (
            "drive 11 300 7",
            "flows 11 closed 11 open 0 reset 0\nto servers 3697\nto clients 3300\n",
        ),
        (
            "drive 11 300 7",
            "flows 11 closed 11 open 0 reset 0\nto servers 3697\nto clients 3300\n",
        ),
    ];
    for (words, summary) in rows {
        let text = left_of(&rt, alloc, words, b"", "-")?;
        assert_eq!(rt; text.as_slice(), summary.as_bytes());
    }
    Ok(())
}

#[test]
fn other_numbers_are_wrong_words(rt: HostRuntime) -> Result<(), Fail> {
    let alloc = rt.alloc();
    let rows = [
        "drive 0 20 7",
        "drive 1001 20 7",
        "drive 10 100001 7",
        "drive 10 20 18446744073709551616",
        "drive 10 20 28446744073709551615",
        "drive 010 20 7",
        "drive 10 +20 7",
        "drive 10 20 -7",
        "drive 10 20",
        "drive 10 20 7 8",
        "drive 10 20 x",
    ];
    for words in rows {
        let mut shelf = shelf_of(alloc, b"", b"", b"", &[])?;
        assert_eq!(rt;
            ending_of(&rt, alloc, words, &mut shelf)?.as_str(),
            USAGE,
            "{words}"
        );
        assert_eq!(rt; text_of(&shelf, "-")?, "");
    }
    Ok(())
}

#[test]
fn a_summary_that_cannot_be_written_is_a_write_fault(rt: HostRuntime) -> Result<(), Fail> {
    let alloc = rt.alloc();
    let mut shelf = shelf_of(alloc, b"", b"", b"", &[0])?;
    let end = ending_of(&rt, alloc, "drive 1 0 5", &mut shelf)?;
    assert_eq!(rt; end.as_str(), "4 write fault: -\n");
    Ok(())
}
