// Captures that are longer than the window by which they are dumped.
use super::*;
use std::fmt::Write;

/// The place of the record of this number in a capture of records that keep 1,400 bytes.
fn place_of(number: u32) -> u32 {
    number.saturating_mul(1416).saturating_add(24)
}

/// A capture of frames with so many bytes, each of which begins with the SYN.
fn long_syns(alloc: Global, lengths: &[usize]) -> Result<Vec<u8>, Fail> {
    let mut trace = HEADER.to_vec(alloc)?;
    for length in lengths {
        let mut frame = SYN.to_vec(alloc)?;
        frame.resize(*length, 0)?;
        add_record(&mut trace, 0, &frame)?;
    }
    Ok(trace)
}

/// A capture of 600 records that keep 1,400 bytes, but for one of them, whose head says another number.
fn with_kept(alloc: Global, number: u32, kept: u32) -> Result<Vec<u8>, Fail> {
    let mut trace = long_syns(alloc, &[1400; 600])?;
    let at = place_of(number) as usize;
    for (place, byte) in kept.to_le_bytes().iter().enumerate() {
        if let Some(found) = trace.get_mut(at.saturating_add(8).saturating_add(place)) {
            *found = *byte;
        }
    }
    Ok(trace)
}

/// The dump of so many SYNs.
fn lines_of(alloc: Global, count: usize) -> Result<String, Fail> {
    let mut text = String::new(alloc);
    for number in 0..count {
        write!(
            text,
            "{number} 192.0.2.7:40000 > 198.51.100.10:80 S 1000 0 64240 0\n"
        )?;
    }
    Ok(text)
}

#[test]
fn a_capture_of_many_windows_is_dumped_whole(rt: HostRuntime) -> Result<(), Fail> {
    let alloc = rt.alloc();
    let rows: [&[usize]; 5] = [
        &[40; 5000],
        &[1400; 600],
        &[262_144],
        &[262_144, 40, 262_144, 262_143, 262_144, 262_144, 40],
        &[262_104, 40, 262_048, 40, 40],
    ];
    for lengths in rows {
        let trace = long_syns(alloc, lengths)?;
        let lines = lines_of(alloc, lengths.len())?;
        assert_eq!(rt;
            left_of(&rt, alloc, DUMP, &trace, "-")?.as_slice(),
            lines.as_bytes()
        );
    }
    Ok(())
}

#[test]
fn a_fault_in_a_later_window_is_told_by_its_place_in_the_capture(
    rt: HostRuntime,
) -> Result<(), Fail> {
    let alloc = rt.alloc();
    let whole = long_syns(alloc, &[1400; 600])?;
    let short = whole.len().saturating_sub(1);
    let rows = [
        (whole.get(..short).unwrap_or(&[]).to_vec(alloc)?, "cut", 599),
        (with_kept(alloc, 300, 262_145)?, "too large", 300),
        (with_kept(alloc, 185, 262_145)?, "too large", 185),
        (with_kept(alloc, 500, 262_144)?, "cut", 500),
    ];
    for (trace, fault, number) in rows {
        let mut shelf = shelf_of(alloc, RULES.as_bytes(), &trace, b"", &[])?;
        let place = place_of(number);
        let end = format!(in alloc; "5 trace refused: record {fault} at {place}\n")?;
        assert_eq!(rt; ending_of(&rt, alloc, DUMP, &mut shelf)?, end);
    }
    Ok(())
}

#[test]
fn a_capture_of_too_many_records_is_not_dumped(rt: HostRuntime) -> Result<(), Fail> {
    let alloc = rt.alloc();
    let mut trace = HEADER.to_vec(alloc)?;
    // The fault of a later record does not count.
    trace.resize(24 + 16 * 262_145 + 1, 0)?;
    let mut shelf = shelf_of(alloc, RULES.as_bytes(), &trace, b"", &[])?;
    let end = "8 limit: trace records 262145\n";
    assert_eq!(rt; ending_of(&rt, alloc, DUMP, &mut shelf)?.as_str(), end);
    assert_eq!(rt; text_of(&shelf, "-")?, "");
    Ok(())
}

/// The capture is sized, and read by four calls, whatever the first window tells.
#[test]
fn a_fault_of_reading_comes_before_what_is_refused(rt: HostRuntime) -> Result<(), Fail> {
    let alloc = rt.alloc();
    let trace = with_kept(alloc, 0, 262_145)?;
    let mut shelf = shelf_of(alloc, RULES.as_bytes(), &trace, b"", &[])?;
    let refused = "5 trace refused: record too large at 24\n";
    assert_eq!(rt; ending_of(&rt, alloc, DUMP, &mut shelf)?.as_str(), refused);
    for call in 0..5 {
        let mut shelf = shelf_of(alloc, RULES.as_bytes(), &trace, b"", &[call])?;
        let end = ending_of(&rt, alloc, DUMP, &mut shelf)?;
        assert_eq!(rt; end.as_str(), "3 read fault: t.pcap\n");
    }
    Ok(())
}
