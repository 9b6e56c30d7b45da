use super::*;
use std::test::Fail;

fn shelf_of(alloc: std::alloc::Global, fails: &[u64]) -> Result<MemoryShelf, Fail> {
    let mut files = Vec::new(alloc);
    files.push((String::from_str(alloc, "a")?, b"hello".to_vec(alloc)?))?;
    Ok(MemoryShelf::new(files, fails.to_vec(alloc)?))
}

#[test]
fn the_listed_calls_fail_and_are_counted_by_kind(rt: HostRuntime) -> Result<(), Fail> {
    let mut shelf = shelf_of(rt.alloc(), &[1, 3, 5, 7])?;
    let mut buf = [0; 8];
    assert_eq!(rt; shelf.size("a"), Ok(5));
    assert_eq!(rt; shelf.size("a"), Err(Failed));
    assert_eq!(rt; shelf.read("a", 2, &mut buf), Ok(3));
    assert_eq!(rt; shelf.read("a", 2, &mut buf), Err(Failed));
    assert_eq!(rt; shelf.append("a", b"!"), Ok(1));
    assert_eq!(rt; shelf.append("a", b"?"), Err(Failed));
    assert_eq!(rt; shelf.bytes("a").ok_or("none")?, b"hello!".as_slice());
    assert_eq!(rt; shelf.start("a"), Ok(()));
    assert_eq!(rt; shelf.start("b"), Err(Failed));
    assert_eq!(rt; shelf.bytes("a").ok_or("none")?, b"".as_slice());
    assert_eq!(rt; shelf.bytes("b"), None);
    assert_eq!(rt; shelf.faults(Kind::Reading), 2);
    assert_eq!(rt; shelf.faults(Kind::Writing), 2);
    Ok(())
}

#[test]
fn a_name_that_is_not_there_fails_to_be_read_and_is_made_by_writing(
    rt: HostRuntime,
) -> Result<(), Fail> {
    let mut shelf = shelf_of(rt.alloc(), &[])?;
    let mut buf = [0; 2];
    assert_eq!(rt; shelf.size("b"), Err(Failed));
    assert_eq!(rt; shelf.read("b", 0, &mut buf), Err(Failed));
    assert_eq!(rt; shelf.append("b", b"bc"), Ok(2));
    assert_eq!(rt; shelf.read("b", 1, &mut buf), Ok(1));
    assert_eq!(rt; shelf.read("b", 9, &mut buf), Ok(0));
    assert_eq!(rt; buf[0], b'c');
    assert_eq!(rt; shelf.append("-", b"out"), Ok(3));
    assert_eq!(rt; shelf.start("-"), Ok(()));
    assert_eq!(rt; shelf.bytes("-").ok_or("none")?, b"out".as_slice());
    Ok(())
}

#[test]
fn a_real_file_is_written_and_read(rt: HostRuntime) -> Result<(), Fail> {
    let mut shelf = FileShelf::new(&rt, Vec::new(rt.alloc()), Vec::new(rt.alloc()));
    let mut buf = [0; 8];
    assert_eq!(rt; shelf.size("f"), Err(Failed));
    assert_eq!(rt; shelf.start("f"), Ok(()));
    assert_eq!(rt; shelf.append("f", b"abc"), Ok(3));
    assert_eq!(rt; shelf.append("f", b"de"), Ok(2));
    assert_eq!(rt; shelf.size("f"), Ok(5));
    assert_eq!(rt; shelf.read("f", 1, &mut buf), Ok(4));
    assert_eq!(rt; buf, *b"bcde\0\0\0\0");
    assert_eq!(rt; shelf.read("f", 9, &mut buf), Ok(0));
    assert_eq!(rt; shelf.start("f"), Ok(()));
    assert_eq!(rt; shelf.size("f"), Ok(0));
    assert_eq!(rt; shelf.append("-", b"out"), Ok(3));
    Ok(())
}

#[test]
fn a_length_that_is_none_is_a_failed_read(rt: HostRuntime) -> Result<(), Fail> {
    let mut shelf = FileShelf::new(&rt, Vec::new(rt.alloc()), Vec::new(rt.alloc()));
    assert_eq!(rt; shelf.size("/dev/null"), Ok(0));
    for name in [".", "/dev/zero", "/proc/self/status"] {
        assert_eq!(rt; shelf.size(name), Err(Failed), "{name}");
    }
    assert_eq!(rt; shelf.start("empty"), Ok(()));
    assert_eq!(rt; shelf.size("empty"), Ok(0));
    Ok(())
}
