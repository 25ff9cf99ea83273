use super::*;
use std::fs;
use std::test::Fail;
use std::thread::join;

fn holds(file: Option<&[u8]>, bytes: &[u8]) -> bool {
    match file {
        Some(found) => found == bytes,
        None => false,
    }
}

#[test]
fn a_planned_append_takes_some_bytes(rt: HostRuntime) -> Result<(), Fail> {
    let mut shelf = MemShelf::new(rt.alloc());
    shelf.put("record", b"old")?;
    shelf.plan_write(2, 3);
    assert!(rt; shelf.create("record").is_ok());
    assert!(rt; shelf.append("record", b"head").is_ok());
    assert!(rt; shelf.append("record", b"output").is_err());
    assert!(rt; shelf.append("record", b"!").is_ok());
    assert!(rt; holds(shelf.file("record"), b"headout!"));
    assert!(rt; shelf.file("other").is_none());
    Ok(())
}

#[test]
fn a_planned_create_changes_nothing(rt: HostRuntime) -> Result<(), Fail> {
    let mut shelf = MemShelf::new(rt.alloc());
    shelf.put("a", b"1")?;
    shelf.plan_create(1);
    assert!(rt; shelf.create("a").is_err());
    assert!(rt; holds(shelf.file("a"), b"1"));
    assert!(rt; shelf.append("b", b"2").is_ok());
    assert!(rt; holds(shelf.file("b"), b"2"));
    Ok(())
}

#[test]
fn reads_are_planned_and_capped(rt: HostRuntime) -> Result<(), Fail> {
    let mut shelf = MemShelf::new(rt.alloc());
    let mut into = [0; 4];
    shelf.put("a", b"12345")?;
    shelf.plan_read(2);
    assert!(rt; shelf.read_at("a", 3, &mut into) == Ok(2));
    assert!(rt; shelf.read_at("a", 0, &mut into).is_err());
    shelf.limit_read(1);
    assert!(rt; shelf.read_at("a", 2, &mut into) == Ok(1));
    assert!(rt; shelf.read_at("a", 5, &mut into) == Ok(0));
    assert!(rt; shelf.read_at("b", 0, &mut into).is_err());
    assert!(rt; into == *b"35\0\0");
    Ok(())
}

#[test]
fn a_calm_shelf_reads_an_absent_name(rt: HostRuntime) -> Result<(), Fail> {
    let mut shelf = CalmShelf::new(rt.alloc());
    let mut into = [0; 4];
    shelf.put("a", b"12")?;
    assert!(rt; shelf.read_at("b", 0, &mut into) == Ok(0));
    assert!(rt; shelf.append("a", b"3").is_ok());
    assert!(rt; shelf.create("b").is_ok());
    assert!(rt; shelf.read_at("a", 1, &mut into) == Ok(2));
    assert!(rt; holds(shelf.file("b"), b""));
    Ok(())
}

#[test]
fn a_planned_put_takes_some_bytes(rt: HostRuntime) {
    let mut sink = MemSink::new(rt.alloc());
    sink.plan(2, 9);
    assert!(rt; sink.put(b"made").is_ok());
    assert!(rt; sink.put(b" steps").is_err());
    assert!(rt; sink.put(b"!").is_ok());
    assert!(rt; sink.bytes() == b"made steps!".as_slice());
    OpenGate.pass(0, 1);
}

#[test]
fn the_files_of_the_system(rt: HostRuntime) -> Result<(), Fail> {
    let name = "real_shelf_test_file";
    let mut shelf = RealShelf::new(rt);
    let mut into = [0; 4];
    assert!(rt; shelf.create(name).is_ok());
    assert!(rt; shelf.append(name, b"12345").is_ok());
    assert!(rt; shelf.read_at(name, 2, &mut into) == Ok(3));
    fs::remove_file(&rt, name)?;
    assert!(rt; shelf.read_at(name, 0, &mut into).is_err());
    assert!(rt; into == *b"345\0");
    Ok(())
}

#[test]
fn a_longer_file_of_the_system_is_made_empty(rt: HostRuntime) -> Result<(), Fail> {
    let name = "real_shelf_longer_test_file";
    let other = "real_shelf_other_test_file";
    let mut shelf = RealShelf::new(rt);
    let mut into = [0; 8];
    assert!(rt; shelf.create(name).is_ok());
    assert!(rt; shelf.append(name, b"12345").is_ok());
    assert!(rt; shelf.create(name).is_ok());
    assert!(rt; shelf.read_at(name, 0, &mut into) == Ok(0));
    assert!(rt; shelf.append(name, b"67").is_ok());
    assert!(rt; shelf.append(other, b"!").is_ok());
    assert!(rt; shelf.append(name, b"8").is_ok());
    let taken = shelf.read_at(name, 0, &mut into);
    fs::remove_file(&rt, name)?;
    fs::remove_file(&rt, other)?;
    assert!(rt; taken == Ok(3));
    assert!(rt; into == *b"678\0\0\0\0\0");
    Ok(())
}

#[test]
fn standard_output(rt: HostRuntime) {
    assert!(rt; RealSink::new(rt).put(b"written\n").is_ok());
}

#[test]
fn held_passes_end_with_their_turns(rt: HostRuntime) {
    let gate = HoldGate::new(3);
    assert!(rt; !gate.met());
    gate.pass(0, 0);
    gate.pass(1, 1);
    assert!(rt; !gate.met());
    // a later pass changes nothing
    gate.pass(0, 2);
    assert!(rt; !gate.met());
}

#[test]
fn two_workers_meet_at_a_gate(rt: HostRuntime) {
    let gate = HoldGate::new(1_000_000_000);
    join(&rt, || gate.pass(0, 0), || gate.pass(1, 1));
    assert!(rt; gate.met());
}
