//! How many bytes one read asks for.

use super::programs::PROGRAM;
use super::words_of;
use crate::{needs_team, tool_one};
use rv_host::{CalmShelf, Failed, MemSink, Shelf};
use std::test::Fail;

/// Files that note the most bytes that one read asked for.
#[derive(Drop)]
struct Noting<S: Shelf> {
    files: S,
    most: usize,
}

impl<S: Shelf> Shelf for Noting<S> {
    ghost view = { λ s. S.view s.files };

    fn read_at(&mut self, name: &str, at: u64, into: &mut [u8]) -> Result<usize, Failed> {
        self.most = self.most.max(into.len());
        self.files.read_at(name, at, into)
    }

    fn create(&mut self, name: &str) -> Result<(), Failed> {
        self.files.create(name)
    }

    fn append(&mut self, name: &str, bytes: &[u8]) -> Result<(), Failed> {
        self.files.append(name, bytes)
    }
}

#[test]
fn reads_ask_for_at_most_65536_bytes(rt: HostRuntime) -> Result<(), Fail> {
    let behind = vec![in rt.alloc(); 0u8; 100_000]?;
    let mut elf = Vec::new(rt.alloc());
    elf.extend_from_slice(&PROGRAM)?;
    elf.extend_from_slice(&behind)?;
    let mut files = CalmShelf::new(rt.alloc());
    files.put("elf", &elf)?;
    files.put("input", &behind)?;
    let mut shelf = Noting { files, most: 0 };
    for line in ["make elf input record 1 3 3", "run elf input output 3"] {
        let words = words_of(&rt, line)?;
        assert!(rt; !needs_team(&words));
        let mut sink = MemSink::new(rt.alloc());
        assert_eq!(rt;
            tool_one(rt.alloc(), &words, &mut shelf, &mut sink),
            0,
            "{line}"
        );
    }
    assert!(rt; 1 <= shelf.most && shelf.most <= 65_536);
    Ok(())
}
