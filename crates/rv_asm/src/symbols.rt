//! The labels of a source, with their lines and addresses.

ghost use Rattle.std.specs.Prelude.{◌≡◌, ◌+◌, ◌*◌, ◌^◌, ◌<◌, ◌≤◌, [], length, slice_get, IfSome, OnOk, option_copied};
ghost use Rattle.std.specs.Option.{option_map};
ghost use Rattle.rv_asm.specs.Symbols.{symbol_named, with_name, distance as distance_of, place_of, is_before as is_before_line};

use crate::limits::CODE_START;
use indexmap::IndexMap;
use rv_base::NoMemory;
use std::alloc::Global;
use std::marker::Model;

/// Where a label stands: its line, counted from 1, and its address.
#[derive(Clone, Copy, PartialEq, Eq, Debug)]
pub struct Place {
    pub line: u32,
    pub address: u32,
}

/// The labels of a source in order of their lines, each once. Contracts see the list of them.
#[derive(Drop)]
pub struct Symbols {
    places: IndexMap<String, Place>,
}

impl Model for Symbols {
    ghost use Rattle.std.specs.Prelude.{List, ◌<◌, ◌^◌, map, length};
    ghost use Rattle.rv_asm.specs.Symbols.{Symbol, symbol_of};

    ghost Value = { List Symbol };

    ghost view = { λ s. map symbol_of s.places.entries };

    ghost invariant = { λ s. length s.places.entries < 2 ^ 32 };
}

impl Symbols {
    /// No labels.
    pub(crate) fn new(alloc: Global) -> Symbols
        ensures { result ≡ [] }
    {
        Symbols {
            places: IndexMap::new(alloc),
        }
    }

    /// How many labels there are.
    pub fn count(&self) -> u32
        ensures { result ≡ length self.now }
    {
        self.places.len() as u32
    }

    /// The name of label j, counted from 0.
    pub fn name(&self, j: u32) -> &str
        requires { j < length self.now }
        ensures { option_map (λ s. s.name) (slice_get self.now j) ≡ Some result.now }
    {
        match self.places.get_index(j as usize) {
            Some((name, _)) => name.as_str(),
            None => unreachable!(),
        }
    }

    /// The address of label j, counted from 0.
    pub fn address(&self, j: u32) -> u32
        requires { j < length self.now }
        ensures { option_map (λ s. s.address) (slice_get self.now j) ≡ Some result }
    {
        match self.places.get_index(j as usize) {
            Some((_, place)) => place.address,
            None => unreachable!(),
        }
    }

    /// Where a label stands, if it is there.
    pub(crate) fn place(&self, name: &str) -> Option<Place>
        ensures { result ≡ option_map place_of (symbol_named self.now name.now) }
    {
        self.places.get(name).copied()
    }

    /// Whether an earlier line than this has a label.
    pub(crate) fn is_before(&self, name: &str, line: u32) -> bool
        ensures { result ≡ is_before_line line (symbol_named self.now name.now) }
    {
        match self.place(name) {
            Some(place) => place.line < line,
            None => false,
        }
    }

    /// How far a label is from a statement, counted from 0, if the label is there.
    pub(crate) fn distance(&self, statement: u32, name: &str) -> Option<i128>
        requires { statement < 2 ^ 24 }
        ensures { result ≡ distance_of self.now statement name.now }
    {
        let place = self.place(name)?;
        Some(place.address as i128 - (CODE_START + 4 * statement) as i128)
    }

    /// Adds a label at a line and an address, unless it is there.
    pub(crate) fn add(
        &mut self,
        alloc: Global,
        name: &str,
        line: u32,
        address: u32,
    ) -> Result<(), NoMemory>
        requires { length self.old + 1 < 2 ^ 32 }
        ensures added { OnOk result (self.new ≡ with_name self.old line address name.now (symbol_named self.old name.now)) }
        ensures one { length self.new ≤ length self.old + 1 }
    {
        if self.place(name).is_none() {
            let key = String::from_str(alloc, name)?;
            self.places.insert(key, Place { line, address })?;
        }
        Ok(())
    }
}
