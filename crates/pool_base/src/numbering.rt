ghost use Rattle.std.specs.Prelude.{◌≡◌, ◌+◌, ◌<◌, ◌≤◌, [], Some, IfOk, IfSome, IsOk, OnErr, OnOk, is_some, length, nat_eq, position};
ghost use Rattle.std.specs.List.{IsDistinct, list_any};
ghost use Rattle.pool_base.specs.Numbering.{with_name};

use crate::memory::OutOfMemory;
use indexmap::IndexMap;
use std::alloc::Global;
use std::marker::Model;

/// Names with numbers from 0 on, in the order of their first appearance.
///
/// A name's number is looked up in a hash table. Names that are sure to need no memory are counted.
#[derive(Drop)]
pub struct Numbering {
    numbers: IndexMap<u32, ()>,
}

impl Model for Numbering {
    ghost use Rattle.indexmap.specs.IndexMap.{keys, spare};
    ghost use Rattle.pool_base.specs.Numbering.{NumberingView};

    ghost Value = { NumberingView };

    ghost view = { λ n. record { names = keys n.numbers; spare = spare n.numbers } };
}

impl Numbering {
    /// A numbering without names.
    pub fn new(alloc: Global) -> Self
        ensures { result.names ≡ [] }
    {
        Numbering {
            numbers: IndexMap::new(alloc),
        }
    }

    /// Makes room, so that at least `additional` names more need no memory.
    pub fn reserve(&mut self, additional: usize) -> Result<(), OutOfMemory>
        ensures names { self.new.names ≡ self.old.names }
        ensures room { OnOk result (additional ≤ self.new.spare) }
        ensures kept { self.old.spare ≤ self.new.spare }
        ensures sure { additional ≤ self.old.spare → IsOk result }
    {
        self.numbers.reserve(additional)?;
        Ok(())
    }

    /// The number of a name, which is known or gets the next. It fails only for want of memory, and has
    /// then changed no name.
    pub fn number(&mut self, name: u32) -> Result<usize, OutOfMemory>
        ensures names { OnOk result (self.new.names ≡ with_name self.old.names name) }
        ensures number { IfOk result (λ number. position (nat_eq name) self.new.names ≡ Some number) }
        ensures unchanged { OnErr result (self.new.names ≡ self.old.names) }
        ensures sure { 0 < self.old.spare → IsOk result }
        ensures room { self.old.spare ≤ self.new.spare + 1 }
    {
        let (number, _) = self.numbers.insert_full(name, ())?;
        Ok(number)
    }

    /// The number of a name; `None` exactly where it has none.
    pub fn number_of(&self, name: u32) -> Option<usize>
        ensures number { result ≡ position (nat_eq name) self.now.names }
        ensures found { is_some result ≡ list_any (nat_eq name) self.now.names }
        ensures within { IfSome result (λ number. number < length self.now.names) }
    {
        self.numbers.get_index_of(&name)
    }

    /// How many names there are.
    pub fn len(&self) -> usize
        ensures len { result ≡ length self.now.names }
        ensures distinct { IsDistinct nat_eq self.now.names }
    {
        self.numbers.len()
    }

    /// The names in the order of their numbers, each once.
    pub fn names(&self) -> &[u32]
        ensures names { result.now ≡ self.now.names }
        ensures distinct { IsDistinct nat_eq self.now.names }
    {
        self.numbers.keys().as_slice()
    }
}
