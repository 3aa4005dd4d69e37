ghost use Rattle.std.specs.Prelude.{◌≡◌, ◌<◌, [], IfOk, IfSome, OnOk, is_some, length, nat_eq, position};
ghost use Rattle.std.specs.List.{IsDistinct, list_any};
ghost use Rattle.road_network.specs.work.Directory.{FindsEach};

use pool_base::OutOfMemory;
use std::alloc::Global;
use std::collections::HashMap;
use std::marker::Model;

/// Different names, and a table that finds the place of each.
#[derive(Drop)]
pub(crate) struct Directory {
    names: Vec<u32>,
    numbers: HashMap<u32, usize>,
}

impl Model for Directory {
    ghost use Rattle.std.specs.Prelude.{ℕ, List};
    ghost use Rattle.road_network.specs.work.Directory.{IsDirectory};

    ghost Value = { List ℕ };

    ghost view = { λ d. d.names.items };

    ghost invariant = { λ d. IsDirectory d.names.items d.numbers };
}

impl Directory {
    /// The directory of these names.
    pub(crate) fn of(alloc: Global, names: &[u32]) -> Result<Directory, OutOfMemory>
        requires { IsDistinct nat_eq names.now }
        ensures { IfOk result (λ directory. directory ≡ names.now) }
    {
        let copy = Vec::from_slice(alloc, names)?;
        let mut numbers = HashMap::new(alloc);
        number_all(&mut numbers, names)?;
        Ok(Directory {
            names: copy,
            numbers,
        })
    }

    /// The number of a name; `None` exactly where it has none.
    pub(crate) fn number_of(&self, name: u32) -> Option<usize>
        ensures number { result ≡ position (nat_eq name) self.now }
        ensures found { is_some result ≡ list_any (nat_eq name) self.now }
        ensures within { IfSome result (λ number. number < length self.now) }
    {
        self.numbers.get(&name).copied()
    }

    /// A law: each name stands once.
    pub(crate) fn keeps(&self)
        ensures { IsDistinct nat_eq self.now }
    {
        let _ = &self.names;
    }

    /// How many names there are.
    pub(crate) fn len(&self) -> usize
        ensures len { result ≡ length self.now }
        ensures distinct { IsDistinct nat_eq self.now }
    {
        self.names.len()
    }

    /// The names in the order of their numbers, each once.
    pub(crate) fn names(&self) -> &[u32]
        ensures names { result.now ≡ self.now }
        ensures distinct { IsDistinct nat_eq self.now }
    {
        self.names.as_slice()
    }
}

/// Numbers different names, in their order.
fn number_all(numbers: &mut HashMap<u32, usize>, names: &[u32]) -> Result<(), OutOfMemory>
    requires distinct { IsDistinct nat_eq names.now }
    requires none { FindsEach [] numbers.old }
    ensures { OnOk result (FindsEach names.now numbers.new) }
{
    numbers.reserve(names.len())?;
    for number in 0..names.len() {
        numbers.insert(names[number], number)?;
    }
    Ok(())
}
