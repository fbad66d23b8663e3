//! Names and their numbers: a table of names in the order in which they came, and the two tables of a set.
#![tactic(auto)]

ghost use Rattle.std.specs.Prelude.{◌≡◌, ◌<◌, ◌≤◌, ◌^◌, ◌++◌, [], ◌∷◌, None, IfOk, IfSome, OnOk, OnErr, length};
ghost use Rattle.rt_base.specs.Names.{AreNames};
ghost use Rattle.name_table.specs.Places.{place_in};

use indexmap::IndexSet;
use rt_base::{List, Name, Names, OutOfMemory};
use std::alloc::Global;
use std::marker::Model;

// How many guesses there are.
const GUESSES: usize = 256;

// Names as keys of a hash set, in the order in which they came, each once, and at most 2^32 of them. The number of a name is
// its place among them. A guess tells where a name is looked for first: the place of the last one that ends alike.
#[derive(Drop)]
struct Numbers {
    names: IndexSet<Vec<u8>>,
    guesses: [u32; GUESSES],
}

impl Model for Numbers {
    ghost use Rattle.std.specs.Prelude.{ℕ, ◌≤◌, ◌^◌, List as ListOf, length, map};

    ghost Value = { ListOf (ListOf ℕ) };

    ghost view = { λ n. map (λ k. k.items) n.names.keys };

    ghost invariant = { λ n. length n.names.keys ≤ 2 ^ 32 };
}

// By what it ends with, a name's guess: names often differ in two digits at their end.
fn ending(name: &[u8]) -> usize
    ensures { result < 256 }
{
    match name {
        [] => 0,
        [last] => *last as usize,
        [.., before, last] => (10 * *before as usize + *last as usize) % GUESSES,
    }
}

impl Numbers {
    fn new(alloc: Global) -> Numbers
        ensures { result ≡ [] }
    {
        Numbers {
            names: IndexSet::new(alloc),
            guesses: [0; GUESSES],
        }
    }

    // One comparison where the guess is right, else one look-up in the hash map.
    #[inline(always)]
    fn place(&self, name: &[u8]) -> Option<u32>
        ensures at { result ≡ place_in self.now name.now }
        ensures below { IfSome result (λ i. i < length self.now) }
    {
        let keys = self.names.as_slice();
        let guess = self.guesses[ending(name)] as usize;
        if guess < keys.len() && keys[guess].as_slice() == name {
            return Some(guess as u32);
        }
        self.looked_up(name)
    }

    #[inline(never)]
    fn looked_up(&self, name: &[u8]) -> Option<u32>
        ensures at { result ≡ place_in self.now name.now }
        ensures below { IfSome result (λ i. i < length self.now) }
    {
        match self.names.get_index_of(name) {
            Some(at) => Some(at as u32),
            None => None,
        }
    }

    // After Err it is as it was.
    fn add(&mut self, alloc: Global, name: &[u8]) -> Result<(), OutOfMemory>
        requires new { place_in self.old name.now ≡ None }
        requires room { length self.old < 2 ^ 32 }
        ensures added { OnOk result (self.new ≡ self.old ++ name.now ∷ []) }
        ensures kept { OnErr result (self.new ≡ self.old) }
    {
        let place = self.names.len() as u32;
        self.names.insert(Vec::from_slice(alloc, name)?)?;
        self.guesses[ending(name)] = place;
        Ok(())
    }
}

/// Names in the order in which they came, each once, and at most 2^32 of them. Contracts see the list of names. The
/// number of a name is its place in the list.
#[derive(Drop)]
pub struct NameTable {
    numbers: Numbers,
    names: Vec<Name>,
}

impl Model for NameTable {
    ghost use Rattle.std.specs.Prelude.{◌≡◌, ℕ, List as ListOf};

    ghost Value = { ListOf (ListOf ℕ) };

    ghost view = { λ t. t.names.items };

    ghost invariant = { λ t. t.numbers ≡ t.names.items };
}

impl NameTable {
    /// A table without names.
    pub fn new(alloc: Global) -> NameTable
        ensures { result ≡ [] }
    {
        NameTable {
            numbers: Numbers::new(alloc),
            names: Vec::new(alloc),
        }
    }

    /// The table of these names, by one step in a hash map for each.
    pub fn of(alloc: Global, names: &[Name]) -> Result<NameTable, OutOfMemory>
        requires names { AreNames names.now }
        requires few { length names.now ≤ 2 ^ 32 }
        ensures { IfOk result (λ table. table ≡ names.now) }
    {
        let mut table = NameTable::new(alloc);
        for name in names {
            table.add(alloc, name)?;
        }
        Ok(table)
    }

    /// How many names there are.
    pub fn len(&self) -> usize
        ensures { result ≡ length self.now }
    {
        self.names.len()
    }

    /// The number of a name, by one comparison or one look-up in a hash map; None exactly where it is not in the table.
    pub fn place(&self, name: &[u8]) -> Option<u32>
        ensures at { result ≡ place_in self.now name.now }
        ensures below { IfSome result (λ i. i < length self.now) }
    {
        self.numbers.place(name)
    }

    /// Puts a name behind the others, by one step in a hash map. After Err the table is as it was.
    pub fn add(&mut self, alloc: Global, name: &Name) -> Result<(), OutOfMemory>
        requires new { place_in self.old name.now ≡ None }
        requires room { length self.old < 2 ^ 32 }
        ensures added { OnOk result (self.new ≡ self.old ++ name.now ∷ []) }
        ensures kept { OnErr result (self.new ≡ self.old) }
    {
        self.names.reserve(1)?;
        self.numbers.add(alloc, name.as_slice())?;
        self.names.push_reserved(*name);
        Ok(())
    }

    /// The names.
    pub fn as_slice(&self) -> &[Name]
        ensures { result.now ≡ self.now }
    {
        &self.names
    }

    /// The names alone.
    pub fn into_names(self) -> Vec<Name>
        ensures { result.items ≡ self }
    {
        let NameTable { numbers: _, names } = self;
        names
    }
}

/// The names of items and of transactions, by their places, and a table of each. Contracts see the lists of names, as of
/// `Names`.
#[derive(Drop)]
pub struct NameTables {
    names: Names,
    items: Numbers,
    txns: Numbers,
}

impl Model for NameTables {
    ghost use Rattle.std.specs.Prelude.{◌≡◌};
    ghost use Rattle.rt_base.specs.declared.name.Names.{Names as ListsOfNames};

    ghost Value = { ListsOfNames };

    ghost view = { λ t. t.names };

    ghost invariant = { λ t. (t.items ≡ t.names.items) × (t.txns ≡ t.names.txns) };
}

impl NameTables {
    /// A table of items and one of transactions. It takes no memory.
    pub fn of(items: NameTable, txns: NameTable) -> NameTables
        ensures items { result.items ≡ items }
        ensures txns { result.txns ≡ txns }
    {
        let NameTable {
            numbers: item_numbers,
            names: items,
        } = items;
        let NameTable {
            numbers: txn_numbers,
            names: txns,
        } = txns;
        NameTables {
            names: Names {
                items: List::of(items),
                txns: List::of(txns),
            },
            items: item_numbers,
            txns: txn_numbers,
        }
    }

    /// The number of an item's name, by one comparison or one look-up in a hash map; None exactly where no item has it.
    #[inline(always)]
    pub fn item(&self, name: &[u8]) -> Option<u32>
        ensures at { result ≡ place_in self.now.items name.now }
        ensures below { IfSome result (λ i. i < length self.now.items) }
    {
        self.items.place(name)
    }

    /// The number of a transaction's name, by one comparison or one look-up in a hash map; None exactly where no transaction has it.
    #[inline(always)]
    pub fn txn(&self, name: &[u8]) -> Option<u32>
        ensures at { result ≡ place_in self.now.txns name.now }
        ensures below { IfSome result (λ i. i < length self.now.txns) }
    {
        self.txns.place(name)
    }

    /// The names.
    pub fn names(&self) -> &Names
        ensures { result.now ≡ self.now }
    {
        &self.names
    }

    /// The names alone.
    pub fn into_names(self) -> Names
        ensures { result ≡ self }
    {
        let NameTables {
            names,
            items: _,
            txns: _,
        } = self;
        names
    }
}
