//! The names of the items.
use crate::members::Members;
use crate::sheet::Sheet;
use crate::tables::{Member, Table};
use indexmap::IndexMap;
use rt_base::{Name, OutOfMemory};

/// The names of the items, each with its first item.
#[derive(Drop)]
pub(crate) struct ItemNames<'t> {
    first: IndexMap<&'t str, usize>,
    // each item has a name
    are_all: bool,
}

/// The name that a value is; None if it is none.
pub(crate) fn name_of<'t>(sheet: Sheet<'t>, node: usize) -> Option<&'t str> {
    let text = sheet.text(node)?;
    if Name::new(text.as_bytes()).is_some() {
        Some(text)
    } else {
        None
    }
}

fn item_name<'t>(sheet: Sheet<'t>, item: usize) -> Option<&'t str> {
    let node = Members::of(sheet, item, Table::Item, true).get(Member::Name)?;
    name_of(sheet, node)
}

impl<'t> ItemNames<'t> {
    /// The names of the items of a scenario, by a look-up in a hash map for each.
    pub(crate) fn of(sheet: Sheet<'t>, root: &Members) -> Result<ItemNames<'t>, OutOfMemory> {
        let mut names = ItemNames {
            first: IndexMap::new(sheet.alloc),
            are_all: false,
        };
        let Some(items) = root.get(Member::Items) else {
            return Ok(names);
        };
        names.are_all = sheet.is_array(items);
        for (i, item) in sheet.children(items)?.iter().enumerate() {
            match item_name(sheet, *item) {
                Some(name) => names.add(name, i)?,
                None => names.are_all = false,
            }
        }
        Ok(names)
    }

    fn add(&mut self, name: &'t str, item: usize) -> Result<(), OutOfMemory> {
        if !self.first.contains_key(name) {
            self.first.insert(name, item)?;
        }
        Ok(())
    }

    /// Whether an item is the first of its name.
    pub(crate) fn is_first(&self, name: &str, item: usize) -> bool {
        match self.first.get(name) {
            Some(first) => *first == item,
            None => true,
        }
    }

    /// Whether a text is no item's name. It may be that of an item whose name is missing or none.
    pub(crate) fn is_unknown(&self, text: &str) -> bool {
        self.are_all && !self.first.contains_key(text)
    }
}
