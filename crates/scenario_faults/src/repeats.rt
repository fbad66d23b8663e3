//! Members that stand in their object before.
use crate::sheet::Sheet;
use indexmap::IndexSet;
use rt_base::OutOfMemory;

// How many members are compared with each other.
const FEW: usize = 8;

// Whether a member has the key of one of these.
fn is_among(sheet: Sheet<'_>, members: &[usize], key: &str) -> bool {
    members.iter().any(|member| sheet.key(*member) == key)
}

// The repeated ones of few members.
fn in_few(sheet: Sheet<'_>, members: &[usize], found: &mut Vec<usize>) -> Result<(), OutOfMemory> {
    for (i, member) in members.iter().enumerate() {
        if is_among(sheet, &members[..i], sheet.key(*member)) {
            found.push(*member)?;
        }
    }
    Ok(())
}

// The repeated ones of many members.
fn in_many(sheet: Sheet<'_>, members: &[usize], found: &mut Vec<usize>) -> Result<(), OutOfMemory> {
    let mut keys: IndexSet<&str> = IndexSet::new(sheet.alloc);
    for member in members {
        if !keys.insert(sheet.key(*member))? {
            found.push(*member)?;
        }
    }
    Ok(())
}

/// The values of the members that stand in their object before, in the order of the text. A look-up in a hash map for each
/// member of an object of many, and a sort of what is found.
pub fn repeated(sheet: Sheet<'_>) -> Result<Vec<usize>, OutOfMemory> {
    let mut found = Vec::new(sheet.alloc);
    for node in 0..sheet.len() {
        if sheet.is_object(node) {
            let members = sheet.children(node)?;
            if members.len() <= FEW {
                in_few(sheet, &members, &mut found)?;
            } else {
                in_many(sheet, &members, &mut found)?;
            }
        }
    }
    found.sort_unstable();
    Ok(found)
}
