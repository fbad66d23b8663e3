//! The values of a JSON text by their nodes.
use crate::tree::{Kind, Tree};
use rt_base::OutOfMemory;
use std::alloc::Global;

/// A JSON text with the places of its values. Node 0 is the value of the whole text.
#[derive(Clone, Copy)]
pub struct Sheet<'t> {
    pub alloc: Global,
    /// The text.
    pub text: &'t str,
    /// Its values.
    pub tree: &'t Tree<'t>,
}

// The text from a double quote to the next one that has no backslash before it.
fn quoted(text: &[u8], at: usize) -> &[u8] {
    let mut escaped = false;
    for end in at.saturating_add(1)..text.len() {
        if escaped {
            escaped = false;
        } else if text[end] == b'\\' {
            escaped = true;
        } else if text[end] == b'"' {
            return &text[at..end + 1];
        }
    }
    &[]
}

impl<'t> Sheet<'t> {
    /// How many nodes there are.
    pub fn len(&self) -> usize {
        self.tree.len()
    }

    /// The first byte of a value.
    pub fn at(&self, node: usize) -> usize {
        self.tree.at(node)
    }

    /// The first byte of a member's key.
    pub fn key_at(&self, member: usize) -> usize {
        self.tree.at(member.saturating_sub(1))
    }

    /// The key of a member.
    pub fn key(&self, member: usize) -> &'t str {
        match self.tree.kind(member.saturating_sub(1)) {
            Some(Kind::Key(name)) => name,
            _ => "",
        }
    }

    /// The key of a member as it stands in the text.
    pub fn key_token(&self, member: usize) -> &'t [u8] {
        quoted(self.text.as_bytes(), self.key_at(member))
    }

    /// A text; None if the value is none.
    pub fn text(&self, node: usize) -> Option<&'t str> {
        match self.tree.kind(node)? {
            Kind::Text(text) => Some(text),
            _ => None,
        }
    }

    /// A text as it stands in the text.
    pub fn token(&self, node: usize) -> &'t [u8] {
        match self.text(node) {
            Some(_) => quoted(self.text.as_bytes(), self.at(node)),
            None => &[],
        }
    }

    /// A number as it stands in the text; None if the value is none.
    pub fn number(&self, node: usize) -> Option<&'t str> {
        match self.tree.kind(node)? {
            Kind::Number(number) => Some(number),
            _ => None,
        }
    }

    /// Whether a value is an object.
    pub fn is_object(&self, node: usize) -> bool {
        match self.tree.kind(node) {
            Some(Kind::Object) => true,
            _ => false,
        }
    }

    /// Whether a value is an array.
    pub fn is_array(&self, node: usize) -> bool {
        match self.tree.kind(node) {
            Some(Kind::Array) => true,
            _ => false,
        }
    }

    /// The first element of an array, or the value of the first member of an object.
    pub fn first(&self, parent: usize) -> Option<usize> {
        self.tree.first(parent)
    }

    /// The element or the member's value behind another one of the same array or object.
    pub fn next(&self, parent: usize, child: usize) -> Option<usize> {
        self.tree.next(parent, child)
    }

    /// The elements of an array, or the values of the members of an object.
    pub fn children(&self, parent: usize) -> Result<Vec<usize>, OutOfMemory> {
        let mut found = Vec::new(self.alloc);
        let mut child = self.first(parent);
        for _ in 0..self.len() {
            let Some(node) = child else { break };
            found.push(node)?;
            child = self.next(parent, node);
        }
        Ok(found)
    }
}
