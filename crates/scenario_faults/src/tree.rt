//! The values of a JSON text with their places.
use json::{Reader, Scratch, Token};
use rt_base::OutOfMemory;
use std::alloc::Global;

/// What a node is: a value, or the key of a member.
#[derive(Clone, Copy)]
pub(crate) enum Kind<'t> {
    Object,
    Array,
    Key(&'t str),
    Text(&'t str),
    /// As it stands in the text.
    Number(&'t str),
    Word,
}

// A node: its first byte, and the number of the node behind all that is within it.
#[derive(Clone, Copy)]
struct Node<'t> {
    at: usize,
    end: usize,
    kind: Kind<'t>,
}

/// The values of a JSON text and the keys of its members, as nodes in the order of the text: an array or object comes before what
/// is within it, and a key before its value.
#[derive(Drop)]
pub struct Tree<'t> {
    nodes: Vec<Node<'t>>,
}

// The nodes so far, and the arrays and objects that are not closed.
#[derive(Drop)]
struct Growing<'t> {
    nodes: Vec<Node<'t>>,
    open: Vec<usize>,
}

impl<'t> Growing<'t> {
    fn add(&mut self, at: usize, kind: Kind<'t>) -> Result<(), OutOfMemory> {
        let end = self.nodes.len().saturating_add(1);
        self.nodes.push(Node { at, end, kind })?;
        Ok(())
    }

    fn open(&mut self, at: usize, kind: Kind<'t>) -> Result<(), OutOfMemory> {
        self.open.push(self.nodes.len())?;
        self.add(at, kind)
    }

    fn close(&mut self) {
        let end = self.nodes.len();
        if let Some(open) = self.open.pop() {
            if let Some(node) = self.nodes.get_mut(open) {
                node.end = end;
            }
        }
    }

    fn take(&mut self, at: usize, token: Token<'t>) -> Result<(), OutOfMemory> {
        match token {
            Token::BeginObject => self.open(at, Kind::Object),
            Token::BeginArray => self.open(at, Kind::Array),
            Token::EndObject | Token::EndArray => {
                self.close();
                Ok(())
            }
            Token::Key(name) => self.add(at, Kind::Key(name)),
            Token::String(text) => self.add(at, Kind::Text(text)),
            Token::Number(number) => self.add(at, Kind::Number(number)),
            Token::Bool(_) | Token::Null => self.add(at, Kind::Word),
            Token::Bad => Ok(()),
        }
    }
}

/// The values of a JSON text, in one pass. Texts with escapes are written to the scratch.
pub fn tree_of<'t>(
    alloc: Global,
    text: &'t str,
    scratch: &'t mut Scratch,
) -> Result<Tree<'t>, OutOfMemory> {
    let mut reader = Reader::new(text, scratch)?;
    let mut growing = Growing {
        nodes: Vec::new(alloc),
        open: Vec::new(alloc),
    };
    for _ in 0..u64::MAX {
        let at = reader.offset();
        match reader.next() {
            Some(token) => growing.take(at, token)?,
            None => break,
        }
    }
    Ok(Tree {
        nodes: growing.nodes,
    })
}

impl<'t> Tree<'t> {
    /// How many nodes there are.
    pub(crate) fn len(&self) -> usize {
        self.nodes.len()
    }

    /// What a node is; None if there is none.
    pub(crate) fn kind(&self, node: usize) -> Option<Kind<'t>> {
        Some(self.nodes.get(node)?.kind)
    }

    /// The first byte of a node.
    pub(crate) fn at(&self, node: usize) -> usize {
        match self.nodes.get(node) {
            Some(node) => node.at,
            None => 0,
        }
    }

    fn end(&self, node: usize) -> usize {
        match self.nodes.get(node) {
            Some(node) => node.end,
            None => usize::MAX,
        }
    }

    // The value of a key; the node itself if it is none.
    fn value(&self, node: usize) -> usize {
        match self.kind(node) {
            Some(Kind::Key(_)) => node.saturating_add(1),
            _ => node,
        }
    }

    // The value that begins at a node of what ends at another; None at its end.
    fn within(&self, node: usize, end: usize) -> Option<usize> {
        if node < end {
            Some(self.value(node))
        } else {
            None
        }
    }

    /// The first element of an array, or the value of the first member of an object.
    pub(crate) fn first(&self, parent: usize) -> Option<usize> {
        self.within(parent.saturating_add(1), self.end(parent))
    }

    /// The element or the member's value behind another one.
    pub(crate) fn next(&self, parent: usize, child: usize) -> Option<usize> {
        self.within(self.end(child), self.end(parent))
    }
}
