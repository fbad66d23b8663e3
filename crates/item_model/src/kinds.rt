//! What an item is by its declaration.
ghost use Rattle.std.specs.Prelude.{◌≡◌, ◌<◌, length, is_some};
ghost use Rattle.item_model.specs.Kinds.{validity_of, validity_of_kind, is_dated, is_derived, is_derived_kind};

use crate::decl::{ItemDecl, ItemKind};
use rt_base::{ItemId, Tick};

fn validity_of_kind(kind: ItemKind) -> Option<Tick>
    ensures { result ≡ validity_of_kind kind }
{
    match kind {
        ItemKind::Sensor { validity } => Some(validity),
        ItemKind::Derived { validity } => Some(validity),
        ItemKind::State => None,
    }
}

fn is_derived_kind(kind: ItemKind) -> bool
    ensures { result ≡ is_derived_kind kind }
{
    match kind {
        ItemKind::Sensor { .. } => false,
        ItemKind::Derived { .. } => true,
        ItemKind::State => false,
    }
}

/// The validity of an item in ticks; None where it is a state item or no item. One look-up.
pub fn validity(decls: &[ItemDecl], item: ItemId) -> Option<Tick>
    ensures { result ≡ validity_of decls.now item.0 }
{
    let at = item.0 as usize;
    if at < decls.len() {
        validity_of_kind(decls[at].kind)
    } else {
        None
    }
}

/// Whether an item is a sensor or derived item. One look-up.
pub fn is_dated(decls: &[ItemDecl], item: ItemId) -> bool
    ensures { result ≡ is_dated decls.now item.0 }
{
    validity(decls, item).is_some()
}

/// Whether an item is a derived item. One look-up.
pub fn is_derived(decls: &[ItemDecl], item: ItemId) -> bool
    ensures { result ≡ is_derived decls.now item.0 }
{
    let at = item.0 as usize;
    if at < decls.len() {
        is_derived_kind(decls[at].kind)
    } else {
        false
    }
}
