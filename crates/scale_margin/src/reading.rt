//! How far the validity of an item may fall.
ghost use Rattle.std.specs.Prelude.{◌≡◌, ◌<◌, length};
ghost use Rattle.scale_margin.specs.Spares.{is_read as is_read_by, spare_of};

use crate::limits::Spare;
use item_model::validity;
use rt_base::ItemId;
use set_admission::AdmittedSet;
use txn_set::{TxnDecl, names_item};

// Whether some transaction may read an item, by a scan of what they read.
fn is_read(txns: &[TxnDecl], item: ItemId) -> bool
    ensures { result ≡ is_read_by txns.now item.0 }
{
    txns.iter()
        .any(|txn| names_item(txn.reads.as_slice(), item))
}

/// The spare of an item of an admitted set: None if it has no validity, or if nobody reads it. It takes no memory; it scans
/// what the transactions read.
pub fn spare(set: &AdmittedSet, item: ItemId) -> Option<Spare>
    requires { item.0 < length set.now.items }
    ensures { result ≡ spare_of set.now item.0 }
{
    let declared = set.set();
    if !is_read(declared.txns(), item) {
        return None;
    }
    let validity = validity(declared.items(), item)?;
    let age = set.age(item)?;
    Some(Spare { validity, age })
}
