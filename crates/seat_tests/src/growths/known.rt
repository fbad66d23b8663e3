//! What is known of the scenario, worked out by hand from its declarations.
ghost use Rattle.std.specs.Prelude.{◌≡◌, length};

use item_model::{ItemDecl, ItemKind};
use rt_base::{ItemId, Prio, Tick, TxId};
use set_admission::AdmittedSet;
use txn_set::{CompiledSet, TxnDecl};

/// A sensor item, valid for 20 ticks.
pub const TEMP: ItemId = ItemId(0);

/// A derived item, valid for 50 ticks. It is read together with the sensor's.
pub const MEAN: ItemId = ItemId(1);

/// A state item of the value 7.
pub const VALVE: ItemId = ItemId(2);

/// It writes the sensor item.
pub const SAMPLE: TxId = TxId(0);

/// It reads the sensor item and writes the derived one.
pub const AVERAGE: TxId = TxId(1);

/// It reads both and writes the state item.
pub const CONTROL: TxId = TxId(2);

const ITEMS: [ItemDecl; 3] = [
    ItemDecl {
        kind: ItemKind::Sensor { validity: 20 },
        initial: 0,
    },
    ItemDecl {
        kind: ItemKind::Derived { validity: 50 },
        initial: 0,
    },
    ItemDecl {
        kind: ItemKind::State,
        initial: 7,
    },
];

// The write ceiling and the absolute ceiling of each item.
const CEILINGS: [(Prio, Prio); 3] = [(3, 3), (2, 2), (1, 1)];

// The blocking and the response of each transaction.
const TIMES: [(u64, Tick); 3] = [(3, 5), (3, 9), (0, 10)];

// The age bound of each item.
const AGES: [Option<Tick>; 3] = [Some(15), Some(44), None];

// Whether a transaction has this priority, period and number of steps, its deadline at its period, and these items.
fn is_as(
    declared: &TxnDecl,
    numbers: (Prio, Tick, u64),
    reads: &[ItemId],
    writes: &[ItemId],
) -> bool {
    let (prio, period, steps) = numbers;
    let times = (declared.period, declared.deadline, declared.offset);
    (declared.prio, declared.steps, declared.quiet) == (prio, steps, 0)
        && times == (period, period, 0)
        && declared.reads.as_slice() == reads
        && declared.writes.as_slice() == writes
}

fn has_known_txns(txns: &[TxnDecl]) -> bool {
    match txns {
        [sample, average, control] => {
            is_as(sample, (3, 10, 2), &[], &[TEMP])
                && is_as(average, (2, 20, 4), &[TEMP], &[MEAN])
                && is_as(control, (1, 40, 4), &[TEMP, MEAN], &[VALVE])
        }
        _ => false,
    }
}

fn has_known_group(set: &CompiledSet) -> bool {
    match set.together() {
        [group] => group.within == 50 && group.items.as_slice() == [TEMP, MEAN].as_slice(),
        _ => false,
    }
}

fn has_known_ceilings(set: &CompiledSet) -> bool
    requires { length set.now.items ≡ 3 }
{
    for place in 0..3u32 {
        let item = ItemId(place);
        let ceilings = (set.write_ceiling(item), set.absolute_ceiling(item));
        if ceilings != CEILINGS[place as usize] {
            return false;
        }
    }
    true
}

/// Whether this is the known set: its declarations and its ceilings.
pub fn is_known_set(set: &CompiledSet) -> bool {
    if set.items().len() != 3 {
        return false;
    }
    set.items() == ITEMS.as_slice()
        && has_known_txns(set.txns())
        && has_known_group(set)
        && has_known_ceilings(set)
}

fn has_known_times(set: &AdmittedSet) -> bool
    requires { length set.now.txns ≡ 3 }
{
    for place in 0..3u32 {
        let tx = TxId(place);
        if (set.blocking(tx), set.response(tx)) != TIMES[place as usize] {
            return false;
        }
    }
    true
}

fn has_known_ages(set: &AdmittedSet) -> bool
    requires { length set.now.items ≡ 3 }
{
    for place in 0..3u32 {
        if set.age(ItemId(place)) != AGES[place as usize] {
            return false;
        }
    }
    true
}

/// Whether this is the known set with its known bounds.
pub fn is_known_admitted(set: &AdmittedSet) -> bool {
    if set.set().items().len() != 3 {
        return false;
    }
    if set.set().txns().len() != 3 {
        return false;
    }
    is_known_set(set.set()) && has_known_times(set) && has_known_ages(set)
}
