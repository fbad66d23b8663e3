//! That no datum of the table is kept where reading it is no look.
use super::*;

// Each field is named with its type, so that a further field does not compile here.
#[test]
fn fields(rt: HostRuntime) -> Result<(), OutOfMemory> {
    let waits = Waits::new(rt.alloc(), Vec::new(rt.alloc()))?;
    let Waits {
        ranking,
        on,
        waiters,
    } = &waits;
    let (prios, order, ranks) = ranking.only_fields();
    let prios: &Looked<Prio> = prios;
    let order: &Looked<TxId> = order;
    let ranks: &Looked<u32> = ranks;
    let on: &Looked<Option<TxId>> = on;
    let waiters: &Looked<RankSet> = waiters;
    assert!(rt; prios.len() == 0 && order.len() == 0 && ranks.len() == 0);
    assert!(rt; on.len() == 0 && waiters.len() == 0);
    Ok(())
}
