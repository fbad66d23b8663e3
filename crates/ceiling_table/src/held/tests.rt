//! That no datum of the table is kept where reading it is no look.
use super::*;

// Each field is named with its type, so that a further field does not compile here.
#[test]
fn fields(rt: HostRuntime) -> Result<(), OutOfMemory> {
    let held = Held::new(rt.alloc(), Vec::new(rt.alloc()), Vec::new(rt.alloc()))?;
    let Held {
        ceilings,
        prios,
        locks,
        rows,
        seated,
    } = &held;
    let ceilings: &Looked<CeilRow> = ceilings;
    let prios: &Looked<Prio> = prios;
    let locks: &Looked<LockKind> = locks;
    let rows: &Looked<Above> = rows.only_field();
    let seated: &Looked<bool> = seated;
    assert_eq!(rt; ceilings.len() + prios.len(), 0);
    assert_eq!(rt; locks.len() + rows.len() + seated.len(), 0);
    Ok(())
}
