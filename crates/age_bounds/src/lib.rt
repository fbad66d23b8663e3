//! Age bounds: how old, in ticks, the value of a sensor or derived item may be at the end of the job that read it, along the
//! items that it is derived from.
#![tactic(auto)]

ghost use Rattle.std.specs.Prelude.{◌≡◌, ◌<◌, ◌≤◌, ◌^◌, length, IfOk};
ghost use Rattle.age_bounds.specs.Age.{AreGoodRows, AreAges, AreKnown, IsShorter, parents_of, age_of};

use rt_base::{List, OutOfMemory, Tick};
use std::alloc::Global;

/// A sensor or derived item: the period and the response of its writer together, in ticks, and for a derived item the
/// places of the rows that its writer reads. The parents of a sensor item are not looked at.
#[derive(Drop)]
pub struct AgeRow {
    pub derived: bool,
    pub base: Tick,
    pub parents: List<usize>,
}

impl AgeRow {
    // The rows that it is derived from.
    fn parents(&self) -> &[usize]
        ensures { result.now ≡ parents_of self.now }
    {
        if self.derived {
            self.parents.as_slice()
        } else {
            &[]
        }
    }
}

/// The age bounds of the rows, in ticks, by levels of the derivation: a row's is its base and the greatest among those
/// of its parents, 0 where it has none.
///
/// Cost: two growths. Each row's age is found once, so the time grows with the number of rows and of parents.
pub fn ages(alloc: Global, rows: &[AgeRow]) -> Result<Vec<Tick>, OutOfMemory>
    requires { AreGoodRows rows.now }
    ensures { IfOk result (λ answers. AreAges rows.now answers.items) }
{
    let mut known = vec![in alloc; None; rows.len()]?;
    let mut answers = Vec::with_capacity(alloc, rows.len())?;
    for row in 0..rows.len() {
        answers
            .push(age_at(rows, &mut known, row, rows.len()))
            .unwrap();
    }
    Ok(answers)
}

// The age of a row, from which no walk takes `left` steps. Known ages are not computed again.
fn age_at(rows: &[AgeRow], known: &mut [Option<Tick>], row: usize, left: usize) -> Tick
    requires rows { AreGoodRows rows.now }
    requires row { row < length rows.now }
    requires known { AreKnown rows.now known.old }
    requires left { IsShorter rows.now row left }
    ensures age { result ≡ age_of rows.now row }
    ensures known { AreKnown rows.now known.new }
{
    if let Some(age) = known[row] {
        return age;
    }
    let mut greatest = 0;
    for parent in rows[row].parents() {
        let age = age_at(rows, known, *parent, left - 1);
        if greatest < age {
            greatest = age;
        }
    }
    let age = rows[row].base + greatest;
    known[row] = Some(age);
    age
}
