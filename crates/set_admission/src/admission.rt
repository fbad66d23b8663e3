//! Admission itself, and an admitted set.

ghost use Rattle.std.specs.Prelude.{◌≡◌, ◌≢◌, ◌<◌, length, IfOk, IfErr, None, Some, Option, if◌then◌else◌};
ghost use Rattle.item_model.specs.Kinds.{is_dated as dated};
ghost use Rattle.txn_set.specs.Set.{IsCompiled, txn_of};
ghost use Rattle.txn_set.specs.Ceilings.{blocking};
ghost use Rattle.law_times.specs.Response.{response};
ghost use Rattle.law_times.specs.Ages.{IsAdmitted};
ghost use Rattle.set_admission.specs.Bounds.{age_of, MeetsAdmission, AreResponsesOf, AreAgesOf};
ghost use Rattle.set_admission.specs.Admission.{refusal, Refuses};
ghost use Rattle.set_admission.specs.declared.error.AdmitError.TheVariants.{OutOfMemory as WantOfMemory};

use crate::age::ages_of;
use crate::error::AdmitError;
use crate::order::{blocking_of, in_falling_priority};
use crate::refuse::{first_too_apart, first_too_old};
use crate::schedule::responses_of;
use item_model::is_dated;
use rt_base::{ItemId, Tick, TxId};
use std::alloc::Global;
use std::marker::Model;
use txn_set::CompiledSet;

// The response of each transaction and the age bound of each item, in ticks.
#[derive(Drop)]
struct Bounds {
    responses: Vec<Tick>,
    ages: Vec<Tick>,
}

fn bounds_of(alloc: Global, set: &CompiledSet) -> Result<Bounds, AdmitError>
    ensures admitted { IfOk result (λ b. refusal set.now ≡ None) }
    ensures responses { IfOk result (λ b. AreResponsesOf set.now b.responses.items) }
    ensures ages { IfOk result (λ b. AreAgesOf set.now b.ages.items) }
    ensures err { IfErr result (Refuses (refusal set.now)) }
{
    set.is_compiled();
    let order = in_falling_priority(alloc, set)?;
    let responses = responses_of(alloc, set, &order)?;
    let ages = ages_of(alloc, set, &responses)?;
    if let Some(error) = first_too_old(set, &ages, &order) {
        return Err(error);
    }
    if let Some(error) = first_too_apart(set, &ages, &order) {
        return Err(error);
    }
    Ok(Bounds { responses, ages })
}

/// A compiled set that meets the admission rule, with the response of each transaction and the age bound of each item.
/// Contracts see the set. Its calls take no memory.
#[derive(Drop)]
pub struct AdmittedSet {
    set: CompiledSet,
    responses: Vec<Tick>,
    ages: Vec<Tick>,
}

impl Model for AdmittedSet {
    ghost use Rattle.txn_set.specs.Set.{Set};
    ghost use Rattle.set_admission.specs.Admission.{IsKept};

    ghost Value = { Set };

    ghost view = { λ a. a.set };

    ghost invariant = { λ a. IsKept a.set a.responses.items a.ages.items };
}

impl AdmittedSet {
    /// The set.
    pub fn set(&self) -> &CompiledSet
        ensures { result.now ≡ self.now }
    {
        &self.set
    }

    /// The set, handed back.
    pub fn into_set(self) -> CompiledSet
        ensures { result ≡ self }
    {
        let AdmittedSet {
            set,
            responses: _,
            ages: _,
        } = self;
        set
    }

    /// That the set is compiled and meets the admission rule: a caller learns it by this call, which does nothing.
    pub fn is_admitted(&self)
        ensures compiled { IsCompiled self.now }
        ensures admitted { MeetsAdmission self.now }
    {
        let _set = &self.set;
    }

    /// The greatest number of steps, of a tick each, for which one lower transaction may block this one (the blocking
    /// term of Sha, Rajkumar, Son, Chang 1991, less the quiet steps). It looks up the ceilings of the lower
    /// transactions' declared items.
    pub fn blocking(&self, tx: TxId) -> u64
        requires { tx.0 < length self.now.txns }
        ensures { result ≡ blocking self.now (txn_of self.now tx.0).prio }
    {
        blocking_of(&self.set, self.set.txn(tx).prio)
    }

    /// The response of a transaction, in ticks: each of its jobs ends at most that long after its release. One look-up.
    pub fn response(&self, tx: TxId) -> Tick
        requires { tx.0 < length self.now.txns }
        ensures { response self.now tx.0 ≡ Some result }
    {
        self.responses[tx.0 as usize]
    }

    /// The age bound of a sensor or derived item, in ticks; None for a state item. One look-up.
    pub fn age(&self, item: ItemId) -> Option<Tick>
        requires { item.0 < length self.now.items }
        ensures { result ≡ (if dated self.now.items item.0 then Some (age_of self.now item.0) else None) }
    {
        if is_dated(self.set.items(), item) {
            Some(self.ages[item.0 as usize])
        } else {
            None
        }
    }
}

/// Admits a set, or hands it back as it was with the first cause for which it is refused: NotSchedulable, else TooOld,
/// else TooApart, each of the first transaction by falling priority. Ok comes exactly where the set meets the admission
/// rule, want of memory aside.
///
/// It takes memory for the order, the rows and the bounds. Its time is that of the response test, of a look-up for each
/// lower transaction's declared items for each transaction, and of a search for each relative set's items among each
/// transaction's reads.
pub fn admit(alloc: Global, set: CompiledSet) -> Result<AdmittedSet, (CompiledSet, AdmitError)>
    ensures set { IfOk result (λ a. a ≡ set) }
    ensures admitted { IfOk result (λ a. IsAdmitted set) }
    ensures back { IfErr result (λ e. e.0 ≡ set) }
    ensures refused { IfErr result (λ e. Refuses (refusal set) e.1) }
    ensures not_admitted { IfErr result (λ e. e.1 ≢ WantOfMemory → ¬ IsAdmitted set) }
{
    set.is_compiled();
    match bounds_of(alloc, &set) {
        Ok(Bounds { responses, ages }) => Ok(AdmittedSet {
            set,
            responses,
            ages,
        }),
        Err(error) => Err((set, error)),
    }
}
