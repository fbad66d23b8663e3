//! Members and their forms.
ghost use Rattle.std.specs.Prelude.{◌≡◌, ◌≤◌, ◌<◌, ◌^◌, option_and_then, option_map, string_bytes, IfOk};
ghost use Rattle.std.specs.List.{list_all};
ghost use Rattle.serde_json.specs.View.{view, items_view};
ghost use Rattle.serde_json.specs.Find.{as_array};
ghost use Rattle.scenario_forms.specs.Reading.{GivesBy, needed, member_at, member_or, array_at};
ghost use Rattle.scenario_forms.specs.Fields.{whole, integer};

use crate::error::{FormError, Place};
use serde_json::Value;

/// A whole number in a range.
pub(crate) fn whole_number(low: u64, high: u64, value: &Value) -> Option<u64>
    ensures { result ≡ whole low high (view value.now) }
{
    let n = value.as_u64()?;
    if low <= n && n <= high { Some(n) } else { None }
}

/// A whole number in a range below 2^32.
pub(crate) fn small_number(low: u32, high: u32, value: &Value) -> Option<u32>
    ensures { result ≡ whole low high (view value.now) }
{
    let n = value.as_u64()?;
    if u64::from(low) <= n && n <= u64::from(high) {
        Some(n as u32)
    } else {
        None
    }
}

/// What is there, or the place where it is missing or not of its form.
pub(crate) fn need<T: Drop>(place: Place, found: Option<T>) -> Result<T, FormError>
    ensures { result ≡ needed place found }
{
    found.ok_or(FormError::BadField { place })
}

/// A required whole number.
#[tactic(auto, unfolding(crate::specs::Reading::member_at))]
pub(crate) fn number(
    place: Place,
    low: u64,
    high: u64,
    name: &str,
    value: &Value,
) -> Result<u64, FormError>
    ensures { result ≡ member_at place (whole low high) name.now (view value.now) }
{
    need(
        place,
        value.get(name).and_then(|v| whole_number(low, high, v)),
    )
}

/// A required whole number in a range below 2^32.
#[tactic(auto, unfolding(crate::specs::Reading::member_at))]
pub(crate) fn small(
    place: Place,
    low: u32,
    high: u32,
    name: &str,
    value: &Value,
) -> Result<u32, FormError>
    ensures { result ≡ member_at place (whole low high) name.now (view value.now) }
{
    need(
        place,
        value.get(name).and_then(|v| small_number(low, high, v)),
    )
}

/// A whole number from 0 on, or the default where it is absent.
#[tactic(auto, unfolding(crate::specs::Reading::member_or))]
pub(crate) fn number_or(
    place: Place,
    high: u64,
    default: u64,
    name: &str,
    value: &Value,
) -> Result<u64, FormError>
    ensures { result ≡ member_or default place (whole 0 high) name.now (view value.now) }
{
    match value.get(name) {
        None => Ok(default),
        Some(v) => need(place, whole_number(0, high, v)),
    }
}

/// A whole number of the range of i64, or the default where it is absent.
#[tactic(auto, unfolding(crate::specs::Reading::member_or))]
pub(crate) fn integer_or(
    place: Place,
    default: i64,
    name: &str,
    value: &Value,
) -> Result<i64, FormError>
    ensures { result ≡ member_or default place integer name.now (view value.now) }
{
    match value.get(name) {
        None => Ok(default),
        Some(v) => need(place, v.as_i64()),
    }
}

/// The elements of a required array.
#[tactic(auto, unfolding(crate::specs::Reading::member_at))]
pub(crate) fn array<'v>(
    place: Place,
    name: &str,
    value: &'v Value,
) -> Result<&'v [Value], FormError>
    ensures { GivesBy (λ v. items_view v.now) result (member_at place as_array name.now (view value.now)) }
{
    match value.get(name).and_then(Value::as_array) {
        Some(items) => Ok(items),
        None => Err(FormError::BadField { place }),
    }
}

/// The elements of an array, none where it is absent.
#[tactic(auto, unfolding(crate::specs::Reading::member_or))]
pub(crate) fn array_or<'v>(
    place: Place,
    name: &str,
    value: &'v Value,
) -> Result<&'v [Value], FormError>
    ensures { GivesBy (λ v. items_view v.now) result (array_at place name.now (view value.now)) }
{
    match value.get(name) {
        None => Ok(&[]),
        Some(v) => match v.as_array() {
            Some(items) => Ok(items),
            None => Err(FormError::BadField { place }),
        },
    }
}
