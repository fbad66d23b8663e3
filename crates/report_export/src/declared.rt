//! Declarations as JSON.
ghost use Rattle.std.specs.Prelude.{◌≡◌, ◌+◌, ◌<◌, ◌≤◌, ◌++◌, ◌==◌, not, length, drop, OnOk, vec_len, vec_capacity};
ghost use Rattle.std.specs.List.{All, list_any};
ghost use Rattle.report_text.specs.Rows.{numbered};
ghost use Rattle.report_text.specs.Texts.{item_name, is_second as is_second_set, NamesSet};
ghost use Rattle.report_export.specs.Adding.{Grows};
ghost use Rattle.report_export.specs.Json.{report_json, kind_json, item_json, more_item, listed, times_json, txn_json, together_json, mode_json};
ghost use Rattle.report_export.specs.Whole.{declared_json};

use crate::parts::{add_text, put_counted, put_named, put_valued};
use item_model::{ItemDecl, ItemKind};
use journal_text::put;
use rt_base::{ItemId, List, Names, OutOfMemory, TogetherDecl};
use txn_set::{CompiledSet, TxnDecl};

#[tactic(auto, unfolding(crate::specs::Json::kind_json))]
fn put_kind(into: &mut Vec<u8>, kind: ItemKind)
    requires { vec_len into.old + 50 ≤ vec_capacity into.old }
    ensures items { into.new.items ≡ into.old.items ++ kind_json kind }
    ensures most { Grows into.old into.new 50 }
{
    match kind {
        ItemKind::Sensor { validity } => {
            put_counted(into, b"\",\"kind\":\"sensor\",\"validity\":", validity);
        }
        ItemKind::Derived { validity } => {
            put_counted(into, b"\",\"kind\":\"derived\",\"validity\":", validity);
        }
        ItemKind::State => put(into, b"\",\"kind\":\"state\",\"validity\":null"),
    }
}

fn add_item(into: &mut Vec<u8>, names: &Names, at: u32, decl: &ItemDecl) -> Result<(), OutOfMemory>
    requires { at < length names.now.items }
    ensures { OnOk result (into.new.items ≡ into.old.items ++ item_json names.now at decl.now) }
{
    into.reserve(256)?;
    put_named(into, b"{\"item\":{\"name\":\"", &names.items, at);
    put_kind(into, decl.kind);
    put_valued(into, b",\"value\":", decl.initial);
    put(into, b"}}\n");
    Ok(())
}

fn add_items(into: &mut Vec<u8>, names: &Names, set: &CompiledSet) -> Result<(), OutOfMemory>
    requires { NamesSet names.now set.now }
    ensures { OnOk result (into.new.items ≡ into.old.items ++ numbered (item_json names.now) 0 set.now.items) }
{
    set.is_compiled();
    for (i, decl) in set.items().iter().enumerate() {
        add_item(into, names, i as u32, decl)?;
    }
    Ok(())
}

// ---- lists of items

fn add_name(into: &mut Vec<u8>, names: &Names, id: ItemId) -> Result<(), OutOfMemory>
    requires { id.0 < length names.now.items }
    ensures { OnOk result (into.new.items ≡ into.old.items ++ item_name names.now id) }
{
    add_text(into, names.items.as_slice()[id.0 as usize].as_slice())
}

fn add_more(into: &mut Vec<u8>, names: &Names, id: ItemId) -> Result<(), OutOfMemory>
    requires { id.0 < length names.now.items }
    ensures { OnOk result (into.new.items ≡ into.old.items ++ more_item names.now 0 id) }
{
    add_text(into, b"\",\"")?;
    add_name(into, names, id)
}

fn add_others(into: &mut Vec<u8>, names: &Names, ids: &[ItemId]) -> Result<(), OutOfMemory>
    requires { All (λ i. i.0 < length names.now.items) ids.now }
    ensures { OnOk result (into.new.items ≡ into.old.items ++ numbered (more_item names.now) 1 ids.now) }
{
    for id in ids {
        add_more(into, names, *id)?;
    }
    Ok(())
}

#[tactic(auto, unfolding(crate::specs::Json::listed))]
fn add_list(
    into: &mut Vec<u8>,
    bytes: &[u8],
    names: &Names,
    ids: &List<ItemId>,
) -> Result<(), OutOfMemory>
    requires { All (λ i. i.0 < length names.now.items) ids.now }
    ensures { OnOk result (into.new.items ≡ into.old.items ++ listed bytes.now names.now ids.now) }
{
    add_text(into, bytes)?;
    match ids.as_slice() {
        [] => add_text(into, b"[]"),
        [first, rest @ ..] => {
            add_text(into, b"[\"")?;
            add_name(into, names, *first)?;
            add_others(into, names, rest)?;
            add_text(into, b"\"]")
        }
    }
}

// ---- transactions and relative sets

fn add_times(into: &mut Vec<u8>, names: &Names, at: u32, decl: &TxnDecl) -> Result<(), OutOfMemory>
    requires { at < length names.now.txns }
    ensures { OnOk result (into.new.items ≡ into.old.items ++ times_json names.now at decl.now) }
{
    into.reserve(400)?;
    put_named(into, b"{\"txn\":{\"name\":\"", &names.txns, at);
    put_counted(into, b"\",\"prio\":", decl.prio as u64);
    put_counted(into, b",\"period\":", decl.period);
    put_counted(into, b",\"offset\":", decl.offset);
    put_counted(into, b",\"deadline\":", decl.deadline);
    put_counted(into, b",\"steps\":", decl.steps);
    put_counted(into, b",\"quiet\":", decl.quiet);
    Ok(())
}

fn add_txn(into: &mut Vec<u8>, names: &Names, at: u32, decl: &TxnDecl) -> Result<(), OutOfMemory>
    requires at { at < length names.now.txns }
    requires reads { All (λ i. i.0 < length names.now.items) decl.now.reads }
    requires writes { All (λ i. i.0 < length names.now.items) decl.now.writes }
    ensures { OnOk result (into.new.items ≡ into.old.items ++ txn_json names.now at decl.now) }
{
    add_times(into, names, at, decl)?;
    add_list(into, b",\"reads\":", names, &decl.reads)?;
    add_list(into, b",\"writes\":", names, &decl.writes)?;
    add_text(into, b"}}\n")?;
    Ok(())
}

fn add_txns(into: &mut Vec<u8>, names: &Names, set: &CompiledSet) -> Result<(), OutOfMemory>
    requires { NamesSet names.now set.now }
    ensures { OnOk result (into.new.items ≡ into.old.items ++ numbered (txn_json names.now) 0 set.now.txns) }
{
    set.is_compiled();
    for (i, decl) in set.txns().iter().enumerate() {
        add_txn(into, names, i as u32, decl)?;
    }
    Ok(())
}

fn add_set(into: &mut Vec<u8>, names: &Names, decl: &TogetherDecl) -> Result<(), OutOfMemory>
    requires { All (λ i. i.0 < length names.now.items) decl.now.items }
    ensures { OnOk result (into.new.items ≡ into.old.items ++ together_json names.now 0 decl.now) }
{
    into.reserve(256)?;
    put_counted(into, b"{\"together\":{\"within\":", decl.within);
    add_list(into, b",\"items\":", names, &decl.items)?;
    add_text(into, b"}}\n")
}

fn add_sets(into: &mut Vec<u8>, names: &Names, set: &CompiledSet) -> Result<(), OutOfMemory>
    requires { NamesSet names.now set.now }
    ensures { OnOk result (into.new.items ≡ into.old.items ++ numbered (together_json names.now) 0 set.now.together) }
{
    set.is_compiled();
    for decl in set.together() {
        add_set(into, names, decl)?;
    }
    Ok(())
}

// ---- the whole

fn any_quiet(txns: &[TxnDecl]) -> bool
    ensures { result ≡ list_any (λ t. not (t.quiet == 0)) txns.now }
{
    txns.iter().any(|t| t.quiet != 0)
}

// Whether the set is reported in the second version.
fn is_second(set: &CompiledSet) -> bool
    ensures { result ≡ is_second_set set.now }
{
    any_quiet(set.txns()) || set.together().len() != 0
}

fn add_report(into: &mut Vec<u8>, second: bool) -> Result<(), OutOfMemory>
    ensures { OnOk result (into.new.items ≡ into.old.items ++ report_json second) }
{
    if second {
        add_text(into, b"{\"report\":{\"version\":2}}\n")
    } else {
        add_text(into, b"{\"report\":{\"version\":1}}\n")
    }
}

fn add_mode(into: &mut Vec<u8>, admitted: bool) -> Result<(), OutOfMemory>
    ensures { OnOk result (into.new.items ≡ into.old.items ++ mode_json admitted) }
{
    if admitted {
        add_text(into, b"{\"mode\":{\"admitted\":true}}\n")
    } else {
        add_text(into, b"{\"mode\":{\"admitted\":false}}\n")
    }
}

/// Adds the lines of the declarations.
pub(crate) fn add_declarations(
    into: &mut Vec<u8>,
    names: &Names,
    set: &CompiledSet,
    admitted: bool,
) -> Result<(), OutOfMemory>
    requires { NamesSet names.now set.now }
    ensures { OnOk result (into.new.items ≡ into.old.items ++ declared_json names.now set.now admitted) }
{
    add_report(into, is_second(set))?;
    add_items(into, names, set)?;
    add_txns(into, names, set)?;
    add_sets(into, names, set)?;
    add_mode(into, admitted)
}
