//! The declarations of a report.
ghost use Rattle.std.specs.Prelude.{◌≡◌, ◌+◌, ◌<◌, ◌≤◌, ◌++◌, ◌==◌, not, length, OnOk, vec_len, vec_capacity};
ghost use Rattle.std.specs.List.{All, list_any};
ghost use Rattle.report_text.specs.Rows.{numbered};
ghost use Rattle.report_text.specs.Texts.{kind_text, item_line, quiet_text, numbers_text, txn_line, within_text, together_line, is_second as is_second_set, first_line, mode_line, declared_text, declarations, NamesSet};

use crate::line_lists::add_list;
use item_model::{ItemDecl, ItemKind};
use journal_text::{put, put_name, put_short, put_signed, put_unsigned};
use rt_base::{Names, OutOfMemory, TogetherDecl, TxId};
use txn_set::{CompiledSet, TxnDecl};

fn put_kind(into: &mut Vec<u8>, kind: ItemKind)
    requires { vec_len into.old + 29 ≤ vec_capacity into.old }
    ensures items { into.new.items ≡ into.old.items ++ kind_text kind }
    ensures len { vec_len into.new ≤ vec_len into.old + 29 }
    ensures room { vec_capacity into.old ≤ vec_capacity into.new }
{
    match kind {
        ItemKind::Sensor { validity } => {
            put(into, b" sensor");
            put_unsigned(into, validity);
        }
        ItemKind::Derived { validity } => {
            put(into, b" derived");
            put_unsigned(into, validity);
        }
        ItemKind::State => put(into, b" state -"),
    }
}

fn add_item(into: &mut Vec<u8>, names: &Names, at: u32, decl: &ItemDecl) -> Result<(), OutOfMemory>
    requires { at < length names.now.items }
    ensures { OnOk result (into.new.items ≡ into.old.items ++ item_line names.now at decl.now) }
{
    into.reserve(256)?;
    put(into, b"item");
    put_name(into, names.items.as_slice(), at);
    put_kind(into, decl.kind);
    put_signed(into, decl.initial);
    put(into, b"\n");
    Ok(())
}

fn add_items(into: &mut Vec<u8>, names: &Names, set: &CompiledSet) -> Result<(), OutOfMemory>
    requires { NamesSet names.now set.now }
    ensures { OnOk result (into.new.items ≡ into.old.items ++ numbered (item_line names.now) 0 set.now.items) }
{
    set.is_compiled();
    let items = set.items();
    for i in 0..items.len() {
        add_item(into, names, i as u32, &items[i])?;
    }
    Ok(())
}

fn add_numbers(
    into: &mut Vec<u8>,
    names: &Names,
    at: u32,
    decl: &TxnDecl,
) -> Result<(), OutOfMemory>
    requires { at < length names.now.txns }
    ensures { OnOk result (into.new.items ≡ into.old.items ++ numbers_text names.now at decl.now) }
{
    into.reserve(256)?;
    put(into, b"txn");
    put_name(into, names.txns.as_slice(), at);
    put_short(into, decl.prio);
    put_unsigned(into, decl.period);
    put_unsigned(into, decl.offset);
    put_unsigned(into, decl.deadline);
    put_unsigned(into, decl.steps);
    Ok(())
}

fn add_quiet(into: &mut Vec<u8>, second: bool, quiet: u64) -> Result<(), OutOfMemory>
    ensures { OnOk result (into.new.items ≡ into.old.items ++ quiet_text second quiet) }
{
    into.reserve(256)?;
    if second {
        put(into, b" quiet");
        put_unsigned(into, quiet);
    }
    Ok(())
}

fn add_txn(
    into: &mut Vec<u8>,
    second: bool,
    names: &Names,
    at: u32,
    decl: &TxnDecl,
) -> Result<(), OutOfMemory>
    requires at { at < length names.now.txns }
    requires reads { All (λ i. i.0 < length names.now.items) decl.now.reads }
    requires writes { All (λ i. i.0 < length names.now.items) decl.now.writes }
    ensures { OnOk result (into.new.items ≡ into.old.items ++ txn_line second names.now at decl.now) }
{
    add_numbers(into, names, at, decl)?;
    into.extend_from_slice(b" reads")?;
    add_list(into, names, decl.reads.as_slice())?;
    into.extend_from_slice(b" writes")?;
    add_list(into, names, decl.writes.as_slice())?;
    add_quiet(into, second, decl.quiet)?;
    into.extend_from_slice(b"\n")?;
    Ok(())
}

fn add_txns(
    into: &mut Vec<u8>,
    second: bool,
    names: &Names,
    set: &CompiledSet,
) -> Result<(), OutOfMemory>
    requires { NamesSet names.now set.now }
    ensures { OnOk result (into.new.items ≡ into.old.items ++ numbered (txn_line second names.now) 0 set.now.txns) }
{
    set.is_compiled();
    for i in 0..set.txns().len() {
        add_txn(into, second, names, i as u32, set.txn(TxId(i as u32)))?;
    }
    Ok(())
}

fn add_within(into: &mut Vec<u8>, within: u64) -> Result<(), OutOfMemory>
    ensures { OnOk result (into.new.items ≡ into.old.items ++ within_text within) }
{
    into.reserve(256)?;
    put(into, b"together");
    put_unsigned(into, within);
    Ok(())
}

fn add_set(into: &mut Vec<u8>, names: &Names, decl: &TogetherDecl) -> Result<(), OutOfMemory>
    requires { All (λ i. i.0 < length names.now.items) decl.now.items }
    ensures { OnOk result (into.new.items ≡ into.old.items ++ together_line names.now 0 decl.now) }
{
    add_within(into, decl.within)?;
    add_list(into, names, decl.items.as_slice())?;
    into.extend_from_slice(b"\n")?;
    Ok(())
}

fn add_sets(into: &mut Vec<u8>, names: &Names, set: &CompiledSet) -> Result<(), OutOfMemory>
    requires { NamesSet names.now set.now }
    ensures { OnOk result (into.new.items ≡ into.old.items ++ numbered (together_line names.now) 0 set.now.together) }
{
    set.is_compiled();
    let sets = set.together();
    for i in 0..sets.len() {
        add_set(into, names, &sets[i])?;
    }
    Ok(())
}

fn add_first(into: &mut Vec<u8>, second: bool) -> Result<(), OutOfMemory>
    ensures { OnOk result (into.new.items ≡ into.old.items ++ first_line second) }
{
    if second {
        into.extend_from_slice(b"rtdb report 2\n")?;
        Ok(())
    } else {
        into.extend_from_slice(b"rtdb report 1\n")?;
        Ok(())
    }
}

fn add_mode(into: &mut Vec<u8>, admitted: bool) -> Result<(), OutOfMemory>
    ensures { OnOk result (into.new.items ≡ into.old.items ++ mode_line admitted) }
{
    if admitted {
        into.extend_from_slice(b"mode admitted\n")?;
        Ok(())
    } else {
        into.extend_from_slice(b"mode trial\n")?;
        Ok(())
    }
}

fn any_quiet(txns: &[TxnDecl]) -> bool
    ensures { result ≡ list_any (λ t. not (t.quiet == 0)) txns.now }
{
    txns.iter().any(|t| t.quiet != 0)
}

/// Whether the set is reported in the second version: it has quiet steps or relative sets.
fn is_second(set: &CompiledSet) -> bool
    ensures { result ≡ is_second_set set.now }
{
    any_quiet(set.txns()) || set.together().len() != 0
}

fn add_declared(
    into: &mut Vec<u8>,
    second: bool,
    names: &Names,
    set: &CompiledSet,
    admitted: bool,
) -> Result<(), OutOfMemory>
    requires { NamesSet names.now set.now }
    ensures { OnOk result (into.new.items ≡ into.old.items ++ declared_text second names.now set.now admitted) }
{
    add_first(into, second)?;
    add_items(into, names, set)?;
    add_txns(into, second, names, set)?;
    add_sets(into, names, set)?;
    add_mode(into, admitted)
}

/// Adds the declarations of a set, from the first line to the mode line.
pub fn add_declarations(
    into: &mut Vec<u8>,
    names: &Names,
    set: &CompiledSet,
    admitted: bool,
) -> Result<(), OutOfMemory>
    requires { NamesSet names.now set.now }
    ensures { OnOk result (into.new.items ≡ into.old.items ++ declarations names.now set.now admitted) }
{
    add_declared(into, is_second(set), names, set, admitted)
}
