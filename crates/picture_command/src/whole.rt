//! The whole page.
ghost use Rattle.std.specs.Prelude.{◌≡◌, ◌<◌, ◌^◌, ◌++◌, IfOk, OnOk};
ghost use Rattle.picture_command.specs.Page.{safe_head, sheet_style, page_title, page_head, page_of, page_text};

use crate::figure::add_figure;
use crate::items::add_items;
use crate::jobs::add_txns;
use item_model::Items;
use job_rows::JobRow;
use rt_base::{List, Names, OutOfMemory};
use schedule_marks::{Limits, Part, Shown, View, add, add_number, view_for};
use std::alloc::Global;
use txn_set::CompiledSet;

/// What a page tells of a history.
#[derive(Drop)]
pub struct Contents {
    /// The rows of all its jobs.
    pub rows: List<JobRow>,
    /// Its last items.
    pub items: Items,
    /// What is shown of the part.
    pub shown: Shown,
}

// Nothing is loaded from elsewhere, and no script runs.
fn add_safe_head(into: &mut Vec<u8>) -> Result<(), OutOfMemory>
    ensures { OnOk result (into.new.items ≡ into.old.items ++ safe_head) }
{
    add(
        into,
        b"<!DOCTYPE html>\n<html lang='en'>\n<head>\n<meta charset='utf-8'>\n",
    )?;
    add(
        into,
        b"<meta http-equiv='Content-Security-Policy' content='default-src &#39;none&#39;; style-src &#39;unsafe-inline&#39;'>\n",
    )?;
    add(
        into,
        b"<meta name='viewport' content='width=device-width'>\n",
    )?;
    Ok(())
}

fn add_sheet_style(into: &mut Vec<u8>) -> Result<(), OutOfMemory>
    ensures { OnOk result (into.new.items ≡ into.old.items ++ sheet_style) }
{
    add(
        into,
        b"<style>:root{color-scheme:light dark}body{margin:16px;font:14px sans-serif;color:#111;background:#fff}",
    )?;
    add(
        into,
        b"table{border-collapse:collapse;margin:0 0 20px}caption{text-align:left;font-weight:bold;padding:4px 0}",
    )?;
    add(
        into,
        b"th,td{padding:3px 12px;text-align:right;border-bottom:1px solid #ccc;font-variant-numeric:tabular-nums}",
    )?;
    add(
        into,
        b"th:first-child,td:first-child{text-align:left}svg{display:block;flex:none}",
    )?;
    add(
        into,
        b".view{display:flex;overflow-x:auto;border:1px solid #ccc;margin:0 0 20px}.names{position:sticky;left:0}",
    )?;
    add(
        into,
        b"@media(prefers-color-scheme:dark){body{color:#ddd;background:#16181d}th,td,.view{border-color:#444}}</style>\n",
    )
}

fn add_title(into: &mut Vec<u8>, part: Part) -> Result<(), OutOfMemory>
    ensures { OnOk result (into.new.items ≡ into.old.items ++ page_title part) }
{
    add_number(into, b"<title>Schedule from tick ", part.from)?;
    add_number(into, b" to tick ", part.to)?;
    add(into, b"</title>\n")?;
    Ok(())
}

fn add_head(into: &mut Vec<u8>, part: Part) -> Result<(), OutOfMemory>
    ensures { OnOk result (into.new.items ≡ into.old.items ++ page_head part) }
{
    add_safe_head(into)?;
    add_title(into, part)?;
    add_sheet_style(into)?;
    add(into, b"</head>\n<body>\n")?;
    Ok(())
}

fn add_page(
    into: &mut Vec<u8>,
    names: &Names,
    set: &CompiledSet,
    view: View,
    limits: &Limits,
    contents: &Contents,
) -> Result<(), OutOfMemory>
    requires { view.part.from < 2 ^ 63 }
    ensures { OnOk result (into.new.items ≡ into.old.items ++ page_of names.now set.now view limits.now contents.now.rows contents.now.items contents.now.shown) }
{
    add_head(into, view.part)?;
    let responses = limits.responses.as_slice();
    let ages = limits.ages.as_slice();
    add_txns(into, names, set, responses, contents.rows.as_slice())?;
    add_figure(into, names, set, view, ages, &contents.shown)?;
    add_items(into, names, set, ages, contents.items.as_slice())?;
    add(into, b"</body>\n</html>\n")?;
    Ok(())
}

fn add_page_text(
    into: &mut Vec<u8>,
    names: &Names,
    set: &CompiledSet,
    part: Part,
    limits: &Limits,
    contents: &Contents,
) -> Result<(), OutOfMemory>
    requires { part.from < 2 ^ 63 }
    ensures { OnOk result (into.new.items ≡ into.old.items ++ page_text names.now set.now part limits.now contents.now.rows contents.now.items contents.now.shown) }
{
    add_page(into, names, set, view_for(names, part), limits, contents)
}

/// The page of a part of a history, from the rows of all its jobs, its last items, and what is shown of the part. Its cost is that
/// of the picture, and for each transaction four scans of the rows.
pub fn page(
    alloc: Global,
    names: &Names,
    set: &CompiledSet,
    part: Part,
    limits: &Limits,
    contents: &Contents,
) -> Result<Vec<u8>, OutOfMemory>
    requires { part.from < 2 ^ 63 }
    ensures { IfOk result (λ text. text.items ≡ page_text names.now set.now part limits.now contents.now.rows contents.now.items contents.now.shown) }
{
    let mut text = Vec::new(alloc);
    add_page_text(&mut text, names, set, part, limits, contents)?;
    Ok(text)
}
