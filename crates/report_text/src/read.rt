//! The head of a report.
ghost use Rattle.std.specs.Prelude.{◌≡◌, ◌^◌, ◌<◌, ◌≤◌, ◌+◌, length, IfOk, None, Err};
ghost use Rattle.report_text.specs.Head.{nothing, IsNew, told, told_as, line_of, head, head_with, lines_of, head_of, ended, Gives};
ghost use Rattle.report_text.specs.declared.found.Found.TheVariants.{Item as AnItem, Txn as ATxn, Set as ASet};
ghost use Rattle.journal_text.specs.Ids.{index_of};
ghost use Rattle.report_text.specs.IsHead.{IsHead};
ghost use Rattle.report_text.specs.Pieces.{pieces};

use crate::found::{Found, Part, declared};
use crate::words::version;
use item_model::ItemDecl;
use line_fields::cut;
use name_table::{NameTable, NameTables};
use rt_base::{List, Name, OutOfMemory, TogetherDecl};
use std::alloc::Global;
use std::marker::Model;
use txn_set::TxnDecl;

/// The declarations of a report, up to its mode line: a set that may break rules of sets, and whether it is reported as
/// admitted.
#[derive(Drop)]
pub struct Head {
    /// The names, each with its place by a look-up in a hash map.
    pub names: NameTables,
    pub items: List<ItemDecl>,
    pub txns: List<TxnDecl>,
    pub together: List<TogetherDecl>,
    pub admitted: bool,
    /// How many lines there are up to the mode line, that one counted too.
    pub lines: usize,
}

/// Why the declarations of a report are not read.
#[derive(Clone, Copy, Debug, PartialEq, Eq)]
pub enum HeadError {
    /// The first line, counted from 1, that is no line of a declaration, has no line end, or stands out of order; also
    /// one that names what is not declared before it, or declares a name again.
    BadLine { n: usize },
    /// All lines are good, and there is no mode line.
    Unfinished,
    OutOfMemory,
}

// What is declared so far.
#[derive(Drop)]
struct Growing {
    part: Part,
    names: NameTable,
    items: Vec<ItemDecl>,
    txn_names: NameTable,
    txns: Vec<TxnDecl>,
    sets: Vec<TogetherDecl>,
}

impl Model for Growing {
    ghost use Rattle.report_text.specs.Head.{Decls};

    ghost Value = { Decls };

    ghost view = { λ g. record { part = g.part; names = g.names; items = g.items.items; txn_names = g.txn_names; txns = g.txns.items; sets = g.sets.items } };
}

#[derive(Clone, Copy)]
enum Line {
    Bad,
    More,
    Mode(bool),
}

impl Growing {
    fn new(alloc: Global) -> Growing
        ensures { result ≡ nothing }
    {
        Growing {
            part: Part::Items,
            names: NameTable::new(alloc),
            items: Vec::new(alloc),
            txn_names: NameTable::new(alloc),
            txns: Vec::new(alloc),
            sets: Vec::new(alloc),
        }
    }

    fn add_item(&mut self, alloc: Global, name: &Name, decl: ItemDecl) -> Result<Line, OutOfMemory>
        requires new { index_of self.old.names name.now ≡ None }
        requires few_names { length self.old.names < 2 ^ 32 }
        ensures told { IfOk result (λ l. told_as l self.new ≡ told self.old (AnItem name.now decl)) }
        ensures names { length self.new.names ≤ length self.old.names + 1 }
        ensures txns { self.new.txn_names ≡ self.old.txn_names }
    {
        if self.part != Part::Items {
            return Ok(Line::Bad);
        }
        self.names.add(alloc, name)?;
        self.items.push(decl)?;
        Ok(Line::More)
    }

    fn add_txn(&mut self, alloc: Global, name: &Name, decl: TxnDecl) -> Result<Line, OutOfMemory>
        requires new { index_of self.old.txn_names name.now ≡ None }
        requires few_txns { length self.old.txn_names < 2 ^ 32 }
        ensures told { IfOk result (λ l. told_as l self.new ≡ told self.old (ATxn name.now decl)) }
        ensures names { self.new.names ≡ self.old.names }
        ensures txns { length self.new.txn_names ≤ length self.old.txn_names + 1 }
    {
        if self.part == Part::Sets {
            drop(decl);
            return Ok(Line::Bad);
        }
        self.part = Part::Txns;
        if let Err(error) = self.txn_names.add(alloc, name) {
            drop(decl);
            return Err(error);
        }
        self.txns.push(decl)?;
        Ok(Line::More)
    }

    fn add_set(&mut self, set: TogetherDecl) -> Result<Line, OutOfMemory>
        ensures told { IfOk result (λ l. told_as l self.new ≡ told self.old (ASet set)) }
        ensures names { self.new.names ≡ self.old.names }
        ensures txns { self.new.txn_names ≡ self.old.txn_names }
    {
        self.part = Part::Sets;
        self.sets.push(set)?;
        Ok(Line::More)
    }

    fn add(&mut self, alloc: Global, found: Found) -> Result<Line, OutOfMemory>
        requires new { IsNew self.old found }
        requires few_names { length self.old.names < 2 ^ 32 }
        requires few_txns { length self.old.txn_names < 2 ^ 32 }
        ensures told { IfOk result (λ l. told_as l self.new ≡ told self.old found) }
        ensures names { length self.new.names ≤ length self.old.names + 1 }
        ensures txns { length self.new.txn_names ≤ length self.old.txn_names + 1 }
    {
        match found {
            Found::Item(name, decl) => self.add_item(alloc, &name, decl),
            Found::Txn(name, decl) => self.add_txn(alloc, &name, decl),
            Found::Set(set) => self.add_set(set),
            Found::Mode(admitted) => Ok(Line::Mode(admitted)),
        }
    }

    #[tactic(auto, unfolding(crate::specs::Head::line_of))]
    fn line(&mut self, alloc: Global, two: bool, line: &[u8]) -> Result<Line, OutOfMemory>
        requires names { length self.old.names < 2 ^ 32 }
        requires txns { length self.old.txn_names < 2 ^ 32 }
        ensures told { IfOk result (λ l. told_as l self.new ≡ line_of two self.old line.now) }
        ensures names { length self.new.names ≤ length self.old.names + 1 }
        ensures txns { length self.new.txn_names ≤ length self.old.txn_names + 1 }
    {
        match declared(alloc, &self.names, &self.txn_names, two, line)? {
            Some(found) => self.add(alloc, found),
            None => Ok(Line::Bad),
        }
    }

    // Takes the lines from line 2 on. Whether the mode line says admitted, and its number.
    fn take_lines(
        &mut self,
        alloc: Global,
        two: bool,
        bytes: &[u8],
    ) -> Result<(bool, usize), HeadError>
        requires new { self.old ≡ nothing }
        requires few { length bytes.now + 1 < 2 ^ 32 }
        ensures { Gives (head_with self.new result) (lines_of two nothing 2 (pieces 10 bytes.now).0 (pieces 10 bytes.now).1) }
    {
        let mut rest = bytes;
        let mut n = 2;
        while let Some((line, after)) = cut(b'\n', rest) {
            match self.line(alloc, two, line) {
                Err(OutOfMemory) => return Err(HeadError::OutOfMemory),
                Ok(Line::Bad) => return Err(HeadError::BadLine { n }),
                Ok(Line::Mode(admitted)) => return Ok((admitted, n)),
                Ok(Line::More) => {}
            }
            rest = after;
            n += 1;
        }
        Err(end(n, rest))
    }

    fn head(self, admitted: bool, lines: usize) -> Head
        ensures { result ≡ head self admitted lines }
    {
        let Growing {
            part: _,
            names,
            items,
            txn_names,
            txns,
            sets,
        } = self;
        Head {
            names: NameTables::of(names, txn_names),
            items: List::of(items),
            txns: List::of(txns),
            together: List::of(sets),
            admitted,
            lines,
        }
    }
}

fn end(n: usize, rest: &[u8]) -> HeadError
    ensures { Err result ≡ ended n rest.now }
{
    if rest.is_empty() {
        HeadError::Unfinished
    } else {
        HeadError::BadLine { n }
    }
}

// The head from line 2 on.
fn lines(alloc: Global, two: bool, bytes: &[u8]) -> Result<Head, HeadError>
    requires { length bytes.now + 1 < 2 ^ 32 }
    ensures { Gives result (lines_of two nothing 2 (pieces 10 bytes.now).0 (pieces 10 bytes.now).1) }
{
    let mut growing = Growing::new(alloc);
    match growing.take_lines(alloc, two, bytes) {
        Ok((admitted, n)) => Ok(growing.head(admitted, n)),
        Err(error) => {
            drop(growing);
            Err(error)
        }
    }
}

// The head of a report.
fn head_in(alloc: Global, bytes: &[u8]) -> Result<Head, HeadError>
    requires { length bytes.now < 2 ^ 32 }
    ensures { Gives result (head_of bytes.now) }
{
    let Some((first, rest)) = cut(b'\n', bytes) else {
        return Err(end(1, bytes));
    };
    match version(first) {
        Some(two) => lines(alloc, two, rest),
        None => Err(HeadError::BadLine { n: 1 }),
    }
}

/// The declarations of a report. It reads up to the mode line and no further, and looks each name up in a hash map.
pub fn read_head(alloc: Global, bytes: &[u8]) -> Result<Head, HeadError>
    requires { length bytes.now < 2 ^ 32 }
    ensures head { Gives result (head_of bytes.now) }
    ensures good { IfOk result IsHead }
{
    head_in(alloc, bytes)
}
