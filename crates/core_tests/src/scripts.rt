//! Scripts: values, the operations from the first call on, and a script over more items than memory has places.
use crate::words::tell;
use rt_base::{ItemId, Op, OutOfMemory, Outcome, Value};
use std::alloc::Global;
use step_script::{BinOp, Body, Expr, Script, ScriptOp};

fn operator(word: &str) -> Option<BinOp> {
    match word {
        "add" => Some(BinOp::Add),
        "sub" => Some(BinOp::Sub),
        "mul" => Some(BinOp::Mul),
        "div" => Some(BinOp::Div),
        "min" => Some(BinOp::Min),
        "max" => Some(BinOp::Max),
        _ => None,
    }
}

// A script that writes the value of an operator and two constants, of which the first may be the serial number of its job.
fn writing(
    alloc: Global,
    op: BinOp,
    first: Option<Value>,
    second: Value,
) -> Result<Script, OutOfMemory> {
    let first = Box::new(alloc, first.map_or(Expr::Serial, Expr::Const))?;
    let second = Box::new(alloc, Expr::Const(second))?;
    let ops = vec![in alloc; ScriptOp::Write(ItemId(0), Expr::Bin(op, first, second))]?;
    Script::new(alloc, ops, Vec::new(alloc), 1)
}

// Writes what a script asks for that writes the value of an operator and two constants.
fn try_value(alloc: Global, text: &str, said: &mut String) -> Option<()> {
    let (word, rest) = text.split_once(' ')?;
    let (a, b) = rest.split_once(' ')?;
    let (a, b) = (a.parse::<i64>().ok()?, b.parse::<i64>().ok()?);
    let script = writing(alloc, operator(word)?, Some(a), b).ok()?;
    let op = script.next();
    drop(script);
    write!(said, "{op:?}").ok()
}

// Writes what a script asks for in the job of a serial number that writes the value of an operator, this number and a constant.
fn try_serial(alloc: Global, text: &str, said: &mut String) -> Option<()> {
    let (word, rest) = text.split_once(' ')?;
    let (constant, serial) = rest.split_once(' ')?;
    let (constant, serial) = (constant.parse::<i64>().ok()?, serial.parse::<u32>().ok()?);
    let mut script = writing(alloc, operator(word)?, None, constant).ok()?;
    script.begin(serial);
    let op = script.next();
    drop(script);
    write!(said, "{op:?}").ok()
}

// Asks for so many operations, and tells the value 9 of each read.
fn asked(alloc: Global, script: &mut Script, count: usize) -> Result<Vec<Op>, OutOfMemory> {
    let mut ops = Vec::new(alloc);
    for _ in 0..count {
        let op = script.next();
        ops.push(op)?;
        script.told(match op {
            Op::Read(_) => Outcome::Got {
                value: 9,
                stamp: None,
            },
            Op::Write(_, _) => Outcome::Put,
            Op::Compute => Outcome::Computed,
            _ => Outcome::Closed,
        });
    }
    Ok(ops)
}

fn of_five(alloc: Global) -> Result<Script, OutOfMemory> {
    let ops = vec![in alloc;
        ScriptOp::Read(ItemId(0)),
        ScriptOp::Compute(2),
        ScriptOp::Write(ItemId(1), Expr::Last(ItemId(0))),
        ScriptOp::Write(ItemId(1), Expr::Sample),
        ScriptOp::Commit,
    ]?;
    let samples = vec![in alloc; 5, 7]?;
    Script::new(alloc, ops, samples, 2)
}

// The first eight operations of a script before the first begin, and after a begin with the serials 1 and 4.
fn operations(alloc: Global) -> Result<[Vec<Op>; 3], OutOfMemory> {
    let mut script = of_five(alloc)?;
    let first = asked(alloc, &mut script, 8)?;
    script.begin(1);
    let second = asked(alloc, &mut script, 8)?;
    script.begin(4);
    Ok([first, second, asked(alloc, &mut script, 8)?])
}

// How many operations and samples a script has.
fn parts(alloc: Global) -> Result<(usize, Vec<Value>), OutOfMemory> {
    let script = of_five(alloc)?;
    Ok((script.ops().len(), script.samples().to_vec(alloc)?))
}

fn of_many(alloc: Global) -> Result<Script, OutOfMemory> {
    let last = u32::MAX;
    let ops = vec![in alloc;
        ScriptOp::Read(ItemId(last)),
        ScriptOp::Read(ItemId(3)),
        ScriptOp::Read(ItemId(last)),
        ScriptOp::Write(ItemId(0), Expr::Last(ItemId(last))),
        ScriptOp::Write(ItemId(0), Expr::Last(ItemId(3))),
        ScriptOp::Write(ItemId(0), Expr::Last(ItemId(4))),
    ]?;
    Script::new(alloc, ops, Vec::new(alloc), usize::MAX)
}

// The operations of a script over more items than memory has places, behind three reads that got 5, 6 and 7: the items that
// are read count, in whatever order and however often, and not those that there are.
fn many_items(alloc: Global) -> Result<Vec<Op>, OutOfMemory> {
    let mut script = of_many(alloc)?;
    for value in 5..8 {
        script.told(Outcome::Got { value, stamp: None });
    }
    asked(alloc, &mut script, 4)
}

/// Writes what comes of a line.
pub fn try_scripts(alloc: Global, word: &str, rest: &str, said: &mut String) -> Option<()> {
    match word {
        "value" => try_value(alloc, rest, said),
        "serial" => try_serial(alloc, rest, said),
        "operations" => tell(said, operations(alloc)),
        "script" => tell(said, parts(alloc)),
        _ => tell(said, many_items(alloc)),
    }
}
