//! What is said of a call.
use crate::growths::fault::Fault;

/// How a call went before it gave what it is to give.
#[derive(Clone, Copy, PartialEq, Eq)]
pub enum Before {
    /// It was made for the first time.
    First,
    /// A growth was refused, and what the call was given was as before.
    Refused,
    /// A growth was refused, and what the call was given differed.
    Changed,
}

/// Says that a growth of the call was refused, and whether what it was given is as before.
pub fn refused<R: Print>(rt: &R, name: &str, is_as_before: bool) -> Result<Before, Fault> {
    println!(rt; "{name}: refused")?;
    Ok(if is_as_before {
        Before::Refused
    } else {
        Before::Changed
    })
}

/// Says how the call went in the end. Good is only what is known.
pub fn judged<R: Print>(rt: &R, name: &str, before: Before, is_known: bool) -> Result<(), Fault> {
    match before {
        Before::First if is_known => println!(rt; "{name}: good")?,
        Before::Refused if is_known => println!(rt; "{name}: good again")?,
        _ => {
            println!(rt; "{name}: differs")?;
            return Err(Fault::NotKnown);
        }
    }
    Ok(())
}

/// Says that the call failed for another cause than memory, or a second time.
pub fn failed<R: Print>(rt: &R, name: &str) -> Fault {
    match println!(rt; "{name}: differs") {
        Ok(()) => Fault::NotKnown,
        Err(error) => Fault::NotWritten(error),
    }
}
