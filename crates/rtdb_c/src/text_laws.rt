//! Statuses and refusals in words, without memory: the words that the program writes, in which items and transactions are
//! called by their numbers.
ghost use Rattle.rtdb_c.specs.Laws.{NumbersAreNames, RefusalsAreTold};

/// The names of so many items and transactions are item0, item1 and txn0, txn1 and so on.
pub fn numbers_are_names()
    ensures { NumbersAreNames }
{}

/// The text of the record of a refusal is what refusal_lines says of it, if the items and transactions have these names. The
/// refusals that only tables have are a word and the row.
pub fn refusals_are_told()
    ensures { RefusalsAreTold }
{}
