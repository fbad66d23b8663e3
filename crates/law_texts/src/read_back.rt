//! The laws of reading a scenario: what is read of a written one, and what holds of each one that is read. They are about
//! the definitions alone.
ghost use Rattle.law_texts.specs.ReadBack.{DataReadBack, TextsReadBack};
ghost use Rattle.law_texts.specs.Texts.{ReadIsScenario, ReadHasIntegers, GeneratedHasIntegers};

/// The canonical data of a scenario is that of the same scenario, with each run of computes as one.
pub fn data_read_back()
    ensures { DataReadBack }
{}

/// A UTF-8 text whose JSON value is a scenario's canonical data is read as the same scenario, with each run of computes
/// as one. Such a text is what is written for the scenario.
pub fn texts_read_back()
    ensures { TextsReadBack }
{}

/// What is read of a text by the reader's definition is a scenario that nothing refuses.
pub fn read_is_scenario()
    ensures { ReadIsScenario }
{}

/// The initial values, samples and constants of a scenario are of 64 bits, from -2^63 to 2^63 - 1, where it is read of a
/// text by the reader's definition, and where it is a generated one of at most 64 transactions.
pub fn integers_are_of_64_bits()
    ensures read { ReadHasIntegers }
    ensures generated { GeneratedHasIntegers }
{}
