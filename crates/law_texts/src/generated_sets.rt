//! The law that each generated set is admitted. It is about the definitions alone.
ghost use Rattle.law_texts.specs.Admission.{GeneratedAdmitted};

/// Each generated set is admitted. Its responses are at most four steps for each transaction and three more, below its
/// period; the age bound of a sensor item is at most that and a period.
pub fn generated_admitted()
    ensures { GeneratedAdmitted }
{}
