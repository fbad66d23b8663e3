//! What is read back of a record is what it was made of.
ghost use Rattle.c_forms.specs.Laws.{JobsComeBack, EndsComeBack, AnswersComeBack, EntriesComeBack, OperationsAreNamed, RefusalsComeBack, ItemsHaveRows};

/// Nothing is lost between what a call answers and its record, between a refusal and its record, and each item can be
/// declared by a row.
pub fn records_lose_nothing()
    ensures jobs { JobsComeBack }
    ensures ends { EndsComeBack }
    ensures answers { AnswersComeBack }
    ensures entries { EntriesComeBack }
    ensures operations { OperationsAreNamed }
    ensures refusals { RefusalsComeBack }
    ensures items { ItemsHaveRows }
{}
