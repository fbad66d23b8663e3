//! How far the steps of a set may grow, as a plain record: the margin of the set that a core is over.
ghost use Rattle.c_forms.specs.MarginLaws.{MarginsComeBack};

/// Nothing is lost between a margin and its record: it is read back as what it was.
pub fn margins_lose_nothing()
    ensures { MarginsComeBack }
{}
