//! What the last pages of changes make.

ghost use Rattle.page_cursors.specs.LastPages.{LastPagesMakeStates, LackingPagesAreMissing};

/// Changes of one page size of which each has the pages that none before it has make a state: its lock page is zeros,
/// and each other page that of the last change that has it. A change that lacks such a page doesn't fit, and that
/// page is the first missing one. Does nothing: its clauses hold of all changes.
pub fn last_pages_make_states()
    ensures states { LastPagesMakeStates }
    ensures missing { LackingPagesAreMissing }
{}
