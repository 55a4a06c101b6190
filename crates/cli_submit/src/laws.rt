//! Laws of the bodies of messages.
ghost use Rattle.cli_submit.specs.Laws.{BodiesAreDrafts};

/// The draft that the desk reads from a message's body has the options' texts and the rows' entries.
pub fn bodies_are_drafts()
    ensures { BodiesAreDrafts }
{}
