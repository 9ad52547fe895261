//! A law: the counts in the reply to a run are those of the history.
ghost use Rattle.st_script.specs.Totals.{RunsSayWhatTheyTook};

/// A run that answers a number of quanta and of steps has added that many quanta to the history, with that many steps in all. There
/// are fewer quanta than requested only if no actor is ready.
pub fn totals()
    ensures { RunsSayWhatTheyTook }
{}
