// Runs of events in a world of one symbol, worked out by hand.

/// The events by letters, and what is so of the symbol at the end (`machine.rt` says both).
pub(crate) const RUNS: &str = r"
ESTNCPRF ¦ dhv.
ESTCPRF ¦ none
ESTC!HS ¦ none
ESTC!HWS ¦ ds.
ESTE ¦ none
 ¦ .
";
