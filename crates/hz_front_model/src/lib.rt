//! What every program over descriptions and traces may answer: refusals, the phases before a command, and what is reported of a trace.
#![tactic(auto)]
