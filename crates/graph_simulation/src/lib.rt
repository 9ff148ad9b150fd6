// Simulation in Kleene's three-valued logic under one setting, event-driven: the value of one gate, by a lookup in the
// table of all gates (`gate`, `table`), and of one output; the array of values; and rounds that evaluate only the
// fan-out of the gates that changed in the round before. Callers cite the definitions of `netlist`.
#![tactic(auto)]

pub mod changes;
pub mod gate;
pub mod output;
pub mod round;
pub mod table;
pub mod values;
