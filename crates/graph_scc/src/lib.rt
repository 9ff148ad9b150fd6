// Strongly connected components of gates, by a certifying algorithm: Tarjan's search ("Depth-first search and linear
// graph algorithms", 1972) promises only that it ends in bounds, and what it wrote is checked in linear time: that it
// is an order of evaluation (`layers`; else all gates are one layer), and that the layers are the components, of which
// each gate gets the lowest gate (`leaders`; else the slow `closure` finds it). No graph is known that fails a check.
#![tactic(auto)]

mod certified;
mod check;
mod closure;
mod layering;
pub mod layers;
pub mod leaders;
mod notes;
mod operands;
mod search;
pub mod words;
