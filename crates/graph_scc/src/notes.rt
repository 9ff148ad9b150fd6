// What Tarjan's search notes of a gate: four words side by side, of which three are used. Times are counted in turns of
// the search. A cursor is a slot of a gate: CURSORS * gate + slot.
use words_layout::limits::MAX_GATES;

pub const NOTE_SIZE: usize = 4;

pub const NOTES: usize = NOTE_SIZE * MAX_GATES;

// The discovery time, at which the search entered the gate; 0: not yet; CLOSED: its component is written.
pub const ENTERED: usize = 0;

// Tarjan's low link: CURSORS * the lowest discovery time of its component that it was found to reach + the slot of the
// operand that leads there.
pub const LOWEST: usize = 1;

// The parent in the search tree: the cursor from which the gate was entered; NOWHERE for the root of a search.
pub const PARENT: usize = 2;

// The marks of a note are numbers: a note is a word, as an Option of a word takes twice the room on the stack.
pub const CLOSED: usize = 65535;

pub const NOWHERE: usize = 65535;

// The weight of a gate in a cursor: more than a gate has slots.
pub const CURSORS: usize = 8;
