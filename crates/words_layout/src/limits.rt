// The limits (SPECIFICATION 1.5); the definitions have them in netlist/specs/Limits.antt. Every array and comparison
// reads them here.
//
// A count, an index or a place is a plain number, and the function that takes one asks in its contract that it lies below
// its limit, or below a bound of specs/Bounds.antt, as the library's own methods ask of an index. A type for each limit
// would be no plainer: each sum, shift, index and loop would take the number out of it again, and its bound would be
// proved where it is made, as it is at each call now.
use crate::offsets::{GATE_SIZE, INPUTS_AT, NAME_SIZE, NEVER_SIZE, OUTPUT_SIZE};

// The bytes of a text.
pub const MAX_TEXT: usize = 61440;

pub const MAX_INPUTS: usize = 12;

// The never lines of a block.
pub const MAX_NEVERS: usize = 8;

pub const MAX_GATES: usize = 1024;

pub const MAX_OUTPUTS: usize = 16;

// The bytes of a name.
pub const MAX_NAME: usize = 8;

// How deep brackets are nested in an expression.
pub const MAX_DEPTH: usize = 8;

// Numbers that follow from the limits above.

// The settings of MAX_INPUTS inputs.
pub const MAX_SETTINGS: usize = 1 << MAX_INPUTS;

// The partial assignments of MAX_INPUTS inputs: 3^MAX_INPUTS.
pub const MAX_ASSIGNMENTS: usize = 531441;

// The words of the largest block: counts, names, never lines, gates, outputs.
pub const BLOCK_WORDS: usize = INPUTS_AT
    + NAME_SIZE * MAX_INPUTS
    + NEVER_SIZE * MAX_NEVERS
    + GATE_SIZE * MAX_GATES
    + OUTPUT_SIZE * MAX_OUTPUTS;

// The bytes of the gates' names `_0` to `_1023`.
const GATE_NAMES: usize = 4010;

// The bytes of a never line that names every input: `(never`, a pair for each, `)` and LF.
const NEVER_BYTES: usize = 8 + (5 + MAX_NAME) * MAX_INPUTS;

// The bytes of the longest written text: the lines of inputs, never lines, and the lines of gates and of outputs.
pub const WRITTEN_BYTES: usize = (6 + MAX_NAME) * MAX_INPUTS
    + NEVER_BYTES * MAX_NEVERS
    + (15 + 4 * (1 + MAX_NAME)) * MAX_GATES
    + GATE_NAMES
    + (8 + 2 * MAX_NAME) * MAX_OUTPUTS;
