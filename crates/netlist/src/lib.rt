// The declared types of the answers, of a sheet's records and of the table of kinds. specs/ says what each case means;
// nothing here runs.
#![tactic(auto)]

// One of the thirteen refusals (SPECIFICATION 7.2), with the place or the setting that it tells.
#[derive(Clone, Copy)]
pub enum Refusal {
    // 1, overlong
    TextTooLong,
    // 2, form: the place of the first byte that no legal text has there
    SyntaxError(usize),
    // 3, crowded
    OverLimit,
    // 4, twice: the least place of a declaration that has an equal one before it, or of a pin named again in a never
    // line
    DuplicateDeclaration(usize),
    // 5, unknown: the least place of a name that is not declared, or of one in a never line that is no input
    UndeclaredName(usize),
    // 6, torn
    MalformedBlock,
    // 7, setting
    BadSetting,
    // 8, swollen
    TooManyCopies,
    // 9, undecided: the lowest setting that may come and is not settled
    NotSettled(usize),
    // 10, looped
    NotStraight,
    // 11, short
    NoRoom,
    // 12, strangers
    InterfaceMismatch,
    // 13, order
    NotAPermutation,
}

// What an operation answers when it refuses nothing.
#[derive(Clone, Copy)]
pub struct Done {
    pub count: usize,
    pub detail: usize,
}

// What an operation answers.
pub type Answer = Result<Done, Refusal>;

// A row of the table of kinds: the least and the greatest operand count, the controlling value, what it forces, and the
// keyword's bytes, zero behind its end.
#[derive(Clone, Copy)]
pub struct Row {
    pub fewest: usize,
    pub most: usize,
    pub controlling: u8,
    pub forced: u8,
    pub keyword: [u8; 4],
}

// How an expression of a kind looks: the least and the greatest operand count, and the keyword's bytes, zero behind its
// end.
#[derive(Drop)]
pub struct Signature {
    pub fewest: usize,
    pub most: usize,
    pub keyword: [u8; 4],
}

// An answer for a caller in another language: its number (0 on success), count and detail.
#[repr(C)]
#[derive(Drop)]
pub struct Reply {
    pub number: usize,
    pub count: usize,
    pub detail: usize,
}

// A record of a sheet: the caller's mask of fixed inputs and of those at 1, and the answer's own refusal number (0 on
// success), mask of defined outputs and mask of outputs at 1.
#[repr(C)]
#[derive(Clone, Copy)]
pub struct Record {
    pub fixed: u16,
    pub ones: u16,
    pub number: u16,
    pub defined: u16,
    pub values: u16,
}
