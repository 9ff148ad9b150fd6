// The kinds (SPECIFICATION 3.2): the table of controlling values, and every kind's operand counts and keyword. Code
// reads them here. A kind is its number here and in every crate above, and no enum: the stored block has the number, and
// the definitions of the table and of each gate speak of it, so that an enum would be turned into it at each use.
ghost use Rattle.std.specs.Prelude.{◌≡◌, ◌≤◌};
ghost use Rattle.netlist.specs.Kinds.{row_of, signature_of, fewest_operands, most_operands};

use netlist::{Row, Signature};

// The rows of and, or, nand, nor.
pub const ROWS: [Row; 4] = [
    Row {
        fewest: 2,
        most: 4,
        controlling: 0,
        forced: 0, // and
        keyword: [b'a', b'n', b'd', 0],
    },
    Row {
        fewest: 2,
        most: 4,
        controlling: 1,
        forced: 1, // or
        keyword: [b'o', b'r', 0, 0],
    },
    Row {
        fewest: 2,
        most: 4,
        controlling: 0,
        forced: 1, // nand
        keyword: [b'n', b'a', b'n', b'd'],
    },
    Row {
        fewest: 2,
        most: 4,
        controlling: 1,
        forced: 0, // nor
        keyword: [b'n', b'o', b'r', 0],
    },
];

// `not`, `xor` and `xnor` have no controlling value.
pub const NOT: Signature = Signature {
    fewest: 1,
    most: 1,
    keyword: [b'n', b'o', b't', 0],
};

pub const XOR: Signature = Signature {
    fewest: 2, // xor
    most: 4, // xor
    keyword: [b'x', b'o', b'r', 0],
};

pub const XNOR: Signature = Signature {
    fewest: 2,
    most: 4,
    keyword: [b'x', b'n', b'o', b'r'],
};

// The row of a kind other than `not`; all zero where the kind has none.
pub fn row_of(kind: usize) -> Row
    ensures { 1 ≤ kind → result ≡ row_of kind }
{
    match kind {
        1 | 2 | 3 | 4 => ROWS[kind - 1],
        _ => Row {
            fewest: 0,
            most: 0,
            controlling: 0,
            forced: 0,
            keyword: [0, 0, 0, 0],
        },
    }
}

// The operand counts and the keyword of a kind; all zero where there is none of that number.
pub fn signature_of(kind: usize) -> Signature
    ensures { result ≡ signature_of kind }
{
    if kind == 0 {
        return NOT;
    }
    if kind == 5 {
        return XOR;
    }
    if kind == 6 {
        return XNOR;
    }
    let row = row_of(kind);
    let keyword = row.keyword;
    // A row has two values more; no other place makes a signature of one.
    Signature {
        fewest: row.fewest,
        most: row.most,
        keyword,
    }
}

pub fn fewest_operands(kind: usize) -> usize
    ensures { result ≡ fewest_operands kind }
{
    signature_of(kind).fewest
}

pub fn most_operands(kind: usize) -> usize
    ensures { result ≡ most_operands kind }
{
    signature_of(kind).most
}
