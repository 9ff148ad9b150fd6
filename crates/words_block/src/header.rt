// The rule of a block's head: its length and the limits (SPECIFICATION 2.4).
ghost use Rattle.std.specs.Prelude.{◌≡◌};
ghost use Rattle.theory_encoding.specs.Rules.{header_rule};

use words_layout::limits::{MAX_GATES, MAX_INPUTS, MAX_NEVERS, MAX_OUTPUTS};
use words_layout::offsets::{
    INPUTS_AT, OUTPUT_SIZE, gates_of, inputs_of, nevers_of, outputs_behind, outputs_of,
};

// Are the words exactly as many as the counts say, and the counts within the limits?
pub fn fits(words: &[u16]) -> bool
    ensures { result ≡ header_rule words.now }
{
    let n = inputs_of(words);
    let m = gates_of(words);
    let k = outputs_of(words);
    let l = nevers_of(words);
    let length = words.len();
    if length < INPUTS_AT {
        return false;
    }
    if MAX_INPUTS < n {
        return false;
    }
    if MAX_GATES < m {
        return false;
    }
    if MAX_OUTPUTS < k {
        return false;
    }
    if MAX_NEVERS < l {
        return false;
    }
    length == outputs_behind(n, l, m) + OUTPUT_SIZE * k
}
