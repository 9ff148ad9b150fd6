// Pieces of one kind, appended one after the other.
ghost use Rattle.std.specs.Prelude.{ℕ, List, ◌<◌};
ghost use Rattle.text_pieces.specs.Pieces.{Appended, Short, pieces};

// Appends `count` pieces: `put` appends piece i where the one before it ended, and gives its end.
pub fn put_each<F: Fn(&mut [u8], usize, usize) -> usize>(
    text: &mut [u8],
    at: usize,
    count: usize,
    put: F,
) -> usize
    ghost piece: { ℕ → List ℕ }
    requires short { Short (pieces piece count) at }
    requires callable { (t : _) (e i : ℕ) → i < count → Short (piece i) e → F.pre put t e i }
    requires puts { (t : _) (e i r : ℕ) (u : _) → i < count → Short (piece i) e → F.post put t e i r u
        → Appended (piece i) t.now e u.now r }
    ensures { Appended (pieces piece count) text.old at text.new result }
{
    let mut end = at;
    for i in 0..count {
        end = put(text, end, i);
    }
    end
}
