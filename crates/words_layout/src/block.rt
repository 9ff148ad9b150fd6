// A stored block: words that are known to be well formed.
ghost use Rattle.std.specs.Prelude.{◌≡◌, false};
ghost use Rattle.netlist.specs.StoredBlock.{is_malformed};

// The words of a block: whoever has one knows that they keep every rule of the stored format. Contracts name the field:
// with the words as its model the struct could not be copied, and each proof would go from the field to the model.
#[derive(Clone, Copy)]
pub struct Block<'a> {
    pub words: &'a [u16],
    ghost well_formed: { is_malformed words.now ≡ false },
}
