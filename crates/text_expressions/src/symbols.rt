// The table of declared names, which the readers of a text are lent.
ghost use Rattle.std.specs.Prelude.{◌≡◌, length};
ghost use Rattle.text_names.specs.Index.{Indexed};

// The table of declared names: their numbers, the words of their nodes, and the index that holds the names. A reader is
// lent it beside the bytes left and what is unknown so far, which are others at each call: one value of the three would
// be made anew for each.
#[derive(Clone, Copy)]
pub struct Symbols<'a> {
    pub names: &'a [u64],
    pub words: &'a [u16],
    pub index: &'a [u16],
    ghost sized: { length words.now ≡ length names.now },
    ghost indexed: { ∥ Indexed names.now (length names.now) index.now ∥₁ },
}
