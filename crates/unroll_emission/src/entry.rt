// Words copied from one slice to another, some of them mapped through the table of newest copies.
ghost use Rattle.std.specs.Prelude.{◌≡◌, ◌+◌, ◌*◌, ◌≤◌, ◌<◌, length};
ghost use Rattle.std.proofs.lemmas.List.Edits.{sets};
ghost use Rattle.netlist.specs.StoredBlock.{gate_size};
ghost use Rattle.words_layout.specs.Bounds.{node_room};
ghost use Rattle.prelude.specs.Lists.{tab};
ghost use Rattle.unroll_emission.specs.Words.{word_from, EntryRoom};

use words_layout::fill::copy_slice;
use words_layout::nodes::{Nodes, gate_named};
use words_layout::offsets::GATE_SIZE;

// The five words of a gate or an output: where they stand, and which of them are mapped, from `first` on and below
// `last`.
#[derive(Clone, Copy)]
pub struct Entry {
    pub from: usize,
    pub first: usize,
    pub last: usize,
}

// A block, its nodes, and the table of the word that stands for each of its gates: while copies are made, that of the
// newest copy.
#[derive(Clone, Copy)]
pub struct Mapping<'a> {
    pub words: &'a [u16],
    pub nodes: Nodes,
    pub table: &'a [u16],
    ghost few: { nodes.inputs + nodes.gates ≤ node_room },
    ghost listed: { nodes.gates ≤ length table.now },
}

impl<'a> Mapping<'a> {
    ghost use Rattle.unroll_emission.specs.Mapping.{mapped_by, entry_word_by, entry_by, copy_by, CopyRoom};

    // The word of what stands for the node that `w` names: the table's for a gate; an input or a constant stands for
    // itself.
    fn mapped(&self, w: u16) -> u16
        ensures { result ≡ mapped_by self.now w }
    {
        match gate_named(w as usize, self.nodes.inputs, self.nodes.gates) {
            Some(k) => self.table[k],
            None => w,
        }
    }

    // Word `i` of the five words of a gate's or an output's entry, mapped where it names a node.
    fn entry_word(&self, entry: Entry, i: usize) -> u16
        requires { entry.from + i < length self.now.words.now }
        ensures { result ≡ entry_word_by self.now entry i }
    {
        let w = self.words[entry.from + i];
        if entry.first <= i {
            if i < entry.last {
                return self.mapped(w);
            }
        }
        w
    }

    // Copies the five words of an entry to place `to`.
    pub fn copy_entry(&self, entry: Entry, out: &mut [u16], to: usize)
        requires { EntryRoom self.now.words.now entry.from out.old to 1 }
        ensures { out.new ≡ sets out.old to (entry_by self.now entry) }
    {
        for i in 0..GATE_SIZE {
            let w = self.entry_word(entry, i);
            out[to + i] = w;
        }
    }

    // Writes gate `j` at place `t`, its operands mapped.
    pub fn write_gate(&self, j: usize, t: usize, out: &mut [u16])
        requires { (j < self.now.nodes.gates) × CopyRoom self.now (t + 1) out.old }
        ensures { out.new ≡ sets out.old (self.now.nodes.start + gate_size * t) (copy_by self.now j) }
    {
        let start = self.nodes.start;
        let from = start + GATE_SIZE * j;
        let count = self.words[from] as usize / 8;
        let last = 1 + count;
        self.copy_entry(
            Entry {
                from,
                first: 1,
                last,
            },
            out,
            start + GATE_SIZE * t,
        );
    }
}

// Copies `count` words from `at` on to the same place.
pub fn copy_words(words: &[u16], at: usize, count: usize, out: &mut [u16])
    requires { (at + count ≤ length words.now) × (at + count ≤ length out.old) }
    ensures { out.new ≡ sets out.old at (tab (word_from words.now at) count) }
{
    copy_slice(&words[at..at + count], &mut out[at..at + count]);
}
