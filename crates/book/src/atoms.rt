// Atoms as a book spells them.
ghost use Rattle.std.specs.Prelude.{◌≡◌, length};
ghost use Rattle.std.specs.Iterator.{YieldsFirst, item_count};
ghost use Rattle.task.specs.Settings.{some_atom};
ghost use Rattle.task.specs.Benches.{alike};
ghost use Rattle.book.specs.Atoms.{atoms_in, atoms_left};

use task::Atom;

// The atoms that bytes hold, two bytes for each: its variable and its value.
#[derive(Clone, Copy, Debug)]
pub(crate) struct AtomsIn<'a> {
    pub(crate) bytes: &'a [u8],
}

impl AtomsIn<'_> {
    // How many atoms there are.
    pub(crate) fn len(&self) -> usize
        ensures { result ≡ length (atoms_in self.now.bytes.now) }
    {
        self.bytes.len() / 2
    }

    // Is the atom among them?
    pub(crate) fn contains(mut self, atom: Atom) -> bool
        ensures { result ≡ some_atom (alike atom) (atoms_in self.entry.bytes.now) }
    {
        self.any(|other| atom == other)
    }
}

impl Iterator for AtomsIn<'_> {
    type Item = Atom;

    ghost next_gives = { YieldsFirst atoms_left };

    ghost remaining = { item_count atoms_left };

    fn next(&mut self) -> Option<Atom> {
        let [variable, value, rest @ ..] = self.bytes else {
            return None;
        };
        self.bytes = rest;
        Some(Atom {
            variable: *variable,
            value: *value,
        })
    }
}
