// Atoms that wait in the work bytes, and the passes over the actions that serve them.
ghost use Rattle.std.specs.Prelude.{◌≡◌, ◌≤◌, length, None, nat_eq, slice_index};
ghost use Rattle.std.specs.List.{AllByRecursion};
ghost use Rattle.task.specs.Settings.{unmet, some_atom};
ghost use Rattle.task.specs.Benches.{act_of};
ghost use Rattle.rules.specs.Marks.{Zeros};
ghost use Rattle.rules.specs.Waits.{place, waits, due, beside, asks, Wrote, Passed, Swept};
ghost use Rattle.rules.specs.Collections.{first_of, Stays};

use task::{Action, Atom, Setting, first_unmet};

// The collections of waiting atoms, and the first byte of each: a byte for each of 64 variables and 32
// values.
#[derive(Clone, Copy)]
pub(crate) enum Collection {
    // The atoms whose achievers are called for.
    Achievers = 0,
    // The atoms whose dependers are.
    Dependers = 2048,
}

impl Collection {
    // The atom's byte.
    fn place(self, atom: Atom) -> usize
        ensures { result ≡ place (first_of self) atom }
    {
        self as usize + (32 * usize::from(atom.variable) + usize::from(atom.value))
    }
}

// The atoms that wait in a setting of a bench. Their work bytes are cleared when they are let go, on every
// way out.
pub(crate) struct Pending<'w> {
    work: &'w mut [u8],
    setting: Setting,
    // How many values each variable has.
    sizes: [u8; 64],
}

impl Drop for Pending<'_> {
    fn drop(self)
        ensures { Zeros self.exit.0.now }
    {
        let Pending {
            work: bytes,
            setting: _,
            sizes: _,
        } = self;
        bytes.fill(0);
    }
}

impl<'w> Pending<'w> {
    // No atom waits.
    pub(crate) fn none(work: &'w mut [u8], setting: Setting, sizes: [u8; 64]) -> Self
        ensures same { result.work.ghost_name ≡ work.entry.ghost_name }
        ensures as_many { length result.work.now ≡ length work.old }
        ensures clear { Zeros result.work.now }
        ensures bench { (result.setting ≡ setting) × (result.sizes ≡ sizes) }
    {
        work.fill(0);
        Pending {
            work,
            setting,
            sizes,
        }
    }

    // Lets an atom wait.
    pub(crate) fn ask(&mut self, collection: Collection, atom: Atom)
        ensures same { Stays self.old self.new }
        ensures wrote { Wrote (nat_eq (place (first_of collection) atom)) self.old.work.now self.new.work.now }
    {
        let at = collection.place(atom);
        // By its number: of what `get_mut` lends the library does not say what becomes of the slice.
        if at < self.work.len() {
            self.work[at] = 1;
        }
    }

    // How many values the variable has.
    fn values_of(&self, variable: u8) -> u8
        ensures { result ≡ slice_index self.now.sizes variable }
    {
        self.sizes.get(usize::from(variable)).copied().unwrap_or(0)
    }

    // Lets the atom's siblings wait.
    fn ask_siblings(&mut self, collection: Collection, atom: Atom)
        ensures same { Stays self.old self.new }
        ensures wrote { Wrote (beside self.old.sizes (first_of collection) atom) self.old.work.now self.new.work.now }
    {
        for value in 0..self.values_of(atom.variable) {
            if value != atom.value {
                self.ask(collection, Atom { value, ..atom });
            }
        }
    }

    // Lets the siblings of all the atoms wait.
    fn ask_all_siblings(&mut self, collection: Collection, atoms: &[Atom])
        ensures same { Stays self.old self.new }
        ensures wrote { Wrote (λ x. some_atom (λ a. beside self.old.sizes (first_of collection) a x) atoms.now) self.old.work.now self.new.work.now }
    {
        for atom in atoms {
            self.ask_siblings(collection, *atom);
        }
    }

    // Lets the atoms wait by which the member's interferers are known: the siblings of its conditions and
    // effects for achievers, and the siblings of its effects for dependers.
    fn ask_interferers(&mut self, member: &Action)
        ensures same { Stays self.old self.new }
        ensures wrote { Wrote (asks self.old.sizes None (act_of member.now)) self.old.work.now self.new.work.now }
    {
        self.ask_all_siblings(Collection::Achievers, member.conditions.list());
        self.ask_all_siblings(Collection::Achievers, member.effects.list());
        self.ask_all_siblings(Collection::Dependers, member.effects.list());
    }

    // Lets the atoms wait by which what the member calls for is known.
    fn ask_called(&mut self, member: &Action)
        ensures same { Stays self.old self.new }
        ensures wrote { Wrote (asks self.old.sizes (unmet self.old.setting (act_of member.now).conditions) (act_of member.now)) self.old.work.now self.new.work.now }
    {
        match first_unmet(self.setting, member.conditions.list()) {
            Some(atom) => self.ask(Collection::Achievers, atom),
            None => self.ask_interferers(member),
        }
    }

    // Does the atom wait in the collection?
    fn waits(&self, collection: Collection, atom: Atom) -> bool
        ensures { result ≡ waits self.now.work.now (first_of collection) atom }
    {
        self.work.get(collection.place(atom)) == Some(&1)
    }

    // Does one of the atoms wait?
    fn any_waits(&self, collection: Collection, atoms: &[Atom]) -> bool
        ensures { result ≡ some_atom (waits self.now.work.now (first_of collection)) atoms.now }
    {
        atoms.iter().any(|atom| self.waits(collection, *atom))
    }

    // Does the action achieve or depend on an atom that waits for that?
    fn is_due(&self, action: &Action) -> bool
        ensures { result ≡ due self.now.work.now (act_of action.now) }
    {
        self.any_waits(Collection::Achievers, action.effects.list())
            || self.any_waits(Collection::Dependers, action.conditions.list())
    }

    // Marks each action that is due and lets wait what it asks for; whether any was newly marked.
    fn pass(&mut self, actions: &[Action], marks: &mut [u8]) -> bool
        requires { (length marks.old ≡ length actions.now) × AllByRecursion (λ x. x ≤ 1) marks.old }
        ensures same { Stays self.old self.new }
        ensures passed { Passed self.old.sizes self.old.setting actions.now (length marks.old) marks.old self.old.work.now result marks.new self.new.work.now }
    {
        let mut more = false;
        // By number: of what `iter_mut` lends to a `zip` the library does not say what becomes of the marks.
        for (number, action) in actions.iter().enumerate() {
            if marks[number] == 0 && self.is_due(action) {
                marks[number] = 1;
                self.ask_called(action);
                more = true;
            }
        }
        more
    }

    // Passes over the actions until none is due any more.
    pub(crate) fn sweep(&mut self, actions: &[Action], marks: &mut [u8])
        requires { (length marks.old ≡ length actions.now) × AllByRecursion (λ x. x ≤ 1) marks.old }
        ensures same { Stays self.old self.new }
        ensures swept { Swept self.old.sizes self.old.setting actions.now marks.old self.old.work.now marks.new self.new.work.now }
    {
        while self.pass(actions, marks) {}
    }
}
