// Atoms, actions, settings and benches: the data, and what it means.
#![tactic(auto)]

ghost use Rattle.std.specs.Prelude.{◌≡◌, ◌≤◌, [], ◌∷◌, ◌++◌, length, take, if◌then◌else◌, nat_lt, slice_index_or};
ghost use Rattle.task.specs.Settings.{listed, holding, met, unmet, assigned, sibling, some_atom, clash, outside};
ghost use Rattle.task.specs.Benches.{act_of, idle, interfering, alike, achieving};
ghost use Rattle.task.specs.Refusals.{number_of, layer_of, layer_number, refusal};

mod data;
mod refusal;

pub use data::{Action, Atom, Atoms, Task};
pub use refusal::{Fault, Layer, Refusal};

// A value for each of 64 variables; past a bench's last variable it is 0.
pub type Setting = [u8; 64];

impl<const N: usize> Atoms<N> {
    // No atoms.
    pub fn none() -> Self
        ensures { listed result ≡ [] }
    {
        let blank = Atom {
            variable: 0,
            value: 0,
        };
        Atoms {
            items: [blank; N],
            count: 0,
        }
    }

    // The atoms, in their order.
    pub fn list(&self) -> &[Atom]
        ensures { result.now ≡ listed self.now }
    {
        let all = &self.items[..];
        &all[0..self.count]
    }

    // One atom more at the end, if there is room.
    pub fn push(&mut self, atom: Atom) -> bool
        ensures room { result ≡ nat_lt (length (listed self.old)) N }
        ensures after { listed self.new ≡ (if result then listed self.old ++ atom ∷ [] else listed self.old) }
    {
        let at = self.count;
        if at >= N {
            return false;
        }
        self.items[at] = atom;
        self.count = at + 1;
        true
    }
}

impl<const N: usize> Default for Atoms<N> {
    ghost is_default = { λ a. listed a ≡ [] };

    fn default() -> Self {
        Atoms::none()
    }
}

// Nothing is taken, needed or set.
impl Default for Action {
    ghost is_default = { λ a. act_of a ≡ idle };

    fn default() -> Self {
        Action {
            tenths: 0,
            presses: 0,
            conditions: Atoms::default(),
            effects: Atoms::default(),
        }
    }
}

impl Fault {
    // The refusal for this fault at the place.
    pub fn at(self, place: usize) -> Refusal
        ensures { result ≡ refusal self place }
    {
        Refusal { fault: self, place }
    }

    // The layer that refuses with this fault.
    pub fn layer(self) -> Layer
        ensures { layer_number result ≡ layer_of self }
    {
        match self {
            Fault::CutShort
            | Fault::UnknownKind
            | Fault::OutOfPlace
            | Fault::WrongLength
            | Fault::TooMany
            | Fault::ValueCount
            | Fault::OutsideBench
            | Fault::NotRising
            | Fault::NoEffect
            | Fault::OverLimit
            | Fault::RepeatsCondition
            | Fault::NoGoal => Layer::Book,
            Fault::RowCount | Fault::ShortTable => Layer::Tables,
            Fault::StartOutside | Fault::NoPlan | Fault::NoStepLeft => Layer::Bench,
            Fault::BadLine | Fault::OutOfTurn | Fault::LongBook => Layer::Console,
        }
    }
}

impl Refusal {
    // The number under which the fault is reported.
    pub fn number(&self) -> u8
        ensures { result ≡ number_of self.now.fault }
    {
        self.fault as u8
    }

    // The number of the layer that refused.
    pub fn layer(&self) -> u8
        ensures { result ≡ layer_of self.now.fault }
    {
        self.fault.layer() as u8
    }
}

// Does the setting have the atom's value at its variable?
pub fn holds(setting: Setting, atom: Atom) -> bool
    ensures { result ≡ holding setting atom }
{
    let value = setting.get(atom.variable as usize).copied().unwrap_or(0);
    value == atom.value
}

// The first of the atoms that does not hold.
pub fn first_unmet(setting: Setting, atoms: &[Atom]) -> Option<Atom>
    ensures { result ≡ unmet setting atoms.now }
{
    // By the value: `holds` is handed a setting by value, and would copy it for each atom.
    let mut all = atoms.iter().copied();
    all.find(|atom| setting.get(atom.variable as usize).copied().unwrap_or(0) != atom.value)
}

// Do all of the action's conditions hold?
pub fn applicable(action: &Action, setting: Setting) -> bool
    ensures { result ≡ met setting (act_of action.now).conditions }
{
    first_unmet(setting, action.conditions.list()).is_none()
}

// Does the task's goal hold?
pub fn goal_holds(task: &Task, setting: Setting) -> bool
    ensures { result ≡ met setting (listed task.now.goal) }
{
    first_unmet(setting, task.goal.list()).is_none()
}

// The setting with each atom's value at its variable.
fn assign(setting: Setting, atoms: &[Atom]) -> Setting
    ensures { result ≡ assigned setting atoms.now }
{
    let mut next = setting;
    for atom in atoms {
        // A test and an index: the library says nothing of what a slice holds after `get_mut`.
        let at = atom.variable as usize;
        if at < 64 {
            next[at] = atom.value;
        }
    }
    next
}

// The setting with the action's effects; every other value stays.
pub fn successor(action: &Action, setting: Setting) -> Setting
    ensures { result ≡ assigned setting (act_of action.now).effects }
{
    assign(setting, action.effects.list())
}

// Do the atoms have the same variable at different values?
pub fn siblings(a: Atom, b: Atom) -> bool
    ensures { result ≡ sibling a b }
{
    a.variable == b.variable && a.value != b.value
}

// Is a sibling of the atom among the atoms?
fn has_sibling(atom: Atom, atoms: &[Atom]) -> bool
    ensures { result ≡ some_atom (sibling atom) atoms.now }
{
    atoms.iter().any(|other| siblings(atom, *other))
}

// Does an atom of the first list have a sibling in the second?
fn clashes(first: &[Atom], second: &[Atom]) -> bool
    ensures { result ≡ clash first.now second.now }
{
    first.iter().any(|atom| has_sibling(*atom, second))
}

// Is an effect of one action a sibling of a condition or an effect of the other?
pub fn interferes(a: &Action, b: &Action) -> bool
    ensures { result ≡ interfering (act_of a.now) (act_of b.now) }
{
    clashes(a.effects.list(), b.conditions.list())
        || clashes(a.effects.list(), b.effects.list())
        || clashes(b.effects.list(), a.conditions.list())
}

// How many values the variable has; past the last variable there is one, 0.
fn size_of(task: &Task, variable: usize) -> u8
    ensures { result ≡ slice_index_or (take task.now.variables task.now.sizes) variable 1 }
{
    let sizes = &task.sizes[..];
    sizes[0..task.variables].get(variable).copied().unwrap_or(1)
}

// Is the atom among the action's effects?
pub fn achieves(action: &Action, atom: Atom) -> bool
    ensures { result ≡ achieving (act_of action.now) atom }
{
    // Not by `contains`: over items of two bytes that looks at a whole block where the first may do.
    action.effects.list().iter().any(|effect| *effect == atom)
}

// The lowest variable whose value lies outside the bench: not below its number of values, or not 0 past
// the last variable.
pub fn first_outside(task: &Task, setting: Setting) -> Option<usize>
    ensures { result ≡ outside (take task.now.variables task.now.sizes) 0 setting }
{
    (0..64).find(|v| setting[*v] >= size_of(task, *v))
}
