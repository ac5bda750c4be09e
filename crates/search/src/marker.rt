// A rule, and the bytes in which it marks actions.
ghost use Rattle.std.specs.Prelude.{◌≡◌, ℕ, ◌<◌, ◌≤◌, length, take, drop};
ghost use Rattle.task.specs.Benches.{Lawful, SettingOf, bench_of};
ghost use Rattle.rules.specs.Marks.{Zeros};
ghost use Rattle.search.specs.Lending.{SameTable};
ghost use Rattle.search.specs.Counts.{Served, byte_marked};

use rules::Rule;
use task::{Action, Setting, Task};

// A rule, the bench that it is asked about, and the marks and work bytes that are lent to it.
#[derive(Drop)]
pub(crate) struct Marker<'l, 't, 'a, 'm, 'w, R: Rule> {
    pub(crate) rule: &'l R,
    pub(crate) task: &'t Task,
    pub(crate) actions: &'a [Action],
    pub(crate) marks: &'m mut [u8],
    pub(crate) work: &'w mut [u8],
    ghost served: { Served task.now.actions (length actions.now) (length marks.now) (length work.now) },
}

impl<R: Rule> Marker<'_, '_, '_, '_, '_, R> {
    // Marks the actions that the rule names, in the first bytes of the marks.
    pub(crate) fn mark(&mut self, setting: Setting)
        ensures marked { Lawful (bench_of self.old.task.now self.old.actions.now) → SettingOf (bench_of self.old.task.now self.old.actions.now) setting → (k : ℕ) → k < self.old.task.now.actions → byte_marked self.new.marks.now k ≡ (R.marking self.old.rule.now).marks (bench_of self.old.task.now self.old.actions.now) setting k }
        ensures clear { Zeros (take 4096 self.new.work.now) }
        ensures rest { (drop self.old.task.now.actions self.new.marks.now ≡ drop self.old.task.now.actions self.old.marks.now) × (drop 4096 self.new.work.now ≡ drop 4096 self.old.work.now) }
        ensures kept { SameTable self.old.marks self.new.marks × SameTable self.old.work self.new.work × (self.new.rule ≡ self.old.rule) × (self.new.task ≡ self.old.task) × (self.new.actions ≡ self.old.actions) }
    {
        let count = self.task.actions;
        let marks = &mut *self.marks;
        let work = &mut *self.work;
        self.rule.mark(
            self.task,
            self.actions,
            setting,
            &mut marks[0..count],
            &mut work[0..4096],
        );
    }
}
