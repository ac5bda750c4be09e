// The actions marked so far, in line in the work bytes, each to be gone through once.
ghost use Rattle.std.specs.Prelude.{◌≡◌, ◌<◌, ◌≤◌, Bool, length, nat_eq};
ghost use Rattle.std.specs.Fn.{FnReturnsAt};
ghost use Rattle.task.specs.Settings.{unmet};
ghost use Rattle.task.specs.Benches.{Act, act_of};
ghost use Rattle.task.specs.declared.data.Action.{Action};
ghost use Rattle.rules.specs.Marks.{Zeros};
ghost use Rattle.rules.specs.Sets.{called};
ghost use Rattle.rules.specs.Queues.{act_at, number_at, lined_up, calling, Line, Spread};

use task::{Action, Setting, achieves, first_unmet, interferes};

// Puts a number into line.
fn line_up(work: &mut [u8], place: usize, number: usize)
    requires { (length work.old ≡ 4096) × (place < 2048) × (number < 65536) }
    ensures { work.new ≡ lined_up work.old place number }
{
    let [low, high] = (number as u16).to_le_bytes();
    work[place] = low;
    work[2048 + place] = high;
}

// A bench's actions, of which the marked ones stand in line; those before the head have had their turn.
#[derive(Drop)]
pub(crate) struct Queue<'a, 'm, 'w> {
    actions: &'a [Action],
    marks: &'m mut [u8],
    work: &'w mut [u8],
    head: usize,
    tail: usize,
    ghost one_each: { length marks.now ≡ length actions.now },
    ghost in_line: { ∥ Line marks.now work.now tail ∥₁ },
    ghost passed: { head ≤ tail },
}

#[tactic(auto, using(crate::proofs::Lines::lines))]
impl<'a, 'm, 'w> Queue<'a, 'm, 'w> {
    ghost use Rattle.rules.specs.Members.{SameBytes, NoTurn, Joins, IsNext, StandStill};

    // No action is marked.
    pub(crate) fn none(actions: &'a [Action], marks: &'m mut [u8], work: &'w mut [u8]) -> Self
        requires { (length work.old ≡ 4096) × (length marks.old ≤ 1024) × (length marks.old ≡ length actions.now) × Zeros marks.old }
        ensures same { (result.marks.ghost_name ≡ marks.entry.ghost_name) × (result.work.ghost_name ≡ work.entry.ghost_name) }
        ensures empty { (result.actions.now ≡ actions.now) × (result.marks.now ≡ marks.old) × (result.work.now ≡ work.old) × (result.head ≡ 0) × (result.tail ≡ 0) }
    {
        Queue {
            actions,
            marks,
            work,
            head: 0,
            tail: 0,
        }
    }

    // Marks an action and puts it into line, unless it is marked already.
    fn join(&mut self, number: usize)
        requires { number < length self.old.marks.now }
        ensures same { NoTurn self.old self.new }
        ensures joined { Joins (nat_eq number) self.old self.new }
    {
        let Queue {
            marks,
            work,
            tail,
            ..
        } = self;
        if marks[number] == 1 {
            return;
        }
        marks[number] = 1;
        line_up(work, *tail, number);
        *tail += 1;
    }

    // Every action that passes the test joins.
    pub(crate) fn join_where<F: Fn(&Action) -> bool>(&mut self, test: F)
        requires { F.IsAlwaysCallable test }
        ensures same { NoTurn self.old self.new }
        ensures joined { (passes : Act → Bool) → ((a : Action) (r : Bool) → FnReturnsAt F.Fn test a r → r ≡ passes (act_of a)) → Joins (λ k. passes (act_at self.old.actions.now k)) self.old self.new }
    {
        let actions = self.actions;
        for (number, action) in actions.iter().enumerate() {
            if test(action) {
                self.join(number);
            }
        }
    }

    // Every action that the member calls for joins: the achievers of its first unmet condition or, where
    // all its conditions hold, its interferers.
    fn join_called(&mut self, member: &Action, setting: Setting)
        ensures same { NoTurn self.old self.new }
        ensures joined { Joins (λ k. called (unmet setting (act_of member.now).conditions) (act_of member.now) (act_at self.old.actions.now k)) self.old self.new }
    {
        match first_unmet(setting, member.conditions.list()) {
            Some(atom) => self.join_where(|action| achieves(action, atom)),
            None => self.join_where(|action| interferes(action, member)),
        }
    }

    // The number at the head of the line.
    fn front(&self) -> usize
        requires { self.now.head < self.now.tail }
        ensures number { result ≡ number_at self.now.work.now self.now.head }
        ensures low { result < length self.now.actions.now }
    {
        usize::from(u16::from_le_bytes([self.work[self.head], self.work[2048 + self.head]]))
    }

    // The next in line has its turn.
    fn next(&mut self) -> Option<&'a Action>
        ensures same { SameBytes self.old self.new }
        ensures still { StandStill self.old self.new }
        ensures turn { IsNext self.old result self.new }
    {
        if self.head == self.tail {
            return None;
        }
        let number = self.front();
        self.head += 1;
        Some(&self.actions[number])
    }

    // Goes along the line, each member once, until nobody joins any more.
    pub(crate) fn spread(&mut self, setting: Setting)
        requires { self.old.head ≡ 0 }
        ensures same { SameBytes self.old self.new }
        ensures spread { Spread (calling setting self.old.actions.now) self.old.marks.now self.new.marks.now }
    {
        while let Some(member) = self.next() {
            self.join_called(member, setting);
        }
    }
}
