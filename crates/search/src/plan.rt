// The plan list.
ghost use Rattle.std.specs.Prelude.{◌≡◌, ◌≤◌, Bool, reverse, length, take, drop};
ghost use Rattle.search.specs.Rows.{row, plan_of};
ghost use Rattle.search.specs.Left.{Written};

use crate::data::Row;

// The row from which a row was reached, and the action between.
#[derive(Clone, Copy, Default)]
struct Hop {
    origin: u16,
    action: u16,
}

// The hop that led to a row; past the last row, action 0 from row 0.
fn hop_to<C: Copy>(rows: &[Row<C>], at: usize) -> Hop
    ensures { (zero : C) (le : C → C → Bool) → (result.origin ≡ (row zero le rows.now at).origin) × (result.action ≡ (row zero le rows.now at).action) }
{
    rows.get(at).map_or(
        Hop::default(),
        |row| Hop {
            origin: row.origin,
            action: row.action,
        },
    )
}

// Writes the actions that lead to a row, the last one first, into the first places of the plan list, and
// answers how many they are. It follows the origins back to row 0, or through as many as there are rows.
fn write_back<C: Copy>(rows: &[Row<C>], goal: usize, plan: &mut [u16]) -> usize
    requires { length rows.now ≤ length plan.old }
    ensures few { result ≤ length rows.now }
    ensures plan { (zero : C) (le : C → C → Bool) → reverse (take result plan.new) ≡ plan_of zero le rows.now goal }
    ensures rest { drop result plan.new ≡ drop result plan.old }
{
    let mut at = goal;
    // Places by their numbers: of what is written through `iter_mut` only the length is known afterwards.
    for count in 0..rows.len() {
        if at == 0 {
            return count;
        }
        let hop = hop_to(rows, at);
        plan[count] = hop.action;
        at = hop.origin as usize;
    }
    rows.len()
}

// The same in the order of the plan.
pub(crate) fn write_plan<C: Copy>(rows: &[Row<C>], goal: usize, plan: &mut [u16]) -> usize
    requires { length rows.now ≤ length plan.old }
    ensures few { result ≤ length rows.now }
    ensures count { (zero : C) (le : C → C → Bool) → result ≡ length (plan_of zero le rows.now goal) }
    ensures written { (zero : C) (le : C → C → Bool) → Written (plan_of zero le rows.now goal) plan.old plan.new }
{
    let count = write_back(rows, goal, plan);
    plan[..count].reverse();
    count
}
