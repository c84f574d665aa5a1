//! One case or the cases of tasks, from their bytes.
ghost use Rattle.std.specs.Prelude.{◌≡◌, ◌≤◌, length, map, IfOk};
ghost use Rattle.serde_json.specs.View.{view};
ghost use Rattle.rd_base.specs.Results.{Gives, map_fault};
ghost use Rattle.case_reader.specs.Case.{case_of, data_of};
ghost use Rattle.case_reader.specs.Tasks.{tasks_in, cases_in, many_of, one_of, tasks_at, tasks_data, AreFew};
ghost use Rattle.case_reader.specs.declared.fault.TaskFault.TheVariants.{Task};

use crate::case::{Case, Tasks};
use crate::fault::{CaseFault, Key, TaskFault};
use crate::field::array_of;
use crate::parsing::{case_of_tree, has_tasks, tree_of_bytes};
use rd_base::MAX_TASKS;
use serde_json::Value;
use std::alloc::Global;

/// Reads one case, or under the key `tasks` the cases of 1 to 8 tasks, none of which has that key.
///
/// What comes back is what the bytes hold. A fault is the first rule that is broken: of the whole text (`Whole`), which is that of a
/// case, or that `tasks` is no array (`WrongType`) or has no element or more than 8 (`OutOfRange`); or of the first task that has one
/// (`Task`, with the task's number from 1), as of its case alone. `Memory` comes if memory ran out.
#[tactic(auto, using(crate::proofs::TaskLemmas::whole_rules), unfolding(crate::specs::Tasks::tasks_at))]
pub fn read_tasks(alloc: Global, bytes: &[u8]) -> Result<Tasks, TaskFault>
    ensures value { Gives TaskFault.Memory tasks_data result (tasks_at bytes.now) }
    ensures few { IfOk result AreFew }
{
    let tree = tree_of_bytes(alloc, bytes)?;
    if has_tasks(&tree) {
        many_of(alloc, &tree)
    } else {
        one_of(alloc, &tree)
    }
}

#[tactic(auto, using(crate::proofs::TaskLemmas::whole_rules), unfolding(crate::specs::Tasks::one_of))]
fn one_of(alloc: Global, tree: &Value) -> Result<Tasks, TaskFault>
    ensures value { Gives TaskFault.Memory tasks_data result (one_of (view tree.now)) }
    ensures few { IfOk result AreFew }
{
    Ok(Tasks::One(case_of_tree(alloc, tree)?))
}

#[tactic(auto, using(crate::proofs::TaskLemmas::whole_rules), unfolding(crate::specs::Tasks::many_of))]
fn many_of(alloc: Global, tree: &Value) -> Result<Tasks, TaskFault>
    ensures value { Gives TaskFault.Memory tasks_data result (many_of (view tree.now)) }
    ensures few { IfOk result AreFew }
{
    let tasks = elements_of(tree)?;
    Ok(Tasks::Many(cases_of(alloc, tasks)?))
}

#[tactic(auto, unfolding(crate::specs::Tasks::tasks_in))]
fn elements_of(tree: &Value) -> Result<&[Value], CaseFault>
    ensures value { Gives CaseFault.Memory (λ tasks. map view tasks.now) result (tasks_in (view tree.now)) }
    ensures some { IfOk result (λ tasks. 1 ≤ length tasks.now) }
    ensures few { IfOk result (λ tasks. length tasks.now ≤ 8) }
{
    let tasks = array_of(tree, Key::Tasks)?;
    if 1 <= tasks.len() && tasks.len() <= MAX_TASKS {
        Ok(tasks)
    } else {
        Err(CaseFault::OutOfRange(Key::Tasks))
    }
}

/// The cases of tasks, which are numbered from 1.
fn cases_of(alloc: Global, tasks: &[Value]) -> Result<Vec<Case>, TaskFault>
    requires { length tasks.now ≤ 8 }
    ensures value { Gives TaskFault.Memory (λ cases. map data_of cases.items) result (cases_in 1 (map view tasks.now)) }
    ensures count { IfOk result (λ cases. length cases.items ≡ length tasks.now) }
{
    let mut cases = Vec::new(alloc);
    'tasks: for (i, task) in tasks.iter().enumerate() {
        match case_of_task(alloc, i as u32 + 1, task) {
            Ok(case) => cases.push(case)?,
            Err(fault) => return Err(fault),
        }
    }
    Ok(cases)
}

/// The case of the task of this number.
fn case_of_task(alloc: Global, number: u32, task: &Value) -> Result<Case, TaskFault>
    ensures { Gives TaskFault.Memory data_of result (map_fault (Task number) (case_of (view task.now))) }
{
    match case_of_tree(alloc, task) {
        Ok(case) => Ok(case),
        Err(CaseFault::Memory) => Err(TaskFault::Memory),
        Err(fault) => Err(TaskFault::Task(number, fault)),
    }
}
