//! The job of one unit.
ghost use Rattle.std.specs.Prelude.{◌≡◌, ◌∷◌, [], ◌++◌, IfOk, OnOk};
ghost use Rattle.em_plan.specs.Jobs.{earlier_ones, job_of, jobs_in, normal_ones, order_only_ones, pres, rising};
ghost use Rattle.em_plan.specs.Resuming.{numbers_in, open_in};

use crate::making::{Making, Need};
use crate::marks::{VisitMark, closed_numbers, numbers};
use crate::planned::{PlanJob, Pre};
use em_base::{NoMemory, Seq, Table, Text};
use std::alloc::Global;

/// The prerequisites that aren't open, and the numbers of their jobs in the same order.
#[derive(Drop)]
struct Needed {
    normal: Seq<Pre>,
    order: Seq<Pre>,
    jobs: Vec<u32>,
}

impl Needed {
    /// Appends the prerequisite, unless it is open.
    fn add(&mut self, alloc: Global, marks: &Table<VisitMark>, need: Need) -> Result<(), NoMemory>
        ensures normal { OnOk result (self.new.normal ≡ self.old.normal
            ++ pres (open_in marks.now) (numbers_in marks.now) (normal_ones (need ∷ []))) }
        ensures order { OnOk result (self.new.order ≡ self.old.order
            ++ pres (open_in marks.now) (numbers_in marks.now) (order_only_ones (need ∷ []))) }
        ensures jobs { OnOk result (self.new.jobs.items ≡ self.old.jobs.items
            ++ jobs_in (pres (open_in marks.now) (numbers_in marks.now) (need ∷ []))) }
    {
        let Some(jobs) = closed_numbers(alloc, marks, need.name.bytes())? else {
            return Ok(());
        };
        let Need { name, order } = need;
        self.jobs.extend_from_slice(jobs.items())?;
        if order {
            self.order.push(Pre { name, jobs })?;
        } else {
            self.normal.push(Pre { name, jobs })?;
        }
        Ok(())
    }
}

/// The prerequisites that aren't open.
fn remaining(alloc: Global, marks: &Table<VisitMark>, needs: Seq<Need>) -> Result<Needed, NoMemory>
    ensures normal { IfOk result (λ r. r.normal
        ≡ pres (open_in marks.now) (numbers_in marks.now) (normal_ones needs)) }
    ensures order { IfOk result (λ r. r.order
        ≡ pres (open_in marks.now) (numbers_in marks.now) (order_only_ones needs)) }
    ensures jobs { IfOk result (λ r. r.jobs.items
        ≡ jobs_in (pres (open_in marks.now) (numbers_in marks.now) needs)) }
{
    let mut some = Needed {
        normal: Seq::new(alloc),
        order: Seq::new(alloc),
        jobs: Vec::new(alloc),
    };
    for need in needs.into_vec() {
        some.add(alloc, marks, need)?;
    }
    Ok(some)
}

/// The numbers in rising order, once each.
fn rising(mut jobs: Vec<u32>) -> Seq<u32>
    ensures { result ≡ rising jobs.items }
{
    jobs.sort_unstable();
    jobs.dedup();
    Seq::from_vec(jobs)
}

/// Of a double-colon rule the numbers of the earlier ones for its name.
fn earlier<'a>(marks: &'a Table<VisitMark>, double: bool, name: &[u8]) -> &'a [u32]
    ensures { result.now ≡ earlier_ones double (numbers_in marks.now name.now) }
{
    if double { numbers(marks, name) } else { &[] }
}

/// The job of a unit whose prerequisites have been visited, while it is open: `trigger` is the name
/// from which the walk came to it.
pub(crate) fn job(
    alloc: Global,
    marks: &Table<VisitMark>,
    trigger: Text,
    needed_by: Option<Text>,
    making: Making,
) -> Result<PlanJob, NoMemory>
    ensures { IfOk result
        (λ j. j ≡ job_of (open_in marks.now) (numbers_in marks.now) trigger needed_by making) }
{
    let Making {
        targets,
        double,
        needs,
        stem,
        recipe,
        ruled,
        phony,
    } = making;
    let Needed {
        normal,
        order,
        mut jobs,
    } = remaining(alloc, marks, needs)?;
    jobs.extend_from_slice(earlier(marks, double, trigger.bytes()))?;
    Ok(PlanJob {
        target: trigger,
        targets,
        double,
        normal,
        order,
        stem,
        recipe,
        ruled,
        phony,
        needed_by,
        waits: rising(jobs),
    })
}
