//! Laws of the definitions: each function's contract is the law, and its body is empty.
ghost use Rattle.std.specs.Prelude.{◌≡◌, ◌⊎◌, ◌<◌, ◌≤◌, ◌∷◌, length, Bool, Err, ℕ, List, [], Ok, Some, All, slice_get, false, true};
ghost use Rattle.std.specs.List.{Contains};
ghost use Rattle.std.specs.List.Sorted.{IsStrictlySortedBy};
ghost use Rattle.std.specs.Ordering.{nat_cmp};
ghost use Rattle.em_rules.specs.declared.book.Book.{Book};
ghost use Rattle.em_rules.specs.declared.rule.Rule.{Rule};
ghost use Rattle.em_rules.specs.Groups.{is_grouped_kind};
ghost use Rattle.em_tree.specs.Trees.{Table};
ghost use Rattle.em_implicit.specs.Asking.{told};
ghost use Rattle.em_implicit.specs.Seeking.{stands};
ghost use Rattle.em_plan.specs.declared.making.Making.{Making};
ghost use Rattle.em_plan.specs.declared.planned.Plan.{Plan};
ghost use Rattle.em_plan.specs.declared.planned.PlanJob.{PlanJob};
ghost use Rattle.em_plan.specs.declared.walk.Walked.{Walked};
ghost use Rattle.em_plan.specs.Makings.{making_of};
ghost use Rattle.em_plan.specs.Once.{each_once};
ghost use Rattle.em_plan.specs.Order.{finish, is_open, limit, numbered, Open, opened, Says, units_left, visit, with_job};
ghost use Rattle.em_plan.specs.Plans.{plan_for, plan_of};
ghost use Rattle.em_plan.specs.Reached.{IsPlain, Overfull, Reached};
ghost use Rattle.em_plan.specs.Serial.{StandsBefore};
ghost use Rattle.em_plan.specs.Units.{IsUnits};
ghost use Rattle.em_plan.specs.Walking.{asking, plan_asking, visiting};

use crate::no::PlanNo;

/// What makefiles say keeps to this: a unit's targets hold its name, and else none that is known; a
/// name has units, how many doesn't hang on what is known, and several of them are double-colon
/// rules, which make the name alone.
pub fn law_units()
    ensures { (rules patterns : List Rule) (tree : Table) (cwd : List ℕ)
        → IsUnits (making_of rules patterns tree cwd) }
{}

/// What is known makes no difference to the units, where no rule is a grouped one and no pattern
/// rule has several targets.
pub fn law_plain()
    ensures { (rules patterns : List Rule) (tree : Table) (cwd : List ℕ)
        → All (λ r. is_grouped_kind r.kind ≡ false) rules
        → All (λ r. length r.targets < 2) patterns
        → IsPlain (making_of rules patterns tree cwd) }
{}

/// In a plan the jobs of each prerequisite that wasn't dropped stand before the job that needs it,
/// and have the prerequisite among their targets. That there are any is said by `law_dropped`.
pub fn law_prerequisites_stand_before()
    ensures normal { (says : Says) (goals : List (List ℕ)) (p : Plan)
        → plan_for says goals ≡ Ok p
        → (k : ℕ) (job : PlanJob) → slice_get p.jobs k ≡ Some job
        → All (StandsBefore p.jobs k) job.normal }
    ensures order { (says : Says) (goals : List (List ℕ)) (p : Plan)
        → plan_for says goals ≡ Ok p
        → (k : ℕ) (job : PlanJob) → slice_get p.jobs k ≡ Some job
        → All (StandsBefore p.jobs k) job.order }
{}

/// The jobs that a job waits for rise, and stand before it.
pub fn law_waits()
    ensures rise { (says : Says) (goals : List (List ℕ)) (p : Plan)
        → plan_for says goals ≡ Ok p
        → (k : ℕ) (job : PlanJob) → slice_get p.jobs k ≡ Some job
        → IsStrictlySortedBy nat_cmp job.waits }
    ensures below { (says : Says) (goals : List (List ℕ)) (p : Plan)
        → plan_for says goals ≡ Ok p
        → (k : ℕ) (job : PlanJob) → slice_get p.jobs k ≡ Some job
        → (i : ℕ) → Contains job.waits i → i < k }
{}

/// Two jobs to which the walk came at one name are both of double-colon rules.
pub fn law_once()
    ensures { (says : Says) (goals : List (List ℕ)) (p : Plan)
        → IsUnits says → plan_for says goals ≡ Ok p
        → (i k : ℕ) (a b : PlanJob) → slice_get p.jobs i ≡ Some a → slice_get p.jobs k ≡ Some b
        → i < k → a.target ≡ b.target → (a.double ≡ true) × (b.double ≡ true) }
{}

/// Without circles nothing is said: where names can be ranked so that each prerequisite of a unit
/// has a lower rank than the unit's name and targets.
pub fn law_without_circles()
    ensures { (says : Says) (rank : List ℕ → ℕ)
        → ((known : List ℕ → Bool) (n : List ℕ) → All (λ m. All (λ x. (rank x.name < rank n)
        × All (λ t. rank x.name < rank t) m.targets) m.needs) (says known n))
        → (goals : List (List ℕ)) (p : Plan) → plan_for says goals ≡ Ok p → p.notes ≡ [] }
{}

/// What was dropped was on the walk's stack: when a unit gets its number, each unit of each of its
/// prerequisites has one, or the prerequisite is open.
pub fn law_dropped()
    ensures { (says : Says) (left : ℕ) (stack : List Open) (n : List ℕ) (m : Making) (w v : Walked)
        → IsUnits says
        → finish (visit says left (opened n m ∷ stack)) (opened n m) stack m m.needs w ≡ Ok v
        → (last : Walked) × (v ≡ with_job (opened n m) stack m last)
        × All (λ x. (is_open (opened n m ∷ stack) x.name ≡ true)
        ⊎ (units_left says (opened n m ∷ stack) last x.name ≡ [])) m.needs }
{}

/// A plan has jobs only for names that the goals reach: those that are in every set of names that
/// has the goals and, with a name, the targets and prerequisites of its units. Where what is known
/// makes no difference to the units it has jobs for each such name.
pub fn law_reached()
    ensures only { (says : Says) (goals : List (List ℕ)) (p : Plan)
        → plan_for says goals ≡ Ok p
        → (n : List ℕ) → numbered p.jobs n ≡ true → Reached says (each_once [] goals) n }
    ensures each { (says : Says) (goals : List (List ℕ)) (p : Plan)
        → IsUnits says → IsPlain says → plan_for says goals ≡ Ok p
        → (n : List ℕ) → Reached says (each_once [] goals) n → numbered p.jobs n ≡ true }
{}

/// A plan has at most 65,536 jobs, and where there are too many, more units than that are reached:
/// here they are.
pub fn law_limit()
    ensures few { (says : Says) (goals : List (List ℕ)) (p : Plan)
        → plan_for says goals ≡ Ok p
        → length p.jobs ≤ limit }
    ensures many { (says : Says) (goals : List (List ℕ)) → IsUnits says
        → plan_for says goals ≡ Err PlanNo.TooManyJobs
        → Overfull says (Reached says (each_once [] goals)) }
{}

/// By the answers of a tree the walk as questions goes as it does there, and its plan is the plan.
pub fn law_planning()
    ensures walk { (rules patterns : List Rule) (tree : Table) (cwd : List ℕ) (left : ℕ)
        (stack : List Open) (w : Walked) (n : List ℕ)
        → told (stands tree) (visiting (asking rules patterns cwd) left stack w n)
        ≡ visit (making_of rules patterns tree cwd) left stack w n }
    ensures plan { (book : Book) (goals : List (List ℕ)) (tree : Table) (cwd : List ℕ)
        → told (stands tree) (plan_asking book goals cwd) ≡ plan_of book goals tree cwd }
{}
