//! What the headline comes to: laws of its definitions. Each function's contract is the law, and it
//! does nothing.
ghost use Rattle.std.specs.Prelude.{◌≡◌, ◌≢◌, ◌++◌, List, [], ℕ, true, false, Some, None, Ok, Err, IsSome};
ghost use Rattle.std.specs.FinMap.{get, insert};
ghost use Rattle.em_host.specs.Calls.{printed_by};
ghost use Rattle.em_host.specs.Outside.{Files, Outside};
ghost use Rattle.em_tree.specs.Trees.{Table};
ghost use Rattle.em_image.specs.Image.{broken, image_text, limits};
ghost use Rattle.em_engine.specs.declared.note.Note.{Note};
ghost use Rattle.em_cmdline.specs.declared.order.HistoryMode.TheVariants as mode;
ghost use Rattle.em_cmdline.specs.Words.{order_of, refusal};
ghost use Rattle.em_cmdline.specs.Pages.{page_in};
ghost use Rattle.em_program.specs.declared.rounds.BuildStep.{BuildStep};
ghost use Rattle.em_program.specs.declared.verdict.BuildStatus.{BuildStatus};
ghost use Rattle.em_program.specs.Endings.{ended};
ghost use Rattle.em_program.specs.Headline.{Headline, first_in};
ghost use Rattle.em_program.specs.Rounds.{Build, by_goals, final, goes_on};
ghost use Rattle.em_program.specs.declared.project.Project.{Project};
ghost use Rattle.em_program.specs.declared.site.Site.{Site};
ghost use Rattle.em_reader.specs.declared.makefiles.Round.{Round};
ghost use Rattle.em_remake.specs.Remaking.{goals_of};
ghost use Rattle.em_program_laws.specs.Laws.{files_left, status_in, tree_left, IsOther, AreSeenAlike, AreMadeAlike, IsSameEnd};

/// A file of the host that the words name neither as the image nor as the history nor as the report
/// is as it was before, whatever the jobs made.
pub fn law_others_stay()
    ensures { (words : List (List ℕ)) (builds : List Build) (files : Files)
        (name : List ℕ) → IsOther (order_of words) name
        → get (files_left words builds files) name ≡ get files name }
{}

/// All files of the host are as before where something is refused: the words, the image, the
/// directory, a makefile, a round or a plan, also behind builds that ran. So are they where a page
/// or an explanation is asked for; of a generated project; and under `-q`.
pub fn law_nothing_replaced()
    ensures refused { (words : List (List ℕ)) (builds : List Build) (files : Files)
        (verdict : BuildStatus) → (ended words builds files).end ≡ Err verdict
        → files_left words builds files ≡ files }
    ensures unordered { (words : List (List ℕ)) (builds : List Build) (files : Files)
        → IsSome (refusal words) → files_left words builds files ≡ files }
    ensures page { (words : List (List ℕ)) (builds : List Build) (files : Files)
        → IsSome (page_in words) → files_left words builds files ≡ files }
    ensures explained { (words : List (List ℕ)) (builds : List Build) (files : Files)
        → IsSome (order_of words).explain → files_left words builds files ≡ files }
    ensures generated { (words : List (List ℕ)) (builds : List Build) (files : Files)
        → IsSome (order_of words).generate → files_left words builds files ≡ files }
    ensures asked { (words : List (List ℕ)) (builds : List Build) (files : Files)
        → (order_of words).question ≡ true → files_left words builds files ≡ files }
{}

/// In the mode `read` the history's file is as it was before.
pub fn law_history_read()
    ensures { (words : List (List ℕ)) (builds : List Build) (files : Files) (name : List ℕ)
        → (order_of words).mode ≡ mode.Read → (order_of words).history ≡ Some name
        → get (files_left words builds files) name ≡ get files name }
{}

/// The status is 1 only where the words are in order and have `-q`.
pub fn law_status_asked()
    ensures question { (words : List (List ℕ)) (builds : List Build) (files : Files)
        → status_in words builds files ≡ 1 → (order_of words).question ≡ true }
    ensures ordered { (words : List (List ℕ)) (builds : List Build) (files : Files)
        → status_in words builds files ≡ 1 → refusal words ≡ None }
{}

/// Of the host's files only the image, and the report that is to be explained, bear on what is
/// printed, on the status and on the new image; and so don't the notes of the jobs that were made.
/// So with other bytes in the history's file all three are the same.
pub fn law_unseen()
    ensures seen { (words : List (List ℕ)) (builds others : List Build) (f g : Files)
        → AreMadeAlike builds others → AreSeenAlike (order_of words) f g
        → IsSameEnd words builds others f g }
    ensures history { (words : List (List ℕ)) (builds others : List Build) (files : Files)
        (name bytes : List ℕ) → AreMadeAlike builds others → refusal words ≡ None
        → (order_of words).history ≡ Some name → (order_of words).explain ≢ Some name
        → IsSameEnd words builds others files (insert files name bytes) }
{}

/// The headline in four sentences, where the status is neither 3 nor 7. The printed bytes grew by
/// exactly what the ending says; the status is the ending's; and the image that the words name is
/// the text of the tree that the last build leaves, or as before where that breaks a limit. There
/// is such a tree wherever nothing was refused.
pub fn law_headline()
    ensures printed { (words : List (List ℕ)) (status : ℕ) (notes : List Note)
        (before after : Outside) (h : Headline words status notes before after)
        → status ≢ 3 → status ≢ 7 → after.printed ≡ before.printed
        ++ printed_by (ended words h.builds before.files).calls }
    ensures status { (words : List (List ℕ)) (status : ℕ) (notes : List Note)
        (before after : Outside) (h : Headline words status notes before after)
        → status ≢ 3 → status ≢ 7 → status ≡ status_in words h.builds before.files }
    ensures image { (words : List (List ℕ)) (status : ℕ) (notes : List Note)
        (before after : Outside) (h : Headline words status notes before after) (st : BuildStep)
        (t : Table) (name : List ℕ) → status ≢ 3 → status ≢ 7
        → first_in words before.files ≡ Ok st → tree_left h.builds st ≡ Some t
        → (order_of words).image ≡ Some name → (order_of words).question ≡ false
        → broken limits t ≡ None → get after.files name ≡ Some (image_text t) }
    ensures limit { (words : List (List ℕ)) (status : ℕ) (notes : List Note)
        (before after : Outside) (h : Headline words status notes before after) (st : BuildStep)
        (t : Table) (name : List ℕ) → status ≢ 3 → status ≢ 7
        → first_in words before.files ≡ Ok st → tree_left h.builds st ≡ Some t
        → (order_of words).image ≡ Some name → (order_of words).question ≡ false
        → IsSome (broken limits t) → get after.files name ≡ get before.files name }
    ensures tree { (words : List (List ℕ)) (status : ℕ) (notes : List Note)
        (before after : Outside) (h : Headline words status notes before after) (st : BuildStep)
        (verdict : BuildStatus) → status ≢ 3 → status ≢ 7 → first_in words before.files ≡ Ok st
        → (ended words h.builds before.files).end ≡ Ok verdict
        → IsSome (tree_left h.builds st) }
{}

/// Where no makefile is a goal there are no rounds: behind the reading what is built are the goals,
/// and nothing is built behind them.
pub fn law_no_rounds()
    ensures first { (left : ℕ) (s : Site) (cwd : List ℕ) (r : Round)
        → goals_of r s.start.tree cwd ≡ []
        → by_goals left s cwd r (goals_of r s.start.tree cwd) ≡ final s cwd r }
    ensures last { (p : Project) (b : Build)
        → goes_on (record { project = p; remaking = None }) b ≡ None }
{}
