//! Redirections, and where what is written goes: each function's contract is the law.
ghost use Rattle.std.specs.Prelude.{
  ◌≡◌,
  ◌≢◌,
  ◌++◌,
  ◌∷◌,
  ℕ,
  [],
  List,
  map,
  codes,
  not,
  Some,
  Ok,
  Result,
};
ghost use Rattle.std.specs.List.{filter};
ghost use Rattle.em_view.specs.declared.done.Piece.{Piece};
ghost use Rattle.em_view.specs.declared.done.ExecNo.{ExecNo};
ghost use Rattle.em_view.specs.Actions.{Oracle, Workspace};
ghost use Rattle.em_view.specs.Rows.{content, content_below};
ghost use Rattle.em_syntax.specs.declared.tree.Compound.{Compound};
ghost use Rattle.em_syntax.specs.declared.tree.Redirect.{Redirect, out-Redirect};
ghost use Rattle.em_syntax.specs.declared.tree.RedirectKind.TheVariants.{Duplicate};
ghost use Rattle.em_word.specs.Literal.{literal_of};
ghost use Rattle.em_command.specs.declared.jump.Jump.{Jump};
ghost use Rattle.em_command.specs.declared.jump.Jump.TheVariants.{End};
ghost use Rattle.em_command.specs.declared.here.Here.{Here};
ghost use Rattle.em_command.specs.declared.here.Scene.{Scene};
ghost use Rattle.em_command.specs.declared.streams.OpenedFile.{OpenedFile};
ghost use Rattle.em_command.specs.declared.streams.Streams.{Streams};
ghost use Rattle.em_command.specs.Heres.{piece, written};
ghost use Rattle.em_command.specs.Streams.{around};
ghost use Rattle.em_command.specs.Delivering.{handed, texts_for, appended, delivered};
ghost use Rattle.em_exec.specs.Copies.{unwritten};
ghost use Rattle.em_exec.specs.Words.{Deeper};
ghost use Rattle.em_exec.specs.Running.{redirect_one, redirects, within_streams, compound_of};
ghost use Rattle.em_exec.specs.Running as running;
ghost use Rattle.em_shell_laws.specs.Ends.{Ends, Leaves, Comes, HasEnd};
ghost use Rattle.em_shell_laws.specs.Pipes.{said, said_on, beside};
ghost use Rattle.em_shell_laws.specs.Redirections.{
  Is,
  Empties,
  Finds,
  IsTwoToOne,
  into,
  both_into,
  apart_into,
  HasNoLinks,
  Holds,
};

/// Redirections act from left to right. With `> f 2>&1` both streams go to f; with `2>&1 > f`
/// stream 2 goes where stream 1 went before, and stream 1 to f. So from a command with the first
/// all that it wrote is for f, in its order, and nothing goes on. With the second, and no
/// redirection before, what it wrote on stream 1 is for f, and the rest goes on as output. The word
/// behind `2>&` is to come to `1`, as the digit itself does in any shell, quoted or not.
pub fn law_order()
    ensures digit { (deeper : Deeper) (scene : Scene) (o : Oracle) (q : Redirect) → Is 2 Duplicate q
        → literal_of (out-Redirect q).target ≡ Some (codes "1") → IsTwoToOne deeper scene o q }
    ensures both { (deeper : Deeper) (scene : Scene) (o : Oracle) (r q : Redirect) (s : Streams)
        (f : OpenedFile) (h t : Here) (w v : Workspace) → Empties deeper scene o r h w f t v
        → IsTwoToOne deeper scene o q
        → Ends o (redirects deeper scene (r ∷ q ∷ []) s) h w (Some (both_into s f)) t v }
    ensures apart { (deeper : Deeper) (scene : Scene) (o : Oracle) (r q : Redirect) (s : Streams)
        (f : OpenedFile) (h t : Here) (w v : Workspace) → Empties deeper scene o r h w f t v
        → IsTwoToOne deeper scene o q
        → Ends o (redirects deeper scene (q ∷ r ∷ []) s) h w (Some (apart_into s f)) t v }
    ensures both_written { (f : OpenedFile) (ps : List Piece)
        → (handed (both_into around f) ps ≡ [])
        × (texts_for (both_into around f) ps ≡ said ps ∷ []) }
    ensures apart_written { (f : OpenedFile) (ps : List Piece)
        → (handed (apart_into around f) ps ≡ map (λ p. piece 1 p.text) (beside 1 ps))
        × (texts_for (apart_into around f) ps ≡ said_on 1 ps ∷ []) }
{}

/// `> f` puts an empty file there, `>> f` leaves a file as it is. What is written to the file then
/// stands behind what it holds: so `>> f` leaves the old content with it behind, and `> f` it alone
/// where nothing else was written there. This is where no line about a refusal was written, and no
/// symbolic link is told of or made.
pub fn law_file()
    ensures write { (deeper : Deeper) (scene : Scene) (o : Oracle) (r : Redirect) (s : Streams)
        (f : OpenedFile) (h t : Here) (w v : Workspace)
        (empties : Empties deeper scene o r h w f t v)
        → Ends o (redirect_one deeper scene r s) h w (Some (into s f)) t v
        × (HasNoLinks o empties.between → Holds v f.path []) }
    ensures append { (deeper : Deeper) (scene : Scene) (o : Oracle) (r : Redirect) (s : Streams)
        (f : OpenedFile) (h t : Here) (w v : Workspace) (found : Finds deeper scene o r h w f t v)
        → Ends o (redirect_one deeper scene r s) h w (Some (into s f)) t v
        × (v.changes ≡ found.between.changes) }
    ensures behind { (o : Oracle) (f : OpenedFile) (old text : List ℕ) (h : Here) (w v : Workspace)
        → HasNoLinks o w → Holds w f.path old → Ends o (appended f text) h w tt h v
        → Holds v f.path (old ++ text) }
    ensures behind_old { (o : Oracle) (f : OpenedFile) (old text : List ℕ) (h : Here)
        (w u v : Workspace) → HasNoLinks o w → content f.path o w ≡ (Ok (Some old), u) → text ≢ []
        → Ends o (appended f text) h w tt h v → Holds v f.path (old ++ text) }
    ensures read { (o : Oracle) (p bytes : List ℕ) (w : Workspace) → Holds w p bytes
        → content_below p o w ≡ (Ok (Some bytes), w) }
{}

/// However a compound command ends, by `exit`, `break` or `continue` too, what it wrote till then
/// goes where its redirections say, and then it ends so. So `{ .. } > f` leaves in f what it wrote
/// on stream 1 where it left f alone and no symbolic link is told of or made, and the rest goes on.
/// Only what has no end reaches no file.
pub fn law_compound()
    ensures delivered { (deeper : Deeper) (scene : Scene) (o : Oracle) (c : Compound)
        (rs : List Redirect) (s : Streams) (h t k z : Here) (w v x y : Workspace)
        (ended : Result (Unit {0}) Jump)
        → Ends o (redirects deeper scene rs around) h w (Some s) t v
        → Comes o (running.body_of deeper (within_streams s scene) c) (unwritten t) v ended k x
        → HasEnd ended
        → Ends o (delivered s k.pieces) (record k { pieces = t.pieces }) x tt z y
        → Comes o (compound_of deeper scene c rs) h w ended z y }
    ensures no_end { (deeper : Deeper) (scene : Scene) (o : Oracle) (c : Compound)
        (rs : List Redirect) (s : Streams) (h t k : Here) (w v x : Workspace) (e : ExecNo)
        → Ends o (redirects deeper scene rs around) h w (Some s) t v
        → Leaves o (running.body_of deeper (within_streams s scene) c) (unwritten t) v (End e) k x
        → Leaves o (compound_of deeper scene c rs) h w (End e)
        (record k { pieces = t.pieces ++ handed s k.pieces }) x }
    ensures write { (deeper : Deeper) (scene : Scene) (o : Oracle) (c : Compound) (r : Redirect)
        (f : OpenedFile) (h t k : Here) (w v x y : Workspace) (ended : Result (Unit {0}) Jump)
        → Empties deeper scene o r h w f t v
        → Comes o (running.body_of deeper (within_streams (into around f) scene) c) (unwritten t) v
        ended k x
        → HasEnd ended → HasNoLinks o x → Holds x f.path []
        → Comes o (compound_of deeper scene c (r ∷ [])) h w ended
        (record k { pieces = t.pieces ++ map (λ p. piece 2 p.text) (beside 1 k.pieces) }) y
        → Holds y f.path (said_on 1 k.pieces) }
    ensures append { (deeper : Deeper) (scene : Scene) (o : Oracle) (c : Compound) (r : Redirect)
        (f : OpenedFile) (old : List ℕ) (h t k : Here) (w v x u y : Workspace)
        (ended : Result (Unit {0}) Jump) → Finds deeper scene o r h w f t v
        → Comes o (running.body_of deeper (within_streams (into around f) scene) c) (unwritten t) v
        ended k x
        → HasEnd ended → HasNoLinks o x → content f.path o x ≡ (Ok (Some old), u)
        → said_on 1 k.pieces ≢ []
        → Comes o (compound_of deeper scene c (r ∷ [])) h w ended
        (record k { pieces = t.pieces ++ map (λ p. piece 2 p.text) (beside 1 k.pieces) }) y
        → Holds y f.path (old ++ said_on 1 k.pieces) }
{}
