//! The makefiles that are goals.
ghost use Rattle.std.specs.Prelude.{◌≡◌, ◌++◌, ◌∷◌, [], IfOk, OnOk};
ghost use Rattle.em_remake.specs.Remaking.{goals_among, goals_of, is_bare, is_endless, is_found, is_goal};

use crate::candidates::candidates;
use em_base::{NoMemory, Seq, Text};
use em_implicit::find;
use em_path::Path;
use em_reader::Round;
use em_rules::{Book, Rule, Rules};
use em_tree::Tree;
use std::alloc::Global;

/// What makefiles say, and the tree and the working directory by which it is judged whether a name
/// exists.
#[derive(Clone, Copy)]
struct GoalContext<'a> {
    pub book: &'a Book,
    pub tree: &'a Tree,
    pub cwd: &'a Path,
}

/// Whether the rule is a double-colon rule for the name, with a recipe and without prerequisites.
fn is_bare(rule: &Rule, name: &[u8]) -> bool
    ensures { result ≡ is_bare rule.now name.now }
{
    let alone = rule.normal.is_empty() && rule.order.is_empty();
    rule.has_target(name) && rule.kind.is_double() && rule.recipe.is_some() && alone
}

/// Whether one of the rules is such a one. Steps for each rule, where the name has double-colon
/// rules at all.
fn is_endless(rules: &Rules, name: &[u8]) -> bool
    ensures { result ≡ is_endless rules.now name.now }
{
    if !rules.is_double(name) {
        return false;
    }
    rules.items().iter().any(|rule| is_bare(rule, name))
}

/// Whether a pattern rule is found for the name, and it has no double-colon rules.
fn is_found(alloc: Global, makefile: GoalContext, name: &[u8]) -> Result<bool, NoMemory>
    ensures { let m = makefile.entry in IfOk result
        (λ b. b ≡ is_found m.book.now m.tree.now m.cwd.now name.now) }
{
    if makefile.book.rules.is_double(name) {
        return Ok(false);
    }
    let found = find(alloc, makefile.book, name, makefile.tree, makefile.cwd)?;
    Ok(found.is_some())
}

/// Whether the name isn't phony, and a rule for it has a recipe or a pattern rule is found for it;
/// none that is always remade by a double-colon rule.
fn is_goal(alloc: Global, makefile: GoalContext, name: &[u8]) -> Result<bool, NoMemory>
    ensures { let m = makefile.entry in IfOk result
        (λ b. b ≡ is_goal m.book.now m.tree.now m.cwd.now name.now) }
{
    let rules = &makefile.book.rules;
    if rules.is_phony(name) || is_endless(rules, name) {
        return Ok(false);
    }
    if rules.recipe_rule(name).is_some() {
        return Ok(true);
    }
    is_found(alloc, makefile, name)
}

/// The name at the end, if it is a goal.
fn add_goal(
    alloc: Global,
    makefile: GoalContext,
    goals: &mut Seq<Text>,
    name: Text,
) -> Result<(), NoMemory>
    ensures { let m = makefile.entry in OnOk result (goals.new
        ≡ goals.old ++ goals_among m.book.now m.tree.now m.cwd.now (name ∷ [])) }
{
    if is_goal(alloc, makefile, name.bytes())? {
        goals.push(name)?;
    }
    Ok(())
}

/// Those of the names that are goals.
fn goals_among(
    alloc: Global,
    makefile: GoalContext,
    names: Seq<Text>,
) -> Result<Seq<Text>, NoMemory>
    ensures { let m = makefile.entry in IfOk result
        (λ g. g ≡ goals_among m.book.now m.tree.now m.cwd.now names) }
{
    let mut goals = Seq::new(alloc);
    for name in names.into_vec() {
        add_goal(alloc, makefile, &mut goals, name)?;
    }
    Ok(goals)
}

/// The makefiles that are to be remade before the goals: of the files that were read and then those
/// that aren't there, each where it first stands, those that aren't phony and for which a rule has
/// a recipe or a pattern rule is found, by what exists in the tree; but for those for which a
/// double-colon rule has a recipe and no prerequisites. Their names are taken without the `./` that
/// they begin with, and read against the working directory.
///
/// A few searches by name for each file, steps for each rule where it has double-colon rules, and
/// `find` for each that isn't phony, has no recipe and no double-colon rules. Each name is copied
/// twice.
pub fn goals_of(alloc: Global, r: &Round, tree: &Tree, cwd: &Path) -> Result<Seq<Text>, NoMemory>
    ensures { IfOk result (λ g. g ≡ goals_of r.now tree.now cwd.now) }
{
    let names = candidates(alloc, r)?;
    let book = &r.book;
    goals_among(alloc, GoalContext { book, tree, cwd }, names)
}
