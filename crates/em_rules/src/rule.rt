//! One rule.
ghost use Rattle.std.specs.Prelude.{◌≡◌, ◌≤◌, length, IfOk};
ghost use Rattle.em_rules.specs.Rules.{is_in, has_target, needs};
ghost use Rattle.em_rules.specs.Static.{stem_in, stem_text};
ghost use Rattle.em_rules.specs.Groups as groups;
ghost use Rattle.em_rules.specs.Groups.{is_double_kind, is_grouped_kind};

use em_base::{NoMemory, Place, Seq, Text, TryClone};
use em_wordlist::stem;
use std::alloc::Global;

/// A line of a recipe as it is written, unexpanded.
#[derive(Debug, Drop, PartialEq, Eq)]
pub struct RecipeLine {
    pub place: Place,
    pub text: Text,
}

impl RecipeLine {
    /// An equal line.
    pub fn copy(&self, alloc: Global) -> Result<RecipeLine, NoMemory>
        ensures { IfOk result (λ l. l ≡ self.now) }
    {
        Ok(RecipeLine {
            place: self.place.copy(alloc)?,
            text: self.text.copy(alloc)?,
        })
    }
}

impl TryClone for RecipeLine {
    fn try_clone(&self, alloc: Global) -> Result<RecipeLine, NoMemory> {
        self.copy(alloc)
    }
}

/// What a rule's targets have to do with one another, by the colon that it is written with.
#[derive(Clone, Copy, Debug, PartialEq, Eq)]
pub enum RuleKind {
    /// `:`, each target is made by itself. A pattern rule with several targets makes all of them
    /// together nonetheless.
    Ordinary,
    /// `&:`, one run of the recipe makes all targets.
    Grouped,
    /// `::`, each target is made by this rule and by each other one of this kind for it.
    Double,
}

impl RuleKind {
    /// `::`
    pub fn is_double(self) -> bool
        ensures { result ≡ is_double_kind self }
    {
        self == RuleKind::Double
    }

    /// `&:`
    pub fn is_grouped(self) -> bool
        ensures { result ≡ is_grouped_kind self }
    {
        self == RuleKind::Grouped
    }
}

/// A rule: how its targets are remade from its prerequisites.
#[derive(Debug, Drop)]
pub struct Rule {
    pub targets: Seq<Text>,
    pub kind: RuleKind,
    /// Whether it is a pattern rule: then targets and prerequisites are patterns, whose `%` stands
    /// for a stem.
    pub pattern: bool,
    /// The target pattern of a static pattern rule; `None` for every other rule.
    pub form: Option<Text>,
    /// The prerequisites that make remaking due where they are newer.
    pub normal: Seq<Text>,
    /// The prerequisites that must only be made before.
    pub order: Seq<Text>,
    /// `None` where the rule has no recipe; a recipe may be empty.
    pub recipe: Option<Seq<RecipeLine>>,
    pub place: Place,
}

/// Whether the name is one of these.
pub(crate) fn is_among(name: &[u8], names: &[Text]) -> bool
    ensures { result ≡ is_in names.now name.now }
{
    names.iter().any(|n| n.bytes() == name)
}

impl Rule {
    /// Whether the name is a target. Steps for each target.
    pub fn has_target(&self, name: &[u8]) -> bool
        ensures { result ≡ has_target self.now name.now }
    {
        is_among(name, self.targets.items())
    }

    /// Whether the name is a prerequisite. Steps for each prerequisite.
    pub fn needs(&self, name: &[u8]) -> bool
        ensures { result ≡ needs self.now name.now }
    {
        is_among(name, self.normal.items()) || is_among(name, self.order.items())
    }

    /// What the target has for the `%` of the target pattern of a static pattern rule; nothing in
    /// any other rule, and for a name that doesn't match.
    pub fn stem<'a>(&self, target: &'a [u8]) -> &'a [u8]
        ensures { result.now ≡ stem_in self.now target.now }
    {
        match &self.form {
            Some(form) => stem_text(form.bytes(), target),
            None => &[],
        }
    }

    /// The normal prerequisites that the rule gives this target: those of its own in a grouped
    /// static pattern rule of a book, else all. Steps for each target.
    pub fn normal_for(&self, target: &[u8]) -> &[Text]
        ensures { result.now ≡ groups.normal_for self.now target.now }
    {
        own_part(self, self.normal.items(), target)
    }

    /// The order-only prerequisites that the rule gives this target. Steps for each target.
    pub fn order_for(&self, target: &[u8]) -> &[Text]
        ensures { result.now ≡ groups.order_for self.now target.now }
    {
        own_part(self, self.order.items(), target)
    }
}

/// Where the name stands among the targets; behind them where it doesn't.
fn place_among(targets: &[Text], name: &[u8]) -> usize
    ensures place { result ≡ groups.place_from 0 targets.now name.now }
    ensures within { result ≤ length targets.now }
{
    for (i, target) in targets.iter().enumerate() {
        if target.bytes() == name {
            return i;
        }
    }
    targets.len()
}

/// The part of this number of so many equal parts.
fn part(count: usize, number: usize, names: &[Text]) -> &[Text]
    requires { number ≤ count }
    ensures { result.now ≡ groups.part count number names.now }
{
    if count == 0 {
        return &[];
    }
    let size = names.len() / count;
    let start = number * size;
    &names[start..][..size.min(names.len() - start)]
}

/// Of the names that stand in a row for the targets those of this one.
fn own_part<'a>(rule: &'a Rule, names: &'a [Text], target: &[u8]) -> &'a [Text]
    ensures { result.now ≡ groups.own_part rule.now names.now target.now }
{
    if rule.kind.is_grouped() && rule.form.is_some() {
        let targets = rule.targets.items();
        return part(targets.len(), place_among(targets, target), names);
    }
    names
}

/// What the word has for the `%` of a pattern; nothing where it doesn't match.
pub(crate) fn stem_text<'a>(pattern: &[u8], word: &'a [u8]) -> &'a [u8]
    ensures { result.now ≡ stem_text pattern.now word.now }
{
    match stem(pattern, word) {
        Some(span) => span.of(word),
        None => &[],
    }
}
