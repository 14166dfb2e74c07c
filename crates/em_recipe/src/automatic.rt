//! The automatic variables.
ghost use Rattle.std.specs.Prelude.{◌≡◌, ◌==◌, ◌≤◌, ◌∷◌, ◌++◌, [], not, codes, length, map, IfOk, OnOk};
ghost use Rattle.std.specs.List.{suffix_len};
ghost use Rattle.em_wordlist.specs.Words.{words_of, joined};
ghost use Rattle.em_namefn.specs.Names.{file_of};
ghost use Rattle.em_recipe.specs.Automatic.{once, names_of, dir_part, with_parts, normal_texts};
ghost use Rattle.em_recipe.specs.Automatic as automatic;

use em_base::{NoMemory, Seq, Table, Text};
use em_expand::OwnVar;
use em_plan::{PlanJob, Pre};
use em_wordlist::{join, texts};
use std::alloc::Global;

/// How many bytes stand behind the last slash, or in all.
fn behind_slash(word: &[u8]) -> usize
    ensures count { result ≡ suffix_len (λ b. not (b == 47)) word.now }
    ensures within { result ≤ length word.now }
{
    word.iter().rev().take_while(|b| **b != b'/').count()
}

/// The directory of a word, without the slash behind it, and its file.
fn directory_and_file(word: &[u8]) -> (&[u8], &[u8])
    ensures directory { result.0.now ≡ dir_part word.now }
    ensures file { result.1.now ≡ file_of word.now }
{
    let file = word.len() - behind_slash(word);
    if file == 0 {
        (b".", word)
    } else {
        (&word[..file - 1], &word[file..])
    }
}

/// The directories and the files of some words.
#[derive(Drop)]
struct DirsAndFiles {
    directories: Text,
    files: Text,
}

/// The directories and the files of the words of a text.
fn parts_of(alloc: Global, text: &[u8]) -> Result<DirsAndFiles, NoMemory>
    ensures directories { IfOk result
        (λ p. p.directories ≡ joined (map dir_part (words_of text.now))) }
    ensures files { IfOk result (λ p. p.files ≡ joined (map file_of (words_of text.now))) }
{
    let mut directories = Vec::new(alloc);
    let mut files = Vec::new(alloc);
    for word in &texts(alloc, text)? {
        let (directory, file) = directory_and_file(word);
        directories.push(directory)?;
        files.push(file)?;
    }
    Ok(DirsAndFiles {
        directories: join(alloc, &directories)?,
        files: join(alloc, &files)?,
    })
}

/// Each name where it first stands. A search for each.
fn once<'a>(alloc: Global, names: &[&'a [u8]]) -> Result<Vec<&'a [u8]>, NoMemory>
    ensures { IfOk result (λ v. map (λ n. n.now) v.items ≡ once (map (λ n. n.now) names.now)) }
{
    let mut seen = Table::new(alloc);
    let mut first = Vec::new(alloc);
    for name in names {
        if seen.get(name).is_none() {
            seen.insert(Text::from_slice(alloc, name)?, ())?;
            first.push(*name)?;
        }
    }
    Ok(first)
}

/// Adds an automatic variable of the first name, and its forms for the directories and for the
/// files of its words.
fn add_forms(
    alloc: Global,
    own: &mut Seq<OwnVar>,
    whole: &'static [u8],
    in_directories: &'static [u8],
    in_files: &'static [u8],
    text: Text,
) -> Result<(), NoMemory>
    ensures { OnOk result (own.new ≡ own.old ++ (whole.now, text)
        ∷ (in_directories.now, joined (map dir_part (words_of text)))
        ∷ (in_files.now, joined (map file_of (words_of text))) ∷ []) }
{
    let DirsAndFiles { directories, files } = parts_of(alloc, text.bytes())?;
    own.push(OwnVar::new(whole, text))?;
    own.push(OwnVar::new(in_directories, directories))?;
    own.push(OwnVar::new(in_files, files))?;
    Ok(())
}

/// The names of prerequisites.
fn names(alloc: Global, pres: &[Pre]) -> Result<Vec<&[u8]>, NoMemory>
    ensures { IfOk result (λ v. map (λ n. n.now) v.items ≡ names_of pres.now) }
{
    let mut names = Vec::new(alloc);
    for pre in pres {
        names.push(pre.name.bytes())?;
    }
    Ok(names)
}

/// Some texts' bytes.
fn bytes_of(alloc: Global, texts: &[Text]) -> Result<Vec<&[u8]>, NoMemory>
    ensures { IfOk result (λ v. map (λ t. t.now) v.items ≡ texts.now) }
{
    let mut all = Vec::new(alloc);
    for text in texts {
        all.push(text.bytes())?;
    }
    Ok(all)
}

/// Adds the automatic variables that tell of normal prerequisites: `$<`, `$^` and `$+`.
fn add_normal(alloc: Global, own: &mut Seq<OwnVar>, names: &[&[u8]]) -> Result<(), NoMemory>
    ensures { OnOk result (own.new ≡ own.old ++ normal_texts (map (λ n. n.now) names.now)) }
{
    let first = match names.first() {
        Some(name) => Text::from_slice(alloc, name)?,
        None => Text::new(alloc),
    };
    add_forms(alloc, own, b"<", b"<D", b"<F", first)?;
    let single = join(alloc, &once(alloc, names)?)?;
    add_forms(alloc, own, b"^", b"^D", b"^F", single)?;
    add_forms(alloc, own, b"+", b"+D", b"+F", join(alloc, names)?)
}

/// Adds `$@` and what tells of normal prerequisites.
fn add_first(alloc: Global, own: &mut Seq<OwnVar>, job: &PlanJob) -> Result<(), NoMemory>
    ensures { OnOk result (own.new ≡ own.old ++ with_parts 64 job.now.target
        ++ normal_texts (names_of job.now.normal)) }
{
    add_forms(alloc, own, b"@", b"@D", b"@F", job.target.copy(alloc)?)?;
    add_normal(alloc, own, &names(alloc, job.normal.items())?)
}

/// Adds `$?`, of names that made remaking due.
fn add_newer(alloc: Global, own: &mut Seq<OwnVar>, newer: &[Text]) -> Result<(), NoMemory>
    ensures { OnOk result (own.new ≡ own.old ++ with_parts 63 (joined (once newer.now))) }
{
    let newer = once(alloc, &bytes_of(alloc, newer)?)?;
    add_forms(alloc, own, b"?", b"?D", b"?F", join(alloc, &newer)?)
}

/// Adds `$*` and `$|`.
fn add_last(alloc: Global, own: &mut Seq<OwnVar>, job: &PlanJob) -> Result<(), NoMemory>
    ensures { OnOk result (own.new ≡ own.old ++ with_parts 42 job.now.stem
        ++ (codes "|", joined (names_of job.now.order)) ∷ []) }
{
    add_forms(alloc, own, b"*", b"*D", b"*F", job.stem.copy(alloc)?)?;
    let order = names(alloc, job.order.items())?;
    own.push(OwnVar::new(b"|", join(alloc, &order)?))?;
    Ok(())
}

/// The automatic variables of a job; these names are what made its remaking due. Steps for each
/// byte of the names, and a search for each name.
pub fn automatic_vars(alloc: Global, job: &PlanJob, newer: &[Text]) -> Result<Seq<OwnVar>, NoMemory>
    ensures { IfOk result (λ own. own ≡ automatic.texts job.now newer.now) }
{
    let mut own = Seq::new(alloc);
    add_first(alloc, &mut own, job)?;
    add_newer(alloc, &mut own, newer)?;
    add_last(alloc, &mut own, job)?;
    Ok(own)
}
