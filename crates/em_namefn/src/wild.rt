//! `wildcard`
ghost use Rattle.std.specs.Prelude.{◌≡◌, ◌++◌, [], false, map, IfErr, IfOk};
ghost use Rattle.em_view.specs.Rows.{Acts, is_refusal};
ghost use Rattle.em_namefn.specs.Wildcards as wildcards;
ghost use Rattle.em_namefn.specs.Wildcards.{glyphs_of, each_pattern};

use em_base::{NoMemory, Seq, Text};
use em_glob::Glyph;
use em_path::Path;
use em_pathname::matching_names;
use em_view::{Desk, DeskNo, View};
use em_wordlist::{join_texts, texts};
use std::alloc::Global;

/// The bytes as glyphs that aren't quoted. Steps for each byte.
pub fn glyphs_of(alloc: Global, bytes: &[u8]) -> Result<Vec<Glyph>, NoMemory>
    ensures { IfOk result (λ v. v.items ≡ glyphs_of bytes.now) }
{
    Ok(
        bytes
            .iter()
            .map(|b| Glyph {
                byte: *b,
                quoted: false,
            })
            .collect(alloc)?,
    )
}

fn appended(so_far: Seq<Text>, more: Seq<Text>) -> Result<Seq<Text>, NoMemory>
    ensures { IfOk result (λ all. all ≡ so_far ++ more) }
{
    let mut all = so_far.into_vec();
    all.extend(more.into_vec())?;
    Ok(Seq::from_vec(all))
}

fn each_pattern<V: View>(
    alloc: Global,
    patterns: &[&[u8]],
    cwd: &Path,
    desk: &mut Desk<V>,
) -> Result<Seq<Text>, DeskNo>
    ensures performs { Acts V.tells desk.old desk.new result
        (each_pattern cwd.now [] (map (λ p. p.now) patterns.now)) }
    ensures unrefused { IfErr result (λ e. is_refusal e ≡ false) }
{
    let mut all = Seq::new(alloc);
    for pattern in patterns {
        let glyphs = glyphs_of(alloc, pattern)?;
        let more = matching_names(alloc, &glyphs, cwd, desk)?;
        all = appended(all, more)?;
    }
    Ok(all)
}

/// `wildcard patterns`: the names in the tree that match, for each word of the patterns in order
/// those that match it in byte order, joined by single blanks; nothing where none matches. What a
/// word matches and what is asked for it is told at `em_pathname::matching_names`; nothing in a
/// word is quoted. `File` never comes.
pub fn wildcard<V: View>(
    alloc: Global,
    patterns: &[u8],
    cwd: &Path,
    desk: &mut Desk<V>,
) -> Result<Text, DeskNo>
    ensures performs { Acts V.tells desk.old desk.new result
        (wildcards.wildcard patterns.now cwd.now) }
    ensures unrefused { IfErr result (λ e. is_refusal e ≡ false) }
{
    let words = texts(alloc, patterns)?;
    let names = each_pattern(alloc, &words, cwd, desk)?;
    Ok(join_texts(alloc, names.items())?)
}
