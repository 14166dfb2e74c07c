use em_base::{Fuel, NoMemory, Seq, Text};
use em_glob::Glyph;
use em_path::Path;
use em_pathname::matching_names;
use em_tree::{Outcomes, State, Tree};
use em_view::{Desk, PlainView, View};
use std::alloc::Global;
use std::test::Fail;

/// A pattern, from which glyph on its glyphs are quoted, the one name that it gives, and how many
/// questions are asked.
type Row = (&'static [u8], usize, Option<&'static [u8]>, usize);

static ROWS: [Row; 9] = [
    (b"", 0, None, 0),
    (b"/", 1, Some(b"/"), 0),
    (b"///", 0, Some(b"/"), 0),
    (b".", 0, Some(b"."), 1),
    (b"./..", 4, Some(b"./.."), 2),
    (b"*", 1, None, 1),
    (b"*", 0, None, 2),
    (b"a/*", 3, None, 2),
    (b"/a\n", 3, None, 0),
];

fn glyphs(alloc: Global, pattern: &[u8], quoted_from: usize) -> Result<Vec<Glyph>, NoMemory> {
    let mut glyphs = Vec::new(alloc);
    for (at, byte) in pattern.iter().enumerate() {
        glyphs.push(Glyph {
            byte: *byte,
            quoted: at >= quoted_from,
        })?;
    }
    Ok(glyphs)
}

fn root(alloc: Global) -> Result<State, NoMemory> {
    let tree = Tree::new(alloc, 1)?;
    let outcomes = Outcomes::new(alloc);
    Ok(State { tree, outcomes })
}

fn names<V: View>(alloc: Global, row: &Row, desk: &mut Desk<V>) -> Result<Seq<Text>, Fail> {
    let glyphs = glyphs(alloc, row.0, row.1)?;
    Ok(matching_names(alloc, &glyphs, &Path::root(), desk)?)
}

fn is_first(names: &[Text], wanted: Option<&[u8]>) -> bool {
    names.first().map(|name| name.bytes()) == wanted
}

fn is_row(alloc: Global, state: &State, row: &Row) -> Result<bool, Fail> {
    let mut desk = Desk::new(alloc, PlainView::new(state), 1, 0, Fuel::new(100));
    let names = names(alloc, row, &mut desk)?;
    let asked = desk.close().0.entries(alloc)?.len();
    Ok(is_first(names.items(), row.2) && asked == row.3)
}

/// Over the root alone.
#[test]
fn patterns_are_walked_over_the_root(rt: HostRuntime) -> Result<(), Fail> {
    let state = root(rt.alloc())?;
    for row in &ROWS {
        assert!(rt; is_row(rt.alloc(), &state, row)?);
    }
    Ok(())
}
