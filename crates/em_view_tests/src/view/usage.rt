//! What a job has asked, in little room.
use super::*;
use em_tree::Usage;

static TREE: &str = "d2/d d3/d/e f4/d/e/f l5/l>d";

/// The calls; how many looks and entries they leave; and a state, with whether it answers the same.
static ROWS: [(&str, usize, usize, &str, bool); 11] = [
    ("k/", 1, 1, "d2/d", true),
    ("k/d", 1, 2, "d9/d", true),
    ("k/d", 1, 2, "f2/d", false),
    ("k/d/e/f", 1, 4, "d8/d d9/d/e f4/d/e/f", true),
    // there is a link now, at the top and at the end
    ("k/d/e/f", 1, 4, "d2/c d3/c/e f4/c/e/f l5/d>c", false),
    ("k/d/e/f", 1, 4, "d2/d d3/d/e l4/d/e/f>g", false),
    (
        "k/d/e/f s/d/e/f k/d/e",
        3,
        11,
        "d2/d d3/d/e f4/d/e/f l5/l>/",
        true,
    ),
    (
        "k/d/e/f s/d/e/f k/d/e",
        3,
        11,
        "d2/d d3/d/e f5/d/e/f",
        false,
    ),
    // what a link says is asked for without its own path being followed
    ("i/d/e/f", 1, 3, "d2/d d3/d/e", true),
    // behind a link the walk begins again
    ("k/l/e", 2, 4, "d2/d d3/d/e l5/l>d", true),
    ("k/l/e", 2, 4, "d2/d d3/d/e l5/l>./d", false),
];

/// The usage of these calls.
fn usage_of(alloc: Global, script: &str) -> Result<Usage, NoMemory> {
    let state = state(alloc, TREE)?;
    let mut desk = Desk::new(alloc, PlainView::new(&state), 100, 0, Fuel::new(50));
    let mut log = String::new(alloc);
    steps(alloc, &mut desk, script, &mut log)?;
    let (usage, _changes, _used) = desk.close();
    Ok(usage)
}

fn check_usages(alloc: Global, wrong: &mut String) -> Result<(), NoMemory> {
    for (script, looks, entries, other, want) in &ROWS {
        let usage = usage_of(alloc, script)?;
        let count = usage.entries(alloc)?.len();
        let agrees = state(alloc, other)?.agrees_all(alloc, &usage)?;
        if usage.looks().len() != *looks || count != *entries || agrees != *want {
            write!(wrong, "{script} over {other}: {count} {agrees}\n")?;
        }
    }
    Ok(())
}

#[test]
fn a_walk_without_links_takes_no_room(rt: HostRuntime) -> Result<(), Fail> {
    let mut wrong = String::new(rt.alloc());
    check_usages(rt.alloc(), &mut wrong)?;
    assert_eq!(rt; wrong.as_str(), "");
    Ok(())
}

/// Entries that were put in one by one.
fn kept(alloc: Global, script: &str) -> Result<bool, NoMemory> {
    let usage = usage_of(alloc, script)?;
    let entries = usage.entries(alloc)?;
    let mut again = Usage::new(alloc);
    for entry in &entries {
        again.push(entry.copy(alloc)?)?;
    }
    Ok(again.entries(alloc)? == entries && again.looks().len() == usage.looks().len())
}

#[test]
fn entries_come_back_as_they_were_put_in(rt: HostRuntime) -> Result<(), Fail> {
    for (script, _, _, _, _) in &ROWS {
        assert!(rt; kept(rt.alloc(), script)?);
    }
    Ok(())
}
