//! The tests of calls through symbolic links.
use super::*;

/// The states of `LIMITS`, `CHAINS` and `CIRCLES`.
static DEEP: &str = "L5/l l6/m>l/a";

static LONG: &str = "X5/l l6/m>l/a";

static CHAINED: &str = "d2/d f3/d/f l4/d/s>.";

static CIRCLED: &str = "l5/l>l l6/a>b l7/b>a";

/// The tables over the state of the links.
fn table(i: u8) -> &'static [Row] {
    match i {
        0 => &links::READING,
        1 => &links::TEXTS,
        2 => &links::PUTTING,
        3 => &links::MAKING,
        4 => &links::TAKING,
        _ => &links::OWN,
    }
}

fn check_tables(alloc: Global, wrong: &mut String) -> Result<(), NoMemory> {
    for i in 0..6 {
        check_rows(alloc, links::STATE, table(i), wrong)?;
    }
    Ok(())
}

#[test]
fn calls_go_through_links(rt: HostRuntime) -> Result<(), Fail> {
    let mut wrong = String::new(rt.alloc());
    check_tables(rt.alloc(), &mut wrong)?;
    assert_eq!(rt; wrong.as_str(), "");
    Ok(())
}

fn check_unfit(alloc: Global, wrong: &mut String) -> Result<(), NoMemory> {
    for (text, script, want) in &links::UNFIT {
        check(alloc, text, 20, script, want, wrong)?;
    }
    Ok(())
}

#[test]
fn links_that_do_not_fit_are_taken_as_they_come(rt: HostRuntime) -> Result<(), Fail> {
    let mut wrong = String::new(rt.alloc());
    check_unfit(rt.alloc(), &mut wrong)?;
    assert_eq!(rt; wrong.as_str(), "");
    Ok(())
}

/// How many questions were asked, and the units.
fn count_end<V: View>(alloc: Global, desk: Desk<V>, log: &mut String) -> Result<(), NoMemory> {
    let left = desk.left();
    let (usage, _changes, used) = desk.close();
    let asked = usage.entries(alloc)?.len();
    Ok(write!(log, "| {asked} | {left}+{used}")?)
}

fn count<V: View>(
    alloc: Global,
    view: V,
    fuel: u16,
    script: &str,
    log: &mut String,
) -> Result<(), NoMemory> {
    let mut desk = Desk::new(alloc, view, 100, 0, Fuel::new(u64::from(fuel)));
    steps(alloc, &mut desk, script, log)?;
    count_end(alloc, desk, log)
}

fn counted(alloc: Global, text: &str, fuel: u16, script: &str) -> Result<String, NoMemory> {
    let state = state(alloc, text)?;
    let mut log = String::new(alloc);
    count(alloc, PlainView::new(&state), fuel, script, &mut log)?;
    Ok(log)
}

/// Adds the calls to those that are wrong, unless they give and cost what is expected.
fn check_count(
    alloc: Global,
    text: &str,
    fuel: u16,
    script: &str,
    want: &str,
    wrong: &mut String,
) -> Result<(), NoMemory> {
    let log = counted(alloc, text, fuel, script)?;
    if log.as_str() != want {
        write!(wrong, "{script}: {log}\n")?;
    }
    Ok(())
}

fn check_limits(alloc: Global, wrong: &mut String) -> Result<(), NoMemory> {
    for (script, deep, long) in &links::LIMITS {
        check_count(alloc, DEEP, 20, script, deep, wrong)?;
        check_count(alloc, LONG, 20, script, long, wrong)?;
    }
    Ok(())
}

#[test]
fn what_is_too_deep_or_too_long_is_no_path(rt: HostRuntime) -> Result<(), Fail> {
    let mut wrong = String::new(rt.alloc());
    check_limits(rt.alloc(), &mut wrong)?;
    assert_eq!(rt; wrong.as_str(), "");
    Ok(())
}

/// The call of a path behind so many links.
fn chain(alloc: Global, letter: u8, links: u8) -> Result<String, NoMemory> {
    let mut script = String::new(alloc);
    script.push(char::from(letter))?;
    script.push_str("/d")?;
    for _ in 0..links {
        script.push_str("/s")?;
    }
    script.push_str(if letter == b'y' { "/f>a" } else { "/f" })?;
    Ok(script)
}

fn check_chains(alloc: Global, wrong: &mut String) -> Result<(), NoMemory> {
    for (letter, links, want) in &links::CHAINS {
        let script = chain(alloc, *letter, *links)?;
        check_count(alloc, CHAINED, 50, script.as_str(), want, wrong)?;
    }
    Ok(())
}

#[test]
fn forty_links_are_followed_and_no_more(rt: HostRuntime) -> Result<(), Fail> {
    let mut wrong = String::new(rt.alloc());
    check_chains(rt.alloc(), &mut wrong)?;
    assert_eq!(rt; wrong.as_str(), "");
    Ok(())
}

fn check_circles(alloc: Global, wrong: &mut String) -> Result<(), NoMemory> {
    for (script, want) in &links::CIRCLES {
        check_count(alloc, CIRCLED, 50, script, want, wrong)?;
    }
    Ok(())
}

#[test]
fn circles_of_links_lead_nowhere(rt: HostRuntime) -> Result<(), Fail> {
    let mut wrong = String::new(rt.alloc());
    check_circles(rt.alloc(), &mut wrong)?;
    assert_eq!(rt; wrong.as_str(), "");
    Ok(())
}
