use em_base::Text;
use em_cmdline::{HistoryMode, Order, Page, WordNo, page_in, read_sub_words, read_words};
use em_states::put_all;
use std::alloc::Global;
use std::process::Abort;
use std::test::Fail;

/// What is read of the words, in one line: the fields that aren't as without options, or the
/// refusal.
fn read(alloc: Global, words: &[Text]) -> Result<Text, Fail> {
    let given = read_words(alloc, words);
    let mut out = Text::new(alloc);
    show(alloc, &mut out, &given)?;
    Ok(out)
}

fn show(alloc: Global, out: &mut Text, given: &Result<Order, WordNo>) -> Result<(), Fail> {
    match given {
        Ok(order) => show_order(alloc, out, order),
        Err(no) => {
            show_no(out, no);
            Ok(())
        }
    }
}

fn show_order(alloc: Global, out: &mut Text, order: &Order) -> Result<(), Fail> {
    put_names(out, order);
    put_flags(out, order);
    put_numbers(alloc, out, order)?;
    put_words(out, order);
    Ok(())
}

fn show_no(out: &mut Text, no: &WordNo) {
    match no {
        WordNo::Unknown => put(out, b" Unknown", b""),
        WordNo::Missing => put(out, b" Missing", b""),
        WordNo::BadNumber(text) => put(out, b" BadNumber:", text.bytes()),
        WordNo::BadName(word) => put(out, b" BadName:", word.bytes()),
        WordNo::SameName(name) => put(out, b" SameName:", name.bytes()),
        WordNo::NoMemory => put(out, b" NoMemory", b""),
    }
}

fn put(out: &mut Text, name: &[u8], value: &[u8]) {
    put_all(out, &[name, value]);
}

fn put_some(out: &mut Text, name: &[u8], value: &Option<Text>) {
    match value {
        Some(value) => put(out, name, value.bytes()),
        None => {}
    }
}

fn put_names(out: &mut Text, order: &Order) {
    put_some(out, b" I:", &order.image);
    put_some(out, b" f:", &order.makefile);
    if order.dir.bytes() != b"/".as_slice() {
        put(out, b" C:", order.dir.bytes());
    }
    put_some(out, b" history:", &order.history);
    put_some(out, b" report:", &order.report);
    put_some(out, b" explain:", &order.explain);
}

fn put_flag(out: &mut Text, name: &[u8], set: bool) {
    if set {
        put(out, name, b"");
    }
}

fn put_flags(out: &mut Text, order: &Order) {
    put_flag(out, b" k", order.keep_going);
    put_flag(out, b" n", order.dry);
    put_flag(out, b" q", order.question);
    put_flag(out, b" s", order.silent);
    put_flag(out, b" i", order.ignore);
    put_flag(out, b" B", order.always);
}

fn put_number(alloc: Global, out: &mut Text, name: &[u8], n: u64) -> Result<(), Fail> {
    let digits = format!(in alloc; "{n}")?;
    put(out, name, digits.as_bytes());
    Ok(())
}

fn put_numbers(alloc: Global, out: &mut Text, order: &Order) -> Result<(), Fail> {
    if order.workers != 1 {
        put_number(alloc, out, b" j:", u64::from(order.workers))?;
    }
    if order.fuel != 1_000_000 {
        put_number(alloc, out, b" fuel:", order.fuel)?;
    }
    if order.agents != 1 {
        put_number(alloc, out, b" agents:", u64::from(order.agents))?;
    }
    match order.generate {
        Some(n) => put_number(alloc, out, b" gen:", u64::from(n)),
        None => Ok(()),
    }
}

fn put_goals(out: &mut Text, goals: &[Text]) {
    for goal in goals {
        put(out, b" goal:", goal.bytes());
    }
}

fn put_assigned(out: &mut Text, assigned: &[(Text, Text)]) {
    for (name, value) in assigned {
        put_all(out, &[b" set:", name.bytes(), b":", value.bytes()]);
    }
}

fn mode_name(mode: &HistoryMode) -> &'static [u8] {
    match mode {
        HistoryMode::Create => b" create",
        HistoryMode::Merge => b"",
        HistoryMode::Read => b" read",
    }
}

fn put_words(out: &mut Text, order: &Order) {
    put(out, mode_name(&order.mode), b"");
    put_goals(out, order.goals.items());
    put_assigned(out, order.assigned.items());
}

/// The words between bars.
fn words(alloc: Global, line: &[u8]) -> Result<Vec<Text>, Fail> {
    let mut words = Vec::new(alloc);
    for word in line.split(|b| *b == b'|') {
        words.push(Text::from_slice(alloc, word)?)?;
    }
    Ok(words)
}

/// Whether this is read of a line.
fn is_read(alloc: Global, line: &[u8], wanted: &[u8]) -> Result<bool, Fail> {
    let words = words(alloc, line)?;
    Ok(read(alloc, words.as_slice())?.bytes() == wanted)
}

/// Reads each line, and compares.
fn compare(rt: &impl Abort, alloc: Global, lines: &[(&str, &str)]) -> Result<(), Fail> {
    for (line, want) in lines {
        let is_read = is_read(alloc, line.as_bytes(), want.as_bytes())?;
        assert!(rt; is_read, "at {line}");
    }
    Ok(())
}

#[test]
fn no_words(rt: HostRuntime) -> Result<(), Fail> {
    let found = read(rt.alloc(), &[])?;
    assert_eq!(rt; found.bytes(), b" Missing".as_slice());
    Ok(())
}

static NOT_UTF8: [&[u8]; 6] = [
    b"\xff",
    b"-I|i|\xff",
    b"-I|\xc3",
    b"-I|i|--|\x80",
    b"-I|i|A=\xed\xa0\x80",
    b"-x|\xff",
];

#[test]
fn words_that_are_not_utf8(rt: HostRuntime) -> Result<(), Fail> {
    for line in &NOT_UTF8 {
        assert!(rt; is_read(rt.alloc(), line, b" Unknown")?);
    }
    Ok(())
}

static OPTIONS: [(&str, &str); 53] = [
    ("-I|i", " I:i"),
    (
        "-I|i|-f|m|-C|/d|-k|-n|-q|-s|-i|-B|-j|8|--fuel|5|--history|h|--mode|read|--report|r|a|A=b|b",
        " I:i f:m C:/d history:h report:r k n q s i B j:8 fuel:5 read goal:a goal:b set:A:b",
    ),
    ("--gen|7", " gen:7"),
    ("--gen|7|-j|64", " j:64 gen:7"),
    // one flag each
    ("-I|i|-k", " I:i k"),
    ("-I|i|-n", " I:i n"),
    ("-I|i|-q", " I:i q"),
    ("-I|i|-s", " I:i s"),
    ("-I|i|-i", " I:i i"),
    ("-I|i|-B", " I:i B"),
    // attached values
    ("-Ii", " I:i"),
    ("-I=i", " I:i"),
    ("-I==i", " I:=i"),
    ("-I=", " I:"),
    ("-Ii=x", " I:i=x"),
    ("-j8|-Ii", " I:i j:8"),
    ("-j=8|-Ii", " I:i j:8"),
    ("--fuel=5|-Ii", " I:i fuel:5"),
    ("--history=h=x|-Ii", " I:i history:h=x"),
    ("--report=|-Ii", " I:i report:"),
    ("--gen=7", " gen:7"),
    // clusters
    ("-kns|-Ii", " I:i k n s"),
    ("-kI|i", " I:i k"),
    ("-kIn", " I:n k"),
    ("-Ikn", " I:kn"),
    ("-kj8|-Ii", " I:i k j:8"),
    ("-fuel|5|-Ii", " I:i f:uel goal:5"),
    // values that look like options
    ("-I|-", " I:-"),
    ("-I-k", " I:-k"),
    ("-I=-k", " I:-k"),
    ("--history=-k|-Ii", " I:i history:-k"),
    ("-I|i|-C|A=b", " I:i C:A=b"),
    // the end of the options
    ("-I|i|--|-x", " I:i goal:-x"),
    ("-I|i|--", " I:i"),
    ("-I|i|--|--", " I:i goal:--"),
    (
        "-I|i|a|--|-k|--|-x=1",
        " I:i goal:a goal:-k goal:-- set:-x:1",
    ),
    ("-I|i|-", " I:i goal:-"),
    // before and after the goals
    ("a|-I|i|b|-k|c", " I:i k goal:a goal:b goal:c"),
    ("-I|i|help", " I:i goal:help"),
    ("-I|i|", " I:i goal:"),
    ("-I|é|ü", " I:é goal:ü"),
    // modes and the directory
    ("-I|i|--mode|create", " I:i create"),
    ("-I|i|--mode=merge", " I:i"),
    ("-I|i|--mode|read", " I:i read"),
    ("-I|i|-C|/", " I:i"),
    ("-I|i|-C|", " I:i C:"),
    // other names of files
    ("-I|./i|--report|i", " I:./i report:i"),
    ("-I|i|--history|h|--report|r", " I:i history:h report:r"),
    ("-I|i|-f|i|-C|i", " I:i f:i C:i"),
    ("--gen|7|--history|h", " history:h gen:7"),
    // a report to explain
    ("--explain|r", " explain:r"),
    (
        "--agents=64|--explain=r|--report|r",
        " report:r explain:r agents:64",
    ),
    ("-I|i|--agents|2", " I:i agents:2"),
];

#[test]
fn options_are_read(rt: HostRuntime) -> Result<(), Fail> {
    compare(&rt, rt.alloc(), OPTIONS.as_slice())
}

static NUMBERS: [(&str, &str); 29] = [
    ("-I|i|-j|1", " I:i"),
    ("-I|i|-j|2", " I:i j:2"),
    ("-I|i|-j|64", " I:i j:64"),
    ("-j|0|-I|i", " BadNumber:0"),
    ("-I|i|-j|65", " BadNumber:65"),
    ("-I|i|-j|01", " BadNumber:01"),
    ("-I|i|-j|+1", " BadNumber:+1"),
    ("-I|i|-j|", " BadNumber:"),
    ("-I|i|-j-1", " BadNumber:-1"),
    ("-I|i|-j|8x", " BadNumber:8x"),
    ("-I|i|-j| 8", " BadNumber: 8"),
    (
        "-I|i|-j|18446744073709551617",
        " BadNumber:18446744073709551617",
    ),
    ("-I|i|--fuel|1", " I:i fuel:1"),
    ("-I|i|--fuel|999999", " I:i fuel:999999"),
    ("-I|i|--fuel|1000000", " I:i"),
    ("-I|i|--fuel|1000001", " BadNumber:1000001"),
    ("-I|i|--fuel|0", " BadNumber:0"),
    ("-I|i|--fuel=", " BadNumber:"),
    ("--gen|1", " gen:1"),
    ("--gen|10000", " gen:10000"),
    ("--gen|10001", " BadNumber:10001"),
    ("--gen|0", " BadNumber:0"),
    ("--gen|0|--fuel|00|-j|000", " BadNumber:000"),
    ("--gen|0|--fuel|00|-j|1", " BadNumber:00"),
    ("--gen|00|--fuel|1", " BadNumber:00"),
    ("-I|i|-j|0|=x", " BadNumber:0"),
    ("--explain|r|--agents|1", " explain:r"),
    ("--explain|r|--agents|0", " BadNumber:0"),
    ("-I|i|--agents|65", " BadNumber:65"),
];

#[test]
fn numbers_are_read(rt: HostRuntime) -> Result<(), Fail> {
    compare(&rt, rt.alloc(), NUMBERS.as_slice())
}

static ASSIGNMENTS: [(&str, &str); 26] = [
    ("-I|i|A=b=c", " I:i set:A:b=c"),
    ("-I|i|A=", " I:i set:A:"),
    ("-I|i|A==b", " I:i set:A:=b"),
    ("-I|i|A+=b", " I:i set:A+:b"),
    ("-I|i|A=$(B) c:d#e", " I:i set:A:$(B) c:d#e"),
    ("-I|i|B=1|x|A=2|B=3", " I:i goal:x set:B:1 set:A:2 set:B:3"),
    ("-I|i|=x", " BadName:=x"),
    ("-I|i|=", " BadName:="),
    ("-I|i|a b=c", " BadName:a b=c"),
    ("-I|i|a\tb=c", " BadName:a\tb=c"),
    ("-I|i| a=c", " BadName: a=c"),
    ("-I|i|a:=c", " BadName:a:=c"),
    ("-I|i|a#b=c", " BadName:a#b=c"),
    ("-I|i|$a=c", " BadName:$a=c"),
    ("-I|i|A=1|x|a:=y|=z", " BadName:a:=y"),
    ("-I|i|a b", " I:i goal:a b"),
    ("-I|i|--|=x", " BadName:=x"),
    ("-I|i|--report|i", " SameName:i"),
    ("-I|i|--history|i", " SameName:i"),
    ("-I|i|--history|h|--report|h", " SameName:h"),
    ("--gen|7|--history|h|--report|h", " SameName:h"),
    ("-I|i|--history|i|--report|i", " SameName:i"),
    ("-I=|--report=", " SameName:"),
    ("-I|i|--report|i|=x", " BadName:=x"),
    ("-I|i|--report|i|-j|0", " BadNumber:0"),
    ("-I|i|--report|i|A=b", " SameName:i"),
];

#[test]
fn assignments_are_read(rt: HostRuntime) -> Result<(), Fail> {
    compare(&rt, rt.alloc(), ASSIGNMENTS.as_slice())
}

static UNREADABLE: [(&str, &str); 53] = [
    // neither the image nor a project, or both
    ("-k", " Missing"),
    ("a", " Missing"),
    ("", " Missing"),
    ("-j|0", " Missing"),
    ("=x", " Missing"),
    ("-I|i|--gen|7", " Missing"),
    ("-I|i|--gen|0", " Missing"),
    ("--|-I|i", " Missing"),
    ("--report|r|--history|r", " Missing"),
    ("--explain|r|-I|i", " Missing"),
    ("--gen|7|--explain|r", " Missing"),
    ("--agents|2", " Missing"),
    // twice
    ("-I|i|-I|j", " Unknown"),
    ("-I|i|-Ii", " Unknown"),
    ("-I|i|-k|-k", " Unknown"),
    ("-I|i|-knk", " Unknown"),
    ("-I|i|-f|a|-f|b", " Unknown"),
    ("-I|i|-C|a|b|-C|c", " Unknown"),
    ("-I|i|-j|1|-j|1", " Unknown"),
    ("-I|i|--fuel|1|--fuel=2", " Unknown"),
    ("-I|i|--history|h|--history|g", " Unknown"),
    ("-I|i|--mode|read|--mode|read", " Unknown"),
    ("-I|i|--report|r|--report|s", " Unknown"),
    ("--gen|1|--gen|2", " Unknown"),
    // values that aren't there
    ("-I", " Unknown"),
    ("-I|i|-j", " Unknown"),
    ("-I|i|-kj", " Unknown"),
    ("-I|i|--fuel", " Unknown"),
    ("-I|-k", " Unknown"),
    ("-I|--|i", " Unknown"),
    ("-I|i|-j|-1", " Unknown"),
    ("-I|i|--fuel|--mode|read", " Unknown"),
    ("-I|i|--history|-h", " Unknown"),
    // no options
    ("-x", " Unknown"),
    ("-I|i|-h", " Unknown"),
    ("-I|i|-V", " Unknown"),
    ("-I|i|--help", " Unknown"),
    ("-I|i|--version", " Unknown"),
    ("-I|i|-kx", " Unknown"),
    ("-I|i|-k=1", " Unknown"),
    ("-I|i|-K", " Unknown"),
    ("-I|i|-é", " Unknown"),
    ("-I|i|--fue|5", " Unknown"),
    ("-I|i|--fuels|5", " Unknown"),
    ("--image|i", " Unknown"),
    ("--I|i", " Unknown"),
    ("-I|i|---", " Unknown"),
    ("-I|i|--=5", " Unknown"),
    // other modes
    ("-I|i|--mode|Read", " Unknown"),
    ("-I|i|--mode=", " Unknown"),
    ("--mode|x", " Unknown"),
    ("-I|i|-j|0|--mode|x", " Unknown"),
    ("-I|i|=x|-x", " Unknown"),
];

#[test]
fn other_lines_are_refused(rt: HostRuntime) -> Result<(), Fail> {
    compare(&rt, rt.alloc(), UNREADABLE.as_slice())
}

static PAGES: [(&str, Option<Page>); 6] = [
    ("--help", Some(Page::Usage)),
    ("--version", Some(Page::Version)),
    ("--help|--version", None),
    ("-I|--help", None),
    ("--help=", None),
    ("help", None),
];

#[test]
fn a_word_alone_asks_for_a_page(rt: HostRuntime) -> Result<(), Fail> {
    for (line, wanted) in &PAGES {
        let words = words(rt.alloc(), line.as_bytes())?;
        assert!(rt; page_in(words.as_slice()) == *wanted, "at {line}");
    }
    assert!(rt; Page::Usage.text().starts_with(b"usage: emake -I IMAGE "));
    assert!(rt; Page::Version.text().starts_with(b"emake "));
    Ok(())
}

/// What is read of the words of a sub-make.
fn sub_read(alloc: Global, line: &[u8]) -> Result<Text, Fail> {
    let words = words(alloc, line)?;
    let given = read_sub_words(alloc, words.as_slice());
    let mut out = Text::new(alloc);
    show(alloc, &mut out, &given)?;
    Ok(out)
}

static SUB_MAKES: [(&str, &str); 8] = [
    ("x", " C:. goal:x"),
    ("-C|d|x|A=b", " C:d goal:x set:A:b"),
    ("-f|m|-ksiB", " f:m C:. k s i B"),
    ("-j8|--no-print-directory", " C:."),
    ("-n", " Unknown"),
    ("\u{ff}|-C", " Unknown"),
    ("-j|65|=x", " BadNumber:65"),
    ("x|a:=c", " BadName:a:=c"),
];

#[test]
fn words_of_sub_makes_are_read(rt: HostRuntime) -> Result<(), Fail> {
    for (line, want) in &SUB_MAKES {
        let read = sub_read(rt.alloc(), line.as_bytes())?;
        assert!(rt; read.bytes() == want.as_bytes(), "at {line}");
    }
    Ok(())
}
