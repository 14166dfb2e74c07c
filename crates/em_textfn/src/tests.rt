use super::*;
use em_base::Text;
use std::alloc::Global;
use std::test::Fail;

/// The arguments, which stand between commas.
fn arguments(alloc: Global, commas: &str) -> Result<Vec<Text>, Fail> {
    let mut args = Vec::new(alloc);
    for part in commas.as_bytes().split(|b| *b == b',') {
        args.push(Text::from_slice(alloc, part)?)?;
    }
    Ok(args)
}

/// A call, and the text that it gives; none where its arguments are bad.
type Case = (&'static str, &'static str, Option<&'static str>);

static CASES: [Case; 46] = [
    // the examples of GNU make's manual on its functions for strings
    (
        "subst",
        "ee,EE,feet on the street",
        Some("fEEt on the strEEt"),
    ),
    ("patsubst", "%.c,%.o,x.c.c bar.c", Some("x.c.o bar.o")),
    ("strip", " a b  c ", Some("a b c")),
    ("findstring", "a,a b c", Some("a")),
    ("findstring", "a,b c", Some("")),
    (
        "filter",
        "%.c %.s,foo.c bar.c baz.s ugh.h",
        Some("foo.c bar.c baz.s"),
    ),
    (
        "filter-out",
        "main1.o main2.o,main1.o foo.o main2.o bar.o",
        Some("foo.o bar.o"),
    ),
    ("sort", "foo bar lose", Some("bar foo lose")),
    ("word", "2,foo bar baz", Some("bar")),
    ("wordlist", "2,3,foo bar baz", Some("bar baz")),
    ("firstword", "foo bar", Some("foo")),
    ("lastword", "foo bar", Some("bar")),
    // what GNU make 4.3 printed
    ("subst", ",X,abc", Some("abcX")),
    ("subst", "aa,b,aaa", Some("ba")),
    ("subst", "a,,banana", Some("bnn")),
    ("subst", "ab,X,aabab", Some("aXX")),
    ("patsubst", "%,x%y%,a b", Some("xay% xby%")),
    ("patsubst", "%%,%%,a%", Some("a%")),
    ("patsubst", "a,%b,a b", Some("%b b")),
    ("patsubst", "%.c,,x.c y.h", Some("y.h")),
    ("sort", "b a  b c a", Some("a b c")),
    ("sort", "a ab aa b B", Some("B a aa ab b")),
    ("filter", "%.c a% b,ab.h b x.c y", Some("ab.h b x.c")),
    ("filter-out", "%.c a% b,ab.h b x.c y", Some("y")),
    ("filter", ",a b", Some("")),
    ("findstring", ",abc", Some("")),
    ("word", "4,a b c", Some("")),
    ("wordlist", "3,2,a b c d", Some("")),
    ("wordlist", "1,0,a b", Some("")),
    ("words", "foo bar baz", Some("3")),
    ("words", "", Some("0")),
    ("lastword", "", Some("")),
    // one space between words, and a word that becomes empty goes with its blank
    ("wordlist", "2,3,a b c d", Some("b c")),
    ("wordlist", "2,9,a b\t c,d", Some("b c")),
    ("patsubst", "a%,%,ab a c", Some("b c")),
    // bad arguments
    ("word", "0,a", None),
    ("word", "1 ,a", None),
    ("word", "01,a", None),
    ("word", "4294967296,a", None),
    ("word", "-1,a", None),
    ("word", ",a", None),
    ("wordlist", "0,1,a", None),
    ("wordlist", "1,00,a", None),
    ("subst", "a,b", None),
    ("filter", "a", None),
    ("wordlist", "1,2", None),
];

#[test]
fn calls_give_texts(rt: HostRuntime) -> Result<(), Fail> {
    for (name, args, want) in &CASES {
        let args = arguments(rt.alloc(), args)?;
        match text_function(rt.alloc(), name.as_bytes(), &args) {
            Ok(Some(text)) => {
                assert!(rt;
                    want.is_some_and(|want| text.bytes() == want.as_bytes()),
                    "at {name}"
                );
            }
            Err(TextfnNo::BadArgument) => assert!(rt; want.is_none(), "at {name}"),
            _ => assert!(rt; false, "at {name}"),
        }
    }
    Ok(())
}

#[test]
fn other_names_are_no_text_functions(rt: HostRuntime) -> Result<(), Fail> {
    let args = arguments(rt.alloc(), "a/b")?;
    for name in [b"dir".as_slice(), b"Sort", b"", b"subst "] {
        assert!(rt; text_function(rt.alloc(), name, &args)?.is_none());
    }
    Ok(())
}
