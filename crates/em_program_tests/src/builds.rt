//! Worked builds: words, the image before, what is printed, the status, and the image after it.

/// Words that blanks part; the image before, or none where it is the one that the build before
/// left; what is printed; the status; and what becomes of the image.
pub struct Build {
    pub words: &'static str,
    pub before: Option<&'static [u8]>,
    pub printed: &'static [u8],
    pub status: u8,
    pub after: After,
}

/// What becomes of the image.
pub enum After {
    /// It stays as it is.
    Same,
    /// It is this one.
    Is(&'static [u8]),
    /// It isn't told.
    Any,
}

/// A program of two sources, with a pattern rule and a header that is made.
pub const PROJECT: &[u8] =
    b"EMTREE 1\nd 5 /\nf 5 240 /Makefile\nSRC := main.c util.c\nOBJ := $(SRC:.c=.o)\n.PHONY: all clean edit\nall: config.h prog\nprog: $(OBJ)\n\tcat $^ > $@\n%.o: %.c\n\tcat $< config.h > $@\nconfig.h: config.in\n\techo '#define N 1' > $@\nedit:\n\ttouch main.c\nclean:\n\trm -f $(OBJ) prog config.h\n\nf 5 2 /config.in\n1\n\nf 5 5 /main.c\nmain\n\nf 5 5 /util.c\nutil\n\n.\n";

pub static BUILDS: [Build; 63] = [
    Build {
        words: "-I i",
        before: Some(b"EMTREE 1\nd 1 /\nf 1 15 /Makefile\nall:\n\t@echo hi\n\n.\n"),
        printed: b"hi\n",
        status: 0,
        after: After::Same,
    },
    Build {
        words: "-I i a",
        before: Some(b"EMTREE 1\nd 5 /\nf 5 28 /Makefile\na: b\n\tcp b a\nb:\n\techo x > b\n\n.\n"),
        printed: b"echo x > b\ncp b a\n",
        status: 0,
        after: After::Is(
            b"EMTREE 1\nd 1048582 /\nf 5 28 /Makefile\na: b\n\tcp b a\nb:\n\techo x > b\n\nf 1048582 2 /a\nx\n\nf 7 2 /b\nx\n\n.\n",
        ),
    },
    Build {
        words: "-I i",
        before: Some(
            b"EMTREE 1\nd 5 /\nf 5 42 /Makefile\nall: gen use\ngen:\n\techo 1 > g\nuse:\n\tcat g\n\n.\n",
        ),
        printed: b"echo 1 > g\ncat g\n1\n",
        status: 0,
        after: After::Is(
            b"EMTREE 1\nd 6 /\nf 5 42 /Makefile\nall: gen use\ngen:\n\techo 1 > g\nuse:\n\tcat g\n\nf 7 2 /g\n1\n\n.\n",
        ),
    },
    Build {
        words: "-I i",
        before: Some(
            b"EMTREE 1\nd 5 /\nf 5 58 /Makefile\nall: gen use\ngen:\n\techo 1 > g\nuse:\n\ttest -f g && echo yes\n\n.\n",
        ),
        printed: b"echo 1 > g\ntest -f g && echo yes\nyes\n",
        status: 0,
        after: After::Any,
    },
    Build {
        words: "-I i",
        before: Some(
            b"EMTREE 1\nd 5 /\nf 5 80 /Makefile\nall: mk show glob\nmk:\n\techo x > b.c\nshow:\n\techo $(wildcard *.c)\nglob:\n\techo *.c\n\nf 5 0 /a.c\n\n.\n",
        ),
        printed: b"echo x > b.c\necho a.c b.c\na.c b.c\necho *.c\na.c b.c\n",
        status: 0,
        after: After::Any,
    },
    Build {
        words: "-I i a",
        before: Some(
            b"EMTREE 1\nd 1048582 /\nf 5 28 /Makefile\na: b\n\tcp b a\nb:\n\techo x > b\n\nf 1048582 2 /a\nx\n\nf 7 2 /b\nx\n\n.\n",
        ),
        printed: b"emake: 'a' is up to date.\n",
        status: 0,
        after: After::Same,
    },
    Build {
        words: "-I i all",
        before: Some(
            b"EMTREE 1\nd 5 /\nf 5 34 /Makefile\nall: a z\na:\n\tfalse\nz:\n\techo z > z\n\n.\n",
        ),
        printed: b"false\nemake: *** [Makefile:3: a] Error 1\n",
        status: 2,
        after: After::Same,
    },
    Build {
        words: "-k -I i all",
        before: Some(
            b"EMTREE 1\nd 5 /\nf 5 34 /Makefile\nall: a z\na:\n\tfalse\nz:\n\techo z > z\n\n.\n",
        ),
        printed: b"false\nemake: *** [Makefile:3: a] Error 1\necho z > z\nemake: Target 'all' not remade because of errors.\n",
        status: 2,
        after: After::Is(
            b"EMTREE 1\nd 1048582 /\nf 5 34 /Makefile\nall: a z\na:\n\tfalse\nz:\n\techo z > z\n\nf 1048583 2 /z\nz\n\n.\n",
        ),
    },
    Build {
        words: "-I i",
        before: Some(b"EMTREE 1\nd 5 /\nf 5 26 /Makefile\nall: mk x\nmk:\n\techo 1 > x\n\n.\n"),
        printed: b"echo 1 > x\n",
        status: 0,
        after: After::Any,
    },
    Build {
        words: "-I i",
        before: Some(b"EMTREE 1\nd 5 /\nf 5 26 /Makefile\nall: x mk\nmk:\n\techo 1 > x\n\n.\n"),
        printed: b"emake: *** No rule to make target 'x', needed by 'all'.  Stop.\n",
        status: 2,
        after: After::Same,
    },
    Build {
        words: "-I i",
        before: Some(b"EMTREE 1\nd 0 /\n.\n"),
        printed: b"emake: *** No targets specified and no makefile found.  Stop.\n",
        status: 2,
        after: After::Same,
    },
    Build {
        words: "-I i",
        before: Some(b"EMTREE 1\nd 5 /\nf 5 6 /Makefile\nX = 1\n\n.\n"),
        printed: b"emake: *** No targets.  Stop.\n",
        status: 2,
        after: After::Same,
    },
    Build {
        words: "-I i",
        before: Some(
            b"EMTREE 1\nd 5 /\nf 5 34 /Makefile\nall:\n\techo a > f\n\techo a & echo b\n\n.\n",
        ),
        printed: b"echo a > f\necho a & echo b\nemake: *** [Makefile:3: all] Refused: &.  Stop.\n",
        status: 4,
        after: After::Is(
            b"EMTREE 1\nd 6 /\nf 5 34 /Makefile\nall:\n\techo a > f\n\techo a & echo b\n\nf 7 2 /f\na\n\n.\n",
        ),
    },
    Build {
        words: "-I i",
        before: Some(b"EMTREE 1\nd 5 /\nf 5 29 /Makefile\nall:\n\twhile true; do :; done\n\n.\n"),
        printed: b"while true; do :; done\nemake: *** [Makefile:2: all] Fuel spent.  Stop.\n",
        status: 5,
        after: After::Same,
    },
    Build {
        words: "-I i",
        before: Some(b"EMTREE 1\nd 1 /\nf 1 15 /Makefile\nall:\n\t@e"),
        printed: b"emake: *** image: Short at byte 40.  Stop.\n",
        status: 2,
        after: After::Same,
    },
    Build {
        words: "-I i",
        before: Some(b"EMTREE 1\nd 1 /\nf 1 15 /Makefile\nall:\n\t@echo hi\n\n.\nx"),
        printed: b"emake: *** image: Rest at byte 50.  Stop.\n",
        status: 2,
        after: After::Same,
    },
    Build {
        words: "-I i",
        before: Some(b"EMTREE 1\nd 5 /\nf 5 24 /Makefile\nA = $(A)\nB := $(A)\nall:\n\n.\n"),
        printed: b"Makefile:2: *** Recursive variable 'A' references itself (eventually).  Stop.\n",
        status: 2,
        after: After::Same,
    },
    Build {
        words: "-I i",
        before: Some(b"EMTREE 1\nd 5 /\nf 5 28 /Makefile\nA := $(A)x\nall:\n\t@echo $(A)\n\n.\n"),
        printed: b"x\n",
        status: 0,
        after: After::Same,
    },
    Build {
        words: "-I i b",
        before: Some(b"EMTREE 1\nd 5 /\nf 5 23 /Makefile\nb:\n\techo x > t\n\tmv t b\n\n.\n"),
        printed: b"echo x > t\nmv t b\n",
        status: 0,
        after: After::Is(
            b"EMTREE 1\nd 9 /\nf 5 23 /Makefile\nb:\n\techo x > t\n\tmv t b\n\nf 7 2 /b\nx\n\n.\n",
        ),
    },
    Build {
        words: "-B -I i c",
        before: Some(b"EMTREE 1\nd 5 /\nf 5 14 /Makefile\nc:\n\tcat c > c\n\nf 5 1 /c\nq\n.\n"),
        printed: b"cat c > c\n",
        status: 0,
        after: After::Is(b"EMTREE 1\nd 5 /\nf 5 14 /Makefile\nc:\n\tcat c > c\n\nf 6 0 /c\n\n.\n"),
    },
    Build {
        words: "-I i a",
        before: Some(
            b"EMTREE 1\nd 5 /\nf 5 40 /Makefile\n.DELETE_ON_ERROR:\na:\n\techo x > a\n\tfalse\n\n.\n",
        ),
        printed: b"echo x > a\nfalse\nemake: *** [Makefile:4: a] Error 1\nemake: *** Deleting file 'a'\n",
        status: 2,
        after: After::Is(
            b"EMTREE 1\nd 8 /\nf 5 40 /Makefile\n.DELETE_ON_ERROR:\na:\n\techo x > a\n\tfalse\n\n.\n",
        ),
    },
    Build {
        words: "-q -I i a",
        before: Some(b"EMTREE 1\nd 5 /\nf 5 28 /Makefile\na: b\n\tcp b a\nb:\n\techo x > b\n\n.\n"),
        printed: b"",
        status: 1,
        after: After::Same,
    },
    Build {
        words: "-q -I i a",
        before: Some(
            b"EMTREE 1\nd 1048582 /\nf 5 28 /Makefile\na: b\n\tcp b a\nb:\n\techo x > b\n\nf 1048582 2 /a\nx\n\nf 7 2 /b\nx\n\n.\n",
        ),
        printed: b"",
        status: 0,
        after: After::Same,
    },
    Build {
        words: "-n -I i a",
        before: Some(b"EMTREE 1\nd 5 /\nf 5 28 /Makefile\na: b\n\tcp b a\nb:\n\techo x > b\n\n.\n"),
        printed: b"echo x > b\ncp b a\n",
        status: 0,
        after: After::Same,
    },
    Build {
        words: "-I i x y",
        before: Some(
            b"EMTREE 1\nd 5 /\nf 5 77 /Makefile\ndefine T\n$(1):\n\techo made $(1)\nendef\n$(foreach p,x y,$(eval $(call T,$(p))))\n\n.\n",
        ),
        printed: b"echo made x\nmade x\necho made y\nmade y\n",
        status: 0,
        after: After::Same,
    },
    Build {
        words: "-I i a",
        before: Some(b"EMTREE 1\nd 5 /\nf 5 10 /Makefile\na: b\nb: a\n\n.\n"),
        printed: b"emake: Circular b <- a dependency dropped.\nemake: Nothing to be done for 'a'.\n",
        status: 0,
        after: After::Same,
    },
    Build {
        words: "-j 0 -I i",
        before: Some(b"EMTREE 1\nd 5 /\nf 5 3 /Makefile\na:\n\n.\n"),
        printed: b"emake: *** bad number '0'.  Stop.\n",
        status: 2,
        after: After::Same,
    },
    Build {
        words: "",
        before: Some(b"EMTREE 1\nd 5 /\nf 5 3 /Makefile\na:\n\n.\n"),
        printed: b"emake: *** missing -I.  Stop.\n",
        status: 2,
        after: After::Same,
    },
    Build {
        words: "-I i =x",
        before: Some(b"EMTREE 1\nd 5 /\nf 5 3 /Makefile\na:\n\n.\n"),
        printed: b"emake: *** bad name '=x'.  Stop.\n",
        status: 2,
        after: After::Same,
    },
    Build {
        words: "-I i --report i",
        before: Some(b"EMTREE 1\nd 5 /\nf 5 3 /Makefile\na:\n\n.\n"),
        printed: b"emake: *** same file 'i'.  Stop.\n",
        status: 2,
        after: After::Same,
    },
    Build {
        words: "-I i -I i",
        before: Some(b"EMTREE 1\nd 5 /\nf 5 3 /Makefile\na:\n\n.\n"),
        printed: b"emake: *** bad words.  Stop.\n",
        status: 2,
        after: After::Same,
    },
    Build {
        words: "-j 2 -I i",
        before: Some(b"EMTREE 1\nd 5 /\nf 5 3 /Makefile\na:\n\n.\n"),
        printed: b"emake: Nothing to be done for 'a'.\n",
        status: 0,
        after: After::Same,
    },
    Build {
        words: "--mode all -I i",
        before: Some(b"EMTREE 1\nd 5 /\nf 5 3 /Makefile\na:\n\n.\n"),
        printed: b"emake: *** bad words.  Stop.\n",
        status: 2,
        after: After::Same,
    },
    Build {
        words: "-I i -C no",
        before: Some(b"EMTREE 1\nd 5 /\nf 5 3 /Makefile\na:\n\n.\n"),
        printed: b"emake: *** no: no such directory.  Stop.\n",
        status: 2,
        after: After::Same,
    },
    Build {
        words: "-I i -C Makefile",
        before: Some(b"EMTREE 1\nd 5 /\nf 5 3 /Makefile\na:\n\n.\n"),
        printed: b"emake: *** Makefile: no such directory.  Stop.\n",
        status: 2,
        after: After::Same,
    },
    Build {
        words: "-I i -C d",
        before: Some(b"EMTREE 1\nd 5 /\nf 5 3 /Makefile\na:\n\nd 5 /d\n.\n"),
        printed: b"emake: *** No targets specified and no makefile found.  Stop.\n",
        status: 2,
        after: After::Same,
    },
    Build {
        words: "-I i",
        before: Some(b"EMTREE 1\nd 5 /\nf 5 21 /Makefile\nifdef X\nall:\n\techo 1\n\n.\n"),
        printed: b"Makefile:1: *** missing endif.  Stop.\n",
        status: 2,
        after: After::Same,
    },
    Build {
        words: "-I i",
        before: Some(b"EMTREE 1\nd 5 /\nf 5 11 /Makefile\ninclude no\n\n.\n"),
        printed: b"Makefile:1: *** no: absent.  Stop.\n",
        status: 2,
        after: After::Same,
    },
    Build {
        words: "-I i",
        before: Some(b"EMTREE 1\nd 5 /\nf 5 24 /Makefile\n$(info said)\n$(error e)\n\n.\n"),
        printed: b"said\nMakefile:2: *** e.  Stop.\n",
        status: 2,
        after: After::Same,
    },
    Build {
        words: "-I i",
        before: Some(b"EMTREE 1\nd 5 /\nf 5 26 /Makefile\nall:\n\t-nothere\n\t@echo $$?\n\n.\n"),
        printed: b"nothere\nemake: sh: nothere: not found\nemake: [Makefile:2: all] Error 127 (ignored)\n0\n",
        status: 0,
        after: After::Same,
    },
    Build {
        words: "-I i",
        before: Some(
            b"EMTREE 1\nd 5 /\nf 5 21 /Makefile\na: b c\n\techo $? > $@\n\nf 5 0 /a\n\nf 9 0 /b\n\nf 3 0 /c\n\n.\n",
        ),
        printed: b"echo b > a\n",
        status: 0,
        after: After::Is(
            b"EMTREE 1\nd 5 /\nf 5 21 /Makefile\na: b c\n\techo $? > $@\n\nf 2097163 2 /a\nb\n\nf 9 0 /b\n\nf 3 0 /c\n\n.\n",
        ),
    },
    Build {
        words: "-I i X=$(V)",
        before: Some(
            b"EMTREE 1\nd 5 /\nf 5 105 /Makefile\nexport E = $(info once)$(V)e\nexport S := s$$\nF = f\nV := v\nX = x\nall:\n\t@echo $$E$$F$$S$$X; E=1\n\t@echo $$E\n\n.\n",
        ),
        printed: b"once\nves$$(V)\nve\n",
        status: 0,
        after: After::Same,
    },
    Build {
        words: "-i -I i",
        before: Some(
            b"EMTREE 1\nd 5 /\nf 5 40 /Makefile\nall: a b\na:\n\tfalse\n\techo 1\nb:\n\t@nothere\n\n.\n",
        ),
        printed: b"false\nemake: [Makefile:3: a] Error 1 (ignored)\necho 1\n1\nemake: sh: nothere: not found\nemake: [Makefile:6: b] Error 127 (ignored)\n",
        status: 0,
        after: After::Same,
    },
    Build {
        words: "-I i",
        before: Some(
            b"EMTREE 1\nd 5 /\nf 5 56 /Makefile\n.IGNORE: a\nall: a b\na:\n\tfalse\n\techo 1\nb:\n\tfalse\n\techo 2\n\n.\n",
        ),
        printed: b"false\nemake: [Makefile:4: a] Error 1 (ignored)\necho 1\n1\nfalse\nemake: *** [Makefile:7: b] Error 1\n",
        status: 2,
        after: After::Same,
    },
    Build {
        words: "-I i",
        before: Some(
            b"EMTREE 1\nd 5 /\nf 5 29 /Makefile\n.IGNORE:\nall:\n\tfalse\n\techo 1\n\n.\n",
        ),
        printed: b"false\nemake: [Makefile:3: all] Error 1 (ignored)\necho 1\n1\n",
        status: 0,
        after: After::Same,
    },
    Build {
        words: "-I i",
        before: Some(
            b"EMTREE 1\nd 5 /\nf 5 42 /Makefile\n.SILENT: a\nall: a b\na:\n\techo 1\nb:\n\techo 2\n\n.\n",
        ),
        printed: b"1\necho 2\n2\n",
        status: 0,
        after: After::Same,
    },
    Build {
        words: "-I i",
        before: Some(b"EMTREE 1\nd 5 /\nf 5 22 /Makefile\n.SILENT:\nall:\n\techo 1\n\n.\n"),
        printed: b"1\n",
        status: 0,
        after: After::Same,
    },
    Build {
        words: "-s -I i",
        before: Some(b"EMTREE 1\nd 5 /\nf 5 13 /Makefile\nall:\n\techo 1\n\n.\n"),
        printed: b"1\n",
        status: 0,
        after: After::Same,
    },
    Build {
        words: "-I i",
        before: Some(
            b"EMTREE 1\nd 5 /\nf 5 65 /Makefile\nall: a d\na: b | c\n\techo a > a\nc:\n\techo c > c\nd: b | c\n\tcat c > d\n\nf 5 0 /a\n\nf 3 0 /b\n\n.\n",
        ),
        printed: b"echo c > c\ncat c > d\n",
        status: 0,
        after: After::Is(
            b"EMTREE 1\nd 3145734 /\nf 5 65 /Makefile\nall: a d\na: b | c\n\techo a > a\nc:\n\techo c > c\nd: b | c\n\tcat c > d\n\nf 5 0 /a\n\nf 3 0 /b\n\nf 1048583 2 /c\nc\n\nf 3145735 2 /d\nc\n\n.\n",
        ),
    },
    Build {
        words: "-k -I i",
        before: Some(
            b"EMTREE 1\nd 5 /\nf 5 94 /Makefile\n.DELETE_ON_ERROR:\n.PHONY: p\nall: p u d\np:\n\techo x > p; false\nu: x\n\tfalse\nd: x\n\ttouch d; false\n\nd 5 /d\nf 5 0 /u\n\nf 6 0 /x\n\n.\n",
        ),
        printed: b"echo x > p; false\nemake: *** [Makefile:5: p] Error 1\nfalse\nemake: *** [Makefile:7: u] Error 1\ntouch d; false\nemake: *** [Makefile:9: d] Error 1\nemake: Target 'all' not remade because of errors.\n",
        status: 2,
        after: After::Is(
            b"EMTREE 1\nd 7 /\nf 5 94 /Makefile\n.DELETE_ON_ERROR:\n.PHONY: p\nall: p u d\np:\n\techo x > p; false\nu: x\n\tfalse\nd: x\n\ttouch d; false\n\nd 3145735 /d\nf 8 2 /p\nx\n\nf 5 0 /u\n\nf 6 0 /x\n\n.\n",
        ),
    },
    Build {
        words: "-I i",
        before: Some(
            b"EMTREE 1\nd 5 /\nf 5 53 /Makefile\ninclude c.mk\nall:\n\t@echo $(X)\nc.mk: src\n\tcp src c.mk\n\nf 5 6 /src\nX = 1\n\n.\n",
        ),
        printed: b"cp src c.mk\n1\n",
        status: 0,
        after: After::Is(
            b"EMTREE 1\nd 1048582 /\nf 5 53 /Makefile\ninclude c.mk\nall:\n\t@echo $(X)\nc.mk: src\n\tcp src c.mk\n\nf 1048582 6 /c.mk\nX = 1\n\nf 5 6 /src\nX = 1\n\n.\n",
        ),
    },
    Build {
        words: "-I i",
        before: None,
        printed: b"1\n",
        status: 0,
        after: After::Same,
    },
    Build {
        words: "-I i -q",
        before: Some(
            b"EMTREE 1\nd 5 /\nf 5 53 /Makefile\ninclude c.mk\nall:\n\t@echo $(X)\nc.mk: src\n\tcp src c.mk\n\nf 5 6 /src\nX = 1\n\n.\n",
        ),
        printed: b"cp src c.mk\n",
        status: 1,
        after: After::Same,
    },
    Build {
        words: "-I i -n",
        before: Some(
            b"EMTREE 1\nd 5 /\nf 5 53 /Makefile\ninclude c.mk\nall:\n\t@echo $(X)\nc.mk: src\n\tcp src c.mk\n\nf 5 6 /src\nX = 1\n\n.\n",
        ),
        printed: b"cp src c.mk\necho 1\n",
        status: 0,
        after: After::Is(
            b"EMTREE 1\nd 1048582 /\nf 5 53 /Makefile\ninclude c.mk\nall:\n\t@echo $(X)\nc.mk: src\n\tcp src c.mk\n\nf 1048582 6 /c.mk\nX = 1\n\nf 5 6 /src\nX = 1\n\n.\n",
        ),
    },
    Build {
        words: "-I i",
        before: Some(
            b"EMTREE 1\nd 5 /\nf 5 53 /Makefile\ninclude c.mk\nall:\n\t@echo $(X)\nc.mk: src\n\tcp src c.mk\n\n.\n",
        ),
        printed: b"emake: *** No rule to make target 'src', needed by 'c.mk'.  Stop.\n",
        status: 2,
        after: After::Same,
    },
    Build {
        words: "-I i",
        before: Some(
            b"EMTREE 1\nd 5 /\nf 5 55 /Makefile\ninclude c.mk\nall:\nc.mk: FORCE\n\t@echo '#' > c.mk\nFORCE:\n\n.\n",
        ),
        printed: b"emake: *** Makefiles still change after 8 readings.  Stop.\n",
        status: 2,
        after: After::Same,
    },
    Build {
        words: "-I i",
        before: Some(
            b"EMTREE 1\nd 5 /\nf 5 42 /Makefile\n-include d.mk\nall:\n\t@echo hi\nd.mk:\n\tfalse\n\n.\n",
        ),
        printed: b"false\nemake: *** [Makefile:5: d.mk] Error 1\n",
        status: 2,
        after: After::Same,
    },
    Build {
        words: "-I i -k",
        before: Some(
            b"EMTREE 1\nd 5 /\nf 5 42 /Makefile\n-include d.mk\nall:\n\t@echo hi\nd.mk:\n\tfalse\n\n.\n",
        ),
        printed: b"false\nemake: *** [Makefile:5: d.mk] Error 1\nhi\n",
        status: 2,
        after: After::Same,
    },
    Build {
        words: "-I i",
        before: Some(
            b"EMTREE 1\nd 5 /\nf 5 40 /Makefile\ninclude d.mk\nall:\n\t@echo hi\nd.mk:\n\ttrue\n\n.\n",
        ),
        printed: b"true\nMakefile:1: *** d.mk: absent.  Stop.\n",
        status: 2,
        after: After::Same,
    },
    Build {
        words: "-I i",
        before: Some(PROJECT),
        printed: b"echo '#define N 1' > config.h\ncat main.c config.h > main.o\ncat util.c config.h > util.o\ncat main.o util.o > prog\n",
        status: 0,
        after: After::Any,
    },
    Build {
        words: "-I i",
        before: None,
        printed: b"emake: Nothing to be done for 'all'.\n",
        status: 0,
        after: After::Same,
    },
    Build {
        words: "-I i edit",
        before: None,
        printed: b"touch main.c\n",
        status: 0,
        after: After::Any,
    },
    Build {
        words: "-I i",
        before: None,
        printed: b"cat main.c config.h > main.o\ncat main.o util.o > prog\n",
        status: 0,
        after: After::Any,
    },
];

/// Makes within a make, in the same form.
pub static MAKES: [Build; 5] = [
    Build {
        words: "-I i",
        before: Some(
            b"EMTREE 1\nd 5 /\nf 5 21 /Makefile\nall:\n\t$(MAKE) -C d x\n\nd 5 /d\nf 5 15 /d/Makefile\nx:\n\techo 1 > x\n\n.\n",
        ),
        printed: b"emake -C d x\necho 1 > x\n",
        status: 0,
        after: After::Is(
            b"EMTREE 1\nd 5 /\nf 5 21 /Makefile\nall:\n\t$(MAKE) -C d x\n\nd 6 /d\nf 5 15 /d/Makefile\nx:\n\techo 1 > x\n\nf 7 2 /d/x\n1\n\n.\n",
        ),
    },
    Build {
        words: "-I i",
        before: Some(
            b"EMTREE 1\nd 5 /\nf 5 21 /Makefile\nall:\n\t$(MAKE) -C d x\n\nd 6 /d\nf 5 15 /d/Makefile\nx:\n\techo 1 > x\n\nf 7 2 /d/x\n1\n\n.\n",
        ),
        printed: b"emake -C d x\nemake: 'x' is up to date.\n",
        status: 0,
        after: After::Same,
    },
    Build {
        words: "-I i",
        before: Some(
            b"EMTREE 1\nd 5 /\nf 5 24 /Makefile\nall:\n\tcd d && $(MAKE) x\n\nd 5 /d\nf 5 15 /d/Makefile\nx:\n\techo 1 > x\n\n.\n",
        ),
        printed: b"cd d && emake x\necho 1 > x\n",
        status: 0,
        after: After::Any,
    },
    Build {
        words: "-I i",
        before: Some(
            b"EMTREE 1\nd 5 /\nf 5 21 /Makefile\nall:\n\t$(MAKE) -C d x\n\nd 5 /d\nf 5 10 /d/Makefile\nx:\n\tfalse\n\n.\n",
        ),
        printed: b"emake -C d x\nfalse\nemake: *** [Makefile:2: x] Error 1\nemake: *** [Makefile:2: all] Error 2\n",
        status: 2,
        after: After::Same,
    },
    // a makefile that calls itself
    Build {
        words: "-I i",
        before: Some(b"EMTREE 1\nd 5 /\nf 5 15 /Makefile\nall:\n\t@$(MAKE)\n\n.\n"),
        printed: b"emake: *** [Makefile:2: all] Refused: depth.  Stop.\n",
        status: 4,
        after: After::Same,
    },
];
