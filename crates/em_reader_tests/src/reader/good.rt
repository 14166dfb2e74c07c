//! Makefiles that are read.
use super::*;

/// Rules.
const RULES: [Row; 27] = [
    (b"", b"="),
    (
        b"a: b | c ;echo 1\n\techo 2\n",
        b"a: b|c{echo 1}{echo 2}\n=a",
    ),
    (b"a b: ./c d\n", b"a b: c d|\n=a"),
    (
        b"x.o y.o: %.o: %.c | d\n\tcc\n",
        b"x.o: x.c|d{cc}\ny.o: y.c|d{cc}\n=x.o",
    ),
    (b"%.o: %.c\n\tcc\n", b"%.o: %.c|{cc}\n="),
    (
        b"%.o: %.c\n\tcc\n%.p: %.c ;pp\n%.o: %.c\n",
        b"%.p: %.c|{pp}\n=",
    ),
    (b"all: *.c *.h\n", b"all: a.c b.c *.h|\n=all"),
    (b"*.c: x\n", b"a.c b.c: x|\n=a.c"),
    (b".b:\n.d/e:\n", b".b: |\n.d/e: |\n=.d/e"),
    (b".DEFAULT_GOAL = $(G)\nG = z\nall:\n", b"all: |\n=z"),
    (
        b"a:\n\t1\nb a:\n\t2\n",
        b"Makefile:3: warning: overriding recipe for target 'a'\na: |{1}\nb a: |{2}\n=a",
    ),
    (b"T = a\nP = b c\n$(T): $(P)\nT = z\n", b"a: b c|\n=a"),
    (
        b"a:\n\t1\n\n# c\n\t# d\nifdef X\n\t2\nelse\n\t3\nendif\n",
        b"a: |{1}{# d}{3}\n=a",
    ),
    (b"a: ;\n", b"a: |{}\n=a"),
    (b"a: #b\n\t1\\\n\t2\n", b"a: |{1\\\n2}\n=a"),
    (
        b"a:\n\t$(if x,p \\\n\tq \\\n \\\n r) \\\n\t2\n",
        b"a: |{$(if x,p q r) \\\n2}\n=a",
    ),
    (b"%.o: %.o: b\na:\n", b"%.o: b|\na: |\n=a"),
    (b"x y &: s | o ;1\n", b"x y: s|o{1}\n=x"),
    (b"x y&: s\n\t1\n", b"x y: s|{1}\n=x"),
    (b"&: s\n", b": s|\n="),
    (
        b"a.o b.o &: %.o: %.c | %.h ;1\n",
        b"a.o b.o: a.c b.c|a.h b.h{1}\n=a.o",
    ),
    (b"%.a %.b: %.c ;1\n", b"%.a %.b: %.c|{1}\n="),
    (b"%.a %.b &: %.c ;1\n%.a %.b: %.c\na:\n", b"a: |\n=a"),
    (
        b"t:: a ;1\nt t:: b | c ;2\n",
        b"t: a|{1}\nt: b|c{2}\nt: b|c{2}\n=t",
    ),
    (
        b"a.o b.o:: %.o: %.c ;1\n",
        b"a.o: a.c|{1}\nb.o: b.c|{1}\n=a.o",
    ),
    (
        b"x y &: ;1\ny: ;2\n",
        b"Makefile:2: warning: overriding recipe for target 'y'\nx y: |{1}\ny: |{2}\n=x",
    ),
    (
        b".PHONY: a\n.SUFFIXES:\n.NOTPARALLEL: a\n",
        b".PHONY: a|\n.SUFFIXES: |\n.NOTPARALLEL: a|\n=",
    ),
];

/// Variables.
const VARIABLES: [Row; 22] = [
    (b"V = a$(X) # c\nX = b\n", b"= V=a$(X) "),
    (b"X = b\nV := a$(X)\n", b"= V=ab"),
    (b"X = b\nV ::= a$(X)\n", b"= V=ab"),
    (b"V ?= a\nV ?= b\n", b"= V=a"),
    (b"V += a\nV += $(X)\n", b"= V=a $(X)"),
    (b"V := a\nX = b\nV += $(X)\n", b"= V=a b"),
    (b"V = a \\\n   b\n", b"= V=a b"),
    (b"define V\na\n\nb\nendef\n", b"= V=a\n\nb"),
    (b"define V :=\n$(X)1\nendef\n", b"= V=1"),
    (
        b"define V\ndefine W\nx\nendef\nendef\n",
        b"= V=define W\nx\nendef",
    ),
    (b"V = 1\nundefine V\n", b"="),
    (b"override V = 1\nV = 2\n", b"= V=1"),
    (b"override V = 1\noverride V = 2\n", b"= V=2"),
    (b"V = 1\nexport V\n", b"=+V=1"),
    (b"export V = 1\n", b"=+V=1"),
    (b"export V\n", b"=+V="),
    (b"export V = 1\nunexport V\n", b"= V=1"),
    (b"N = V\n$(N) = 1\n", b"= V=1"),
    (
        b"V := $(MAKE) $(CURDIR) $(MAKECMDGOALS).\n",
        b"= V=emake / .",
    ),
    (b"V := 2$(eval V := 1)\n", b"= V=2"),
    (
        b"V := $(flavor MAKE) $(origin MAKE)\n",
        b"= V=simple default",
    ),
    (
        b"$(info hi)\nV := $(warning x)\n",
        b"hi\nMakefile:2: x\n= V=",
    ),
];

/// Conditionals, `include`, `eval`.
const TEXTS: [Row; 17] = [
    (b"ifeq (a,a)\nV = 1\nelse\nV = 2\nendif\n", b"= V=1"),
    (b"ifneq (a, a)\nV = 1\nelse\nV = 2\nendif\n", b"= V=2"),
    (b"ifeq \"a\" 'a'\nV = 1\nendif\n", b"= V=1"),
    (
        b"ifeq (a,b)\nV = 1\nelse ifeq (c,c)\nV = 2\nelse\nV = 3\nendif\n",
        b"= V=2",
    ),
    (
        b"X =\nifdef X\nV = 1\nendif\nifndef X\nV = 2\nendif\n",
        b"= V=2",
    ),
    (
        b"ifdef X\n$(error e)\ninclude no\n\tx\nbad\nV = 1\nelse\nV = 2\nendif\n",
        b"= V=2",
    ),
    (
        b"ifdef X\nifeq ($(error e),)\nendif\nelse\nV = 1\nendif\n",
        b"= V=1",
    ),
    (b"include inc.mk\nV := $(X)\n", b"= V=inc"),
    (b"include i*.mk\nV := $(X)\n", b"= V=inc"),
    (b"-include no\nsinclude no /.. d\nV = 1\n", b"= V=1"),
    (
        b"X = 1\ninclude open.mk\nV = 1\ninclude close.mk\n",
        b"= V=1",
    ),
    (b"include open.mk\nV = 1\nendif\n", b"="),
    (
        b"define T\n$(1):\n\techo made $(1)\nendef\n$(foreach p,x y,$(eval $(call T,$(p))))\n",
        b"x: |{echo made x}\ny: |{echo made y}\n=x",
    ),
    (b"a: $(eval b: c)d\n", b"b: c|\na: d|\n=b"),
    (
        b"define T\ndefine V\n1\nendef\nendef\n$(eval $(T))\n",
        b"= V=1",
    ),
    (b"$(eval ifdef X)\nV = 1\nendif\n", b"="),
    (
        b"ifeq ($(eval V = 1)$(V),)\nW = 1\nendif\nV += $(W)\n",
        b"= V=1 $(W)",
    ),
];

#[test]
fn rules_are_read(rt: HostRuntime) -> Result<(), Fail> {
    compare(rt.alloc(), &RULES)
}

#[test]
fn variables_are_read(rt: HostRuntime) -> Result<(), Fail> {
    compare(rt.alloc(), &VARIABLES)
}

#[test]
fn texts_are_put_in(rt: HostRuntime) -> Result<(), Fail> {
    compare(rt.alloc(), &TEXTS)
}
