//! Makefiles that aren't read, each with its first fault.
use super::*;

/// Faults.
const FAULTS: [Row; 35] = [
    (b"A = $(A)\nB := $(A)\nall:\n", b"*** Makefile:2: self A"),
    (b"ifdef X\nall:\n\techo 1\n", b"*** Makefile:1: no endif"),
    (b"include no\n", b"*** Makefile:1: include no"),
    (b"\ninclude inc.mk no\n", b"*** Makefile:2: include no"),
    (b"include d\n", b"*** Makefile:1: include d"),
    (b"ifdef X\nifdef Y\nendif\n", b"*** Makefile:1: no endif"),
    (b"endif\n", b"*** Makefile:1: conditional"),
    (b"else\n", b"*** Makefile:1: conditional"),
    (
        b"ifdef X\nelse\nelse\nendif\n",
        b"*** Makefile:3: conditional",
    ),
    (b"ifdef X\nelse x\nendif\n", b"*** Makefile:2: separator"),
    (b"ifdef X\nendif x\n", b"*** Makefile:2: separator"),
    (b"ifdef\nendif\n", b"*** Makefile:1: separator"),
    (b"ifdef X Y\nendif\n", b"*** Makefile:1: separator"),
    (b"ifeq a b\nendif\n", b"*** Makefile:1: separator"),
    (b"\na\n", b"*** Makefile:2: separator"),
    (
        b"$(info 1)\nX = $(X)x\n$(X)\n",
        b"1\n*** Makefile:3: self X",
    ),
    (b"V = a b\n$(V)\n", b"*** Makefile:2: separator"),
    (b"define V\nx\n", b"*** Makefile:1: define"),
    (b"ifdef X\nelse\ndefine V\n", b"*** Makefile:3: define"),
    (b"include half.mk\nendef\n", b"*** half.mk:1: define"),
    (b"endef\n", b"*** Makefile:1: separator"),
    (b"\techo\n", b"*** Makefile:1: recipe"),
    (b"a: ;x\nX = 1\n\ty\n", b"*** Makefile:3: recipe"),
    (b"a.x: %.o: %.c\n", b"*** Makefile:1: static a.x"),
    (b"a.o a.x: %.o: %.c\n\t1\n", b"*** Makefile:1: static a.x"),
    (b"$(error e)\n", b"*** Makefile:1: error e"),
    (b"V := $(word 0,a)\n", b"*** Makefile:1: argument word"),
    (b"a: $(b\n", b"*** Makefile:1: unclosed"),
    (b"include bad.mk\n", b"*** bad.mk:2: separator"),
    (b"$(eval bad)\n", b"*** Makefile:1: separator"),
    (b"$(eval a:)\n\techo\n", b"*** Makefile:2: recipe"),
    (
        b"include open.mk\ninclude close.mk\n",
        b"*** open.mk:1: no endif",
    ),
    (
        b"define T\na:\nbad\nendef\n$(eval $(T))\n",
        b"*** Makefile:5: separator",
    ),
    (b"include self.mk\n", b"*** self.mk:1: limit"),
    (
        b"a:\n\t1\na:\n\t2\nbad\n",
        b"Makefile:3: warning: overriding recipe for target 'a'\n*** Makefile:5: separator",
    ),
];

/// Faults of grouped rules and of names with both kinds of rules.
const KINDS: [Row; 14] = [
    (b"a:\na::\n", b"*** Makefile:2: mixed a"),
    (b"a::\nb ./a:\n", b"*** Makefile:2: mixed a"),
    (b"b::\na::\nc a b &: ;x\n", b"*** Makefile:3: mixed a"),
    (b"a.x:\na.x b.o:: %.o: %.c\n", b"*** Makefile:2: static a.x"),
    (b"a b &:\n", b"*** Makefile:1: group a"),
    (b"%.a %.b &: %.c\n", b"*** Makefile:1: group %.a"),
    // it comes before the faults of the next statement and what that says
    (b"\na b &: c\nbad\n", b"*** Makefile:2: group a"),
    (b"a b &:\n$(info 1)\n", b"*** Makefile:1: group a"),
    (b"a &:\nifdef X\n\t1\nendif\n", b"*** Makefile:1: group a"),
    // at the end the earlier place counts
    (b"a &:\nifndef X\n", b"*** Makefile:1: group a"),
    (b"ifndef X\na &:\n", b"*** Makefile:1: no endif"),
    (
        b"ifndef X\na &:\nendif\nifndef Y\n",
        b"*** Makefile:2: group a",
    ),
    (
        b"ifndef X\nifndef Y\na &:\nendif\n",
        b"*** Makefile:1: no endif",
    ),
    (
        b"ifndef X\na: ;1\na &: ;2\n",
        b"Makefile:3: warning: overriding recipe for target 'a'\n*** Makefile:1: no endif",
    ),
];

/// What isn't supported, by its name.
const REFUSED: [Row; 43] = [
    (b"%.o:: b\n", b"*** Makefile:1: refused ::"),
    (b"a &:: b\n", b"*** Makefile:1: refused ::"),
    (b"a: b:: c\n", b"*** Makefile:1: refused ::"),
    (b"%.o p: x\n", b"*** Makefile:1: refused %"),
    (b"a: lib(x)\n", b"*** Makefile:1: refused lib(x)"),
    (b"lib(x): a\n", b"*** Makefile:1: refused lib(x)"),
    (b"V != x\n", b"*** Makefile:1: refused !="),
    (b"V :::= x\n", b"*** Makefile:1: refused :::="),
    (b"a\\%: b\n", b"*** Makefile:1: refused \\%"),
    (b"a: b\\%\n", b"*** Makefile:1: refused \\%"),
    (b"a b: V = 1\n", b"*** Makefile:1: refused a"),
    (b"a: V += 1\n", b"*** Makefile:1: refused a"),
    (b".SUFFIXES: .c\n", b"*** Makefile:1: refused .SUFFIXES"),
    (b".DEFAULT:\n", b"*** Makefile:1: refused .DEFAULT"),
    (
        b".SECONDEXPANSION:\n",
        b"*** Makefile:1: refused .SECONDEXPANSION",
    ),
    (
        b".LOW_RESOLUTION_TIME: a\n",
        b"*** Makefile:1: refused .LOW_RESOLUTION_TIME",
    ),
    (
        b".EXPORT_ALL_VARIABLES:\n",
        b"*** Makefile:1: refused .EXPORT_ALL_VARIABLES",
    ),
    (b".ONESHELL:\n", b"*** Makefile:1: refused .ONESHELL"),
    (b".POSIX:\n", b"*** Makefile:1: refused .POSIX"),
    (
        b".NOTINTERMEDIATE: a\n",
        b"*** Makefile:1: refused .NOTINTERMEDIATE",
    ),
    (b"a: b .WAIT c\n", b"*** Makefile:1: refused .WAIT"),
    (b"VPATH = x\n", b"*** Makefile:1: refused VPATH"),
    (b"VPATH = $(shell x)\n", b"*** Makefile:1: refused VPATH"),
    (
        b".RECIPEPREFIX = >\n",
        b"*** Makefile:1: refused .RECIPEPREFIX",
    ),
    (
        b"\ndefine VPATH\nx\nendef\n",
        b"*** Makefile:2: refused VPATH",
    ),
    (b"vpath %.c d\n", b"*** Makefile:1: refused vpath"),
    (b"private V = 1\n", b"*** Makefile:1: refused private"),
    (b"load x\n", b"*** Makefile:1: refused load"),
    (b"export\n", b"*** Makefile:1: refused export"),
    (b"unexport\n", b"*** Makefile:1: refused unexport"),
    (b"a: $(shell ls)\n", b"*** Makefile:1: refused shell"),
    (b"a :: $(shell x)\n", b"*** Makefile:1: refused shell"),
    (b"a% :: $(shell x)\n", b"*** Makefile:1: refused ::"),
    (b"lib(m) $(shell x): y\n", b"*** Makefile:1: refused lib(m)"),
    (b"a %.o $(shell x): y\n", b"*** Makefile:1: refused %"),
    (b"%.o $(shell x): y\n", b"*** Makefile:1: refused shell"),
    (b"lib(m) $(shell x)\n", b"*** Makefile:1: refused shell"),
    (b"a: $(shell x) .WAIT\n", b"*** Makefile:1: refused shell"),
    // a word that a refused function stands right behind isn't known as a whole
    (b"a: .WAIT$(shell x)\n", b"*** Makefile:1: refused shell"),
    (b"a: .WAIT $(shell x)\n", b"*** Makefile:1: refused .WAIT"),
    (b".SUFFIXES:$(shell x)\n", b"*** Makefile:1: refused shell"),
    (
        b".SUFFIXES: .c$(shell x)\n",
        b"*** Makefile:1: refused .SUFFIXES",
    ),
    (
        b"V := $(eval X = 1)$(realpath x)\n",
        b"*** Makefile:1: refused realpath",
    ),
];

#[test]
fn the_first_fault_is_told(rt: HostRuntime) -> Result<(), Fail> {
    compare(rt.alloc(), &FAULTS)
}

#[test]
fn rules_of_both_kinds_and_groups_without_a_recipe_are_told(rt: HostRuntime) -> Result<(), Fail> {
    compare(rt.alloc(), &KINDS)
}

#[test]
fn what_is_refused_is_named(rt: HostRuntime) -> Result<(), Fail> {
    compare(rt.alloc(), &REFUSED)
}
