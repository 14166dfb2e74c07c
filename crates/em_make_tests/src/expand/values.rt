use super::{Row, compare};
use std::test::Fail;

static VARIABLES: [Row; 17] = [
    (b"", b""),
    (b"plain, (text)", b"plain, (text)"),
    (b"$$x$$$$", b"$x$$"),
    (b"$A-$(A)-${A}", b"a-a-a"),
    (b"$(B)", b"aa"),
    (b"<$(zz)$(E)>", b"<>"),
    (b"$(S)", b"$(1) simple"),
    (b"$($(A)) ${$A}", b"deep deep"),
    (b"$@ $(@)", b"goal goal"),
    (b"$(X:.c=.o)", b"a.o b.o d.h"),
    (b"$(X:%.c=d/%.o)", b"d/a.o d/b.o d.h"),
    (b"<$(X:%.c=)>", b"<d.h>"),
    (b"$(X:.c=)", b"a b d.h"),
    (b"$(B:$(A)$A=x$$)", b"x$"),
    (b"<$(A:a)>", b"<>"),
    (b"$(foreach v,x y,$(v:=.o))", b"x.o y.o"),
    (b"<$(subst)$(call)>", b"<>"),
];

#[test]
fn variables_are_expanded(rt: HostRuntime) -> Result<(), Fail> {
    compare(&rt, rt.alloc(), VARIABLES.as_slice())
}

static BRANCHES: [Row; 17] = [
    (b"$(if  ,y,n)", b"n"),
    (b"$(if $(SP),y,n)", b"y"),
    (b"$(if a,y)<$(if ,y)>", b"y<>"),
    (b"$(if a,y,n,m)-$(if ,y,n,m)", b"y-n,m"),
    (b"$(if a,y,$(error e))$(if ,$(error e),n)", b"yn"),
    (b"<$(or ,, a ,b)><$(or  , )>", b"<a><>"),
    (b"$(or a,$(error e))", b"a"),
    (b"<$(and a, b ,c )><$(and a,,c)>", b"<c><>"),
    (b"<$(and ,$(error e))>", b"<>"),
    (b"$(foreach v,a b,$(v)$(v))", b"aa bb"),
    (b"<$(foreach v,,x)><$(foreach v,a b,)>", b"<>< >"),
    (b"$(foreach v,a b,,$(v))", b",a ,b"),
    (b"$(foreach  v ,a  b,$(v))", b"a b"),
    (b"$(foreach p,x y,$(j))", b"<x> <y>"),
    (b"<$(foreach v,a,$(v))$(v)>", b"<a>"),
    (b"$(foreach A,x y,$(A)$(B))", b"xxx yyy"),
    (b"$(foreach v,a,$(foreach v,b c,$v)$v)", b"b ca"),
];

#[test]
fn branches_and_turns(rt: HostRuntime) -> Result<(), Fail> {
    compare(&rt, rt.alloc(), BRANCHES.as_slice())
}

static CALLS: [Row; 17] = [
    (b"$(call f,a,b)", b"[f|a|b|]"),
    (b"$(call  f ,a, b)", b"[f|a| b|]"),
    (b"$(call f)", b"[f|||]"),
    (b"$(call f,$(call f,1),2)", b"[f|[f|1||]|2|]"),
    (b"$(call f,{a,b})", b"[f|{a|b}|]"),
    (b"$(call f,(a,b))", b"[f|(a,b)||]"),
    (b"${call f,{a,b}}", b"[f|{a,b}||]"),
    (b"$(call S,z)", b"$(1) simple"),
    (b"<$(call zz,1)$(1)>", b"<>"),
    (b"$(call h,1,2)", b"12"),
    (b"$(foreach 1,x,$(call f,$(1)))", b"[f|x||]"),
    (b"$(value f)", b"[$(0)|$(1)|$(2)|$(3)]"),
    (
        b"$(origin A) $(origin zz) $(origin cl)",
        b"file undefined command line",
    ),
    (
        b"$(origin ov) $(origin de) $(origin @)",
        b"override default automatic",
    ),
    (
        b"$(flavor A) $(flavor S) $(flavor zz)",
        b"recursive simple undefined",
    ),
    (
        b"$(foreach A,x,$(origin A) $(flavor A) $(value A))",
        b"automatic simple x",
    ),
    (b"<$(value zz)$(value A )>", b"<>"),
];

#[test]
fn calls_bind_numbers(rt: HostRuntime) -> Result<(), Fail> {
    compare(&rt, rt.alloc(), CALLS.as_slice())
}

static FUNCTIONS: [Row; 16] = [
    (b"$(subst ee,EE,feet on the street)", b"fEEt on the strEEt"),
    (b"$(patsubst %.c,%.o,$(X))", b"a.o b.o d.h"),
    (b"<$(strip  a  b )>$(words $(X))", b"<a b>3"),
    (b"$(firstword $(X))$(lastword $(X))", b"a.cd.h"),
    (b"$(findstring a,abc)$(findstring x,abc)", b"a"),
    (b"$(filter %.c,$(X))-$(filter-out %.c,$(X))", b"a.c b.c-d.h"),
    (b"$(sort b a b)$(word 2,a b c)", b"a bb"),
    (b"$(wordlist 2,3,a b c d)", b"b c"),
    (b"$(dir a/b c)$(notdir a/b)", b"a/ ./b"),
    (b"$(suffix a.c b)$(basename a.c)", b".ca"),
    (b"$(addsuffix .c,a b)$(addprefix d/,a)", b"a.c b.cd/a"),
    (b"$(join a b,.c .o)", b"a.c b.o"),
    (b"$(wildcard *.c no)", b"a.c b.c"),
    (b"$(subst a,b,(a,a))${subst (,),(a(}", b"(b,b))a)"),
    (b"$(  subst a,b,aa)$(words\ta b)", b"bb2"),
    (b"<$(eval x)$(info )>", b"<>"),
];

#[test]
fn other_functions_are_called(rt: HostRuntime) -> Result<(), Fail> {
    compare(&rt, rt.alloc(), FUNCTIONS.as_slice())
}
