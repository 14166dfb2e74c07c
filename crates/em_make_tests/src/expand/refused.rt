use super::{Row, compare, is_given, variables};
use em_base::Text;
use em_states::{put_all, state};
use em_tree::State;
use em_vars::Vars;
use std::alloc::Global;
use std::test::Fail;

static FAULTS: [Row; 19] = [
    (b"$(L)", b"!self L"),
    (b"$(L:a=b)", b"!self L"),
    (b"$(call L)", b"!self L"),
    (b"$(foreach L,x,$(L))", b"x"),
    (b"$(M)", b"!too deep"),
    (b"$(error x$(A))", b"!error xa"),
    (b"$(if a)", b"!argument if"),
    (b"$(foreach a,$(error e))", b"!argument foreach"),
    (b"$(addprefix $(error e))", b"!error e"),
    (b"$(addprefix a)", b"!argument addprefix"),
    (b"$(subst a,b)", b"!argument subst"),
    (b"$(word 0,a)", b"!argument word"),
    (b"$(word 1 ,a)", b"!argument word"),
    (b"a$(A)$(b", b"!unclosed"),
    (b"$(error e)$", b"!error e"),
    (b"x$", b"!unclosed"),
    (b"$(shell $(error e))", b"!refused shell"),
    (b"$(abspath .)$(file a)", b"!refused abspath"),
    (b"<$(shell)>", b"<>"),
];

#[test]
fn the_first_fault_is_given(rt: HostRuntime) -> Result<(), Fail> {
    compare(&rt, rt.alloc(), FAULTS.as_slice())
}

fn put_times(text: &mut Text, times: usize, bytes: &[u8]) {
    for _ in 0..times {
        put_all(text, &[bytes]);
    }
}

/// A text in so many calls of a function.
fn nested(alloc: Global, levels: usize, head: &[u8]) -> Text {
    let mut text = Text::new(alloc);
    put_times(&mut text, levels, head);
    put_all(&mut text, &[b"$$"]);
    put_times(&mut text, levels, b")");
    text
}

/// The head of a call, so many calls in one another, and what is given.
type NestRow = (&'static [u8], usize, &'static [u8]);

static LEVELS: [NestRow; 6] = [
    (b"$(or ", 200, b"$"),
    (b"$(or ", 201, b"!too deep"),
    (b"$(foreach v,a,", 200, b"$"),
    (b"$(foreach v,a,", 201, b"!too deep"),
    (b"$(call S,", 200, b"$(1) simple"),
    (b"$(call S,", 201, b"!too deep"),
];

fn is_level(alloc: Global, vars: &Vars, state: &State, row: &NestRow) -> bool {
    let text = nested(alloc, row.1, row.0);
    is_given(alloc, vars, state, text.bytes(), row.2)
}

#[test]
fn two_hundred_levels_are_expanded(rt: HostRuntime) -> Result<(), Fail> {
    let vars = variables(rt.alloc())?;
    let state = state(rt.alloc(), "f/a.c f/b.c")?;
    for row in &LEVELS {
        assert!(rt; is_level(rt.alloc(), &vars, &state, row));
    }
    Ok(())
}
