//! Calls over the root alone, and over states whose answers don't fit together.
use super::Row;

pub static ROOT_ALONE: [Row; 4] = [
    ("P/a", 2, "!Spent | L/a=- K/a=Absent K/=Dir | 1+1 |"),
    (
        "p/d/x",
        2,
        "!NoParent | L/d=- L/d/x=- K/d/x=Absent K/d=Absent | 2+0 |",
    ),
    (
        "m/d p/d/x n/d",
        10,
        "ok ok [x.] | K/d=Absent K/=Dir L/d/x=- K/d/x=Absent N/d=- | 5+5 | /=d101 /d=d102 \
        /d/x=1b102",
    ),
    (
        "m/d p/d/x n/d r/d r/d/x r/d",
        10,
        "ok ok [x.] !NotEmpty ok ok | K/d=Absent K/=Dir L/d/x=- K/d/x=Absent N/d=- N/d=- N/d=- | \
        3+7 | /=d104 /d=- /d/x=-",
    ),
];

/// The states, one for each question; the calls; and what they give, with 20 units.
pub static CONTRADICTIONS: [(&str, &str, &str); 13] = [
    (
        "f2/f;f2/f;",
        "t/f",
        "!Absent | L/f=- K/f=File C/f=- | 20+0 |",
    ),
    (";;f2/f", "t/f", "!Absent | L/f=- K/f=Absent | 20+0 |"),
    (
        "d2/d f3/d/x;d2/d f3/d/x;;;;d2/d d3/d/x",
        "n/d k/d/x k/d/x",
        "[x.] Absent Dir | L/d=- N/d=[x.] L/d=- L/d/x=- K/d/x=Absent L/d=- L/d/x=- K/d/x=Dir | \
        16+4 |",
    ),
    (
        "d2/d f3/d/x;d2/d f3/d/x;d2/d f3/d/x;",
        "p/d/x",
        "!NoParent | L/d=- L/d/x=- K/d/x=File K/d=Absent | 20+0 |",
    ),
    (
        "d2/d d3/d/x;d2/d d3/d/x;d2/d d3/d/x;",
        "p/d/x",
        "!IsDir | L/d=- L/d/x=- K/d/x=Dir K/d=Absent | 20+0 |",
    ),
    (
        "d2/d d3/d/x;d2/d d3/d/x;",
        "m/d/x",
        "!Exists | L/d=- K/d/x=Dir K/d=Absent | 20+0 |",
    ),
    (
        ";;f2/d",
        "m/d/x",
        "!NotDir | L/d=- K/d/x=Absent K/d=File | 20+0 |",
    ),
    ("d2/d;", "r/d", "ok | K/d=Dir N/d=- | 19+1 | /=d101 /d=-"),
    (
        ";;d2/a f3/a/x",
        "m/a n/a r/a",
        "ok [x.] !NotEmpty | K/a=Absent K/=Dir N/a=[x.] N/a=[x.] | 17+3 | /=d101 /a=d101",
    ),
    (
        "d2/d f3/d/x;d2/d f3/d/x;d2/d f3/d/x f3/d/y",
        "r/d/x n/d",
        "ok [y.] | L/d=- K/d/x=File N/d=[x.y.] | 17+3 | /d=d101 /d/x=-",
    ),
    (
        "d2/d f3/d/x;d2/d f3/d/x;",
        "r/d/x k/d p/d/y",
        "ok Dir ok | L/d=- K/d/x=File L/d/y=- K/d/y=Absent | 16+4 | /d=d102 /d/x=- /d/y=1b102",
    ),
    (
        "d2/d f3/d/x;d2/d f3/d/x;d2/d f3/d/x;d2/d f3/d/x;",
        "p/d/x n/d",
        "ok - | L/d=- L/d/x=- K/d/x=File K/d=Dir L/d=- N/d=- | 17+3 | /d/x=1b101",
    ),
    (
        "d2/d f3/d/x;d2/d f3/d/x;;;;d2/d d3/d/x",
        "n/d k/d/x s/d/x c/d/x n/d/x t/d/x p/d/x m/d/x l/d/x r/d/x",
        "[x.] Absent 3 - [] ok !IsDir !Exists !IsDir ok | L/d=- N/d=[x.] L/d=- L/d/x=- \
        K/d/x=Absent L/d=- L/d/x=- S/d/x=3 L/d=- L/d/x=- C/d/x=- L/d=- L/d/x=- N/d/x=[] L/d=- \
        L/d/x=- K/d/x=Dir L/d=- K/d=Dir L/d=- K/d=Dir L/d=- K/d=Dir L/d=- N/d/x=[] | 12+8 | \
        /d=d102 /d/x=-",
    ),
];
