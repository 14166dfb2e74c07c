//! Each call on an absent path, a file, a directory with and without children and the root, at fuel
//! 0, 1 and exactly enough.
use super::Row;

/// The state of the rows: two directories, one of them empty, and two files.
pub static STATE: &str = "d2/e d3/d f4/d/x g5/f";

pub static KINDS_AND_STAMPS: [Row; 12] = [
    ("k/a", 0, "!Spent | | 0+0 |"),
    ("k/a", 1, "Absent | L/a=- K/a=Absent | 0+1 |"),
    ("k/f", 1, "File | L/f=- K/f=File | 0+1 |"),
    ("k/e", 1, "Dir | L/e=- K/e=Dir | 0+1 |"),
    ("k/d", 2, "Dir | L/d=- K/d=Dir | 1+1 |"),
    ("k/", 1, "Dir | K/=Dir | 0+1 |"),
    ("s/a", 0, "!Spent | | 0+0 |"),
    ("s/a", 1, "- | L/a=- S/a=- | 0+1 |"),
    ("s/f", 1, "5 | L/f=- S/f=5 | 0+1 |"),
    ("s/e", 1, "2 | L/e=- S/e=2 | 0+1 |"),
    ("s/d", 1, "3 | L/d=- S/d=3 | 0+1 |"),
    ("s/", 1, "1 | S/=1 | 0+1 |"),
];

pub static CONTENTS_AND_NAMES: [Row; 18] = [
    ("c/f", 0, "!Spent | | 0+0 |"),
    ("c/f", 1, "!Spent | L/f=- C/f=300b | 0+1 |"),
    ("c/f", 2, "!Spent | L/f=- C/f=300b | 1+1 |"),
    ("c/f", 3, "300b | L/f=- C/f=300b | 0+3 |"),
    ("c/d/x", 2, "2b | L/d=- L/d/x=- C/d/x=2b | 0+2 |"),
    ("c/a", 1, "- | L/a=- C/a=- | 0+1 |"),
    ("c/d", 1, "- | L/d=- C/d=- | 0+1 |"),
    ("c/", 1, "- | C/=- | 0+1 |"),
    ("n/d", 0, "!Spent | | 0+0 |"),
    ("n/d", 1, "!Spent | L/d=- N/d=[x.] | 0+1 |"),
    ("n/d", 2, "[x.] | L/d=- N/d=[x.] | 0+2 |"),
    ("n/e", 1, "[] | L/e=- N/e=[] | 0+1 |"),
    ("n/a", 1, "- | L/a=- N/a=- | 0+1 |"),
    ("n/f", 1, "- | L/f=- N/f=- | 0+1 |"),
    ("n/", 1, "!Spent | N/=[d.e.f.] | 0+1 |"),
    ("n/", 2, "[d.e.f.] | N/=[d.e.f.] | 0+2 |"),
    ("o/", 0, "!Spent | | 0+0 |"),
    ("o/", 1, "Made | O0=Made | 0+1 |"),
];

pub static PUTS: [Row; 13] = [
    ("p/a", 0, "!Spent | | 0+0 |"),
    ("p/a", 1, "!Spent | L/a=- K/a=Absent K/=Dir | 0+1 |"),
    (
        "p/a",
        2,
        "ok | L/a=- K/a=Absent K/=Dir | 0+2 | /=d101 /a=1b101",
    ),
    ("P/a", 2, "!Spent | L/a=- K/a=Absent K/=Dir | 1+1 |"),
    (
        "P/a",
        3,
        "ok | L/a=- K/a=Absent K/=Dir | 0+3 | /=d101 /a=300b101",
    ),
    ("p/f", 2, "ok | L/f=- K/f=File K/=Dir | 0+2 | /f=1b101"),
    ("p/d", 1, "!IsDir | L/d=- K/d=Dir K/=Dir | 1+0 |"),
    ("p/e", 1, "!IsDir | L/e=- K/e=Dir K/=Dir | 1+0 |"),
    ("p/", 0, "!Spent | | 0+0 |"),
    ("p/", 1, "!IsDir | K/=Dir | 1+0 |"),
    ("p/a/b", 0, "!Spent | | 0+0 |"),
    (
        "p/a/b",
        1,
        "!NoParent | L/a=- L/a/b=- K/a/b=Absent K/a=Absent | 1+0 |",
    ),
    (
        "p/f/a",
        1,
        "!NotDir | L/f=- L/f/a=- K/f/a=Absent K/f=File | 1+0 |",
    ),
];

pub static PLACES: [Row; 9] = [
    ("l/a", 0, "!Spent | | 0+0 |"),
    ("l/a", 1, "!Spent | K/a=Absent K/=Dir | 0+1 |"),
    ("l/a", 2, "ok | K/a=Absent K/=Dir | 0+2 | /=d101 /a=1b7"),
    ("l/f", 2, "ok | K/f=File K/=Dir | 0+2 | /=d101 /f=1b7"),
    ("l/d", 1, "!IsDir | K/d=Dir K/=Dir | 1+0 |"),
    ("l/e", 1, "!IsDir | K/e=Dir K/=Dir | 1+0 |"),
    ("l/", 1, "!IsDir | K/=Dir | 1+0 |"),
    (
        "l/a/b",
        1,
        "!NoParent | L/a=- K/a/b=Absent K/a=Absent | 1+0 |",
    ),
    ("l/f/a", 1, "!NotDir | L/f=- K/f/a=Absent K/f=File | 1+0 |"),
];

pub static DIRECTORIES: [Row; 8] = [
    ("m/a", 0, "!Spent | | 0+0 |"),
    ("m/a", 1, "ok | K/a=Absent K/=Dir | 0+1 | /=d101 /a=d101"),
    ("m/f", 1, "!Exists | K/f=File K/=Dir | 1+0 |"),
    ("m/d", 1, "!Exists | K/d=Dir K/=Dir | 1+0 |"),
    ("m/e", 1, "!Exists | K/e=Dir K/=Dir | 1+0 |"),
    ("m/", 1, "!Exists | K/=Dir | 1+0 |"),
    (
        "m/a/b",
        1,
        "!NoParent | L/a=- K/a/b=Absent K/a=Absent | 1+0 |",
    ),
    ("m/f/a", 1, "!NotDir | L/f=- K/f/a=Absent K/f=File | 1+0 |"),
];

pub static REMOVALS: [Row; 8] = [
    ("r/f", 0, "!Spent | | 0+0 |"),
    ("r/", 0, "!Spent | | 0+0 |"),
    ("r/", 1, "!Root | | 1+0 |"),
    ("r/a", 1, "!Absent | K/a=Absent | 1+0 |"),
    ("r/f", 1, "ok | K/f=File | 0+1 | /=d101 /f=-"),
    ("r/e", 1, "ok | K/e=Dir N/e=[] | 0+1 | /=d101 /e=-"),
    ("r/d", 1, "!NotEmpty | K/d=Dir N/d=[x.] | 1+0 |"),
    ("r/d/x", 1, "ok | L/d=- K/d/x=File | 0+1 | /d=d101 /d/x=-"),
];

pub static TOUCHES: [Row; 6] = [
    ("t/f", 0, "!Spent | | 0+0 |"),
    ("t/a", 1, "!Absent | L/a=- K/a=Absent | 1+0 |"),
    ("t/f", 1, "ok | L/f=- K/f=File C/f=300b | 0+1 | /f=300b101"),
    ("t/d", 1, "ok | L/d=- K/d=Dir | 0+1 | /d=d101"),
    ("t/e", 1, "ok | L/e=- K/e=Dir | 0+1 | /e=d101"),
    ("t/", 1, "ok | K/=Dir | 0+1 | /=d101"),
];
