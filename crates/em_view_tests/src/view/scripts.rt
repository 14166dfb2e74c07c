//! Calls under the changes of the calls before them, with 20 units.
use super::Row;

/// Over the state of two directories and two files: what was put, and what was removed.
pub static FILES: [Row; 12] = [
    (
        "p/a k/a s/a c/a n/a",
        20,
        "ok File 101 1b - | L/a=- K/a=Absent K/=Dir | 13+7 | /=d101 /a=1b101",
    ),
    (
        "p/a p/a",
        20,
        "ok ok | L/a=- K/a=Absent K/=Dir | 16+4 | /=d101 /a=1b102",
    ),
    (
        "p/a m/a",
        20,
        "ok !Exists | L/a=- K/a=Absent K/=Dir | 18+2 | /=d101 /a=1b101",
    ),
    (
        "p/a t/a",
        20,
        "ok ok | L/a=- K/a=Absent K/=Dir | 17+3 | /=d101 /a=1b102",
    ),
    (
        "p/a l/a",
        20,
        "ok ok | L/a=- K/a=Absent K/=Dir | 16+4 | /=d102 /a=1b7",
    ),
    (
        "p/a p/a/b",
        20,
        "ok !NotDir | L/a=- K/a=Absent K/=Dir L/a/b=- K/a/b=Absent | 18+2 | /=d101 /a=1b101",
    ),
    (
        "l/a s/a t/a s/a",
        20,
        "ok 7 ok 102 | K/a=Absent K/=Dir | 15+5 | /=d101 /a=1b102",
    ),
    (
        "t/f c/f s/f",
        20,
        "ok 300b 101 | L/f=- K/f=File C/f=300b | 15+5 | /f=300b101",
    ),
    (
        "p/a r/a k/a s/a c/a n/a r/a t/a",
        20,
        "ok ok Absent - - - !Absent !Absent | L/a=- K/a=Absent K/=Dir | 13+7 | /=d102 /a=-",
    ),
    (
        "p/a r/a p/a",
        20,
        "ok ok ok | L/a=- K/a=Absent K/=Dir | 15+5 | /=d103 /a=1b103",
    ),
    (
        "r/f k/f s/f c/f n/f p/f",
        20,
        "ok Absent - - - ok | K/f=File | 13+7 | /=d102 /f=1b102",
    ),
    ("r/f l/f", 20, "ok ok | K/f=File | 17+3 | /=d102 /f=1b7"),
];

pub static DIRECTORIES: [Row; 11] = [
    (
        "m/a k/a s/a c/a n/a",
        20,
        "ok Dir 101 - [] | K/a=Absent K/=Dir N/a=- | 15+5 | /=d101 /a=d101",
    ),
    (
        "m/a m/a p/a l/a t/a r/a",
        20,
        "ok !Exists !IsDir !IsDir ok ok | K/a=Absent K/=Dir N/a=- | 17+3 | /=d103 /a=-",
    ),
    (
        "m/a m/a/b p/a/b/c n/a n/a/b",
        20,
        "ok ok ok [b.] [c.] | K/a=Absent K/=Dir K/a/b=Absent L/a/b/c=- K/a/b/c=Absent N/a=- \
        N/a/b=- | 12+8 | /=d101 /a=d102 /a/b=d103 /a/b/c=1b103",
    ),
    (
        "t/ s/ k/ n/ c/",
        20,
        "ok 101 Dir [d.e.f.] - | K/=Dir N/=[d.e.f.] | 14+6 | /=d101",
    ),
    (
        "r/e n/",
        20,
        "ok [d.f.] | K/e=Dir N/e=[] N/=[d.e.f.] | 17+3 | /=d101 /e=-",
    ),
    (
        "r/e m/e n/e",
        20,
        "ok ok [] | K/e=Dir N/e=[] N/e=[] | 17+3 | /=d102 /e=d102",
    ),
    (
        "r/e m/e/a",
        20,
        "ok !NoParent | K/e=Dir N/e=[] K/e/a=Absent | 19+1 | /=d101 /e=-",
    ),
    (
        "r/d/x r/d p/d n/d",
        20,
        "ok ok ok - | L/d=- K/d/x=File N/d=[x.] | 15+5 | /=d103 /d=1b103 /d/x=-",
    ),
    (
        "p/d/a p/d/z m/d/w n/d",
        20,
        "ok ok ok [a.w.x.z.] | L/d=- L/d/a=- K/d/a=Absent K/d=Dir L/d/z=- K/d/z=Absent \
        K/d/w=Absent N/d=[x.] | 13+7 | /d=d103 /d/a=1b101 /d/w=d103 /d/z=1b102",
    ),
    (
        "p/d/x n/d",
        20,
        "ok [x.] | L/d=- L/d/x=- K/d/x=File K/d=Dir L/d=- N/d=[x.] | 16+4 | /d/x=1b101",
    ),
    (
        "p/ m/ r/ p/a",
        20,
        "!IsDir !Exists !Root ok | K/=Dir K/=Dir L/a=- K/a=Absent K/=Dir | 18+2 | /=d101 /a=1b101",
    ),
];

/// With so little fuel that a call is spent, which counts no change.
pub static SPENT: [Row; 3] = [
    (
        "p/a p/b m/c",
        3,
        "ok !Spent !Spent | L/a=- K/a=Absent K/=Dir L/b=- K/b=Absent | 0+3 | /=d101 /a=1b101",
    ),
    (
        "P/a P/b m/c",
        5,
        "ok !Spent ok | L/a=- K/a=Absent K/=Dir L/b=- K/b=Absent K/c=Absent | 0+5 | /=d102 \
        /a=300b101 /c=d102",
    ),
    (
        "p/a c/a",
        3,
        "ok !Spent | L/a=- K/a=Absent K/=Dir | 0+3 | /=d101 /a=1b101",
    ),
];
