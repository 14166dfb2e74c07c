//! Calls through symbolic links.
use super::Row;

/// A directory with a file and a link to the directory above, and four links in the root: to the
/// directory, to its file through the first one, to nothing, and to the root.
pub static STATE: &str = "d2/d f3/d/x l4/d/up>.. l5/l>d l6/f>l/x l7/none>a/b l8/top>/";

/// What is read, with enough units and with one less.
pub static READING: [Row; 19] = [
    ("k/l", 3, "Dir | L/l=d L/d=- K/d=Dir | 1+2 |"),
    ("k/l", 2, "Dir | L/l=d L/d=- K/d=Dir | 0+2 |"),
    ("k/l", 1, "!Spent | L/l=d L/d=- K/d=Dir | 0+1 |"),
    ("k/l", 0, "!Spent | | 0+0 |"),
    ("k/l/x", 3, "File | L/l=d L/d=- L/d/x=- K/d/x=File | 1+2 |"),
    (
        "k/l/up/d",
        5,
        "Dir | L/l=d L/d=- L/d/up=.. L/d=- K/d=Dir | 2+3 |",
    ),
    ("s/l", 2, "2 | L/l=d L/d=- S/d=2 | 0+2 |"),
    ("s/top", 2, "1 | L/top=/ S/=1 | 0+2 |"),
    ("s/none", 2, "- | L/none=a/b L/a=- L/a/b=- S/a/b=- | 0+2 |"),
    (
        "c/f",
        4,
        "2b | L/f=l/x L/l=d L/d=- L/d/x=- C/d/x=2b | 0+4 |",
    ),
    (
        "c/f",
        3,
        "!Spent | L/f=l/x L/l=d L/d=- L/d/x=- C/d/x=2b | 2+1 |",
    ),
    ("c/none", 2, "- | L/none=a/b L/a=- L/a/b=- C/a/b=- | 0+2 |"),
    ("n/l", 3, "[up.x.] | L/l=d L/d=- N/d=[up.x.] | 0+3 |"),
    ("n/l", 2, "!Spent | L/l=d L/d=- N/d=[up.x.] | 1+1 |"),
    (
        "n/top",
        3,
        "[d.f.l.none.top.] | L/top=/ N/=[d.f.l.none.top.] | 0+3 |",
    ),
    ("n/none", 3, "- | L/none=a/b L/a=- L/a/b=- N/a/b=- | 1+2 |"),
    (
        "k/none",
        2,
        "Absent | L/none=a/b L/a=- L/a/b=- K/a/b=Absent | 0+2 |",
    ),
    (
        "k/none",
        1,
        "!Spent | L/none=a/b L/a=- L/a/b=- K/a/b=Absent | 0+1 |",
    ),
    (
        "k/none/c",
        2,
        "Absent | L/none=a/b L/a=- L/a/b=- L/a/b/c=- K/a/b/c=Absent | 0+2 |",
    ),
];

/// What links say: a link at the path itself is not followed.
pub static TEXTS: [Row; 10] = [
    ("i/l", 2, "d | L/l=d | 0+2 |"),
    ("i/l", 1, "!Spent | L/l=d | 0+1 |"),
    ("i/l", 0, "!Spent | | 0+0 |"),
    ("i/d", 1, "- | L/d=- | 0+1 |"),
    ("i/", 1, "- | L/=- | 0+1 |"),
    ("i/a/b", 1, "- | L/a=- L/a/b=- | 0+1 |"),
    ("i/d/x/b", 1, "- | L/d=- L/d/x=- L/d/x/b=- | 0+1 |"),
    ("i/l/up", 3, ".. | L/l=d L/d=- L/d/up=.. | 0+3 |"),
    ("i/l/up", 2, "!Spent | L/l=d L/d=- L/d/up=.. | 1+1 |"),
    (
        "i/none/c",
        2,
        "- | L/none=a/b L/a=- L/a/b=- L/a/b/c=- | 0+2 |",
    ),
];

/// Files that are put go through a link at their path, those that are placed replace it.
pub static PUTTING: [Row; 12] = [
    (
        "p/l/y",
        3,
        "ok | L/l=d L/d=- L/d/y=- K/d/y=Absent K/d=Dir | 0+3 | /d=d101 /d/y=1b101",
    ),
    (
        "p/l/y",
        2,
        "!Spent | L/l=d L/d=- L/d/y=- K/d/y=Absent K/d=Dir | 1+1 |",
    ),
    ("p/l", 1, "!IsDir | L/l=d L/d=- K/d=Dir K/=Dir | 1+0 |"),
    ("p/top", 1, "!IsDir | L/top=/ K/=Dir | 1+0 |"),
    (
        "p/none",
        1,
        "!NoParent | L/none=a/b L/a=- L/a/b=- K/a/b=Absent K/a=Absent | 1+0 |",
    ),
    (
        "p/f",
        4,
        "ok | L/f=l/x L/l=d L/d=- L/d/x=- K/d/x=File K/d=Dir | 0+4 | /d/x=1b101",
    ),
    (
        "p/f",
        3,
        "!Spent | L/f=l/x L/l=d L/d=- L/d/x=- K/d/x=File K/d=Dir | 2+1 |",
    ),
    ("l/f", 2, "ok | K/f=Link K/=Dir | 0+2 | /=d101 /f=1b7"),
    ("l/l", 2, "ok | K/l=Link K/=Dir | 0+2 | /=d101 /l=1b7"),
    (
        "l/none",
        2,
        "ok | K/none=Link K/=Dir | 0+2 | /=d101 /none=1b7",
    ),
    (
        "l/l/y",
        3,
        "ok | L/l=d L/d=- K/d/y=Absent K/d=Dir | 0+3 | /d=d101 /d/y=1b7",
    ),
    ("l/top", 2, "ok | K/top=Link K/=Dir | 0+2 | /=d101 /top=1b7"),
];

/// Directories and links that are made.
pub static MAKING: [Row; 14] = [
    ("m/l", 1, "!Exists | K/l=Link K/=Dir | 1+0 |"),
    ("m/none", 1, "!Exists | K/none=Link K/=Dir | 1+0 |"),
    (
        "m/l/z",
        2,
        "ok | L/l=d L/d=- K/d/z=Absent K/d=Dir | 0+2 | /d=d101 /d/z=d101",
    ),
    (
        "m/l/z",
        1,
        "!Spent | L/l=d L/d=- K/d/z=Absent K/d=Dir | 0+1 |",
    ),
    (
        "y/n>d",
        2,
        "ok | K/n=Absent K/=Dir | 0+2 | /=d101 /n=l101>d",
    ),
    ("y/n>d", 1, "!Spent | K/n=Absent K/=Dir | 0+1 |"),
    ("y/n>d", 0, "!Spent | | 0+0 |"),
    ("y/l>x", 2, "!Exists | K/l=Link K/=Dir | 2+0 |"),
    ("y/d>x", 2, "!Exists | K/d=Dir K/=Dir | 2+0 |"),
    (
        "y/l/n>..",
        3,
        "ok | L/l=d L/d=- K/d/n=Absent K/d=Dir | 0+3 | /d=d101 /d/n=l101>..",
    ),
    (
        "y/l/n>..",
        2,
        "!Spent | L/l=d L/d=- K/d/n=Absent K/d=Dir | 1+1 |",
    ),
    (
        "y/a/b>x",
        1,
        "!NoParent | L/a=- K/a/b=Absent K/a=Absent | 1+0 |",
    ),
    (
        "y/d/x/n>q",
        1,
        "!NotDir | L/d=- L/d/x=- K/d/x/n=Absent K/d/x=File | 1+0 |",
    ),
    ("y/>x", 1, "!Exists | K/=Dir | 1+0 |"),
];

/// What is removed, and what is stamped.
pub static TAKING: [Row; 12] = [
    ("r/l", 1, "ok | K/l=Link | 0+1 | /=d101 /l=-"),
    ("r/none", 1, "ok | K/none=Link | 0+1 | /=d101 /none=-"),
    (
        "r/l/x",
        2,
        "ok | L/l=d L/d=- K/d/x=File | 0+2 | /d=d101 /d/x=-",
    ),
    ("r/l/x", 1, "!Spent | L/l=d L/d=- K/d/x=File | 0+1 |"),
    (
        "r/l/up",
        2,
        "ok | L/l=d L/d=- K/d/up=Link | 0+2 | /d=d101 /d/up=-",
    ),
    ("r/d", 1, "!NotEmpty | K/d=Dir N/d=[up.x.] | 1+0 |"),
    (
        "r/none/c",
        1,
        "!Absent | L/none=a/b L/a=- L/a/b=- K/a/b/c=Absent | 1+0 |",
    ),
    ("t/l", 2, "ok | L/l=d L/d=- K/d=Dir | 0+2 | /d=d101"),
    ("t/l", 1, "!Spent | L/l=d L/d=- K/d=Dir | 0+1 |"),
    (
        "t/f",
        3,
        "ok | L/f=l/x L/l=d L/d=- L/d/x=- K/d/x=File C/d/x=2b | 0+3 | /d/x=2b101",
    ),
    (
        "t/none",
        1,
        "!Absent | L/none=a/b L/a=- L/a/b=- K/a/b=Absent | 1+0 |",
    ),
    ("t/top", 2, "ok | L/top=/ K/=Dir | 0+2 | /=d101"),
];

/// Links that the job itself made, removed and wrote over: no view is asked of them.
pub static OWN: [Row; 14] = [
    (
        "y/n>d k/n s/n i/n c/n/x n/n",
        20,
        "ok Dir 2 d 2b [up.x.] | K/n=Absent K/=Dir L/d=- K/d=Dir L/d=- S/d=2 L/d=- L/d/x=- \
        C/d/x=2b L/d=- N/d=[up.x.] | 6+14 | /=d101 /n=l101>d",
    ),
    (
        "y/n>d r/n k/n i/n",
        20,
        "ok ok Absent - | K/n=Absent K/=Dir | 15+5 | /=d102 /n=-",
    ),
    (
        "y/n>d n/top",
        20,
        "ok [d.f.l.n.none.top.] | K/n=Absent K/=Dir L/top=/ N/=[d.f.l.none.top.] | 15+5 | /=d101 \
        /n=l101>d",
    ),
    (
        "y/n>d t/n s/d",
        20,
        "ok ok 102 | K/n=Absent K/=Dir L/d=- K/d=Dir | 15+5 | /=d101 /d=d102 /n=l101>d",
    ),
    (
        "y/n>d p/n/y n/d r/n/y",
        20,
        "ok ok [up.x.y.] ok | K/n=Absent K/=Dir L/d=- L/d/y=- K/d/y=Absent K/d=Dir N/d=[up.x.] | \
        11+9 | /=d101 /d=d103 /d/y=- /n=l101>d",
    ),
    (
        "y/n>d l/n k/n c/n",
        20,
        "ok ok File 1b | K/n=Absent K/=Dir | 13+7 | /=d102 /n=1b7",
    ),
    (
        "y/n>d y/n>e m/n",
        20,
        "ok !Exists !Exists | K/n=Absent K/=Dir | 18+2 | /=d101 /n=l101>d",
    ),
    (
        "r/l k/l i/l m/l k/l y/l/n>..",
        20,
        "ok Absent - ok Dir ok | K/l=Link K/l/n=Absent | 13+7 | /=d102 /l=d103 /l/n=l103>..",
    ),
    (
        "l/l k/l k/l/x",
        20,
        "ok File Absent | K/l=Link K/=Dir L/l/x=- K/l/x=Absent | 16+4 | /=d101 /l=1b7",
    ),
    (
        "p/l/y k/d/y r/d/up n/l",
        20,
        "ok File ok [x.y.] | L/l=d L/d=- L/d/y=- K/d/y=Absent K/d=Dir K/d/up=Link L/l=d \
        N/d=[up.x.] | 12+8 | /d=d102 /d/up=- /d/y=1b101",
    ),
    (
        "m/e y/e/u>../d k/e/u/x p/e/u/q",
        20,
        "ok ok File ok | K/e=Absent K/=Dir K/e/u=Absent L/d=- L/d/x=- K/d/x=File L/d=- L/d/q=- \
        K/d/q=Absent K/d=Dir | 12+8 | /=d101 /d=d103 /d/q=1b103 /e=d102 /e/u=l102>../d",
    ),
    (
        "y/n>n k/n p/n r/n",
        50,
        "ok Absent !TooManyLinks ok | K/n=Absent K/=Dir | 6+44 | /=d102 /n=-",
    ),
    (
        "y/n>n k/n",
        20,
        "ok !Spent | K/n=Absent K/=Dir | 17+3 | /=d101 /n=l101>n",
    ),
    (
        "y/n>a/b p/n m/a p/n k/a/b",
        20,
        "ok !NoParent ok ok File | K/n=Absent K/=Dir L/a=- L/a/b=- K/a/b=Absent K/a=Absent \
        K/a=Absent L/a/b=- K/a/b=Absent | 13+7 | /=d102 /a=d103 /a/b=1b103 /n=l101>a/b",
    ),
];

/// Answers that no one tree gives, as `CONTRADICTIONS`: a link that is told of and then not, one
/// that is not told of and yet is the kind, and a job that lists a directory, reads a file in it
/// and lists it again.
pub static UNFIT: [(&str, &str, &str); 16] = [
    (
        ";l2/a>b",
        "p/a",
        "ok | L/a=- K/a=Link K/=Dir | 18+2 | /a=1b101",
    ),
    (";l2/a>b", "t/a", "!Absent | L/a=- K/a=Link | 20+0 |"),
    ("l2/a>b", "m/a", "!Exists | K/a=Link K/=Dir | 20+0 |"),
    (";l2/a>b", "k/a", "Link | L/a=- K/a=Link | 19+1 |"),
    (";l2/a>b", "s/a", "2 | L/a=- S/a=2 | 19+1 |"),
    (";l2/a>b", "c/a", "- | L/a=- C/a=- | 19+1 |"),
    (";l2/a>b", "n/a", "- | L/a=- N/a=- | 19+1 |"),
    (
        ";;;l2/a>b",
        "p/a/b",
        "!NotDir | L/a=- L/a/b=- K/a/b=Absent K/a=Link | 20+0 |",
    ),
    (
        ";;l2/a>b",
        "m/a/b",
        "!NotDir | L/a=- K/a/b=Absent K/a=Link | 20+0 |",
    ),
    (
        ";;l2/a>b",
        "y/a/b>c",
        "!NotDir | L/a=- K/a/b=Absent K/a=Link | 20+0 |",
    ),
    ("l2/a>b;", "k/a", "Absent | L/a=b L/b=- K/b=Absent | 18+2 |"),
    ("l2/a>b;", "r/a", "ok | K/a=Link | 19+1 | /=d101 /a=-"),
    (
        "l2/a>b;;;l2/a>c",
        "k/a k/a",
        "Absent Absent | L/a=b L/b=- K/b=Absent L/a=c L/c=- K/c=Absent | 16+4 |",
    ),
    (
        ";d2/a l3/a/b>c;;l2/c>d",
        "k/a/b",
        "Absent | L/a=- L/a/b=c L/a=- L/a/c=- K/a/c=Absent | 18+2 |",
    ),
    (
        "l2/a>b;l2/b>a;l2/a>b;l2/b>a;",
        "k/a",
        "Absent | L/a=b L/b=a L/a=b L/b=a L/a=- K/a=Absent | 15+5 |",
    ),
    (
        "d2/d f3/d/x;d2/d f3/d/x;d2/d f3/d/x;d2/d f3/d/x;d2/d f3/d/x;d2/d \
        f3/d/x;d2/d;d2/d;d2/d;d2/d;d2/d;d2/d;d2/d;f2/d",
        "s/all k/d n/d c/d/x k/d/x k/d",
        "- Dir [x.] - Absent File | L/all=- S/all=- L/d=- K/d=Dir L/d=- N/d=[x.] L/d=- L/d/x=- \
        C/d/x=- L/d=- L/d/x=- K/d/x=Absent L/d=- K/d=File | 13+7 |",
    ),
];

/// Calls over a link that says 64 components or one of 1,023 bytes, and another to what would be
/// below it; with 20 units. What each gives | how many questions are asked | units left + units
/// used.
pub static LIMITS: [(&str, &str, &str); 17] = [
    ("k/l", "Absent | 66 | 18+2", "Absent | 3 | 18+2"),
    ("k/l/a", "Absent | 1 | 19+1", "Absent | 1 | 19+1"),
    ("k/m", "Absent | 2 | 18+2", "Absent | 2 | 18+2"),
    ("s/l/a", "- | 1 | 19+1", "- | 1 | 19+1"),
    ("c/l/a", "- | 1 | 19+1", "- | 1 | 19+1"),
    ("n/l/a", "- | 1 | 19+1", "- | 1 | 19+1"),
    ("i/l", "127b | 1 | 18+2", "1023b | 1 | 15+5"),
    ("i/l/a", "- | 1 | 19+1", "- | 1 | 19+1"),
    ("p/l", "!NoParent | 67 | 20+0", "ok | 4 | 17+3"),
    ("p/l/a", "!LinkPath | 1 | 20+0", "!LinkPath | 1 | 20+0"),
    ("p/m", "!LinkPath | 2 | 20+0", "!LinkPath | 2 | 20+0"),
    ("l/l/a", "!LinkPath | 1 | 20+0", "!LinkPath | 1 | 20+0"),
    ("m/l/a", "!LinkPath | 1 | 20+0", "!LinkPath | 1 | 20+0"),
    ("y/l/a>b", "!LinkPath | 1 | 20+0", "!LinkPath | 1 | 20+0"),
    ("r/l/a", "!LinkPath | 1 | 20+0", "!LinkPath | 1 | 20+0"),
    ("t/l/a", "!LinkPath | 1 | 20+0", "!LinkPath | 1 | 20+0"),
    ("r/l", "ok | 1 | 19+1", "ok | 1 | 19+1"),
];

/// A call of a path behind so many links, each of which says the directory in which it stands; with
/// 50 units.
pub static CHAINS: [(u8, u8, &str); 24] = [
    (b'k', 39, "File | 81 | 10+40"),
    (b'p', 39, "ok | 82 | 9+41"),
    (b'k', 40, "File | 83 | 9+41"),
    (b's', 40, "3 | 83 | 9+41"),
    (b'c', 40, "2b | 83 | 8+42"),
    (b'n', 40, "- | 83 | 9+41"),
    (b'i', 40, "- | 82 | 9+41"),
    (b'p', 40, "ok | 84 | 8+42"),
    (b'k', 41, "Absent | 82 | 9+41"),
    (b's', 41, "- | 82 | 9+41"),
    (b'c', 41, "- | 82 | 9+41"),
    (b'n', 41, "- | 82 | 9+41"),
    (b'i', 41, "- | 82 | 9+41"),
    (b'p', 41, "!TooManyLinks | 82 | 50+0"),
    (b'l', 40, "ok | 83 | 8+42"),
    (b'm', 40, "!Exists | 83 | 50+0"),
    (b'y', 40, "!Exists | 83 | 50+0"),
    (b'r', 40, "ok | 82 | 9+41"),
    (b't', 40, "ok | 84 | 9+41"),
    (b'l', 41, "!TooManyLinks | 82 | 50+0"),
    (b'm', 41, "!TooManyLinks | 82 | 50+0"),
    (b'y', 41, "!TooManyLinks | 82 | 50+0"),
    (b'r', 41, "!TooManyLinks | 82 | 50+0"),
    (b't', 41, "!TooManyLinks | 82 | 50+0"),
];

/// Calls over a link that leads to itself, and two that lead to each other; with 50 units.
pub static CIRCLES: [(&str, &str); 14] = [
    ("k/l", "Absent | 41 | 9+41"),
    ("s/l", "- | 41 | 9+41"),
    ("c/a", "- | 41 | 9+41"),
    ("n/a/x", "- | 41 | 9+41"),
    ("i/l", "l | 1 | 48+2"),
    ("i/l/x", "- | 41 | 9+41"),
    ("p/l", "!TooManyLinks | 41 | 50+0"),
    ("p/a/x", "!TooManyLinks | 41 | 50+0"),
    ("t/l", "!TooManyLinks | 41 | 50+0"),
    ("m/l", "!Exists | 2 | 50+0"),
    ("m/l/x", "!TooManyLinks | 41 | 50+0"),
    ("l/l", "ok | 2 | 48+2"),
    ("r/l", "ok | 1 | 49+1"),
    ("r/a/x", "!TooManyLinks | 41 | 50+0"),
];
