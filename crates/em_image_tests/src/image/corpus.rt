//! Images and the verdict that each must get, made by `bench/corpus`.

pub static PART_0: [(&[u8], &str); 16] = [
    (b"EMTREE 1\nd 0 /\n.\n", "ok"),
    (b"EMTRfEE 1\nd 0 /\n.\n", "Form at byte 4"),
    (b"EMaREE 1\nd 0 /\n.\n", "Form at byte 2"),
    (b"EMTREE 1\nd b /\n.\n", "Number at byte 11"),
    (b"EMTREE 1\nd 0 /\n.6", "Form at byte 16"),
    (b"EM.REE 1\nd 0 /\n.\n", "Form at byte 2"),
    (b"EMTREE 1\nd 0 ", "Short at byte 13"),
    (b"EMT7EE 1\nd 0 /\n.\n", "Form at byte 3"),
    (b"E", "Short at byte 1"),
    (b"EMTREE 1\nd 0", "Short at byte 12"),
    (b"EMTR", "Short at byte 4"),
    (b"EMTREE 1\nd 0 4/\n.\n", "Path at byte 13"),
    (b"EMT", "Short at byte 3"),
    (b"EMTREE 1\n", "Short at byte 9"),
    (b"EMTRE", "Short at byte 5"),
    (b"EMTREEd1\nd 0 /\n.\n", "Form at byte 6"),
];

pub static PART_1: [(&[u8], &str); 16] = [
    (b"EMbREE 1\nd 0 /\n.\n", "Form at byte 2"),
    (b"EMTREE\n1\nd 0 /\n.\n", "Form at byte 6"),
    (b"EMTREE 1\nd 0 /b\n.\n", "Parent at byte 13"),
    (b"EMTREE 1\n.\nd 0 /\n", "Form at byte 9"),
    (b"EMTREE \nd 0 /\n.\n", "Form at byte 7"),
    (b"EMTREE 1\n\0 0 /\n.\n", "Form at byte 9"),
    (b"EMTREE 1\nd 0 /\n\n.", "Form at byte 15"),
    (b"EM3TREE 1\nd 0 /\n.\n", "Form at byte 2"),
    (b"EMTREE 1\nd0 /\n.\n", "Form at byte 10"),
    (b"EMTREE 1\nd 0 /\n\n", "Form at byte 15"),
    (b"EMTREE 1\n\n.\nd 0 /", "Form at byte 9"),
    (b"EMTREE 1\nd", "Short at byte 10"),
    (b"EMTREE 1\nd \n0 /\n.\n", "Number at byte 11"),
    (b"EMTREE 1\nd 0 /", "Short at byte 14"),
    (b"EM8REE 1\nd 0 /\n.\n", "Form at byte 2"),
    (b"EMTREE 1\nd 0 /9\n.\n", "Parent at byte 13"),
];

pub static PART_2: [(&[u8], &str); 16] = [
    (b"EMTRE3E 1\nd 0 /\n.\n", "Form at byte 5"),
    (b"EMTREE 1\nd 0 /.\n", "Path at byte 13"),
    (b"EMTREE 1", "Short at byte 8"),
    (b"EMTRE 1\nd 0 /\n.\n", "Form at byte 5"),
    (b"EMTRE4 1\nd 0 /\n.\n", "Form at byte 5"),
    (b"EMTREE 1\nd 0 /\nb\n", "Form at byte 15"),
    (b"EMTREE 1d 0 /\n.\n", "Form at byte 8"),
    (b"4EMTREE 1\nd 0 /\n.\n", "Form at byte 0"),
    (b"EMTR\0EE 1\nd 0 /\n.\n", "Form at byte 4"),
    (b"EMTEE 1\nd 0 /\n.\n", "Form at byte 3"),
    (b"E3MTREE 1\nd 0 /\n.\n", "Form at byte 1"),
    (b"EMTREE 1\nd 1 /\nf 2 3 /a\nxyz\n.\n", "ok"),
    (b"EMTREE 1\nd 1 /\nf 243 /a\nxyz\n.\n", "Number at byte 21"),
    (b"EMTREE 1\nd 1 /\nf 2 03 /a\nxyz\n.\n", "Number at byte 19"),
    (b"EMTREE 1\nd 1 /\nf 2 3 /a\nxyz6.\n", "Form at byte 27"),
    (b"EMTREE 1\nd 1", "Short at byte 12"),
];

pub static PART_3: [(&[u8], &str); 16] = [
    (b"EMTREE 1\nd 1 /\nf 2 3/a\nxyz\n.\n", "Form at byte 20"),
    (b"EMTREE 1\nd d1 /\nf 2 3 /a\nxyz\n.\n", "Number at byte 11"),
    (b"EMTREE 1\n.\nf 2 3 /a\nxyz\nd 1 /\n", "Form at byte 9"),
    (b"EMTREE 1\nd 1 /\nf 2 3 /a\n.\nxyz\n", "Form at byte 27"),
    (b"EMTR3E 1\nd 1 /\nf 2 3 /a\nxyz\n.\n", "Form at byte 4"),
    (b"EMTREE 1\nd 1 /\nf 2 3 /a8\nxyz\n.\n", "ok"),
    (b"EMTREE 1\nd 1 /\n\nxyz\n.\nf 2 3 /a", "Form at byte 15"),
    (b"EMTREE\01\nd 1 /\nf 2 3 /a\nxyz\n.\n", "Form at byte 6"),
    (b"EMTRaEE 1\nd 1 /\nf 2 3 /a\nxyz\n.\n", "Form at byte 4"),
    (b"EMTREE 1\nd 1 /\nf 2 3 /a\n\0yz\n.\n", "ok"),
    (b"EMTREE 1\nd 1 /\nf 2 32 /a\nxyz\n.\n", "Short at byte 31"),
    (b"EMTREE 1\nd 1 /\nfd 2 3 /a\nxyz\n.\n", "Form at byte 16"),
    (b"EMTREE 1\nd  /\nf 2 3 /a\nxyz\n.\n", "Number at byte 11"),
    (b"EMTREE 1\nd 1 /\nf  3 /a\nxyz\n.\n", "Number at byte 17"),
    (b"EMTREE 1\nd 1 /\nf 2 3 /a\n", "Short at byte 24"),
    (b"EMTREE 1\nd 1 /\nf 2  /a\nxyz\n.\n", "Number at byte 19"),
];

pub static PART_4: [(&[u8], &str); 16] = [
    (b"EMTREE 1\nd 1 /\nf 2 3 /a\nxz\n.\n", "Form at byte 27"),
    (b"EMTREE 1\nd 1 /\nf 2 3 /a\nxy\n.\n", "Form at byte 27"),
    (b"EMTREE 1\nd 1 /\n", "Short at byte 15"),
    (b"EMTREE 1\nd 1 /\nf 2 3 /a0\nxyz\n.\n", "ok"),
    (b"EMTREE 1\nd 1 /\nf 2 3 /a\nx8z\n.\n", "ok"),
    (b"EMTREE 1\nd 1 /d\nf 2 3 /a\nxyz\n.\n", "Parent at byte 13"),
    (b"EM7TREE 1\nd 1 /\nf 2 3 /a\nxyz\n.\n", "Form at byte 2"),
    (b"EMTREE \n\nd 1 /\nf 2 3 /a\nxyz\n.\n", "Form at byte 7"),
    (b"EMTREE 1\nd1 /\nf 2 3 /a\nxyz\n.\n", "Form at byte 10"),
    (b"EMTREE 1\nd 1 /\n 2 3 /a\nxyz\n.\n", "Form at byte 15"),
    (b"EMTREE 1\nd 1 /\nf 2 3 /a\nxyz\n", "Short at byte 28"),
    (b"EMTREE 1\nd 1 /\nf 2 3 /a\nxy", "Short at byte 26"),
    (b"EMTREE 1\nd 1 /\nd 2 3 /a\nxyz\n.\n", "Path at byte 19"),
    (b"EMTREE 1\nd 1 /\nf 2 3 /a\nxy3\n.\n", "ok"),
    (b"EMTREE 1\nd 1 /\n.\nxyz\nf 2 3 /a\n", "Rest at byte 17"),
    (b"EMTREE 1\nd 1 \nf 2 3 /a\nxyz\n.\n", "Path at byte 13"),
];

pub static PART_5: [(&[u8], &str); 16] = [
    (b"EMfTREE 1\nd 1 /\nf 2 3 /a\nxyz\n.\n", "Form at byte 2"),
    (b"EMTREE 1\nf 2 3 /a\nd 1 /\nxyz\n.\n", "Parent at byte 15"),
    (b"EMTRE 1\nd 1 /\nf 2 3 /a\nxyz\n.\n", "Form at byte 5"),
    (b"EMTRbE 1\nd 1 /\nf 2 3 /a\nxyz\n.\n", "Form at byte 4"),
    (b"3MTREE 1\nd 1 /\nf 2 3 /a\nxyz\n.\n", "Form at byte 0"),
    (b"EMTREE 1\nd 1 /\nf 2 3 /a", "Short at byte 23"),
    (b"MTREE 1\nd 1 /\nf 2 3 /a\nxyz\n.\n", "Form at byte 0"),
    (b"EMTREE9 1\nd 1 /\nf 2 3 /a\nxyz\n.\n", "Form at byte 6"),
    (b"EMTREE ", "Short at byte 7"),
    (b"EMTREE 1\nd 1 /\nf .2 3 /a\nxyz\n.\n", "Number at byte 17"),
    (b"ETREE 1\nd 1 /\nf 2 3 /a\nxyz\n.\n", "Form at byte 1"),
    (b"EMTREE 1\nd 1 /\nf 2 3 /a\nxyz\n/.\n", "Form at byte 28"),
    (b"EMTREE 1\nd 7 /\nd 3 /d\nf 4 0 /d/e\n\n.\n", "ok"),
    (b"EMTREE 1\nd 7 /\nd 3 /d\nf 4 ", "Short at byte 26"),
    (b"EMTREE 1\nd 7 /\nd 3 /d\nf 4 0 /d/e", "Short at byte 32"),
    (
        b"EMTREE 1\nd 7 /\nd 3 /d\nf 4 0 5d/e\n\n.\n",
        "Path at byte 28",
    ),
];

pub static PART_6: [(&[u8], &str); 16] = [
    (b"", "Short at byte 0"),
    (
        b"EMTREE 1\nd  /\nd 3 /d\nf 4 0 /d/e\n\n.\n",
        "Number at byte 11",
    ),
    (b"EMTREE 1\nd 7 /\nd 3 /d\nf 4 0 /de\n\n.\n", "ok"),
    (
        b"EMTREE 1\nd 7 /\nd 3 /d\nf 4 0 /d/e\n\0\n.\n",
        "Form at byte 33",
    ),
    (b"EMTREE 1\nd 7 /\nd 3 /d\nf 4 0 /d", "Short at byte 30"),
    (
        b"EMTREE 1\nd 7 /\nd 3 /d\nf 4 0 /d/e\n\n.1",
        "Form at byte 35",
    ),
    (
        b"EMTREE 1\nd 7/\nd 3 /d\nf 4 0 /d/e\n\n.\n",
        "Form at byte 12",
    ),
    (
        b"EM3TREE 1\nd 7 /\nd 3 /d\nf 4 0 /d/e\n\n.\n",
        "Form at byte 2",
    ),
    (b"EMTREE 1\nd 7 /\nd 3 /d\nf 4 0 ", "Short at byte 28"),
    (
        b"EMTREE 1\nd 7 /\nd 3 /d\nf 4 0  d/e\n\n.\n",
        "Path at byte 28",
    ),
    (
        b"EMTREE 1\nd 7 /\nd  /d\nf 4 0 /d/e\n\n.\n",
        "Number at byte 17",
    ),
    (
        b"EMTREE 1\nd 7 /\nd 3 /d\nf 4 0 /d/e\n.\n\n",
        "Form at byte 33",
    ),
    (b"EMTREE 1\nd 7 /\n", "Short at byte 15"),
    (b"EMTREE 1\nd 7 /\nd", "Short at byte 16"),
    (b"EMTREE 1\nd 7", "Short at byte 12"),
    (
        b"EMTREE 1\n\nd 3 /d\nf 4 0 /d/e\nd 7 /\n.\n",
        "Form at byte 9",
    ),
];

pub static PART_7: [(&[u8], &str); 16] = [
    (
        b"EMTREE 1\nf 4 0 /d/e\nd 3 /d\nd 7 /\n\n.\n",
        "Parent at byte 15",
    ),
    (
        b"EMTREE 1\nd 7 /\nd 3 /d\nf 4 0/d/e\n\n.\n",
        "Form at byte 27",
    ),
    (
        b"EMTREE 1\nd 7 9\nd 3 /d\nf 4 0 /d/e\n\n.\n",
        "Path at byte 13",
    ),
    (
        b"EMTREE 1\nd 7 /\nd3 /d\nf 4 0 /d/e\n\n.\n",
        "Form at byte 16",
    ),
    (
        b"EMTREE 1\nd 7 /\nd 3 /d\nf 4 0 //e\n\n.\n",
        "Path at byte 28",
    ),
    (
        b"EMTREE1\nd 7 /\nd 3 /d\nf 4 0 /d/e\n\n.\n",
        "Form at byte 6",
    ),
    (
        b"EMTREE 1\nd 7 /\n\nf 4 0 /d/e\n\n.\nd 3 /d",
        "Form at byte 15",
    ),
    (
        b"EMTREE 1\nd7 /\nd 3 /d\nf 4 0 /d/e\n\n.\n",
        "Form at byte 10",
    ),
    (
        b"EMTREE 1\nd 7 /\nd 3 /d\n\nf 4 0 /d/e\n.\n",
        "Form at byte 22",
    ),
    (
        b"EMTREE 1\nd 7 /\nd 3 /d\nf04 0 /d/e\n\n.\n",
        "Form at byte 23",
    ),
    (
        b"EMTREE 1\nd 7 /\nd 3 /d\nf 4 0 /d/e\n\n./\n",
        "Form at byte 35",
    ),
    (b"EMTREE 1\nd 7 /\nd 3", "Short at byte 18"),
    (
        b"EMTREE 1\nd 7 /3d 3 /d\nf 4 0 /d/e\n\n.\n",
        "Parent at byte 13",
    ),
    (
        b"EMTREE 1\nd 7 /\nd83 /d\nf 4 0 /d/e\n\n.\n",
        "Form at byte 16",
    ),
    (b"EMTREE 1\nd 8 /\nd 3 /d\nf 4 0 /d/e\n\n.\n", "ok"),
    (b"EMTREE 1\nd 7 /\nd 3 /d\nf 44 0 /d/e\n\n.\n", "ok"),
];

pub static PART_8: [(&[u8], &str); 16] = [
    (b"EMTREE 1\nd 7 /\nd 3 /d\nf 4 0 /d/", "Short at byte 31"),
    (
        b"EMTRE8E 1\nd 7 /\nd 3 /d\nf 4 0 /d/e\n\n.\n",
        "Form at byte 5",
    ),
    (
        b"EMTREE 1\nd . /\nd 3 /d\nf 4 0 /d/e\n\n.\n",
        "Number at byte 11",
    ),
    (b"EMTREE 1\nd 7 /\nd 0 /d\nf 4 0 /d/e\n\n.\n", "ok"),
    (
        b"EMTREE 1\nd 7 /\nd23 /d\nf 4 0 /d/e\n\n.\n",
        "Form at byte 16",
    ),
    (b"EMTREE 1\nd 7 /", "Short at byte 14"),
    (
        b"EMTREE 1\nd 7 /\nd33 /d\nf 4 0 /d/e\n\n.\n",
        "Form at byte 16",
    ),
    (
        b"EMTREE 1\nd 7 /\nd 3 /d\n.\n\nf 4 0 /d/e\n",
        "Rest at byte 24",
    ),
    (
        b"EMTREE 1\nd 7 /\n.\nf 4 0 /d/e\n\nd 3 /d\n",
        "Rest at byte 17",
    ),
    (
        b"EMTREE 1\nd 7 /\nd 3 /d\nf 4 0 /d/e\n7.\n",
        "Form at byte 33",
    ),
    (
        b"EMTREE 1\nd87 /\nd 3 /d\nf 4 0 /d/e\n\n.\n",
        "Form at byte 10",
    ),
    (b"EMTREE 1\nd 6 /\nd 3 /d\nf 4 0 /d/e\n\n.\n", "ok"),
    (
        b"EMTREE 1\nd 12 /\nd 0 /a\nf 9 1 /a.b\nq\nf 0 2 /a/b\n.\n\n.\n",
        "ok",
    ),
    (
        b"EMTREE 1\nd 12 /\nd 0 /a\nf 9 1 /a.b\nq\nf 0 92 /a/b\n.\n\n.\n",
        "Short at byte 53",
    ),
    (
        b"EMTREE 1\nd 12 /\nd 0 /a\nf 9 1 /a.b\nq\nf 0 2 /a/b\n.",
        "Short at byte 48",
    ),
    (
        b"EMTREE 1\nd 12 /\nd  /a\nf 9 1 /a.b\nq\nf 0 2 /a/b\n.\n\n.\n",
        "Number at byte 18",
    ),
];

pub static PART_9: [(&[u8], &str); 16] = [
    (
        b"EMTREE 1\nd 12 /\nd 0 /a\nf 0 2 /a/b\nq\nf 9 1 /a.b\n.\n\n.\n",
        "Form at byte 36",
    ),
    (
        b"EMTREE 1\nd 12 /\nd 0 /a\nf 9 1 /a.b\nq\nf 0 2 /a/b\n.\n\n.0\n",
        "Form at byte 51",
    ),
    (
        b"EM0TREE 1\nd 12 /\nd 0 /a\nf 9 1 /a.b\nq\nf 0 2 /a/b\n.\n\n.\n",
        "Form at byte 2",
    ),
    (
        b"EMTREE 1\nd 12 /\nd 0 /a\nf 9 1 /a.b\nq\nf 0 2 /a/b\0.\n\n.\n",
        "Path at byte 42",
    ),
    (b"EMTREE 1\nd 12 /\nd 0 /a\nf 9 1 /", "Short at byte 30"),
    (
        b"EMTREE 1\nd 12 /\nd 0 /a\nf 9 1/a.b\nq\nf 0 2 /a/b\n.\n\n.\n",
        "Form at byte 28",
    ),
    (
        b"EMTREE 1\nd 12 /\nd 0 /a\nf 9 1 /a.b\nq\nf 0 2 .a/b\n.\n\n.\n",
        "Path at byte 42",
    ),
    (
        b"EMTREE 1\nd 12 /\nd 0 /a\nf 9 1 /a.b\nq\nf 0 2 /a6/b\n.\n\n.\n",
        "Parent at byte 42",
    ),
    (
        b"EMTREE 1\nd 12 /\nd 0 /\nf 9 1 /a.b\nq\nf 0 2 /a/b\n.\n\n.\n",
        "Order at byte 20",
    ),
    (
        b"EMTREE 1\nd 12 /\nd 0 /a\nf 9 1 /a.b\nq\nf 0 2 /a/\n.\n\n.\n",
        "Path at byte 42",
    ),
    (
        b"EMTREE 1\nd 12 /\nd 0 /a\nf  1 /a.b\nq\nf 0 2 /a/b\n.\n\n.\n",
        "Number at byte 25",
    ),
    (
        b"EMT4REE 1\nd 12 /\nd 0 /a\nf 9 1 /a.b\nq\nf 0 2 /a/b\n.\n\n.\n",
        "Form at byte 3",
    ),
    (
        b"EMTR8E 1\nd 12 /\nd 0 /a\nf 9 1 /a.b\nq\nf 0 2 /a/b\n.\n\n.\n",
        "Form at byte 4",
    ),
    (
        b"EMTREE 1\nd 0 /a\nd 12 /\nf 9 1 /a.b\nq\nf 0 2 /a/b\n.\n\n.\n",
        "Parent at byte 13",
    ),
    (
        b"EMTREE 1\nd 12 /\nd 0 /a\nf 9 1 /a.b\nf 0 2 /a/b\nq\n.\n\n.\n",
        "Form at byte 35",
    ),
    (
        b"EM/TREE 1\nd 12 /\nd 0 /a\nf 9 1 /a.b\nq\nf 0 2 /a/b\n.\n\n.\n",
        "Form at byte 2",
    ),
];

pub static PART_10: [(&[u8], &str); 16] = [
    (
        b"EMTREE 1\nd12 /\nd 0 /a\nf 9 1 /a.b\nq\nf 0 2 /a/b\n.\n\n.\n",
        "Form at byte 10",
    ),
    (
        b"EMTREE 1\nd 12 /\nd 0 /a\nf 9 10 /a.b\nq\nf 0 2 /a/b\n.\n\n.\n",
        "Form at byte 45",
    ),
    (
        b"EMTREE 1\nd 12 /\nd 0 /a\n f 9 1 /a.b\nq\nf 0 2 /a/b\n.\n\n.\n",
        "Form at byte 23",
    ),
    (b"EMTREE 1\nd 12 /\nd 0 ", "Short at byte 20"),
    (
        b"EMREE 1\nd 12 /\nd 0 /a\nf 9 1 /a.b\nq\nf 0 2 /a/b\n.\n\n.\n",
        "Form at byte 2",
    ),
    (
        b"EMTREE 1\nd 12d /\nd 0 /a\nf 9 1 /a.b\nq\nf 0 2 /a/b\n.\n\n.\n",
        "Form at byte 13",
    ),
    (
        b"MTREE 1\nd 12 /\nd 0 /a\nf 9 1 /a.b\nq\nf 0 2 /a/b\n.\n\n.\n",
        "Form at byte 0",
    ),
    (
        b"EMTREE 1\nd 12 /\nd 0 /a\nf2 9 1 /a.b\nq\nf 0 2 /a/b\n.\n\n.\n",
        "Form at byte 24",
    ),
    (
        b"EMTREE 1\nd 12 /\nd 0 /a\nf 9 1 /a.b\n\nf 0 2 /a/b\n.\n\n.\nq",
        "Form at byte 35",
    ),
    (
        b"EMTREE 1\nd 12 /\nd 0 /a\nf 9 1 /a.\nq\nf 0 2 /a/b\n.\n\n.\n",
        "ok",
    ),
    (
        b"EMTRE8 1\nd 12 /\nd 0 /a\nf 9 1 /a.b\nq\nf 0 2 /a/b\n.\n\n.\n",
        "Form at byte 5",
    ),
    (
        b"EMTREE 1\nf 12 /\nd 0 /a\nf 9 1 /a.b\nq\nf 0 2 /a/b\n.\n\n.\n",
        "Number at byte 14",
    ),
    (b"EM", "Short at byte 2"),
    (
        b"EMTRE 1\nd 12 /\nd 0 /a\nf 9 1 /a.b\nq\nf 0 2 /a/b\n.\n\n.\n",
        "Form at byte 5",
    ),
    (b"EMTREE 1\nd 12 /\nd 0 /a\nf 9 1 /a.b", "Short at byte 33"),
    (
        b"EMTREE 1\nd 12 /\nd 0 /a\nf 9 1 /a.b\nq\nf 0 2 a/b\n.\n\n.\n",
        "Path at byte 42",
    ),
];

pub static PART_11: [(&[u8], &str); 16] = [
    (b"EMTREE 1\nd 12 /\nd 0 /a\nf", "Short at byte 24"),
    (
        b"EMTREE 1\nd 12 /\nd 0 /a\nf 9 1 /a.b\nq\nf 0 2 /a/b\n\n.\n\n.\n",
        "Form at byte 50",
    ),
    (
        b"EMTREE 1\nd 12 /\nd 0 /a\nf 9 1 /a.b\nq\nf 0 2",
        "Short at byte 41",
    ),
    (
        b"EMTREE 1\nd 12 /\nd 0 /a\nf 9 1 /a.b\nq\nf 0 ",
        "Short at byte 40",
    ),
    (
        b"EMTREE 1\nd 12 /\nd 0 /a\n\nq\nf 0 2 /a/b\n.\n\n.\nf 9 1 /a.b",
        "Form at byte 23",
    ),
    (
        b"EMTREE 1\nd 12 /\nd 0 /a\nf 9 1 /a.b\nq\n",
        "Short at byte 36",
    ),
    (
        b"EMTREE 1\nd 12 /\nd 0 /a\nf 9 1 /a.b\nq\nf 0 2 /b/b\n.\n\n.\n",
        "Parent at byte 42",
    ),
    (
        b"EM4REE 1\nd 12 /\nd 0 /a\nf 9 1 /a.b\nq\nf 0 2 /a/b\n.\n\n.\n",
        "Form at byte 2",
    ),
    (
        b"EMTREEf 1\nd 12 /\nd 0 /a\nf 9 1 /a.b\nq\nf 0 2 /a/b\n.\n\n.\n",
        "Form at byte 6",
    ),
    (
        b"EMTREE 1\nd 12 /\nd 0 /a\nf 9 1 /a.b\nq\nf 0 2 /",
        "Short at byte 43",
    ),
    (
        b"EMTREE 1\nd 12 /\nd 0 /a\nf 9 1 /ab\nq\nf 0 2 /a/b\n.\n\n.\n",
        "Order at byte 41",
    ),
    (
        b"/EMTREE 1\nd 12 /\nd 0 /a\nf 9 1 /a.b\nq\nf 0 2 /a/b\n.\n\n.\n",
        "Form at byte 0",
    ),
    (
        b"EMTREE 1\nd 12 /\nd 0 /a\nf 9 1 /a.b\nq\nf 0 2 /a/b\n\0\n\n.\n",
        "ok",
    ),
    (
        b"EMTREE 1\nd 12 /\nf 0 2 /a/b\nf 9 1 /a.b\nq\nd 0 /a\n.\n\n.\n",
        "Parent at byte 22",
    ),
    (
        b"EMTREE 1\nd 12 /\nd 0 /a\nf 9 1 /a.b\nq\nf 0 2 /a/b.\n\n.\n",
        "Short at byte 51",
    ),
    (b"EMTREE 2\nd 0 /\nl 1 2 /l\nab\n.\n", "ok"),
];

pub static PART_12: [(&[u8], &str); 16] = [
    (b"EMTREE \nd 0 /\nl 1 2 /l\nab\n.\n", "Form at byte 7"),
    (b"EMTREE 2\n.\nl 1 2 /l\nab\nd 0 /\n", "Form at byte 9"),
    (b"EMTREE 2\nab\nl 1 2 /l\nd 0 /\n.\n", "Form at byte 9"),
    (b"EMTREE 2\nd 0 /\nl 1 2", "Short at byte 20"),
    (b"EMREE 2\nd 0 /\nl 1 2 /l\nab\n.\n", "Form at byte 2"),
    (b"EMTREE 2l\nd 0 /\nl 1 2 /l\nab\n.\n", "Form at byte 8"),
    (b"EMTREE 2\nd 0 /\nl 1", "Short at byte 18"),
    (b"MTREE 2\nd 0 /\nl 1 2 /l\nab\n.\n", "Form at byte 0"),
    (b"EMTREE 2\nd 0 /\nl 1 2 /l\n.\nab\n", "Form at byte 25"),
    (b"EMTREE 2\nd 0 /\nl 1 2 / \nab\n.\n", "ok"),
    (b"EMTREE 2\nd 0 /\nl 1 2 /l\n\n.\nab", "Form at byte 24"),
    (b"EMTREE", "Short at byte 6"),
    (b"EMbTREE 2\nd 0 /\nl 1 2 /l\nab\n.\n", "Form at byte 2"),
    (b"EMTREE 2\na 0 /\nl 1 2 /l\nab\n.\n", "Form at byte 9"),
    (b"EMTREE 2\nd 0 /\nl 1 2 /l\naba.\n", "Form at byte 26"),
    (b"EMTREE 2\nd 0  /\nl 1 2 /l\nab\n.\n", "Path at byte 13"),
];

pub static PART_13: [(&[u8], &str); 16] = [
    (b"EMTREE 2\nd 0 /\nl 1 2 /lab\n.\n", "Form at byte 27"),
    (b"EMTREE 2", "Short at byte 8"),
    (b"EMTRfEE 2\nd 0 /\nl 1 2 /l\nab\n.\n", "Form at byte 4"),
    (b"EMTREE 2\nd 0 /\nl 1 2 //\nab\n.\n", "Path at byte 21"),
    (b"EMTREE 2\nd 0 /\n 1 2 /l\nab\n.\n", "Form at byte 15"),
    (b"EMTREE 2\nl 1 2 /l\nd 0 /\nab\n.\n", "Parent at byte 15"),
    (b"EMTREE 2\nd 0 /\na 1 2 /l\nab\n.\n", "Form at byte 15"),
    (b"EMTREE 2\nd 0 /\n.\nab\nl 1 2 /l\n", "Form at byte 15"),
    (b"EMTREE 2\nd 0. /\nl 1 2 /l\nab\n.\n", "Form at byte 12"),
    (b"EMTREE 2\nd 0 /\nl 1 2 /l\nab..\n", "Form at byte 26"),
    (b"EMTREE 2\nd.0 /\nl 1 2 /l\nab\n.\n", "Form at byte 10"),
    (b"EMTREE 2/\nd 0 /\nl 1 2 /l\nab\n.\n", "Form at byte 8"),
    (b"EMTREE 2\nd 0\n/\nl 1 2 /l\nab\n.\n", "Form at byte 12"),
    (b"EMTREE 2\nd 0 f/\nl 1 2 /l\nab\n.\n", "Path at byte 13"),
    (b"EMTREE 23d 0 /\nl 1 2 /l\nab\n.\n", "Form at byte 8"),
    (b"EMTREE 2\nd 0 /\nl 1 2 /l\nabl.\n", "Form at byte 26"),
];

pub static PART_14: [(&[u8], &str); 16] = [
    (b"EMTREE 2\nd 0 ./\nl 1 2 /l\nab\n.\n", "Path at byte 13"),
    (b"EMTREE 2\nd 0 /\nl 1 2 /l\nb\n.\n", "Form at byte 25"),
    (b"EMTREE 2\nd 0 /\nl 1 2 /l\na\0b\n.\n", "Form at byte 25"),
    (b"EMTREE 2\nd 0 /\nl 1 2 /l\na\n\n.\n", "Form at byte 25"),
    (b"EMTREE 2\nd 0 /\nl ", "Short at byte 17"),
    (b"E\0TREE 2\nd 0 /\nl 1 2 /l\nab\n.\n", "Form at byte 1"),
    (b"EMTREE 2\nd 0 /\nab\nl 1 2 /l\n.\n", "Form at byte 15"),
    (b"EMTREE 2\nd 0 /\n\nab\n.\nl 1 2 /l", "Form at byte 15"),
    (b"EMTREE 2\nd 0 /\nl 1 2 /lf\nab\n.\n", "ok"),
    (b"EMTREE 2\nd 0 /\nl 1 2/l\nab\n.\n", "Form at byte 20"),
    (b"EMTREE 2\nd 0 /\nl1 2 /l\nab\n.\n", "Form at byte 16"),
    (b"EMTREE 2\nd 0 /\nl 1 2 /l\naab\n.\n", "Form at byte 26"),
    (
        b"EMTREE 2\nd 3 /\nd 2 /d\nl 4 4 /d/l\n../d\nf 1 1 /e\nx\n.\n",
        "ok",
    ),
    (
        b"EMTREE 2\nd 3 /\nd 2 /dl 4 4 /d/l\n../d\nf 1 1 /e\nx\n.\n",
        "Parent at byte 19",
    ),
    (
        b"EMTREE 2\nd 3 /\n/d 2 /d\nl 4 4 /d/l\n../d\nf 1 1 /e\nx\n.\n",
        "Form at byte 15",
    ),
    (
        b"EMTREE 2\nd 3 /\nd 2 /d\nl 4 4 /d/l\n../ d\nf 1 1 /e\nx\n.\n",
        "Form at byte 37",
    ),
];

pub static PART_15: [(&[u8], &str); 16] = [
    (
        b"EMTREE 2\nd 3 /\nd 2 /d\nl 4 4 /d/l\n../d\nf 1 1 /e\n\0\n.\n",
        "ok",
    ),
    (
        b"EMTREE 2\nd 3 /\nd 2 /d\nl 4 4 /d/l\n.\nf 1 1 /e\nx\n../d\n",
        "Form at byte 34",
    ),
    (
        b"EMTREE 2\nd 3 /\nd 2 /d1\nl 4 4 /d/l\n../d\nf 1 1 /e\nx\n.\n",
        "Order at byte 29",
    ),
    (
        b"EMTREE 2\nd 3 /\nd 2 /d\nx\n../d\nf 1 1 /e\nl 4 4 /d/l\n.\n",
        "Form at byte 22",
    ),
    (b"EMTREE 2\nd 3 /\nd 2 /d\nl 4 4 /d/l\n", "Short at byte 33"),
    (
        b"EMTRE 2\nd 3 /\nd 2 /d\nl 4 4 /d/l\n../d\nf 1 1 /e\nx\n.\n",
        "Form at byte 5",
    ),
    (
        b"EMTREE 2\nd 3 /\n\nd 2 /d\nl 4 4 /d/l\n../d\nf 1 1 /e\nx\n.\n",
        "Form at byte 15",
    ),
    (
        b"EMTREE 2\nd 3 /\nd 2 /d\nl 4 4 /d/l\n../d\nf 1 1 /e\nx\n\n.",
        "Form at byte 49",
    ),
    (
        b"E4MTREE 2\nd 3 /\nd 2 /d\nl 4 4 /d/l\n../d\nf 1 1 /e\nx\n.\n",
        "Form at byte 1",
    ),
    (
        b"EMTREE 2\nd 3 /\nd 2 /d\nl 4 4b/d/l\n../d\nf 1 1 /e\nx\n.\n",
        "Form at byte 27",
    ),
    (b"EMTREE 2\nd 3 /\nd 2 /d\nl 4 4 /d/", "Short at byte 31"),
    (
        b"EMTR\nE 2\nd 3 /\nd 2 /d\nl 4 4 /d/l\n../d\nf 1 1 /e\nx\n.\n",
        "Form at byte 4",
    ),
    (b"EMTREE 2\nd 3 /\nd 2 /d\nl 4 4 /", "Short at byte 29"),
    (
        b"EMTREE 2\nd 3 /\n../d\nl 4 4 /d/l\nd 2 /d\nf 1 1 /e\nx\n.\n",
        "Form at byte 15",
    ),
    (
        b"EMTREE 2\n 3 /\nd 2 /d\nl 4 4 /d/l\n../d\nf 1 1 /e\nx\n.\n",
        "Form at byte 9",
    ),
    (
        b"EMTREE 2\nd 3 /\nd 2 /d\nl 4 4 /d/l\n../d\nf 1 1",
        "Short at byte 43",
    ),
];

pub static PART_16: [(&[u8], &str); 16] = [
    (
        b"EMTREE 2\nd 3 /\nd 2 /d\nl 4 4 /d/l\n../d\nf 1 1 /eax\n.\n",
        "Short at byte 51",
    ),
    (
        b"EMTREE 2\nd 3 /\nd 2 /d\nl 4 4 /d/l\n..1d\nf 1 1 /e\nx\n.\n",
        "ok",
    ),
    (
        b"EMTREE 2\nd 3 /\nd 2 /d\nl 4 4 /d/l\n../d\nf 1 1 /e\nx\n.4",
        "Form at byte 50",
    ),
    (
        b"EMTREE 2\nd 3 /\nd 2 /d\nl 4 4 /d/l\n../\nf 1 1 /e\nx\n.\n",
        "Form at byte 36",
    ),
    (
        b"EMTREE 2\nd 3 /\nd 2 /d\nl 4 4 /d/l\n../d\nf 1l1 /e\nx\n.\n",
        "Form at byte 41",
    ),
    (
        b"EMTREE 2\nd 3 /\nd 2 /d\nl 4 4 /d/l\n../d\nf  1 /e\nx\n.\n",
        "Number at byte 40",
    ),
    (
        b"EMTREE 2\nd 3 /\nd 2 /d\nl 4 4 /d/l\n\0../d\nf 1 1 /e\nx\n.\n",
        "Form at byte 33",
    ),
    (
        b"EMTREE22\nd 3 /\nd 2 /d\nl 4 4 /d/l\n../d\nf 1 1 /e\nx\n.\n",
        "Form at byte 6",
    ),
    (
        b"EMTREE 2\nd 3 /\nd 2 /d\nl 4 4 /d/l\n ../d\nf 1 1 /e\nx\n.\n",
        "Form at byte 37",
    ),
    (
        b"EMTREE 2\n../d\nd 2 /d\nl 4 4 /d/l\nd 3 /\nf 1 1 /e\nx\n.\n",
        "Form at byte 9",
    ),
    (
        b"EMTREE 2\nd 3 /\nd 2 /d\nl 4 4 /d/l\n.l/d\nf 1 1 /e\nx\n.\n",
        "ok",
    ),
    (
        b"EMTREE 2\nd 3 /\nd 2 /d\nl 4 4 /d/l\nx\nf 1 1 /e\n../d\n.\n",
        "Form at byte 34",
    ),
    (
        b"EMTREE 2\nd 3 /\nd 2 /d\nl 4 l /d/l\n../d\nf 1 1 /e\nx\n.\n",
        "Number at byte 26",
    ),
    (
        b"E TREE 2\nd 3 /\nd 2 /d\nl 4 4 /d/l\n../d\nf 1 1 /e\nx\n.\n",
        "Form at byte 1",
    ),
    (
        b"EMTREE 2\nd 3 /\n.\nl 4 4 /d/l\n../d\nf 1 1 /e\nx\nd 2 /d\n",
        "Form at byte 15",
    ),
    (
        b"EMTREE 2\nd 3 /\0\nd 2 /d\nl 4 4 /d/l\n../d\nf 1 1 /e\nx\n.\n",
        "Path at byte 13",
    ),
];

pub static PART_17: [(&[u8], &str); 16] = [
    (
        b"EMTREE 2\nd 3 /b\nd 2 /d\nl 4 4 /d/l\n../d\nf 1 1 /e\nx\n.\n",
        "Parent at byte 13",
    ),
    (
        b"EMTREE 2\nd 3 /\nd 2 /d\nl 4 4 /d/l\n../d\nf 1 1 .e\nx\n.\n",
        "Path at byte 44",
    ),
    (
        b"EMTREE 2\nd 3 /\nd 22/d\nl 4 4 /d/l\n../d\nf 1 1 /e\nx\n.\n",
        "Form at byte 19",
    ),
    (
        b"EMTREE 2\nd 3 /\nd 2 /d\nl 4 4 /d/\n../d\nf 1 1 /e\nx\n.\n",
        "Path at byte 28",
    ),
    (
        b"EMTREE 2\nd 3 /\nd 2 d\nl 4 4 /d/l\n../d\nf 1 1 /e\nx\n.\n",
        "Path at byte 19",
    ),
    (
        b"EMTREE 2\nd 3 /d 2 /d\nl 4 4 /d/l\n../d\nf 1 1 /e\nx\n.\n",
        "Parent at byte 13",
    ),
    (
        b"EMTREE 2\nd 3 /\nd 2 /d\nl 4 4 /d/l\n../d\nfb1 1 /e\nx\n.\n",
        "Form at byte 39",
    ),
    (b"EMTREE 2\nd ", "Short at byte 11"),
    (
        b"EMTREE 2\nl 4 4 /d/l\nd 2 /d\nd 3 /\n../d\nf 1 1 /e\nx\n.\n",
        "Parent at byte 15",
    ),
    (b"EMTREE 2\n", "Short at byte 9"),
    (
        b"EMTREE 2\nd 3 /\nx\nl 4 4 /d/l\n../d\nf 1 1 /e\nd 2 /d\n.\n",
        "Form at byte 15",
    ),
    (
        b"EMTREE 2\nd.3 /\nd 2 /d\nl 4 4 /d/l\n../d\nf 1 1 /e\nx\n.\n",
        "Form at byte 10",
    ),
    (
        b"EMTREE 2\nd  /\nd 2 /d\nl 4 4 /d/l\n../d\nf 1 1 /e\nx\n.\n",
        "Number at byte 11",
    ),
    (
        b"EMTREE 2\nd 3 /\nd 2 /d\nl 4 4 /d/l\n../d\nf 1 1 /e\n",
        "Short at byte 47",
    ),
    (
        b"EMTREE 2\nd 3 /\nd 2 /d\nl 4 4 /d/l\n../d\n.\nx\nf 1 1 /e\n",
        "Rest at byte 40",
    ),
    (
        b"EMTREE 2\nd 3 /\nd 2 /da\nl 4 4 /d/l\n../d\nf 1 1 /e\nx\n.\n",
        "Order at byte 29",
    ),
];

pub static PART_18: [(&[u8], &str); 2] = [
    (
        b"EMTREE2\nd 3 /\nd 2 /d\nl 4 4 /d/l\n../d\nf 1 1 /e\nx\n.\n",
        "Form at byte 6",
    ),
    (
        b"EMTREf 2\nd 3 /\nd 2 /d\nl 4 4 /d/l\n../d\nf 1 1 /e\nx\n.\n",
        "Form at byte 5",
    ),
];
