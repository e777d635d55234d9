//! What commands over one store answer, one after another.

/// A command line, and the status and the text that are its answer.
pub type Step<'a> = (&'a [&'a str], u8, &'a [u8]);

/// Commands over one store, which is empty before the first, and what its output file is behind the last.
pub type Store<'a> = (&'a [Step<'a>], &'a [u8]);

/// Sources and inputs, each with its name.
pub const FILES: [(&'static str, &'static [u8]); 10] = [
    ("E0", b""),
    ("ab", b"ab"),
    (
        "P",
        b"long a[4]; long t; int main(void){ long i; EXCLUDE_HERE; for(i=0;i<4;i=i+1){ t=i*i; a[i]=t; CHECKPOINT_HERE; } printf(\"%ld\\n\",a[3]); return 7; }",
    ),
    (
        "Q",
        b"long n[3]; long x; int main(void){ long i; n[0]=5; n[1]=6; n[2]=7; x=0; i=0; EXCLUDE_HERE; while(i<3){ x=x+n[i]; i=i+1; CHECKPOINT_HERE; } printf(\"%ld\\n\",x); return 0; }",
    ),
    (
        "S",
        b"long n; long x; int main(void){ long i; n=4; for(i=0;i<2;i=i+1){ n=n+1; EXCLUDE_HERE; x=x+n; CHECKPOINT_HERE; x=x+n; CHECKPOINT_HERE; } printf(\"%ld\\n\",x); return 0; }",
    ),
    (
        "U",
        b"long a[512]; long b[512]; int main(void){ a[0]=1; CHECKPOINT_HERE; b[5]=2; CHECKPOINT_HERE; CHECKPOINT_HERE; return a[0]+b[5]; }",
    ),
    (
        "W",
        b"long x; long y; long *p; int main(void){ p=&x; x=1; EXCLUDE_HERE; CHECKPOINT_HERE; *p=5; printf(\"%ld\\n\",x); return 0; }",
    ),
    (
        "echo",
        b"long c; int main(void){ c=getchar(); while(c!=EOF){ putchar(c); CHECKPOINT_HERE; c=getchar(); } return 0; }",
    ),
    (
        "trap",
        b"long a[4]; int main(void){ putchar(65); return a[4]; }",
    ),
    ("spin", b"int main(void){ while(1) ; }"),
];

/// Lives that begin.
pub const RUNS: [Store<'static>; 14] = [
    (
        &[
            (&["images", "D"], 0, b"no chain\n"),
            (&["run", "P", "E0", "D"], 0, b"begun\nend 7 steps 26\n"),
            (
                &["images", "D"],
                0,
                b"image 1 step 7 cells 3 5\nimage 2 step 12 cells 3 5\nimage 3 step 17 cells 3 5\nimage 4 step 22 cells 3 5\n",
            ),
            (&["run", "P", "E0", "D"], 10, b"occupied: image 4 step 22\n"),
            (&["run", "Q", "E0", "D"], 10, b"occupied: image 4 step 22\n"),
            (
                &["images", "D"],
                0,
                b"image 1 step 7 cells 3 5\nimage 2 step 12 cells 3 5\nimage 3 step 17 cells 3 5\nimage 4 step 22 cells 3 5\n",
            ),
        ],
        b"9\n",
    ),
    (
        &[
            (&["run", "Q", "E0", "D"], 0, b"begun\nend 0 steps 22\n"),
            (
                &["images", "D"],
                0,
                b"image 1 step 11 cells 0..4\nimage 2 step 15 cells 3..4\nimage 3 step 19 cells 3..4\n",
            ),
        ],
        b"18\n",
    ),
    (
        &[
            (&["run", "S", "E0", "D"], 0, b"begun\nend 0 steps 22\n"),
            (
                &["images", "D"],
                0,
                b"image 1 step 8 cells 0..2\nimage 2 step 10 cells 1\nimage 3 step 16 cells 0..2\nimage 4 step 18 cells 1\n",
            ),
        ],
        b"22\n",
    ),
    (
        &[
            (&["run", "U", "E0", "D"], 0, b"begun\nend 3 steps 6\n"),
            (
                &["images", "D"],
                0,
                b"image 1 step 2 cells 0..1023\nimage 2 step 4 cells 512..1023\nimage 3 step 5 cells\n",
            ),
        ],
        b"",
    ),
    (
        &[(&["run", "W", "E0", "D"], 0, b"begun\nend 0 steps 7\n")],
        b"5\n",
    ),
    (
        &[(&["run", "echo", "ab", "D"], 0, b"begun\nend 0 steps 11\n")],
        b"ab",
    ),
    (
        &[(&["run", "trap", "E0", "D"], 3, b"begun\ntrap 4 steps 2\n")],
        b"A",
    ),
    (
        &[
            (
                &["run", "spin", "E0", "D", "--until", "1000"],
                4,
                b"begun\nstopped steps 1000\n",
            ),
            (&["images", "D"], 0, b"no chain\n"),
        ],
        b"",
    ),
    (
        &[(
            &["run", "P", "E0", "D", "--until", "26"],
            0,
            b"begun\nend 7 steps 26\n",
        )],
        b"9\n",
    ),
    (
        &[(
            &["run", "P", "E0", "D", "--until", "25"],
            4,
            b"begun\nstopped steps 25\n",
        )],
        b"9\n",
    ),
    (
        &[(
            &["run", "P", "E0", "D", "--until", "24"],
            4,
            b"begun\nstopped steps 24\n",
        )],
        b"",
    ),
    (
        &[
            (
                &["run", "P", "E0", "D", "--until", "0"],
                4,
                b"begun\nstopped steps 0\n",
            ),
            (&["images", "D"], 0, b"no chain\n"),
        ],
        b"",
    ),
    (
        &[
            (
                &["run", "P", "E0", "D", "--every", "10"],
                0,
                b"begun\nend 7 steps 26\n",
            ),
            (
                &["images", "D"],
                0,
                b"image 1 step 7 cells 3 5\nimage 2 step 17 cells 3 5\n",
            ),
        ],
        b"9\n",
    ),
    (
        &[
            (
                &["run", "P", "E0", "D", "--max", "2"],
                0,
                b"begun\nend 7 steps 26\n",
            ),
            (
                &["images", "D"],
                0,
                b"image 3 step 17 cells 3 5\nimage 4 step 22 cells 3 5\n",
            ),
        ],
        b"9\n",
    ),
];

/// Lives that go on.
pub const RESTARTS: [Store<'static>; 9] = [
    (
        &[
            (&["restart", "P", "E0", "D"], 0, b"begun\nend 7 steps 26\n"),
            (
                &["restart", "P", "E0", "D"],
                0,
                b"resumed image 4 step 22\nend 7 steps 26\n",
            ),
            (
                &["images", "D"],
                0,
                b"image 1 step 7 cells 3 5\nimage 2 step 12 cells 3 5\nimage 3 step 17 cells 3 5\nimage 4 step 22 cells 3 5\n",
            ),
        ],
        b"9\n",
    ),
    (
        &[
            (
                &["run", "P", "E0", "D", "--until", "15"],
                4,
                b"begun\nstopped steps 15\n",
            ),
            (
                &["restart", "P", "E0", "D", "--until", "10"],
                13,
                b"bound 10 below step 12\n",
            ),
            (
                &["restart", "P", "E0", "D", "--until", "12"],
                4,
                b"resumed image 2 step 12\nstopped steps 12\n",
            ),
            (
                &["restart", "P", "E0", "D"],
                0,
                b"resumed image 2 step 12\nend 7 steps 26\n",
            ),
            (
                &["images", "D"],
                0,
                b"image 1 step 7 cells 3 5\nimage 2 step 12 cells 3 5\nimage 3 step 17 cells 3 5\nimage 4 step 22 cells 3 5\n",
            ),
        ],
        b"9\n",
    ),
    (
        &[
            (
                &["run", "P", "E0", "D", "--until", "15"],
                4,
                b"begun\nstopped steps 15\n",
            ),
            (
                &["restart", "Q", "E0", "D"],
                9,
                b"other source kept be1f4ea33c519f312bc4762ada8c1406becd68c20b100e5a009b640fec66fef6 given 3b488770fc94bf0218cb4106a6be42e8d9c07ee78d10c220bcbf0ae441595c7b\n",
            ),
            (
                &["restart", "P", "ab", "D"],
                9,
                b"other input kept e3b0c44298fc1c149afbf4c8996fb92427ae41e4649b934ca495991b7852b855 given fb8e20fc2e4c3f248c60c39bd652f3c1347298bb977b8b4d5903b85055620603\n",
            ),
            (
                &["restart", "P", "E0", "D", "--every", "0"],
                1,
                b"usage: ckpt plain|check|compile|report|run|restart|images|coalesce|clear|drill|generate|why\n",
            ),
            (
                &["restart", "P", "E0", "D", "--fill", "255"],
                0,
                b"resumed image 2 step 12\nend 7 steps 26\n",
            ),
        ],
        b"9\n",
    ),
    (
        &[
            (
                &["run", "W", "E0", "D", "--until", "5"],
                4,
                b"begun\nstopped steps 5\n",
            ),
            (
                &["restart", "W", "E0", "D", "--fill", "255"],
                0,
                b"resumed image 1 step 4\nend 0 steps 7\n",
            ),
        ],
        b"5\n",
    ),
    (
        &[
            (
                &["run", "Q", "E0", "D", "--until", "16"],
                4,
                b"begun\nstopped steps 16\n",
            ),
            (
                &["restart", "Q", "E0", "D", "--fill", "255"],
                0,
                b"resumed image 2 step 15\nend 0 steps 22\n",
            ),
        ],
        b"18\n",
    ),
    (
        &[
            (
                &["run", "S", "E0", "D", "--until", "12"],
                4,
                b"begun\nstopped steps 12\n",
            ),
            (
                &["restart", "S", "E0", "D", "--fill", "170"],
                0,
                b"resumed image 2 step 10\nend 0 steps 22\n",
            ),
            (
                &["images", "D"],
                0,
                b"image 1 step 8 cells 0..2\nimage 2 step 10 cells 1\nimage 3 step 16 cells 0..2\nimage 4 step 18 cells 1\n",
            ),
        ],
        b"22\n",
    ),
    (
        &[
            (
                &["run", "echo", "ab", "D", "--until", "5"],
                4,
                b"begun\nstopped steps 5\n",
            ),
            (
                &["restart", "echo", "ab", "D"],
                0,
                b"resumed image 1 step 4\nend 0 steps 11\n",
            ),
        ],
        b"ab",
    ),
    (
        &[
            (
                &["run", "P", "E0", "D", "--max", "2", "--until", "18"],
                4,
                b"begun\nstopped steps 18\n",
            ),
            (
                &["images", "D"],
                0,
                b"image 2 step 12 cells 3 5\nimage 3 step 17 cells 3 5\n",
            ),
            (
                &["restart", "P", "E0", "D", "--max", "64"],
                0,
                b"resumed image 3 step 17\nend 7 steps 26\n",
            ),
            (
                &["images", "D"],
                0,
                b"image 3 step 17 cells 3 5\nimage 4 step 22 cells 3 5\n",
            ),
        ],
        b"9\n",
    ),
    (
        &[
            (
                &["run", "P", "E0", "D", "--every", "10", "--until", "16"],
                4,
                b"begun\nstopped steps 16\n",
            ),
            (
                &["restart", "P", "E0", "D", "--every", "1"],
                0,
                b"resumed image 1 step 7\nend 7 steps 26\n",
            ),
            (
                &["images", "D"],
                0,
                b"image 1 step 7 cells 3 5\nimage 2 step 17 cells 3 5\n",
            ),
        ],
        b"9\n",
    ),
];

/// Words that are no command.
pub const USAGE: [Store<'static>; 1] = [(
    &[
        (
            &["run", "P", "E0", "D", "--pace", "1"],
            1,
            b"usage: ckpt plain|check|compile|report|run|restart|images|coalesce|clear|drill|generate|why\n",
        ),
        (
            &["run", "P", "E0", "D", "--max", "1"],
            1,
            b"usage: ckpt plain|check|compile|report|run|restart|images|coalesce|clear|drill|generate|why\n",
        ),
        (
            &["run", "P", "E0", "D", "--max", "65"],
            1,
            b"usage: ckpt plain|check|compile|report|run|restart|images|coalesce|clear|drill|generate|why\n",
        ),
        (
            &["run", "P", "E0", "D", "--every", "0"],
            1,
            b"usage: ckpt plain|check|compile|report|run|restart|images|coalesce|clear|drill|generate|why\n",
        ),
        (
            &["run", "P", "E0"],
            1,
            b"usage: ckpt plain|check|compile|report|run|restart|images|coalesce|clear|drill|generate|why\n",
        ),
        (
            &["run", "P", "E0", "D", "--fill", "1"],
            1,
            b"usage: ckpt plain|check|compile|report|run|restart|images|coalesce|clear|drill|generate|why\n",
        ),
        (
            &["restart", "P", "E0", "D", "--fill", "256"],
            1,
            b"usage: ckpt plain|check|compile|report|run|restart|images|coalesce|clear|drill|generate|why\n",
        ),
        (
            &["restart", "P", "E0", "D", "E"],
            1,
            b"usage: ckpt plain|check|compile|report|run|restart|images|coalesce|clear|drill|generate|why\n",
        ),
        (
            &["images"],
            1,
            b"usage: ckpt plain|check|compile|report|run|restart|images|coalesce|clear|drill|generate|why\n",
        ),
    ],
    b"",
)];

/// Stores that are put in order.
pub const UPKEEP: [Store<'static>; 5] = [
    (
        &[
            (&["coalesce", "D"], 0, b"no chain\n"),
            (&["clear", "D"], 0, b"cleared\n"),
            (&["images", "D"], 0, b"no chain\n"),
        ],
        b"",
    ),
    (
        &[
            (
                &["run", "P", "E0", "D", "--max", "2"],
                0,
                b"begun\nend 7 steps 26\n",
            ),
            (&["coalesce", "D"], 0, b"joined 2\n"),
            (&["coalesce", "D"], 0, b"nothing to join\n"),
            (&["images", "D"], 0, b"image 4 step 22 cells 3 5\n"),
            (
                &["restart", "P", "E0", "D"],
                0,
                b"resumed image 4 step 22\nend 7 steps 26\n",
            ),
        ],
        b"9\n",
    ),
    (
        &[
            (
                &["run", "P", "E0", "D", "--until", "15"],
                4,
                b"begun\nstopped steps 15\n",
            ),
            (&["coalesce", "D"], 0, b"joined 2\n"),
            (
                &["restart", "P", "E0", "D", "--fill", "255"],
                0,
                b"resumed image 2 step 12\nend 7 steps 26\n",
            ),
            (
                &["images", "D"],
                0,
                b"image 2 step 12 cells 3 5\nimage 3 step 17 cells 3 5\nimage 4 step 22 cells 3 5\n",
            ),
        ],
        b"9\n",
    ),
    (
        &[
            (&["run", "P", "E0", "D"], 0, b"begun\nend 7 steps 26\n"),
            (&["clear", "D"], 0, b"cleared\n"),
            (&["images", "D"], 0, b"no chain\n"),
            (&["coalesce", "D"], 0, b"no chain\n"),
            (&["run", "Q", "E0", "D"], 0, b"begun\nend 0 steps 22\n"),
        ],
        b"18\n",
    ),
    (
        &[
            (&["run", "P", "E0", "D"], 0, b"begun\nend 7 steps 26\n"),
            (&["clear", "D"], 0, b"cleared\n"),
        ],
        b"",
    ),
];
