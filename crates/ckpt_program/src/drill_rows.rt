//! What `drill` and `generate` answer.

use crate::store_rows::Store;

const USAGE: &[u8] =
    b"usage: ckpt plain|check|compile|report|run|restart|images|coalesce|clear|drill|generate|why\n";

/// Stops at steps: none, before and behind images, and with a bound.
pub const STEPS: [Store<'static>; 1] = [(
    &[
        (
            &["drill", "P", "E0"],
            0,
            b"begun\nend 7 steps 26\noutput 2\n9\n\n",
        ),
        (
            &["drill", "P", "E0", "--stops", "s12,s13,s13,s25"],
            0,
            b"begun\nleft\nresumed image 2 step 12\nleft\nresumed image 2 step 12\nleft\nresumed image 2 step 12\nleft\nresumed image 4 step 22\nend 7 steps 26\noutput 2\n9\n\n",
        ),
        (
            &["drill", "P", "E0", "--stops", "s6"],
            0,
            b"begun\nleft\nbegun\nend 7 steps 26\noutput 2\n9\n\n",
        ),
        (
            &["drill", "P", "E0", "--until", "13", "--stops", "s12"],
            4,
            b"begun\nleft\nresumed image 2 step 12\nstopped steps 13\noutput 0\n\n",
        ),
    ],
    b"",
)];

/// Stops inside calls: a record, its gate, the opening of a store, and the gate of a joining, each with what the crash leaves.
pub const CALLS: [Store<'static>; 1] = [(
    &[
        (
            &["drill", "P", "E0", "--stops", "w14:165", "--fill", "255"],
            0,
            b"begun\nleft\nresumed image 2 step 12\nend 7 steps 26\noutput 2\n9\n\n",
        ),
        (
            &["drill", "P", "E0", "--stops", "w16:0"],
            0,
            b"begun\nleft\nresumed image 2 step 12\nend 7 steps 26\noutput 2\n9\n\n",
        ),
        (
            &["drill", "P", "E0", "--stops", "w16:7"],
            0,
            b"begun\nleft\nresumed image 2 step 12\nend 7 steps 26\noutput 2\n9\n\n",
        ),
        (
            &["drill", "P", "E0", "--stops", "w16:1"],
            0,
            b"begun\nleft\nresumed image 3 step 17\nend 7 steps 26\noutput 2\n9\n\n",
        ),
        (
            &["drill", "P", "E0", "--stops", "w16:165"],
            0,
            b"begun\nleft\nresumed image 3 step 17\nend 7 steps 26\noutput 2\n9\n\n",
        ),
        (
            &["drill", "P", "E0", "--stops", "w6:165"],
            0,
            b"begun\nleft\nbegun\nend 7 steps 26\noutput 2\n9\n\n",
        ),
        (
            &["drill", "P", "E0", "--stops", "w5:0"],
            0,
            b"opening\nleft\nbegun\nend 7 steps 26\noutput 2\n9\n\n",
        ),
        (
            &["drill", "P", "E0", "--max", "2", "--stops", "w26:0"],
            0,
            b"begun\nleft\nresumed image 3 step 17\nend 7 steps 26\noutput 2\n9\n\n",
        ),
        (
            &["drill", "P", "E0", "--max", "2", "--stops", "w26:1"],
            0,
            b"begun\nleft\nresumed image 3 step 17\nend 7 steps 26\noutput 2\n9\n\n",
        ),
    ],
    b"",
)];

/// The generated program.
pub const GENERATED: [Store<'static>; 1] = [(
    &[(
        &["generate", "1"],
        0,
        b"generated functions 1 cells 68\nbegun\nleft\nresumed image 3 step 611\nleft\nresumed image 7 step 1419\nleft\nresumed image 11 step 2227\nleft\nresumed image 15 step 3035\nend 0 steps 4049\noutput 6\n51870\n\n",
    )],
    b"",
)];

/// Words that are no drill, and files that are none of one.
pub const REFUSED_DRILLS: [Store<'static>; 1] = [(
    &[
        (&["drill", "P", "E0", "--stops", "s5,"], 1, USAGE),
        (&["drill", "P", "E0", "--stops", "w0:1"], 1, USAGE),
        (&["drill", "P", "E0", "--stops", "w5"], 1, USAGE),
        (&["drill", "P", "E0", "--stops", "w5:256"], 1, USAGE),
        (&["drill", "P", "--stops", "s5"], 1, USAGE),
        (&["generate", "0"], 1, USAGE),
        (&["generate", "1001"], 1, USAGE),
        (&["drill", "nothing", "E0"], 6, b"shelf fault\n"),
        (&["drill", "E0", "E0"], 2, b"refused: no main\n"),
    ],
    b"",
)];
