//! What `why` answers.

use crate::store_rows::Store;

const USAGE: &[u8] =
    b"usage: ckpt plain|check|compile|report|run|restart|images|coalesce|clear|drill|generate|why\n";

/// Reasons for cells, and words that ask for none.
pub const REASONS: [Store<'static>; 1] = [(
    &[
        (
            &["why", "P", "1", "3"],
            0,
            b"a[3] kept\nneeded 1 2 3 5 6 7 4 3 8\nwritten 1 2 3 5 6 7\n",
        ),
        (&["why", "P", "1", "4"], 0, b"t dead\n"),
        (
            &["why", "P", "1", "5"],
            0,
            b"main.i kept\nneeded 1 2 3 5 6 7 4\nwritten 1 2 3 5 6 7\n",
        ),
        (
            &["why", "Q", "1", "0"],
            0,
            b"n[0] read-only\nneeded 6 7 8 9 10 7 8\n",
        ),
        (&["why", "P", "2", "0"], 14, b"no exclude 2\n"),
        (&["why", "P", "1", "6"], 14, b"no cell 6\n"),
        (&["why", "P", "64", "6"], 14, b"no exclude 64\n"),
        (
            &["why", "P", "1", "4294967295"],
            14,
            b"no cell 4294967295\n",
        ),
        (&["why", "P", "0", "0"], 1, USAGE),
        (&["why", "P", "65", "0"], 1, USAGE),
        (&["why", "P", "01", "0"], 1, USAGE),
        (&["why", "P", "1", "4294967296"], 1, USAGE),
        (&["why", "P", "1"], 1, USAGE),
        (&["why", "P", "1", "0", "0"], 1, USAGE),
        (&["why", "nothing", "1", "0"], 6, b"shelf fault\n"),
        (&["why", "E0", "1", "0"], 2, b"refused: no main\n"),
    ],
    b"",
)];
