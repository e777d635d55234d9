//! Which texts are read, and where the first fault of the others is.

use c_reader::{ReadFault, read};
use std::alloc::{AllocError, Global};
use std::test::Fail;

/// What a text is answered.
#[derive(Clone, Copy, Debug, PartialEq, Eq)]
enum Outcome {
    Read,
    Memory,
    TooLong(usize),
    BadByte(usize),
    BadNumber(usize),
    Unended,
    Syntax(u32),
}

fn answer(alloc: Global, text: &[u8]) -> Outcome {
    match read(alloc, text) {
        Ok(_) => Outcome::Read,
        Err(ReadFault::Memory) => Outcome::Memory,
        Err(ReadFault::TooLong(n)) => Outcome::TooLong(n),
        Err(ReadFault::BadByte(place)) => Outcome::BadByte(place),
        Err(ReadFault::BadNumber(place)) => Outcome::BadNumber(place),
        Err(ReadFault::UnendedComment) => Outcome::Unended,
        Err(ReadFault::Syntax(line)) => Outcome::Syntax(line),
    }
}

/// `main` with a text before its middle and one after it, each so many times.
fn around(
    alloc: Global,
    head: &str,
    before: &str,
    middle: &str,
    after: &str,
    n: u32,
) -> Result<String, AllocError> {
    let mut text = String::from_str(alloc, "long a[2]; int main(void){ ")?;
    text.push_str(head)?;
    for _ in 0..n {
        text.push_str(before)?;
    }
    text.push_str(middle)?;
    for _ in 0..n {
        text.push_str(after)?;
    }
    text.push_str("; }")?;
    Ok(text)
}

#[test]
fn the_first_fault_of_the_scan_has_its_place(rt: HostRuntime) {
    for (text, wanted) in [
        ("return 9223372036854775808;", Outcome::BadNumber(7)),
        ("1LL", Outcome::BadNumber(0)),
        (" 08 @", Outcome::BadNumber(1)),
        ("} ) 0x1", Outcome::BadNumber(4)),
        ("a @ 08", Outcome::BadByte(2)),
        ("'ab'", Outcome::BadByte(2)),
        ("''", Outcome::BadByte(1)),
        ("'\\x'", Outcome::BadByte(2)),
        ("'a", Outcome::BadByte(2)),
        ("'\n'", Outcome::BadByte(1)),
        ("\"%d\"", Outcome::BadByte(2)),
        ("\"%l\"", Outcome::BadByte(3)),
        ("\"a\\r\"", Outcome::BadByte(3)),
        ("\"\\0\"", Outcome::BadByte(2)),
        ("\"ab", Outcome::BadByte(3)),
        ("\"%l", Outcome::BadByte(3)),
        ("a \\\n", Outcome::BadByte(2)),
        ("/*/ int", Outcome::Unended),
        ("} /* * /", Outcome::Unended),
        ("#pragma once", Outcome::BadByte(0)),
        (" #define N 4 5", Outcome::BadByte(1)),
        ("#define for 4", Outcome::BadByte(0)),
        ("#define N(x) 4", Outcome::BadByte(0)),
        ("#define N /* a\n*/ 4", Outcome::BadByte(0)),
        ("#defineN 4", Outcome::BadByte(0)),
        ("#includes", Outcome::BadByte(0)),
        ("; # define N 4", Outcome::BadByte(2)),
        ("/* a */ #define N 08", Outcome::BadByte(8)),
        ("", Outcome::Read),
        (" \t\r\n// \u{e4} @\n/* @ */", Outcome::Read),
        ("#include \"any thing @ /*\n", Outcome::Read),
        ("/*\n*/ # /* a */ define\tN-5L // b\n", Outcome::Read),
    ] {
        assert_eq!(rt; answer(rt.alloc(), text.as_bytes()), wanted, "at {text}");
    }
}

#[test]
fn syntax_has_the_line_of_the_first_token_that_does_not_fit(rt: HostRuntime) {
    for (text, line) in [
        ("int main(void){ return 1;", 1),
        ("int main(void){ return 1;\n\n", 2),
        ("int main(void)\n{\n return 1\n}", 4),
        ("int main(void){ if(1)\n long\n i; }", 2),
        ("int main(void){\n break; }", 2),
        ("int main(void){ while(1)\n ;\n continue; }", 3),
        ("int main(void){ ;\n else ; }", 2),
        ("int main(void){ a--b; }", 1),
        ("int main(void){ a\n= 1 + f\n(2); }", 3),
        ("int main(void){ a[0] =\n f\n(2); }", 3),
        ("int main(void){ printf(\n1); }", 2),
        ("long f(long)\n;\nlong f(long)\n{ }", 4),
        ("long\n*p\n= 0;", 3),
        ("long a[\nEOF];", 2),
        ("int x;", 1),
        ("long\nmain(void){ }", 2),
        ("\nmain(void){ }", 2),
    ] {
        assert_eq!(rt;
            answer(rt.alloc(), text.as_bytes()),
            Outcome::Syntax(line),
            "at {text}"
        );
    }
}

#[test]
fn a_depth_of_a_hundred_is_read(rt: HostRuntime) -> Result<(), Fail> {
    for (head, before, middle, after) in [
        ("return ", "(", "1", ")"),
        ("return ", "~", "1", ""),
        ("return ", "1+", "1", ""),
        ("return ", "a[", "0", "]"),
        ("", "{", ";", "}"),
        ("", "if(1)", "", ""),
        ("", "for(;;)", "", ""),
        ("", "do ", "", ";while(1)"),
    ] {
        let text = around(rt.alloc(), head, before, middle, after, 99)?;
        assert_eq!(rt;
            answer(rt.alloc(), text.as_bytes()),
            Outcome::Read,
            "at {before}"
        );
        let text = around(rt.alloc(), head, before, middle, after, 100)?;
        assert_eq!(rt;
            answer(rt.alloc(), text.as_bytes()),
            Outcome::Syntax(1),
            "at {before}"
        );
    }
    Ok(())
}

#[test]
fn a_level_too_deep_is_told_where_it_begins(rt: HostRuntime) -> Result<(), Fail> {
    for (head, before, middle, after, line) in [
        ("return ", "\n(", "1", ")", 101),
        ("return ", "1\n+", "1", "", 101),
        ("", "\n{", "\n;", "}", 102),
        ("", "\nwhile(1)", "\n", "", 101),
    ] {
        let text = around(rt.alloc(), head, before, middle, after, 100)?;
        assert_eq!(rt;
            answer(rt.alloc(), text.as_bytes()),
            Outcome::Syntax(line),
            "at {before}"
        );
    }
    let arms = around(rt.alloc(), "", "if(1); else ", "", "", 1000)?;
    assert_eq!(rt; answer(rt.alloc(), arms.as_bytes()), Outcome::Read);
    Ok(())
}

#[test]
fn a_text_of_262145_bytes_is_too_long(rt: HostRuntime) -> Result<(), Fail> {
    let mut text = String::from_str(rt.alloc(), "int main(void){ return 6; }")?;
    for _ in text.len()..262_144 {
        text.push(' ')?;
    }
    assert_eq!(rt; answer(rt.alloc(), text.as_bytes()), Outcome::Read);
    text.push(' ')?;
    assert_eq!(rt;
        answer(rt.alloc(), text.as_bytes()),
        Outcome::TooLong(262_145)
    );
    Ok(())
}
