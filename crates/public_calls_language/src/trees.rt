//! The trees of texts.

use c_reader::read;
use c_tree::{
    Binary, Callee, Expr, Given, Init, Item, Length, ObjectForm, PrintPiece, Stmt, Unary,
};
use std::alloc::Global;

/// What an expression of numbers comes to, and how it groups.
fn value(e: &Expr) -> i64 {
    match e {
        Expr::Num(n) => *n,
        Expr::Unary(op, a) => {
            let inner = value(a.get());
            match op {
                Unary::Neg => inner.wrapping_neg(),
                Unary::Inv => !inner,
                Unary::Not | Unary::Deref => 0,
            }
        }
        Expr::Binary(op, a, b) => {
            let left = value(a.get());
            let right = value(b.get());
            match op {
                Binary::Add => left.wrapping_add(right),
                Binary::Sub => left.wrapping_sub(right),
                Binary::Mul => left.wrapping_mul(right),
                Binary::BitOr => left | right,
                Binary::BitAnd => left & right,
                Binary::BitXor => left ^ right,
                _ => 0,
            }
        }
        _ => 0,
    }
}

/// The value that the first statement of `main` returns.
fn returned(alloc: Global, text: &str) -> Option<i64> {
    match read(alloc, text.as_bytes()) {
        Err(_) => None,
        Ok(program) => match program.items.as_slice() {
            [Item::Main(_, body)] => match body.as_slice() {
                [Stmt::Return(_, Given::Value(e))] => Some(value(e)),
                _ => None,
            },
            _ => None,
        },
    }
}

/// The line of a statement.
fn line(s: &Stmt) -> u32 {
    match s {
        Stmt::Empty(line)
        | Stmt::Declare(line, _)
        | Stmt::Set(line, _)
        | Stmt::Call(line, _, _, _)
        | Stmt::Input(line, _)
        | Stmt::Put(line, _)
        | Stmt::Print(line, _, _)
        | Stmt::Return(line, _)
        | Stmt::If(line, _, _)
        | Stmt::While(line, _, _)
        | Stmt::Do(line, _, _)
        | Stmt::For(line, _, _, _, _)
        | Stmt::Block(line, _)
        | Stmt::Break(line)
        | Stmt::Continue(line)
        | Stmt::Checkpoint(line)
        | Stmt::Exclude(line) => *line,
    }
}

/// Whether the statements of `main` have these lines.
fn has_lines(alloc: Global, text: &str, lines: &[u32]) -> bool {
    match read(alloc, text.as_bytes()) {
        Err(_) => false,
        Ok(program) => match program.items.as_slice() {
            [Item::Main(_, body)] => {
                let mut same = body.len() == lines.len();
                for (s, wanted) in body.as_slice().iter().zip(lines.iter()) {
                    same = same && line(s) == *wanted;
                }
                same
            }
            _ => false,
        },
    }
}

#[test]
fn operators_group_as_in_c(rt: HostRuntime) {
    for (text, wanted) in [
        ("int main(void){return 2*3+4*5-(6-7)*8;}", 34),
        ("int main(){return 10-4-3;}", 3),
        ("int main(void){return 1|2^3&2;}", 1),
        ("int main(void){return -2-~1;}", 0),
        ("int main(void){return EOF-NULL;}", -1),
        ("int main(void){return 'H'+'\\n'+'\\''+'\\0';}", 121),
        (
            "int main(void){return 9223372036854775807-0L;}",
            9_223_372_036_854_775_807,
        ),
    ] {
        assert_eq!(rt; returned(rt.alloc(), text), Some(wanted), "at {text}");
    }
}

#[test]
fn statements_keep_their_lines(rt: HostRuntime) {
    assert!(rt;
        has_lines(
            rt.alloc(),
            "int main()\r\n{\n putchar(72L);\n;\n\tf\n(); long\ni = 1; { }\nif(1);else if(2)\n;\n*p = 1; return 3; }\n",
            &[3, 4, 5, 6, 7, 8, 10, 10]
        )
    );
    assert!(rt; has_lines(rt.alloc(), "int main(void){}", &[]));
}

/// A letter for each kind of statement.
fn letter(s: &Stmt) -> char {
    match s {
        Stmt::Empty(_) => ';',
        Stmt::Declare(_, _) => 'l',
        Stmt::Set(_, _) => 's',
        Stmt::Call(_, None, _, _) => 'c',
        Stmt::Call(_, Some(_), _, _) => 'C',
        Stmt::Input(_, None) => 'g',
        Stmt::Input(_, Some(_)) => 'G',
        Stmt::Put(_, _) => 'p',
        Stmt::Print(_, _, _) => 'P',
        Stmt::Return(_, _) => 'r',
        Stmt::If(_, _, None) => 'i',
        Stmt::If(_, _, Some(_)) => 'I',
        Stmt::While(_, _, _) => 'w',
        Stmt::Do(_, _, _) => 'd',
        Stmt::For(_, None, None, None, _) => 'f',
        Stmt::For(_, Some(Init::Declare(_, _)), Some(_), Some(_), _) => 'F',
        Stmt::For(_, _, _, _, _) => 'o',
        Stmt::Block(_, _) => '{',
        Stmt::Break(_) => 'b',
        Stmt::Continue(_) => 'k',
        Stmt::Checkpoint(_) => 'h',
        Stmt::Exclude(_) => 'e',
    }
}

/// Whether these letters are the statements'.
fn is_kinds(statements: &[Stmt], letters: &str) -> bool {
    let mut same = true;
    let mut kinds = letters.chars();
    for s in statements {
        same = same && kinds.next() == Some(letter(s));
    }
    same && kinds.next() == None
}

#[test]
fn each_statement_is_read_as_its_kind(rt: HostRuntime) {
    let text =
        "int main(void){ long i = 1, *q = f(1, q), k = getchar(); x = f(1); f(x); x = getchar(); getchar(); main();
        if(x) ; else if(i) { } else ; if(1) if(2) ; else ; while(0) ; do ; while(0); for(;;) break; for(long k=0;k<2;k=k+1) continue;
        for(a[1]=0;;) ; *p = 1; a[1] = 2; x = 3; putchar(1); printf(\"a%ld%%\\n\", x, 2); EXCLUDE_HERE; CHECKPOINT_HERE; { ; } return &a[1]; }";
    match read(rt.alloc(), text.as_bytes()) {
        Err(_) => assert!(rt; false),
        Ok(program) => match program.items.as_slice() {
            [Item::Main(0, body)] => {
                assert!(rt; is_kinds(body.as_slice(), "lCcGgcIiwdfFossspPeh{r"));
            }
            _ => assert!(rt; false),
        },
    }
}

/// Whether the only statement of `main` is an `if` with no last statement whose only arm is an `if` with one.
fn is_nearest(alloc: Global, text: &str) -> bool {
    match read(alloc, text.as_bytes()) {
        Err(_) => false,
        Ok(program) => match program.items.as_slice() {
            [Item::Main(_, body)] => match body.as_slice() {
                [Stmt::If(_, arms, None)] => match arms.as_slice() {
                    [arm] => letter(&arm.body) == 'I',
                    _ => false,
                },
                _ => false,
            },
            _ => false,
        },
    }
}

#[test]
fn an_else_belongs_to_the_nearest_if(rt: HostRuntime) {
    assert!(rt; is_nearest(rt.alloc(), "int main(void){ if(1) if(2) ; else ; }"));
    assert!(rt; !is_nearest(rt.alloc(), "int main(void){ if(1) { if(2) ; } else ; }"));
}

#[test]
fn strings_are_taken_apart(rt: HostRuntime) {
    let text = "int main(void){ printf(\"a%ld%%\\n\", x, 2); }";
    match read(rt.alloc(), text.as_bytes()) {
        Err(_) => assert!(rt; false),
        Ok(program) => match program.items.as_slice() {
            [Item::Main(_, body)] => match body.as_slice() {
                [Stmt::Print(_, pieces, values)] => {
                    assert_eq!(rt; values.len(), 2);
                    match pieces.as_slice() {
                        [
                            PrintPiece::Byte(b'a'),
                            PrintPiece::Number,
                            PrintPiece::Byte(b'%'),
                            PrintPiece::Byte(b'\n'),
                        ] => {}
                        _ => assert!(rt; false),
                    }
                }
                _ => assert!(rt; false),
            },
            _ => assert!(rt; false),
        },
    }
}

#[test]
fn constants_stand_in_order_and_names_tell_how_many_came_before(rt: HostRuntime) {
    let text =
        "#define N 4\nlong a[N], b = -N;\n# define M - 5 // five\nint main(void){ return M; }";
    match read(rt.alloc(), text.as_bytes()) {
        Err(_) => assert!(rt; false),
        Ok(program) => {
            match program.constants.as_slice() {
                [n, m] => {
                    assert!(rt; n.name.as_bytes() == b"N".as_slice() && n.number == 4);
                    assert!(rt; m.name.as_bytes() == b"M".as_slice() && m.number == -5);
                }
                _ => assert!(rt; false),
            }
            match program.items.as_slice() {
                [Item::Objects(2, decls), Item::Main(2, _)] => match decls.as_slice() {
                    [a, b] => {
                        assert_eq!(rt; a.name.constants, 1);
                        match (&a.form, &b.form) {
                            (
                                ObjectForm::Array(Length::Name(n)),
                                ObjectForm::Started(true, Length::Name(_)),
                            ) => assert_eq!(rt; n.constants, 1),
                            _ => assert!(rt; false),
                        }
                    }
                    _ => assert!(rt; false),
                },
                _ => assert!(rt; false),
            }
        }
    }
}

#[test]
fn functions_and_prototypes_are_told_apart(rt: HostRuntime) {
    let text =
        "long *f(long n, long *q){ return main(1); } long f(long, long *p); long h(void); long g(){ }";
    match read(rt.alloc(), text.as_bytes()) {
        Err(_) => assert!(rt; false),
        Ok(program) => match program.items.as_slice() {
            [
                Item::Function(f),
                Item::Prototype,
                Item::Prototype,
                Item::Function(g),
            ] => {
                assert!(rt; f.gives_pointer && !g.gives_pointer && g.parameters.is_empty());
                match f.parameters.as_slice() {
                    [n, q] => assert!(rt; !n.is_pointer && q.is_pointer),
                    _ => assert!(rt; false),
                }
                match f.body.as_slice() {
                    [Stmt::Return(1, Given::Call(Callee::Main, values))] => {
                        assert_eq!(rt; values.len(), 1);
                    }
                    _ => assert!(rt; false),
                }
            }
            _ => assert!(rt; false),
        },
    }
}
