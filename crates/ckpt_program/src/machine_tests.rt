//! The codes of programs, run on the machine with no page protected, do what the evaluator does.

use crate::code::code_of;
use crate::machine_run::{Ran, run_code};
use crate::stages::accept_text;
use c_meaning::{PlainRun, plain};
use c_tree::Checked;
use ckpt_base::NoMemory;
use machine_code::Code;
use std::alloc::Global;
use std::marker::Brand;
use std::process::Abort;
use std::sync::ledger::Blank;
use std::test::Fail;

const SQUARES: &[u8] =
    b"long a[4]; long t; int main(void){ long i; EXCLUDE_HERE; for(i=0;i<4;i=i+1){ t=i*i; a[i]=t; CHECKPOINT_HERE; } printf(\"%ld\\n\",a[3]); return 7; }";

const SUMS: &[u8] =
    b"long n[3]; long x; int main(void){ long i; n[0]=5; n[1]=6; n[2]=7; x=0; i=0; EXCLUDE_HERE; while(i<3){ x=x+n[i]; i=i+1; CHECKPOINT_HERE; } printf(\"%ld\\n\",x); return 0; }";

const COUNTS: &[u8] =
    b"long n; long x; int main(void){ long i; n=4; for(i=0;i<2;i=i+1){ n=n+1; EXCLUDE_HERE; x=x+n; CHECKPOINT_HERE; x=x+n; CHECKPOINT_HERE; } printf(\"%ld\\n\",x); return 0; }";

const POINTERS: &[u8] =
    b"long x; long y; long *p; int main(void){ long c; c=getchar(); if(c==65) p=&x; else p=&y; x=1; EXCLUDE_HERE; CHECKPOINT_HERE; *p=5; printf(\"%ld\\n\",x); return 0; }";

const FACTORIAL: &[u8] =
    b"long f(long n){ long r; if(n<=1) return 1; r=f(n-1); return n*r; } int main(void){ long v; v=f(5); printf(\"%ld\\n\",v); return 0; }";

const ENDLESS: &[u8] =
    b"long f(long n){ long r; r=f(n); return r; } int main(void){ long v; v=f(0); return v; }";

const LOGIC: &[u8] =
    b"long a[2]; int main(void){ long x; x=0&&1/0; do { x=x+1; if(x==3) continue; a[x%2]=x; } while(!(x>4||a[5])); printf(\"%ld%%%ld\\n\",x,a[1]||1/0); return 1&&a[0]; }";

const CHAIN: &[u8] =
    b"long g(long *p, long n){ *(p+1)=n; return n*2; } long a[2]; long f(long n){ return g(a,n+1); } int main(void){ long i; for(;;){ i=f(i); if(i>50) break; putchar(65+i%26); } return 1/(a[1]-a[1]); }";

/// The run of a program's code on the machine.
fn on_machine(
    alloc: Global,
    program: &Checked,
    code: &Code,
    input: &[u8],
    until: u64,
) -> Result<Option<Ran>, NoMemory> {
    run_code::<Brand>(alloc, program, code, input, until, Blank::new(1))
}

/// Compares the two runs of a program.
fn is_same(rt: &impl Abort, ran: &Ran, want: &PlainRun) {
    assert_eq!(rt; ran.output.as_slice(), want.output.as_slice());
    assert_eq!(rt; ran.ending, want.ending);
    assert_eq!(rt; ran.ticks, want.ticks);
}

fn runs_alike(
    rt: &impl Abort,
    alloc: Global,
    program: &Checked,
    input: &[u8],
    until: u64,
) -> Result<(), Fail> {
    let code = code_of(alloc, program)?;
    let want = plain(alloc, program, input, until)?;
    match on_machine(alloc, program, &code, input, until)? {
        None => panic!(rt; "the code is not valid"),
        Some(ran) => {
            is_same(rt, &ran, &want);
            Ok(())
        }
    }
}

fn does_alike(
    rt: &impl Abort,
    alloc: Global,
    source: &[u8],
    input: &[u8],
    until: u64,
) -> Result<(), Fail> {
    assert!(rt; source.len() <= 262_144);
    match accept_text(alloc, source) {
        Err(_) => panic!(rt; "the source is not accepted"),
        Ok(program) => runs_alike(rt, alloc, program.get(), input, until),
    }
}

/// Loops, arrays, pointers, input, recursion and its limit, and bounds.
#[test]
fn codes_do_what_the_evaluator_does(rt: HostRuntime) -> Result<(), Fail> {
    let a = rt.alloc();
    let none: &[u8] = b"";
    let rows = [
        (SQUARES, none, u64::MAX),
        (SQUARES, none, 13),
        (SUMS, none, u64::MAX),
        (COUNTS, none, u64::MAX),
        (POINTERS, b"A".as_slice(), u64::MAX),
        (POINTERS, b"B".as_slice(), u64::MAX),
        (FACTORIAL, none, u64::MAX),
        (ENDLESS, none, u64::MAX),
        (LOGIC, none, u64::MAX),
        (CHAIN, none, u64::MAX),
    ];
    for (source, input, until) in rows.iter() {
        does_alike(&rt, a, source, input, *until)?;
    }
    Ok(())
}
