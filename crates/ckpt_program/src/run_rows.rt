//! What programs read and write, and how their loops, calls and bounds end.

use crate::plain_rows::Row;

/// Output and input.
pub const BYTES: [Row<'static>; 5] = [
    (
        b"int main(void){ printf(\"a\\tb\\\\\\\"%%%ld|\\n\",-12); return 0; }",
        0,
        b"a\tb\\\"%-12|\n\nend 0 steps 2\n",
    ),
    (
        b"int main(void){ printf(\"\"); printf(\"x\"); return 0; }",
        0,
        b"x\nend 0 steps 3\n",
    ),
    (
        b"int main(void){ printf(\"%ld %ld\",9223372036854775807,-9223372036854775807-1); return 0; }",
        0,
        b"9223372036854775807 -9223372036854775808\nend 0 steps 2\n",
    ),
    (
        b"int main(void){ putchar(-1); putchar(-256+66); return 0; }",
        0,
        b"\xffB\nend 0 steps 3\n",
    ),
    (b"int main(void){ return EOF; }", 0, b"\nend -1 steps 1\n"),
];

/// Loops and branches.
pub const LOOPS: [Row<'static>; 13] = [
    (
        b"int main(void){ for(;;) break; return 3; }",
        0,
        b"\nend 3 steps 2\n",
    ),
    (
        b"int main(void){ long i; i=0; do i=i+1; while(i<3); return i; }",
        0,
        b"\nend 3 steps 9\n",
    ),
    (
        b"int main(void){ long i; long s; for(i=0;i<5;i=i+1){ if(i==2) continue; s=s+i; } return s; }",
        0,
        b"\nend 8 steps 24\n",
    ),
    (
        b"int main(void){ long i; i=0; do { i=i+1; continue; i=9; } while(i<3); return i; }",
        0,
        b"\nend 3 steps 9\n",
    ),
    (
        b"int main(void){ long i; long s; for(i=0;i<3;i=i+1) while(1){ s=s+1; break; } return s; }",
        0,
        b"\nend 3 steps 17\n",
    ),
    (
        b"int main(void){ long i; for(i=0;i<4;i=i+1){ if(i==0) putchar(65); else if(i==1) putchar(66); else if(i==2) putchar(67); else putchar(68); } return 0; }",
        0,
        b"ABCD\nend 0 steps 25\n",
    ),
    (
        b"int main(void){ if(1) if(0) putchar(65); else putchar(66); return 0; }",
        0,
        b"B\nend 0 steps 4\n",
    ),
    (
        b"int main(void){ if(-5) putchar(65); while(0) putchar(66); return 0; }",
        0,
        b"A\nend 0 steps 4\n",
    ),
    (
        b"int main(void){ long s; for(long k=1;k<4;k=k+1) s=s+k; return s; }",
        0,
        b"\nend 6 steps 13\n",
    ),
    (
        b"int main(void){ long i; for(;i<3;){ i=i+1; } return i; }",
        0,
        b"\nend 3 steps 9\n",
    ),
    (
        b"int main(void){ long i; long s; for(i=0;i<3;i=i+1){ long k; k=k+1; s=s+k; } return s; }",
        0,
        b"\nend 3 steps 20\n",
    ),
    (b"int main(void){ long i; i=5; }", 0, b"\nend 0 steps 2\n"),
    (
        b"int main(void){ long i; for(i=0;;i=i+1) while(1) if(i<9) return i+40; return 1; }",
        0,
        b"\nend 40 steps 6\n",
    ),
];

/// Functions and pointers.
pub const FUNCTIONS: [Row<'static>; 12] = [
    (
        b"long sum(long *p, long n){ long i; long s; for(i=0;i<n;i=i+1) s=s+p[i]; return s; } long a[3]; int main(void){ long v; a[0]=1; a[1]=2; a[2]=3; v=sum(a,3); return v; }",
        0,
        b"\nend 6 steps 20\n",
    ),
    (
        b"long f(void){ } int main(void){ long v = f(); return v; }",
        0,
        b"\nend 0 steps 2\n",
    ),
    (
        b"long *f(void){ } long *p; long x; int main(void){ p=&x; p=f(); return p==NULL; }",
        0,
        b"\nend 1 steps 3\n",
    ),
    (
        b"long f(long n){ return n+1; } int main(void){ return f(2); }",
        0,
        b"\nend 3 steps 2\n",
    ),
    (
        b"long f(long n){ n=n+1; return n; } int main(void){ long v; long w; v=5; w=f(v); return v*10+w; }",
        0,
        b"\nend 56 steps 7\n",
    ),
    (
        b"long f(long n){ long k; if(n==0) return 0; k=n; f(n-1); return k; } int main(void){ return f(3); }",
        0,
        b"\nend 3 steps 19\n",
    ),
    (
        b"long a[4]; long *at(long k){ return a+k; } long *p; int main(void){ p=at(2); *p=9; p[1]=8; *(p-1)=7; return a[1]*100+a[2]*10+a[3]; }",
        0,
        b"\nend 798 steps 6\n",
    ),
    (
        b"long even(long n); long odd(long n){ if(n==0) return 0; return even(n-1); } long even(long n){ if(n==0) return 1; return odd(n-1); } int main(void){ return even(5); }",
        0,
        b"\nend 0 steps 13\n",
    ),
    (
        b"long a[2]; long x; long *p; long *q; int main(void){ p=a; q=&a[1]; printf(\"%ld%ld%ld%ld%ld\\n\",p==q,p+1==q,p!=&x,p==NULL,a+2==&x); return 0; }",
        0,
        b"01100\n\nend 0 steps 4\n",
    ),
    (
        b"long x; long y; int main(void){ return &x+1==&y; }",
        0,
        b"\nend 0 steps 1\n",
    ),
    (
        b"long a[3]; int main(void){ a[2]=6; return *(2+a); }",
        0,
        b"\nend 6 steps 2\n",
    ),
    (
        b"long a[2]; long set(long *p){ p[1]=5; return 0; } int main(void){ set(a); return a[1]; }",
        0,
        b"\nend 5 steps 4\n",
    ),
];

/// Programs that read: a source, its input, and the text.
pub const READING: [(&[u8], &[u8], &[u8]); 5] = [
    (
        b"long x; long y; long *p; int main(void){ long c; c=getchar(); if(c==65) p=&x; else p=&y; x=1; EXCLUDE_HERE; CHECKPOINT_HERE; *p=5; printf(\"%ld\\n\",x); return 0; }",
        b"B",
        b"1\n\nend 0 steps 10\n",
    ),
    (
        b"long c; int main(void){ c=getchar(); while(c!=EOF){ putchar(c); CHECKPOINT_HERE; c=getchar(); } return 0; }",
        b"ab",
        b"ab\nend 0 steps 11\n",
    ),
    (
        b"int main(void){ long a; long b; long c; a=getchar(); b=getchar(); c=getchar(); printf(\"%ld %ld %ld\\n\",a,b,c); return getchar(); }",
        b"\xff\x00",
        b"255 0 -1\n\nend -1 steps 8\n",
    ),
    (
        b"int main(void){ getchar(); return getchar(); }",
        b"AB",
        b"\nend 66 steps 2\n",
    ),
    (
        b"int main(void){ long c = getchar(); return c; }",
        b"Z",
        b"\nend 90 steps 2\n",
    ),
];

/// Bounds: a source, the bound, the status and the text.
pub const BOUNDED: [(&[u8], &str, u8, &[u8]); 13] = [
    (
        b"long a[4]; long t; int main(void){ long i; EXCLUDE_HERE; for(i=0;i<4;i=i+1){ t=i*i; a[i]=t; CHECKPOINT_HERE; } printf(\"%ld\\n\",a[3]); return 7; }",
        "0",
        4,
        b"\nstopped steps 0\n",
    ),
    (
        b"long a[4]; long t; int main(void){ long i; EXCLUDE_HERE; for(i=0;i<4;i=i+1){ t=i*i; a[i]=t; CHECKPOINT_HERE; } printf(\"%ld\\n\",a[3]); return 7; }",
        "13",
        4,
        b"\nstopped steps 13\n",
    ),
    (
        b"long a[4]; long t; int main(void){ long i; EXCLUDE_HERE; for(i=0;i<4;i=i+1){ t=i*i; a[i]=t; CHECKPOINT_HERE; } printf(\"%ld\\n\",a[3]); return 7; }",
        "24",
        4,
        b"\nstopped steps 24\n",
    ),
    (
        b"long a[4]; long t; int main(void){ long i; EXCLUDE_HERE; for(i=0;i<4;i=i+1){ t=i*i; a[i]=t; CHECKPOINT_HERE; } printf(\"%ld\\n\",a[3]); return 7; }",
        "25",
        4,
        b"9\n\nstopped steps 25\n",
    ),
    (
        b"long a[4]; long t; int main(void){ long i; EXCLUDE_HERE; for(i=0;i<4;i=i+1){ t=i*i; a[i]=t; CHECKPOINT_HERE; } printf(\"%ld\\n\",a[3]); return 7; }",
        "26",
        0,
        b"9\n\nend 7 steps 26\n",
    ),
    (b"int main(void){ }", "0", 0, b"\nend 0 steps 0\n"),
    (
        b"int main(void){ putchar(65); }",
        "1",
        0,
        b"A\nend 0 steps 1\n",
    ),
    (
        b"int main(void){ putchar(65); }",
        "0",
        4,
        b"\nstopped steps 0\n",
    ),
    (
        b"long a[4]; int main(void){ putchar(65); return a[4]; }",
        "2",
        3,
        b"A\ntrap 4 steps 2\n",
    ),
    (
        b"long a[4]; int main(void){ putchar(65); return a[4]; }",
        "1",
        4,
        b"A\nstopped steps 1\n",
    ),
    (
        b"long f(long n){ long r; r=f(n); return r; } int main(void){ long v; v=f(0); return v; }",
        "2002",
        3,
        b"\ntrap 6 steps 2002\n",
    ),
    (
        b"long f(long n){ long r; r=f(n); return r; } int main(void){ long v; v=f(0); return v; }",
        "2001",
        4,
        b"\nstopped steps 2001\n",
    ),
    (
        b"int main(void){ while(1) ; }",
        "1000",
        4,
        b"\nstopped steps 1000\n",
    ),
];
