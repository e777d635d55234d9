//! What `check` answers.

use crate::plain_rows::Row;

/// Accepted programs.
pub const ACCEPTED: [Row<'static>; 24] = [
    (
        b"int main(void){ return 0; }",
        0,
        b"accepted cells 0 nodes 1 excludes 0\n",
    ),
    (
        b"long a[4]; long t; int main(void){ long i; EXCLUDE_HERE; for(i=0;i<4;i=i+1){ t=i*i; a[i]=t; CHECKPOINT_HERE; } printf(\"%ld\\n\",a[3]); return 7; }",
        0,
        b"accepted cells 6 nodes 10 excludes 1\n",
    ),
    (
        b"long n[3]; long x; int main(void){ long i; n[0]=5; n[1]=6; n[2]=7; x=0; i=0; EXCLUDE_HERE; while(i<3){ x=x+n[i]; i=i+1; CHECKPOINT_HERE; } printf(\"%ld\\n\",x); return 0; }",
        0,
        b"accepted cells 5 nodes 13 excludes 1\n",
    ),
    (
        b"long n; long x; int main(void){ long i; n=4; for(i=0;i<2;i=i+1){ n=n+1; EXCLUDE_HERE; x=x+n; CHECKPOINT_HERE; x=x+n; CHECKPOINT_HERE; } printf(\"%ld\\n\",x); return 0; }",
        0,
        b"accepted cells 3 nodes 13 excludes 1\n",
    ),
    (
        b"long a[512]; long b[512]; int main(void){ a[0]=1; CHECKPOINT_HERE; b[5]=2; CHECKPOINT_HERE; CHECKPOINT_HERE; return a[0]+b[5]; }",
        0,
        b"accepted cells 1024 nodes 6 excludes 0\n",
    ),
    (
        b"long x; long y; long *p; int main(void){ long c; c=getchar(); if(c==65) p=&x; else p=&y; x=1; EXCLUDE_HERE; CHECKPOINT_HERE; *p=5; printf(\"%ld\\n\",x); return 0; }",
        0,
        b"accepted cells 4 nodes 11 excludes 1\n",
    ),
    (
        b"long x; long y; long *p; int main(void){ p=&x; x=1; EXCLUDE_HERE; CHECKPOINT_HERE; *p=5; printf(\"%ld\\n\",x); return 0; }",
        0,
        b"accepted cells 3 nodes 7 excludes 1\n",
    ),
    (
        b"long a[4]; long s; int main(void){ long i; EXCLUDE_HERE; for(i=0;i<4;i=i+1) a[i]=i; s=a[2]; CHECKPOINT_HERE; for(i=0;i<4;i=i+1) a[i]=7; printf(\"%ld %ld\\n\",a[1],s); return 0; }",
        0,
        b"accepted cells 6 nodes 14 excludes 1\n",
    ),
    (
        b"long t; long x; long f(long v){ t=v*2; return t+1; } int main(void){ long i; EXCLUDE_HERE; for(i=0;i<2;i=i+1){ x=f(i); CHECKPOINT_HERE; } printf(\"%ld\\n\",x); return 0; }",
        0,
        b"accepted cells 3 nodes 9 excludes 1\n",
    ),
    (
        b"long a[262144]; int main(void){ return 0; }",
        0,
        b"accepted cells 262144 nodes 1 excludes 0\n",
    ),
    (
        b"int main(void){ return 9223372036854775807; }",
        0,
        b"accepted cells 0 nodes 1 excludes 0\n",
    ),
    (
        b"int main(void){ return 5L; }",
        0,
        b"accepted cells 0 nodes 1 excludes 0\n",
    ),
    (
        b"/* \xc3\xa4 @ \x00 */ int main(void){ return 0; } // \xc3\xbf ` $",
        0,
        b"accepted cells 0 nodes 1 excludes 0\n",
    ),
    (
        b"#include <stdio.h>\n#include \"any thing @\nint main(void){ return 0; }",
        0,
        b"accepted cells 0 nodes 1 excludes 0\n",
    ),
    (
        b"#define N 4\nlong a[N]; int main(void){ return N; }",
        0,
        b"accepted cells 4 nodes 1 excludes 0\n",
    ),
    (
        b"int main(void){ return 0;\n#define N 4\n}",
        0,
        b"accepted cells 0 nodes 1 excludes 0\n",
    ),
    (
        b"#defineN 4\nint main(void){ return 0; }",
        2,
        b"refused: bad byte at 0\n",
    ),
    (
        b"long f(long, long *p); long *g(void); long h(); int main(void){ return 0; }",
        0,
        b"accepted cells 0 nodes 1 excludes 0\n",
    ),
    (
        b"long x = 3, a[2], *p; long f(long n, long *q){ return n; } int main(void){ long i = 1, *q = 0; x = f(1, p); f(x, 0); x = getchar(); getchar(); if(x) ; else if(i) { } else ; while(0) ; do ; while(0); for(;;) break; for(long k=0;k<2;k=k+1) continue; *p = 1; a[1] = 2; putchar(1); printf(\"%ld%%\\n\", x); EXCLUDE_HERE; CHECKPOINT_HERE; return f(1, &a[1]); }",
        0,
        b"accepted cells 7 nodes 21 excludes 1\n",
    ),
    (
        b"int main(void){ long i; { long i; { long i; i=1; } } return 0; }",
        0,
        b"accepted cells 3 nodes 5 excludes 0\n",
    ),
    (
        b"long x; long f(void){ return 0; } int main(void){ long x; long f; x=1; f=2; return 0; }",
        0,
        b"accepted cells 3 nodes 5 excludes 0\n",
    ),
    (
        b"int main(void){ long v; v=f(2); return v; } long f(long n){ return n; }",
        0,
        b"accepted cells 1 nodes 3 excludes 0\n",
    ),
    (
        b"long *p; long *f(long *q){ return 0; } int main(void){ p=0; p=NULL; p=((0)); p=f(NULL); p=f((0)); return p==0; }",
        0,
        b"accepted cells 1 nodes 6 excludes 0\n",
    ),
    (
        b"long a[4]; long x; long *p; int main(void){ p=a; p=1+p; p=p-1; p=&x; p=&a[2]; return (p==a)+(p!=NULL)+(0==p)+a[1]+p[0]+*(p+1); }",
        0,
        b"accepted cells 6 nodes 6 excludes 0\n",
    ),
];

/// Faults of the scan.
pub const SCAN: [Row<'static>; 20] = [
    (
        b"int main(void){ return 9223372036854775808; }",
        2,
        b"refused: bad number at 23\n",
    ),
    (
        b"int main(void){ return 5LL; }",
        2,
        b"refused: bad number at 23\n",
    ),
    (
        b"int main(void){ return 08; }",
        2,
        b"refused: bad number at 23\n",
    ),
    (
        b"int main(void){ return 0x1F; }",
        2,
        b"refused: bad number at 23\n",
    ),
    (
        b"int main(void){ long p; p = 1 @ 2; return 0; }",
        2,
        b"refused: bad byte at 30\n",
    ),
    (b"/* x", 2, b"refused: unended comment\n"),
    (
        b"int main(void){ return 1 @ 08; }",
        2,
        b"refused: bad byte at 25\n",
    ),
    (b"} ) 08", 2, b"refused: bad number at 4\n"),
    (
        b"int main(void){ return 'ab'; }",
        2,
        b"refused: bad byte at 25\n",
    ),
    (
        b"int main(void){ return ''; }",
        2,
        b"refused: bad byte at 24\n",
    ),
    (
        b"int main(void){ return '\\x'; }",
        2,
        b"refused: bad byte at 25\n",
    ),
    (
        b"int main(void){ return 'a",
        2,
        b"refused: bad byte at 25\n",
    ),
    (
        b"int main(void){ printf(\"%d\",1); }",
        2,
        b"refused: bad byte at 25\n",
    ),
    (
        b"int main(void){ printf(\"ab\n\"); }",
        2,
        b"refused: bad byte at 26\n",
    ),
    (
        b"int main(void){ printf(\"ab",
        2,
        b"refused: bad byte at 26\n",
    ),
    (
        b"#pragma once\nint main(void){ return 0; }",
        2,
        b"refused: bad byte at 0\n",
    ),
    (
        b"#define N\nint main(void){ return 0; }",
        2,
        b"refused: bad byte at 0\n",
    ),
    (
        b"#define for 4\nint main(void){ return 0; }",
        2,
        b"refused: bad byte at 0\n",
    ),
    (
        b"#includes\nint main(void){ return 0; }",
        2,
        b"refused: bad byte at 0\n",
    ),
    (
        b"int main(void){ return 0; # define N 4 }",
        2,
        b"refused: bad byte at 26\n",
    ),
];

/// Texts that spell no program.
pub const SYNTAX: [Row<'static>; 14] = [
    (
        b"int main(void){\nreturn 1\n}",
        2,
        b"refused: syntax in line 3\n",
    ),
    (
        b"int main(void){ long float; return 0; }",
        2,
        b"refused: syntax in line 1\n",
    ),
    (
        b"int main(void){ long i; i++; return 0; }",
        2,
        b"refused: syntax in line 1\n",
    ),
    (
        b"int main(void){ long i; long j; i=(j=1); return 0; }",
        2,
        b"refused: syntax in line 1\n",
    ),
    (
        b"long f(long n){ return n; } int main(void){ return 1+f(2); }",
        2,
        b"refused: syntax in line 1\n",
    ),
    (
        b"int main(void){ break; }",
        2,
        b"refused: syntax in line 1\n",
    ),
    (
        b"int main(void){ if(1) continue; }",
        2,
        b"refused: syntax in line 1\n",
    ),
    (
        b"int main(void){ if(1) long i; }",
        2,
        b"refused: syntax in line 1\n",
    ),
    (
        b"int main(void){ else return 0; }",
        2,
        b"refused: syntax in line 1\n",
    ),
    (
        b"int main(void){ long a[4]; return 0; }",
        2,
        b"refused: syntax in line 1\n",
    ),
    (
        b"int main(void){ return \"ab\"; }",
        2,
        b"refused: syntax in line 1\n",
    ),
    (
        b"int main(void){ if 1 return 0; }",
        2,
        b"refused: syntax in line 1\n",
    ),
    (
        b"int main(void){ return +1; }",
        2,
        b"refused: syntax in line 1\n",
    ),
    (
        b"long f(void){ } int main(void){ f( ; return 0; }",
        2,
        b"refused: syntax in line 1\n",
    ),
];
