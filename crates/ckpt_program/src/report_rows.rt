//! What `report` and `compile` print.

use crate::plain_rows::Row;

/// Reports of the excluded sets.
pub const REPORTS: [Row<'static>; 25] = [
    (
        b"long a[4]; long t; int main(void){ long i; EXCLUDE_HERE; for(i=0;i<4;i=i+1){ t=i*i; a[i]=t; CHECKPOINT_HERE; } printf(\"%ld\\n\",a[3]); return 7; }",
        0,
        b"exclude 1\ndead a[0..2] t\nread-only\n",
    ),
    (
        b"long n[3]; long x; int main(void){ long i; n[0]=5; n[1]=6; n[2]=7; x=0; i=0; EXCLUDE_HERE; while(i<3){ x=x+n[i]; i=i+1; CHECKPOINT_HERE; } printf(\"%ld\\n\",x); return 0; }",
        0,
        b"exclude 1\ndead\nread-only n[0..2]\n",
    ),
    (
        b"long n; long x; int main(void){ long i; n=4; for(i=0;i<2;i=i+1){ n=n+1; EXCLUDE_HERE; x=x+n; CHECKPOINT_HERE; x=x+n; CHECKPOINT_HERE; } printf(\"%ld\\n\",x); return 0; }",
        0,
        b"exclude 1\ndead\nread-only n main.i\n",
    ),
    (
        b"long x; long y; long *p; int main(void){ long c; c=getchar(); if(c==65) p=&x; else p=&y; x=1; EXCLUDE_HERE; CHECKPOINT_HERE; *p=5; printf(\"%ld\\n\",x); return 0; }",
        0,
        b"exclude 1\ndead y main.c\nread-only x p\n",
    ),
    (
        b"long x; long y; long *p; int main(void){ p=&x; x=1; EXCLUDE_HERE; CHECKPOINT_HERE; *p=5; printf(\"%ld\\n\",x); return 0; }",
        0,
        b"exclude 1\ndead x y\nread-only p\n",
    ),
    (
        b"#include <stdio.h>\n#define N 256\n#define TURNS 50\nlong old[65536];\nlong new[65536];\nint main(void) {\n  long i, j, t;\n  for (i = 0; i < N; i = i + 1) old[i] = 1000000;\n  EXCLUDE_HERE;\n  for (t = 0; t < TURNS; t = t + 1) {\n    for (i = 1; i < N - 1; i = i + 1)\n      for (j = 1; j < N - 1; j = j + 1)\n        new[i * N + j] = (old[(i - 1) * N + j] + old[(i + 1) * N + j]\n          + old[i * N + j - 1] + old[i * N + j + 1]) / 4;\n    for (i = 1; i < N - 1; i = i + 1)\n      for (j = 1; j < N - 1; j = j + 1)\n        old[i * N + j] = new[i * N + j];\n    CHECKPOINT_HERE;\n  }\n  printf(\"%ld %ld\\n\", old[1], old[32896]);\n  return 0;\n}",
        0,
        b"exclude 1\ndead main.i main.j\nread-only\n",
    ),
    (
        b"long a[512]; long b[512]; int main(void){ a[0]=1; CHECKPOINT_HERE; b[5]=2; CHECKPOINT_HERE; CHECKPOINT_HERE; return a[0]+b[5]; }",
        0,
        b"",
    ),
    (
        b"long a[3]; long x; int main(void){ long i; EXCLUDE_HERE; i=1; return a[1]+x+i; }",
        0,
        b"exclude 1\ndead a[0..2] x main.i\nread-only\n",
    ),
    (
        b"long x; long y; int main(void){ x=1; y=2; EXCLUDE_HERE; CHECKPOINT_HERE; x=x+1; EXCLUDE_HERE; x=x+y; CHECKPOINT_HERE; return x; }",
        0,
        b"exclude 1\ndead\nread-only x y\nexclude 2\ndead y\nread-only\n",
    ),
    (
        b"int main(void){ { long i; i=1; } { long i; i=2; } { long i; i=3; } EXCLUDE_HERE; CHECKPOINT_HERE; return 0; }",
        0,
        b"exclude 1\ndead main.i main.i#2 main.i#3\nread-only\n",
    ),
    (
        b"long a[1]; int main(void){ EXCLUDE_HERE; return 0; }",
        0,
        b"exclude 1\ndead a[0]\nread-only\n",
    ),
    (
        b"long a[2]; long b[2]; int main(void){ EXCLUDE_HERE; return 0; }",
        0,
        b"exclude 1\ndead a[0..1] b[0..1]\nread-only\n",
    ),
    (
        b"int main(void){ EXCLUDE_HERE; CHECKPOINT_HERE; return 0; }",
        0,
        b"exclude 1\ndead\nread-only\n",
    ),
    (
        b"long a[3]; int main(void){ EXCLUDE_HERE; CHECKPOINT_HERE; return a[1]; }",
        0,
        b"exclude 1\ndead a[0] a[2]\nread-only a[1]\n",
    ),
    (
        b"long a[3]; int main(void){ EXCLUDE_HERE; CHECKPOINT_HERE; return a[0+1]; }",
        0,
        b"exclude 1\ndead\nread-only a[0..2]\n",
    ),
    (
        b"long a[3]; int main(void){ EXCLUDE_HERE; CHECKPOINT_HERE; return a[3]; }",
        0,
        b"exclude 1\ndead a[0..2]\nread-only\n",
    ),
    (
        b"long a[3]; int main(void){ EXCLUDE_HERE; CHECKPOINT_HERE; return *a; }",
        0,
        b"exclude 1\ndead a[1..2]\nread-only a[0]\n",
    ),
    (
        b"long x; long y; int main(void){ EXCLUDE_HERE; CHECKPOINT_HERE; x=x+1; y=2; return x+y; }",
        0,
        b"exclude 1\ndead y\nread-only x\n",
    ),
    (
        b"int main(void){ long i; for(;;){ EXCLUDE_HERE; CHECKPOINT_HERE; long k; i=k; if(i) break; } return i; }",
        0,
        b"exclude 1\ndead main.i main.k\nread-only\n",
    ),
    (
        b"long x; long y; int main(void){ EXCLUDE_HERE; CHECKPOINT_HERE; return 0&&x||1||y; }",
        0,
        b"exclude 1\ndead\nread-only x y\n",
    ),
    (
        b"long t; long f(long v){ if(v) t=1; return t; } int main(void){ long v; EXCLUDE_HERE; v=f(1); CHECKPOINT_HERE; v=f(1); return v; }",
        0,
        b"exclude 1\ndead main.v\nread-only\n",
    ),
    (
        b"long t; long f(long v){ t=1; if(v) f(v-1); return t; } int main(void){ long v; EXCLUDE_HERE; v=f(1); CHECKPOINT_HERE; v=f(1); return v; }",
        0,
        b"exclude 1\ndead main.v\nread-only\n",
    ),
    (
        b"long a[3]; int main(void){ long i; EXCLUDE_HERE; a[0]=1; CHECKPOINT_HERE; for(i=0;i<3;i=i+1) a[i]=a[0]; return a[1]; }",
        0,
        b"exclude 1\ndead a[2] main.i\nread-only a[1]\n",
    ),
    (
        b"long a[2]; long b[2]; long c[2]; long f(long *p){ return p[0]; } int main(void){ long v; EXCLUDE_HERE; CHECKPOINT_HERE; v=f(a); v=f(b+1); return v; }",
        0,
        b"exclude 1\ndead c[0..1] main.v\nread-only a[0..1] b[0..1]\n",
    ),
    (
        b"long a[2]; long b[2]; long *f(void){ return b; } int main(void){ long *p; EXCLUDE_HERE; CHECKPOINT_HERE; p=f(); return *p; }",
        0,
        b"exclude 1\ndead a[0..1] main.p\nread-only b[0..1]\n",
    ),
];

/// Listings of the code.
pub const LISTINGS: [Row<'static>; 1] = [(
    b"int main(void){ return 7; }",
    0,
    b"0 TICK\n1 NUM 7\n2 RET\n3 NUM 0\n4 RET\n",
)];
