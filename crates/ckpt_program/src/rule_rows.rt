//! What `check` answers where a rule of names, types or directives is broken.

use crate::plain_rows::Row;

/// Faults of names.
pub const NAMES: [Row<'static>; 17] = [
    (
        b"int main(void){ return y; }",
        2,
        b"refused: unknown name y\n",
    ),
    (
        b"long a; long a; int main(void){ return 0; }",
        2,
        b"refused: name a twice\n",
    ),
    (
        b"long f; long f(void){ return 0; } int main(void){ return 0; }",
        2,
        b"refused: name f twice\n",
    ),
    (
        b"#define N 4\nlong N; int main(void){ return 0; }",
        2,
        b"refused: name N twice\n",
    ),
    (
        b"int main(void){ return 0; } int main(void){ return 1; }",
        2,
        b"refused: name main twice\n",
    ),
    (
        b"long f(long a){ long a; return 0; } int main(void){ return 0; }",
        2,
        b"refused: name a twice\n",
    ),
    (
        b"int main(void){ { long i; } i=1; return 0; }",
        2,
        b"refused: unknown name i\n",
    ),
    (
        b"int main(void){ long x = x; return 0; }",
        2,
        b"refused: unknown name x\n",
    ),
    (
        b"long a[N];\n#define N 4\nint main(void){ return 0; }",
        2,
        b"refused: unknown name N\n",
    ),
    (
        b"#define N 4\n#define N 4\nint main(void){ return 0; }",
        2,
        b"refused: name N twice\n",
    ),
    (
        b"long f(long n); int main(void){ long v; v=f(2); return v; }",
        2,
        b"refused: unknown name f\n",
    ),
    (
        b"long x; int main(void){ x(); return 0; }",
        2,
        b"refused: unknown name x\n",
    ),
    (
        b"long x; long a[x]; int main(void){ return 0; }",
        2,
        b"refused: unknown name x\n",
    ),
    (b"long y = x;", 2, b"refused: unknown name x\n"),
    (b"long x;", 2, b"refused: no main\n"),
    (
        b"int main(void){ x=1; long i; long i; return 0; }",
        2,
        b"refused: unknown name x\n",
    ),
    (
        b"long *p;\nint main(void){ p=5; return y; }",
        2,
        b"refused: unknown name y\n",
    ),
];

/// Faults of types and of counts.
pub const TYPES: [Row<'static>; 17] = [
    (
        b"long *p;\nint main(void){\np=5;\nreturn 0; }",
        2,
        b"refused: wrong type in line 3\n",
    ),
    (
        b"long a[2]; int main(void){ a=0; return 0; }",
        2,
        b"refused: wrong type in line 1\n",
    ),
    (
        b"#define N 4\nint main(void){ N=5; return 0; }",
        2,
        b"refused: wrong type in line 2\n",
    ),
    (
        b"long a[0]; int main(void){ return 0; }",
        2,
        b"refused: wrong type in line 1\n",
    ),
    (
        b"int main(void){ long x; long *p; p=&x; return 0; }",
        2,
        b"refused: wrong type in line 1\n",
    ),
    (
        b"long x; int main(void){ return x[0]; }",
        2,
        b"refused: wrong type in line 1\n",
    ),
    (
        b"long *p; int main(void){ p=p+p; return 0; }",
        2,
        b"refused: wrong type in line 1\n",
    ),
    (
        b"long *p; int main(void){ return p<p; }",
        2,
        b"refused: wrong type in line 1\n",
    ),
    (
        b"long *p; int main(void){ if(p) return 1; return 0; }",
        2,
        b"refused: wrong type in line 1\n",
    ),
    (
        b"long *p; int main(void){ return p; }",
        2,
        b"refused: wrong type in line 1\n",
    ),
    (
        b"long *p; int main(void){ p=NULL+1; return 0; }",
        2,
        b"refused: wrong type in line 1\n",
    ),
    (
        b"long f(long n){ return n; } int main(void){ f(); return 0; }",
        2,
        b"refused: wrong count in line 1\n",
    ),
    (
        b"int main(void){ printf(\"%%ld\",1); return 0; }",
        2,
        b"refused: wrong count in line 1\n",
    ),
    (
        b"long *p; long f(long n){ return n; } int main(void){ f(p,p); return 0; }",
        2,
        b"refused: wrong count in line 1\n",
    ),
    (
        b"long *p; long f(long n){ return n; }\nint main(void){\np=5;\nf();\nreturn 0; }",
        2,
        b"refused: wrong type in line 3\n",
    ),
    (
        b"long *p;\nint main(void){\nif(1)\n{\np=\n5;\n}\nreturn 0; }",
        2,
        b"refused: wrong type in line 5\n",
    ),
    (
        b"long *p;\nint main(void){\n;\nwhile\n(p) ;\nreturn 0; }",
        2,
        b"refused: wrong type in line 4\n",
    ),
];

/// Faults of directives, and limits.
pub const DIRECTIVES: [Row<'static>; 8] = [
    (
        b"long f(long n){ CHECKPOINT_HERE; return n; } int main(void){ return 0; }",
        2,
        b"refused: directive outside main in line 1\n",
    ),
    (
        b"long f(long n){\nif(n)\nEXCLUDE_HERE;\nreturn n; } int main(void){ return 0; }",
        2,
        b"refused: directive outside main in line 3\n",
    ),
    (
        b"\nint main(void){ return main(); }",
        2,
        b"refused: call of main in line 2\n",
    ),
    (
        b"long f(void){ CHECKPOINT_HERE; return 0; }\nlong *p;\nint main(void){ p=5; return 0; }",
        2,
        b"refused: wrong type in line 3\n",
    ),
    (
        b"long f(void){ CHECKPOINT_HERE; return 0; } long a[9999999]; int main(void){ return 0; }",
        2,
        b"refused: directive outside main in line 1\n",
    ),
    (
        b"long a[262145]; int main(void){ return 0; }",
        2,
        b"refused: 262145 cells\n",
    ),
    (
        b"long a[262144]; int main(void){ long i; return 0; }",
        2,
        b"refused: 262145 cells\n",
    ),
    (
        b"long a[9223372036854775807]; long b[9223372036854775807]; long c[9223372036854775807]; int main(void){ return 0; }",
        2,
        b"refused: 27670116110564327421 cells\n",
    ),
];
