//! What programs write and how they end.

/// A source, and the status and the text that are its answer.
pub type Row<'a> = (&'a [u8], u8, &'a [u8]);

/// Whole programs.
pub const WHOLE_PROGRAMS: [Row<'static>; 26] = [
    (
        b"int main(void){ putchar(72); putchar(105); return 0; }",
        0,
        b"Hi\nend 0 steps 3\n",
    ),
    (
        b"int main(void){ putchar(8*9); return 2+3*4; }",
        0,
        b"H\nend 14 steps 2\n",
    ),
    (b"", 2, b"refused: no main\n"),
    (b"int main(void){ return 0; }", 0, b"\nend 0 steps 1\n"),
    (b"int main(void){ }", 0, b"\nend 0 steps 0\n"),
    (
        b"int main(void){ ;;; putchar(65); ; }",
        0,
        b"A\nend 0 steps 1\n",
    ),
    (b"int main(){ return 5; }", 0, b"\nend 5 steps 1\n"),
    (
        b"int main(void){ putchar(65); return 3; putchar(66); return 4; }",
        0,
        b"A\nend 3 steps 2\n",
    ),
    (
        b"int\tmain\r\n(\nvoid ) {\r\treturn\n7 ;\n}\n",
        0,
        b"\nend 7 steps 1\n",
    ),
    (
        b"int main(void){ return 2*3+4*5-(6-7)*8; }",
        0,
        b"\nend 34 steps 1\n",
    ),
    (b"int main(void){ return 10-4-3; }", 0, b"\nend 3 steps 1\n"),
    (
        b"int main(void){ return 9223372036854775807+1; }",
        0,
        b"\nend -9223372036854775808 steps 1\n",
    ),
    (
        b"int main(void){ return 4294967296*4294967296+3; }",
        0,
        b"\nend 3 steps 1\n",
    ),
    (
        b"int main(void){ putchar(256+65); putchar(0-1); putchar(0); return 0; }",
        0,
        b"A\xff\x00\nend 0 steps 4\n",
    ),
    (
        b"int main(void){ return (((((((((((((((((((((((((((((((((((((((((((((((((((((((((((((((((((((((((((((((((((((((((((((((((((1))))))))))))))))))))))))))))))))))))))))))))))))))))))))))))))))))))))))))))))))))))))))))))))))))); }",
        0,
        b"\nend 1 steps 1\n",
    ),
    (
        b"int main(void){ return ((((((((((((((((((((((((((((((((((((((((((((((((((((((((((((((((((((((((((((((((((((((((((((((((((((1)))))))))))))))))))))))))))))))))))))))))))))))))))))))))))))))))))))))))))))))))))))))))))))))))))); }",
        2,
        b"refused: syntax in line 1\n",
    ),
    (
        b"int main(void){ return 1;",
        2,
        b"refused: syntax in line 1\n",
    ),
    (
        b"long x = 70; int main(void){ x = x + 2; putchar(x); return x * 2 - 1; }",
        0,
        b"H\nend 143 steps 3\n",
    ),
    (
        b"long a[4]; long t; int main(void){ long i; EXCLUDE_HERE; for(i=0;i<4;i=i+1){ t=i*i; a[i]=t; CHECKPOINT_HERE; } printf(\"%ld\\n\",a[3]); return 7; }",
        0,
        b"9\n\nend 7 steps 26\n",
    ),
    (
        b"long n[3]; long x; int main(void){ long i; n[0]=5; n[1]=6; n[2]=7; x=0; i=0; EXCLUDE_HERE; while(i<3){ x=x+n[i]; i=i+1; CHECKPOINT_HERE; } printf(\"%ld\\n\",x); return 0; }",
        0,
        b"18\n\nend 0 steps 22\n",
    ),
    (
        b"long n; long x; int main(void){ long i; n=4; for(i=0;i<2;i=i+1){ n=n+1; EXCLUDE_HERE; x=x+n; CHECKPOINT_HERE; x=x+n; CHECKPOINT_HERE; } printf(\"%ld\\n\",x); return 0; }",
        0,
        b"22\n\nend 0 steps 22\n",
    ),
    (
        b"long a[512]; long b[512]; int main(void){ a[0]=1; CHECKPOINT_HERE; b[5]=2; CHECKPOINT_HERE; CHECKPOINT_HERE; return a[0]+b[5]; }",
        0,
        b"\nend 3 steps 6\n",
    ),
    (
        b"long x; long y; long *p; int main(void){ p=&x; x=1; EXCLUDE_HERE; CHECKPOINT_HERE; *p=5; printf(\"%ld\\n\",x); return 0; }",
        0,
        b"5\n\nend 0 steps 7\n",
    ),
    (
        b"long a[4]; long s; int main(void){ long i; EXCLUDE_HERE; for(i=0;i<4;i=i+1) a[i]=i; s=a[2]; CHECKPOINT_HERE; for(i=0;i<4;i=i+1) a[i]=7; printf(\"%ld %ld\\n\",a[1],s); return 0; }",
        0,
        b"7 2\n\nend 0 steps 34\n",
    ),
    (
        b"long t; long x; long f(long v){ t=v*2; return t+1; } int main(void){ long i; EXCLUDE_HERE; for(i=0;i<2;i=i+1){ x=f(i); CHECKPOINT_HERE; } printf(\"%ld\\n\",x); return 0; }",
        0,
        b"3\n\nend 0 steps 18\n",
    ),
    (
        b"long f(long n){ long r; if(n<=1) return 1; r=f(n-1); return n*r; } int main(void){ long v; v=f(5); printf(\"%ld\\n\",v); return 0; }",
        0,
        b"120\n\nend 0 steps 23\n",
    ),
];

/// Each trap, with its step.
pub const TRAPS: [Row<'static>; 24] = [
    (
        b"long a[4]; int main(void){ putchar(65); return a[4]; }",
        3,
        b"A\ntrap 4 steps 2\n",
    ),
    (b"int main(void){ return 1/0; }", 3, b"\ntrap 1 steps 1\n"),
    (
        b"int main(void){ long m; m = -9223372036854775807 - 1; return m / -1; }",
        3,
        b"\ntrap 2 steps 3\n",
    ),
    (
        b"long f(long n){ long r; r=f(n); return r; } int main(void){ long v; v=f(0); return v; }",
        3,
        b"\ntrap 6 steps 2002\n",
    ),
    (
        b"long f(long n){ long r; if(n==0) return 0; r=f(n-1); return r; } int main(void){ long v; v=f(999); return v; }",
        0,
        b"\nend 0 steps 4002\n",
    ),
    (
        b"long f(long n){ long r; if(n==0) return 0; r=f(n-1); return r; } int main(void){ long v; v=f(1000); return v; }",
        3,
        b"\ntrap 6 steps 3002\n",
    ),
    (b"int main(void){ return 5%0; }", 3, b"\ntrap 1 steps 1\n"),
    (
        b"int main(void){ return (-9223372036854775807-1)%-1; }",
        3,
        b"\ntrap 2 steps 1\n",
    ),
    (b"int main(void){ return 1<<64; }", 3, b"\ntrap 3 steps 1\n"),
    (b"int main(void){ return 1>>-1; }", 3, b"\ntrap 3 steps 1\n"),
    (
        b"long *p; int main(void){ return *p; }",
        3,
        b"\ntrap 5 steps 1\n",
    ),
    (
        b"long *p; int main(void){ *p=1; return 0; }",
        3,
        b"\ntrap 5 steps 1\n",
    ),
    (
        b"long *p; int main(void){ p=p+0; return 0; }",
        3,
        b"\ntrap 5 steps 1\n",
    ),
    (b"int main(void){ return *0; }", 3, b"\ntrap 5 steps 1\n"),
    (
        b"long x; long *p; int main(void){ p=&x; p=p+1; p=p-1; return *p+4; }",
        0,
        b"\nend 4 steps 4\n",
    ),
    (
        b"long x; long *p; int main(void){ p=&x; p=p+1; return *p; }",
        3,
        b"\ntrap 4 steps 3\n",
    ),
    (
        b"long a[3]; int main(void){ a[3]=1; return 0; }",
        3,
        b"\ntrap 4 steps 1\n",
    ),
    (
        b"long a[3]; long *p; int main(void){ p=a+4; return 0; }",
        3,
        b"\ntrap 4 steps 1\n",
    ),
    (
        b"long a[3]; long *p; int main(void){ p=a+1; p=p-2; return 0; }",
        3,
        b"\ntrap 4 steps 2\n",
    ),
    (
        b"long b[3]; long a[3]; int main(void){ return a[-1]; }",
        3,
        b"\ntrap 4 steps 1\n",
    ),
    (
        b"long a[3]; int main(void){ return a[9223372036854775807]; }",
        3,
        b"\ntrap 4 steps 1\n",
    ),
    (
        b"long a[3]; long *p; int main(void){ p=a+1; p=p-(-9223372036854775807-1); return 0; }",
        3,
        b"\ntrap 4 steps 2\n",
    ),
    (
        b"int main(void){ putchar(65); putchar(1/0); return 0; }",
        3,
        b"A\ntrap 1 steps 2\n",
    ),
    (
        b"long f(long n){ return 1/n; } int main(void){ long v; putchar(66); v=f(0); return v; }",
        3,
        b"B\ntrap 1 steps 4\n",
    ),
];

/// What is evaluated first.
pub const ORDER: [Row<'static>; 10] = [
    (
        b"long *p; int main(void){ p=1/0+(p+1); return 0; }",
        3,
        b"\ntrap 5 steps 1\n",
    ),
    (
        b"long *p; int main(void){ p=p+1/0; return 0; }",
        3,
        b"\ntrap 1 steps 1\n",
    ),
    (
        b"long a[4]; int main(void){ a[5]=1/0; return 0; }",
        3,
        b"\ntrap 4 steps 1\n",
    ),
    (
        b"long a[4]; int main(void){ a[4]=1/0; return 0; }",
        3,
        b"\ntrap 1 steps 1\n",
    ),
    (
        b"int main(void){ return 1/0+(1<<64); }",
        3,
        b"\ntrap 1 steps 1\n",
    ),
    (
        b"int main(void){ return (1<<64)+1/0; }",
        3,
        b"\ntrap 3 steps 1\n",
    ),
    (
        b"int main(void){ printf(\"ab%ld%ld\",1,1/0); return 0; }",
        3,
        b"\ntrap 1 steps 1\n",
    ),
    (
        b"long f(long n){ putchar(65); return n; } int main(void){ f(1/0); return 0; }",
        3,
        b"\ntrap 1 steps 1\n",
    ),
    (
        b"int main(void){ printf(\"%ld %ld %ld %ld\\n\",0&&1/0,1||1/0,2&&3,0||4); return 0; }",
        0,
        b"0 1 1 1\n\nend 0 steps 2\n",
    ),
    (
        b"int main(void){ return 1&&1/0; }",
        3,
        b"\ntrap 1 steps 1\n",
    ),
];

/// Numbers and operators.
pub const NUMBERS: [Row<'static>; 15] = [
    (
        b"int main(void){ printf(\"%ld %ld %ld %ld\\n\",-7/2,-7%2,7/-2,7%-2); return 0; }",
        0,
        b"-3 -1 -3 1\n\nend 0 steps 2\n",
    ),
    (
        b"int main(void){ printf(\"%ld %ld %ld\\n\",1<<63,-8>>1,3<<63); return 0; }",
        0,
        b"-9223372036854775808 -4 -9223372036854775808\n\nend 0 steps 2\n",
    ),
    (
        b"int main(void){ return 6&3|8^1; }",
        0,
        b"\nend 11 steps 1\n",
    ),
    (b"int main(void){ return 3>2==1; }", 0, b"\nend 1 steps 1\n"),
    (b"int main(void){ return 4&4==4; }", 0, b"\nend 0 steps 1\n"),
    (
        b"int main(void){ return 1<<2+3; }",
        0,
        b"\nend 32 steps 1\n",
    ),
    (
        b"int main(void){ return 1||0&&0; }",
        0,
        b"\nend 1 steps 1\n",
    ),
    (
        b"int main(void){ printf(\"%ld %ld %ld %ld\\n\",100/10/5,64>>2>>1,7%4%2,5-4-3); return 0; }",
        0,
        b"2 8 1 -2\n\nend 0 steps 2\n",
    ),
    (
        b"int main(void){ printf(\"%ld %ld %ld %ld %ld\\n\",!0,!7,~0,- -5,-!~-1); return 0; }",
        0,
        b"1 0 -1 5 -1\n\nend 0 steps 2\n",
    ),
    (
        b"int main(void){ printf(\"%ld%ld%ld%ld%ld%ld\\n\",-1<1,1<=1,-1>1,1>=2,1==1,1!=1); return 0; }",
        0,
        b"110010\n\nend 0 steps 2\n",
    ),
    (
        b"int main(void){ long m; m=-9223372036854775807-1; return -m; }",
        0,
        b"\nend -9223372036854775808 steps 3\n",
    ),
    (
        b"int main(void){ return -9223372036854775807-2; }",
        0,
        b"\nend 9223372036854775807 steps 1\n",
    ),
    (
        b"int main(void){ printf(\"%ld %ld %ld %ld %ld %ld %ld\\n\",5L,'A','\\n','\\t','\\\\','\\'','\\0'); return ' '; }",
        0,
        b"5 65 10 9 92 39 0\n\nend 32 steps 2\n",
    ),
    (
        b"#define N 4\n#define M -3\nlong x = N; long y = M; long z = -N; long w = -7; int main(void){ printf(\"%ld %ld %ld %ld\\n\",x,y,z,w); return N*M; }",
        0,
        b"4 -3 -4 -7\n\nend -12 steps 2\n",
    ),
    (
        b"#define N 4\nint main(void){ long N; N=5; return N; }",
        0,
        b"\nend 5 steps 3\n",
    ),
];
