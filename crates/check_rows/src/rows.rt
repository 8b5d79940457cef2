//! Small programs, each with its first fault or "ok", worked out by hand from the rules of types.
//!
//! A fault is told by its kind, the number of its unit and its byte there. Behind most rows stands a
//! neighbour without the fault.

/// A unit, and what is said of it where it needn't be whole.
pub type Row = (&'static [u8], &'static str);

/// The units of a whole program, and what is said of them.
pub type Program = (&'static [&'static [u8]], &'static str);

/// A unit, and the number of its nodes, which tells where a conversion is.
pub type Counted = (&'static [u8], u64);

/// A name or a tag that is declared again, or not before its use.
pub static NAMES: [Row; 57] = [
    (b"int x;int x;", "Redeclared in 0 at 10"),
    (b"extern int x;int x;", "ok"),
    (
        b"int f(void){return 0;}int f(void){return 0;}",
        "Redeclared in 0 at 26",
    ),
    (b"int f(void);int f(void){return 0;}", "ok"),
    (
        b"int f(void);int f(int a){return a;}",
        "Redeclared in 0 at 16",
    ),
    (b"int f(int b);int f(int a){return a;}", "ok"),
    (b"extern int x;extern long long x;", "Redeclared in 0 at 30"),
    (b"extern int x;extern int x;", "ok"),
    (
        b"struct S{int a;};struct S{int a;};",
        "Redeclared in 0 at 24",
    ),
    (b"struct S{int a;};struct T{int a;};", "ok"),
    (b"struct S{int a;int a;};", "Redeclared in 0 at 19"),
    (b"struct S{int a;int b;};", "ok"),
    (
        b"typedef int (*F)(void);int f(void){int F;return 0;}",
        "Redeclared in 0 at 39",
    ),
    (b"int F(void);int f(void){int F;return 0;}", "ok"),
    (
        b"typedef int (*F)(void);typedef int (*F)(void);",
        "Redeclared in 0 at 37",
    ),
    (b"typedef int (*F)(void);typedef int (*G)(void);", "ok"),
    (
        b"typedef int (*F)(void);int F(void);",
        "Redeclared in 0 at 27",
    ),
    (b"int put_byte;", "Redeclared in 0 at 4"),
    (b"int trap;", "ok"),
    (b"void f(int exit){}", "Redeclared in 0 at 11"),
    (b"void f(int exits){}", "ok"),
    (b"int __imp_exit;", "Redeclared in 0 at 4"),
    (b"void f(void){int __imp_exit;}", "ok"),
    (
        b"int __os_arm64x_dispatch_ret(void);",
        "Redeclared in 0 at 4",
    ),
    (b"typedef int (*__os_arm64x_dispatch_ret)(void);", "ok"),
    (b"int f(int a){int a;return 0;}", "Redeclared in 0 at 17"),
    (b"int f(int a){{int a;}return 0;}", "ok"),
    (b"int f(int a,int a){return 0;}", "Redeclared in 0 at 16"),
    (b"int f(int a,int b){return 0;}", "ok"),
    (
        b"int f(int x);__adjustor a=f,1,1;int a(int x);",
        "Redeclared in 0 at 36",
    ),
    (b"int f(int x);__adjustor a=f,1,1;int b(int x);", "ok"),
    (
        b"int f(int x);__adjustor __imp_trap=f,1,1;",
        "Redeclared in 0 at 24",
    ),
    (b"int f(int x);__adjustor trap=f,1,1;", "ok"),
    (
        b"int f(void){int i;for(int i=0;i<1;i++){int i;}return i;}",
        "ok",
    ),
    (b"int f(void){return y;}", "Unknown in 0 at 19"),
    (b"int y;int f(void){return y;}", "ok"),
    (
        b"int f(void){return g();}int g(void){return 0;}",
        "Unknown in 0 at 19",
    ),
    (
        b"int g(void);int f(void){return g();}int g(void){return 0;}",
        "ok",
    ),
    (b"struct T *p;", "Unknown in 0 at 10"),
    (b"struct T{int a;};struct T *p;", "ok"),
    (b"int f(void){{int a;}return a;}", "Unknown in 0 at 27"),
    (b"int f(void){int a;{}return a;}", "ok"),
    (b"F p;", "Unknown in 0 at 2"),
    (b"typedef int (*F)(void);F p;", "ok"),
    (
        b"int f(void){return sizeof(struct T);}",
        "Unknown in 0 at 19",
    ),
    (
        b"struct T{int a;};int f(void){return sizeof(struct T);}",
        "ok",
    ),
    (b"int *p=&y;int y;", "Unknown in 0 at 7"),
    (b"int y;int *p=&y;", "ok"),
    (
        b"__adjustor a=f,1,1;int f(int x){return x;}",
        "Unknown in 0 at 11",
    ),
    (
        b"int f(int x);__adjustor a=f,1,1;int f(int x){return x;}",
        "ok",
    ),
    (b"int f(int a);int g(void){return a;}", "Unknown in 0 at 32"),
    (b"int f(int a);int g(int a){return a;}", "ok"),
    (b"int f(void){int x=x;return x;}", "ok"),
    (b"int f(int exit);", "Redeclared in 0 at 10"),
    (b"int f(int exits);", "ok"),
    (b"typedef int (*F)(int put_byte);", "Redeclared in 0 at 21"),
    (b"struct exit{int exit;};", "ok"),
];

/// A type that isn't there, or not yet.
pub static TYPES: [Row; 24] = [
    (b"struct T{int v;struct T n;};", "Incomplete in 0 at 24"),
    (b"struct T{int v;struct T *n;};", "ok"),
    (b"struct T{struct T n[2];};", "Incomplete in 0 at 18"),
    (b"struct T{struct T *n[2];};", "ok"),
    (b"void x;", "BadType in 0 at 5"),
    (b"void x(void);", "ok"),
    (b"void *p;", "BadType in 0 at 6"),
    (b"int *p;", "ok"),
    (b"int f(void a){return 0;}", "BadType in 0 at 11"),
    (b"int f(void){return 0;}", "ok"),
    (b"int f(int,void);", "BadType in 0 at 10"),
    (b"int f(int,int);", "ok"),
    (b"int a[0];", "BadType in 0 at 4"),
    (b"int a[1];", "ok"),
    (b"int f(void){int a[1][0];return 0;}", "BadType in 0 at 16"),
    (b"int f(void){int a[1][1];return 0;}", "ok"),
    (b"char a[33554433];", "BadType in 0 at 5"),
    (b"char a[33554432];", "ok"),
    (b"int m[2049][4096];", "BadType in 0 at 4"),
    (b"int m[2048][4096];", "ok"),
    (b"struct S{char a[33554432];char b;};", "BadType in 0 at 7"),
    (b"struct S{char a[33554431];char b;};", "ok"),
    (b"int f(void){return sizeof(void);}", "BadType in 0 at 19"),
    (b"int f(void){return sizeof(char);}", "ok"),
];

/// What has no value or is no place.
pub static PLACES: [Row; 30] = [
    (b"int a[2];int f(void){return a;}", "NotValue in 0 at 28"),
    (b"int a[2];int f(void){return a[0];}", "ok"),
    (
        b"int m[2][2];int f(void){return m[0];}",
        "NotValue in 0 at 32",
    ),
    (b"int m[2][2];int f(void){return m[0][0];}", "ok"),
    (
        b"void g(void){}int f(void){return g();}",
        "NotValue in 0 at 34",
    ),
    (b"int g(void){}int f(void){return g();}", "ok"),
    (b"int f(void){return get_byte;}", "NotValue in 0 at 19"),
    (b"int f(void){return get_byte();}", "ok"),
    (
        b"typedef int (*F)(void);int f(void){return F?1:2;}",
        "NotValue in 0 at 42",
    ),
    (b"int F(void);int f(void){return F?1:2;}", "ok"),
    (
        b"int f(int n,...){va_list p;return p;}",
        "NotValue in 0 at 34",
    ),
    (b"int f(int n,...){int p;return p;}", "ok"),
    (b"void f(void){1=2;}", "NotPlace in 0 at 14"),
    (b"int x;void f(void){x=2;}", "ok"),
    (b"int f(int x){f(x)++;return 0;}", "NotPlace in 0 at 17"),
    (b"int f(int x){x++;return 0;}", "ok"),
    (b"int *f(void){return &5;}", "NotPlace in 0 at 20"),
    (b"int x;int *f(void){return &x;}", "ok"),
    (b"int a[2];void f(void){a=0;}", "NotPlace in 0 at 23"),
    (b"int a[2];void f(void){a[0]=0;}", "ok"),
    (
        b"int a[2];int f(void){return &a==0;}",
        "NotPlace in 0 at 28",
    ),
    (b"int a[2];int f(void){return &a[0]==0;}", "ok"),
    (b"int g(void);void f(void){g=0;}", "NotPlace in 0 at 26"),
    (
        b"typedef int (*F)(void);int g(void);F f(void){return &g;}",
        "ok",
    ),
    (b"void f(void){int x;int *p=&x;}", "NoAddress in 0 at 26"),
    (b"int x;void f(void){int *p=&x;}", "ok"),
    (
        b"struct S{int a;};int *f(struct S s){return &s.a;}",
        "NoAddress in 0 at 43",
    ),
    (b"struct S{int a;};int *f(struct S *s){return &s->a;}", "ok"),
    (
        b"int *f(void){int a[2];return &a[1];}",
        "NoAddress in 0 at 29",
    ),
    (b"int *f(void){int *a[2];return &*a[1];}", "ok"),
];

/// Operands and conditions.
pub static OPERANDS: [Row; 59] = [
    (b"int f(int x){return *x;}", "NotPointer in 0 at 20"),
    (b"int f(int *x){return *x;}", "ok"),
    (
        b"struct S{int a;};int f(struct S s){return s->a;}",
        "NotPointer in 0 at 43",
    ),
    (b"struct S{int a;};int f(struct S s){return s.a;}", "ok"),
    (b"int g(void);int f(void){return (*g)();}", "ok"),
    (
        b"struct S{int a;};int f(struct S s){return s.b;}",
        "NoField in 0 at 43",
    ),
    (b"struct S{int a;};int f(struct S s){return s.a;}", "ok"),
    (b"int f(int s){return s.a;}", "NoField in 0 at 21"),
    (
        b"struct S{int a;};int f(struct S *s){return s->b;}",
        "NoField in 0 at 44",
    ),
    (b"struct S{int a;};int f(struct S *s){return s->a;}", "ok"),
    (
        b"struct S{int a;};int f(struct S *s){return s.a;}",
        "NoField in 0 at 44",
    ),
    (b"int f(int x){return x[0];}", "NotArray in 0 at 21"),
    (b"int f(void){int x[1];return x[0];}", "ok"),
    (b"int f(int *p){return p[0];}", "NotArray in 0 at 22"),
    (b"int f(int *p){return *p;}", "ok"),
    (b"int x;int *p=&x[0];", "NotArray in 0 at 15"),
    (b"int x[1];int *p=&x[0];", "ok"),
    (b"int f(int *p){return -p;}", "NotInteger in 0 at 21"),
    (b"int f(int p){return -p;}", "ok"),
    (b"int *f(int *p){return p+1;}", "NotInteger in 0 at 23"),
    (b"int f(int p){return p+1;}", "ok"),
    (
        b"int a[2];int f(int *p){return a[p];}",
        "NotInteger in 0 at 31",
    ),
    (b"int a[2];int f(int p){return a[p];}", "ok"),
    (b"int f(int *p){return (int)p;}", "NotInteger in 0 at 21"),
    (b"int f(int *p){return (int)*p;}", "ok"),
    (b"void f(int *p){p++;}", "NotInteger in 0 at 16"),
    (b"void f(int p){p++;}", "ok"),
    (b"void f(int *p){p+=1;}", "NotInteger in 0 at 16"),
    (b"void f(int *p){*p+=1;}", "ok"),
    (
        b"struct S{int a;};int f(struct S s){return 1<<s;}",
        "NotInteger in 0 at 43",
    ),
    (b"struct S{int a;};int f(struct S s){return 1<<s.a;}", "ok"),
    (
        b"struct S{int a;};void f(struct S s){if(s);}",
        "NotScalar in 0 at 36",
    ),
    (b"struct S{int a;};void f(struct S s){if(s.a);}", "ok"),
    (
        b"struct S{int a;};void f(struct S s){for(;s;);}",
        "NotScalar in 0 at 36",
    ),
    (b"struct S{int a;};void f(struct S *s){for(;s;);}", "ok"),
    (
        b"struct S{int a;};void f(struct S s){do;while(s);}",
        "NotScalar in 0 at 36",
    ),
    (b"struct S{int a;};void f(struct S s){do;while(s.a);}", "ok"),
    (
        b"struct S{int a;};int f(struct S s){return !s;}",
        "NotScalar in 0 at 42",
    ),
    (b"struct S{int a;};int f(struct S *s){return !s;}", "ok"),
    (
        b"struct S{int a;};int f(struct S s){return 1&&s;}",
        "NotScalar in 0 at 43",
    ),
    (b"struct S{int a;};int f(struct S s){return 1&&s.a;}", "ok"),
    (
        b"struct S{int a;};int f(struct S s){return s?1:2;}",
        "NotScalar in 0 at 43",
    ),
    (b"struct S{int a;};int f(struct S s){return s.a?1:2;}", "ok"),
    (b"void f(int *p,int x){p=x;}", "Mismatch in 0 at 22"),
    (b"void f(int *p,int x){p=0;}", "ok"),
    (b"void f(int *p){p='\\0';}", "Mismatch in 0 at 16"),
    (b"void f(int *p){p=(0);}", "ok"),
    (b"int *f(void){return 1;}", "Mismatch in 0 at 13"),
    (b"int *f(void){return 0;}", "ok"),
    (b"void f(int *p){unsigned *q=p;}", "Mismatch in 0 at 25"),
    (b"void f(int *p){int *q=p;}", "ok"),
    (
        b"struct S{int a;};int f(struct S s,struct S t){return s==t;}",
        "Mismatch in 0 at 54",
    ),
    (
        b"struct S{int a;};int f(struct S s,struct S t){return s.a==t.a;}",
        "ok",
    ),
    (
        b"int f(int *p,unsigned *q){return p==q;}",
        "Mismatch in 0 at 34",
    ),
    (b"int f(int *p,int *q){return p==q;}", "ok"),
    (
        b"int *f(int c,int *p){return c?p:1;}",
        "Mismatch in 0 at 29",
    ),
    (b"int *f(int c,int *p){return c?p:0;}", "ok"),
    (
        b"typedef int (*F)(void);int g(int a);F f(void){return g;}",
        "Mismatch in 0 at 46",
    ),
    (
        b"typedef int (*F)(void);int g(void);F f(void){return g;}",
        "ok",
    ),
];

/// Calls, and functions that more arguments can follow.
pub static CALLS: [Row; 48] = [
    (b"void g(int *p);void f(void){g(1);}", "Mismatch in 0 at 29"),
    (b"void g(int *p);void f(void){g(0);}", "ok"),
    (b"int f(int x){return x();}", "NotFunction in 0 at 21"),
    (b"typedef int (*F)(void);int f(F x){return x();}", "ok"),
    (b"int f(void){return 1();}", "NotFunction in 0 at 20"),
    (b"int f(void){return (f)();}", "ok"),
    (b"int f(void){int f;return f();}", "NotFunction in 0 at 26"),
    (b"int f(void){int g;return f();}", "ok"),
    (b"int f(int x){return f();}", "ArgumentCount in 0 at 21"),
    (b"int f(int x){return f(x);}", "ok"),
    (b"int f(int x){return f(x,x);}", "ArgumentCount in 0 at 21"),
    (b"void f(void){put_byte();}", "ArgumentCount in 0 at 21"),
    (b"void f(void){put_byte(1);}", "ok"),
    (b"void f(void){get_byte(1);}", "ArgumentCount in 0 at 21"),
    (b"void f(void){get_byte();}", "ok"),
    (b"void f(void){exit(1,2);}", "ArgumentCount in 0 at 17"),
    (b"void f(void){exit(1);}", "ok"),
    (
        b"int v(int n,...);int f(void){return v();}",
        "ArgumentCount in 0 at 37",
    ),
    (b"int v(int n,...);int f(void){return v(0);}", "ok"),
    (
        b"int v(int n,...);int f(void){return v(2,1);}",
        "VariadicCount in 0 at 37",
    ),
    (b"int v(int n,...);int f(void){return v(1,1);}", "ok"),
    (
        b"int v(int n,...);int f(int x){return v(x,1);}",
        "VariadicCount in 0 at 38",
    ),
    (b"int v(int n,...);int f(int x){return v(1,x);}", "ok"),
    (
        b"int v(int n,...);int f(void){return v(1);}",
        "VariadicCount in 0 at 37",
    ),
    (
        b"int v(int n,...);int f(void){return v(1+0,1);}",
        "VariadicCount in 0 at 37",
    ),
    (
        b"int v(int n,...);int f(void){return v('\\x01',1);}",
        "VariadicCount in 0 at 37",
    ),
    (
        b"int v(int m,int n,...);int f(void){return v(0,1);}",
        "VariadicCount in 0 at 43",
    ),
    (b"int v(int m,int n,...);int f(void){return v(1,0);}", "ok"),
    (b"int v(long long n,...);", "Variadic in 0 at 4"),
    (b"int v(int n,...);", "ok"),
    (
        b"int v(int n,...);int f(int *p){return v(1,p);}",
        "Variadic in 0 at 39",
    ),
    (b"int v(int n,...);int f(int *p){return v(1,*p);}", "ok"),
    (
        b"int v(int n,...){va_list p;return va_arg(p,int*)==0;}",
        "Variadic in 0 at 34",
    ),
    (
        b"int v(int n,...){va_list p;return va_arg(p,int)==0;}",
        "ok",
    ),
    (
        b"void v(int n,...){va_list p;{va_list q;}}",
        "Variadic in 0 at 37",
    ),
    (b"void v(int n,...){va_list p;{int q;}}", "ok"),
    (b"void v(int n){va_list p;}", "Variadic in 0 at 22"),
    (b"void v(int n,...){va_list p;}", "ok"),
    (
        b"void v(int m,int n,...){va_list p;va_start(p,m);}",
        "Variadic in 0 at 34",
    ),
    (b"void v(int m,int n,...){va_list p;va_start(p,n);}", "ok"),
    (
        b"void v(int n,...){va_list p;{int n;va_start(p,n);}}",
        "Variadic in 0 at 35",
    ),
    (b"void v(int n,...){va_list p;{int m;va_start(p,n);}}", "ok"),
    (
        b"struct B{long long a;long long b;};struct B v(int n,...);",
        "Variadic in 0 at 44",
    ),
    (b"struct B{long long b;};struct B v(int n,...);", "ok"),
    (
        b"struct B{char a[3];};struct B v(int n,...);",
        "Variadic in 0 at 30",
    ),
    (b"struct B{char a[4];};struct B v(int n,...);", "ok"),
    (
        b"int a[2];int f(void){return a();}",
        "NotFunction in 0 at 29",
    ),
    (
        b"void v(int n,...){va_list p;va_start(n,n);}",
        "Mismatch in 0 at 28",
    ),
];

/// Initial values, jumps and adjustors.
pub static REST: [Row; 49] = [
    (b"int h;int g=h;", "BadInitial in 0 at 12"),
    (b"int h;int *g=&h;", "ok"),
    (b"int a[2]={1,2,3};", "BadInitial in 0 at 9"),
    (b"int a[2]={1,2};", "ok"),
    (
        b"struct S{int a;};struct S s={1,2};",
        "BadInitial in 0 at 28",
    ),
    (b"struct S{int a;};struct S s={1};", "ok"),
    (b"char t[2]=\"abc\";", "BadInitial in 0 at 10"),
    (b"char t[3]=\"abc\";", "ok"),
    (b"int t[3]=\"abc\";", "BadInitial in 0 at 9"),
    (b"int t[3]={'a','b','c'};", "ok"),
    (b"int *p=5;", "BadInitial in 0 at 7"),
    (b"int *p=0;", "ok"),
    (b"unsigned x;int *p=&x;", "BadInitial in 0 at 18"),
    (b"int x;int *p=&x;", "ok"),
    (
        b"typedef int (*F)(void);int g(int a);F p=g;",
        "BadInitial in 0 at 40",
    ),
    (b"typedef int (*F)(void);int g(void);F p=g;", "ok"),
    (b"int a[2][1]={{1},2};", "BadInitial in 0 at 17"),
    (b"int a[2][1]={{1},{2}};", "ok"),
    (b"void f(void){break;}", "Flow in 0 at 13"),
    (b"void f(void){while(1)break;}", "ok"),
    (b"void f(void){if(1)continue;}", "Flow in 0 at 18"),
    (b"void f(void){do continue;while(0);}", "ok"),
    (b"void f(void){return 1;}", "Flow in 0 at 13"),
    (b"int f(void){return 1;}", "ok"),
    (b"int f(void){return;}", "Flow in 0 at 12"),
    (b"void f(void){return;}", "ok"),
    (b"int g;__adjustor a=g,1,1;", "BadAdjustor in 0 at 17"),
    (b"int g(int x);__adjustor a=g,1,1;", "ok"),
    (
        b"int f(int x);__adjustor a=f,0,1;",
        "BadAdjustor in 0 at 24",
    ),
    (b"int f(int x,int y);__adjustor a=f,2,1;", "ok"),
    (
        b"int f(int x);__adjustor a=f,2,1;",
        "BadAdjustor in 0 at 24",
    ),
    (
        b"int f(int *x);__adjustor a=f,1,1;",
        "BadAdjustor in 0 at 25",
    ),
    (b"int f(char x);__adjustor a=f,1,1;", "ok"),
    (
        b"int f(int a,int b,int c,int d,int e);__adjustor z=f,5,1;",
        "BadAdjustor in 0 at 48",
    ),
    (
        b"int f(int a,int b,int c,int d,int e);__adjustor z=f,4,1;",
        "ok",
    ),
    (
        b"struct B{long long a;long long b;};struct B f(int a,int b,int c,int d);__adjustor z=f,4,1;",
        "BadAdjustor in 0 at 82",
    ),
    (
        b"struct B{long long a;long long b;};struct B f(int a,int b,int c,int d);__adjustor z=f,3,1;",
        "ok",
    ),
    (
        b"int f(int x);__adjustor a=f,1,32768;",
        "BadAdjustor in 0 at 24",
    ),
    (b"int f(int x);__adjustor a=f,1,32767;", "ok"),
    (
        b"int f(int x);__adjustor a=f,1,-32769;",
        "BadAdjustor in 0 at 24",
    ),
    (b"int f(int x);__adjustor a=f,1,-32768;", "ok"),
    (
        b"int v(int m,int n,...);__adjustor a=v,2,1;",
        "BadAdjustor in 0 at 34",
    ),
    (b"int v(int m,int n,...);__adjustor a=v,1,1;", "ok"),
    (
        b"int f(int x);__adjustor a=f,1,1;__adjustor b=a,1,-1;",
        "ok",
    ),
    (b"int a={1};", "BadInitial in 0 at 6"),
    (b"int a[1]={1};", "ok"),
    (b"int a[2];int *p=&a[2];", "BadInitial in 0 at 16"),
    (b"int a[2];int *p=&a[1];", "ok"),
    (b"__adjustor a=put_byte,1,1;", "BadAdjustor in 0 at 11"),
];

/// Kinds that meet at one node: the first of the list counts.
pub static MEETING: [Row; 23] = [
    (b"int x;int x[0];", "Redeclared in 0 at 10"),
    (
        b"int f(int a);int f(long long n,...);",
        "Redeclared in 0 at 17",
    ),
    (
        b"void v(int n,...){va_list p;va_list p;}",
        "Redeclared in 0 at 36",
    ),
    (b"__adjustor exit=f,1,1;", "Redeclared in 0 at 11"),
    (b"struct T a[0];", "Unknown in 0 at 9"),
    (
        b"int f(void){int a[2];return &a==0;}",
        "NotPlace in 0 at 28",
    ),
    (b"int f(int x){return x->b;}", "NotPointer in 0 at 21"),
    (b"int f(int x,int *p){return x[p];}", "NotArray in 0 at 28"),
    (
        b"struct S{int a;};void f(struct S s){1+=s;}",
        "NotPlace in 0 at 37",
    ),
    (b"void f(int *p){1=p;}", "NotPlace in 0 at 16"),
    (
        b"struct S{int a;};int f(struct S s,int *p){return s?p:1;}",
        "NotScalar in 0 at 50",
    ),
    (
        b"int g(int a,int b);int f(int *p){return g(p);}",
        "Mismatch in 0 at 41",
    ),
    (
        b"int v(int n,...);int f(int *p){return v(p,p);}",
        "Mismatch in 0 at 39",
    ),
    (
        b"int v(int n,...);int f(int *p){return v(2,p);}",
        "VariadicCount in 0 at 39",
    ),
    (b"extern int x;extern void x;", "Redeclared in 0 at 25"),
    (b"extern int x[2];extern int x[0];", "Redeclared in 0 at 27"),
    (b"extern int x;extern struct T x;", "Unknown in 0 at 29"),
    (b"int f(void);void *f(void);", "Redeclared in 0 at 18"),
    (b"int a[2];int *p=a;", "NotValue in 0 at 16"),
    (b"int a[2];int *p=&a;", "NotPlace in 0 at 16"),
    (b"int x=exit;", "NotValue in 0 at 6"),
    (b"typedef int (*F)(void);F p=&F;", "NotPlace in 0 at 27"),
    (
        b"struct S{int a;};struct S s[2];int *p=&s[2].b;",
        "NoField in 0 at 43",
    ),
];

/// Parts from left to right, and then the node.
pub static ORDER: [Row; 21] = [
    (b"int f(int x){return y+x();}", "Unknown in 0 at 20"),
    (b"int f(int x){return x()+y;}", "NotFunction in 0 at 21"),
    (b"int f(int x){return x(y);}", "Unknown in 0 at 22"),
    (b"int f(void){return f(1,y);}", "Unknown in 0 at 23"),
    (
        b"int a[2];int b[2];void f(void){a=b;}",
        "NotValue in 0 at 33",
    ),
    (
        b"struct S{int a;};void f(struct S s){if(s)break;}",
        "Flow in 0 at 41",
    ),
    (
        b"struct S{int a;};void f(struct S s){while(s)break;}",
        "NotScalar in 0 at 36",
    ),
    (b"void f(void){return y;}", "Unknown in 0 at 20"),
    (b"void f(void){for(;;y=1)x=1;}", "Unknown in 0 at 19"),
    (b"void f(void){do x=1;while(y);}", "Unknown in 0 at 16"),
    (b"int x=1,*p=&y,x;", "Unknown in 0 at 11"),
    (b"struct S{int a;};struct S{void b;};", "BadType in 0 at 31"),
    (b"int x;int x(void a);", "BadType in 0 at 17"),
    (
        b"int f(void){return 0;}int f(void){return y;}",
        "Redeclared in 0 at 26",
    ),
    (b"int a[1]={1,y};", "Unknown in 0 at 12"),
    (b"int a={y};", "Unknown in 0 at 7"),
    (b"int a[1]={1,{y}};", "Unknown in 0 at 13"),
    (b"int h;int a[1]={1,h};", "BadInitial in 0 at 18"),
    (b"int h;int a[1]={1,&h};", "BadInitial in 0 at 15"),
    (b"int a[1]={\"x\",y};", "BadInitial in 0 at 10"),
    (
        b"struct S{int a;};struct S s={1,s.b};",
        "NoField in 0 at 32",
    ),
];

/// Whole programs: what is missing counts after all units.
pub static PROGRAMS: [Program; 39] = [
    (&[b"int main(void){return 0;}"], "ok"),
    (&[b""], "NoMain in 0 at 0"),
    (&[b"long long main(void){return 0;}"], "NoMain in 0 at 0"),
    (&[b"int main(int a){return a;}"], "NoMain in 0 at 0"),
    (&[b"int main;"], "NoMain in 0 at 0"),
    (
        &[b"int f(void){return 0;}", b"int g(void){return 0;}"],
        "NoMain in 0 at 0",
    ),
    (
        &[b"int f(void){return 0;}", b"int main(void){return 0;}"],
        "ok",
    ),
    (&[b"int main(void);"], "Undefined in 0 at 4"),
    (&[b"int f(void);"], "Undefined in 0 at 4"),
    (
        &[b"int f(void);", b"int main(void){return 0;}"],
        "Undefined in 0 at 4",
    ),
    (
        &[b"int main(void){return 0;}", b"int f(void);"],
        "Undefined in 1 at 4",
    ),
    (
        &[
            b"int main(void){return 0;}int f(void);int f(void);",
            b"int f(void);",
        ],
        "Undefined in 0 at 29",
    ),
    (
        &[b"extern int x;int main(void){return 0;}"],
        "Undefined in 0 at 11",
    ),
    (
        &[
            b"extern int x;int f(void);int main(void){return f();}",
            b"int x;int f(void){return 0;}",
        ],
        "ok",
    ),
    (
        &[
            b"extern int x;int f(void);int main(void){return f();}int x;int g(void);",
            b"int f(void){return 0;}",
        ],
        "Undefined in 0 at 62",
    ),
    (
        &[
            b"int f(void);int main(void){return 0;}",
            b"int g(void){return y;}",
        ],
        "Unknown in 1 at 19",
    ),
    (
        &[b"int f(void);", b"int g(void){return y;}"],
        "Unknown in 1 at 19",
    ),
    (
        &[b"typedef int (*F)(void);int main(void){return 0;}", b"F p;"],
        "Unknown in 1 at 2",
    ),
    (
        &[
            b"typedef int (*F)(void);int main(void){return 0;}",
            b"typedef int (*F)(int a);F p;",
        ],
        "ok",
    ),
    (
        &[
            b"typedef int (*F)(void);int main(void){return 0;}",
            b"int F;",
        ],
        "ok",
    ),
    (
        &[
            b"int F;int main(void){return 0;}",
            b"typedef int (*F)(void);",
        ],
        "ok",
    ),
    (
        &[
            b"int f(int x){return x;}__adjustor a=f,1,1;int main(void){return a(1);}",
            b"int g(void){return a(1);}",
        ],
        "Unknown in 1 at 19",
    ),
    (
        &[
            b"int f(int x){return x;}__adjustor a=f,1,1;int main(void){return a(1);}",
            b"int a(int x);",
        ],
        "Redeclared in 1 at 4",
    ),
    (
        &[
            b"int f(int x){return x;}__adjustor a=f,1,1;int main(void){return a(1);}",
            b"int h(int x);__adjustor a=h,1,1;int h(int x){return x;}",
        ],
        "Redeclared in 1 at 24",
    ),
    (
        &[
            b"__adjustor a=f,1,1;int main(void){return 0;}",
            b"int f(int x){return x;}",
        ],
        "Unknown in 0 at 11",
    ),
    (
        &[
            b"int f(int x);__adjustor a=f,1,1;int main(void){return a(1);}",
            b"int f(int x){return x;}",
        ],
        "ok",
    ),
    (
        &[
            b"struct S{int a;};int main(void){return 0;}",
            b"struct S{int a;};",
        ],
        "ok",
    ),
    (
        &[
            b"struct S{int a;};int main(void){return 0;}",
            b"struct S{int b;};",
        ],
        "Redeclared in 1 at 7",
    ),
    (
        &[
            b"struct S{int a;};int main(void){return 0;}",
            b"struct S{unsigned a;};",
        ],
        "Redeclared in 1 at 7",
    ),
    (
        &[
            b"struct S{int a;};int main(void){return 0;}",
            b"struct S *p;",
        ],
        "Unknown in 1 at 10",
    ),
    (
        &[
            b"struct T{int v;};int main(void){return 0;}",
            b"struct T{struct T n;};",
        ],
        "Incomplete in 1 at 18",
    ),
    (
        &[b"int x;int main(void){return x;}", b"int x;"],
        "Redeclared in 1 at 4",
    ),
    (
        &[b"int x;int main(void){return x;}", b"extern int x;"],
        "ok",
    ),
    (
        &[b"int x;int main(void){return x;}", b"extern unsigned x;"],
        "Redeclared in 1 at 16",
    ),
    (
        &[b"int x;int main(void){return x;}", b"int x(void);"],
        "Redeclared in 1 at 4",
    ),
    (
        &[
            b"int x;int main(void){return x;}",
            b"int f(void){return x;}",
        ],
        "Unknown in 1 at 19",
    ),
    (
        &[
            b"int x;int main(void){return x;}",
            b"extern int x;int f(void){return x;}",
        ],
        "ok",
    ),
    (
        &[b"int main(void){return 0;}", b"int main(void){return 0;}"],
        "Redeclared in 1 at 4",
    ),
    (&[b"int main(void){return 0;}", b"int main(void);"], "ok"),
];

/// Each item, parameter, initial value, statement, declarator, expression and inserted conversion is a node.
pub static COUNTED: [Counted; 44] = [
    (b"int x=1;", 3),
    (b"int f(void){return 1;}", 4),
    (b"int f(void){return (1);}", 4),
    (b"long long f(void){return 1;}", 5),
    (b"long long f(void){return 2147483648;}", 4),
    (b"int f(void){return 2147483647;}", 4),
    (b"unsigned f(void){return 0x80000000;}", 4),
    (b"long long f(void){return 0x80000000;}", 5),
    (b"long long f(void){return 1ll;}", 4),
    (b"unsigned f(void){return 1u;}", 4),
    (b"int f(void){return 'a';}", 4),
    (b"char f(void){return 'a';}", 5),
    (b"int *f(void){return 0;}", 4),
    (b"unsigned long long f(void){return sizeof(int);}", 4),
    (b"long long f(void){return sizeof(int);}", 5),
    (b"int f(void){return f();}", 4),
    (b"typedef int (*F)(void);int f(F p){return p();}", 7),
    (b"int f(void){int x=1;return x;}", 6),
    (b"long long f(unsigned u,long long l){return u+l;}", 9),
    (b"unsigned f(unsigned u,int i){return u+i;}", 9),
    (
        b"unsigned long long f(unsigned long long a,long long b){return a+b;}",
        9,
    ),
    (
        b"unsigned long long f(unsigned long long a,unsigned b){return a*b;}",
        9,
    ),
    (b"int f(int a,int b){return a+b;}", 8),
    (b"int f(char a,short b){return a+b;}", 10),
    (b"int f(unsigned char a,unsigned short b){return a%b;}", 10),
    (b"int f(int i,unsigned u){return i<u;}", 9),
    (b"int f(long long a,long long b){return a==b;}", 8),
    (b"long long f(int a,int b){return a==b;}", 9),
    (b"int f(int i,long long l){return i<<l;}", 8),
    (b"long long f(int i,long long l){return i<<l;}", 9),
    (b"unsigned f(unsigned u,int i){return u>>i;}", 8),
    (b"long long f(long long l,unsigned u){return l>>u;}", 8),
    (b"int f(char a,short b){return a<<b;}", 10),
    (b"int f(char a,long long b){return a&&b;}", 8),
    (b"int f(int *p){return !p;}", 6),
    (b"int f(char c){return -c;}", 7),
    (b"long long f(long long l){return ~l;}", 6),
    (b"char f(int i){return (char)i;}", 6),
    (b"void f(char c){c+=1;}", 7),
    (b"void f(char c){c++;}", 6),
    (b"void f(char c){c=1;}", 8),
    (b"int f(int c){return c?c:1;}", 8),
    (b"long long f(int c){return c?1u:2ll;}", 9),
    (b"int *f(int c,int *p){return c?p:0;}", 9),
];
