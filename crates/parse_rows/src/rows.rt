//! Small texts, with their trees or the places where they stop, worked out by hand from the grammar.

/// A text, and its tree or the place at which it stops.
pub type Row = (&'static [u8], &'static str);

/// Expressions behind `return`.
pub static EXPRESSIONS: [Row; 62] = [
    (
        b"int f(){return 1-2-3;}",
        "height 7: (define I32 f { (return (Subtract (Subtract 1 2) 3)) })",
    ),
    (
        b"int f(){return 1-(2-3);}",
        "height 8: (define I32 f { (return (Subtract 1 (paren (Subtract 2 3)))) })",
    ),
    (
        b"int f(){return a/b*c%d;}",
        "height 8: (define I32 f { (return (Remainder (Multiply (Divide a b) c) d)) })",
    ),
    (
        b"int f(){return a+b*c-d;}",
        "height 8: (define I32 f { (return (Subtract (Add a (Multiply b c)) d)) })",
    ),
    (
        b"int f(){return a<<b+c>>d;}",
        "height 8: (define I32 f { (return (ShiftRight (ShiftLeft a (Add b c)) d)) })",
    ),
    (
        b"int f(){return a<b<=c;}",
        "height 7: (define I32 f { (return (LessEqual (Less a b) c)) })",
    ),
    (
        b"int f(){return a>b>=c;}",
        "height 7: (define I32 f { (return (GreaterEqual (Greater a b) c)) })",
    ),
    (
        b"int f(){return a==b<c;}",
        "height 7: (define I32 f { (return (Equal a (Less b c))) })",
    ),
    (
        b"int f(){return a!=b==c;}",
        "height 7: (define I32 f { (return (Equal (NotEqual a b) c)) })",
    ),
    (
        b"int f(){return a&b==c;}",
        "height 7: (define I32 f { (return (BitAnd a (Equal b c))) })",
    ),
    (
        b"int f(){return a^b&c;}",
        "height 7: (define I32 f { (return (BitXor a (BitAnd b c))) })",
    ),
    (
        b"int f(){return a|b^c;}",
        "height 7: (define I32 f { (return (BitOr a (BitXor b c))) })",
    ),
    (
        b"int f(){return a&&b|c;}",
        "height 7: (define I32 f { (return (And a (BitOr b c))) })",
    ),
    (
        b"int f(){return a||b&&c||d;}",
        "height 8: (define I32 f { (return (Or (Or a (And b c)) d)) })",
    ),
    (
        b"int f(){return a?b:c;}",
        "height 6: (define I32 f { (return (? a b c)) })",
    ),
    (
        b"int f(){return a?b:c?d:e;}",
        "height 7: (define I32 f { (return (? a b (? c d e))) })",
    ),
    (
        b"int f(){return a?b?c:d:e;}",
        "height 7: (define I32 f { (return (? a (? b c d) e)) })",
    ),
    (
        b"int f(){return a||b?c=d:e;}",
        "height 7: (define I32 f { (return (? (Or a b) (Set= c d) e)) })",
    ),
    (
        b"int f(){return a=b=c;}",
        "height 7: (define I32 f { (return (Set= a (Set= b c))) })",
    ),
    (
        b"int f(){return a+=b-=c;}",
        "height 7: (define I32 f { (return (Add= a (Subtract= b c))) })",
    ),
    (
        b"int f(){return a*=b/=c;}",
        "height 7: (define I32 f { (return (Multiply= a (Divide= b c))) })",
    ),
    (
        b"int f(){return a%=b;}",
        "height 6: (define I32 f { (return (Remainder= a b)) })",
    ),
    (
        b"int f(){return a&=b|=c;}",
        "height 7: (define I32 f { (return (BitAnd= a (BitOr= b c))) })",
    ),
    (
        b"int f(){return a^=b;}",
        "height 6: (define I32 f { (return (BitXor= a b)) })",
    ),
    (
        b"int f(){return a<<=b>>=c;}",
        "height 7: (define I32 f { (return (ShiftLeft= a (ShiftRight= b c))) })",
    ),
    (
        b"int f(){return a=b?c:d;}",
        "height 7: (define I32 f { (return (Set= a (? b c d))) })",
    ),
    (
        b"int f(){return *p=1;}",
        "height 7: (define I32 f { (return (Set= (Indirect p) 1)) })",
    ),
    (
        b"int f(){return -a=1;}",
        "height 7: (define I32 f { (return (Set= (Negate a) 1)) })",
    ),
    (
        b"int f(){return (a)=1;}",
        "height 7: (define I32 f { (return (Set= (paren a) 1)) })",
    ),
    (
        b"int f(){return (int)a=1;}",
        "height 7: (define I32 f { (return (Set= (cast I32 a) 1)) })",
    ),
    (
        b"int f(){return - -a;}",
        "height 7: (define I32 f { (return (Negate (Negate a))) })",
    ),
    (
        b"int f(){return a- -b;}",
        "height 7: (define I32 f { (return (Subtract a (Negate b))) })",
    ),
    (
        b"int f(){return !~+a;}",
        "height 8: (define I32 f { (return (Not (Complement (Plus a)))) })",
    ),
    (
        b"int f(){return &*p;}",
        "height 7: (define I32 f { (return (Address (Indirect p))) })",
    ),
    (
        b"int f(){return ++*p;}",
        "height 7: (define I32 f { (return (Increment (Indirect p))) })",
    ),
    (
        b"int f(){return --a;}",
        "height 6: (define I32 f { (return (Decrement a)) })",
    ),
    (
        b"int f(){return *p++;}",
        "height 7: (define I32 f { (return (Indirect (++ p))) })",
    ),
    (
        b"int f(){return a---b;}",
        "height 7: (define I32 f { (return (Subtract (-- a) b)) })",
    ),
    (
        b"int f(){return -a[1];}",
        "height 7: (define I32 f { (return (Negate ([] a 1))) })",
    ),
    (
        b"int f(){return a[b][c=d];}",
        "height 7: (define I32 f { (return ([] ([] a b) (Set= c d))) })",
    ),
    (
        b"int f(){return a.b->c;}",
        "height 7: (define I32 f { (return (-> (. a b) c)) })",
    ),
    (
        b"int f(){return a->b[1](2);}",
        "height 8: (define I32 f { (return (call ([] (-> a b) 1) 2)) })",
    ),
    (
        b"int f(){return f()();}",
        "height 7: (define I32 f { (return (call (call f))) })",
    ),
    (
        b"int f(){return f(a,b=c);}",
        "height 7: (define I32 f { (return (call f a (Set= b c))) })",
    ),
    (
        b"int f(){return f(a)++;}",
        "height 7: (define I32 f { (return (++ (call f a))) })",
    ),
    (
        b"int f(){return (a)(b);}",
        "height 7: (define I32 f { (return (call (paren a) b)) })",
    ),
    (
        b"int f(){return (t)-1;}",
        "height 7: (define I32 f { (return (Subtract (paren t) 1)) })",
    ),
    (
        b"int f(){return (t)*p;}",
        "height 7: (define I32 f { (return (Multiply (paren t) p)) })",
    ),
    (
        b"int f(){return (int)-1;}",
        "height 7: (define I32 f { (return (cast I32 (Negate 1))) })",
    ),
    (
        b"int f(){return (unsigned char)a+b;}",
        "height 7: (define I32 f { (return (Add (cast U8 a) b)) })",
    ),
    (
        b"int f(){return (long long int)(short)a;}",
        "height 7: (define I32 f { (return (cast I64 (cast I16 a))) })",
    ),
    (
        b"int f(){return (signed)a[1];}",
        "height 7: (define I32 f { (return (cast I32 ([] a 1))) })",
    ),
    (
        b"int f(){return (unsigned short int)!a;}",
        "height 7: (define I32 f { (return (cast U16 (Not a))) })",
    ),
    (
        b"int f(){return sizeof(int);}",
        "height 5: (define I32 f { (return (sizeof I32)) })",
    ),
    (
        b"int f(){return sizeof(struct s*)*a;}",
        "height 6: (define I32 f { (return (Multiply (sizeof struct s*) a)) })",
    ),
    (
        b"int f(){return sizeof(t**)+1;}",
        "height 6: (define I32 f { (return (Add (sizeof t**) 1)) })",
    ),
    (
        b"int f(){return sizeof(void);}",
        "height 5: (define I32 f { (return (sizeof void)) })",
    ),
    (
        b"int f(){return -sizeof(unsigned long long);}",
        "height 6: (define I32 f { (return (Negate (sizeof U64))) })",
    ),
    (
        b"int f(){return va_arg(ap,long long);}",
        "height 5: (define I32 f { (return (va_arg ap I64)) })",
    ),
    (
        b"int f(){return va_arg(ap,t*).x;}",
        "height 6: (define I32 f { (return (. (va_arg ap t*) x)) })",
    ),
    (
        b"int f(){return 'a'+0x10;}",
        "height 6: (define I32 f { (return (Add '97 16)) })",
    ),
    (
        b"int f(){return ((a));}",
        "height 7: (define I32 f { (return (paren (paren a))) })",
    ),
];

/// What stands behind `return` and is no expression.
pub static NO_EXPRESSIONS: [Row; 33] = [
    (b"int f(){return a+b=c;}", "Syntax at 18"),
    (b"int f(){return a?b;c;}", "Syntax at 18"),
    (b"int f(){return a?b:c=d;}", "Syntax at 20"),
    (b"int f(){return a?:b;}", "Syntax at 17"),
    (b"int f(){return a:b;}", "Syntax at 16"),
    (b"int f(){return (a;;}", "Syntax at 17"),
    (b"int f(){return ();}", "Syntax at 16"),
    (b"int f(){return a b;}", "Syntax at 17"),
    (b"int f(){return );}", "Syntax at 15"),
    (b"int f(){return a+;;}", "Syntax at 17"),
    (b"int f(){return -;;}", "Syntax at 16"),
    (b"int f(){return f(a,);}", "Syntax at 19"),
    (b"int f(){return f(,);}", "Syntax at 17"),
    (b"int f(){return a[];}", "Syntax at 17"),
    (b"int f(){return a.1;}", "Syntax at 17"),
    (b"int f(){return a->(b);}", "Syntax at 18"),
    (b"int f(){return a++ b;}", "Syntax at 19"),
    (b"int f(){return (int*)a;}", "Syntax at 19"),
    (b"int f(){return (struct s)a;}", "Syntax at 16"),
    (b"int f(){return (t)a;}", "Syntax at 18"),
    (b"int f(){return sizeof a;}", "Syntax at 22"),
    (b"int f(){return sizeof(1);}", "Syntax at 22"),
    (b"int f(){return sizeof(a+1);}", "Syntax at 23"),
    (b"int f(){return sizeof(int)[1];}", "Syntax at 26"),
    (b"int f(){return (long)a;}", "Syntax at 20"),
    (b"int f(){return (void)a;}", "Syntax at 16"),
    (b"int f(){return va_arg(1,int);}", "Syntax at 22"),
    (b"int f(){return va_arg(ap,1);}", "Syntax at 25"),
    (b"int f(){return \"\";}", "Syntax at 15"),
    (b"int f(){return a,b;}", "Syntax at 16"),
    (b"int f(){return ++a=b+;;}", "Syntax at 21"),
    (b"int f(){return 1 2;}", "Syntax at 17"),
    (b"int f(){return if;}", "Syntax at 15"),
];

/// Statements and locals of a body.
pub static STATEMENTS: [Row; 24] = [
    (b"int f(){x=1;}", "height 6: (define I32 f { (Set= x 1); })"),
    (b"int f(){f();}", "height 6: (define I32 f { (call f); })"),
    (
        b"int f(){x++;--x;}",
        "height 6: (define I32 f { (++ x); (Decrement x); })",
    ),
    (
        b"int f(){a*b;}",
        "height 5: (define I32 f { (local a *b) })",
    ),
    (
        b"int f(){a*b=c;}",
        "height 5: (define I32 f { (local a *b = c) })",
    ),
    (
        b"int f(){a b,c[2];}",
        "height 5: (define I32 f { (local a b c[2]) })",
    ),
    (
        b"int f(){a(b);}",
        "height 6: (define I32 f { (call a b); })",
    ),
    (
        b"int f(){int x=y=1;}",
        "height 6: (define I32 f { (local I32 x = (Set= y 1)) })",
    ),
    (
        b"int f(){struct s x,*p=&x;}",
        "height 6: (define I32 f { (local struct s x *p = (Address x)) })",
    ),
    (
        b"int f(){va_list ap;}",
        "height 4: (define I32 f { (va_list ap) })",
    ),
    (
        b"int f(){va_start(ap,n);va_end(ap);}",
        "height 4: (define I32 f { (va_start ap n) (va_end ap) })",
    ),
    (
        b"int f(){if(a)b();else c();}",
        "height 7: (define I32 f { (if a (call b); else (call c);) })",
    ),
    (
        b"int f(){if(a)if(b);else;}",
        "height 6: (define I32 f { (if a (if b ; else ;)) })",
    ),
    (
        b"int f(){if(a)if(b);else;else;}",
        "height 6: (define I32 f { (if a (if b ; else ;) else ;) })",
    ),
    (
        b"int f(){if(a){if(b);}else;}",
        "height 7: (define I32 f { (if a { (if b ;) } else ;) })",
    ),
    (
        b"int f(){while(a)if(b);else;}",
        "height 6: (define I32 f { (while a (if b ; else ;)) })",
    ),
    (
        b"int f(){do if(a);while(b);}",
        "height 6: (define I32 f { (do (if a ;) b) })",
    ),
    (
        b"int f(){for(;;);}",
        "height 5: (define I32 f { (for;; ;) })",
    ),
    (
        b"int f(){for(i=0;i<9;i++);}",
        "height 6: (define I32 f { (for (Set= i 0); (Less i 9); (++ i) ;) })",
    ),
    (
        b"int f(){for(int i=0;;)break;}",
        "height 6: (define I32 f { (for (local I32 i = 0);; break) })",
    ),
    (
        b"int f(){for(t*p;;)continue;}",
        "height 6: (define I32 f { (for (local t *p);; continue) })",
    ),
    (
        b"int f(){for(f();;f()){}}",
        "height 6: (define I32 f { (for (call f);; (call f) { }) })",
    ),
    (b"int f(){return;}", "height 4: (define I32 f { (return) })"),
    (
        b"int f(){{}{{;}}}",
        "height 6: (define I32 f { { } { { ; } } })",
    ),
];

/// What stands in a body and is no statement and no local.
pub static NO_STATEMENTS: [Row; 46] = [
    (b"int f(){x+y;}", "Syntax at 9"),
    (b"int f(){x;}", "Syntax at 9"),
    (b"int f(){1;}", "Syntax at 9"),
    (b"int f(){(x=1);}", "Syntax at 13"),
    (b"int f(){(f());}", "Syntax at 13"),
    (b"int f(){-x;}", "Syntax at 10"),
    (b"int f(){x?y:z;}", "Syntax at 9"),
    (b"int f(){f()+1;}", "Syntax at 11"),
    (b"int f(){a*b+c;}", "Syntax at 11"),
    (b"int f(){va_list ap,bp;}", "Syntax at 18"),
    (b"int f(){va_start(ap);}", "Syntax at 19"),
    (b"int f(){va_end;}", "Syntax at 14"),
    (b"int f(){do;while(a)}", "Syntax at 19"),
    (b"int f(){for(i=0)x();}", "Syntax at 15"),
    (b"int f(){for(va_list ap;;);}", "Syntax at 12"),
    (b"int f(){for(x;;);}", "Syntax at 13"),
    (b"int f(){for(;;i);}", "Syntax at 15"),
    (b"int f(){for(;)}", "Syntax at 13"),
    (b"int f(){for()}", "Syntax at 12"),
    (b"int f(){else;}", "Syntax at 8"),
    (b"int f(){if a;}", "Syntax at 11"),
    (b"int f(){if(a)int x;}", "Syntax at 13"),
    (b"int f(){if(a)t x;}", "Syntax at 15"),
    (b"int f(){if(a)}", "Syntax at 13"),
    (b"int f(){while();}", "Syntax at 14"),
    (b"int f(){typedef int(*t)();}", "Syntax at 8"),
    (b"int f(){int ;}", "Syntax at 12"),
    (b"int f(){int x y;}", "Syntax at 14"),
    (b"int f(){int x=;}", "Syntax at 14"),
    (b"int f(){int x={1};}", "Syntax at 14"),
    (b"int f(){x=;}", "Syntax at 10"),
    (b"int f(){return int;}", "Syntax at 15"),
    (b"int f(){break 1;}", "Syntax at 14"),
    (b"int f(){int x[n];}", "Syntax at 14"),
    (b"int f(){extern int x;}", "Syntax at 8"),
    (b"int f(){int g();}", "Syntax at 13"),
    (b"int f(){a b(c);}", "Syntax at 11"),
    (b"int f(){x=1,y=2;}", "Syntax at 11"),
    (b"int f(){case 1:;}", "Syntax at 8"),
    (b"int f(){goto l;}", "Syntax at 8"),
    (b"int f(){l:;}", "Syntax at 9"),
    (b"int f(){x=1}", "Syntax at 11"),
    (b"int f(){if(a);else}", "Syntax at 18"),
    (b"int f(){)}", "Syntax at 8"),
    (b"int f(){do;}", "Syntax at 11"),
    (b"int f(){int f(){}}", "Syntax at 13"),
];

/// Units.
pub static UNITS: [Row; 34] = [
    (b"", "height 1:"),
    (b"int a;", "height 3: (global I32 a)"),
    (
        b"int a=1,*b,c[2][3];",
        "height 3: (global I32 a = 1 *b c[2][3])",
    ),
    (b"unsigned x=-1;", "height 3: (global U32 x = -1)"),
    (b"char c='+';", "height 3: (global I8 c = '43)"),
    (b"char s[3]=\"ab\";", "height 3: (global I8 s[3] = \"ab\")"),
    (
        b"int*p=&a[1].b[2];",
        "height 3: (global I32 *p = &a[1].b[2])",
    ),
    (b"int*p=a;", "height 3: (global I32 *p = a)"),
    (
        b"int a[2][2]={{1,2},{3}};",
        "height 5: (global I32 a[2][2] = { { 1 2 } { 3 } })",
    ),
    (b"int a[1]={1,};", "height 4: (global I32 a[1] = { 1 })"),
    (
        b"struct op o={'+',f};",
        "height 4: (global struct op o = { '43 f })",
    ),
    (b"t a;t*b;", "height 3: (global t a) (global t *b)"),
    (
        b"void*p;void v;",
        "height 3: (global void *p) (global void v)",
    ),
    (
        b"long long int a;signed char c;",
        "height 3: (global I64 a) (global I8 c)",
    ),
    (
        b"unsigned long long u;unsigned short s;",
        "height 3: (global U64 u) (global U16 s)",
    ),
    (
        b"signed s;short h;unsigned char c;",
        "height 3: (global I32 s) (global I16 h) (global U8 c)",
    ),
    (b"extern int a[2];", "height 3: (extern I32 a[2])"),
    (b"extern struct s*p;", "height 3: (extern struct s *p)"),
    (b"struct s{int a;};", "height 4: (struct s [I32 a])"),
    (
        b"struct s{int*p,a[2];struct s*n;};",
        "height 4: (struct s [I32 *p a[2]] [struct s *n])",
    ),
    (b"struct s a;", "height 3: (global struct s a)"),
    (b"typedef int(*f)(void);", "height 2: (typedef I32 f)"),
    (
        b"typedef void*(*g)(int,char*c);",
        "height 3: (typedef void* g [I32] [I8* c])",
    ),
    (
        b"int f();int g(void);",
        "height 2: (declare I32 f) (declare I32 g)",
    ),
    (b"int f(int,...);", "height 3: (declare I32 f [I32] ...)"),
    (
        b"struct s*f(struct s,t*t);",
        "height 3: (declare struct s* f [struct s] [t* t])",
    ),
    (b"void f(void*);", "height 3: (declare void f [void*])"),
    (b"t f(t t){}", "height 3: (define t f [t t] { })"),
    (b"int f(){}", "height 3: (define I32 f { })"),
    (
        b"int f(int a,...){}",
        "height 3: (define I32 f [I32 a] ... { })",
    ),
    (b"__adjustor a=b,1,2;", "height 2: (adjustor a b 1 2)"),
    (b"__adjustor a=b,1,-2;", "height 2: (adjustor a b 1 -2)"),
    (
        b"int a;int f();struct s{t a;};",
        "height 4: (global I32 a) (declare I32 f) (struct s [t a])",
    ),
    (b"/* none */ // here", "height 1:"),
];

/// Texts of no unit; some end too early.
pub static NO_UNITS: [Row; 78] = [
    (b";", "Syntax at 0"),
    (b"1", "Syntax at 0"),
    (b"(", "Syntax at 0"),
    (b"}", "Syntax at 0"),
    (b"static int a;", "Syntax at 0"),
    (b"const int a;", "Syntax at 0"),
    (b"float x;", "Syntax at 0"),
    (b"__unknown", "Syntax at 9"),
    (b"int", "Syntax at 3"),
    (b"int;", "Syntax at 3"),
    (b"int a", "Syntax at 5"),
    (b"int a b;", "Syntax at 6"),
    (b"int a=;", "Syntax at 6"),
    (b"int a={};", "Syntax at 7"),
    (b"int a={1;", "Syntax at 8"),
    (b"int a={1 2};", "Syntax at 9"),
    (b"int a={,", "Syntax at 7"),
    (b"int a=-a;", "Syntax at 7"),
    (b"int a=&1;", "Syntax at 7"),
    (b"int a=1+2;", "Syntax at 7"),
    (b"int a=(1);", "Syntax at 6"),
    (b"int a=a.1;", "Syntax at 8"),
    (b"int a[];", "Syntax at 6"),
    (b"int a[n];", "Syntax at 6"),
    (b"int a[1;", "Syntax at 7"),
    (b"int a=1,;", "Syntax at 8"),
    (b"extern int a=1;", "Syntax at 12"),
    (b"extern int a,b;", "Syntax at 12"),
    (b"extern int f(void);", "Syntax at 12"),
    (b"extern;", "Syntax at 6"),
    (b"struct s{};", "Syntax at 9"),
    (b"struct s{int a;}", "Syntax at 16"),
    (b"struct s{int a;}x;", "Syntax at 16"),
    (b"struct s{int;};", "Syntax at 12"),
    (b"struct s{int a=1;};", "Syntax at 14"),
    (b"struct s{int a}", "Syntax at 14"),
    (b"struct {int a;};", "Syntax at 7"),
    (b"struct s;", "Syntax at 8"),
    (b"struct s", "Syntax at 8"),
    (b"typedef int t;", "Syntax at 12"),
    (b"typedef int(f)(void);", "Syntax at 12"),
    (b"typedef int(*f);", "Syntax at 15"),
    (b"typedef int(*f)(void){}", "Syntax at 21"),
    (b"typedef", "Syntax at 7"),
    (b"int f(int a)int b;", "Syntax at 12"),
    (b"int f(int){}", "Syntax at 10"),
    (b"int f(int a,);", "Syntax at 12"),
    (b"int f(...);", "Syntax at 6"),
    (b"int f(int a,...,int b);", "Syntax at 15"),
    (b"int f(int a[2]);", "Syntax at 11"),
    (b"int f(void)", "Syntax at 11"),
    (b"int f(),g();", "Syntax at 7"),
    (b"int a,f();", "Syntax at 7"),
    (b"int*f()=1;", "Syntax at 7"),
    (b"int f(void{", "Syntax at 10"),
    (b"int f", "Syntax at 5"),
    (b"__adjustor =b,1,2;", "Syntax at 11"),
    (b"__adjustor a=b,-1,2;", "Syntax at 15"),
    (b"__adjustor a=b,1;", "Syntax at 16"),
    (b"__adjustor a=b,1,-x;", "Syntax at 18"),
    (b"__adjustor a;", "Syntax at 12"),
    (b"int main(void){return 0}", "Syntax at 23"),
    (b"int f(){", "Syntax at 8"),
    (b"int f(){{}", "Syntax at 10"),
    (b"int f(){}}", "Syntax at 9"),
    (b"int f(){};", "Syntax at 9"),
    (b"int f(){return", "Syntax at 14"),
    (b"int f(){return 0;", "Syntax at 17"),
    (b"int f(){if(a", "Syntax at 12"),
    (b"long x;", "Syntax at 5"),
    (b"unsigned long x;", "Syntax at 14"),
    (b"short long x;", "Syntax at 6"),
    (b"signed unsigned x;", "Syntax at 7"),
    (b"unsigned t x;", "Syntax at 11"),
    (b"long long long x;", "Syntax at 10"),
    (b"int int x;", "Syntax at 4"),
    (b"void int x;", "Syntax at 5"),
    (b"int a; /* c */ int", "Syntax at 18"),
];
