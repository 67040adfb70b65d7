// Specifiers, declarators, tags and entities (C11 6.2.2, 6.2.7, 6.7.1 to 6.7.8, 6.9).
// A row is a text and, on the lines behind it, what it is answered; a line that begins with two spaces goes on with the one before.
pub(crate) const DECLARATIONS: &str =
    "// type words in any order (6.7.2p2); char, signed char and unsigned char are three types (6.2.5p15)
unsigned char a;signed char b;char c;short d;unsigned short e;
a#15 ES uc
b#29 ES sc
c#36 ES c
d#44 ES s
e#61 ES us

int f;unsigned g;long h;unsigned long i;long long j;unsigned long long k;_Bool l;
f#5 ES i
g#16 ES u
h#23 ES l
i#39 ES ul
j#51 ES ll
k#72 ES ull
l#80 ES b

long unsigned int long a;int short signed b;signed c;long int d;
a#24 ES ull
b#43 ES s
c#52 ES i
d#63 ES l

float a;long double b;_Float128 c;__builtin_va_list d;
a#7 ES F
b#21 ES F
c#33 ES F
d#53 ES V

// qualifiers are dropped, and useless words are taken
const int*restrict volatile p;int;const long;
p#29 ES *i

// storage (6.7.1), and a typedef name, which is no object (6.7.8)
static int a;extern int b;int c;extern int d=1;
a#12 IS i
b#25 ED i
c#31 ES i
d#44 ES i = init d(=1:i)

void f(void){auto int a;register int b;static int c;extern int d;}
f#6 EF ()v = block[a,b]
a#23 LA i in f
b#38 LA i in f
c#51 LS i in f
d#64 ED i

typedef unsigned char T,*P;T a;P b;
a#30 ES uc
b#34 ES *uc

typedef int T;int f(void){T T;T=1;return T;}
f#19 EF ()i = block[T](expr(set(T:i 1:i)) return(get(T:i)))
T#29 LA i used 31 in f

int T;typedef int U;void f(int U){U=1;}
T#5 ES i
f#26 EF (i)v = block[](expr(set(U:i 1:i)))
U#32 LP i used 35 in f

_Alignas(8) int a;_Alignas(char) int b;_Alignas(0) int c;
a#17 ES i
b#38 ES i
c#56 ES i

unsigned long n=sizeof(_Alignas(8) int);int f(void){extern int g(void);return g();}
n#15 ES ul = init n(=4:ul)
f#45 EF ()i = block[](return(call:i(decay(g:()i))))
g#64 ED ()i used 79

_Static_assert(sizeof(int)==4,\"x\");struct s{int a;_Static_assert(1,\"x\");};
<struct s> a:i

// declarators from the outside in (6.7.6)
int*a[3],(*b)[3],**c,(*d)(void),*e(void);
a#5 ES [3]*i
b#12 ES *[3]i
c#20 ES **i
d#24 ES *()i
e#34 ED ()*i

int*(*a[3])(char,...),(*(*b)(int(*)[2]))[4],(((c)));
a#7 ES [3]*(c,...)*i
b#27 ES *(*[2]i)*[4]i
c#48 ES i

int(*f(void))[4],(*(*g(int))(long))[2][3];
f#6 ED ()*[4]i
g#22 ED (i)*(l)*[2][3]i

// lengths (6.7.6.2)
char a[3L],b['b'],c[sizeof(int)],d[1?2:1/0],e[(char)257],f[2][3];
a#6 ES [3]c
b#12 ES [98]c
c#19 ES [4]c
d#34 ES [2]c
e#45 ES [1]c
f#58 ES [2][3]c

char a[9223372036854775807],b[18446744073709551615u-18446744073709551614u];
a#6 ES [9223372036854775807]c
b#29 ES [1]c

int a[];static int b[];extern int c[][2];
a#5 ES []i
b#20 IS [1]i
c#35 ED [][2]i

// parameters of array and of function type are pointers, and void alone is none (6.7.6.3p7, p8, p10)
int f(int a[3],int b[],int c(char),int d[2][3]),g(int(int)),h(int[*],int[static 2]);
f#5 ED (*i,*i,*(c)i,*[3]i)i
g#49 ED (*(i)i)i
h#61 ED (*i,*i)i

typedef void V;int a(void),b(V),c(const void),d(),e(void x),f(int,...);
a#20 ED ()i
b#28 ED ()i
c#33 ED ()i
d#47 ED (?)i
e#51 ED (v)i
f#61 ED (i,...)i

int n;int f(int m,int a[m],int b[n*2],int c[const 3],int(d)[m],register int e);
n#5 ES i
f#11 ED (i,*i,*i,*i,*i,i)i

int f(int a[3],int b(void)){return a[0]+b();}
f#5 EF (*i,*()i)i = block[](return(plus:i(get(deref(move(get(a:*i) 0:i))) call:i(get(b:*()i)))))
a#11 LP *i used 36 in f
b#20 LP *()i used 41 in f

typedef int A[3];typedef int F(void);void f(A a,F b){}
f#43 EF (*i,*()i)v = block[]
a#47 LP *i in f
b#51 LP *()i in f

int f(){return 0;}int(g)(void){return 0;}int(*h(void))(int){return 0;}
f#5 EF (?)i = block[](return(0:i))
g#23 EF ()i = block[](return(0:i))
h#47 EF ()*(i)i = block[](return(null:*(i)i))

static inline int f(void){return 0;}inline int g(void);_Noreturn void h(void);
f#19 IF ()i = block[](return(0:i))
g#48 ED ()i
h#71 ED ()v

int f(struct s a,struct s*b);struct s;int g(struct s a){return 0;}struct s{int x;};
f#5 ED (S0,*S0)i
g#43 EF (S1)i = block[](return(0:i))
a#54 LP S1 in g
<> incomplete
<struct s> x:i

// type names (6.7.7)
unsigned long a=sizeof(int*[3]),b=sizeof(int(*)[3]),c=sizeof(int[3][4]),d=sizeof(int(*[2])(void));
a#15 ES ul = init a(=24:ul)
b#33 ES ul = init b(=8:ul)
c#53 ES ul = init c(=48:ul)
d#73 ES ul = init d(=16:ul)

unsigned long a=sizeof(struct{char c;long l;}),b=_Alignof(struct{char c;short s;}),c=_Alignof(int[3]);
a#15 ES ul = init a(=16:ul)
b#48 ES ul = init b(=2:ul)
c#84 ES ul = init c(=4:ul)
<> c:c l:l
<> c:c s:s

// structures, unions and their members (6.7.2.1)
struct s{char c;int*p,a[2];}x;union u{int a;char b;}y;
x#29 ES S0
y#53 ES U1
<struct s> c:c p:*i a:[2]i
<union u> a:i b:c

struct s{int a:3;unsigned b:5;int:0;int:4;_Bool c:1;long d:64;};
<struct s> a:i.3 b:u.5 :i.4 c:b.1 d:l.64

struct s{int n;int;struct t{int a;};union{int b;char c;};const struct{int d;};int e[];};
<struct t> a:i
<union struct s:1> b:i c:c
<struct struct s:2> d:i
<struct s> n:i :U1 :S2 e:[]i

struct s{struct s*next;struct t*other;int(*f)(struct s*);};struct t{struct s s;};
<struct s> next:*S0 other:*S1 f:*(*S0)i
<struct t> s:S0

struct s{;};struct s x,*y;
x#22 ES S0
y#25 ES *S0
<struct s>

struct s{int n;int a[];};union u{struct s s;int i;}x;
x#52 ES U1
<struct s> n:i a:[]i
<union u> s:S0 i:i

struct s{int a;struct{int a;};};
<struct struct s:1> a:i
<struct s> a:i :S0

// keys (6.7.2.3): a tag, the first name at file scope, or the place among the members; none in a block, a list or a type name
typedef struct{int a;}T,*P;struct{int b;}x,y;union{int c;}*z;
x#42 ES S1
y#44 ES S1
z#60 ES *U2
<struct :T> a:i
<struct :x> b:i
<union :z> c:i

void f(struct t*p){struct{int a;}x;struct s{int b;}y;}
f#6 EF (*S0)v = block[x,y]
p#17 LP *S0 in f
x#34 LA S1 in f
y#52 LA S2 in f
<> incomplete
<> a:i
<> b:i

unsigned long n=sizeof(struct{int a;});int a[sizeof(struct t{int x;})];struct{struct{int k;}m;}w;
n#15 ES ul = init n(=4:ul)
a#44 ES [4]i
w#96 ES S3
<> a:i
<struct t> x:i
<struct struct :w:0> k:i
<struct :w> m:S2

struct{int a;}x;extern struct{int b;}x;struct K{struct{int a;}p,q;};union U{struct{int a;}m;};
x#15 ES S0
x#38 ED S1
<struct :x> a:i
<> b:i
<struct struct K:0> a:i
<struct K> p:S2 q:S2
<struct union U:0> a:i
<union U> m:S4

// tags in their scopes
struct s;struct s*p;struct s{int a;};void f(void){struct s;struct s*q;struct s{char b;};struct s x;x.b=1;}
p#19 ES *S0
f#43 EF ()v = block[q,x](expr(set(.0(x:S1) conv:c(1:i))))
q#69 LA *S1 in f
x#98 LA S1 used 100 in f
<struct s> a:i
<> b:c

struct s{int a;};void f(void){struct s x;{struct s{long b;}y;y.b=x.a;}}
f#23 EF ()v = block[x](block[y](expr(set(.0(y:S1) conv:l(get(.0(x:S0)))))))
x#40 LA S0 used 66 in f
y#60 LA S1 used 62 in f
<struct s> a:i
<> b:l

// enumerations (6.7.2.2): an enumerator is one more than the one before
enum e{A,B=5,C,D=-1,E}x;int a[C],b=D,c=E,d=A;
x#23 ES i
a#29 ES [6]i
b#34 ES i = init b(=-1:i)
c#38 ES i = init c(=0:i)
d#42 ES i = init d(=0:i)

enum{A=2147483647,B=-2147483647-1,};enum e{C=A-1,D};enum e x=D;
x#60 ES i = init x(=2147483647:i)

enum{A='a',B=sizeof(int),C=1<<4};int a[A],b[B],c[C];
a#38 ES [97]i
b#43 ES [4]i
c#48 ES [16]i

// linkage (6.2.2): one entity for an internal name, at its definition, and one for each declaration of an external one
static int x;extern int x;int f(void){return x;}
x#12 IS i used 46
f#31 EF ()i = block[](return(get(x:i)))

static int f(void);int g(void){return f();}int f(void){return 1;}
g#24 EF ()i = block[](return(call:i(decay(f:()i))))
f#48 IF ()i used 39 = block[](return(1:i))

static int x;static int x=1;static int x;
x#25 IS i = init x(=1:i)

static int x;static int x;
x#12 IS i

int x;int x=1;extern int x;
x#5 ES i
x#11 ES i = init x#11(=1:i)
x#26 ED i

static int x;int f(void){extern int x;return x;}
x#12 IS i used 46
f#18 EF ()i = block[](return(get(x:i)))

// two linkages, but not in one scope
void f(void){extern int x;}static int x;
f#6 EF ()v = block[]
x#25 ED i
x#39 IS i

// the name in between has no linkage, so the inner declaration is of an external name (6.2.2p4)
static int x;int f(void){int x;{extern int x;return x;}}
x#12 IS i
f#18 EF ()i = block[x#30](block[](return(get(x#44:i))))
x#30 LA i in f
x#44 ED i used 53

int x;int f(void){extern int x;return x;}
x#5 ES i
f#11 EF ()i = block[](return(get(x#30:i)))
x#30 ED i used 39

// the types of a name's declarations together (6.2.7p3, p4)
extern int a[];extern int a[3];extern int a[];int f(void){return a[1];}
a#12 ED []i
a#27 ED [3]i
a#43 ED []i used 66
f#51 EF ()i = block[](return(get(deref(move(decay(a#43:[3]i) 1:i)))))

void g(int);void g();int f(void){g(1L);return 0;}
g#6 ED (i)v
g#18 ED (?)v used 34
f#26 EF ()i = block[](expr(call:v(decay(g#18:(i)v) conv:i(1:l))) return(0:i))

static int a[];static int a[3];static int b[];int f(void){return sizeof a;}
a#12 IS [3]i
b#43 IS [1]i
f#51 EF ()i = block[](return(conv:i(12:ul)))

static int f();static int f(int);int g(void){return f(1L);}static int f(int a){return a;}
g#38 EF ()i = block[](return(call:i(decay(f:(i)i) conv:i(1:l))))
f#71 IF (i)i used 53 = block[](return(get(a:i)))
a#77 LP i used 87 in f

// a definition with an empty list keeps it, and calls go by the list that is seen
static int f(int);static int f(){return 0;}int g(void){return f(1L);}
f#30 IF (?)i used 63 = block[](return(0:i))
g#48 EF ()i = block[](return(call:i(decay(f:(i)i) conv:i(1:l))))

int x;long x;int f(void){return x;}
x#5 ES i
x#12 ES l used 33
f#18 EF ()i = block[](return(conv:i(get(x#12:l))))

void*a[2];void*a[]={a,a};
a#6 ES [2]*v used 21
a#16 ES [2]*v = init a#16([0]=conv:*v(decay(a#6:[2]*v)) [1]=conv:*v(decay(a#6:[2]*v)))

void*b[]={b,b};
b#6 ES [2]*v used 11 = init b([0]=conv:*v(decay(b:[]*v)) [1]=conv:*v(decay(b:[]*v)))

// an array without a length has the length that is seen of its name (6.2.7p4); a declaration in a block isn't seen behind it
extern int a[3];int a[]={1,2};
a#12 ED [3]i
a#21 ES [3]i = init a#21([0]=1:i [1]=2:i)

static int a[3];static int a[]={1,2};int f(void){return sizeof a;}
a#28 IS [3]i = init a([0]=1:i [1]=2:i)
f#42 EF ()i = block[](return(conv:i(12:ul)))

extern int a[3];void f(void){extern int a[];}int a[]={1,2};
a#12 ED [3]i
f#22 EF ()v = block[]
a#41 ED []i
a#50 ES [3]i = init a#50([0]=1:i [1]=2:i)

typedef int T;typedef int T;T x;void f(void){typedef char T;T y;}
x#31 ES i
f#38 EF ()v = block[y]
y#63 LA c in f

// completeness
extern void v;extern struct s x;struct t y;struct t{int a;};void f(void){extern struct s z;}
v#13 ED v
x#31 ED S0
y#42 ES S1
f#66 EF ()v = block[]
z#90 ED S0
<struct s> incomplete
<struct t> a:i

int f(int a){return f(a);}
f#5 EF (i)i used 21 = block[](return(call:i(decay(f:(i)i) get(a:i))))
a#11 LP i used 23 in f";
