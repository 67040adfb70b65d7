// What is refused of declarations, by kind and column.
// A row is a text and, on the lines behind it, what it is answered; a line that begins with two spaces goes on with the one before.
pub(crate) const REFUSALS: &str = "// specifiers
static extern int x;
operand 1

auto int x;
operand 1

register int f(void){return 0;}
operand 1

typedef static int T;
operand 1

struct s{static int x;};
operand 10

struct s{inline int f(void);};
operand 10

unsigned long n=sizeof(int static);
operand 24

unsigned long n=sizeof(static int);
malformed 24

int f(static int x);
operand 7

int f(inline int x);
operand 7

int f(typedef int x);
operand 7

int f(auto int x);
operand 7

inline struct s{int a;};
operand 1

_Noreturn int;
operand 1

static extern int x[0];
operand 1

inline int x;
operand 12

inline typedef int F(void);
operand 20

typedef int T=1;
operand 13

int f(void)=1;
operand 5

int f(void){extern int x=1;return 0;}
operand 24

int g(void){static int f(void);return 0;}
operand 24

int g(void){auto int f(void);return 0;}
operand 22

typedef int f(void){return 0;}
operand 13

int f(void){for(typedef int T;;);}
operand 29

int f(void){for(int g(void);;);}
operand 21

int f(void){for(static int i;;);}
operand 28

int f(void){for(extern int i;;);}
operand 28

long float x;
malformed 6

int double x;
malformed 5

unsigned signed x;
malformed 10

x;
malformed 1

static const x;
malformed 14

_Complex double x;
complex 1

_Thread_local int x;
thread-local 1

typeof(int) x;
typeof 1

_Atomic int x;
atomic 1

__int128 x;
wide-integer 1

// alignments and assertions
int n;_Alignas(n) int x;
constant 16

_Alignas(struct s) int x;
operand 1

_Alignas(void) int x;
operand 1

_Alignas(1/0) int x;
divide-by-zero 11

_Static_assert(0,\"x\");
operand 1

int n;_Static_assert(n,\"x\");
constant 22

struct s{int a;_Static_assert(0,\"x\");};
operand 16

int f(void){_Static_assert(1>2,\"x\");return 0;}
operand 13

// arrays
int a[0];
operand 6

int a[-1];
operand 6

int*p;int a[p];
operand 12

int a[1.5];
floating 7

int n;int a[n];
vla 12

void f(int n){int a[n];}
vla 20

int a[1/0];
divide-by-zero 8

int a[1<<31];
constant-range 8

int a[2147483647+1];
constant-range 17

int a[*];
vla 6

int a[static 3];
operand 6

int a[const 3];
operand 6

int f(int n,int a[2][n]);
vla 21

int f(int a[2][*]);
vla 15

int f(int a[2][static 3]);
operand 15

int f(int (*a)[static 3]);
operand 15

int f(int a[0]);
operand 12

int n;unsigned long m=sizeof(int[n]);
vla 33

void f(int n){typedef int T[n];}
vla 28

int n;struct s{int a[n];};
vla 21

struct s a[2];
operand 10

struct s a[2];struct s{int x;};
operand 10

void a[2];
operand 6

int a[][];
operand 5

int a[2][];
operand 5

int a[2](void);
operand 5

struct s{int n;int a[];};struct s x[2];
operand 35

union u{struct s{int n;int a[];}s;};union u x[2];
operand 45

char a[9223372036854775808u];
operand 6

char (*p)[9223372036854775807][2];
operand 8

unsigned long n=sizeof(char(*)[9223372036854775807][2]);
operand 28

// functions
int f(void)[2];
operand 5

int f(void)(void);
operand 5

int f(void,int);
operand 7

int f(int,void);
operand 11

int f(int,const void);
operand 11

int f(void a){return 0;}
operand 12

int f(int){return 0;}
operand 7

int f(struct s a){return 0;}
operand 16

int f(a);
old-parameters 7

int f(...);
malformed 7

int f(int a,int a);
redeclared 17

inline int f(void){return 0;}
inline-definition 12

static inline int f(void);inline int f(void){return 0;}
inline-definition 38

extern inline int f(void){return 0;}
inline-definition 19

typedef int F(void);F f{return 0;}
malformed 24

struct s f(void){}
operand 10

// structures, unions and their members
struct s{int a;char a;};
operand 21

struct s{struct t a;};
operand 19

struct s{struct s a;};
operand 19

struct s{void a;};
operand 15

struct s{int f(void);};
operand 14

struct s{int a[];};
operand 14

struct s{int a[];int n;};
operand 14

union u{int n;int a[];};
operand 19

struct s{int n;int a[];};struct t{int k;struct s s;};
operand 50

struct s{int n;int a[];};union u{struct s s;};struct t{union u u;};
operand 64

struct s{int a:33;};
operand 14

struct s{int :33;};
operand 14

struct s{char c:9;};
operand 15

struct s{_Bool b:9;};
operand 16

struct s{int a:-1;};
operand 14

struct s{int a:0;};
operand 14

struct s{float a:3;};
operand 16

struct s{int*a:3;};
operand 14

int n;struct s{int a:n;};
constant 22

struct s{int a:1/0;};
divide-by-zero 17

struct s{};
malformed 10

struct s{const;};
malformed 15

struct s{int a;};struct s{int b;};
operand 25

struct s{int a;};union s*p;
operand 24

struct s{int a;};enum s x;
operand 23

enum s{A};struct s*p;
operand 18

union s{int(*b)(struct s*);}w;
operand 24

struct s{char a[9223372036854775807];char b;};
operand 1

struct s{char a[9223372036854775807],b;}*p;
operand 1

// a tree of 2^24 - 1 nodes, and one of 2^25 - 1
struct a{int x,y;};struct b{struct a x,y;}; struct c{struct b x,y;}; struct d{struct c x,y;}; struct e{struct d x,y;}; struct
  f{struct e x,y;}; struct g{struct f x,y;}; struct h{struct g x,y;}; struct i{struct h x,y;}; struct j{struct i x,y;}; struct
  k{struct j x,y;}; struct l{struct k x,y;}; struct m{struct l x,y;}; struct n{struct m x,y;}; struct o{struct n x,y;}; struct
  p{struct o x,y;}; struct q{struct p x,y;}; struct r{struct q x,y;}; struct s{struct r x,y;}; struct t{struct s x,y;}; struct
  u{struct t x,y;}; struct v{struct u x,y;}; struct w{struct v x,y;}; struct x{struct w x,y;};
operand 570

// enumerations
enum{A=2147483647,B};
operand 19

enum{A=2147483648};
operand 6

enum{A=-2147483649};
operand 6

int n;enum{A=n};
constant 14

enum{A=1/0};
divide-by-zero 9

enum{A,A};
redeclared 8

enum{A=A};
undeclared 8

enum e x;
undeclared 6

enum e{A};enum e{B};
operand 16

enum{};
malformed 6

// names
extern int x;static int x;
operand 25

int x;static int x;
operand 18

static int x;int x;
operand 18

int f(void);static int f(void);
operand 24

typedef int T;typedef char T;
operand 28

typedef int T[];typedef int T[3];
operand 29

int f(void){typedef int T;typedef int*T;return 0;}
operand 39

typedef int T;int T;
redeclared 19

static int x=1;static int x=2;
operand 27

static int f(void){return 0;}static int f(void){return 0;}
operand 41

static int x;static long x;
operand 26

static int x;void f(void){extern long x;}
operand 39

static int f(int);static int f(long);
operand 30

static int a[2];extern int a[3];
operand 28

static int a[];static int a[3];static int a[4];
operand 43

extern int a[3];int a[]={1,2,3,4};
initialiser 32

static int a[2];static int a[]={1,2,3};
initialiser 37

int f(void){int x;int x;return 0;}
redeclared 23

int f(void){struct s x;return 0;}
operand 22

struct s x;
operand 10

static struct s x;
operand 17

void v;
operand 6

int f(void){int a[];return 0;}
operand 17

int f(void){static int a[];return 0;}
operand 24

extern struct s x;void f(void){x;}
operand 32

struct s f(void);void g(void){f();}
operand 32

// the length that an initialiser gives counts for the limit of sizes
char a[][4611686018427387904]={{1},{1}};
operand 6

extern int a[];int n=sizeof a;
operand 22

int x=y;
undeclared 7

// initialisers
int a[2]={1,2,3};
initialiser 15

int x={{5}};
initialiser 8

int x={1,2};
initialiser 10

char s[1]=\"ab\";
initialiser 11

char s[]={\"ab\",\"cd\"};
operand 11

int a[]=\"ab\";
initialiser 9

int a[2]=1;
initialiser 10

int a[2];int f(void){int b[2]=a;return 0;}
initialiser 31

struct s{int a;}x=1;
initialiser 19

struct s{int n;int a[];}x={1,2};
initialiser 30

struct s{int n;int a[];}x={1,{2}};
initialiser 30

int a[2]={[2]=1};
initialiser 11

int a[2]={[-1]=1};
initialiser 11

char a[]={[9223372036854775808u]=1};
initialiser 11

struct s{int a;}x={.b=1};
initialiser 20

int x={.a=1};
initialiser 8

int x={[0]=1};
initialiser 8

struct s{int a;}x={[0]=1};
initialiser 20

int a[2]={.a=1};
initialiser 11

struct s{int a;}x={.a.b=1};
initialiser 22

int n;int a[3]={[n]=1};
constant 18

int a[3]={[1/0]=1};
divide-by-zero 13

int a[3]={[0 ...1]=1};
range 14

extern struct s x={1};
operand 17

struct s x={1};struct s{int a;};
initialiser 12

int n;int m=n;
operand 13

int*p=1;
number-to-pointer 7

double d=1;
operand 10

double d;double e=d;
floating 19

// lists: a start names the last parameter, in a variadic function
void f(int n,...){__builtin_va_list a;__builtin_va_start(a,a);}
operand 39

void f(int n){__builtin_va_list a;__builtin_va_start(a,n);}
operand 35

void f(int n,int m,...){__builtin_va_list a;__builtin_va_start(a,n);}
operand 45

void f(double d,...){__builtin_va_list a;__builtin_va_start(a,d);}
floating 63

void f(int n,...){__builtin_va_list a;__builtin_va_arg(a,double);}
floating 39

struct s{int x;};void f(int n,...){__builtin_va_list a;__builtin_va_arg(a,struct s);}
operand 56

void f(int n,...){__builtin_va_arg(n,int);}
operand 19

void f(int n){__builtin_va_list a;__builtin_va_copy(a,n);}
operand 35

void f(int n){__builtin_va_end(n);}
operand 15

void f(void){__builtin_va_end;}
malformed 30

void f(void){__builtin_expect(1,2);}
builtin 14

int x;unsigned long u=(unsigned long)&x;
operand 23

int*p=1?0:(int*)0;
operand 8

int x=\"a\";
operand 7

struct s{int a;}x;struct t{int b;}*p=&x;
structure-cast 38

struct s{int a;}x;char*p=&x;
character-cast 26

int n;long*p=&n;
integer-size-cast 14

int n;int*p=(int[]){n};
operand 21

int f(void);int x=f();
operand 20

int f(int n){static int x=n;return 0;}
operand 27

int a[1]={1,2,*3};
operand 15

int*p=(struct s){1};
initialiser 17

int a[2]={1,{2,3}};
initialiser 16

int f(void){return 0;}int x=f;
operand 29";
