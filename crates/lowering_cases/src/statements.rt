// Statements (C11 6.8).
// A row is a text and, on the lines behind it, what it is answered; a line that begins with two spaces goes on with the one before.
pub(crate) const STATEMENTS: &str = "int f(void){;{}{;}return 0;}
f#5 EF ()i = block[](skip block[] block[](skip) return(0:i))

int x;int f(void){x;x=1;return x;}
x#5 ES i used 19
f#11 EF ()i = block[](expr(get(x:i)) expr(set(x:i 1:i)) return(get(x:i)))

// operations on variadic lists, whose own names aren't uses; the parameter's name leaves no node
int*f(int n,...){__builtin_va_list a,b;__builtin_va_start(a,(n));__builtin_va_copy(b,a);__builtin_va_end(a);return __builtin_va_arg(b,int*);}
f#5 EF (i,...)*i = block[a,b](expr(conv:v(set(a:V further f))) expr(conv:v(set(b:V get(a:V)))) expr(conv:v(addr(a:V)))
  return(next:*i(b:V)))
n#11 LP i in f
a#36 LA V used 59 in f
b#38 LA V used 84 in f

// the else goes with the nearer if
int a,b,x;int f(void){if(a)if(b)x=1;else x=2;return 0;}
a#5 ES i used 26
b#7 ES i used 31
x#9 ES i used 33
f#15 EF ()i = block[](if(get(a:i) if(get(b:i) expr(set(x:i 1:i)) expr(set(x:i 2:i)))) return(0:i))

int a,x;int f(void){if(a){if(x)x=1;}else x=2;return 0;}
a#5 ES i used 24
x#7 ES i used 30
f#13 EF ()i = block[](if(get(a:i) block[](if(get(x:i) expr(set(x:i 1:i)))) expr(set(x:i 2:i))) return(0:i))

int a,x;void f(void){while(a)x=1;do x=2;while(a);}
a#5 ES i used 28
x#7 ES i used 30
f#14 EF ()v = block[](while(get(a:i) expr(set(x:i 1:i))) do(expr(set(x:i 2:i)) get(a:i)))

// a for: first part, condition, what is done after, body
int x;void f(int i){for(i=0;i<3;i++)x=i;}
x#5 ES i used 37
f#12 EF (i)v = block[](for[]ca(expr(set(i:i 0:i)) lt:i(get(i:i) 3:i) post plus(i:i 1:i) expr(set(x:i get(i:i)))))
i#18 LP i used 25 in f

void f(void){for(int i=0,j=1;i;)j=2;}
f#6 EF ()v = block[](for[i,j]c(init i(=0:i) init j(=1:i) get(i:i) expr(set(j:i 2:i))))
i#22 LA i used 30 in f = init i(=0:i)
j#26 LA i used 33 in f = init j(=1:i)

void f(void){for(;;);for(int i;;)break;for(;;1);for(;1;)continue;}
f#6 EF ()v = block[](for[](skip) for[i](break) for[]a(1:i skip) for[]c(1:i continue))
i#30 LA i in f

void f(int n){switch(n){case 1:n=2;case -1:break;default:n=3;}}
f#6 EF (i)v = block[](switch(get(n:i) block[](case 1(expr(set(n:i 2:i))) case -1(break) default(expr(set(n:i 3:i))))))
n#12 LP i used 22 in f

// a switch's value is promoted, and a case's value is converted to that type (6.8.4.2p5)
void f(char c){switch(c){case 4294967297:;}}
f#6 EF (c)v = block[](switch(conv:i(get(c:c)) block[](case 1(skip))))
c#13 LP c used 23 in f

void f(long l){switch(l){case 4294967297:;case 1:;}}
f#6 EF (l)v = block[](switch(get(l:l) block[](case 4294967297(skip) case 1(skip))))
l#13 LP l used 23 in f

void f(unsigned u){switch(u){case -1:;}}
f#6 EF (u)v = block[](switch(get(u:u) block[](case 4294967295(skip))))
u#17 LP u used 27 in f

// the cases of an inner switch are its own
void f(int n){switch(n){case 1:switch(n){case 1:;default:;}default:;}}
f#6 EF (i)v = block[](switch(get(n:i) block[](case 1(switch(get(n:i) block[](case 1(skip) default(skip)))) default(skip))))
n#12 LP i used 22 in f

void f(int n){switch(n)case 1:case 2:n=1;}
f#6 EF (i)v = block[](switch(get(n:i) case 1(case 2(expr(set(n:i 1:i))))))
n#12 LP i used 22 in f

void f(void){a:b:;goto b;c:goto a;}
f#6 EF ()v = block[](label a(label b(skip)) goto b label c(goto a))

void f(int n){while(n){if(n)continue;break;}do{switch(n){case 1:continue;}break;}while(0);}
f#6 EF (i)v = block[](while(get(n:i) block[](if(get(n:i) continue) break)) do(block[](switch(get(n:i) block[](case 1(continue)))
  break) 0:i))
n#12 LP i used 21 in f

// what is returned is converted to the function's result (6.8.6.4p3)
char f(void){return 300;}
f#6 EF ()c = block[](return(conv:c(300:i)))

long g(void){int i=1;return i;}
g#6 EF ()l = block[i](init i(=1:i) return(conv:l(get(i:i))))
i#18 LA i used 29 in g = init i(=1:i)

int*f(void){return 0;}
f#5 EF ()*i = block[](return(null:*i))

void g(void){return;}void f(void){return g();}
g#6 EF ()v used 42 = block[](return)
f#27 EF ()v = block[](return(call:v(decay(g:()v))))

int f(void){return;}
f#5 EF ()i = block[](return)

struct s{int a;}x;struct s f(void){return x;}
x#17 ES S0 used 43
f#28 EF ()S0 = block[](return(get(x:S0)))
<struct s> a:i

// an automatic object is listed by its block, and its initialiser stands where it is declared
int f(void){int a=1;a=2;int b=a;{int c;}return b;}
f#5 EF ()i = block[a,b](init a(=1:i) expr(set(a:i 2:i)) init b(=get(a:i)) block[c] return(get(b:i)))
a#17 LA i used 21 in f = init a(=1:i)
b#29 LA i used 48 in f = init b(=get(a:i))
c#38 LA i in f

// a static object is listed by no block, and is initialised in none
int f(void){static int n=1;static int m;n=m;return n;}
f#5 EF ()i = block[](expr(set(n:i get(m:i))) return(get(n:i)))
n#24 LS i used 41 in f = init n(=1:i)
m#39 LS i used 43 in f

// what declares no object leaves nothing in its block
int f(void){typedef int T;extern int x;int g(void);struct s{T a;};enum{A=2};_Static_assert(1,\"x\");return A;}
f#5 EF ()i = block[](return(2:i))
x#38 ED i
g#44 ED ()i
<> a:i

int f(int a){{int a=2;{int a=3;}a=4;}return a;}
f#5 EF (i)i = block[](block[a#19](init a#19(=2:i) block[a#28](init a#28(=3:i)) expr(set(a#19:i 4:i))) return(get(a#11:i)))
a#11 LP i used 45 in f
a#19 LA i used 33 in f = init a#19(=2:i)
a#28 LA i in f = init a#28(=3:i)

void f(void){for(int i=0;i;){int i=1;i=2;}}
f#6 EF ()v = block[](for[i#22]c(init i#22(=0:i) get(i#22:i) block[i#34](init i#34(=1:i) expr(set(i#34:i 2:i)))))
i#22 LA i used 26 in f = init i#22(=0:i)
i#34 LA i used 38 in f = init i#34(=1:i)

void f(void){void;f();(void)0;}
f#6 EF ()v used 19 = block[](expr(call:v(decay(f:()v))) expr(conv:v(0:i)))

// the places: a statement's keyword, the brace, an expression's own token
@int f(int n){while(n)n=1;do n--;while(n);return n;}
f#5 EF (i)i = block[]@13(while@14(get@20(n:i@20) expr@23(set@23(n:i@22 1:i@24))) do@26(expr@30(post minus@30(n:i@29 1:i@30))
  get@39(n:i@39)) return@42(get@49(n:i@49)))
n#11 LP i used 20 in f

@void f(int n){switch(n){case 1:;default:break;}if(n)n;else;l:goto l;}
f#6 EF (i)v = block[]@14(switch@15(get@22(n:i@22) block[]@24(case 1@25(skip@32) default@33(break@41))) if@48(get@51(n:i@51)
  expr@53(get@53(n:i@53)) skip@59) label l@60(goto l@62))
n#12 LP i used 22 in f

@char f(void){int a[]={1,'b'};return a[0];}
f#6 EF ()c = block[a]@13(init a@22([0]=1:i@23 [1]=98:i@25) return@30(conv:c@38(get@38(deref@38(move@38(decay@37(a:[2]i@37)
  0:i@39))))))
a#18 LA [2]i used 37 in f = init a@22([0]=1:i@23 [1]=98:i@25)

// refusals of statements
void f(void){break;}
operand 14

void f(int n){switch(n){case 1:continue;}}
operand 32

void f(void){continue;}
operand 14

void f(void){case 1:;}
operand 14

void f(void){default:;}
operand 14

void f(int n){while(n){case 1:;}}
operand 24

void f(int n){switch(n){case 1:;case 1:;}}
operand 33

void f(int n){switch(n){case 0:;case 4294967296:;}}
operand 33

void f(int n){switch(n){case 1:case 1:;}}
operand 25

void f(int n){switch(n){default:;default:;}}
operand 34

void f(int n){switch(n){case n:;}}
constant 30

void f(int n){switch(n){case 1/0:;}}
divide-by-zero 31

void f(int*p){switch(p){}}
operand 15

void f(int*p){switch(p){case 1:;case 1:;}}
operand 15

struct s{int a;}x;void f(void){if(x);}
operand 32

struct s{int a;}x;void f(void){while(x);}
operand 32

struct s{int a;}x;void f(void){do;while(x);}
operand 32

struct s{int a;}x;void f(void){for(;x;);}
operand 32

void f(void){if(f());}
operand 14

double g(void);void f(void){if(g());}
floating 33

void f(void){return 1;}
operand 14

int f(int*p){return p;}
operand 14

int*f(int n){return n;}
number-to-pointer 14

struct s{int a;}x;struct t{int b;}f(void){return x;}
operand 43

struct s{int a;}*p;struct t{int b;}*f(void){return p;}
structure-cast 45

void g(void);void f(void){while(g());}
operand 27

void f(void){if(1)case 1:;}
operand 19

void f(int n){for(;;)switch(n){default:if(n)default:;}}
operand 32

void g(void);int f(void){return g();}
operand 26

int f(void){goto l;}
undeclared 18

int f(void){l:;}int g(void){goto l;}
undeclared 34

int f(void){l:;l:;}
redeclared 16

void f(void){for(int i;;);i;}
undeclared 27

void f(void){int a;int a;}
redeclared 24

void f(int a){int a;}
redeclared 19

void f(void){if(1)int x;}
malformed 19

void f(void){else;}
malformed 14

void f(int n){switch(n){case 1 ...2:;}}
range 32

void f(void){int l;goto l;}
undeclared 25";
