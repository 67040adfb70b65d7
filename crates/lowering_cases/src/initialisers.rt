// Initialisers (C11 6.7.9).
// A row is a text and, on the lines behind it, what it is answered; a line that begins with two spaces goes on with the one before.
pub(crate) const INITIALISERS: &str = "// a designator, and the length that it leads to (6.7.9p22)
int a[]={[2]=5,6};
a#5 ES [4]i = init a([2]=5:i [3]=6:i)

int a[2]={1,2,3};
initialiser 15

int a[3]={1},b[]={},c[]={1,2,3,},d[2]={1,2};
a#5 ES [3]i = init a([0]=1:i)
b#14 ES [0]i = init b
c#21 ES [3]i = init c([0]=1:i [1]=2:i [2]=3:i)
d#34 ES [2]i = init d([0]=1:i [1]=2:i)

int a[]={[3]=1,[1]=2,3},b[]={[0]=1,2,[1]=3},c[2]={[1]=7};
a#5 ES [4]i = init a([3]=1:i [1]=2:i [2]=3:i)
b#25 ES [2]i = init b([0]=1:i [1]=3:i)
c#45 ES [2]i = init c([1]=7:i)

// braces that are left out (6.7.9p20)
int m[2][2]={1,2,3,4},n[2][2]={{1},{2,3}},k[][2]={1,2,3},l[][2]={{1},{2},3,4};
m#5 ES [2][2]i = init m([0][0]=1:i [0][1]=2:i [1][0]=3:i [1][1]=4:i)
n#23 ES [2][2]i = init n([0][0]=1:i [1][0]=2:i [1][1]=3:i)
k#43 ES [2][2]i = init k([0][0]=1:i [0][1]=2:i [1][0]=3:i)
l#58 ES [3][2]i = init l([0][0]=1:i [1][0]=2:i [2][0]=3:i [2][1]=4:i)

struct s{int a;struct{int b,c;}t;int d;}x={1,2,3,4},y={1,{2},4},z={.t={.c=5},6};
x#41 ES S1 = init x(.0=1:i .1.0=2:i .1.1=3:i .2=4:i)
y#53 ES S1 = init y(.0=1:i .1.0=2:i .2=4:i)
z#65 ES S1 = init z(.1.1=5:i .2=6:i)
<struct struct s:1> b:i c:i
<struct s> a:i t:S0 d:i

struct s{int a;struct{int b,c;}t;int d;}x={.t.c=5,6},y={.d=1,.a=2,3};
x#41 ES S1 = init x(.1.1=5:i .2=6:i)
y#54 ES S1 = init y(.2=1:i .0=2:i .1.0=3:i)
<struct struct s:1> b:i c:i
<struct s> a:i t:S0 d:i

struct s{int a,b;}x[2]={[1].b=3},y[]={[1]={1,2},3,[0].a=4},z[2]={1,2,3};
x#19 ES [2]S0 = init x([1].1=3:i)
y#34 ES [3]S0 = init y([1].0=1:i [1].1=2:i [2].0=3:i [0].0=4:i)
z#60 ES [2]S0 = init z([0].0=1:i [0].1=2:i [1].0=3:i)
<struct s> a:i b:i

struct s{int a[2],b;}x={.a[1]=1,2},y={{1,2},3},z={.a={[1]=4}};
x#22 ES S0 = init x(.0[1]=1:i .1=2:i)
y#36 ES S0 = init y(.0[0]=1:i .0[1]=2:i .1=3:i)
z#48 ES S0 = init z(.0[1]=4:i)
<struct s> a:[2]i b:i

// members without a name, and their members by their own names (6.7.2.1p13)
struct s{struct{int a,b;};int c;}x={1,2,3},y={.b=1,2},z={{1},2};
x#34 ES S1 = init x(.0.0=1:i .0.1=2:i .1=3:i)
y#44 ES S1 = init y(.0.1=1:i .1=2:i)
z#55 ES S1 = init z(.0.0=1:i .1=2:i)
<struct struct s:0> a:i b:i
<struct s> :S0 c:i

// strings (6.7.9p14): an item for each element that one fills, with its closing zero where there is room
char a[]=\"ab\",b[2]=\"ab\",c[5]=\"ab\",d[]={\"a\"},e[]=(\"a\"),f[]=\"\";
a#6 ES [3]c = init a([0]=97:c [1]=98:c [2]=0:c)
b#15 ES [2]c = init b([0]=97:c [1]=98:c)
c#25 ES [5]c = init c([0]=97:c [1]=98:c [2]=0:c)
d#35 ES [2]c = init d([0]=97:c [1]=0:c)
e#45 ES [2]c = init e([0]=97:c [1]=0:c)
f#55 ES [1]c = init f([0]=0:c)

unsigned char u[]=\"a\";signed char v[]=\"\\xff\";char w[]=\"a\" \"b\";
u#15 ES [2]uc = init u([0]=97:uc [1]=0:uc)
v#35 ES [2]sc = init v([0]=-1:sc [1]=0:sc)
w#51 ES [3]c = init w([0]=97:c [1]=98:c [2]=0:c)

char a[][2]={\"a\",'b',0,\"c\"};struct s{char n[2];int k;}x={\"a\",1},y[]={{\"b\"},\"c\",2};
a#6 ES [3][2]c = init a([0][0]=97:c [0][1]=0:c [1][0]=conv:c(98:i) [1][1]=conv:c(0:i) [2][0]=99:c [2][1]=0:c)
x#55 ES S0 = init x(.0[0]=97:c .0[1]=0:c .1=1:i)
y#65 ES [2]S0 = init y([0].0[0]=98:c [0].0[1]=0:c [1].0[0]=99:c [1].0[1]=0:c [1].1=2:i)
<struct s> n:[2]c k:i

char*p=\"a\",*q[]={\"b\",0},*r=\"cd\"+1;
p#6 ES *c = init p(=decay('a'))
q#13 ES [2]*c = init q([0]=decay('b') [1]=null:*c)
r#26 ES *c = init r(=move(decay('cd') 1:i))

int f(void){char s[]=__func__;return 0;}
f#5 EF ()i = block[s](init s([0]=102:c [1]=0:c) return(0:i))
s#18 LA [2]c in f = init s([0]=102:c [1]=0:c)

// scalars, in braces or none (6.7.9p11), and empty braces
int a={5},b={},c={6,};int*p={0};
a#5 ES i = init a(=5:i)
b#11 ES i = init b
c#16 ES i = init c(=6:i)
p#27 ES *i = init p(=null:*i)

// an item that a later one replaces is gone (6.7.9p19); one for a part leaves an earlier whole
int a[]={1,2,[0]=9},b[3]={[1]=1,[1]=2,[1]=3};
a#5 ES [2]i = init a([1]=2:i [0]=9:i)
b#21 ES [3]i = init b([1]=3:i)

struct s{int a,b;};struct{struct s s;int c;}x={.s={1,2},.s={3}},y={1,.s={.b=4},5};
x#45 ES S1 = init x(.0.0=3:i)
y#65 ES S1 = init y(.0.1=4:i .1=5:i)
<struct s> a:i b:i
<struct :x> s:S0 c:i

struct s{int a,b;};int f(struct s v){struct{struct s s;}x={.s.a=1,.s=v},y={.s=v,.s.a=1},z={v};return 0;}
f#24 EF (S0)i = block[x,y,z](init x(.0=get(v:S0)) init y(.0=get(v:S0) .0.0=1:i) init z(.0=get(v:S0)) return(0:i))
v#35 LP S0 used 70 in f
x#57 LA S1 in f = init x(.0=get(v:S0))
y#73 LA S1 in f = init y(.0=get(v:S0) .0.0=1:i)
z#89 LA S1 in f = init z(.0=get(v:S0))
<struct s> a:i b:i
<> s:S0

// what is replaced is typed, and leaves no use
int f(void);void g(int n){int a[1]={n,[0]=2};}
f#5 ED ()i
g#18 EF (i)v = block[a](init a([0]=2:i))
n#24 LP i in g
a#31 LA [1]i in g = init a([0]=2:i)

// a union takes its first member, or the one that is named
union u{int a;char c;}x={1},y={.c=2},z={.a=1,.c=2};
x#23 ES U0 = init x(.0=1:i)
y#29 ES U0 = init y(.1=conv:c(2:i))
z#38 ES U0 = init z(.0=1:i .1=conv:c(2:i))
<union u> a:i c:c

// bit-fields without a name and flexible arrays are passed over (6.7.9p9)
struct s{int a:2,:3,b;int n[];}x={1,2};struct{struct{;}e;int b;}y={1},z={{},2};
x#32 ES S0 = init x(.0=1:i .2=2:i)
y#65 ES S2 = init y(.1=1:i)
z#71 ES S2 = init z(.1=2:i)
<struct s> a:i.2 :i.3 b:i n:[]i
<struct struct :y:0>
<struct :y> e:S1 b:i

// conversions as by assignment (6.7.9p11)
char c=300;long l=1;_Bool b=2;unsigned long u=-1;
c#6 ES c = init c(=conv:c(300:i))
l#17 ES l = init l(=conv:l(1:i))
b#27 ES b = init b(=conv:b(2:i))
u#45 ES ul = init u(=conv:ul(minus:i(1:i)))

// addresses in static objects (6.6p9)
int x,a[3];struct{int m[2];}s;int*p=&x,*q=a+1,*r=&a[1],*t=s.m,*u=&s.m[1];
x#5 ES i used 38
a#7 ES [3]i used 43
s#29 ES S0 used 59
p#35 ES *i = init p(=addr(x:i))
q#41 ES *i = init q(=move(decay(a:[3]i) 1:i))
r#48 ES *i = init r(=addr(deref(move(decay(a:[3]i) 1:i))))
t#57 ES *i = init t(=decay(.0(s:S0)))
u#64 ES *i = init u(=addr(deref(move(decay(.0(s:S0)) 1:i))))
<struct :s> m:[2]i

int f(void),(*p)(void)=f,(*q)(void)=&f;void*v=&p;
f#5 ED ()i used 24
p#15 ES *()i used 48 = init p(=decay(f:()i))
q#28 ES *()i = init q(=addr(f:()i))
v#45 ES *v = init v(=conv:*v(addr(p:*()i)))

enum{A=2};int a[A]={[A-1]=A},n=sizeof a,*p=0,k=(char)257;
a#15 ES [2]i = init a([1]=2:i)
n#30 ES i = init n(=conv:i(8:ul))
p#42 ES *i = init p(=null:*i)
k#46 ES i = init k(=conv:i(conv:c(257:i)))

// an automatic object is initialised by what it likes, in its block
int g(int);void f(int n){int x=g(n),*p=&x;struct{int a,b;}s={n,x};}
g#5 ED (i)i used 32
f#17 EF (i)v = block[x,p,s](init x(=call:i(decay(g:(i)i) get(n:i))) init p(=addr(x:i)) init s(.0=get(n:i) .1=get(x:i)))
n#23 LP i used 34 in f
x#30 LA i used 41 in f = init x(=call:i(decay(g:(i)i) get(n:i)))
p#38 LA *i in f = init p(=addr(x:i))
s#59 LA S0 in f = init s(.0=get(n:i) .1=get(x:i))
<> a:i b:i

void f(int n){static int a[]={1,2},*p=a;int b[]={n,2};}
f#6 EF (i)v = block[b](init b([0]=get(n:i) [1]=2:i))
n#12 LP i used 50 in f
a#26 LS [2]i used 39 in f = init a([0]=1:i [1]=2:i)
p#37 LS *i in f = init p(=decay(a:[2]i))
b#45 LA [2]i in f = init b([0]=get(n:i) [1]=2:i)

// compound literals (6.5.2.5): at file scope static, in a body automatic
int*p=(int[]){1,2},n=sizeof(int[]){1,2,3};
p#5 ES *i = init p(=decay(lit :[2]i(init ([0]=1:i [1]=2:i))))
#7 LS [2]i = init ([0]=1:i [1]=2:i)
n#20 ES i = init n(=conv:i(12:ul))

struct s{int a;};int f(int n){struct s*p=&(struct s){n};return(struct s){.a=1}.a;}
f#22 EF (i)i = block[p](init p(=addr(lit #43:S0(init #43(.0=get(n:i))))) return(get(.0(lit #63:S0(init #63(.0=1:i))))))
n#28 LP i used 54 in f
p#40 LA *S0 in f = init p(=addr(lit #43:S0(init #43(.0=get(n:i)))))
#43 LA S0 in f = init #43(.0=get(n:i))
#63 LA S0 in f = init #63(.0=1:i)
<struct s> a:i";
