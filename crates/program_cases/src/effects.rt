// What functions may read and write: as in `rows`.
pub(crate) const EFFECTS: &str =
    "--effects a.i`a.i`0`int x,*p; int main(void){p=&x;return 0;}`effects 1
reads main:
writes main: p
end
`~
--effects a.i`a.i`0`typedef void F(void);
void f(void); void g(void);
F *t[2]={f};
void f(void){t[1]=g;} void g(void){}
int main(void){for(int i=0;i<2;i++)
t[i]();
return 0;}
`effects 1
reads f:
writes f: t
reads g:
writes g:
reads main: t main/i
writes main: t main/i
end
`~
--effects a.i`a.i`0`int a,b,c,d;
void f(void); void g(void); void h(void);
void f(void){a=1;g();} void g(void){b=c;h();} void h(void){if(b)f();}
void k(void){d=a;}
int main(void){f();k();return 0;}
`effects 1
reads f: b c
writes f: a b
reads g: b c
writes g: a b
reads h: b c
writes h: a b
reads k: a
writes k: d
reads main: a b c
writes main: a b d
end
`~
--effects --workers 3 a.i`a.i`0`struct s{int a;int*b;}; struct s m,n; struct s*p; union u{int i;char c;} v;
int main(void){p=&n;*p=m;p->a++;v.c=1;return m.a;}
`effects 1
reads main: m m.a m.b n.a p
writes main: n n.a n.b p v
end
`~
a.i --effects`a.i`0`void*memcpy(void*,const void*,unsigned long); void*malloc(unsigned long);
int x,y; int*q;
void set(void){memcpy(&x,&y,4);}
int main(void){
q=malloc(4);
set();return 0;}
`effects 1
reads set: x y
writes set: x y
reads main: x y
writes main: x y q malloc@a.i:5:9
end
`~
--effects a.i`a.i`0`void qsort(void*,unsigned long,unsigned long,int(*)(const void*,const void*));
int n; int t[3];
int less(const void*a,const void*b){n++;return *(const int*)a-*(const int*)b;}
int main(void){qsort(t,3,4,less);return 0;}
`effects 1
reads less: n t less/a less/b
writes less: n
reads main: n t less less/a less/b
writes main: n t less
end
`~
--effects b.i a.i`b.i a.i`0`static int n; int*f(void){
int*p=(int[2]){n,1};
return p;}
^int*f(void); int main(void){struct s{int a;int b;} w={1};f();return w.b;}
`effects 1
reads f: b.i:n f/p
writes f: f/p lit@b.i:2:7
reads main: b.i:n f/p main/w.b
writes main: f/p lit@b.i:2:7 main/w main/w.a main/w.b
end
`~
--json --effects a.i`a.i`2`int x,*p; int main(void){p=&x;return 0;}``usage
~
--stops --effects a.i`a.i`2`int x,*p; int main(void){p=&x;return 0;}``usage
~
--effects a.i`a.i`5`int f(void);
int main(void){return f();}``a.i:2:23: undefined f
";
