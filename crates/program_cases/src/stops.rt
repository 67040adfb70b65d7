// Where a run may stop for a type: as in `rows`.
pub(crate) const STOPS: &str =
    "--stops a.i`a.i`0`union u{int*a;int*b;}; struct t{union u v;int*d;}; int x,y,*p; struct t g; int main(void){union u*k=(union u*)&g;k->b=&x;g.d=&y;p=g.v.a;return 0;}`stops 1
mismatch a.i:1:115
mismatch a.i:1:118
mismatch a.i:1:134
end
`~
--stops a.i`a.i`0`void f(int a){}
void (*p)(void);
int main(void){
p=(void(*)(void))f;
p();
return 0;}
`stops 1
badcall a.i:5:2
end
`~
--stops a.i`a.i`0`int x,*p; int main(void){p=&x;*p=2;return *p;}`stops 1
end
`~
a.i --stops`a.i`0`struct s{int a;int b;}; struct s g; void*v; int*p; struct s*q;
int main(void){
v=&g;p=v;
*p=1;
g.a=2;
q=v;
q->b=3;
return *p;}
`stops 1
mismatch a.i:4:3
mismatch a.i:8:8
end
`~
--stops a.i`a.i`0`int t[2],(*w)[2]; void*v; struct s{int a;}; struct s g,*q;
int main(void){
w=&t;v=w;
q=&g;
q->a=1;
return g.a;}
`stops 1
mismatch a.i:5:2
mismatch a.i:5:5
end
`~
--stops b.i a.i`b.i a.i`0`void free(void*); void f(void*p){
free(p);}
^void*realloc(void*,unsigned long); unsigned long strlen(const char*); void f(void*); void*p;
int main(void){
p=realloc(p,4);f(p);
return strlen(\"a\")==1;}
`stops 1
badcall b.i:2:5
mismatch a.i:3:10
badcall a.i:3:10
mismatch a.i:4:14
end
`~
--stops a.i`a.i`0`union u{int i;char c;}; union u g;
union u f(void){
return g;}
int main(void){
return f().i;}
`stops 1
mismatch a.i:3:8
mismatch a.i:5:11
end
`~
--gen 3 --stops`gen`2`int main(void){``usage
~
--ask s --stops a.i`a.i s`2`int x,*p; int main(void){p=&x;return 0;}^points p x``usage
~
--stops a.i`a.i`3`int main(void){return 0}``a.i:1:24: malformed
";
