// Runs of two programs for each part of the reference machine: the order of steps, blocks, the start and the end, reads and
// writes, pointers, numbers, calls, copies, and calls back. Their texts were made by hand.
pub(crate) const MACHINE_RUNS: &str =
    "--run 1000 a.i`a.i words`0`int x,y,*p;int f(void){p=&x;return 0;}int g(void){p=&y;return 0;}
int main(void){return f()+g();}^`run 1
store p x
store p y
finished 0
`~
--run 1000 a.i`a.i words`0`int x,y,*p;int f(void){p=&x;return 0;}int g(void){p=&y;return 0;}
int main(void){return f()+g();}^1`run 1
store p y
store p x
finished 0
`~
--run 1000 a.i`a.i words`0`int x,*p;int main(void){int n=0;again:;int*q=p;if(q)return n-1;p=&x;n=1;goto again;}^`run 1
store p x
store main/q x
finished 0
`~
--run 1000 a.i`a.i words`0`int x,*p;int main(void){int i=0;goto in;{int*q;p=&x;in:q=p;if(i)return *q;i=1;q=&x;}return 3;}^`run 1
store main/q x
finished 3
`~
--run 1000 a.i`a.i words`0`char*k;int main(int c,char**v){k=v[c-1];return c;}^2`run 1
store k <arg>
finished 3
`~
--run 1000 a.i`a.i words`0`char**k;int main(int c,char**v){k=v;while(*k)k++;return k-v-c;}^1`run 1
store k <argv>
store k <argv>
store k <argv>
finished 0
`~
--run 1000 a.i`a.i words`0`int atexit(void(*)(void));void exit(int);int x,y,*p;void one(void){p=&x;}void two(void){p=&y;}
int main(void){atexit(one);atexit(two);exit(3);}^`run 1
store p y
store p x
finished 3
`~
--run 1000 a.i`a.i words`11`int*p;void f(void){int l;p=&l;}int main(void){f();return *p;}^`run 1
store p f/l
stopped DeadUse a.i:1:58
`~
--run 1000 a.i`a.i words`11`int x,*a[2];int main(void){a[0]=&x;a[1]=a[0]+1;return *a[1];}^`run 1
store a x
store a x
stopped OutOfRange a.i:1:55
`~
--run 1000 a.i`a.i words`0`int t[3],*p,*q;int main(void){p=t;q=p+3;p=q-1;return q-p-1;}^`run 1
store p t
store q t
store p t
finished 0
`~
--run 1000 a.i`a.i words`11`void*malloc(unsigned long);int x;
int main(void){int**p=malloc(2*sizeof*p);if(!p)return 1;p[1]=&x;int**q=p+2;return *q!=0;}^`run 1
store main/p malloc@a.i:2:29
store malloc@a.i:2:29 x
store main/q malloc@a.i:2:29
stopped OutOfRange a.i:2:83
`~
--run 1000 a.i`a.i words`0`int x,*p;int main(void){unsigned char c=255;c++;p=c?0:&x;int s=-7;return s/2+3!=0;}^`run 1
store p x
finished 0
`~
--run 1000 a.i`a.i words`11`int x,*p;int main(void){int z=0;p=&x;return 1%z;}^`run 1
store p x
stopped DivideByZero a.i:1:46
`~
--run 1000 a.i`a.i words`0`int x;int*id(int*a){return a;}int*(*g)(int*)=id;int*p;int main(void){p=g(&x);return 0;}^`run 1
target a.i:1:73 id
store id/a x
store p x
finished 0
`~
--run 1000 a.i`a.i words`11`int x,*p;void(*f)(void);int main(void){p=&x;f();return 0;}^`run 1
store p x
stopped NullUse a.i:1:46
`~
--run 1000 a.i`a.i words`0`void*memcpy(void*,const void*,unsigned long);int x;
struct s{int*p;int n;}a={&x,1},b;int main(void){memcpy(&b,&a,sizeof a);return b.n-1;}^`run 1
store b.p x
finished 0
`~
--run 1000 a.i`a.i words`11`void*memset(void*,int,unsigned long);int x,*t[2]={&x,&x},**p=t;
int main(void){memset(t,0,sizeof t);if(*t)return 1;memset(p+1,0,3);return 0;}^`run 1
stopped Mismatch a.i:2:58
`~
--run 1000 a.i`a.i words`0`void qsort(void*,unsigned long,unsigned long,int(*)(const void*,const void*));
int x,y,*v[2]={&x,&y};int by(const void*a,const void*b){return 0;}
int main(void){qsort(v,2,sizeof*v,by);return 0;}^0 0 0 0 3 0`run 1
store by/a v
store by/b v
finished 0
`~
--run 1000 a.i`a.i words`0`void*bsearch(const void*,const void*,unsigned long,unsigned long,int(*)(const void*,const void*));
int x,y,*v[2]={&x,&y},*k=&x,**f;int by(const void*a,const void*b){return 0;}
int main(void){f=bsearch(&k,v,2,sizeof*v,by);return *f!=&y;}^0 0 0 0 0 0 2`run 1
store f v
finished 0
`";
