// Runs of the reference machine, with the words that their steps take: as in `several`, the words as the last text.
pub(crate) const RUNS: &str = "--run 1000 a.i`a.i words`0`typedef void F(void);
void f(void); void g(void);
F *t[2]={f};
void f(void){t[1]=g;} void g(void){}
int main(void){for(int i=0;i<2;i++)
t[i]();
return 0;}
^`run 1
target a.i:6:5 f
store t g
target a.i:6:5 g
finished 0
`~
--run 1 a.i`a.i words`0`typedef void F(void);
void f(void); void g(void);
F *t[2]={f};
void f(void){t[1]=g;} void g(void){}
int main(void){for(int i=0;i<2;i++)
t[i]();
return 0;}
^`run 1
went 1
`~
--run 1000 a.i`a.i words`11`void f(int a){}
void (*p)(void);
int main(void){
p=(void(*)(void))f;
p();
return 0;}
^`run 1
store p f
stopped BadCall a.i:5:2
`~
--run 1000 a.i`a.i words`0`int x,y,*p; int main(void){if(1)if(0)p=&x;else p=&y;return 0;}^`run 1
store p y
finished 0
`~
--run 1000 a.i`a.i words`11`union u{int*a;int*b;}; struct t{union u v;int*d;}; int x,y,*p; struct t g; int main(void){union u*k=(union u*)&g;k->b=&x;g.d=&y;p=g.v.a;return 0;}^`run 1
store main/k g.v
store g.v x
store g.d y
stopped Mismatch a.i:1:134
`~
--run 1000 a.i`a.i words`3`int x,*p; int main(void){p=&x;return 0;}^1 x``words:1:3: malformed
~
--run 1000 a.i`a.i words`3`int x,*p; int main(void){p=&x;return 0;}^18446744073709551616``words:1:1: malformed
~
--run 0 a.i`a.i words`0`int x,*p; int main(void){p=&x;return 0;}^`run 1
went 0
`~
--workers 2 --run=99 a.i`a.i words`0`int x,*p; int main(void){p=&x;return 0;}^ 7
0012\t18446744073709551615`run 1
store p x
finished 0
`~
--run 9 a.i`a.i`7`int x,*p; int main(void){p=&x;return 0;}``source fault words
~
--run 9 a.i`a.i words`4`int main(void){p=&x;return 0;}^x``a.i:1:16: not accepted undeclared
~
--run 10000 list.i`list.i words`0`# 1 \"list.c\"
# 1 \"/usr/include/stdlib.h\" 1 3 4
typedef unsigned long size_t;
extern void *malloc (size_t __size) __attribute__ ((__nothrow__ , __leaf__)) __attribute__ ((__malloc__));
extern int *__errno_location (void) __attribute__ ((__nothrow__ , __leaf__)) __attribute__ ((__const__));
extern const unsigned short int **__ctype_b_loc (void);
enum { _ISalpha = ((2) < 8 ? ((1 << (2)) << 8) : ((1 << (2)) >> 8)) };
extern double strtod (const char *__restrict __nptr, char **__restrict __endptr);
# 3 \"list.c\" 2
struct node { struct node *next; const char *word; };
static struct node *head;
static void push(const char *w)
{
  struct node *n = malloc(sizeof *n);
  if (!n) return;
  n->next = head;
  n->word = w;
  head = n;
}
int main(int argc, char **argv)
{
  if ((*__ctype_b_loc ())[(int) (('a'))] & (unsigned short int) _ISalpha)
    push(\"one\");
  if ((*__errno_location ()) == 0)
    push(argv[0]);
  return 0;
}
^`run 1
store list.i:push/w <arg>
store list.i:push/n malloc@list.i:14:26
store malloc@list.i:14:26.word <arg>
store list.i:head malloc@list.i:14:26
finished 0
`~
--run 1000 a.i`a.i words`0`int x,y;
void f(int n,...){
__builtin_va_list a;
__builtin_va_start(a,n);
int *p=__builtin_va_arg(a,int*);
__builtin_va_end(a);
}
int main(void){
f(1,&x);
f(1,&y);
return 0;}^`run 1
store f/... x
store f/a f/...
store f/a f/...
store f/p x
store f/... y
store f/a f/...
store f/a f/...
store f/p y
finished 0
`~
--run 1000 a.i`a.i words`11`int x,y;
void f(int n,...){
__builtin_va_list a;
__builtin_va_start(a,n);
int *p=__builtin_va_arg(a,int*);
__builtin_va_end(a);
}
int main(void){
f(1,2);
f(1,&y);
return 0;}^`run 1
store f/a f/...
stopped Mismatch a.i:5:8
`~
--run 1000001 a.i`a.i words`2`int x,*p; int main(void){p=&x;return 0;}^``usage
~
--run 1 --ask s a.i`a.i s words`2`int x,*p; int main(void){p=&x;return 0;}^^``usage
~
--run 1000 a.i`a.i words`0`void *memcpy(void*,const void*,unsigned long); int main(int c,char**v){char*p;memcpy(&p,v,sizeof p);return 0;}^`run 1
store main/p <arg>
finished 0
`~
--run 1000 a.i`a.i words`0`void*getenv(void*);int main(void){void*p=getenv(0);return p==0;}^`run 1
store main/p <getenv>
finished 0
`~
--run 99 a.i`a.i words`8`int x,*p; int main(void){p=&x;return 0;}^`run 1
sto`sink fault
```0`9";
