// Worked calls over several units: as in `rows`, but that the names stand apart by spaces, and their texts by a caret. All workers together
// read the same of them as one worker.
pub(crate) const SEVERAL: &str =
    "a.i b.i`a.i b.i`0`int *p; static int s; extern int x; int main(void){p=&s;return 0;}^int *p; int x; static int s; void f(void){p=&s;p=&x;}`pta 1
set p: a.i:s x b.i:s
end
`~
a.i b.i`a.i b.i`5`int *p; static int s; extern int x; int main(void){p=&s;return 0;}^long x;``link conflict x b.i
~
a.i b.i`a.i b.i`5`int *p; static int s; extern int x; int main(void){p=&s;return 0;}^int main(void){return 0;}``link twice main b.i
~
a.i`a.i`5`int f(void); int main(void){return f();}``a.i:1:36: undefined f
~
a.i b.i`a.i b.i`0`# 1 \"h.h\" 1
struct node { struct node *next; void (*run)(struct node *, int *); int *data; };
extern struct node *head;
void add(struct node *n);
# 3 \"a.c\" 2
static int x;
static void show(struct node *n, int *d) { n->data = d; }
static struct node first = { 0, show, &x };
int main(void)
{
  add(&first);
  for (struct node *i = head; i; i = i->next)
    i->run(i, i->data);
  return 0;
}
^# 1 \"h.h\" 1
struct node { struct node *next; void (*run)(struct node *, int *); int *data; };
extern struct node *head;
void add(struct node *n);
# 3 \"b.c\" 2
struct node *head;
static int y;
static void mark(struct node *n, int *d) { n->data = &y; }
void add(struct node *n)
{
  static struct node mine;
  mine.run = mark;
  mine.next = head;
  head = &mine;
  n->next = head;
  head = n;
}
`pta 1
set a.i:show/n: a.i:first add/mine
set a.i:show/d: a.i:x b.i:y
set a.i:first.next: a.i:first add/mine
set a.i:first.run: a.i:show
set a.i:first.data: a.i:x b.i:y
set main/i: a.i:first add/mine
set head: a.i:first add/mine
set b.i:mark/n: a.i:first add/mine
set b.i:mark/d: a.i:x b.i:y
set add/n: a.i:first
set add/mine.next: a.i:first add/mine
set add/mine.run: b.i:mark
set add/mine.data: a.i:x b.i:y
call a.i:13:11: a.i:show b.i:mark
edge main a.i:show
edge main b.i:mark
edge main add
end
`~
--workers 2 a.i b.i`a.i b.i`0`typedef unsigned long Z;
void qsort(void*,Z,Z,int(*)(const void*,const void*));
void *bsearch(const void*,const void*,Z,Z,int(*)(const void*,const void*));
int atexit(void(*)(void));
int compare(const void*,const void*);
extern void (*last)(void);
int x,*v[4],*key,**found;
int main(void){
v[0]=&x;
qsort(v,4,sizeof v[0],compare);
found=bsearch(&key,v,4,sizeof v[0],compare);
atexit(last);
return 0;}
^static void bye(void){}
static void other(void){}
void (*last)(void)=bye;
void change(void){last=other;}
int compare(const void*l,const void*r){
int *const *a=l,*const *b=r;
return *a==*b;}
`pta 1
set v: x
set key:
set found: v
set last: b.i:bye b.i:other
set compare/l: v key
set compare/r: v
set compare/a: v key
set compare/b: v
edge main qsort
edge main bsearch
edge main atexit
edge qsort compare
edge bsearch compare
edge atexit b.i:bye
edge atexit b.i:other
end
`~
a.i b.i`a.i b.i`0`char *strchr(const char *s, int c);
void *malloc(unsigned long n);
char t[4], *p, *q;
int main(void){
p=strchr(t,'a');
q=malloc(4);
return 0;}
^static char pool[64];
static char found;
char *strchr(const char *s, int c){return &found;}
static void *malloc(unsigned long n){return pool;}
void *keep(void){return malloc(3);}
`pta 1
set p: b.i:found
set q: malloc@a.i:6:9
set strchr/s: t
edge main strchr
edge main malloc
edge keep b.i:malloc
end
`~
a.i b.i c.i`a.i b.i c.i`0`int main(void){return 0;}^void strlen(char*);^void strlen(char*s){}`pta 1
set strlen/s:
end
`~
a.i b.i c.i`a.i b.i c.i`0`int printf(const char *form, ...);
void say(const char *form, ...);
static int x;
int main(int argc, char **argv)
{
  int (*out)(const char *, ...) = printf;
  void (*tell)(const char *, ...) = say;
  say(\"%\", \"begun\");
  tell(\"% %\", argv[0], &x);
  out(\"%p\", (void *)&x);
  return 0;
}^typedef __builtin_va_list va_list;
void vsay(const char *form, va_list rest);
void say(const char *form, ...)
{
  va_list rest;
  __builtin_va_start(rest, form);
  vsay(form, rest);
  __builtin_va_end(rest);
}^typedef __builtin_va_list va_list;
static const char *last;
static void *any;
void vsay(const char *form, va_list rest)
{
  va_list again;
  __builtin_va_copy(again, rest);
  last = __builtin_va_arg(rest, const char *);
  any = __builtin_va_arg(again, void *);
  __builtin_va_end(again);
}`pta 1
set main/argv: <argv>
set main/out: printf
set main/tell: say
set say/form: str@a.i:8:7 str@a.i:9:8
set say/...: a.i:x str@a.i:8:12 <arg>
set say/rest: say/...
set c.i:last: a.i:x str@a.i:8:12 <arg>
set c.i:any: a.i:x str@a.i:8:12 <arg>
set vsay/form: str@a.i:8:7 str@a.i:9:8
set vsay/rest: say/...
set vsay/again: say/...
set <argv>: <arg>
call a.i:9:7: say
call a.i:10:6: printf
edge main say
edge main printf
edge say vsay
end
`~
--workers 2 a.i b.i`a.i b.i`3`int main(void){^int $;``a.i:1:16: malformed
~
a.i b.i c.i d.i e.i`a.i b.i c.i d.i e.i`0`void f(void); void g(void); int main(void){f();g();return 0;}^static int s; int *p; void f(void){p=&s;}^static int s; extern int *p; int *q; void g(void){q=p;p=&s;}^extern int *q; static int *r; void h(void){r=q;}^static int s; extern int *q; void k(void){q=&s;}`pta 1
set p: b.i:s c.i:s
set q: b.i:s c.i:s e.i:s
set d.i:r: b.i:s c.i:s e.i:s
edge main f
edge main g
end
`~
a.i b.i c.i d.i e.i`a.i b.i c.i d.i e.i`4`int main(void){return 0;}^int x;^int n; void f(void){z;}^int main(void){^int $;``c.i:1:21: not accepted undeclared
";
