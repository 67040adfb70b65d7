// Worked calls over programs that are entered elsewhere than at `main`: as in `several`. The last row is a library of three units:
// a table of strings, its iterator, and a set of strings over them.
pub(crate) const ENTRIES: &str = "--entry put,get,init a.i`a.i`0`struct s{int*v;};
int x;
struct s*made;
void put(struct s*a,int*b){a->v=b;}
struct s*get(void){return made;}
void init(struct s*a){made=a;a->v=&x;}
`pta 1
set made: x <outside>
set put/a: x <outside>
set put/b: x <outside>
set init/a: x <outside>
set <outside>: x <outside>
end
`~
--workers 4 --entry=init,get,put a.i`a.i`0`struct s{int*v;};
int x;
struct s*made;
void put(struct s*a,int*b){a->v=b;}
struct s*get(void){return made;}
void init(struct s*a){made=a;a->v=&x;}
`pta 1
set made: x <outside>
set put/a: x <outside>
set put/b: x <outside>
set init/a: x <outside>
set <outside>: x <outside>
end
`~
--json --entry put,get,init a.i`a.i`0`struct s{int*v;};
int x;
struct s*made;
void put(struct s*a,int*b){a->v=b;}
struct s*get(void){return made;}
void init(struct s*a){made=a;a->v=&x;}
`{\"calls\":[],\"edges\":[],\"report\":2,\"sets\":[{\"members\":[\"x\",\"<outside>\"],\"name\":\"made\"},{\"members\":[\"x\",\"<outside>\"],\"name\":\"put/a\"},{\"members\":[\"x\",\"<outside>\"],\"name\":\"put/b\"},{\"members\":[\"x\",\"<outside>\"],\"name\":\"init/a\"},{\"members\":[\"x\",\"<outside>\"],\"name\":\"<outside>\"}]}
`~
--ask s --entry put,get,init a.i`a.i s`0`struct s{int*v;};
int x;
struct s*made;
void put(struct s*a,int*b){a->v=b;}
struct s*get(void){return made;}
void init(struct s*a){made=a;a->v=&x;}
^points put/a <outside>
alias made <outside>
points <outside> x
points made put
`ask 1
yes
yes
yes
no
end
`~
--entry put,get,init --run 1000 a.i`a.i words`11`struct s{int*v;};
int x;
struct s*made;
void put(struct s*a,int*b){a->v=b;}
struct s*get(void){return made;}
void init(struct s*a){made=a;a->v=&x;}
^6`run 1
store init/a <outside>
store made <outside>
store <outside> x
stopped NullUse a.i:4:29
`~
--entry put,get,init --run 1000 a.i`a.i words`0`struct s{int*v;};
int x;
struct s*made;
void put(struct s*a,int*b){a->v=b;}
struct s*get(void){return made;}
void init(struct s*a){made=a;a->v=&x;}
^3`run 1
finished 0
`~
--entry put,get,init --run 0 a.i`a.i words`0`struct s{int*v;};
int x;
struct s*made;
void put(struct s*a,int*b){a->v=b;}
struct s*get(void){return made;}
void init(struct s*a){made=a;a->v=&x;}
^`run 1
went 0
`~
--entry put,get,init --run 9 a.i`a.i words`3`struct s{int*v;};
int x;
struct s*made;
void put(struct s*a,int*b){a->v=b;}
struct s*get(void){return made;}
void init(struct s*a){made=a;a->v=&x;}
^3 x``words:1:3: malformed
~
--entry put,nope a.i`a.i`12`struct s{int*v;};
int x;
struct s*made;
void put(struct s*a,int*b){a->v=b;}
struct s*get(void){return made;}
void init(struct s*a){made=a;a->v=&x;}
``entry nope
~
--entry nope,put,also a.i`a.i`12`struct s{int*v;};
int x;
struct s*made;
void put(struct s*a,int*b){a->v=b;}
struct s*get(void){return made;}
void init(struct s*a){made=a;a->v=&x;}
``entry nope
~
--entry main a.i`a.i`12`struct s{int*v;};
int x;
struct s*made;
void put(struct s*a,int*b){a->v=b;}
struct s*get(void){return made;}
void init(struct s*a){made=a;a->v=&x;}
``entry main
~
a.i`a.i`5`struct s{int*v;};
int x;
struct s*made;
void put(struct s*a,int*b){a->v=b;}
struct s*get(void){return made;}
void init(struct s*a){made=a;a->v=&x;}
``link no main
~
--entry put,nope --ask s a.i`a.i s`12`struct s{int*v;};
int x;
struct s*made;
void put(struct s*a,int*b){a->v=b;}
struct s*get(void){return made;}
void init(struct s*a){made=a;a->v=&x;}
^bad``entry nope
~
--entry put --ask s a.i`a.i s`10`struct s{int*v;};
int x;
struct s*made;
void put(struct s*a,int*b){a->v=b;}
struct s*get(void){return made;}
void init(struct s*a){made=a;a->v=&x;}
^bad``question 1
~
--entry fine,own a.i`a.i`12`struct s{int*v;};static int own(void){return 0;}int many(int n,...){return n;}int takes(struct s a){return 0;}struct s gives(void){struct s a;return a;}int known(int);int object;typedef int type;int fine(int*p){return 0;}int old(){return 0;}int part(double d){return 0;}``entry own
~
--entry fine,many a.i`a.i`12`struct s{int*v;};static int own(void){return 0;}int many(int n,...){return n;}int takes(struct s a){return 0;}struct s gives(void){struct s a;return a;}int known(int);int object;typedef int type;int fine(int*p){return 0;}int old(){return 0;}int part(double d){return 0;}``entry many
~
--entry fine,takes a.i`a.i`12`struct s{int*v;};static int own(void){return 0;}int many(int n,...){return n;}int takes(struct s a){return 0;}struct s gives(void){struct s a;return a;}int known(int);int object;typedef int type;int fine(int*p){return 0;}int old(){return 0;}int part(double d){return 0;}``entry takes
~
--entry fine,gives a.i`a.i`12`struct s{int*v;};static int own(void){return 0;}int many(int n,...){return n;}int takes(struct s a){return 0;}struct s gives(void){struct s a;return a;}int known(int);int object;typedef int type;int fine(int*p){return 0;}int old(){return 0;}int part(double d){return 0;}``entry gives
~
--entry fine,known a.i`a.i`12`struct s{int*v;};static int own(void){return 0;}int many(int n,...){return n;}int takes(struct s a){return 0;}struct s gives(void){struct s a;return a;}int known(int);int object;typedef int type;int fine(int*p){return 0;}int old(){return 0;}int part(double d){return 0;}``entry known
~
--entry fine,object a.i`a.i`12`struct s{int*v;};static int own(void){return 0;}int many(int n,...){return n;}int takes(struct s a){return 0;}struct s gives(void){struct s a;return a;}int known(int);int object;typedef int type;int fine(int*p){return 0;}int old(){return 0;}int part(double d){return 0;}``entry object
~
--entry fine,type a.i`a.i`12`struct s{int*v;};static int own(void){return 0;}int many(int n,...){return n;}int takes(struct s a){return 0;}struct s gives(void){struct s a;return a;}int known(int);int object;typedef int type;int fine(int*p){return 0;}int old(){return 0;}int part(double d){return 0;}``entry type
~
--entry fine,int a.i`a.i`12`struct s{int*v;};static int own(void){return 0;}int many(int n,...){return n;}int takes(struct s a){return 0;}struct s gives(void){struct s a;return a;}int known(int);int object;typedef int type;int fine(int*p){return 0;}int old(){return 0;}int part(double d){return 0;}``entry int
~
--entry fine,part a.i`a.i`12`struct s{int*v;};static int own(void){return 0;}int many(int n,...){return n;}int takes(struct s a){return 0;}struct s gives(void){struct s a;return a;}int known(int);int object;typedef int type;int fine(int*p){return 0;}int old(){return 0;}int part(double d){return 0;}``entry part
~
--entry fine,old a.i`a.i`0`struct s{int*v;};static int own(void){return 0;}int many(int n,...){return n;}int takes(struct s a){return 0;}struct s gives(void){struct s a;return a;}int known(int);int object;typedef int type;int fine(int*p){return 0;}int old(){return 0;}int part(double d){return 0;}`pta 1
set many/...:
set takes/a.v:
set gives/a.v:
set fine/p: <outside>
set <outside>: <outside>
end
`~
--entry nope a.i`a.i`5`int f(int);int f(long);``link conflict f a.i
~
--entry nope a.i`a.i`5`int f(void);int g(void){return f();}``a.i:1:32: undefined f
~
--entry f a.i b.i`a.i b.i`5`int f(void){return 0;}^int f(void){return 1;}``link twice f b.i
~
--entry f a.i b.i`a.i b.i`12`static int f(void){return 0;}^extern int g;``entry f
~
--entry main a.i`a.i`0`char*k;int main(int c,char**v){k=v[0];return 0;}void f(char**v){k=*v;}`pta 1
set k: <outside>
set main/v: <outside>
set f/v:
set <outside>: <outside>
end
`~
--entry f a.i`a.i`0`char*k;int main(int c,char**v){k=v[0];return 0;}void f(char**v){k=*v;}`pta 1
set k: <outside>
set main/v:
set f/v: <outside>
set <outside>: <outside>
end
`~
a.i`a.i`0`char*k;int main(int c,char**v){k=v[0];return 0;}void f(char**v){k=*v;}`pta 1
set k: <arg>
set main/v: <argv>
set f/v:
set <argv>: <arg>
end
`~
--entry get,on a.i`a.i`0`int x,*p;static void mine(void){p=&x;}
void(*get(void))(void){return mine;}
void on(void(*f)(void)){if(f)
f();}`pta 1
set p: x
set on/f: a.i:mine <outside>
set <outside>: a.i:mine <outside>
call a.i:4:2: a.i:mine
edge on a.i:mine
end
`~
--entry get,on --run 99 a.i`a.i words`0`int x,*p;static void mine(void){p=&x;}
void(*get(void))(void){return mine;}
void on(void(*f)(void)){if(f)
f();}^0 7 0 2`run 1
store on/f a.i:mine
target a.i:4:2 a.i:mine
store p x
finished 0
`~
--entry on --run 99 a.i`a.i words`0`int x,*p;static void mine(void){p=&x;}
void(*get(void))(void){return mine;}
void on(void(*f)(void)){if(f)
f();}^2 1`run 1
finished 0
`~
--entry keep,give,own --run 99 a.i`a.i words`0`int x,*kept;void keep(int*p){kept=p;}int*give(void){return kept;}void own(void){kept=&x;}^4 0 2 0 1 12 0 8 0 16 0 3`run 1
store keep/p <outside>
store kept <outside>
store kept x
store keep/p x
store kept x
store keep/p <outside>
store kept <outside>
finished 0
`~
--entry set --run 99 a.i`a.i words`11`int t[2],*p;void set(int i){p=t+i;}^2 0 0 12 0 0`run 1
store p t
stopped OutOfRange a.i:1:32
`~
--entry join --run 99 a.i`a.i words`0`struct s{struct s*next;int*v;};void join(struct s*a,struct s*b){a->next=b;}^2 1 1`run 1
store join/a <outside>
store join/b <outside>
store <outside> <outside>
finished 0
`~
--entry fill --run 99 a.i`a.i words`0`int x;void fill(void*p){int**q=p;*q=&x;}^2 1 1 1 1 1`run 1
store fill/p <outside>
store fill/q <outside>
store <outside> x
finished 0
`~
--entry leave --run 99 a.i`a.i words`0`void exit(int);void leave(int n){exit(n);}^6 1`run 1
finished 3
`~
--entry bad,use --run 99 a.i`a.i words`11`int*bad(void){int l;return &l;}int use(int*p){return *p;}^0 7`run 1
store use/p bad/l
stopped DeadUse a.i:1:54
`~
--entry bag_add,bag_each bag.i each.i`bag.i each.i`0`void *malloc(unsigned long);
struct bag { struct bag *next; void *item; };
struct bag *bag_add(struct bag *b, void *item)
{
  struct bag *n = malloc(sizeof *n);
  if (!n)
    return b;
  n->next = b;
  n->item = item;
  return n;
}
^struct bag { struct bag *next; void *item; };
int total;
static void count(void *item) { total++; }
void bag_each(struct bag *b, void (*visit)(void *))
{
  if (!visit)
    visit = count;
  for (; b; b = b->next)
    visit(b->item);
}
`pta 1
set bag_add/b: malloc@bag.i:5:25 <outside>
set bag_add/item: malloc@bag.i:5:25 <outside>
set bag_add/n: malloc@bag.i:5:25
set malloc@bag.i:5:25.next: malloc@bag.i:5:25 <outside>
set malloc@bag.i:5:25.item: malloc@bag.i:5:25 <outside>
set each.i:count/item: malloc@bag.i:5:25 <outside>
set bag_each/b: malloc@bag.i:5:25 <outside>
set bag_each/visit: malloc@bag.i:5:25 each.i:count <outside>
set <outside>: malloc@bag.i:5:25 <outside>
call each.i:9:10: each.i:count
edge bag_add malloc
edge bag_each each.i:count
end
`~
--entry table_new,table_put,table_get,table_free,iterator_new,iterator_next,iterator_free,intern,intern_end table.i iterator.i names.i`table.i iterator.i names.i`0`typedef unsigned long size_t;
void *malloc(size_t);
void *calloc(size_t, size_t);
void free(void *);
int strcmp(const char *, const char *);
char *strdup(const char *);
struct entry {
  struct entry *next;
  const char *key;
  void *value;
};
struct table {
  struct entry **buckets;
  size_t size;
  size_t count;
  void (*dispose)(void *);
};
struct table *table_new(size_t, void (*)(void *));
int table_put(struct table *, const char *, void *);
void *table_get(struct table *, const char *);
void table_free(struct table *);
static size_t hash(const char *key)
{
  size_t h = 5381;
  while (*key)
    h = h * 33 + *key++;
  return h;
}
static struct entry **slot(struct table *t, const char *key)
{
  struct entry **at = &t->buckets[hash(key) % t->size];
  while (*at && strcmp((*at)->key, key))
    at = &(*at)->next;
  return at;
}
struct table *table_new(size_t size, void (*dispose)(void *))
{
  struct table *t = malloc(sizeof *t);
  if (!t)
    return 0;
  t->buckets = calloc(size, sizeof *t->buckets);
  if (!t->buckets) {
    free(t);
    return 0;
  }
  t->size = size;
  t->count = 0;
  t->dispose = dispose;
  return t;
}
int table_put(struct table *t, const char *key, void *value)
{
  struct entry **at = slot(t, key);
  struct entry *e = *at;
  if (e) {
    if (t->dispose)
      t->dispose(e->value);
    e->value = value;
    return 1;
  }
  e = malloc(sizeof *e);
  if (!e)
    return -1;
  e->next = 0;
  e->key = key;
  e->value = value;
  *at = e;
  t->count++;
  return 0;
}
void *table_get(struct table *t, const char *key)
{
  struct entry *e = *slot(t, key);
  return e ? e->value : 0;
}
void table_free(struct table *t)
{
  for (size_t i = 0; i < t->size; i++) {
    struct entry *e = t->buckets[i];
    while (e) {
      struct entry *next = e->next;
      if (t->dispose)
        t->dispose(e->value);
      free(e);
      e = next;
    }
  }
  free(t->buckets);
  free(t);
}
^typedef unsigned long size_t;
void *malloc(size_t);
void *calloc(size_t, size_t);
void free(void *);
int strcmp(const char *, const char *);
char *strdup(const char *);
struct entry {
  struct entry *next;
  const char *key;
  void *value;
};
struct table {
  struct entry **buckets;
  size_t size;
  size_t count;
  void (*dispose)(void *);
};
struct table *table_new(size_t, void (*)(void *));
int table_put(struct table *, const char *, void *);
void *table_get(struct table *, const char *);
void table_free(struct table *);
struct iterator {
  struct table *table;
  size_t bucket;
  struct entry *next;
};
struct iterator *iterator_new(struct table *t)
{
  struct iterator *it = malloc(sizeof *it);
  if (it) {
    it->table = t;
    it->bucket = 0;
    it->next = 0;
  }
  return it;
}
static void step(struct iterator *it)
{
  while (!it->next && it->bucket < it->table->size)
    it->next = it->table->buckets[it->bucket++];
}
const char *iterator_next(struct iterator *it, void **value)
{
  step(it);
  struct entry *e = it->next;
  if (!e)
    return 0;
  it->next = e->next;
  if (value)
    *value = e->value;
  return e->key;
}
void iterator_free(struct iterator *it)
{
  free(it);
}
^typedef unsigned long size_t;
void *malloc(size_t);
void *calloc(size_t, size_t);
void free(void *);
int strcmp(const char *, const char *);
char *strdup(const char *);
struct entry {
  struct entry *next;
  const char *key;
  void *value;
};
struct table {
  struct entry **buckets;
  size_t size;
  size_t count;
  void (*dispose)(void *);
};
struct table *table_new(size_t, void (*)(void *));
int table_put(struct table *, const char *, void *);
void *table_get(struct table *, const char *);
void table_free(struct table *);
static struct table *symbols;
static char none[1];
static void drop(void *p)
{
  free(p);
}
const char *intern(const char *s)
{
  if (!symbols)
    symbols = table_new(64, drop);
  char *found = table_get(symbols, s);
  if (!found) {
    char *copy = strdup(s);
    if (!copy || table_put(symbols, s, copy))
      return none;
    found = copy;
  }
  return found;
}
void intern_end(void)
{
  if (symbols)
    table_free(symbols);
  symbols = 0;
}
`pta 1
set table.i:hash/key: malloc@table.i:38:27 malloc@table.i:61:13 malloc@iterator.i:29:31 names.i:none strdup@names.i:34:24 <outside>
set table.i:slot/t: malloc@table.i:38:27 malloc@table.i:61:13 malloc@iterator.i:29:31 names.i:none strdup@names.i:34:24 <outside>
set table.i:slot/key: malloc@table.i:38:27 malloc@table.i:61:13 malloc@iterator.i:29:31 names.i:none strdup@names.i:34:24 <outside>
set table.i:slot/at: malloc@table.i:38:27 calloc@table.i:41:22 malloc@table.i:61:13 malloc@table.i:61:13.next malloc@iterator.i:29:31 names.i:none strdup@names.i:34:24 <outside>
set table_new/dispose: malloc@table.i:38:27 malloc@table.i:61:13 malloc@iterator.i:29:31 names.i:none names.i:drop strdup@names.i:34:24 <outside>
set table_new/t: malloc@table.i:38:27
set malloc@table.i:38:27.buckets: calloc@table.i:41:22
set malloc@table.i:38:27.dispose: malloc@table.i:38:27 malloc@table.i:61:13 malloc@iterator.i:29:31 names.i:none names.i:drop strdup@names.i:34:24 <outside>
set calloc@table.i:41:22: malloc@table.i:38:27 malloc@table.i:61:13 malloc@iterator.i:29:31 names.i:none strdup@names.i:34:24 <outside>
set table_put/t: malloc@table.i:38:27 malloc@table.i:61:13 malloc@iterator.i:29:31 names.i:none strdup@names.i:34:24 <outside>
set table_put/key: malloc@table.i:38:27 malloc@table.i:61:13 malloc@iterator.i:29:31 names.i:none strdup@names.i:34:24 <outside>
set table_put/value: malloc@table.i:38:27 malloc@table.i:61:13 malloc@iterator.i:29:31 names.i:none strdup@names.i:34:24 <outside>
set table_put/at: malloc@table.i:38:27 calloc@table.i:41:22 malloc@table.i:61:13 malloc@table.i:61:13.next malloc@iterator.i:29:31 names.i:none strdup@names.i:34:24 <outside>
set table_put/e: malloc@table.i:38:27 malloc@table.i:61:13 malloc@iterator.i:29:31 names.i:none strdup@names.i:34:24 <outside>
set malloc@table.i:61:13.next: malloc@table.i:38:27 malloc@table.i:61:13 malloc@iterator.i:29:31 names.i:none strdup@names.i:34:24 <outside>
set malloc@table.i:61:13.key: malloc@table.i:38:27 malloc@table.i:61:13 malloc@iterator.i:29:31 names.i:none strdup@names.i:34:24 <outside>
set malloc@table.i:61:13.value: malloc@table.i:38:27 malloc@table.i:61:13 malloc@iterator.i:29:31 names.i:none strdup@names.i:34:24 <outside>
set table_get/t: malloc@table.i:38:27 malloc@table.i:61:13 malloc@iterator.i:29:31 names.i:none strdup@names.i:34:24 <outside>
set table_get/key: malloc@table.i:38:27 malloc@table.i:61:13 malloc@iterator.i:29:31 names.i:none strdup@names.i:34:24 <outside>
set table_get/e: malloc@table.i:38:27 malloc@table.i:61:13 malloc@iterator.i:29:31 names.i:none strdup@names.i:34:24 <outside>
set table_free/t: malloc@table.i:38:27 malloc@table.i:61:13 malloc@iterator.i:29:31 names.i:none strdup@names.i:34:24 <outside>
set table_free/e: malloc@table.i:38:27 malloc@table.i:61:13 malloc@iterator.i:29:31 names.i:none strdup@names.i:34:24 <outside>
set table_free/next: malloc@table.i:38:27 malloc@table.i:61:13 malloc@iterator.i:29:31 names.i:none strdup@names.i:34:24 <outside>
set iterator_new/t: malloc@table.i:38:27 malloc@table.i:61:13 malloc@iterator.i:29:31 names.i:none strdup@names.i:34:24 <outside>
set iterator_new/it: malloc@iterator.i:29:31
set malloc@iterator.i:29:31.table: malloc@table.i:38:27 malloc@table.i:61:13 malloc@iterator.i:29:31 names.i:none strdup@names.i:34:24 <outside>
set malloc@iterator.i:29:31.next: malloc@table.i:38:27 malloc@table.i:61:13 malloc@iterator.i:29:31 names.i:none strdup@names.i:34:24 <outside>
set iterator.i:step/it: malloc@table.i:38:27 malloc@table.i:61:13 malloc@iterator.i:29:31 names.i:none strdup@names.i:34:24 <outside>
set iterator_next/it: malloc@table.i:38:27 malloc@table.i:61:13 malloc@iterator.i:29:31 names.i:none strdup@names.i:34:24 <outside>
set iterator_next/value: malloc@table.i:38:27 malloc@table.i:61:13 malloc@iterator.i:29:31 names.i:none strdup@names.i:34:24 <outside>
set iterator_next/e: malloc@table.i:38:27 malloc@table.i:61:13 malloc@iterator.i:29:31 names.i:none strdup@names.i:34:24 <outside>
set iterator_free/it: malloc@table.i:38:27 malloc@table.i:61:13 malloc@iterator.i:29:31 names.i:none strdup@names.i:34:24 <outside>
set names.i:symbols: malloc@table.i:38:27
set names.i:drop/p: malloc@table.i:38:27 malloc@table.i:61:13 malloc@iterator.i:29:31 names.i:none strdup@names.i:34:24 <outside>
set intern/s: malloc@table.i:38:27 malloc@table.i:61:13 malloc@iterator.i:29:31 names.i:none strdup@names.i:34:24 <outside>
set intern/found: malloc@table.i:38:27 malloc@table.i:61:13 malloc@iterator.i:29:31 names.i:none strdup@names.i:34:24 <outside>
set intern/copy: strdup@names.i:34:24
set <outside>: malloc@table.i:38:27 malloc@table.i:61:13 malloc@iterator.i:29:31 names.i:none strdup@names.i:34:24 <outside>
call table.i:57:17: names.i:drop
call table.i:83:19: names.i:drop
edge table.i:slot table.i:hash
edge table.i:slot strcmp
edge table_new malloc
edge table_new calloc
edge table_new free
edge table_put table.i:slot
edge table_put names.i:drop
edge table_put malloc
edge table_get table.i:slot
edge table_free names.i:drop
edge table_free free
edge iterator_new malloc
edge iterator_next iterator.i:step
edge iterator_free free
edge names.i:drop free
edge intern table_new
edge intern table_put
edge intern table_get
edge intern strdup
edge intern_end table_free
end
`";
