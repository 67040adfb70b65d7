// Programs that run, and how each ends that begins at main, where all words of its run are 0.
/// A table of functions, one of which stands in it from the start on.
pub(crate) const TABLE: &str = "typedef void F(void);
void f(void); void g(void);
F *t[2]={f};
void f(void){t[1]=g;} void g(void){}
int main(void){for(int i=0;i<2;i++)
t[i]();
return 0;}
";

/// Programs with how they end, a row each.
pub(crate) const PROGRAMS: &str = "finished`typedef void F(void);
void f(void); void g(void);
F *t[2]={f};
void f(void){t[1]=g;} void g(void){}
int main(void){for(int i=0;i<2;i++)
t[i]();
return 0;}
~
finished`typedef unsigned long Z;
void qsort(void*,Z,Z,int(*)(const void*,const void*));
long strtol(const char*,char**,int);
void *realloc(void*,Z);
int x,*v[2];
int c(const void*l,const void*r){return 0;}
char s[4],*e;
int **d;
int main(void){
v[0]=&x;
qsort(v,2,sizeof v[0],c);
strtol(s,&e,10);
d=realloc(d,16);
d[0]=v[1];
d=realloc(d,32);
return 0;}
~
finished`# 1 \"list.c\"
# 1 \"/usr/include/stdlib.h\" 1 3 4
typedef unsigned long size_t;
extern void *malloc (size_t __size) __attribute__ ((__nothrow__ , __leaf__)) __attribute__ ((__malloc__));
extern int *__errno_location (void) __attribute__ ((__nothrow__ , __leaf__)) __attribute__ ((__const__));
extern const unsigned short int **__ctype_b_loc (void);
enum { _ISalpha = ((2) < 8 ? ((1 << (2)) << 8) : ((1 << (2)) >> 8)) };
extern double strtod (const char *__restrict __nptr, char **__restrict __endptr);
# 3 \"list.c\" 2
struct node { struct node *next; const char *word; };
static struct node *head;
static void push(const char *w)
{
  struct node *n = malloc(sizeof *n);
  if (!n) return;
  n->next = head;
  n->word = w;
  head = n;
}
int main(int argc, char **argv)
{
  if ((*__ctype_b_loc ())[(int) (('a'))] & (unsigned short int) _ISalpha)
    push(\"one\");
  if ((*__errno_location ()) == 0)
    push(argv[0]);
  return 0;
}
~
finished`int x,y,*p; int **q=&p; int main(void){if(1)*q=&x;else *q=&y;p=*q+1;p=p-1;*p=3;return *p-3;}
~
finished`struct s{struct s*n;int*v;}; struct s a,b={&a,0}; int k;
struct s made(struct s*n,int*v){struct s r;r.n=n;r.v=v;return r;}
int main(void){a=made(&b,&k);b=made(a.n,made(&a,&k).v);return a.n!=&b||*b.n->n->v;}
~
stopped`union u{int*a;int*b;}; struct t{union u v;int*d;}; int x,y,*p; struct t g;
int main(void){union u*k=(union u*)&g;k->b=&x;g.d=&y;p=g.v.a;return 0;}
~
finished`typedef unsigned long Z; void*malloc(Z); void free(void*); int x;
int main(void){int**p=malloc(sizeof*p);if(!p)return 1;*p=&x;int*r=*p;free(p);return *r;}
~
finished`typedef unsigned long Z; void*calloc(Z,Z); void*realloc(void*,Z); int x,y;
int main(void){int**p=calloc(2,sizeof*p);if(!p)return 1;p[1]=&x;int**q=realloc(p,4*sizeof*q);if(!q)return 2;q[3]=&y;return *q[1]+*q[3];}
~
finished`typedef unsigned long Z; void*memcpy(void*,const void*,Z); void*memmove(void*,const void*,Z); int x,y;
struct s{int*p;char c[4];int*q;}; struct s a={&x,\"ab\",&y},b; struct s l[3];
int main(void){memcpy(&b,&a,sizeof a);l[0]=b;memmove(l+1,l,2*sizeof*l);return *l[1].p+*b.q;}
~
finished`typedef unsigned long Z; void qsort(void*,Z,Z,int(*)(const void*,const void*));
void*bsearch(const void*,const void*,Z,Z,int(*)(const void*,const void*)); int x,y,z,*v[3]={&z,&y,&x},**f;
int by(const void*a,const void*b){int*const*l=a;int*const*r=b;return **l-**r;}
int main(void){int*k=&y;qsort(v,3,sizeof*v,by);f=bsearch(&k,v,3,sizeof*v,by);return 0;}
~
finished`int atexit(void(*)(void)); void exit(int); int*p,x; void(*h)(void);
void last(void){p=&x;} void first(void){h=last;h();} int main(void){atexit(last);atexit(first);h=first;exit(3);}
~
finished`typedef int I(int); int one(int a){return a;} int two(int a){return a+one(a);} I*t[2]={one,two};
int call(I*f,int a){return f(a);} int main(void){int s=0;for(int i=0;i<2;i++)s+=call(t[i],i)+(i?one:two)(i);return s-5;}
~
finished`int x,y,*p; int main(void){int i=0;
again: switch(i){case 0:p=&x;i=2;goto again;default:p=0;break;case 2:{int*l=&y;p=l;i++;}}
while(i<5){int k,*l=&k;if(i++==3)continue;p=l;break;}
do{int m;p=&m;}while(i++<6);return p==0;}
~
finished`struct l{struct l*n;int v;}; int sum(struct l*p){return p?p->v+sum(p->n):0;}
int main(void){struct l*top=0;for(int i=0;i<2;i++){top=&(struct l){top,i};}return sum(&(struct l){&(struct l){0,2},3})-5;}
~
finished`char*strchr(const char*,int); char*strcpy(char*,const char*); char*strcat(char*,const char*); unsigned long strlen(const char*);
char*e,b[12]; int main(void){char*s=\"a,b\";e=strchr(s,44);strcpy(b,s);strcat(b,e);return strlen(b)!=5;}
~
finished`char*getenv(const char*); char*strdup(const char*); void free(void*); char*k;
int main(int c,char**v){char*h=getenv(\"HOME\");if(h){k=strdup(h);if(k){k[0]=0;free(k);}}for(int i=0;i<c&&v[i];i++)k=v[i];return 0;}
~
finished`struct base{int(*run)(struct base*);}; struct leaf{struct base b;int*own;}; int x; struct leaf a;
int go(struct base*s){if(s==&a.b)*a.own=4;return *a.own;} struct leaf a={{go},&x};
int main(void){struct base*p=(struct base*)&a;return p->run(p)-4;}
~
finished`int*f(int n){static int k[2];static int*at=k;if(n)at=k+1;return at;} int*g(void){int*(*h)(int)=f;return h(1);}
int main(void){int*p=f(0);int*q=g();return (int)(q-p)-1;}
~
finished`typedef struct file F; F*fopen(const char*,const char*); char*fgets(char*,int,F*); int fclose(F*); char b[8],*p;
int main(void){F*f=fopen(\"a\",\"r\");if(!f)return 1;while((p=fgets(b,8,f)))if(p[0]==0)break;return fclose(f)&0;}
~
stopped`int*p; void f(void){int l;p=&l;} int main(void){f();return *p;}
~
stopped`int x,*a[2]; int main(void){a[0]=&x;a[1]=a[0]+1;return *a[1];}
~
finished`typedef unsigned long Z; void*memset(void*,int,Z); struct s{int*p;union{int*q;long n;}u;}; int x; struct s a={&x,{&x}},*k=&a;
int main(void){a.u.n=7;memset(k,0,sizeof*k);k->u.q=&x;struct s b=*k;return b.p!=0||b.u.q!=&x;}
~
finished`long strtol(const char*,char**,int); char w[6]=\"a b c\",*e;
int main(void){strtol(w,&e,10);return e==0;}
";

/// Programs that are entered from outside, a row each: the functions at which they are, and the text.
pub(crate) const ENTERED: &str =
    "put,get,init`struct n{struct n*next;int v;}; struct n*top; int*kept;
void put(struct n*a,int*b){if(a){a->next=top;top=a;}kept=b;}
int*get(void){return kept;} void init(struct n*a){top=a;}
~
swap,call,keep,pass,fresh`typedef void F(int*); struct hidden; int atexit(void(*)(void)); void*malloc(unsigned long);
int x,*last; F*hook; void*raw; struct hidden*own;
void store(int*p){last=p;} void bye(void){last=&x;}
F*swap(F*f){F*old=hook;hook=f?f:store;return old;} void call(int*p){if(hook)hook(p);}
void*keep(void*p,unsigned char n){int**q=p;if(q)q[n%4]=last;raw=p;return raw;}
struct hidden*pass(struct hidden*h){struct hidden*o=own;own=h;return o;}
int**fresh(void){atexit(bye);int**q=malloc(sizeof*q);if(q)*q=&x;return q;}
";
