// Worked scripts of questions: as in `several`, where the second text is the script.
pub(crate) const SCRIPTS: &str =
    "--workers 2 --desk --ask s a.i`a.i s`0`int x,*p,*q,*r; int main(void){p=&x;return 0;}^points p x
points q x
alias p p
alias q r
`ask 1
yes
no
yes
no
end
`~
--desk a.i`a.i s`2`int x,*p,*q,*r; int main(void){p=&x;return 0;}^``usage
~
--desk --ask s a.i`a.i s`10`int x,*p,*q,*r; int main(void){p=&x;return 0;}^points x p
``question 1
~
--workers 2 --ask s a.i`a.i s`0`int x,*p,*q,*r; int main(void){p=&x;return 0;}^points p x
points q x
alias p p
alias q r
`ask 1
yes
no
yes
no
end
`~
a.i --ask=s`a.i s`0`int x,*p,*q,*r; int main(void){p=&x;return 0;}^points p x

alias p q`ask 1
yes
no
end
`~
--workers 2 --ask s a.i`a.i s`10`int x,*p,*q,*r; int main(void){p=&x;return 0;}^points z x
``question 1
~
--ask s a.i`a.i s`10`int x,*p,*q,*r; int main(void){p=&x;return 0;}^
point p x
``question 2
~
--ask s a.i`a.i s`10`int x,*p,*q,*r; int main(void){p=&x;return 0;}^points x p
``question 1
~
--ask s a.i`a.i s`0`int x,*p,*q,*r; int main(void){p=&x;return 0;}^`ask 1
end
`~
--ask s a.i`a.i s`0`typedef void F(void);
void f(void); void g(void);
F *t[2]={f};
void f(void){t[1]=g;} void g(void){}
int main(void){for(int i=0;i<2;i++)
t[i]();
return 0;}
^reaches a.i:6:5 g
reaches a.i:6:5 main
`ask 1
yes
no
end
`~
--ask s a.i`a.i s`5`int x;^point p x
``link no main
~
--ask a.i a.i`a.i s`10`int x,*p,*q,*r; int main(void){p=&x;return 0;}^``question 1
~
--ask z a.i`a.i s`7`int x,*p,*q,*r; int main(void){p=&x;return 0;}^``source fault z
~
--ask s`a.i s`2`int x,*p,*q,*r; int main(void){p=&x;return 0;}^``usage
~
--ask s --ask s a.i`a.i s`2`int x,*p,*q,*r; int main(void){p=&x;return 0;}^``usage
~
--ask s~ a.i`a.i s`2`int x,*p,*q,*r; int main(void){p=&x;return 0;}^``usage
";
