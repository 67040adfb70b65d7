// An outside that fails, that has little room, or that gives and takes few bytes at a time: as in `rows`, and then the number of the read
// that fails, that of the write to `out` that fails, how many bytes one takes at the most (0 for all), and the room of `out`. The report has
// 19 bytes.
pub(crate) const OUTSIDE: &str =
    "a.i`a.i`7`int x,*p; int main(void){p=&x;return 0;}``source fault a.i
`0``0`65536~
a.i`a.i`7`int x,*p; int main(void){p=&x;return 0;}``source fault a.i
`1``0`65536~
a.i`a.i`0`int x,*p; int main(void){p=&x;return 0;}`pta 1
set p: x
end
``2`1`0`65536~
a.i`a.i`8`int x,*p; int main(void){p=&x;return 0;}``sink fault
``0`0`65536~
a.i`a.i`7`int x,*p; int main(void){p=&x;return 0;}``source fault a.i
`7``1`65536~
a.i`a.i`8`int x,*p; int main(void){p=&x;return 0;}`pta 1`sink fault
``5`1`65536~
a.i`a.i`8`int x,*p; int main(void){p=&x;return 0;}`pta 1
set p: x
e`sink fault
``2`8`65536~
a.i`a.i`0`int x,*p; int main(void){p=&x;return 0;}`pta 1
set p: x
end
```19`1`65536~
a.i`a.i`0`int x,*p; int main(void){p=&x;return 0;}`pta 1
set p: x
end
````0`19~
a.i`a.i`8`int x,*p; int main(void){p=&x;return 0;}`pta 1
set p: x
end`sink fault
```0`18~
a.i`a.i`8`int x,*p; int main(void){p=&x;return 0;}`pta 1
set p: x
end`sink fault
```1`18";
