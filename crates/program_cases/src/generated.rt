// Generated programs, and their summaries: as in `rows`. No text is read, not even one that stands under the unit's name.
pub(crate) const GENERATED: &str = "--gen 1`gen`0`int main(void){`gen 1
locations 4
members 1
edges 1
end
`~
--gen 3`gen`0`int main(void){`gen 3
locations 10
members 9
edges 3
end
`~
--workers=2 --gen=0000000003`gen`0`int main(void){`gen 3
locations 10
members 9
edges 3
end
`~
--gen 1000`gen`0`int main(void){`gen 1000
locations 3001
members 1000000
edges 1000
end
`~
--gen 1000 --workers 8`gen`0`int main(void){`gen 1000
locations 3001
members 1000000
edges 1000
end
`";
