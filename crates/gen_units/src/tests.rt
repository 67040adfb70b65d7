// The texts for some numbers, made by other means.
use crate::generate;
use std::test::Fail;

const ONE: &str = "int o0,*p0;\nvoid f0(void){p0=&o0;p0=p0;}\nint main(void){f0();return 0;}\n";

const THREE: &str = "int o0,*p0;\nint o1,*p1;\nint o2,*p2;\n\
    void f0(void){p0=&o0;p1=p0;}\nvoid f1(void){p1=&o1;p2=p1;}\nvoid f2(void){p2=&o2;p0=p2;}\n\
    int main(void){f0();f1();f2();return 0;}\n";

#[test]
fn texts_for_some_numbers(rt: HostRuntime) -> Result<(), Fail> {
    let one = generate(rt.alloc(), 1)?;
    assert_eq!(rt; one.as_slice(), ONE.as_bytes());
    let three = generate(rt.alloc(), 3)?;
    assert_eq!(rt; three.as_slice(), THREE.as_bytes());
    let most = generate(rt.alloc(), 1000)?;
    assert_eq!(rt; most.len(), 61146);
    let mut sum = 0u64;
    for byte in most.iter() {
        sum = sum.wrapping_mul(31).wrapping_add(*byte as u64);
    }
    assert_eq!(rt; sum, 678888781138421600);
    Ok(())
}
