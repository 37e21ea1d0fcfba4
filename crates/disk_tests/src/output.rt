use crash_disk::{MemOut, Out, OutFault};
use std::test::Fail;

#[test]
fn an_output_has_what_was_put(rt: HostRuntime) -> Result<(), Fail> {
    let mut out = MemOut::new(rt.alloc());
    out.fail_at(2)?;
    out.put(b"one ")?;
    assert_eq!(rt; out.put(b"lost"), Err(OutFault));
    out.put(b"two")?;
    assert_eq!(rt; out.bytes(), b"one two".as_slice());
    assert_eq!(rt; out.faults(), 1);
    assert_eq!(rt; out.starved(), 0);
    Ok(())
}
