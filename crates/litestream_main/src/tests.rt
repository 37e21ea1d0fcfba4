use crate::std_out::StdOut;
use crash_disk::Out;
use std::test::Fail;

#[test]
fn both_streams_take_bytes(rt: HostRuntime) -> Result<(), Fail> {
    for mut out in [StdOut::stdout(rt), StdOut::stderr(rt)] {
        out.put(b"one line\n")?;
        assert_eq!(rt; out.faults(), 0);
    }
    Ok(())
}
