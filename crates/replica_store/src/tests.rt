use super::*;
use std::test::Fail;

/// Texts, each with the level, the first and the last transaction where it is a name's text.
const TEXTS: [(&str, Option<(u8, u64, u64)>); 30] = [
    (
        "ltx/0/0000000000000001-0000000000000001.ltx",
        Some((0, 1, 1)),
    ),
    (
        "ltx/1/0000000000000002-0000000000000003.ltx",
        Some((1, 2, 3)),
    ),
    (
        "ltx/2/0000000000000010-00000000000000ff.ltx",
        Some((2, 16, 255)),
    ),
    (
        "ltx/3/00000000000000ab-0000000000000100.ltx",
        Some((3, 171, 256)),
    ),
    (
        "ltx/9/0000000000000001-0000000000000004.ltx",
        Some((9, 1, 4)),
    ),
    (
        "ltx/9/0000000000000001-ffffffffffffffff.ltx",
        Some((9, 1, u64::MAX)),
    ),
    (
        "ltx/0/ffffffffffffffff-ffffffffffffffff.ltx",
        Some((0, u64::MAX, u64::MAX)),
    ),
    ("ltx/9/0000000000000002-0000000000000002.ltx", None),
    ("ltx/4/0000000000000001-0000000000000001.ltx", None),
    ("ltx/8/0000000000000001-0000000000000001.ltx", None),
    ("ltx/:/0000000000000001-0000000000000001.ltx", None),
    ("ltx///0000000000000001-0000000000000001.ltx", None),
    ("ltx/00/000000000000001-0000000000000001.ltx", None),
    ("ltx/0/0000000000000000-0000000000000001.ltx", None),
    ("ltx/0/0000000000000000-0000000000000000.ltx", None),
    ("ltx/0/0000000000000002-0000000000000001.ltx", None),
    ("ltx/0/00000000000000AB-0000000000000100.ltx", None),
    ("ltx/0/00000000000000ab-00000000000001AB.ltx", None),
    ("ltx/0/+000000000000001-0000000000000001.ltx", None),
    ("ltx/0/000000000000000g-000000000000000g.ltx", None),
    ("ltx/0/0000000000000001_0000000000000001.ltx", None),
    ("LTX/0/0000000000000001-0000000000000001.ltx", None),
    ("ltx/0/0000000000000001-0000000000000001.LTX", None),
    ("ltx/0/0000000000000001-0000000000000001.ltx.tmp", None),
    ("ltx/0/0000000000000001-0000000000000001.lt", None),
    ("ltx/0/000000000000001-0000000000000001.ltx", None),
    ("ltx/0/00000000000000001-000000000000001.ltx", None),
    ("/ltx/0/0000000000000001-0000000000000001.ltx", None),
    (" ltx/0/000000000000001-0000000000000001.ltx", None),
    ("", None),
];

/// The parts of the name that the text writes, where the name writes that text.
fn parts_of(text: &str) -> Option<(u8, u64, u64)> {
    let name = read_name(text)?;
    if write_name(&name).as_str() != text {
        return None;
    }
    Some((name.level, name.min.number(), name.max.number()))
}

#[test]
fn a_text_is_read_where_a_name_writes_it(rt: HostRuntime) -> Result<(), Fail> {
    for (text, parts) in TEXTS {
        assert_eq!(rt; parts_of(text), parts, "{text}");
    }
    Ok(())
}
