use super::*;
use std::test::Fail;

#[test]
fn the_numbers_of_a_seed(rt: HostRuntime) {
    for (seed, first, second, third) in [
        (
            7,
            9098160460397411210,
            17628806926561717905,
            16723372171710603212,
        ),
        (
            1,
            7806831264735756412,
            9396908728118811419,
            11960119808228829710,
        ),
    ] {
        let mut draws = Draws::new(seed);
        assert_eq!(rt; draws.next(), first);
        assert_eq!(rt; draws.next(), second);
        assert_eq!(rt; draws.next(), third);
    }
}

#[test]
fn numbers_below_a_bound(rt: HostRuntime) {
    let mut draws = Draws::new(7);
    for (bound, number) in [(21, 17), (8, 7), (3, 0), (1000, 673), (u32::MAX, 572045545)] {
        assert_eq!(rt; draws.below(bound), number, "below {bound}");
    }
}

/// The number of a page of seed 7, its first bytes, and those at offset 96.
const PAGES: [(u32, [u8; 16], [u8; 8]); 2] = [
    (
        1,
        *b"SQLite format 3\0",
        [0, 0, 0, 0, 0x57, 0x28, 0x42, 0x46],
    ),
    (
        2,
        [
            0x7e, 0x43, 0x28, 0xbc, 0x0f, 0x7d, 0xfb, 0x8a, 0xf4, 0xa6, 0x1a, 0x7f, 0x8f, 0xa8,
            0x2e, 0x91,
        ],
        [0x31, 0xa6, 0x60, 0x81, 0x57, 0x28, 0x42, 0x46],
    ),
];

#[test]
fn page_1_alone_begins_with_the_header(rt: HostRuntime) {
    for (number, front, behind) in PAGES {
        let mut draws = Draws::new(7);
        let mut page = [0; PAGE_BYTES];
        draws.fill_page(number, &mut page);
        assert!(rt; page.starts_with(&front), "page {number}");
        assert!(rt; page[96..].starts_with(&behind), "page {number}");
        assert_eq!(rt; draws.next(), 13232114453184238986);
    }
}

/// A seed, the size of its first commit with drawn numbers, the numbers of the pages in rising order, the first bytes
/// of the page at a place among them, and the generator's next number. Seed 5 draws page 262 twice.
const COMMITS: [(u64, u32, &[u32], u64, [u8; 8], u64); 3] = [
    (
        7,
        307,
        &[122, 163, 231, 248, 262, 286, 290, 292],
        0,
        [0xf4, 0x78, 0x9b, 0x46, 0xd8, 0xf9, 0x41, 0xf4],
        10668478759198649332,
    ),
    (
        1,
        298,
        &[32, 267],
        0,
        [0x3e, 0xd7, 0x4d, 0x19, 0x7d, 0x83, 0x33, 0xf0],
        13330722861423574512,
    ),
    (
        5,
        297,
        &[22, 83, 98, 115, 262],
        4,
        [0x69, 0x6e, 0x37, 0x75, 0xcf, 0x37, 0x6b, 0xd8],
        8208608044169704920,
    ),
];

/// Whether the page at this place, counted from 0, begins with these bytes.
fn begins_with(commit: &DrawnCommit, at: u64, front: &[u8]) -> bool {
    let Some(number) = commit.pages.number_at(at) else {
        return false;
    };
    match commit.pages.get(number) {
        Some(page) => page.bytes().starts_with(front),
        None => false,
    }
}

#[test]
fn a_commit_of_drawn_numbers(rt: HostRuntime) -> Result<(), Fail> {
    for (seed, size, numbers, place, front, next) in COMMITS {
        let mut draws = Draws::new(seed);
        let commit = draws.commit(rt.alloc())?;
        assert_eq!(rt; commit.size, size);
        for at in 0..numbers.len() {
            assert_eq!(rt; commit.pages.number_at(at as u64), numbers.get(at).copied());
        }
        assert_eq!(rt; commit.pages.number_at(numbers.len() as u64), None);
        assert!(rt; begins_with(&commit, place, &front), "seed {seed}");
        assert_eq!(rt; draws.next(), next);
    }
    Ok(())
}

#[test]
fn a_first_commit(rt: HostRuntime) -> Result<(), Fail> {
    let mut draws = Draws::new(7);
    let commit = draws.first_commit(rt.alloc())?;
    assert_eq!(rt; commit.size, 300);
    assert_eq!(rt; commit.pages.number_at(0), Some(1));
    assert_eq!(rt; commit.pages.number_at(299), Some(300));
    assert_eq!(rt; commit.pages.number_at(300), None);
    let second = [0xb7, 0xa1, 0xe9, 0xfd, 0x09, 0x5b, 0xd5, 0x8a];
    assert!(rt; begins_with(&commit, 1, &second));
    let last = [0x90, 0xec, 0xee, 0x36, 0x49, 0xcb, 0x99, 0x8a];
    assert!(rt; begins_with(&commit, 299, &last));
    assert_eq!(rt; draws.next(), 7861478125821588362);
    Ok(())
}
