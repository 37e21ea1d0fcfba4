//! Numbers given back in their order.

use super::*;
use std::alloc::{AllocError, Global};
use std::test::*;

/// The numbers with which four cursors wait, and what is given, one after another.
const ROWS: [([u32; 4], [(u32, usize); 4]); 4] = [
    ([1, 2, 3, 4], [(1, 0), (2, 1), (3, 2), (4, 3)]),
    ([9, 7, 5, 3], [(3, 3), (5, 2), (7, 1), (9, 0)]),
    ([5, 2, 5, 2], [(2, 1), (2, 3), (5, 0), (5, 2)]),
    ([6, 6, 6, 6], [(6, 0), (6, 1), (6, 2), (6, 3)]),
];

/// What is given where each cursor waits with one of these numbers.
fn given(alloc: Global, numbers: &[u32]) -> Result<Vec<(u32, usize)>, AllocError> {
    let mut waiting = Waiting::new(alloc, numbers.len())?;
    for place in 0..numbers.len() {
        waiting.put(place, numbers[place]);
    }
    let mut given = Vec::new(alloc);
    for _ in 0..=numbers.len() {
        let Some(next) = waiting.pop() else {
            break;
        };
        given.push(next)?;
    }
    Ok(given)
}

#[test]
fn the_least_number_comes_first_and_of_equal_ones_the_earliest_cursor(
    rt: HostRuntime,
) -> Result<(), Fail> {
    for (numbers, wanted) in &ROWS {
        assert!(rt; given(rt.alloc(), numbers)?.as_slice() == wanted.as_slice());
    }
    Ok(())
}
