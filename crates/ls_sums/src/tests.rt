use crate::{Crc64, Order, WalSum, any_cut, page_sum, plain};
use std::test::*;

/// The check of the bytes, in one piece.
fn check_of(bytes: &[u8]) -> u64 {
    let mut check = Crc64::new();
    check.over(bytes);
    check.finish()
}

#[test]
fn the_check_of_nine_digits(rt: HostRuntime) {
    any_cut();
    assert_eq!(rt; check_of(b"123456789"), 0xB909_56C7_75A4_1001);
    assert_eq!(rt; check_of(b""), 0);
}

#[test]
fn pieces_of_every_length_give_one_check(rt: HostRuntime) {
    let mut bytes = [0u8; 40];
    for (place, byte) in bytes.iter_mut().enumerate() {
        *byte = place as u8;
    }
    assert_eq!(rt; plain::crc64(&bytes), 0x3437_fcca_6727_62b7);
    for length in 0..=bytes.len() {
        let mut check = Crc64::new();
        check.over(&bytes[..length]);
        check.over(&bytes[length..]);
        assert_eq!(rt; check.finish(), 0x3437_fcca_6727_62b7, "at {length}");
    }
}

#[test]
fn long_input_in_pieces_has_one_check(rt: HostRuntime) {
    let mut bytes = [0u8; 2603];
    for (place, byte) in bytes.iter_mut().enumerate() {
        *byte = (place % 251) as u8;
    }
    for length in [0usize, 1, 512, 1023, 1024, 1500, 2603] {
        let (front, back) = bytes.split_at(length);
        let mut check = Crc64::new();
        check.over(front);
        check.over(back);
        assert_eq!(rt; check.finish(), 0x6a2d_664a_b115_bae2, "at {length}");
    }
}

#[test]
fn the_sums_of_words(rt: HostRuntime) {
    let pair = [0, 0, 0, 1, 0, 0, 0, 2];
    let sum = WalSum::start().over(Order::Big, &pair);
    assert_eq!(rt; sum, WalSum { s0: 1, s1: 3 });
    assert_eq!(rt; sum.over(Order::Big, &pair), WalSum { s0: 5, s1: 10 });
    let little = WalSum::start().over(Order::Little, &pair);
    assert_eq!(rt;
        little,
        WalSum {
            s0: 0x0100_0000,
            s1: 0x0300_0000
        }
    );
}

/// The header of a log with pages of 512 bytes and salts 1 and 2, without its sums.
const LOG_HEADER: [u8; 24] = [
    0x37, 0x7f, 0x06, 0x83, 0x00, 0x2d, 0xe2, 0x18, 0, 0, 2, 0, 0, 0, 0, 0, 0, 0, 0, 1, 0, 0, 0, 2,
];

#[test]
fn the_sums_of_the_header_of_a_log(rt: HostRuntime) {
    let sum = WalSum::start().over(Order::Big, &LOG_HEADER[..8]);
    assert_eq!(rt;
        sum,
        WalSum {
            s0: 0x377f_0683,
            s1: 0x37ac_e89b
        }
    );
    let sum = sum.over(Order::Big, &LOG_HEADER[8..16]);
    assert_eq!(rt;
        sum,
        WalSum {
            s0: 0x6f2b_f11e,
            s1: 0xa6d8_d9b9
        }
    );
    let whole = WalSum::start().over(Order::Big, &LOG_HEADER);
    assert_eq!(rt;
        whole,
        WalSum {
            s0: 0x1604_cad8,
            s1: 0xbcdd_a493
        }
    );
    assert_eq!(rt; sum.over(Order::Big, &LOG_HEADER[16..]), whole);
}

#[test]
fn the_sum_of_a_page(rt: HostRuntime) {
    let sum = page_sum(258, b"page of a database");
    assert_eq!(rt; sum, 0xd07d_8f7f_f443_cc0d);
}
