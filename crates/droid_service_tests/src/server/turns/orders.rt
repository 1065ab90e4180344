//! Every order in which four connections may send three frames each.

use crate::server::turns::hall::Hall;
use droid_turns::Served;

/// How many orders begin with two frames of one connection, 10! / 3!^3, and with frames of two, 10! / (2! 2! 3! 3!): in
/// all 4 * 16,800 + 12 * 25,200 = 12! / 3!^4.
const ORDERS: [u32; 2] = [16_800, 25_200];

#[test]
fn every_order(rt: HostRuntime) {
    // The two that send first, a digit to base 4 for each.
    for pair in 0..16u32 {
        let mut hall = Hall::new(pair, 19);
        let served = hall.serve(rt.alloc());
        let orders = if pair % 5 == 0 { ORDERS[0] } else { ORDERS[1] };
        assert!(rt;
            served == (Served::All, true) && hall.orders == orders,
            "{pair}"
        );
    }
}
