use crate::Computed::{Inexact, Number, OutOfRange, ZeroDivisor};
use crate::{
    Relation, absolute, difference, each_pair, floor, greatest, least, modulo, product, quotient,
    remainder, sum, truncate,
};

const MIN: i64 = i64::MIN;

const MAX: i64 = i64::MAX;

#[test]
fn results_on_the_way_count(rt: HostRuntime) {
    assert_eq!(rt; sum(&[]), Number(0));
    assert_eq!(rt; product(&[]), Number(1));
    assert_eq!(rt; sum(&[MAX, 1, -1]), OutOfRange);
    assert_eq!(rt; sum(&[MAX, -1, 1]), Number(MAX));
    assert_eq!(rt; product(&[MIN, -1, 0]), OutOfRange);
    assert_eq!(rt; difference(MIN, &[]), OutOfRange);
    assert_eq!(rt; difference(-1, &[MAX]), Number(MIN));
    assert_eq!(rt; absolute(MIN), OutOfRange);
}

#[test]
fn quotients_round_as_in_the_standard(rt: HostRuntime) {
    // The rows of the standard's example for FLOOR, TRUNCATE and their remainders, and the bounds.
    for (a, b, down, left, towards_0, rest) in [
        (13, 4, 3, 1, 3, 1),
        (-13, 4, -4, 3, -3, -1),
        (13, -4, -4, -3, -3, 1),
        (-13, -4, 3, -1, 3, -1),
        (MIN, 1, MIN, 0, MIN, 0),
        (MIN, MAX, -2, MAX - 1, -1, -1),
    ] {
        assert_eq!(rt; floor(a, b), Number(down));
        assert_eq!(rt; modulo(a, b), Number(left));
        assert_eq!(rt; truncate(a, b), Number(towards_0));
        assert_eq!(rt; remainder(a, b), Number(rest));
    }
    assert_eq!(rt; floor(MIN, -1), OutOfRange);
    assert_eq!(rt; modulo(MIN, -1), Number(0));
    assert_eq!(rt; quotient(MIN, -1), OutOfRange);
    assert_eq!(rt; quotient(7, 2), Inexact);
    assert_eq!(rt; quotient(-8, 2), Number(-4));
    assert_eq!(rt; quotient(0, 0), ZeroDivisor);
    assert_eq!(rt; modulo(0, 0), ZeroDivisor);
}

#[test]
fn each_neighbour_is_compared(rt: HostRuntime) {
    assert!(rt; each_pair(Relation::Less, 1, &[2, 3]));
    assert!(rt; !each_pair(Relation::Less, 1, &[3, 2]));
    assert!(rt; !each_pair(Relation::Equal, 1, &[2, 1]));
    assert!(rt; each_pair(Relation::AtLeast, 2, &[2, 1]));
    assert!(rt; each_pair(Relation::Greater, 1, &[]));
    assert_eq!(rt; least(3, &[MIN, 2]), MIN);
    assert_eq!(rt; greatest(3, &[MIN, 2]), 3);
}
