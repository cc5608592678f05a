ghost use Rattle.std.specs.Prelude.{◌≡◌, ◌≤ℤ◌, ◌⊎◌, All, Contains};
ghost use Rattle.lisp_numbers.specs.Order.{holds, neighbours_hold, least_of, greatest_of};

/// A relation of two numbers.
#[derive(Clone, Copy, Debug, PartialEq, Eq)]
pub enum Relation {
    Equal,
    Unequal,
    Less,
    Greater,
    AtMost,
    AtLeast,
}

fn holds(relation: Relation, a: i64, b: i64) -> bool
    ensures { result ≡ holds relation a b }
{
    match relation {
        Relation::Equal => a == b,
        Relation::Unequal => a != b,
        Relation::Less => a < b,
        Relation::Greater => a > b,
        Relation::AtMost => a <= b,
        Relation::AtLeast => a >= b,
    }
}

/// Whether each number and the one behind it are in this relation.
pub fn each_pair(relation: Relation, first: i64, others: &[i64]) -> bool
    ensures { result ≡ neighbours_hold relation first others.now }
{
    let mut before = first;
    let mut rest = others;
    while let [next, more @ ..] = rest {
        if !holds(relation, before, *next) {
            return false;
        }
        before = *next;
        rest = more;
    }
    true
}

pub fn least(first: i64, others: &[i64]) -> i64
    ensures value { result ≡ least_of first others.now }
    ensures first_bound { result ≤ℤ first }
    ensures others_bound { All (λ n. result ≤ℤ n) others.now }
    ensures reached { (result ≡ first) ⊎ Contains others.now result }
{
    let mut found = first;
    for number in others {
        found = found.min(*number);
    }
    found
}

pub fn greatest(first: i64, others: &[i64]) -> i64
    ensures value { result ≡ greatest_of first others.now }
    ensures first_bound { first ≤ℤ result }
    ensures others_bound { All (λ n. n ≤ℤ result) others.now }
    ensures reached { (result ≡ first) ⊎ Contains others.now result }
{
    let mut found = first;
    for number in others {
        found = found.max(*number);
    }
    found
}
